use lba_ranges::RangeList;

/// The blocks of a token: a pin shows them, and these are their ranges.
#[derive(Drop)]
pub struct PinnedRod<P> {
    pub pin: P,
    pub ranges: RangeList,
}
