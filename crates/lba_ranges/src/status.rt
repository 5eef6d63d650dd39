use cm_base::Sequence;

/// Blocks in a row that are all mapped, or all unmapped (SBC-3, GET LBA STATUS).
#[derive(Drop, Clone, Copy)]
pub struct MapRun {
    pub lba: u64,
    pub count: u32,
    pub mapped: bool,
}

/// Runs of mapped and unmapped blocks, at most 64.
pub type StatusList = Sequence<MapRun>;
