use cm_base::Sequence;

/// A copy source or destination (SPC-4, Identification descriptor CSCD descriptor).
#[derive(Drop, Clone, Copy)]
pub struct Cscd {
    /// Peripheral device type.
    pub device: u8,
    /// The eight bytes of a binary NAA designator of the logical unit, where the descriptor has one.
    pub name: Option<[u8; 8]>,
    /// Bytes of a block of the disk.
    pub block_length: u32,
}

/// Blocks that are to be copied (SPC-4, Block device to block device segment descriptor).
#[derive(Drop, Clone, Copy)]
pub struct Segment {
    /// Place of the source among the CSCD descriptors.
    pub source: u16,
    /// Place of the destination among the CSCD descriptors.
    pub destination: u16,
    /// Blocks that are copied.
    pub count: u16,
    /// First block at the source.
    pub from: u64,
    /// First block at the destination.
    pub to: u64,
}

/// The CSCDs of one list, at most 16.
pub type CscdList = Sequence<Cscd>;

/// The segments of one list, at most 64, in the order in which they are copied.
pub type SegmentList = Sequence<Segment>;

/// What an EXTENDED COPY asks for.
#[derive(Drop)]
pub struct CopyList {
    /// LIST IDENTIFIER.
    pub id: u8,
    /// LIST ID USAGE, 0 to 3.
    pub usage: u8,
    pub units: CscdList,
    pub segments: SegmentList,
}
