use lba_ranges::RangeList;

/// What a POPULATE TOKEN asks for (SBC-3, POPULATE TOKEN parameter list).
#[derive(Drop)]
pub struct PopulateList {
    /// Inactivity timeout in seconds, 1 to 3600.
    pub timeout: u32,
    /// The blocks of the token, none of them twice, at most 1,048,576.
    pub ranges: RangeList,
}

/// What a WRITE USING TOKEN asks for (SBC-3, WRITE USING TOKEN parameter list).
#[derive(Drop)]
pub struct WriteList {
    /// The blocks are written in the background.
    pub immed: bool,
    /// The token is deleted when the blocks were written.
    pub delete: bool,
    /// Blocks of the token that are left out at its front.
    pub offset: u64,
    pub token: [u8; 512],
    /// The blocks that are written, none of them twice, at most 1,048,576.
    pub ranges: RangeList,
}
