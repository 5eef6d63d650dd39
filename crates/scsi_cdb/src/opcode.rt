// Operation codes and service actions (SPC-4, Operation codes; SBC-3, Commands for direct access
// block devices).

pub const TEST_UNIT_READY: u8 = 0x00;

pub const REQUEST_SENSE: u8 = 0x03;

pub const INQUIRY: u8 = 0x12;

pub const READ_CAPACITY_10: u8 = 0x25;

pub const READ_10: u8 = 0x28;

pub const WRITE_10: u8 = 0x2a;

pub const UNMAP: u8 = 0x42;

pub const PERSISTENT_RESERVE_IN: u8 = 0x5e;

pub const PERSISTENT_RESERVE_OUT: u8 = 0x5f;

pub const THIRD_PARTY_COPY_OUT: u8 = 0x83;

pub const THIRD_PARTY_COPY_IN: u8 = 0x84;

pub const READ_16: u8 = 0x88;

pub const WRITE_16: u8 = 0x8a;

pub const SERVICE_ACTION_IN_16: u8 = 0x9e;

pub const REPORT_LUNS: u8 = 0xa0;

// Service actions of PERSISTENT RESERVE IN.
pub const READ_KEYS: u8 = 0x00;

pub const READ_RESERVATION: u8 = 0x01;

// Service actions of THIRD-PARTY COPY OUT.
pub const EXTENDED_COPY_LID1: u8 = 0x00;

pub const POPULATE_TOKEN: u8 = 0x10;

pub const WRITE_USING_TOKEN: u8 = 0x11;

pub const COPY_OPERATION_ABORT: u8 = 0x1c;

// Service actions of THIRD-PARTY COPY IN.
pub const COPY_STATUS_LID1: u8 = 0x00;

pub const COPY_OPERATING_PARAMETERS: u8 = 0x03;

pub const COPY_STATUS_LID4: u8 = 0x05;

pub const ROD_TOKEN_INFORMATION: u8 = 0x07;

// Service actions of SERVICE ACTION IN (16).
pub const READ_CAPACITY_16: u8 = 0x10;

pub const GET_LBA_STATUS: u8 = 0x12;
