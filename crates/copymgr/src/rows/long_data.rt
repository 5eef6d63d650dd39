// Worked traces of a data-out that does not fit in one pull: a WRITE(16) of 129 blocks at 0, to one unit of 200 blocks
// of 512 bytes, and a READ(16) of as many.

use super::Row;
use crate::status::Status;

/// The Write that comes whole, and the one that ends before its last byte.
pub fn rows() -> &'static [Row] {
    &ROWS
}

static ROWS: [Row; 2] = [
    Row {
        name: "long write then read",
        trace: "\
            434d545241434531000102030405060708090a0b0c0d0e0f101112131415161718191a1b1c1d1e1f0001 \
            00000000000000c8000002000000100000000000000000c81000000000000000 \
            010000000100000000000000000001020000008a000000000000000000000000810000 11*66047 22 RUN \
            0100000001000000000000000000000000000088000000000000000000000000810000 RUN",
        replies: "00000001000000000000 00000001000000010200 11*66047 22",
        status: Status::Done,
    },
    Row {
        name: "cut before the last byte of a long write",
        trace: "\
            434d545241434531000102030405060708090a0b0c0d0e0f101112131415161718191a1b1c1d1e1f0001 \
            00000000000000c8000002000000100000000000000000c81000000000000000 \
            010000000100000000000000000001020000008a000000000000000000000000810000 11*66047",
        replies: "",
        status: Status::Torn(74),
    },
];
