// Worked traces: what goes in, what comes out, and how the program ends.

pub mod first_path;
pub mod generated;
pub mod host_copies;
pub mod long_data;
pub mod sessions;
pub mod words;

use crate::status::Status;
use std::test::Fail;

/// One trace. Its bytes are words of hex text; `11*512` is the byte 11h 512 times, and the name of a constant stands
/// for its text.
pub struct Row {
    pub name: &'static str,
    pub trace: &'static str,
    pub replies: &'static str,
    pub status: Status,
}

/// One unit of 100 blocks of 512 bytes; the secret is the bytes 00h to 1Fh.
const HEADER: &str =
    "434d545241434531000102030405060708090a0b0c0d0e0f101112131415161718191a1b1c1d1e1f0001\
0000000000000064000002000010000000000000000000641000000000000000";

/// A Run of initiator 1.
const RUN: &str = "02000000010000000000000000";

/// The hex text that a word of a trace stands for.
pub fn hex_text(word: &str) -> &str {
    match word {
        "HEADER" => HEADER,
        "JOB" => host_copies::JOB,
        "RUN" => RUN,
        _ => word,
    }
}

/// The row of a name.
pub fn named(rows: &'static [Row], name: &str) -> Result<&'static Row, Fail> {
    for row in rows {
        if row.name == name {
            return Ok(row);
        }
    }
    Err(Fail::new("no row has this name"))
}
