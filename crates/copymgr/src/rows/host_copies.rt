// Jobs of a host copier with the replies that it is given, and what it asks.

use crate::status::Status;

/// One copy. Its bytes are words as those of a row.
pub struct HostCopy {
    pub name: &'static str,
    pub input: &'static str,
    pub output: &'static str,
    pub status: Status,
}

/// Copies two extents of 8 blocks of unit 0, at 0 and 100, to 16 blocks from 50 on of unit 1; a write is polled 3
/// times.
pub const JOB: &str =
    "000000010000000300000002000000010000000000000000000000080000000000000064000000080000000000\
00003200000010";

/// A job that is copied, and those that have no extents, are cut short or do not poll.
pub fn copies() -> &'static [HostCopy] {
    &COPIES
}

static COPIES: [HostCopy; 4] = [
    HostCopy {
        name: "a job of one part",
        input: "JOB \
            000000000000000000000226000002221001000000000000000000f10000000000000010000000000000000000000202 \
            000000800000000001f80000000000000000e40000000103000830000000000000000000000000000000000000000000 \
            0200000000000000000000000000000020007d2bfd396a19c5d97703bd8d494adcb86fd8358acc6adebc4c7dccb29224 \
            ead8 00*427 \
            24000000201101000000000000000000f10000000000000010000000000000000000000000",
        output: "\
            00000030000083100000000000000001000000300000002e02000000012c008000000000002000000000000000000000 \
            000800000000000000000000006400000008000000000000000000008407000000010000000000000400000000000228 \
            0001831100000000000000020000022800000226030000000000000000000000000000800000000001f8000000000000 \
            0000e4000000010300083000000000000000000000000000000000000000000002000000000000000000000000000000 \
            20007d2bfd396a19c5d97703bd8d494adcb86fd8358acc6adebc4c7dccb29224ead8 00*423 \
            100000000000000032000000100000000000000000000184070000000200000000000004000000",
        status: Status::Done,
    },
    HostCopy {
        name: "a job without extents",
        input: "00000001000000010000000000000000",
        output: "",
        status: Status::Done,
    },
    HostCopy {
        name: "fifteen bytes of a job",
        input: "000000010000000100000000000000",
        output: "",
        status: Status::Torn(0),
    },
    HostCopy {
        name: "a job that does not poll",
        input: "00000001000000000000000000000000",
        output: "",
        status: Status::BadHeader(4),
    },
];
