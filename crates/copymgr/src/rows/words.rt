// Words, and what the program says to them.

/// Each is a number of rounds, and what the program says when it has generated so many.
pub fn generated() -> &'static [(&'static str, &'static str)] {
    &GENERATED
}

/// Each is a line of words to which the program tells its usage.
pub fn other() -> &'static [&'static [&'static str]] {
    &OTHER
}

/// Numbers of rounds, each with what is counted in the generated trace of so many.
static GENERATED: [(&str, &str); 3] = [
    (
        "1",
        "records 12\nreplies 5\ngood 5\ncheck 0\nbusy 0\nfull 0\nsteps 7\nbytes 4182\n",
    ),
    (
        "20",
        "records 240\nreplies 100\ngood 100\ncheck 0\nbusy 0\nfull 0\nsteps 140\nbytes 83640\n",
    ),
    (
        "64",
        "records 768\nreplies 320\ngood 320\ncheck 0\nbusy 0\nfull 0\nsteps 448\nbytes 267648\n",
    ),
];

/// Words that the program doesn't know.
static OTHER: [&[&str]; 28] = [
    &[],
    &[""],
    &["Replay"],
    &["replay", "replay"],
    &["replay", "1"],
    &["Copy"],
    &["copy", "127.0.0.1:3260"],
    &["copy", "127.0.0.1:3260", "1"],
    &["--help"],
    &["--version"],
    &["gen"],
    &["gen", ""],
    &["gen", "0"],
    &["gen", "00"],
    &["gen", "01"],
    &["gen", "+1"],
    &["gen", "-1"],
    &["gen", " 1"],
    &["gen", "1 "],
    &["gen", "1e3"],
    &["gen", "4097"],
    &["gen", "4294967297"],
    &["gen", "18446744073709551617"],
    &["gen", "1", "2"],
    &["Gen", "1"],
    &["1", "gen"],
    &["serve", "127.0.0.1:3260", "1"],
    &["store", "127.0.0.1:3260", "1", "journals"],
];
