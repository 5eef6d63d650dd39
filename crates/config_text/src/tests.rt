use crate::{ConfigFault, TextFault, Told, UnitFault, UnitKey, read_file};
use cm_base::UnitConfig;
use cm_frame::write_header;
use std::alloc::Global;
use std::test::Fail;

/// What is answered to a file.
#[derive(Debug, Clone, Copy, PartialEq, Eq)]
enum Answer {
    /// So many units, the numbers of the last one, and the secret 0 to 31.
    Whole(u16, [u64; 6]),
    /// So many units, and the secret is in another file.
    SecretIn(usize),
    OtherSecret,
    OutOfMemory,
    NotToml(usize),
    Text(usize, TextFault),
    Header(u64),
}

fn is_secret(secret: &[u8; 32]) -> bool {
    for index in 0..32 {
        if usize::from(secret[index]) != index {
            return false;
        }
    }
    true
}

fn numbers(unit: UnitConfig) -> [u64; 6] {
    let (length, entries) = (u64::from(unit.block_length), u64::from(unit.entries));
    let (payload, group) = (u64::from(unit.payload), u64::from(unit.group));
    [unit.blocks, length, entries, unit.quota, payload, group]
}

fn answer_of(told: &Told) -> Answer {
    match told {
        Told::Whole(config) if is_secret(config.secret()) => {
            let units = config.units();
            Answer::Whole(units, numbers(config.unit(units - 1)))
        }
        Told::SecretIn { path, units } if path.as_str() == "a.secret" => {
            Answer::SecretIn(units.len())
        }
        _ => Answer::OtherSecret,
    }
}

fn answered(alloc: Global, file: &[u8]) -> Answer {
    match read_file(alloc, file) {
        Ok(told) => answer_of(&told),
        Err(ConfigFault::OutOfMemory) => Answer::OutOfMemory,
        Err(ConfigFault::Header { place }) => Answer::Header(place),
        Err(ConfigFault::Text { line, fault }) => match fault {
            TextFault::NotToml(_) => Answer::NotToml(line),
            _ => Answer::Text(line, fault),
        },
    }
}

/// The numbers of a unit of which only the blocks are told.
const PLAIN: [u64; 6] = [8, 512, 1_048_576, 8, 268_435_456, 0];

/// Texts of units, and what is answered where the secret is in a file, which a line before them says.
fn rows() -> [(&'static str, Answer); 21] {
    [
        ("[[unit]]\r\nblocks = 8\r\n", Answer::SecretIn(1)),
        ("unit = [{blocks = 8}, {blocks = 1}]", Answer::SecretIn(2)),
        ("\n[[unit]\nblocks = 8", Answer::NotToml(3)),
        (
            "unit = [\n{blocks = 8},\n8,\n]",
            unit(5, 1, UnitFault::NotTable),
        ),
        (
            "color = 1\n[[unit]]\nblocks = 8",
            Answer::Text(2, TextFault::UnknownKey),
        ),
        (
            "[[unit]]\nblocks = 8\nsize = 1",
            unit(4, 0, UnitFault::UnknownKey),
        ),
        ("", Answer::Text(1, TextFault::NoUnits)),
        ("unit = []", Answer::Text(1, TextFault::NoUnits)),
        ("[unit]\nblocks = 8", Answer::Text(2, TextFault::NotUnits)),
        (SEVENTEEN, Answer::Text(2, TextFault::ManyUnits)),
        ("secret = \"00\"", Answer::Text(2, TextFault::TwoSecrets)),
        (
            "[[unit]]\nblocks = 8\n[[unit]]\n",
            unit(4, 1, UnitFault::NoBlocks),
        ),
        ("[[unit]]\nblocks = 0", out_of_range(3, UnitKey::Blocks)),
        (
            "[[unit]]\nblocks = 4294967297",
            out_of_range(3, UnitKey::Blocks),
        ),
        ("[[unit]]\nblocks = -1", out_of_range(3, UnitKey::Blocks)),
        (
            "[[unit]]\nblocks = 8.0",
            unit(3, 0, UnitFault::NotNumber(UnitKey::Blocks)),
        ),
        (
            "[[unit]]\nblock_length = 1024\nblocks = 8",
            out_of_range(3, UnitKey::BlockLength),
        ),
        (
            "[[unit]]\nblocks = 8\nquota = 9",
            out_of_range(4, UnitKey::Quota),
        ),
        (
            "[[unit]]\nblocks = 8\nentries = 0",
            out_of_range(4, UnitKey::Entries),
        ),
        (
            "[[unit]]\nblocks = 8\npayload = 268435457",
            out_of_range(4, UnitKey::Payload),
        ),
        (
            "[[unit]]\nblocks = 8\ngroup = 16",
            out_of_range(4, UnitKey::Group),
        ),
    ]
}

const SEVENTEEN: &str =
    "unit = [{blocks=1},{blocks=1},{blocks=1},{blocks=1},{blocks=1},{blocks=1},{blocks=1},{blocks=1},{blocks=1},{blocks=1},{blocks=1},{blocks=1},{blocks=1},{blocks=1},{blocks=1},{blocks=1},{blocks=1}]";

const WHOLE: &str = "# two units
secret = \"000102030405060708090a0b0c0d0e0f101112131415161718191A1B1C1D1E1F\"
[[unit]]
blocks = 8

[[unit]]
quota = 7
blocks = 4_096  # 16 MiB
block_length = 4096
entries = 10
payload = 0x200
group = 15
";

const PLAIN_TEXT: &str =
    "secret = \"000102030405060708090a0b0c0d0e0f101112131415161718191a1b1c1d1e1f\"
unit = [{blocks = 8}]";

/// Whole texts, and what is answered.
fn texts() -> [(&'static str, Answer); 6] {
    [
        (WHOLE, Answer::Whole(2, [4096, 4096, 10, 7, 512, 15])),
        (PLAIN_TEXT, Answer::Whole(1, PLAIN)),
        ("[[unit]]\nblocks = 8", Answer::Text(1, TextFault::NoSecret)),
        ("secret = \"0001\"\n", Answer::Text(1, TextFault::BadSecret)),
        ("\nsecret_file = 1\n", Answer::Text(2, TextFault::BadPath)),
        ("CMTRACE1", Answer::Header(8)),
    ]
}

fn unit(line: usize, unit: usize, fault: UnitFault) -> Answer {
    Answer::Text(line, TextFault::Unit { unit, fault })
}

fn out_of_range(line: usize, key: UnitKey) -> Answer {
    unit(line, 0, UnitFault::OutOfRange(key))
}

/// A text that is answered otherwise.
fn first_wrong(alloc: Global, rows: &[(&'static str, Answer)]) -> Option<Answer> {
    for index in 0..rows.len() {
        let (text, wanted) = rows[index];
        let found = answered(alloc, text.as_bytes());
        if found != wanted {
            return Some(found);
        }
    }
    None
}

/// The same, behind a line that says the file of the secret.
fn first_wrong_behind(
    alloc: Global,
    rows: &[(&'static str, Answer)],
) -> Result<Option<Answer>, Fail> {
    for index in 0..rows.len() {
        let (text, wanted) = rows[index];
        let file = format!(in alloc; "secret_file = \"a.secret\"\n{text}")?;
        let found = answered(alloc, file.as_bytes());
        if found != wanted {
            return Ok(Some(found));
        }
    }
    Ok(None)
}

/// What is answered to the header that a text spells.
fn spelled(alloc: Global, text: &str) -> Result<Answer, Fail> {
    match read_file(alloc, text.as_bytes())? {
        Told::Whole(config) => Ok(answered(alloc, write_header(alloc, &config)?.as_slice())),
        Told::SecretIn { .. } => Ok(Answer::OtherSecret),
    }
}

/// What is said of a file.
fn said(alloc: Global, file: &[u8]) -> Result<String, Fail> {
    match read_file(alloc, file) {
        Ok(_) => Ok(format!(in alloc; "told")?),
        Err(fault) => Ok(format!(in alloc; "{fault}")?),
    }
}

#[test]
fn what_files_tell(rt: HostRuntime) -> Result<(), Fail> {
    let alloc = rt.alloc();
    assert_eq!(rt; first_wrong(alloc, &texts()), None);
    assert_eq!(rt; first_wrong_behind(alloc, &rows())?, None);
    assert_eq!(rt; spelled(alloc, PLAIN_TEXT)?, Answer::Whole(1, PLAIN));
    assert_eq!(rt; answered(alloc, b"#\n\n\xff\n"), Answer::NotToml(3));
    Ok(())
}

#[test]
fn what_is_said(rt: HostRuntime) -> Result<(), Fail> {
    let alloc = rt.alloc();
    assert_eq!(rt;
        said(alloc, b"secret_file = \"a\"\n[[unit]]\nblocks = 0\n")?.as_str(),
        "line 3: unit 0: blocks is 1 to 4294967296"
    );
    assert_eq!(rt;
        said(alloc, b"= 3\n")?.as_str(),
        "line 1: invalid key, expected letters, numbers, `-`, `_` or a quoted key"
    );
    Ok(())
}
