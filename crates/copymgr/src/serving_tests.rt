// What the word `serve` reads and writes.
ghost use Rattle.std.specs.Prelude.{◌≤◌, length};

use super::report_output::ReportOutput;
use super::serving::{are_serving, picks_port, read_all};
use super::unit_files::{UnitFile, unit_files};
use crate::tests::{Failing, source_of, words_of};
use cm_base::{Bytes, CallList, MemorySink, Sink, WriteFailed, push_all};
use std::alloc::Global;
use std::fs;
use std::test::Fail;

/// Whether these words ask for serving.
fn ask(alloc: Global, line: &[&str]) -> Result<bool, Fail> {
    let words = words_of(alloc, line)?;
    Ok(are_serving(&words))
}

#[test]
fn words_ask_for_serving(rt: HostRuntime) -> Result<(), Fail> {
    assert!(rt; !ask(rt.alloc(), &["serve"])?);
    assert!(rt; !ask(rt.alloc(), &["serve", "A"])?);
    assert!(rt; ask(rt.alloc(), &["serve", "A", "1"])?);
    assert!(rt; ask(rt.alloc(), &["serve", "A", "x", "F"])?);
    assert!(rt; !ask(rt.alloc(), &["serve", "A", "1", "F", "G"])?);
    assert!(rt; !ask(rt.alloc(), &["gen", "1", "2"])?);
    Ok(())
}

#[test]
fn ports_are_picked(rt: HostRuntime) -> Result<(), Fail> {
    for address in ["127.0.0.1:0", "[::1]:0", "localhost:00"] {
        assert!(rt; picks_port(address), "{address}");
    }
    for address in ["127.0.0.1:3260", "127.0.0.1", "0", ""] {
        assert!(rt; !picks_port(address), "{address}");
    }
    Ok(())
}

/// Reads a text by pulls of two bytes.
fn read_of(alloc: Global, failing: Failing, room: &mut [u8]) -> Result<Option<usize>, Fail> {
    let bytes = Bytes::copy(alloc, b"header")?;
    let mut input = source_of(alloc, bytes, 2, failing)?;
    Ok(read_all(&mut input, room))
}

/// What is read ends with the input or with the room, and a pull that fails ends it.
#[test]
fn a_configuration_is_read(rt: HostRuntime) -> Result<(), Fail> {
    let alloc = rt.alloc();
    let mut room = [0; 8];
    assert!(rt; read_of(alloc, Failing::nothing(), &mut room)? == Some(6));
    assert_eq!(rt; &room, b"header\0\0");
    let mut room = [0; 5];
    assert!(rt; read_of(alloc, Failing::nothing(), &mut room)? == Some(5));
    assert_eq!(rt; &room, b"heade");
    assert!(rt; read_of(alloc, Failing::pull(2), &mut room)?.is_none());
    Ok(())
}

/// The number of kept entries in a report, which is pushed in two parts of which the first has so many bytes.
fn kept_in(alloc: Global, report: &[u8], first: usize) -> Result<u64, Fail>
    requires { first ≤ length report.now }
{
    let mut output = ReportOutput::new(MemorySink::new(alloc, 3, CallList::empty(alloc)));
    push_all(&mut output, &report[..first])?;
    push_all(&mut output, &report[first..])?;
    Ok(output.kept())
}

/// What a report says of kept entries is remembered, wherever it is cut, and a report without that line says 0.
#[test]
fn kept_entries_are_remembered(rt: HostRuntime) -> Result<(), Fail> {
    let alloc = rt.alloc();
    let report =
        b"sessions 1\nunit 0 steps 3 live 0 mapped 2 and more than a line has room for\ntotal 3\nkept 417\n";
    for first in 0..=report.len() {
        assert!(rt; kept_in(alloc, report, first)? == 417);
    }
    assert!(rt; kept_in(alloc, b"total 3\nkept 0\n", 4)? == 0);
    assert!(rt; kept_in(alloc, b"total 3\n", 4)? == 0);
    Ok(())
}

/// Whether the file of the test holds this text.
fn holds(rt: &HostRuntime, text: &str) -> Result<bool, Fail> {
    let held = fs::read_to_string(rt, "unit-file")?;
    Ok(held.as_str() == text)
}

/// Pushes two texts, and says whether the file held this text until then.
fn held_before_pushes(rt: &HostRuntime, alloc: Global, text: &str) -> Result<bool, Fail> {
    let path = String::from_str(alloc, "unit-file")?;
    let mut file = UnitFile::new(rt, path);
    let held = holds(rt, text)?;
    push_all(&mut file, b"one ")?;
    push_all(&mut file, b"two")?;
    Ok(held)
}

/// Whether a push fails without a folder.
fn needs_folder(rt: &HostRuntime, alloc: Global) -> Result<bool, Fail> {
    let path = String::from_str(alloc, "missing/unit-file")?;
    let mut file = UnitFile::new(rt, path);
    Ok(file.push(b"one") == Err(WriteFailed))
}

/// The file of a unit is made at the first push, and empty then.
#[test]
fn a_unit_file_is_made(rt: HostRuntime) -> Result<(), Fail> {
    let alloc = rt.alloc();
    fs::write(&rt, "unit-file", "older and longer")?;
    assert!(rt; held_before_pushes(&rt, alloc, "older and longer")?);
    assert!(rt; holds(&rt, "one two")?);
    assert!(rt; needs_folder(&rt, alloc)?);
    assert_eq!(rt; unit_files(&rt, alloc, "folder")?.len(), 16);
    Ok(())
}
