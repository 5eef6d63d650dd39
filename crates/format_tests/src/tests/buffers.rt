// The standard streams, lists, and how a unit is named and described.
ghost use Rattle.std.specs.Prelude.{◌≡◌, ◌<◌, ◌++◌, ◌∷◌, [], length, IfOk, OnOk, OnErr};

use cm_base::{
    CallList, Config, FillFailed, InputBuffer, OutOfMemory, Source, StandardInput, StandardOutput,
    UnitConfig, UnitList, WriteFailed, push_all, unit_descriptor, unit_name,
};
use std::alloc::Global;
use std::io;
use std::io::{Read, Write};
use std::test::Fail;

/// Two units, of 512 and of 4096 bytes a block.
fn two_units(rt: &HostRuntime) -> Result<Config, Fail>
    ensures { IfOk result (λ config. length config.units ≡ 2) }
{
    let first = UnitConfig {
        blocks: 100,
        block_length: 512,
        entries: 16,
        quota: 100,
        payload: 1024,
        group: 0,
    };
    let second = UnitConfig {
        block_length: 4096,
        ..first
    };
    let units = UnitList::copy(rt.alloc(), &[first, second])?;
    Ok(Config::new([7; 32], units))
}

/// The descriptor of unit 1, whose blocks have 4096 bytes.
static DESCRIPTOR: [u8; 32] = [
    0xe4, 0, 0, 0, 1, 3, 0, 8, 0x30, 0, 0, 0, 0, 0, 0, 1, 0, 0, 0, 0, 0, 0, 0, 0, 0, 0, 0, 0, 0, 0,
    0x10, 0,
];

/// The secret is this byte 32 times, and unit 1 has the descriptor.
fn is_described(config: &Config, secret: u8) -> bool
    requires { 1 < length config.now.units }
{
    unit_descriptor(config, 1) == DESCRIPTOR && *config.secret() == [secret; 32]
}

#[test]
fn a_unit_is_named_and_described(rt: HostRuntime) -> Result<(), Fail> {
    assert_eq!(rt; unit_name(0x0102), [0x30, 0, 0, 0, 0, 0, 1, 2]);
    let config = two_units(&rt)?;
    let copy = config.copy(rt.alloc())?;
    assert!(rt; is_described(&copy, 7));
    Ok(())
}

/// Fails at each call.
#[derive(Drop)]
struct Broken;

impl Read for Broken {
    fn read(&mut self, _into: &mut [u8]) -> io::Result<usize> {
        Err(io::Error::from(io::ErrorKind::BrokenPipe))
    }
}

/// Takes nothing.
#[derive(Drop)]
struct Deaf;

impl Write for Deaf {
    fn write(&mut self, _from: &[u8]) -> io::Result<usize> {
        Ok(0)
    }

    fn flush(&mut self) -> io::Result<()> {
        Ok(())
    }
}

/// Whether fills end so, one after the other.
fn ends<S: Source>(
    input: &mut InputBuffer,
    source: &mut S,
    wanted: &[Result<usize, FillFailed>],
) -> bool {
    let mut told = true;
    for end in wanted {
        told &= input.fill(source) == *end;
    }
    told
}

/// Whether an input takes these bytes from standard input, and comes to their end.
fn takes(input: &mut InputBuffer, bytes: &[u8]) -> bool {
    let mut source = StandardInput::new(bytes);
    ends(input, &mut source, &[Ok(bytes.len()), Ok(0)])
}

/// Whether an input finds that standard input fails.
fn finds_broken(input: &mut InputBuffer) -> bool {
    let mut source = StandardInput::new(Broken);
    ends(input, &mut source, &[Err(FillFailed::Read)])
}

/// Whether these bytes are read to their end, and stay where standard input fails.
fn is_read(alloc: Global, bytes: &[u8]) -> bool {
    let mut input = InputBuffer::new(alloc);
    takes(&mut input, bytes) && finds_broken(&mut input) && input.as_slice() == bytes
}

#[test]
fn standard_input_is_read(rt: HostRuntime) {
    assert!(rt; is_read(rt.alloc(), b"CMTRACE1"));
}

/// Writes to a standard output: how that ended.
fn written(into: &mut Vec<u8>, bytes: &[u8]) -> Result<(), WriteFailed> {
    push_all(&mut StandardOutput::new(into), bytes)
}

/// Whether these bytes are written, and none after them.
fn is_written(alloc: Global, bytes: &[u8]) -> bool {
    let mut into = Vec::new(alloc);
    let taken = written(&mut into, bytes) == Ok(()) && written(&mut into, b"") == Ok(());
    taken && into.as_slice() == bytes
}

#[test]
fn standard_output_is_written(rt: HostRuntime) {
    assert!(rt; is_written(rt.alloc(), b"reply"));
    assert_eq!(rt;
        push_all(&mut StandardOutput::new(Deaf), b"reply"),
        Err(WriteFailed)
    );
}

/// Adds both numbers, or none of them.
fn add_both(list: &mut CallList, first: u64, second: u64) -> Result<(), OutOfMemory>
    ensures ok { OnOk result (list.new ≡ list.old ++ first ∷ second ∷ []) }
    ensures err { OnErr result (list.new ≡ list.old) }
{
    let room = list.reserve(2)?;
    room.append(first);
    room.append(second);
    Ok(())
}

/// Adds 4 in room for three, and 5 and 6 behind it, and takes 6 away: whether all went well.
fn lend(list: &mut CallList) -> Result<bool, Fail> {
    let room = list.reserve(3)?;
    room.push(4)?;
    let lent = room.spare() >= 2 && room.len() == 4;
    room.extend(&[5, 6])?;
    Ok(lent && room.pop() == Some(6))
}

/// Adds 2 and 3 to a list of 1, and 4, which is taken away: whether that went well.
fn add(list: &mut CallList) -> Result<bool, Fail> {
    add_both(list, 2, 3)?;
    list.push(4)?;
    Ok(list.pop() == Some(4) && list.as_slice() == [1, 2, 3].as_slice())
}

/// Whether a list has these numbers after all.
fn has_room(alloc: Global, wanted: &[u64]) -> Result<bool, Fail> {
    let mut list = CallList::copy(alloc, &[1])?;
    let lent = add(&mut list)? && lend(&mut list)?;
    let items = list.into_vec();
    Ok(lent && items.as_slice() == wanted)
}

#[test]
fn a_list_lends_its_room(rt: HostRuntime) -> Result<(), Fail> {
    assert!(rt; has_room(rt.alloc(), &[1, 2, 3, 4, 5])?);
    Ok(())
}
