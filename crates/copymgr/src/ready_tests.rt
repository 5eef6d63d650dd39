// Memory that another thread makes ready.
ghost use Rattle.std.specs.Prelude.{◌<◌};

use crate::ready::{Empty, ReadyMemory, make_ready};
use crate::rows::{Row, long_data};
use crate::status::Status;
use crate::tests::{Failing, bytes_of, source_of, words_of};
use crate::top::top_with;
use cm_base::{CallList, MemorySink, MemorySource, Word};
use cm_frame::Memory;
use rtrb::RingBuffer;
use std::alloc::Global;
use std::sync::Wait;
use std::test::Fail;
use std::thread::{self, Parker, Threads};

/// Memory that is ready is taken, and as much is ordered again; where what is ready is of another
/// length, new memory comes.
#[test]
fn ready_memory_is_given(rt: HostRuntime) -> Result<(), Fail> {
    let alloc = rt.alloc();
    let (orders, mut ordered) = RingBuffer::new(alloc, 2)?;
    let (mut made, ready) = RingBuffer::with_protocol::<Global, Empty>(alloc, 2)?;
    let parker = Parker::new();
    let mut memory = ReadyMemory::new(alloc, orders, ready, &parker);
    assert!(rt; made.push(Vec::with_capacity(alloc, 100)?).is_ok());
    for bytes in [100, 200] {
        let room = memory.room(bytes)?;
        assert!(rt; room.is_empty() && room.capacity() >= bytes);
        assert!(rt; made.slots() == 2 && ordered.pop() == Ok(bytes));
    }
    Ok(())
}

/// What is ordered is made ready by another thread, which ends when no one orders any more.
#[test]
fn memory_is_made_ready(rt: HostRuntime) -> Result<(), Fail> {
    let alloc = rt.alloc();
    let (mut orders, mut ordered) = RingBuffer::new(alloc, 2)?;
    let (mut made, mut ready) = RingBuffer::with_protocol::<Global, Empty>(alloc, 2)?;
    assert!(rt; orders.push(100_000).is_ok());
    let parker = Parker::new();
    let maker = &parker;
    thread::join(
        &rt,
        move || {
            drop(orders);
            maker.unpark();
        },
        || make_ready(&rt, alloc, &mut ordered, &mut made, maker),
    );
    match ready.pop() {
        Ok(room) => assert!(rt; room.is_empty() && room.capacity() >= 100_000),
        Err(_) => assert!(rt; false, "nothing was made ready"),
    }
    Ok(())
}

/// Plays a trace over memory that is made ready, and then ends its orders.
fn plays(
    alloc: Global,
    mut memory: ReadyMemory<'_>,
    words: Vec<Word>,
    mut input: MemorySource,
) -> (Status, MemorySink) {
    let mut output = MemorySink::new(alloc, 50_000, CallList::empty(alloc));
    let status = top_with(alloc, &mut memory, &words, &mut input, &mut output);
    memory.close();
    (status, output)
}

/// How a trace ends while another thread makes memory ready, and what it gives.
fn played_ready<R: Threads + Wait + Sync>(
    rt: &R,
    alloc: Global,
    words: Vec<Word>,
    input: MemorySource,
) -> Result<(Status, MemorySink), Fail> {
    let (orders, mut ordered) = RingBuffer::new(alloc, 2)?;
    let (mut made, ready) = RingBuffer::with_protocol::<Global, Empty>(alloc, 2)?;
    let parker = Parker::new();
    let maker = &parker;
    let memory = ReadyMemory::new(alloc, orders, ready, maker);
    let (played, ()) = thread::join(
        rt,
        move || plays(alloc, memory, words, input),
        || make_ready(rt, alloc, &mut ordered, &mut made, maker),
    );
    Ok(played)
}

/// Whether a trace gives its replies and its status while another thread makes memory ready.
fn is_played_ready<R: Threads + Wait + Sync>(
    rt: &R,
    alloc: Global,
    row: &Row,
) -> Result<bool, Fail> {
    let trace = bytes_of(alloc, row.trace)?;
    let input = source_of(alloc, trace, 50_000, Failing::nothing())?;
    let (status, output) = played_ready(rt, alloc, words_of(alloc, &["replay"])?, input)?;
    let replies = bytes_of(alloc, row.replies)?;
    Ok(status == row.status && output.as_slice() == replies.as_slice())
}

#[test]
fn worked_traces_over_ready_memory(rt: HostRuntime) -> Result<(), Fail> {
    for row in long_data::rows() {
        assert!(rt; is_played_ready(&rt, rt.alloc(), row)?, "{}", row.name);
    }
    Ok(())
}
