ghost use Rattle.std.specs.Prelude.{◌≡◌, [], IfOk};

use cm_base::OutOfMemory;
use cm_frame::Memory;
use rtrb::{Consumer, Producer, Protocol};
use std::alloc::{AllocError, Global};
use std::sync::Wait;
use std::thread::Parker;

/// Vectors with no items go through a ring.
pub struct Empty;

impl Protocol<Vec<u8>> for Empty {
    ghost use Rattle.std.specs.Prelude.{◌≡◌, []};

    ghost allows = { λ _ room. room.items ≡ [] };
}

/// Memory for long data-outs, which another thread makes ready before it is wanted. New memory costs
/// most when it is first written, page by page, and that is then done. It waits for no one.
#[derive(Drop)]
pub struct ReadyMemory<'p> {
    alloc: Global,
    orders: Producer<usize>,
    ready: Consumer<Vec<u8>, Global, Empty>,
    maker: &'p Parker,
}

impl<'p> ReadyMemory<'p> {
    /// Memory that is ordered and received through rings; `maker` is where the thread that makes it
    /// ready waits for orders.
    pub fn new(
        alloc: Global,
        orders: Producer<usize>,
        ready: Consumer<Vec<u8>, Global, Empty>,
        maker: &'p Parker,
    ) -> ReadyMemory<'p> {
        ReadyMemory {
            alloc,
            orders,
            ready,
            maker,
        }
    }

    /// Ends the orders, and so the thread that makes memory ready.
    pub fn close(self) {
        let ReadyMemory { orders, maker, .. } = self;
        drop(orders);
        maker.unpark();
    }
}

impl Memory for ReadyMemory<'_> {
    /// What is ready if it is of this length, and new memory otherwise. As much is ordered again, since
    /// a data-out is often as long as the one before it.
    fn room(&mut self, bytes: usize) -> Result<Vec<u8>, OutOfMemory> {
        if self.orders.push(bytes).is_ok() {
            self.maker.unpark();
        }
        match self.ready.pop() {
            Ok(room) if room.capacity() == bytes => Ok(room),
            _ => Ok(Vec::with_capacity(self.alloc, bytes)?),
        }
    }
}

/// Makes memory ready as it is ordered, until no one orders any more and each order was served.
pub fn make_ready<R: Wait>(
    rt: &R,
    alloc: Global,
    orders: &mut Consumer<usize>,
    ready: &mut Producer<Vec<u8>, Global, Empty>,
    maker: &Parker,
) {
    for _ in rt.forever() {
        let ended = orders.is_abandoned();
        match orders.pop() {
            Ok(bytes) => {
                if let Ok(room) = written(alloc, bytes) {
                    let _ = ready.push(room);
                }
            }
            Err(_) if ended => return,
            Err(_) => maker.park(rt),
        }
    }
    unreachable!()
}

/// Room for so many bytes, each of which was written once.
fn written(alloc: Global, bytes: usize) -> Result<Vec<u8>, AllocError>
    ensures { IfOk result (λ room. room.items ≡ []) }
{
    let mut room = Vec::with_capacity(alloc, bytes)?;
    room.resize(bytes, 0)?;
    room.clear();
    Ok(room)
}
