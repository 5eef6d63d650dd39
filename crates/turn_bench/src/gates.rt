ghost use Rattle.std.specs.Prelude.{◌≡◌, true, false};
ghost use Rattle.std.specs.Thread.{IsSync};

use crate::tally::Tally;
use cm_base::OutOfMemory;
use std::alloc::Global;
use std::sync::Wait;
use std::thread::{self, Threads, join};
use std::time::{Clock, Duration};
use turn_gate::{Gate, GateSeat};

/// Takes one turn, and sleeps in it.
#[tactic(auto, using(crate::proofs::Lengths::one_more))]
fn take_turn<R: Wait + Clock>(
    rt: &R,
    gate: &Gate<Tally>,
    seat: &mut GateSeat<Tally>,
    pause: Duration,
)
    requires gate { seat.old.gate ≡ gate.now }
    requires idle { seat.old.holds ≡ false }
    ensures gate { seat.new.gate ≡ gate.now }
    ensures idle { seat.new.holds ≡ false }
{
    let mut turn = gate.enter(rt, seat);
    if !pause.is_zero() {
        thread::sleep(rt, pause);
    }
    if turn.value().add() {
        gate.count(seat, &mut turn);
        gate.leave(seat, turn);
        return;
    }
    gate.leave(seat, turn);
}

/// Takes so many turns.
fn take_turns<R: Wait + Clock>(
    rt: &R,
    gate: &Gate<Tally>,
    seat: GateSeat<Tally>,
    turns: u32,
    pause: Duration,
) -> GateSeat<Tally>
    requires gate { seat.gate ≡ gate.now }
    requires idle { seat.holds ≡ false }
    ensures gate { result.gate ≡ gate.now }
    ensures idle { result.holds ≡ false }
{
    let mut seat = seat;
    for _ in 0..turns {
        take_turn(rt, gate, &mut seat, pause);
    }
    seat
}

/// So many threads take so many turns each, by seats that are split off the first one and joined into it again.
fn take_side_by_side<R: Wait + Threads + Clock + Sync>(
    rt: &R,
    gate: &Gate<Tally>,
    root: GateSeat<Tally>,
    threads: u32,
    turns: u32,
    pause: Duration,
) -> GateSeat<Tally>
    requires gate { root.gate ≡ gate.now }
    requires idle { root.holds ≡ false }
    requires first { root.first ≡ true }
    ensures gate { result.gate ≡ gate.now }
    ensures idle { result.holds ≡ false }
    ensures first { result.first ≡ true }
    ensures out { result.out ≡ root.out }
{
    if threads == 0 {
        return root;
    }
    let mut root = root;
    let Ok(seat) = gate.split(&mut root) else {
        unreachable!()
    };
    let others = threads - 1;
    let (seat, root) = join(
        rt,
        || -> GateSeat<Tally>
            requires gate { seat.gate ≡ gate.now }
            requires idle { seat.holds ≡ false }
            ensures gate { result.gate ≡ gate.entry.now }
            ensures idle { result.holds ≡ false }
        { take_turns(rt, gate, seat, turns, pause) },
        || -> GateSeat<Tally>
            requires sync { IsSync R.row }
            requires gate { root.gate ≡ gate.now }
            requires idle { root.holds ≡ false }
            requires first { root.first ≡ true }
            ensures gate { result.gate ≡ gate.entry.now }
            ensures idle { result.holds ≡ false }
            ensures first { result.first ≡ true }
            ensures out { result.out ≡ root.out }
        { take_side_by_side(rt, gate, root, others, turns, pause) },
    );
    let mut root = root;
    gate.join(&mut root, seat);
    root
}

/// How many turns so many threads have taken at one gate.
pub fn taken<R: Wait + Threads + Clock + Sync>(
    rt: &R,
    alloc: Global,
    threads: u32,
    turns: u32,
    pause: Duration,
) -> Result<u64, OutOfMemory> {
    let (gate, root) = match Gate::new(alloc, Tally { turns: 0 }) {
        Ok(made) => made,
        Err((_, refused)) => return Err(refused),
    };
    let root = take_side_by_side(rt, &gate, root, threads, turns, pause);
    Ok(gate.close(root).turns)
}
