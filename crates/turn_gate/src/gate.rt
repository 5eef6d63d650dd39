// The gate: a table of two words, the count of the history's entries and the turn, and one slot, which has the value.
ghost use Rattle.std.specs.Prelude.{◌≡◌, ◌≢◌, ℕ, ◌+◌, ◌^◌, ◌<◌, ◌≤◌, List, [], ◌∷◌, ◌++◌, length, true, false, Some, IsOk, IsSome, IfOk, IfErr, OnOk, IfSome, IfNone, OnSome};
ghost use mathlib.Core.List.{IsPrefix};
ghost use Rattle.turn_gate.specs.Marks.{AtMost, greatest};
ghost use Rattle.turn_gate.specs.Places.{EachOnce};
ghost use Rattle.turn_gate.specs.Seats.{IsSound, split_off, with_newest, and_newest};
ghost use Rattle.turn_gate.specs.inner.Seats.{IsTable, first_seat, unopened, opened};

use crate::gated::Gated;
use crate::plays::{Begin, Claim, Count, FirstView, GiveBack, JoinIn, Load, NewestEntry, SplitOff};
use crate::sleepers::Sleepers;
use crate::turn::Turn;
use crate::view::View;
use atomic_table::{Seat, Shared, Table, TableRule};
use cm_base::OutOfMemory;
use std::alloc::Global;
use std::marker::{Brand, Model, PhantomData};
use std::sync::Wait;

/// The word that counts the entries of the history.
const COUNT: usize = 0;

/// The word of the turn: 0 where it is free, 1 where a seat holds it.
const TURN: usize = 1;

/// The rule of a gate's table, which each step keeps. No value of it is made.
pub struct InTurns<V> {
    of: PhantomData<V>,
}

impl<V: Gated> TableRule<Option<V>, View<V::Entry, V::Kin>, V> for InTurns<V> {
    ghost use Rattle.turn_gate.specs.inner.Seats.{unopened};
    ghost use Rattle.turn_gate.specs.inner.Rule.{IsKept};

    ghost holds = { IsKept V.stands_for V.kin V.marks };

    ghost first = { λ _. unopened };
}

/// A value under turns, which threads share. Contracts see which gate it is, and the kin of its value.
#[derive(Drop)]
pub struct Gate<V: Gated> {
    table: Table<Option<V>, View<V::Entry, V::Kin>, V, InTurns<V>, Global>,
    sleepers: Sleepers,
}

impl<V: Gated> Model for Gate<V> {
    ghost use Rattle.std.specs.Prelude.{Some};
    ghost use Rattle.turn_gate.specs.Seats.{GateName};
    ghost use Rattle.turn_gate.specs.inner.Seats.{IsTable};

    ghost Value = { GateName V.Kin };

    ghost view = { λ g. record { table = g.table.shared.table_id; kin = Some (V.kin g.table.shared.key) } };

    ghost invariant = { λ g. IsTable g.table.shared.table_id };
}

/// A seat at a gate, for one thread. It has no bytes. Contracts see its gate, what it has seen of the value's history
/// (`seen`), its own entries with their places (`own`), whether it holds the turn, and how often it found the turn taken
/// (`misses`); of the first seat also what was joined into it (`joined`), how many seats are split off and not joined
/// (`out`), and how many entries the history had at first (`opening`).
#[derive(Drop)]
pub struct GateSeat<V: Gated> {
    seat: Seat<Option<V>, View<V::Entry, V::Kin>>,
}

impl<V: Gated> Model for GateSeat<V> {
    ghost use Rattle.turn_gate.specs.Seats.{SeatState};
    ghost use Rattle.turn_gate.specs.inner.Seats.{state_of, IsSeated};

    ghost Value = { SeatState V.Entry V.Kin };

    ghost view = { λ s. state_of s.seat.table_id s.seat.me.0 };

    ghost invariant = { λ s. IsSeated s.seat.table_id s.seat.me };
}

impl<V: Gated> GateSeat<V> {
    /// What is true of every seat: own entries stand in what was seen, at their places, which rise. It does nothing
    /// when it runs.
    pub fn sound(&self)
        ensures { IsSound self.now }
    {
        let _ = &self.seat;
    }
}

// The first step of a table that has no value yet: its seat begins as one that holds the turn.
fn begin<V: Gated, N: FirstView<V::Entry, V::Kin>>(
    shared: &Shared<Option<V>, View<V::Entry, V::Kin>, V, InTurns<V>>,
    seat: Seat<Option<V>, View<V::Entry, V::Kin>>,
    value: &V,
) -> GateSeat<V>
    requires table { IsTable shared.now.table_id }
    requires seat { seat.table_id ≡ shared.now.table_id }
    requires fresh { seat.me ≡ (unopened, []) }
    requires key { shared.now.key ≡ value.now }
    requires view { N.view ≡ opened (V.kin value.now) N.view.seen (V.marks value.now) }
    requires stands { V.stands_for value.now N.view.seen }
    ensures gate { result.gate ≡ record { table = shared.now.table_id; kin = Some (V.kin value.now) } }
    ensures seat { result ≡ record (first_seat result.gate N.view.seen (V.marks value.now)) { holds = true } }
{
    let mut seat = seat;
    shared.store::<Begin<N>>(&mut seat, TURN, 1);
    GateSeat { seat }
}

/// A gate whose memory is had and whose value is still to come. Contracts see the value for which it was made.
#[derive(Drop)]
pub struct VacantGate<V: Gated> {
    table: Table<Option<V>, View<V::Entry, V::Kin>, V, InTurns<V>, Global>,
    seat: Seat<Option<V>, View<V::Entry, V::Kin>>,
}

impl<V: Gated> Model for VacantGate<V> {
    ghost use Rattle.turn_gate.specs.inner.Seats.{IsVacant};

    ghost Value = { V };

    ghost view = { λ g. g.table.shared.key };

    ghost invariant = { λ g. IsVacant g.table.shared.table_id g.seat.table_id g.seat.me };
}

impl<V: Gated> VacantGate<V> {
    /// The gate round the value for which it was made, and its first seat. That seat has seen the history that the caller
    /// names (`opening`), of those that the value stands for. It takes no memory.
    pub fn fill(self, value: V) -> (Gate<V>, GateSeat<V>)
        ghost opening: { List V.Entry }
        requires same { value ≡ self }
        requires stands { V.stands_for value opening }
        ensures kin { result.0.kin ≡ Some (V.kin value) }
        ensures seat { result.1 ≡ first_seat result.0 opening (V.marks value) }
    {
        let VacantGate { table, seat } = self;
        let mut seat = begin::<V, Brand>(&table.shared, seat, &value);
        let gate = Gate {
            table,
            sleepers: Sleepers::none(),
        };
        gate.leave(&mut seat, Turn { value });
        (gate, seat)
    }
}

impl<V: Gated> Gate<V> {
    /// A gate for the value, which is still to come.
    pub fn vacant(alloc: Global, value: &V) -> Result<VacantGate<V>, OutOfMemory>
        ensures { IfOk result (λ g. g ≡ value.now) }
    {
        let words = [value.length(), 1];
        match Table::vacant(alloc, &words, 1, value) {
            Ok((table, seat)) => Ok(VacantGate { table, seat }),
            Err(_) => Err(OutOfMemory),
        }
    }

    /// A gate round the value, and its first seat, as `vacant` and `fill` make them. `OutOfMemory` hands the value back.
    pub fn new(alloc: Global, value: V) -> Result<(Gate<V>, GateSeat<V>), (V, OutOfMemory)>
        ghost opening: { List V.Entry }
        requires { V.stands_for value opening }
        ensures kin { IfOk result (λ r. r.0.kin ≡ Some (V.kin value)) }
        ensures seat { IfOk result (λ r. r.1 ≡ first_seat r.0 opening (V.marks value)) }
        ensures back { IfErr result (λ e. e.0 ≡ value) }
    {
        match Gate::vacant(alloc, &value) {
            Ok(vacant) => Ok(vacant.fill(value)),
            Err(refused) => Err((value, refused)),
        }
    }

    /// Takes the turn, with the value, if it is free: one compare and exchange on the turn. The seat has then seen the
    /// whole history. None comes only where that exchange found the turn taken, which `misses` counts. It takes no memory.
    pub fn try_enter(&self, seat: &mut GateSeat<V>) -> Option<Turn<V>>
        requires gate { seat.old.gate ≡ self.now }
        requires idle { seat.old.holds ≡ false }
        ensures stands { IfSome result (λ t. V.stands_for t seat.new.seen) }
        ensures kin { IfSome result (λ t. self.now.kin ≡ Some (V.kin t)) }
        ensures longer { OnSome result (IsPrefix seat.old.seen seat.new.seen) }
        ensures above { IfSome result (λ t. AtMost seat.old.marks (V.marks t)) }
        ensures seat { IfSome result (λ t. seat.new ≡ record seat.old { seen = seat.new.seen; holds = true; marks = V.marks t }) }
        ensures none { IfNone result (seat.new ≡ record seat.old { misses = seat.old.misses + 1 }) }
        ensures alone { seat.old.first ≡ true → seat.old.out ≡ 0 → IsSome result }
    {
        let shared = &self.table.shared;
        let found = shared.compare_exchange::<Claim<V>>(&mut seat.seat, TURN, 0, 1);
        if found != 0 {
            return None;
        }
        let slot = shared.exchange(&mut seat.seat, 0, None);
        let Some(value) = slot else { unreachable!() };
        Some(Turn { value })
    }

    /// Takes the turn as `try_enter` does, and sleeps while it is taken: who leaves wakes a sleeper. Nothing says who is
    /// next. It takes no memory.
    pub fn enter<R: Wait>(&self, rt: &R, seat: &mut GateSeat<V>) -> Turn<V>
        requires gate { seat.old.gate ≡ self.now }
        requires idle { seat.old.holds ≡ false }
        ensures stands { V.stands_for result seat.new.seen }
        ensures kin { self.now.kin ≡ Some (V.kin result) }
        ensures longer { IsPrefix seat.old.seen seat.new.seen }
        ensures above { AtMost seat.old.marks (V.marks result) }
        ensures misses { seat.old.misses ≤ seat.new.misses }
        ensures seat { seat.new ≡ record seat.old { seen = seat.new.seen; holds = true; marks = V.marks result; misses = seat.new.misses } }
    {
        for _ in rt.forever() {
            if let Some(turn) = self.try_enter(seat) {
                return turn;
            }
            self.sleep(rt);
        }
        unreachable!()
    }

    // Sleeps, unless the turn is free by now.
    fn sleep<R: Wait>(&self, rt: &R) {
        let wakes = self.sleepers.announce();
        if self.table.shared.peek(TURN) != 0 {
            self.sleepers.sleep(rt, wakes);
        }
    }

    /// Counts the value's newest entry: it comes to the end of what the seat has seen and, with its place, of its own
    /// entries. The value stands for that history already, and is unchanged. It takes no memory.
    pub fn count(&self, seat: &mut GateSeat<V>, turn: &mut Turn<V>)
        requires gate { seat.old.gate ≡ self.now }
        requires holds { seat.old.holds ≡ true }
        requires newest { IsSome (V.newest turn.old) }
        requires stands { V.stands_for turn.old (and_newest seat.old.seen (V.newest turn.old)) }
        ensures value { turn.new ≡ turn.old }
        ensures seat { seat.new ≡ with_newest seat.old (V.newest turn.old) }
    {
        let _ = turn.value.length();
        self.counted::<Brand>(seat, &turn.value);
    }

    // The step of `count`.
    fn counted<N: NewestEntry<V::Entry>>(&self, seat: &mut GateSeat<V>, value: &V)
        requires gate { seat.old.gate ≡ self.now }
        requires holds { seat.old.holds ≡ true }
        requires room { length seat.old.seen + 1 < 2 ^ 64 }
        requires entry { N.entry ≡ V.newest value.now }
        requires newest { IsSome N.entry }
        ensures { seat.new ≡ with_newest seat.old N.entry }
    {
        let _ = value;
        self.table
            .shared
            .fetch_add::<Count<N>>(&mut seat.seat, COUNT, 1);
    }

    /// Gives the turn back, with the value, which stands for what the seat has seen. A turn may be given back without
    /// an entry. It takes no memory.
    pub fn leave(&self, seat: &mut GateSeat<V>, turn: Turn<V>)
        requires gate { seat.old.gate ≡ self.now }
        requires holds { seat.old.holds ≡ true }
        requires stands { V.stands_for turn seat.old.seen }
        requires kin { self.now.kin ≡ Some (V.kin turn) }
        requires marks { AtMost seat.old.marks (V.marks turn) }
        ensures { seat.new ≡ record seat.old { holds = false; marks = V.marks turn } }
    {
        let Turn { value } = turn;
        let shared = &self.table.shared;
        let slot = shared.exchange(&mut seat.seat, 0, Some(value));
        let None = slot else { unreachable!() };
        shared.swap::<GiveBack<V>>(&mut seat.seat, TURN, 0);
        self.sleepers.wake();
    }

    /// How many entries the history has, all of which the seat has then seen: one load of the count. It takes no memory.
    pub fn seen(&self, seat: &mut GateSeat<V>) -> u64
        requires gate { seat.old.gate ≡ self.now }
        ensures count { result ≡ length seat.new.seen }
        ensures longer { IsPrefix seat.old.seen seat.new.seen }
        ensures holder { seat.old.holds ≡ true → seat.new.seen ≡ seat.old.seen }
        ensures seat { seat.new ≡ record seat.old { seen = seat.new.seen } }
    {
        self.table.shared.load::<Load>(&mut seat.seat, COUNT)
    }

    /// One more seat, for another thread, split off the first one. It has seen as much, and made nothing. It takes no
    /// memory, so it is always `Ok`.
    pub fn split(&self, seat: &mut GateSeat<V>) -> Result<GateSeat<V>, OutOfMemory>
        requires gate { seat.old.gate ≡ self.now }
        requires first { seat.old.first ≡ true }
        ensures made { IsOk result }
        ensures new { IfOk result (λ s. s ≡ split_off seat.old) }
        ensures seat { OnOk result (seat.new ≡ record seat.old { out = seat.old.out + 1 }) }
    {
        Ok(GateSeat {
            seat: self.table.shared.split_seat::<SplitOff>(&mut seat.seat),
        })
    }

    /// Joins a seat into the first one, which keeps what that seat made and had seen. It takes no memory.
    pub fn join(&self, into: &mut GateSeat<V>, seat: GateSeat<V>)
        requires gate { into.old.gate ≡ self.now }
        requires first { into.old.first ≡ true }
        requires same { seat.gate ≡ self.now }
        requires idle { seat.holds ≡ false }
        ensures out { into.old.out ≡ into.new.out + 1 }
        ensures longer { IsPrefix into.old.seen into.new.seen }
        ensures part { IsPrefix seat.seen into.new.seen }
        ensures holder { into.old.holds ≡ true → into.new.seen ≡ into.old.seen }
        ensures above { AtMost into.old.marks into.new.marks }
        ensures part_above { AtMost seat.marks into.new.marks }
        ensures seat { into.new ≡ record into.old { seen = into.new.seen; joined = into.old.joined ++ (record { own = seat.own; seen = seat.seen }) ∷ []; out = into.new.out; marks = greatest into.old.marks seat.marks } }
    {
        let GateSeat { seat } = seat;
        self.table.shared.join_seat::<JoinIn>(&mut into.seat, seat);
        let _ = self.table.shared.load::<Load>(&mut into.seat, COUNT);
    }

    /// The value at the end, when all seats were joined. Each entry of its history but the opening ones stands in exactly
    /// one list of own entries, once, at its place. It takes no memory.
    pub fn close(self, seat: GateSeat<V>) -> V
        requires gate { seat.gate ≡ self }
        requires first { seat.first ≡ true }
        requires idle { seat.holds ≡ false }
        requires out { seat.out ≡ 0 }
        ensures stands { V.stands_for result seat.seen }
        ensures kin { self.kin ≡ Some (V.kin result) }
        ensures marks { AtMost seat.marks (V.marks result) }
        ensures opening { seat.opening ≤ length seat.seen }
        ensures once { EachOnce seat.opening seat.seen seat.own seat.joined }
        ensures sound { IsSound seat }
    {
        let Gate { table, sleepers: _ } = self;
        let GateSeat { seat } = seat;
        let mut closed = table.close_with(seat);
        let slot = closed.take(0);
        closed.free();
        let Some(value) = slot else { unreachable!() };
        value
    }
}

impl<V: Gated + Drop> Gate<V> {
    /// The value at the end, as `close` gives it, by a first seat that holds the turn and gives it up. It takes no memory.
    pub fn close_held(self, seat: GateSeat<V>, turn: Turn<V>) -> V
        requires gate { seat.gate ≡ self }
        requires first { seat.first ≡ true }
        requires holds { seat.holds ≡ true }
        requires out { seat.out ≡ 0 }
        ensures value { result ≡ turn }
        ensures opening { seat.opening ≤ length seat.seen }
        ensures once { EachOnce seat.opening seat.seen seat.own seat.joined }
        ensures sound { IsSound seat }
    {
        let Gate { table, sleepers: _ } = self;
        let GateSeat { seat } = seat;
        let mut closed = table.close_with(seat);
        let _ = closed.take(0);
        closed.free();
        let Turn { value } = turn;
        value
    }
}
