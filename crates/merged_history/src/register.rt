// The register: a table of one word, which no step changes, and no slot. All that is known stands in the seats.
ghost use Rattle.std.specs.Prelude.{◌≡◌, ◌∷◌, ◌++◌, [], List, length, IfOk};
ghost use Rattle.cm_history.specs.declared.act.Actor.{Actor};
ghost use Rattle.cm_history.specs.declared.act.Actor.TheVariants.{Nexus};
ghost use Rattle.cm_history.specs.declared.act.Entry.{Entry};
ghost use Rattle.merged_history.specs.declared.known.Known.TheVariants.{Root, Pass, Spent};
ghost use Rattle.merged_history.specs.Seats.{ticket_of, IsJoined};
ghost use Rattle.merged_history.specs.inner.Rule.{IsKept, AreJoined, ticket_by, root_after, pass_by, with_joined, Loads, made_in, joined_in, joined_as, IsRoot, IsPass};

use crate::known::Known;
use atomic_table::{Join, Play, Seat, Split, Table, TableRule};
use cm_base::OutOfMemory;
use cm_history::Actor;
use std::alloc::Global;
use std::marker::{Brand, Model, PhantomData};

/// The rule of the register's table, which each step keeps. No value of it is made.
struct InOrder;

impl TableRule<u64, Known, ()> for InOrder {
    ghost holds = { λ _ s. IsKept s };

    ghost first = { λ _. Root [] [] };
}

// Whose pass it is. A call at `Brand` picks it.
trait OfActor {
    ghost actor: { Actor };
}

impl OfActor for Brand {
    ghost actor = { Nexus 0 };
}

// What a pass has made. A call at `Brand` picks it.
trait Made {
    ghost own: { List Entry };
}

impl Made for Brand {
    ghost own = { [] };
}

// A pass is made.
struct SplitOff<N>(PhantomData<N>);

impl<N: OfActor> Split<Known> for SplitOff<N> {
    ghost left = { λ v. root_after N.actor v };

    ghost right = { λ v. pass_by N.actor v };
}

// A pass is joined.
struct JoinIn<N>(PhantomData<N>);

impl<N: Made> Join<Known> for JoinIn<N> {
    ghost both = { λ v w. with_joined N.own v w };

    ghost spent = { Spent };
}

// The word is read, which tells what the rule says of the root.
struct Load;

impl Play<u64, Known> for Load {
    ghost then = { Loads };
}

/// The register of a world's passes. Contracts see which one it is.
#[derive(Drop)]
pub struct Register {
    table: Table<u64, Known, (), InOrder, Global>,
}

impl Model for Register {
    ghost use Rattle.atomic_table.specs.Seated.{TableId};
    ghost use Rattle.merged_history.specs.inner.Rule.{IsTable};

    ghost Value = { TableId };

    ghost view = { λ r. r.table.shared.table_id };

    ghost invariant = { λ r. IsTable r.table.shared.table_id };
}

/// The root's seat at a register. Contracts see the passes that are made and not joined (`out`), and those that were
/// joined, in order (`joined`).
#[derive(Drop)]
pub struct RootSeat {
    seat: Seat<u64, Known>,
}

impl Model for RootSeat {
    ghost use Rattle.merged_history.specs.Seats.{RootState};
    ghost use Rattle.merged_history.specs.inner.Rule.{root_state, IsRootSeat};

    ghost Value = { RootState };

    ghost view = { λ r. root_state r.seat.table_id r.seat.me.0 };

    ghost invariant = { λ r. IsRootSeat r.seat.me };
}

/// The seat of a pass that is made and not joined. Contracts see its ticket.
#[derive(Drop)]
pub struct PassSeat {
    seat: Seat<u64, Known>,
}

impl Model for PassSeat {
    ghost use Rattle.merged_history.specs.Seats.{PassState};
    ghost use Rattle.merged_history.specs.inner.Rule.{pass_state, IsPass};

    ghost Value = { PassState };

    ghost view = { λ p. pass_state p.seat.table_id p.seat.me.0 };

    ghost invariant = { λ p. IsPass p.seat.me };
}

impl Register {
    /// A register without passes, and the root's seat at it.
    pub fn new(alloc: Global) -> Result<(Register, RootSeat), OutOfMemory>
        ensures { IfOk result (λ r. r.1 ≡ record { register = r.0; out = []; joined = [] }) }
    {
        match Table::new(alloc, &[0], Vec::new(alloc), &()) {
            Ok((table, seat)) => Ok((Register { table }, RootSeat { seat })),
            Err(_) => Err(OutOfMemory),
        }
    }

    /// The seat of a new pass of the actor. It takes no memory.
    pub fn split(&self, root: &mut RootSeat, actor: Actor) -> PassSeat
        requires { root.old.register ≡ self.now }
        ensures pass { result ≡ record { register = self.now; ticket = ticket_of actor root.old.joined } }
        ensures root { root.new ≡ record root.old { out = root.old.out ++ ticket_of actor root.old.joined ∷ [] } }
    {
        PassSeat {
            seat: self.split_seat::<Brand>(&mut root.seat, actor),
        }
    }

    // The step of `split`.
    fn split_seat<N: OfActor>(&self, root: &mut Seat<u64, Known>, actor: Actor) -> Seat<u64, Known>
        requires actor { actor ≡ N.actor }
        requires table { root.old.table_id ≡ self.now }
        requires root { IsRoot root.old.me }
        ensures table { (root.new.table_id ≡ root.old.table_id) × (result.table_id ≡ root.old.table_id) }
        ensures root { root.new.me ≡ (Root (made_in root.old.me.0 ++ ticket_by actor (joined_in root.old.me.0) ∷ []) (joined_in root.old.me.0), []) }
        ensures pass { result.me ≡ (Pass (length (made_in root.old.me.0)) (ticket_by actor (joined_in root.old.me.0)), []) }
    {
        let _ = actor;
        self.table.shared.split_seat::<SplitOff<N>>(root)
    }

    /// Joins a pass, which has made the entries that the caller names (`own`), by what it has of them (`made`): the pass
    /// was out, and is not any more. It takes no memory.
    pub fn join<M>(&self, root: &mut RootSeat, pass: PassSeat, made: &M)
        ghost own: { List Entry }
        requires register { root.old.register ≡ self.now }
        requires same { pass.register ≡ self.now }
        ensures { IsJoined root.old root.new pass.ticket own }
    {
        let _ = made;
        let PassSeat { seat } = pass;
        self.join_seat::<Brand>(&mut root.seat, seat);
    }

    // The steps of `join`.
    fn join_seat<N: Made>(&self, root: &mut Seat<u64, Known>, pass: Seat<u64, Known>)
        requires table { (root.old.table_id ≡ self.now) × (pass.table_id ≡ self.now) }
        requires root { IsRoot root.old.me }
        requires pass { IsPass pass.me }
        ensures table { root.new.table_id ≡ root.old.table_id }
        ensures root { root.new.me ≡ (Root (made_in root.old.me.0) (joined_as pass.me.0 N.own ∷ joined_in root.old.me.0), []) }
        ensures joined { AreJoined (made_in root.old.me.0) (joined_as pass.me.0 N.own ∷ joined_in root.old.me.0) }
    {
        self.table.shared.join_seat::<JoinIn<N>>(root, pass);
        self.table.shared.load::<Load>(root, 0);
    }
}
