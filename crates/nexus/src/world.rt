ghost use Rattle.std.specs.Prelude.{◌≡◌, ◌<◌, ◌^◌, ◌+◌, length, false, IfOk, OnOk, OnErr};
ghost use Rattle.std.specs.List.{All};
ghost use Rattle.cm_history.specs.declared.act.Actor.{Actor};
ghost use Rattle.merged_history.specs.PassRules.{MayPass, made_after};
ghost use Rattle.merged_history.specs.Seats.{IsJoined, own_of};
ghost use Rattle.merged_history.specs.Merged.{merged};
ghost use Rattle.nexus.specs.Worlds.{IsOf, IsFreePass};
ghost use Rattle.nexus.specs.Roots.{IsRootOf, WasMade, WasTaken};
ghost use Rattle.nexus.specs.inner.Keeping.{IsPumpOf, IsPumpIn, owns, seqs_after};

use crate::pass::Pass;
use crate::root::Root;
use crate::seats::{join_all, split_all};
use cm_base::OutOfMemory;
use cm_history::{Actor, Entry};
use merged_history::{PassSeat, Register, RootSeat};
use recorder::Recorder;
use std::alloc::Global;
use std::marker::Model;
use turn_gate::{Gate, GateSeat, Gated};
use unit_gate::RecordedUnit;

/// Units that actors share: each stands in a gate of its own, so that who acts on one keeps nobody from another.
/// Contracts see the configuration, the gates and the register of passes.
#[derive(Drop)]
pub struct World<R: Recorder + Drop> {
    pub(crate) gates: Vec<Gate<RecordedUnit<R>>>,
    pub(crate) register: Register,
}

impl<R: Recorder + Drop> Model for World<R> {
    ghost use Rattle.nexus.specs.Worlds.{WorldView};
    ghost use Rattle.nexus.specs.inner.Gates.{config_of};
    ghost use Rattle.nexus.specs.inner.Keeping.{KeepsWorld};

    ghost Value = { WorldView };

    ghost view = { λ w. record { config = config_of w.gates.items; gates = w.gates.items; register = w.register } };

    ghost invariant = { λ w. KeepsWorld w.gates.items };
}

// Notes in the register that a pass is joined, which has made what its seats have.
fn note_joined<V: Gated<Entry = Entry>>(
    register: &Register,
    root: &mut RootSeat,
    slip: PassSeat,
    seats: &Vec<GateSeat<V>>,
)
    requires root { root.old.register ≡ register.now }
    requires pass { slip.register ≡ register.now }
    ensures { IsJoined root.old root.new slip.ticket (merged (owns seats.now.items)) }
{
    register.join(root, slip, seats);
}

// How many passes of nexuses are made, with one of the actor.
fn made_after(actor: Actor, made: u32) -> u32
    requires { made_after actor made < 2 ^ 32 }
    ensures { result ≡ made_after actor made }
{
    match actor {
        Actor::Nexus(_) => made + 1,
        Actor::Pump(_) => made,
    }
}

// Notes how many entries a unit's pump has made, where the actor is one.
fn note_seq(seqs: &mut Vec<u64>, actor: Actor, seq: u64)
    requires { IsPumpIn (length seqs.old.items) actor }
    ensures { seqs.new.items ≡ seqs_after actor seq seqs.old.items }
{
    if let Actor::Pump(unit) = actor {
        seqs[usize::from(unit)] = seq;
    }
}

impl<R: Recorder + Drop> World<R> {
    /// A pass of the next nexus number, from 0. It has made nothing, and has seen what the root has. `OutOfMemory`
    /// leaves the root as it was.
    pub fn pass(&self, alloc: Global, root: &mut Root<R>) -> Result<Pass<R>, OutOfMemory>
        requires root { IsRootOf self.now root.old }
        requires few { root.old.made < 4_294_967_295 }
        ensures made { IfOk result (λ p. WasMade root.old root.new p (Actor.Nexus root.old.made)) }
        ensures free { IfOk result (λ p. IsFreePass self.now root.old.made p) }
        ensures more { OnOk result (length root.new.out ≡ length root.old.out + 1) }
        ensures refused { OnErr result (root.new ≡ root.old) }
    {
        self.pass_of(alloc, root, Actor::Nexus(root.made), 0)
    }

    /// A pass of the unit's pump, whose entries are numbered on from those of its joined passes. `OutOfMemory`
    /// leaves the root as it was.
    pub fn pump_pass(
        &self,
        alloc: Global,
        root: &mut Root<R>,
        unit: u16,
    ) -> Result<Pass<R>, OutOfMemory>
        requires root { IsRootOf self.now root.old }
        requires configured { unit < length self.now.config.units }
        requires joined { MayPass (Actor.Pump unit) root.old.made root.old.out }
        ensures made { IfOk result (λ p. WasMade root.old root.new p (Actor.Pump unit)) }
        ensures more { OnOk result (length root.new.out ≡ length root.old.out + 1) }
        ensures refused { OnErr result (root.new ≡ root.old) }
    {
        let seq = root.seqs[usize::from(unit)];
        self.pass_of(alloc, root, Actor::Pump(unit), seq)
    }

    // A pass of the actor, which has made `seq` entries before.
    fn pass_of(
        &self,
        alloc: Global,
        root: &mut Root<R>,
        actor: Actor,
        seq: u64,
    ) -> Result<Pass<R>, OutOfMemory>
        requires root { IsRootOf self.now root.old }
        requires few { made_after actor root.old.made < 2 ^ 32 }
        requires may { MayPass actor root.old.made root.old.out }
        requires pump { IsPumpOf self.now.config actor }
        requires seq { seq ≡ length (own_of actor root.old.joined) }
        ensures made { IfOk result (λ p. WasMade root.old root.new p actor) }
        ensures refused { OnErr result (root.new ≡ root.old) }
    {
        let mut seats = Vec::with_capacity(alloc, self.gates.len())?;
        split_all(&self.gates, &mut root.seats, &mut seats);
        let slip = self.register.split(&mut root.slip, actor);
        root.made = made_after(actor, root.made);
        Ok(Pass {
            slip,
            actor,
            seq,
            last_stamp: 0,
            seats,
        })
    }

    /// Joins a pass, which holds no unit. It takes no memory.
    pub fn join(&self, root: &mut Root<R>, pass: Pass<R>)
        requires root { IsRootOf self.now root.old }
        requires pass { IsOf self.now pass }
        requires free { All (λ h. h ≡ false) pass.holds }
        ensures taken { WasTaken root.old root.new pass }
        ensures fewer { length root.old.out ≡ length root.new.out + 1 }
    {
        let Pass {
            slip,
            actor,
            seq,
            last_stamp: _,
            seats,
        } = pass;
        note_seq(&mut root.seqs, actor, seq);
        note_joined(&self.register, &mut root.slip, slip, &seats);
        join_all(&self.gates, &mut root.seats, seats);
    }
}
