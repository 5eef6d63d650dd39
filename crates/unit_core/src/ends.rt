// The ends of operations, which take no memory, and what a unit shows of its tables.
ghost use Rattle.std.specs.Prelude.{List, ◌≡◌, ◌<◌, ◌≤◌, ◌+◌, ◌-◌, ◌^◌, ◌++◌, ◌∷◌, ℕ, [], length, max, IfSome, true};
ghost use Rattle.cm_history.specs.declared.act.Act.{Act};
ghost use Rattle.cm_history.specs.declared.act.Actor.{Actor};
ghost use Rattle.cm_history.specs.declared.act.Entry.{Entry};
ghost use Rattle.cm_history.specs.Bounds.{live_tokens};
ghost use Rattle.cm_history.specs.History.{answer};
ghost use Rattle.cm_history.specs.Limits.{within_limits};
ghost use Rattle.cm_history.specs.Legal.{may_ask};
ghost use Rattle.unit_core.specs.UnitState.{Stands};
ghost use Rattle.unit_core.specs.Acting.{entry_at, ends_operation_at, is_busy_at, live_at};
ghost use Rattle.unit_core.specs.Unended.{unended_at};

use crate::room::token_key;
use crate::sharing::SharedVersions;
use crate::unit::UnitOver;
use cm_history::{Act, Actor, Answer, CopyEnd, standing_law};
use copy_jobs::Key;

impl<B: SharedVersions + Drop> UnitOver<B>
where
    B::Pin: Drop,
{
    /// Does an act that ends an operation, for which an entry is kept free. It takes no memory.
    fn finish(&mut self, actor: Actor, seq: u64, stamp: u64, moment: u64, act: Act) -> Answer
        requires limits { within_limits self.old.config self.old.unit act ≡ true }
        requires asked { may_ask self.old.unit actor act ≡ true }
        requires runs { (h : List Entry) → Stands self.old h → ends_operation_at self.old h actor act ≡ true }
        requires stamps { max stamp self.old.image.last_stamp < 2 ^ 64 - 1 }
        ensures answer { (h : List Entry) → Stands self.old h → result ≡ answer self.old.config h self.old.unit actor moment act }
        ensures stands { (h : List Entry) → Stands self.old h → Stands self.new (h ++ entry_at self.old actor seq stamp moment act ∷ []) }
        ensures kept { self.new.kept ≡ self.old.kept ++ entry_at self.old actor seq stamp moment act ∷ [] }
        ensures folded { self.new.folded ≡ self.old.folded }
        ensures config { self.new.config ≡ self.old.config }
        ensures unit { self.new.unit ≡ self.old.unit }
    {
        standing_law(&self.core.config, self.core.unit);
        match self.act(actor, seq, stamp, moment, act) {
            Ok(answer) => answer,
            Err(_) => unreachable!(),
        }
    }

    /// Ends the foreground operation of the identifier (own profile). It takes no memory.
    pub fn end(&mut self, actor: Actor, seq: u64, stamp: u64, moment: u64, id: u32) -> Answer
        requires asked { may_ask self.old.unit actor (Act.End id) ≡ true }
        requires runs { (h : List Entry) → Stands self.old h → ends_operation_at self.old h actor (Act.End id) ≡ true }
        requires stamps { max stamp self.old.image.last_stamp < 2 ^ 64 - 1 }
        ensures answer { (h : List Entry) → Stands self.old h → result ≡ answer self.old.config h self.old.unit actor moment (Act.End id) }
        ensures stands { (h : List Entry) → Stands self.old h → Stands self.new (h ++ entry_at self.old actor seq stamp moment (Act.End id) ∷ []) }
        ensures kept { self.new.kept ≡ self.old.kept ++ entry_at self.old actor seq stamp moment (Act.End id) ∷ [] }
        ensures folded { self.new.folded ≡ self.old.folded }
        ensures config { self.new.config ≡ self.old.config }
        ensures unit { self.new.unit ≡ self.old.unit }
    {
        self.finish(actor, seq, stamp, moment, Act::End { id })
    }

    /// Ends the background operation of the identifier (SPC-4, COPY OPERATION ABORT). It takes no memory.
    pub fn abort(&mut self, actor: Actor, seq: u64, stamp: u64, moment: u64, id: u32) -> Answer
        requires asked { may_ask self.old.unit actor (Act.Abort id) ≡ true }
        requires runs { (h : List Entry) → Stands self.old h → ends_operation_at self.old h actor (Act.Abort id) ≡ true }
        requires stamps { max stamp self.old.image.last_stamp < 2 ^ 64 - 1 }
        ensures answer { (h : List Entry) → Stands self.old h → result ≡ answer self.old.config h self.old.unit actor moment (Act.Abort id) }
        ensures stands { (h : List Entry) → Stands self.old h → Stands self.new (h ++ entry_at self.old actor seq stamp moment (Act.Abort id) ∷ []) }
        ensures kept { self.new.kept ≡ self.old.kept ++ entry_at self.old actor seq stamp moment (Act.Abort id) ∷ [] }
        ensures folded { self.new.folded ≡ self.old.folded }
        ensures config { self.new.config ≡ self.old.config }
        ensures unit { self.new.unit ≡ self.old.unit }
    {
        self.finish(actor, seq, stamp, moment, Act::Abort { id })
    }

    /// Keeps how the copy of the identifier ended (own profile). It takes no memory.
    pub fn close_copy(
        &mut self,
        actor: Actor,
        seq: u64,
        stamp: u64,
        moment: u64,
        id: u8,
        end: CopyEnd,
    ) -> Answer
        requires limits { within_limits self.old.config self.old.unit (Act.Close id end) ≡ true }
        requires asked { may_ask self.old.unit actor (Act.Close id end) ≡ true }
        requires runs { (h : List Entry) → Stands self.old h → ends_operation_at self.old h actor (Act.Close id end) ≡ true }
        requires stamps { max stamp self.old.image.last_stamp < 2 ^ 64 - 1 }
        ensures answer { (h : List Entry) → Stands self.old h → result ≡ answer self.old.config h self.old.unit actor moment (Act.Close id end) }
        ensures stands { (h : List Entry) → Stands self.old h → Stands self.new (h ++ entry_at self.old actor seq stamp moment (Act.Close id end) ∷ []) }
        ensures kept { self.new.kept ≡ self.old.kept ++ entry_at self.old actor seq stamp moment (Act.Close id end) ∷ [] }
        ensures folded { self.new.folded ≡ self.old.folded }
        ensures config { self.new.config ≡ self.old.config }
        ensures unit { self.new.unit ≡ self.old.unit }
    {
        self.finish(actor, seq, stamp, moment, Act::Close { id, result: end })
    }

    /// An operation of the actor and the identifier runs: of a token, or a copy. A pump has none. It takes no memory.
    pub fn runs(&self, actor: Actor, copy: bool, id: u32) -> bool
        ensures { (h : List Entry) → Stands self.now h → result ≡ is_busy_at self.now h actor copy id }
    {
        standing_law(&self.core.config, self.core.unit);
        match actor {
            Actor::Nexus(_) => {
                let key = token_key(actor, id);
                self.core.tables.jobs.runs(Key { copy, ..key })
            }
            Actor::Pump(_) => false,
        }
    }

    /// The key of the running operation that was made earliest of those that their initiator has still to end: token
    /// operations in the foreground, and copies. `None` where no such operation runs. It takes no memory.
    pub fn unended(&self) -> Option<Key>
        ensures unended { (h : List Entry) → Stands self.now h → result ≡ unended_at self.now h }
        // a copy has an identifier of one byte
        ensures byte { IfSome result (λ key. key.copy ≡ true → key.id < 2 ^ 8) }
    {
        self.core.tables.jobs.unended()
    }

    /// How many tokens are live, at most 64. It takes no memory.
    pub fn live(&self) -> u32
        ensures most { result ≤ live_tokens }
        ensures live { (h : List Entry) → Stands self.now h → result ≡ live_at self.now h }
    {
        standing_law(&self.core.config, self.core.unit);
        self.core.tables.tokens.live()
    }
}
