ghost use Rattle.std.specs.Prelude.{◌≡◌, ℕ, ◌≤◌, ◌<◌, ◌||◌, ◌&&◌, not, [], length, None, unwrap_or, IfOk, OnOk, OnErr, true, false};
ghost use Rattle.cm_base.specs.Configuration.{IsUnit};
ghost use Rattle.cm_base.specs.Units.{unit_of};
ghost use Rattle.lba_ranges.specs.Versions.{Writers, IsNew, no_writers};
ghost use Rattle.lba_ranges.specs.Writings.{after};
ghost use Rattle.unit_core.specs.inner.BlockChanges.{writings_of, MayChange, is_nothing};
ghost use Rattle.unit_core.specs.inner.JobChanges.{jobs_after, MayJob, grows};
ghost use Rattle.rod_store.specs.Pinning.{rods_of, rod_now, holder, ArePinned};
ghost use Rattle.rod_store.specs.TokenChanges.{tokens_after, MayPin, MayToken, is_make, ranges_pinned};
ghost use Rattle.pr_keys.specs.Reservations.{unreserved};
ghost use Rattle.unit_core.specs.inner.Planning.{takes_none};
ghost use Rattle.unit_core.specs.inner.Seen.{AreWriters, lives_in, put_seen, seen_after};

use crate::block_change::BlockChange;
use crate::job_change::JobChange;
use crate::plan::Plan;
use cm_base::{Config, OutOfMemory};
use cm_history::Answer;
use copy_jobs::JobTable;
use lba_ranges::Pins;
use pr_keys::PrState;
use rod_store::{PinnedRod, RodStore, TokenChange, give_up, settle};
use std::alloc::Global;

/// What a unit answers from: its blocks, its tokens, its operations and its reservations. A live token is a pin of its blocks.
#[derive(Drop)]
pub(crate) struct Tables<B: Pins + Drop>
where
    B::Pin: Drop,
{
    pub blocks: B,
    pub tokens: RodStore<PinnedRod<B::Pin>>,
    pub jobs: JobTable,
    pub reservations: PrState,
}

/// The reservations change, if they are to.
fn replace(reservations: &mut PrState, after: Option<PrState>)
    ensures { reservations.new ≡ unwrap_or after reservations.old }
{
    if let Some(after) = after {
        *reservations = after;
    }
}

impl<B: Pins + Drop> Tables<B>
where
    B::Pin: Drop,
{
    /// The tables of a unit that nothing was asked of yet.
    pub fn new(alloc: Global, config: &Config, unit: u16) -> Result<Tables<B>, OutOfMemory>
        requires { unit < length config.now.units }
        ensures limits { OnOk result (IsUnit (unit_of config.now unit)) }
        ensures blocks { IfOk result (λ t. B.blocks t.blocks ≡ (unit_of config.now unit).blocks) }
        ensures length { IfOk result (λ t. B.block_length t.blocks ≡ (unit_of config.now unit).block_length) }
        ensures unmapped { IfOk result (λ t. (block : ℕ) → B.holds t.blocks block ≡ None) }
        ensures unit { IfOk result (λ t. t.tokens.unit ≡ unit) }
        ensures tokens { IfOk result (λ t. t.tokens.tokens ≡ []) }
        ensures pinned { IfOk result (λ t. ArePinned B.number (B.blocks t.blocks) (B.pinned t.blocks) (holder None t.tokens.tokens)) }
        ensures jobs { IfOk result (λ t. t.jobs ≡ []) }
        ensures reservations { IfOk result (λ t. t.reservations ≡ unreserved) }
        ensures written { IfOk result (λ t. B.written_by t.blocks no_writers) }
    {
        let told = config.unit(unit);
        let blocks = B::new(alloc, told.blocks, told.block_length)?;
        let tokens = RodStore::new(alloc, config, unit)?;
        let jobs = JobTable::new(alloc)?;
        Ok(Tables {
            blocks,
            tokens,
            jobs,
            reservations: PrState::new(alloc),
        })
    }

    /// Does what is planned, at a moment, and gives the planned answer. At `OutOfMemory` all stands as before.
    pub fn change(&mut self, now: u64, plan: Plan<'_>) -> Result<Answer, OutOfMemory>
        requires blocks { MayChange (B.blocks self.old.blocks) (B.block_length self.old.blocks) plan.blocks }
        requires jobs { MayJob plan.jobs self.old.jobs }
        requires tokens { (spare : ℕ) → (is_make plan.tokens ≡ true → 1 ≤ spare)
            → MayToken (record (rods_of B.number (B.block_length self.old.blocks) (B.shown self.old.blocks) self.old.tokens) { spare = spare }) now plan.tokens }
        requires pins { MayPin (B.blocks self.old.blocks) plan.tokens }
        requires apart { (grows plan.jobs || is_make plan.tokens) ≡ true → is_nothing plan.blocks ≡ true }
        requires pinned { ArePinned B.number (B.blocks self.old.blocks) (B.pinned self.old.blocks) (holder None self.old.tokens.tokens) }
        ensures pinned { ArePinned B.number (B.blocks self.new.blocks) (B.pinned self.new.blocks) (holder None self.new.tokens.tokens) }
        ensures answer { IfOk result (λ a. a ≡ plan.entry.answer) }
        ensures wrote { OnOk result ((block : ℕ) → B.holds self.new.blocks block
            ≡ after (writings_of plan.entry.blocks) block (B.holds self.old.blocks block)) }
        ensures jobs { OnOk result (self.new.jobs ≡ jobs_after plan.entry.jobs self.old.jobs) }
        ensures reservations { OnOk result (self.new.reservations ≡ unwrap_or plan.entry.reservations self.old.reservations) }
        ensures tokens { OnOk result ((rods_of B.number (B.block_length self.new.blocks) (B.shown self.new.blocks) self.new.tokens).tokens
            ≡ tokens_after (rod_now (B.block_length self.old.blocks) (B.holds self.old.blocks)) plan.entry.tokens now
            (rods_of B.number (B.block_length self.old.blocks) (B.shown self.old.blocks) self.old.tokens).tokens) }
        ensures unit { self.new.tokens.unit ≡ self.old.tokens.unit }
        ensures blocks { B.blocks self.new.blocks ≡ B.blocks self.old.blocks }
        ensures length { B.block_length self.new.blocks ≡ B.block_length self.old.blocks }
        ensures same_blocks { OnErr result ((block : ℕ) → B.holds self.new.blocks block ≡ B.holds self.old.blocks block) }
        ensures same_jobs { OnErr result (self.new.jobs ≡ self.old.jobs) }
        ensures same_reservations { OnErr result (self.new.reservations ≡ self.old.reservations) }
        ensures same_tokens { OnErr result ((rods_of B.number (B.block_length self.new.blocks) (B.shown self.new.blocks) self.new.tokens).tokens
            ≡ (rods_of B.number (B.block_length self.old.blocks) (B.shown self.old.blocks) self.old.tokens).tokens) }
        ensures memory { OnErr result (takes_none plan.entry ≡ false) }
        ensures written { OnOk result ((w : Writers) (put : ℕ) → B.written_by self.old.blocks w → IsNew (B.blocks self.old.blocks) (B.pinned self.old.blocks) w put
            → AreWriters B.number (B.written_by self.new.blocks) self.new.tokens.tokens
            (seen_after put (writings_of plan.entry.blocks) (ranges_pinned plan.entry.tokens) (length self.old.tokens.tokens) (lives_in self.new.tokens.tokens) (put_seen B.number w self.old.tokens.tokens))) }
        ensures writers { OnErr result ((w : Writers) → B.written_by self.old.blocks w
            → AreWriters B.number (B.written_by self.new.blocks) self.new.tokens.tokens (put_seen B.number w self.old.tokens.tokens)) }
    {
        let Plan {
            answer,
            blocks,
            jobs,
            tokens,
            reservations,
        } = plan;
        self.carry_out(now, &blocks, jobs, tokens)?;
        replace(&mut self.reservations, reservations);
        Ok(answer)
    }

    /// Changes blocks, tokens and operations, at a moment. At `OutOfMemory` all stands as before. The rest of the plan stays
    /// with the caller, so that each way out drops little.
    fn carry_out(
        &mut self,
        now: u64,
        blocks: &BlockChange<'_>,
        jobs: JobChange,
        tokens: TokenChange,
    ) -> Result<(), OutOfMemory>
        requires blocks { MayChange (B.blocks self.old.blocks) (B.block_length self.old.blocks) blocks.now }
        requires jobs { MayJob jobs self.old.jobs }
        requires tokens { (spare : ℕ) → (is_make tokens ≡ true → 1 ≤ spare)
            → MayToken (record (rods_of B.number (B.block_length self.old.blocks) (B.shown self.old.blocks) self.old.tokens) { spare = spare }) now tokens }
        requires pins { MayPin (B.blocks self.old.blocks) tokens }
        requires apart { (grows jobs || is_make tokens) ≡ true → is_nothing blocks.now ≡ true }
        requires pinned { ArePinned B.number (B.blocks self.old.blocks) (B.pinned self.old.blocks) (holder None self.old.tokens.tokens) }
        ensures pinned { ArePinned B.number (B.blocks self.new.blocks) (B.pinned self.new.blocks) (holder None self.new.tokens.tokens) }
        ensures wrote { OnOk result ((block : ℕ) → B.holds self.new.blocks block
            ≡ after (writings_of blocks.now) block (B.holds self.old.blocks block)) }
        ensures jobs { OnOk result (self.new.jobs ≡ jobs_after jobs self.old.jobs) }
        ensures tokens { OnOk result ((rods_of B.number (B.block_length self.new.blocks) (B.shown self.new.blocks) self.new.tokens).tokens
            ≡ tokens_after (rod_now (B.block_length self.old.blocks) (B.holds self.old.blocks)) tokens now
            (rods_of B.number (B.block_length self.old.blocks) (B.shown self.old.blocks) self.old.tokens).tokens) }
        ensures unit { self.new.tokens.unit ≡ self.old.tokens.unit }
        ensures blocks { B.blocks self.new.blocks ≡ B.blocks self.old.blocks }
        ensures length { B.block_length self.new.blocks ≡ B.block_length self.old.blocks }
        ensures reservations { self.new.reservations ≡ self.old.reservations }
        ensures same_blocks { OnErr result ((block : ℕ) → B.holds self.new.blocks block ≡ B.holds self.old.blocks block) }
        ensures same_jobs { OnErr result (self.new.jobs ≡ self.old.jobs) }
        ensures same_tokens { OnErr result ((rods_of B.number (B.block_length self.new.blocks) (B.shown self.new.blocks) self.new.tokens).tokens
            ≡ (rods_of B.number (B.block_length self.old.blocks) (B.shown self.old.blocks) self.old.tokens).tokens) }
        ensures memory { OnErr result ((is_nothing blocks.now && not (grows jobs) && not (is_make tokens)) ≡ false) }
        ensures written { OnOk result ((w : Writers) (put : ℕ) → B.written_by self.old.blocks w → IsNew (B.blocks self.old.blocks) (B.pinned self.old.blocks) w put
            → AreWriters B.number (B.written_by self.new.blocks) self.new.tokens.tokens
            (seen_after put (writings_of blocks.now) (ranges_pinned tokens) (length self.old.tokens.tokens) (lives_in self.new.tokens.tokens) (put_seen B.number w self.old.tokens.tokens))) }
        ensures writers { OnErr result ((w : Writers) → B.written_by self.old.blocks w
            → AreWriters B.number (B.written_by self.new.blocks) self.new.tokens.tokens (put_seen B.number w self.old.tokens.tokens)) }
    {
        tokens.reserve(&mut self.tokens)?;
        blocks.apply(&mut self.blocks)?;
        let change = tokens.pinned(&mut self.blocks)?;
        if let Err(refused) = jobs.apply(&mut self.jobs) {
            give_up(change, &mut self.blocks);
            return Err(refused);
        }
        settle(change, now, &mut self.tokens, &mut self.blocks);
        Ok(())
    }
}
