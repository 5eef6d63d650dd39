ghost use Rattle.std.specs.Prelude.{◌∷◌, [], IfOk};
ghost use Rattle.plain_model.specs.inner.Holds.{MayFollow};
ghost use Rattle.plain_model.specs.inner.Tables.{ComeOf};

use crate::deeds::{PlainDeed, PlainPast};
use crate::operations::{PlainOperation, kept_after, operations_after};
use crate::reservations::reservations_after;
use crate::tokens::{PlainToken, tokens_after};
use cm_base::OutOfMemory;
use pr_keys::PrState;
use std::alloc::Global;

/// The tokens of a unit, its operations, the records of those that are kept, and its reservations.
#[derive(Drop)]
pub(crate) struct PlainTables {
    pub(crate) tokens: Vec<PlainToken>,
    pub(crate) operations: Vec<PlainOperation>,
    pub(crate) kept: Vec<PlainOperation>,
    pub(crate) reservations: PrState,
}

impl PlainTables {
    /// Those of a unit that has done nothing.
    pub(crate) fn new(alloc: Global) -> PlainTables
        ensures { ComeOf [] result }
    {
        PlainTables {
            tokens: Vec::new(alloc),
            operations: Vec::new(alloc),
            kept: Vec::new(alloc),
            reservations: PrState::new(alloc),
        }
    }

    /// The tables after one more deed, where these came of the past.
    pub(crate) fn after(
        &self,
        alloc: Global,
        past: &PlainPast,
        deed: &PlainDeed,
    ) -> Result<PlainTables, OutOfMemory>
        requires came { ComeOf past.now self.now }
        requires follows { MayFollow past.now deed.now }
        ensures { IfOk result (λ t. ComeOf (deed.now ∷ past.now) t) }
    {
        let tokens = tokens_after(alloc, &self.tokens, past, deed)?;
        let operations = operations_after(alloc, &self.operations, deed)?;
        let kept = kept_after(alloc, &self.kept, deed)?;
        let reservations = reservations_after(&self.reservations, deed.entry())?;
        Ok(PlainTables {
            tokens,
            operations,
            kept,
            reservations,
        })
    }
}
