ghost use Rattle.std.specs.Prelude.{◌≡◌, codes, List, All, IfOk, IfErr};
ghost use Rattle.cm_base.specs.Configuration.{IsUnit, AreUnits};
ghost use Rattle.cm_base.specs.declared.config.UnitConfig.{UnitConfig};
ghost use Rattle.config_text.specs.Meaning.{SaysOne, SayUnits, SaysUnits};
ghost use Rattle.config_text.specs.inner.Parts.{IfFault};
ghost use Rattle.toml.specs.Data.{get_member};
ghost use Rattle.toml.specs.View.{view, array_view, table_view};

use crate::fault::{TextFault, UnitFault};
use crate::refused::Refused;
use crate::table::member;
use crate::unit::unit_in;
use cm_base::{UnitConfig, UnitList};
use std::alloc::Global;
use toml::value::Array;
use toml::{Table, Value};

/// The most units of a machine.
const UNITS_LIMIT: usize = 16;

/// The unit that a value says.
fn one(value: &Value) -> Result<UnitConfig, UnitFault>
    ensures said { IfOk result (SaysOne (view value.now)) }
    ensures limits { IfOk result IsUnit }
    ensures refused { IfErr result (λ _. (u : UnitConfig) → SaysOne (view value.now) u → ¬ IsUnit u) }
{
    match value.as_table() {
        Some(unit) => unit_in(unit),
        None => Err(UnitFault::NotTable),
    }
}

/// The units that some values say.
fn each(alloc: Global, tables: &Array) -> Result<UnitList, Refused>
    ensures said { IfOk result (SayUnits (array_view tables.now)) }
    ensures limits { IfOk result (All IsUnit) }
    ensures refused { IfErr result (λ why. IfFault why ((us : List UnitConfig) → SayUnits (array_view tables.now) us → ¬ All IsUnit us)) }
{
    let mut units = UnitList::empty(alloc);
    for index in 0..tables.len() {
        match one(&tables[index]) {
            Ok(unit) => units.push(unit)?,
            Err(fault) => return Err(Refused::Fault(TextFault::Unit { unit: index, fault })),
        }
    }
    Ok(units)
}

/// The units that the table of a text says.
pub(crate) fn units_in(alloc: Global, text: &Table) -> Result<UnitList, Refused>
    ensures said { IfOk result (SaysUnits (get_member (codes "unit") (table_view text.now))) }
    ensures limits { IfOk result AreUnits }
    ensures refused { IfErr result (λ why. IfFault why ((us : List UnitConfig) → SaysUnits (get_member (codes "unit") (table_view text.now)) us → ¬ AreUnits us)) }
{
    let Some(units) = member(text, "unit") else {
        return Err(Refused::Fault(TextFault::NoUnits));
    };
    let Some(tables) = units.as_array() else {
        return Err(Refused::Fault(TextFault::NotUnits));
    };
    if tables.is_empty() {
        return Err(Refused::Fault(TextFault::NoUnits));
    }
    if tables.len() > UNITS_LIMIT {
        return Err(Refused::Fault(TextFault::ManyUnits));
    }
    each(alloc, tables)
}
