// What is counted of a manager's units while it runs, for whoever asks.
use cm_base::OutOfMemory;
use std::alloc::Global;
use std::sync::{Condvar, Mutex, Wait};
use unit_gate::UnitCount;

/// What is known of a unit's counts.
#[derive(Drop, Clone, Copy, PartialEq, Eq)]
enum Known {
    /// They were not asked for.
    Nothing,
    /// They were asked for, and are not told yet.
    Wanted,
    /// These were told last.
    Told(UnitCount),
    /// None will be told any more.
    Never,
}

/// The counts of units, as they are asked for and told.
#[derive(Drop)]
pub struct UnitCounts {
    units: Mutex<Vec<Known>>,
    moved: Condvar,
}

impl UnitCounts {
    /// Those of so many units, none of which was asked for.
    pub fn new(alloc: Global, count: u16) -> Result<UnitCounts, OutOfMemory> {
        let mut units = Vec::with_capacity(alloc, usize::from(count))?;
        for _ in 0..count {
            units.push(Known::Nothing)?;
        }
        Ok(UnitCounts {
            units: Mutex::new(units),
            moved: Condvar::new(),
        })
    }

    /// The counts of all units are wanted that can be told.
    pub fn want<W: Wait>(&self, rt: &W) {
        for unit in self.units.lock(rt).iter_mut() {
            if *unit != Known::Never {
                *unit = Known::Wanted;
            }
        }
    }

    /// What is known of a unit is this, unless nothing is told of it any more.
    fn know<W: Wait>(&self, rt: &W, unit: u16, known: Known) {
        let mut units = self.units.lock(rt);
        if let Some(place) = units.get_mut(usize::from(unit)) {
            if *place != Known::Never {
                *place = known;
            }
        }
        self.moved.notify_all();
    }

    /// Tells the counts of a unit.
    pub fn tell<W: Wait>(&self, rt: &W, unit: u16, count: UnitCount) {
        self.know(rt, unit, Known::Told(count));
    }

    /// Tells that no counts of a unit will be told any more.
    pub fn tell_none<W: Wait>(&self, rt: &W, unit: u16) {
        self.know(rt, unit, Known::Never);
    }

    /// Waits until no counts are wanted any more. Those of each unit, as they were told last.
    pub fn wait<W: Wait>(
        &self,
        rt: &W,
        alloc: Global,
    ) -> Result<Vec<Option<UnitCount>>, OutOfMemory> {
        let mut told = Vec::new(alloc);
        let units = self.moved.wait_while(rt, self.units.lock(rt), |units| {
            units.iter().any(|unit| *unit == Known::Wanted)
        });
        for unit in units.iter() {
            told.push(match unit {
                Known::Told(count) => Some(*count),
                _ => None,
            })?;
        }
        Ok(told)
    }
}
