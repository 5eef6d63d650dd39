ghost use Rattle.std.specs.Prelude.{◌≡◌, ◌≤◌, ◌<◌, ◌==◌, length, not, if◌then◌else◌, None, Some, Ok, IfOk, IfErr, OnOk, OnErr};
ghost use Rattle.pr_keys.specs.Reservations.{unreserved, key_of, is_registered, is_held_by, keys_of, holder_of, is_barred};
ghost use Rattle.pr_keys.specs.Actions.{most_registrants, is_known, asked_type, next_generation, is_free_for, preempted_by, without_registrant, rekeyed, with_registrant, registered, registered_by_key, with_reservation, released, cleared, held_by_key, preempted, applied, Tells};
ghost use Rattle.std.specs.List.{list_any};
ghost use Rattle.pr_keys.specs.declared.registrants.Registrant.{Registrant};

use crate::kind::ReservationType;
use crate::refused::PrRefused;
use crate::registrants;
use crate::registrants::Registrant;
use cm_base::{Holder, KeyList, OutOfMemory, ReservationAction};
use scsi_sense::Sense;
use std::alloc::Global;
use std::marker::Model;

/// How many nexuses are registered at most.
const MOST_REGISTRANTS: usize = 64;

/// A reservation, and the nexus that holds it.
#[derive(Drop, Clone, Copy)]
pub struct Reservation {
    pub kind: ReservationType,
    pub nexus: u32,
}

/// The persistent reservations of a unit.
#[derive(Drop)]
pub struct PrState {
    registrants: Vec<Registrant>,
    reservation: Option<Reservation>,
    generation: u32,
}

impl Model for PrState {
    ghost use Rattle.std.specs.Prelude.{◌≤◌, length};
    ghost use Rattle.pr_keys.specs.Reservations.{Reservations};
    ghost use Rattle.pr_keys.specs.Actions.{most_registrants};

    ghost Value = { Reservations };

    ghost view = { λ s. record { registrants = s.registrants.items; reservation = s.reservation; generation = s.generation } };

    ghost invariant = { λ s. length s.registrants.items ≤ most_registrants };
}

impl Reservation {
    /// There is no other reservation than this.
    fn is_free(self, held: Option<Reservation>) -> bool
        ensures { result ≡ is_free_for self held }
    {
        match held {
            Some(other) => other.nexus == self.nexus && other.kind.code() == self.kind.code(),
            None => true,
        }
    }
}

/// The type that is asked for: the one scope is the logical unit, 0.
fn asked_type(scope: u8, kind: u8) -> Option<ReservationType>
    ensures { result ≡ asked_type scope kind }
{
    if scope == 0 {
        ReservationType::from_code(kind)
    } else {
        None
    }
}

impl PrState {
    /// A unit where no nexus is registered. It takes no memory.
    pub fn new(alloc: Global) -> PrState
        ensures { result ≡ unreserved }
    {
        PrState {
            registrants: Vec::new(alloc),
            reservation: None,
            generation: 0,
        }
    }

    /// Equal reservations.
    pub fn copy(&self) -> Result<PrState, OutOfMemory>
        ensures { IfOk result (λ copy. copy ≡ self.now) }
    {
        Ok(PrState {
            registrants: self.registrants.clone()?,
            reservation: self.reservation,
            generation: self.generation,
        })
    }

    /// Does what the nexus asks by a PERSISTENT RESERVE OUT, given by the code of its service
    /// action, its scope, the code of its type, its reservation key and its service action
    /// reservation key. A refusal is the first that holds, by the table of the profile; want of
    /// memory comes only where one more nexus is to be registered. After each of them nothing has
    /// changed.
    pub fn apply(
        &mut self,
        nexus: u32,
        action: u8,
        scope: u8,
        kind: u8,
        key: u64,
        action_key: u64,
    ) -> Result<(), PrRefused>
        ensures ok { OnOk result (applied self.old nexus action scope kind key action_key ≡ Ok self.new) }
        ensures refused { IfErr result (λ e. Tells e self.old (applied self.old nexus action scope kind key action_key)) }
        ensures err { OnErr result (self.new ≡ self.old) }
    {
        let kind = asked_type(scope, kind);
        match ReservationAction::from_code(action) {
            Some(ReservationAction::Register) => self.register_by_key(nexus, key, action_key),
            Some(ReservationAction::RegisterAndIgnoreExistingKey) => {
                self.register(nexus, action_key)
            }
            Some(ReservationAction::Reserve) => self.reserve(nexus, key, kind),
            Some(ReservationAction::Release) => self.release(nexus, key, kind),
            Some(ReservationAction::Clear) => self.clear(nexus, key),
            Some(ReservationAction::Preempt) => self.preempt(nexus, key, action_key, kind),
            None => Err(PrRefused::Refused(Sense::invalid_field_in_cdb())),
        }
    }

    /// The nexus may write the unit, or read it. It takes no memory.
    pub fn may(&self, nexus: u32, write: bool) -> bool
        ensures { result ≡ not (is_barred self.now nexus write) }
    {
        match self.reservation {
            Some(held) => {
                held.nexus == nexus || !held.kind.bars(write, self.key_of(nexus).is_some())
            }
            None => true,
        }
    }

    /// The keys of the registered nexuses, in the order of registering.
    pub fn keys(&self) -> Result<KeyList, OutOfMemory>
        ensures keys { IfOk result (λ keys. keys ≡ keys_of self.now) }
        ensures few { IfOk result (λ keys. length keys ≤ most_registrants) }
    {
        let mut keys = KeyList::empty(*self.registrants.allocator());
        for registrant in &self.registrants {
            keys.push(registrant.key)?;
        }
        Ok(keys)
    }

    /// The reservation, with the key that its holder has now. It takes no memory.
    pub fn holder(&self) -> Option<Holder>
        ensures { result ≡ holder_of self.now }
    {
        let held = self.reservation?;
        let key = self.key_of(held.nexus)?;
        Some(Holder {
            key,
            kind: held.kind.code(),
        })
    }

    /// PRGENERATION: how many actions other than RESERVE and RELEASE were done, modulo 2^32. It
    /// takes no memory.
    pub fn generation(&self) -> u32
        ensures { result ≡ self.now.generation }
    {
        self.generation
    }

    /// The key under which the nexus is registered.
    fn key_of(&self, nexus: u32) -> Option<u64>
        ensures { result ≡ key_of nexus self.now.registrants }
    {
        registrants::key_of(&self.registrants, nexus)
    }

    /// The nexus is registered with this key.
    fn is_known(&self, nexus: u32, key: u64) -> bool
        ensures { result ≡ is_known self.now nexus key }
    {
        self.key_of(nexus).is_some_and(|own| own == key)
    }

    /// A nexus is registered with this key.
    fn has_key(&self, key: u64) -> bool
        ensures { result ≡ list_any (λ (r : Registrant). r.key == key) self.now.registrants }
    {
        registrants::has_key(&self.registrants, key)
    }

    /// The nexus holds the reservation.
    fn is_holder(&self, nexus: u32) -> bool
        ensures { result ≡ is_held_by nexus self.now.reservation }
    {
        match self.reservation {
            Some(held) => held.nexus == nexus,
            None => false,
        }
    }

    /// The holder of the reservation has this key.
    fn is_held_by_key(&self, key: u64) -> bool
        ensures { result ≡ held_by_key self.now.registrants self.now.reservation key }
    {
        match self.reservation {
            Some(held) => self.is_known(held.nexus, key),
            None => false,
        }
    }

    /// One more action was done.
    fn count(&mut self)
        ensures { self.new ≡ record self.old { generation = next_generation self.old.generation } }
    {
        self.generation = self.generation.wrapping_add(1);
    }

    /// The reservation, once the nexus is registered no more.
    fn reservation_without(&self, nexus: u32) -> Option<Reservation>
        ensures { result ≡ (if is_held_by nexus self.now.reservation then None else self.now.reservation) }
    {
        if self.is_holder(nexus) {
            None
        } else {
            self.reservation
        }
    }

    /// Ends the registration of the nexus, and its reservation.
    fn unregister(&mut self, nexus: u32)
        ensures { self.new ≡ without_registrant self.old nexus }
    {
        self.reservation = self.reservation_without(nexus);
        registrants::remove(&mut self.registrants, nexus);
        self.count();
    }

    /// Registers one more nexus. At `OutOfMemory` nothing changes.
    fn add(&mut self, nexus: u32, key: u64) -> Result<(), OutOfMemory>
        requires { length self.old.registrants < most_registrants }
        ensures ok { OnOk result (self.new ≡ with_registrant self.old nexus key) }
        ensures err { OnErr result (self.new ≡ self.old) }
    {
        self.registrants.push(Registrant { nexus, key })?;
        self.count();
        Ok(())
    }

    /// REGISTER AND IGNORE EXISTING KEY.
    fn register(&mut self, nexus: u32, action_key: u64) -> Result<(), PrRefused>
        ensures ok { OnOk result (registered self.old nexus action_key ≡ Ok self.new) }
        ensures refused { IfErr result (λ e. Tells e self.old (registered self.old nexus action_key)) }
        ensures err { OnErr result (self.new ≡ self.old) }
    {
        if action_key == 0 {
            self.unregister(nexus);
            return Ok(());
        }
        if self.key_of(nexus).is_some() {
            registrants::set_key(&mut self.registrants, nexus, action_key);
            self.count();
            return Ok(());
        }
        if self.registrants.len() >= MOST_REGISTRANTS {
            return Err(PrRefused::Refused(Sense::insufficient_resources()));
        }
        self.add(nexus, action_key)?;
        Ok(())
    }

    /// REGISTER: a nexus that is not registered has key 0.
    fn register_by_key(&mut self, nexus: u32, key: u64, action_key: u64) -> Result<(), PrRefused>
        ensures ok { OnOk result (registered_by_key self.old nexus key action_key ≡ Ok self.new) }
        ensures refused { IfErr result (λ e. Tells e self.old (registered_by_key self.old nexus key action_key)) }
        ensures err { OnErr result (self.new ≡ self.old) }
    {
        if self.key_of(nexus).unwrap_or(0) != key {
            return Err(PrRefused::Conflict);
        }
        self.register(nexus, action_key)
    }

    /// RESERVE.
    fn reserve(
        &mut self,
        nexus: u32,
        key: u64,
        kind: Option<ReservationType>,
    ) -> Result<(), PrRefused>
        ensures ok { OnOk result (with_reservation self.old nexus key kind ≡ Ok self.new) }
        ensures refused { IfErr result (λ e. Tells e self.old (with_reservation self.old nexus key kind)) }
        ensures err { OnErr result (self.new ≡ self.old) }
    {
        let Some(kind) = kind else {
            return Err(PrRefused::Refused(Sense::invalid_field_in_cdb()));
        };
        let wanted = Reservation { kind, nexus };
        if !self.is_known(nexus, key) || !wanted.is_free(self.reservation) {
            return Err(PrRefused::Conflict);
        }
        self.reservation = Some(wanted);
        Ok(())
    }

    /// RELEASE: a nexus that holds no reservation gives up none.
    fn release(
        &mut self,
        nexus: u32,
        key: u64,
        kind: Option<ReservationType>,
    ) -> Result<(), PrRefused>
        ensures ok { OnOk result (released self.old nexus key kind ≡ Ok self.new) }
        ensures refused { IfErr result (λ e. Tells e self.old (released self.old nexus key kind)) }
        ensures err { OnErr result (self.new ≡ self.old) }
    {
        let Some(kind) = kind else {
            return Err(PrRefused::Refused(Sense::invalid_field_in_cdb()));
        };
        if !self.is_known(nexus, key) {
            return Err(PrRefused::Conflict);
        }
        let Some(held) = self.reservation else {
            return Ok(());
        };
        if held.nexus != nexus {
            return Ok(());
        }
        if held.kind.code() != kind.code() {
            return Err(PrRefused::Refused(Sense::invalid_field_in_cdb()));
        }
        self.reservation = None;
        Ok(())
    }

    /// CLEAR.
    fn clear(&mut self, nexus: u32, key: u64) -> Result<(), PrRefused>
        ensures ok { OnOk result (cleared self.old nexus key ≡ Ok self.new) }
        ensures refused { IfErr result (λ e. Tells e self.old (cleared self.old nexus key)) }
        ensures err { OnErr result (self.new ≡ self.old) }
    {
        if !self.is_known(nexus, key) {
            return Err(PrRefused::Conflict);
        }
        self.registrants.clear();
        self.reservation = None;
        self.count();
        Ok(())
    }

    /// PREEMPT.
    fn preempt(
        &mut self,
        nexus: u32,
        key: u64,
        action_key: u64,
        kind: Option<ReservationType>,
    ) -> Result<(), PrRefused>
        ensures ok { OnOk result (preempted self.old nexus key action_key kind ≡ Ok self.new) }
        ensures refused { IfErr result (λ e. Tells e self.old (preempted self.old nexus key action_key kind)) }
        ensures err { OnErr result (self.new ≡ self.old) }
    {
        let Some(kind) = kind else {
            return Err(PrRefused::Refused(Sense::invalid_field_in_cdb()));
        };
        if !self.is_known(nexus, key) {
            return Err(PrRefused::Conflict);
        }
        if action_key == 0 {
            return Err(PrRefused::Refused(Sense::invalid_field_in_parameter_list()));
        }
        if !self.has_key(action_key) {
            return Err(PrRefused::Conflict);
        }
        self.take_over(nexus, action_key, kind);
        Ok(())
    }

    /// The reservation, once the nexus has taken it from a holder of this key.
    fn reservation_from(&self, key: u64, wanted: Reservation) -> Option<Reservation>
        ensures { result ≡ (if held_by_key self.now.registrants self.now.reservation key then Some wanted else self.now.reservation) }
    {
        if self.is_held_by_key(key) {
            Some(wanted)
        } else {
            self.reservation
        }
    }

    /// Ends the registrations of others with the key, and takes the reservation over from it.
    fn take_over(&mut self, nexus: u32, key: u64, kind: ReservationType)
        ensures { self.new ≡ preempted_by self.old nexus kind key }
    {
        self.reservation = self.reservation_from(key, Reservation { kind, nexus });
        registrants::remove_others(&mut self.registrants, nexus, key);
        self.count();
    }
}

#[cfg(test)]
mod tests {
    use super::*;

    /// PRGENERATION begins anew behind its last value, and a RESERVE leaves it.
    #[test]
    fn generation_wraps(rt: HostRuntime) -> Result<(), PrRefused> {
        let mut unit = PrState::new(rt.alloc());
        unit.generation = u32::MAX;
        unit.apply(1, 0x00, 0, 0, 0, 5)?;
        assert_eq!(rt; unit.generation(), 0);
        unit.apply(1, 0x01, 0, 1, 5, 0)?;
        assert_eq!(rt; unit.generation(), 0);
        Ok(())
    }
}
