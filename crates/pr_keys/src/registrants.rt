// The nexuses that are registered, in the order of registering.
ghost use Rattle.std.specs.Prelude.{◌≡◌, ◌≤◌, ◌==◌, map, filter, vec_len};
ghost use Rattle.std.specs.List.{list_any};
ghost use Rattle.pr_keys.specs.Reservations.{key_of};
ghost use Rattle.pr_keys.specs.Actions.{rekey, is_other, stays};
ghost use Rattle.pr_keys.specs.declared.registrants.Registrant.{Registrant};

/// A nexus that is registered, with its key, which is not 0.
#[derive(Drop, Clone, Copy)]
pub struct Registrant {
    pub nexus: u32,
    pub key: u64,
}

impl Registrant {
    /// Gives it another key, where it is the nexus.
    fn rekey(&mut self, nexus: u32, key: u64)
        ensures { self.new ≡ rekey nexus key self.old }
    {
        if self.nexus == nexus {
            self.key = key;
        }
    }
}

/// The key under which the nexus is registered.
pub(crate) fn key_of(registrants: &[Registrant], nexus: u32) -> Option<u64>
    ensures { result ≡ key_of nexus registrants.now }
{
    registrants
        .iter()
        .find(|registrant| registrant.nexus == nexus)
        .map(|registrant| registrant.key)
}

/// A nexus is registered with this key.
pub(crate) fn has_key(registrants: &[Registrant], key: u64) -> bool
    ensures { result ≡ list_any (λ (r : Registrant). r.key == key) registrants.now }
{
    registrants.iter().any(|registrant| registrant.key == key)
}

/// Gives a registered nexus another key.
pub(crate) fn set_key(registrants: &mut Vec<Registrant>, nexus: u32, key: u64)
    ensures { registrants.new.items ≡ map (rekey nexus key) registrants.old.items }
{
    for registrant in registrants.iter_mut() {
        registrant.rekey(nexus, key);
    }
}

/// Ends the registration of the nexus.
pub(crate) fn remove(registrants: &mut Vec<Registrant>, nexus: u32)
    ensures rest { registrants.new.items ≡ filter (is_other nexus) registrants.old.items }
    ensures fewer { vec_len registrants.new ≤ vec_len registrants.old }
{
    registrants.retain(|registrant| registrant.nexus != nexus);
}

/// Ends the registrations of others with the key.
pub(crate) fn remove_others(registrants: &mut Vec<Registrant>, nexus: u32, key: u64)
    ensures rest { registrants.new.items ≡ filter (stays nexus key) registrants.old.items }
    ensures fewer { vec_len registrants.new ≤ vec_len registrants.old }
{
    registrants.retain(|registrant| registrant.nexus == nexus || registrant.key != key);
}
