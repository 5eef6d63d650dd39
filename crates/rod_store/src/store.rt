ghost use Rattle.std.specs.Prelude.{◌≡◌, ◌<◌, ◌≤◌, ◌+◌, ◌++◌, ◌∷◌, ◌^◌, ◌==◌, [], map, length, slice_get, option_copied, is_some, IfOk, IfErr, IfSome, IfNone, OnSome, OnOk, OnErr, Ok, Err, Some, IsSome, true, false};
ghost use Rattle.cm_history.specs.Bounds.{live_tokens};
ghost use Rattle.rod_token.specs.TokenText.{is_named, serial_of};
ghost use Rattle.rod_store.specs.Kept.{is_live, live, IsPlaced, value_at, first_value, is_over_at, expired, expire_first, evict_if, evicted_value, populated, end_at, deleted, used};
ghost use Rattle.rod_store.specs.Judging.{judged};
ghost use Rattle.rod_store.specs.declared.kept.TokenState.TheVariants.{Live};

use crate::kept::{Kept, TokenState};
use crate::{judge, walks};
use cm_base::{Config, OutOfMemory};
use scsi_sense::Sense;
use std::alloc::Global;
use std::marker::Model;
use std::mem;

/// How many tokens of a unit live at most.
const MOST_LIVE: usize = 64;

/// A token that was made, and the value of the one that made room for it.
#[derive(Drop)]
pub struct Populated<K> {
    pub serial: u64,
    pub evicted: Option<K>,
}

/// The tokens of a unit, each with a value of the caller's while it lives. A token ends once: its
/// time is over, it makes room for another, or it is deleted. Its value is handed back then.
/// Contracts see the unit, the tokens, each at the place of its serial, and how many more find
/// room.
#[derive(Drop)]
pub struct RodStore<K> {
    unit: u16,
    tokens: Vec<Kept<K>>,
    // The serials of the live ones, by rising serial.
    live_serials: Vec<u64>,
    // Up to this moment no token is over.
    next_expiry: u64,
    // Before this moment no live token was used last.
    least_use: u64,
    spare: u64,
}

impl<K> Model for RodStore<K> {
    ghost use Rattle.std.specs.Prelude.{vec_len, vec_capacity};
    ghost use Rattle.rod_store.specs.Store.{Store};
    ghost use Rattle.rod_store.specs.inner.Store.{IsStored, HasRoom};

    ghost Value = { Store K };

    ghost view = { λ s. record { unit = s.unit; tokens = s.tokens.items; spare = s.spare } };

    ghost invariant = { λ s. IsStored s.tokens.items s.live_serials.items s.next_expiry s.least_use
        × HasRoom (vec_len s.tokens) s.spare (vec_capacity s.tokens) (vec_capacity s.live_serials) };
}

impl<K: Drop> RodStore<K> {
    /// The store of a unit that made no token yet.
    pub fn new(alloc: Global, config: &Config, unit: u16) -> Result<RodStore<K>, OutOfMemory>
        requires { unit < length config.now.units }
        ensures { IfOk result (λ s. s ≡ record { unit = unit; tokens = []; spare = 0 }) }
    {
        let _ = config;
        Ok(RodStore {
            unit,
            tokens: Vec::new(alloc),
            live_serials: Vec::with_capacity(alloc, MOST_LIVE)?,
            next_expiry: u64::MAX,
            least_use: u64::MAX,
            spare: 0,
        })
    }

    /// Ends the first of the tokens that are over at the moment, in seconds, and hands its value
    /// back; `None` where none is. Called until it answers `None`, it leaves no live token that is
    /// over. It takes no memory.
    pub fn expire(&mut self, moment: u64) -> Option<K>
        ensures value { result ≡ first_value (is_over_at moment) self.old.tokens }
        ensures tokens { self.new.tokens ≡ expire_first moment self.old.tokens }
        ensures count { length self.new.tokens ≡ length self.old.tokens }
        ensures same { expired moment self.new.tokens ≡ expired moment self.old.tokens }
        ensures fewer { OnSome result (length (live self.new.tokens) + 1 ≡ length (live self.old.tokens)) }
        ensures none { IfNone result (expired moment self.new.tokens ≡ self.new.tokens) }
        ensures unchanged { IfNone result (self.new ≡ self.old) }
        ensures unit { self.new.unit ≡ self.old.unit }
        ensures spare { self.new.spare ≡ self.old.spare }
    {
        if moment <= self.next_expiry {
            return None;
        }
        match walks::first_over(&self.tokens, &self.live_serials, moment) {
            Some(serial) => Some(self.end(serial, TokenState::Expired)),
            None => {
                self.next_expiry = walks::least_end(&self.tokens, &self.live_serials);
                None
            }
        }
    }

    /// Makes room for one more token. At `OutOfMemory`, which comes only where there is none, the
    /// store is as before.
    pub fn reserve(&mut self) -> Result<(), OutOfMemory>
        ensures unit { self.new.unit ≡ self.old.unit }
        ensures tokens { self.new.tokens ≡ self.old.tokens }
        ensures room { OnOk result (1 ≤ self.new.spare) }
        ensures kept { self.old.spare ≤ self.new.spare }
        ensures err { OnErr result (self.new ≡ self.old) }
        ensures full { OnErr result (self.old.spare ≡ 0) }
    {
        if self.spare > 0 {
            return Ok(());
        }
        self.tokens.reserve(1)?;
        self.spare = 1;
        Ok(())
    }

    /// Makes a token of so many blocks at the moment, in seconds; it lives for the timeout after
    /// its last use. Where 64 are live, the one that was used least lately makes room, and its
    /// value is handed back. At `OutOfMemory`, which comes only where there is no room, the store
    /// is as before, and the value is handed back. No token may be left to expire at the moment, and
    /// serials lie below 2^48.
    pub fn populate(
        &mut self,
        moment: u64,
        timeout: u32,
        blocks: u32,
        keep: K,
    ) -> Result<Populated<K>, (K, OutOfMemory)>
        requires over { expired moment self.old.tokens ≡ self.old.tokens }
        requires serials { length self.old.tokens < 2 ^ 48 }
        ensures tokens { OnOk result (self.new.tokens ≡ populated self.old.tokens moment timeout blocks keep) }
        ensures serial { IfOk result (λ p. p.serial ≡ length self.old.tokens) }
        ensures evicted { IfOk result (λ p. p.evicted ≡ evicted_value self.old.tokens) }
        ensures full { IfOk result (λ p. is_some p.evicted ≡ (length (live self.old.tokens) == live_tokens)) }
        ensures spare { OnOk result (self.old.spare ≤ self.new.spare + 1) }
        ensures unit { self.new.unit ≡ self.old.unit }
        ensures err { OnErr result (self.new ≡ self.old) }
        ensures room { OnErr result (self.old.spare ≡ 0) }
        ensures back { IfErr result (λ e. e.0 ≡ keep) }
    {
        if let Err(refused) = self.reserve() {
            return Err((keep, refused));
        }
        let serial = self.next_serial();
        let evicted = self.evict();
        self.append(Kept {
            serial,
            blocks,
            state: TokenState::Live {
                timeout,
                last_use: moment,
                value: keep,
            },
        });
        Ok(Populated { serial, evicted })
    }

    /// The serial of the next token. It takes no memory.
    pub fn next_serial(&self) -> u64
        ensures count { result ≡ length self.now.tokens }
        ensures placed { IsPlaced 0 self.now.tokens }
    {
        self.tokens.len() as u64
    }

    /// How many tokens are live, at most 64. It takes no memory.
    pub fn live(&self) -> u32
        ensures count { result ≡ length (live self.now.tokens) }
        ensures most { result ≤ live_tokens }
    {
        self.live_serials.len() as u32
    }

    /// What a redeem of the token that the text names is answered at the moment, in seconds, for
    /// the target unit: its serial and its value, or the first refusal that holds (own profile).
    /// A token that is told is live, also once what is over at the moment has expired. Nothing
    /// changes. It takes no memory.
    pub fn peek(
        &self,
        config: &Config,
        moment: u64,
        text: &[u8; 512],
        target: u16,
    ) -> Result<(u64, &K), Sense>
        requires unit { self.now.unit < length config.now.units }
        requires named { is_named self.now.unit text.now ≡ true }
        requires target { target < length config.now.units }
        ensures ok { IfOk result (λ found. judged config.now self.now.unit moment text.now target self.now.tokens ≡ Ok found.1.now) }
        ensures serial { IfOk result (λ found. found.0 ≡ serial_of text.now) }
        ensures lives { OnOk result (IsSome (value_at (serial_of text.now) (expired moment self.now.tokens))) }
        ensures err { IfErr result (λ sense. judged config.now self.now.unit moment text.now target self.now.tokens ≡ Err sense) }
    {
        let serial = judge::serial_of(self.unit, text);
        match self.token(serial) {
            Some(token) => match judge::judge(config, self.unit, moment, text, target, token) {
                Ok(value) => Ok((serial, value)),
                Err(sense) => Err(sense),
            },
            None => Err(Sense::token_unknown()),
        }
    }

    /// Notes that the live token of the serial, as `peek` told it, was redeemed at the moment, in
    /// seconds: its time begins anew. It takes no memory.
    pub fn note_use(&mut self, serial: u64, moment: u64)
        requires { IsSome (value_at serial self.old.tokens) }
        ensures tokens { self.new.tokens ≡ used serial moment self.old.tokens }
        ensures unit { self.new.unit ≡ self.old.unit }
        ensures spare { self.new.spare ≡ self.old.spare }
    {
        let token = &mut self.tokens[serial as usize];
        token.state.note_use(moment);
        self.next_expiry = token.state.end_until(self.next_expiry);
        self.least_use = token.state.use_until(self.least_use);
    }

    /// Ends the token of the serial and hands its value back; `None` where no live one has it, and
    /// then the store is as before. It takes no memory.
    pub fn delete(&mut self, serial: u64) -> Option<K>
        ensures value { result ≡ value_at serial self.old.tokens }
        ensures tokens { self.new.tokens ≡ deleted serial self.old.tokens }
        ensures unchanged { IfNone result (self.new ≡ self.old) }
        ensures unit { self.new.unit ≡ self.old.unit }
        ensures spare { self.new.spare ≡ self.old.spare }
    {
        if self.is_live(serial) {
            Some(self.end(serial, TokenState::Deleted))
        } else {
            None
        }
    }

    /// The token of the serial.
    fn token(&self, serial: u64) -> Option<&Kept<K>>
        ensures { option_copied result ≡ slice_get self.now.tokens serial }
    {
        self.tokens.get(serial as usize)
    }

    /// A live token has the serial.
    fn is_live(&self, serial: u64) -> bool
        ensures live { result ≡ is_some (value_at serial self.now.tokens) }
        ensures placed { IsPlaced 0 self.now.tokens }
    {
        let _ = &self.unit;
        match self.token(serial) {
            Some(token) => matches!(token.state, TokenState::Live { .. }),
            None => false,
        }
    }

    /// Ends a live token, and hands its value back.
    fn end(&mut self, serial: u64, ending: TokenState<K>) -> K
        requires live { IsSome (value_at serial self.old.tokens) }
        requires ends { is_live ending ≡ false }
        ensures value { value_at serial self.old.tokens ≡ Some result }
        ensures tokens { self.new.tokens ≡ map (end_at ending serial) self.old.tokens }
        ensures fewer { length (live self.new.tokens) + 1 ≡ length (live self.old.tokens) }
        ensures unit { self.new.unit ≡ self.old.unit }
        ensures spare { self.new.spare ≡ self.old.spare }
    {
        walks::forget(&mut self.live_serials, serial);
        match mem::replace(&mut self.tokens[serial as usize].state, ending) {
            TokenState::Live { value, .. } => value,
            _ => unreachable!(),
        }
    }

    /// Ends the token that was used least lately, where 64 are live.
    fn evict(&mut self) -> Option<K>
        ensures value { result ≡ evicted_value self.old.tokens }
        ensures tokens { self.new.tokens ≡ map (evict_if self.old.tokens) self.old.tokens }
        ensures full { is_some result ≡ (length (live self.old.tokens) == live_tokens) }
        ensures few { length (live self.new.tokens) < live_tokens }
        ensures unit { self.new.unit ≡ self.old.unit }
        ensures spare { self.new.spare ≡ self.old.spare }
    {
        if self.live_serials.len() < MOST_LIVE {
            return None;
        }
        let serial = walks::oldest(&self.tokens, &self.live_serials, self.least_use);
        self.least_use = self.tokens[serial as usize].state.used_last();
        Some(self.end(serial, TokenState::Evicted))
    }

    /// Adds a live token of the next serial.
    fn append(&mut self, token: Kept<K>)
        requires spare { 1 ≤ self.old.spare }
        requires few { length (live self.old.tokens) < live_tokens }
        requires serial { token.serial ≡ length self.old.tokens }
        requires serials { length self.old.tokens < 2 ^ 48 }
        requires live { is_live token.state ≡ true }
        ensures tokens { self.new.tokens ≡ self.old.tokens ++ token ∷ [] }
        ensures unit { self.new.unit ≡ self.old.unit }
        ensures spare { self.new.spare + 1 ≡ self.old.spare }
    {
        self.next_expiry = token.state.end_until(self.next_expiry);
        self.least_use = token.state.use_until(self.least_use);
        self.live_serials.push(token.serial).unwrap();
        self.tokens.push(token).unwrap();
        self.spare -= 1;
    }
}
