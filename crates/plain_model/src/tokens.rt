ghost use Rattle.std.specs.Prelude.{◌≡◌, ◌<◌, ◌≤◌, ◌++◌, ◌^◌, length, map, Some, IfOk};
ghost use Rattle.std.specs.Str.{bytes_eq};
ghost use Rattle.lba_ranges.specs.Denoted.{total};
ghost use Rattle.rod_token.specs.TokenText.{token_text};
ghost use Rattle.cm_base.specs.Units.{unit_of};
ghost use Rattle.cm_history.specs.Blocks.{held};
ghost use Rattle.cm_history.specs.Tokens.{rod, is_live, is_over, is_live_at, is_older, gives_way, token_after, made_token};
ghost use Rattle.cm_history.specs.Redeeming.{are_alike, fate_at, answer_by_fate, redeemed};
ghost use Rattle.plain_model.specs.inner.Holds.{AreSized, MadeSound, listed};
ghost use Rattle.plain_model.specs.inner.Fates.{fate_of};

use crate::blocks::cut;
use crate::deeds::{PlainDeed, PlainPast};
use crate::{acts, refusals};
use cm_base::{Config, OutOfMemory, UnitConfig};
use cm_history::{Act, Answer};
use lba_ranges::{BlockList, RangeList};
use std::alloc::Global;
use std::marker::Model;

/// Tokens of a unit that live at most.
const LIVE_TOKENS: usize = 64;

/// What became of a token.
#[derive(Drop, Clone, Copy)]
pub(crate) enum PlainFate {
    Live,
    Expired,
    /// It made room for another.
    Evicted,
    Deleted,
}

/// A token, as the deeds so far leave it, with the deeds before the Populate that made it.
#[derive(Drop)]
pub(crate) struct PlainToken {
    serial: u64,
    ranges: RangeList,
    timeout: u32,
    before: PlainPast,
    last_use: u64,
    fate: PlainFate,
}

impl Model for PlainToken {
    ghost use Rattle.cm_history.specs.Tokens.{Token};

    ghost Value = { Token };

    ghost use Rattle.plain_model.specs.inner.Fates.{fate_of};
    ghost use Rattle.plain_model.specs.inner.Holds.{IsSoundToken};

    ghost view = { λ t. record { serial = t.serial; ranges = t.ranges; timeout = t.timeout; before = t.before; last_use = t.last_use; fate = fate_of t.fate } };

    ghost invariant = { λ t. IsSoundToken t.serial t.ranges };
}

/// Tokens of the one unit may be used at the other.
fn are_alike(unit: UnitConfig, target: UnitConfig) -> bool
    ensures { result ≡ are_alike unit target }
{
    unit.group == target.group && unit.block_length == target.block_length
}

impl PlainToken {
    fn is_live(&self) -> bool
        ensures { result ≡ is_live self.now.fate }
    {
        matches!(&self.fate, PlainFate::Live)
    }

    /// Its time is over at this moment.
    fn is_over(&self, now: u64) -> bool
        ensures { result ≡ is_over now self.now }
    {
        self.last_use.saturating_add(u64::from(self.timeout)) < now
    }

    fn is_live_at(&self, now: u64) -> bool
        ensures { result ≡ is_live_at now self.now }
    {
        self.is_live() && !self.is_over(now)
    }

    /// It was used before the other, or at the same moment and made before it.
    fn is_older(&self, other: &PlainToken) -> bool
        ensures { result ≡ is_older self.now other.now }
    {
        self.last_use < other.last_use
            || (self.last_use == other.last_use && self.serial <= other.serial)
    }

    /// 64 tokens are live at this moment, and this one was used least lately.
    fn makes_room(&self, now: u64, tokens: &[PlainToken]) -> bool
        ensures { result ≡ gives_way now tokens.now self.now }
    {
        let mut live = 0;
        let mut oldest = true;
        for token in tokens {
            if token.is_live_at(now) {
                live += 1;
                oldest = oldest && self.is_older(token);
            }
        }
        live == LIVE_TOKENS && oldest
    }

    fn copy(&self, alloc: Global) -> Result<PlainToken, OutOfMemory>
        ensures { IfOk result (λ copy. copy ≡ self.now) }
    {
        let ranges = self.ranges.copy(alloc)?;
        let before = self.before.copy(alloc)?;
        Ok(PlainToken {
            serial: self.serial,
            ranges,
            timeout: self.timeout,
            before,
            last_use: self.last_use,
            fate: self.fate,
        })
    }

    /// Notes one more deed, where these were the tokens before.
    fn note(&mut self, deed: &PlainDeed, tokens: &[PlainToken])
        ensures { self.new ≡ token_after deed.now tokens.now self.old }
    {
        let act = &deed.entry().act;
        if !self.is_live() {
            return;
        }
        if self.is_over(deed.moment()) {
            self.fate = PlainFate::Expired;
            return;
        }
        if acts::is_delete_of(self.serial, act) {
            self.fate = PlainFate::Deleted;
            return;
        }
        if acts::is_populate(act) && deed.is_answered() && self.makes_room(deed.moment(), tokens) {
            self.fate = PlainFate::Evicted;
            return;
        }
        if acts::is_redeem_of(self.serial, act) && deed.is_answered() {
            self.last_use = deed.moment();
        }
    }

    /// The token after one more deed, where these were the tokens before.
    fn after(
        &self,
        alloc: Global,
        deed: &PlainDeed,
        tokens: &[PlainToken],
    ) -> Result<PlainToken, OutOfMemory>
        ensures { IfOk result (λ token. token ≡ token_after deed.now tokens.now self.now) }
    {
        let mut token = self.copy(alloc)?;
        token.note(deed, tokens);
        Ok(token)
    }

    /// The token that a deed made, if it made one.
    fn made(
        alloc: Global,
        deed: &PlainDeed,
        past: &PlainPast,
        serial: u64,
    ) -> Result<Option<PlainToken>, OutOfMemory>
        requires { MadeSound deed.now serial deed.now.entry.act }
        ensures { IfOk result (λ token. listed token ≡ made_token deed.now past.now serial deed.now.entry.act) }
    {
        if !deed.is_answered() {
            return Ok(None);
        }
        match &deed.entry().act {
            Act::Populate {
                id: _,
                timeout,
                ranges,
            } => Ok(Some(PlainToken {
                serial,
                ranges: ranges.copy(alloc)?,
                timeout: *timeout,
                before: past.copy(alloc)?,
                last_use: deed.moment(),
                fate: PlainFate::Live,
            })),
            _ => Ok(None),
        }
    }

    /// The blocks of the token, as they stood when it was made.
    fn rod(&self, alloc: Global, unit: UnitConfig) -> Result<BlockList, OutOfMemory>
        requires { AreSized unit.block_length (held self.now.before) }
        ensures { IfOk result (λ list. list ≡ rod unit self.now) }
    {
        let blocks = self.ranges.blocks(alloc)?;
        cut(alloc, unit, &self.before, &blocks)
    }

    /// The text is that of the token.
    fn has_text(&self, config: &Config, unit: u16, text: &[u8; 512]) -> bool
        requires { unit < length config.now.units }
        ensures { result ≡ bytes_eq text.now (token_text config.now unit self.now.serial (total self.now.ranges)) }
    {
        let blocks = self.ranges.total() as u32;
        *text == rod_token::text(config, unit, self.serial, blocks)
    }

    /// What a Redeem at this moment is answered by the token's fate.
    fn by_fate(&self, alloc: Global, unit: UnitConfig, now: u64) -> Result<Answer, OutOfMemory>
        requires { AreSized unit.block_length (held self.now.before) }
        ensures { IfOk result (λ a. a ≡ answer_by_fate unit self.now (fate_at now self.now self.now.fate)) }
    {
        match self.fate {
            PlainFate::Live if self.is_over(now) => Ok(refusals::expired()),
            PlainFate::Live => Ok(Answer::Rod(self.rod(alloc, unit)?)),
            PlainFate::Expired => Ok(refusals::expired()),
            PlainFate::Evicted => Ok(refusals::evicted()),
            PlainFate::Deleted => Ok(refusals::deleted()),
        }
    }

    /// What a Redeem at this moment is answered, for the target.
    pub(crate) fn redeemed(
        &self,
        alloc: Global,
        config: &Config,
        unit: u16,
        now: u64,
        text: &[u8; 512],
        target: u16,
    ) -> Result<Answer, OutOfMemory>
        requires unit { unit < length config.now.units }
        requires target { target < length config.now.units }
        requires sized { AreSized (unit_of config.now unit).block_length (held self.now.before) }
        ensures { IfOk result (λ a. a ≡ redeemed config.now unit now text.now target (Some self.now)) }
    {
        if !are_alike(config.unit(unit), config.unit(target)) {
            return Ok(refusals::wrong_unit());
        }
        if !self.has_text(config, unit, text) {
            return Ok(refusals::altered());
        }
        self.by_fate(alloc, config.unit(unit), now)
    }
}

/// The tokens after one more deed.
pub(crate) fn tokens_after(
    alloc: Global,
    tokens: &[PlainToken],
    past: &PlainPast,
    deed: &PlainDeed,
) -> Result<Vec<PlainToken>, OutOfMemory>
    requires { MadeSound deed.now (length tokens.now) deed.now.entry.act }
    ensures { IfOk result (λ next. next.items
        ≡ map (token_after deed.now tokens.now) tokens.now ++ made_token deed.now past.now (length tokens.now) deed.now.entry.act) }
{
    let mut next = Vec::new(alloc);
    for token in tokens {
        next.push(token.after(alloc, deed, tokens)?)?;
    }
    if let Some(token) = PlainToken::made(alloc, deed, past, tokens.len() as u64)? {
        next.push(token)?;
    }
    Ok(next)
}
