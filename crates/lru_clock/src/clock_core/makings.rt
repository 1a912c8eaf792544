//! The making of values, and how it goes on by callers that cannot keep a ticket or a pin: they
//! have the number of the making, and hold the entry.
ghost use Rattle.std.specs.Prelude.{◌≡◌, ◌≢◌, false, true, IfErr, IfOk, IfSome};
ghost use Rattle.std.specs.Prelude.{MatchBool, MatchOption};
ghost use Rattle.std.specs.List.{list_any};
ghost use Rattle.lru_clock.specs.Begun.{IsBegun};
ghost use Rattle.lru_clock.specs.Makings.{has_number, is_of, HasEnded, IsWith};
ghost use Rattle.lru_clock.specs.SeatChanges.{Charges};

use crate::clock_core::Core;
use crate::makings::{Ended, Ticket};
use crate::shard_state::ShardState;
use crate::store::HoldAt;
use concurrent_lru::fit::Fit;
use concurrent_lru::sharded::Refusal;

/// What a caller of `begin_held` must do.
pub enum Begun<V> {
    /// Make the value, and pass this number to `hold_made` or `fail_number`.
    Make(u64),
    /// Wait until a making ends, and call again: another caller makes the value.
    Wait,
    /// Nothing: the key has an entry with this value, which was held.
    Hit(HoldAt, V),
}

impl<K: Eq + Clone + Drop, V: Drop, F: Fit<K, V>> Core<K, V, F> {
    /// Begins the making of a key's value, and returns its ticket, whose number is drawn from the
    /// history. Returns `None` if another caller is making it.
    ///
    /// Returns `Overflow` if the charge would take the total past `u64::MAX`, or if no number is
    /// left, `Full` if the limit is strict and has no room for the charge, and `Memory` if a copy
    /// of the key or the making is refused. Nothing changes then.
    pub fn start(
        &self,
        state: &mut ShardState<K>,
        key: &K,
        charge: u64,
    ) -> Result<Option<Ticket<K, V>>, Refusal>
        ensures started { IfOk result (λ started. MatchOption started
            ((list_any (is_of K.eq key.now) state.old.makings ≡ true) × (state.new ≡ state.old))
            (λ ticket. (list_any (is_of K.eq key.now) state.old.makings ≡ false)
            × (state.new ≡ record state.old { makings = state.new.makings })
            × ((copy : K) × (K.eq copy key.now ≡ true)
            × IsWith state.old.makings copy ticket.number state.new.makings))) }
        ensures began { IfOk result (λ started. IfSome started
            (λ ticket. ticket.began.book ≡ self.now.store.chronicle.first.book)) }
        ensures refused { IfErr result (λ e. (e ≢ Refusal.Stale) × (state.new ≡ state.old)) }
    {
        if state.makings.contains(key) {
            return Ok(None);
        }
        if state.seats.total().checked_add(charge).is_none() {
            return Err(Refusal::Overflow);
        }
        if self.is_full_for(state, charge, state.is_strict) {
            return Err(Refusal::Full);
        }
        let key_copy = key.clone()?;
        // Always `Some`, since nobody else draws a number without the lock.
        let Some((number, began)) = self.store.chronicle.draw() else {
            return Err(Refusal::Overflow);
        };
        Ok(Some(state.makings.begin(key_copy, number, began)?))
    }

    /// Ends the making with a number, which failed. Returns whether there is such a making.
    pub fn fail_number(&self, state: &mut ShardState<K>, number: u64) -> bool
        ensures told { MatchBool result
            (HasEnded number state.old.makings state.new.makings)
            ((has_number number state.old.makings ≡ false) × (state.new ≡ state.old)) }
        ensures seats { state.new.seats ≡ state.old.seats }
    {
        if let Ended::Unknown = state.makings.end_number(number) {
            return false;
        }
        state.counts.failures = state.counts.failures.wrapping_add(1);
        true
    }
}

impl<K: Eq + Clone + Drop, V: Copy + Drop, F: Fit<K, V>> Core<K, V, F> {
    /// Holds the key's entry, or begins the making of its value. Evicts nothing.
    ///
    /// Returns `Overflow` as `hold_listed` does, and `Overflow`, `Full` and `Memory` as `start`
    /// does. Nothing changes then.
    pub fn begin_held(
        &self,
        state: &mut ShardState<K>,
        tag: u32,
        key: &K,
        charge: u64,
    ) -> Result<Begun<V>, Refusal>
        ensures begun { IfOk result (λ begun. IsBegun K.eq key.now state.old begun state.new) }
        ensures refused { IfErr result (λ e. (e ≢ Refusal.Stale) × (state.new ≡ state.old)) }
    {
        if let Some((hold, value)) = self.hold_listed(state, tag, key)? {
            return Ok(Begun::Hit(hold, value));
        }
        match self.start(state, key, charge)? {
            Some(ticket) => Ok(Begun::Make(ticket.into_number())),
            None => Ok(Begun::Wait),
        }
    }

    /// Ends the making with a number, stores its value, and returns a hold of the entry. If the
    /// making was invalidated, so is the entry, and only this caller gets it. Returns `None` if
    /// there is no such making.
    ///
    /// Returns `Memory` and `Overflow` as `hold_new` does. The making then counts as failed.
    pub fn hold_made(
        &self,
        state: &mut ShardState<K>,
        number: u64,
        tag: u32,
        charge: u64,
        value: V,
    ) -> Result<Option<HoldAt>, Refusal>
        requires fits { (key : K) → F.fits key value }
        ensures made { IfOk result (λ place. MatchOption place
            ((has_number number state.old.makings ≡ false) × (state.new ≡ state.old))
            (λ at. HasEnded number state.old.makings state.new.makings
            × Charges charge at state.old.seats state.new.seats)) }
        ensures refused { IfErr result (λ e. (e ≢ Refusal.Stale)
            × HasEnded number state.old.makings state.new.makings) }
    {
        let (key, is_listed) = match state.makings.end_number(number) {
            Ended::Current(key) => (key, true),
            Ended::Invalidated(key) => (key, false),
            Ended::Unknown => return Ok(None),
        };
        match self.hold_entry(state, tag, &key, charge, value, Some(number), is_listed) {
            Ok(hold) => {
                state.counts.makings = state.counts.makings.wrapping_add(1);
                Ok(Some(hold))
            }
            Err(refusal) => {
                state.counts.failures = state.counts.failures.wrapping_add(1);
                Err(refusal)
            }
        }
    }
}
