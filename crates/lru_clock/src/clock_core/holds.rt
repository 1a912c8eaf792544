//! Holds of entries: lookups without the lock by callers that cannot keep a pin. Each hold is
//! returned as a debt (`HoldAt`), which a caller in C then has as a number.
ghost use Rattle.std.specs.Prelude.{◌≡◌, ◌≢◌, false, None, IfErr, IfOk, IfSome, MatchOption};
ghost use Rattle.std.specs.List.{list_any};
ghost use Rattle.std.proofs.Math.ListN.{set};
ghost use Rattle.lru_clock.specs.Makings.{is_of};
ghost use Rattle.lru_clock.specs.Evictions.{IsWithin};
ghost use Rattle.lru_clock.specs.SeatChanges.{AddsVacant, Charges, ChargesOver};
ghost use Rattle.lru_clock.specs.Seats.{seat};
ghost use Rattle.lru_clock.specs.Ways.{IfHeld};

use crate::clock_core::Core;
use crate::clock_core::replacements::Way;
use crate::shard_state::ShardState;
use crate::store::{HoldAt, Left, Released};
use concurrent_lru::fit::Fit;
use concurrent_lru::sharded::Refusal;

/// What an insert of a caller that cannot keep a pin did, if it was not refused.
pub enum HeldOver<'a, K: Eq, V, F: Fit<K, V>> {
    /// The new entry was stored and held, and this entry has left, if one has.
    Held(HoldAt, Option<Left<'a, K, V, F>>),
    /// Nothing was stored: this entry has left, and another has to leave first.
    Blocked(Left<'a, K, V, F>),
}

impl<K: Eq + Clone + Drop, V: Copy + Drop, F: Fit<K, V>> Core<K, V, F> {
    /// Holds the key's entry without the lock, gives it another chance, and returns its value with
    /// the hold. It may miss an entry while the index is being written.
    ///
    /// Returns `Overflow` if an entry of this tag has the maximum number of holds or pins.
    #[inline(always)]
    pub fn hold(&self, tag: u32, key: &K) -> Result<Option<(HoldAt, V)>, Refusal>
        ensures { IfErr result (λ e. e ≡ Refusal.Overflow) }
    {
        let Some(index) = self.store.index() else {
            return Ok(None);
        };
        let mut probe = index.probe(tag);
        for _ in 0..u64::MAX {
            let Some(place) = index.next(&mut probe) else {
                return Ok(None);
            };
            if let Some(slot) = self.store.slot(place) {
                if let Some(found) = slot.hold(place, key)? {
                    return Ok(Some(found));
                }
            }
        }
        Ok(None)
    }

    /// Does what `hold` does, under the lock, where it misses no entry.
    ///
    /// Returns `Overflow` as `hold` does.
    pub fn hold_listed(
        &self,
        state: &mut ShardState<K>,
        tag: u32,
        key: &K,
    ) -> Result<Option<(HoldAt, V)>, Refusal>
        ensures same { state.new ≡ state.old }
        ensures refused { IfErr result (λ e. e ≡ Refusal.Overflow) }
    {
        let Some((place, slot)) = self.listed(state, tag, key) else {
            return Ok(None);
        };
        slot.hold(place, key)
    }

    /// Holds the entry at a place, even an invalidated one, and returns its value with the hold.
    ///
    /// Returns `Overflow` if the entry has the maximum number of holds or pins.
    pub fn hold_at(&self, place: u32) -> Result<Option<(HoldAt, V)>, Refusal>
        ensures place { IfOk result (λ found. IfSome found (λ held. held.0 ≡ place)) }
        ensures refused { IfErr result (λ e. e ≡ Refusal.Overflow) }
    {
        match self.store.slot(place) {
            Some(slot) => slot.hold_any(place),
            None => Ok(None),
        }
    }

    /// Ends a hold of the entry at a place, which `HoldAt::into_place` returned, and returns the
    /// state of the entry afterwards. Returns `None` if there is no hold.
    #[inline(always)]
    pub fn end_hold(&self, place: u32) -> Option<Released> {
        self.store.slot(place)?.end_hold()
    }

    /// Ends a hold of the entry at a place, and takes out the entry if nobody else has pinned it.
    /// Returns `None` if there is no hold.
    pub fn end_hold_and_take(
        &self,
        state: &mut ShardState<K>,
        place: u32,
    ) -> Option<Option<Left<'_, K, V, F>>>
        ensures { MatchOption result (state.new ≡ state.old) (λ left. MatchOption left
            (state.new ≡ state.old)
            (λ _. state.new.seats ≡ set state.old.seats place (seat 0 0 None))) }
    {
        match self.end_hold(place)? {
            Released::Pinned => Some(None),
            Released::Idle | Released::Invalidated => Some(self.take_idle(state, place)),
        }
    }

    /// Stores a value for a key of which the index has no entry, and returns a hold of the entry.
    /// Later callers wait for no making of the key.
    ///
    /// Returns `Memory` if a copy of the key is refused, and `Memory` and `Overflow` as `put` does.
    /// No entry has changed then.
    pub fn hold_new(
        &self,
        state: &mut ShardState<K>,
        tag: u32,
        key: &K,
        charge: u64,
        value: V,
    ) -> Result<HoldAt, Refusal>
        requires fits { F.fits key.now value }
        ensures unmade { IfOk result (λ _.
            list_any (is_of K.eq key.now) state.new.makings ≡ false) }
        ensures never_stale { IfErr result (λ e. e ≢ Refusal.Stale) }
        ensures charged { IfOk result
            (λ place. Charges charge place state.old.seats state.new.seats) }
        ensures refused { IfErr result (λ _. AddsVacant state.old.seats state.new.seats) }
    {
        let hold = self.hold_entry(state, tag, key, charge, value, None, true)?;
        state.makings.invalidate(key);
        state.counts.insertions = state.counts.insertions.wrapping_add(1);
        Ok(hold)
    }

    /// Stores a value in place of the key's entry, and returns a hold of the new entry with the
    /// entry that has left, if one has. Makes way first, as `make_way` does: if it is blocked,
    /// nothing is stored. Later callers wait for no making of the key after the value was stored.
    ///
    /// Returns `Memory` if a copy of the key is refused, and `Memory`, `Overflow` and `Full` as
    /// `make_way` and `store_over` do. No entry has changed then.
    pub fn hold_over(
        &self,
        state: &mut ShardState<K>,
        tag: u32,
        key: &K,
        charge: u64,
        value: V,
        is_strict: bool,
    ) -> Result<HeldOver<'_, K, V, F>, Refusal>
        requires fits { F.fits key.now value }
        ensures unmade { IfOk result (λ over. IfHeld over (λ _ _.
            list_any (is_of K.eq key.now) state.new.makings ≡ false)) }
        ensures charged { IfOk result (λ over. IfHeld over (λ place left.
            ChargesOver charge place state.old.seats state.new.seats left)) }
        ensures within { IfOk result (λ over. IfHeld over (λ _ _.
            IsWithin is_strict state.new.capacity state.new.seats)) }
        ensures refused { IfErr result
            (λ e. (e ≢ Refusal.Stale) × AddsVacant state.old.seats state.new.seats) }
    {
        let kept = self.new_entry(key, value)?;
        let key_copy = kept.key.clone()?;
        let evicted = match self.make_way(state, tag, key, charge, is_strict)? {
            Way::Clear(evicted) => evicted,
            Way::Blocked(left) => return Ok(HeldOver::Blocked(left)),
        };
        let (stored, left) = self.store_over(
            state, tag, key, charge, kept, key_copy, evicted, is_strict,
        );
        match stored {
            Ok(found) => Ok(HeldOver::Held(found.into_hold(), left)),
            Err((refusal, refused)) => {
                drop(refused.into_parts());
                match left {
                    Some(left) => Ok(HeldOver::Blocked(left)),
                    None => Err(refusal),
                }
            }
        }
    }

    /// Stores a value, which was made under a ticket of this number, or which begins to be made by
    /// this call if there is none, and returns a hold of the entry. If the index is not to have the
    /// entry, it is already invalidated, and only this caller gets it.
    ///
    /// Returns `Memory` and `Overflow` as `hold_new` does. No entry has changed then.
    #[tactic(auto, using(crate::proofs::Seating::Vacant::nothing_added))]
    pub(crate) fn hold_entry(
        &self,
        state: &mut ShardState<K>,
        tag: u32,
        key: &K,
        charge: u64,
        value: V,
        ticket: Option<u64>,
        is_listed: bool,
    ) -> Result<HoldAt, Refusal>
        requires fits { F.fits key.now value }
        ensures never_stale { IfErr result (λ e. e ≢ Refusal.Stale) }
        ensures charged { IfOk result
            (λ place. Charges charge place state.old.seats state.new.seats) }
        ensures refused { IfErr result (λ _. AddsVacant state.old.seats state.new.seats) }
        ensures makings { state.new.makings ≡ state.old.makings }
    {
        let kept = self.new_entry(key, value)?;
        let key_copy = if is_listed {
            Some(kept.key.clone()?)
        } else {
            None
        };
        let mut left = None;
        let is_strict = state.is_strict;
        let stored = self.put(
            state, tag, key, charge, kept, key_copy, ticket, &mut left, is_strict,
        );
        if let Some(left) = left {
            drop(left.into_parts());
        }
        match stored {
            Ok(found) => Ok(found.into_hold()),
            Err((refusal, refused)) => {
                drop(refused.into_parts());
                Err(refusal)
            }
        }
    }
}
