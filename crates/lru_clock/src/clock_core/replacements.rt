//! Entries that are stored in place of the key's.
//!
//! The key's entry leaves last, so that a new entry that is refused leaves it as it was.
ghost use Rattle.std.specs.Prelude.{◌≡◌, ◌≢◌, false, true, None, Some, IfErr, IfNone, IfOk};
ghost use Rattle.std.specs.Prelude.{IfSome, MatchOption, MatchResult, is_some};
ghost use Rattle.std.specs.List.{list_any};
ghost use Rattle.lru_clock.specs.Evictions.{IsWithin};
ghost use Rattle.lru_clock.specs.Makings.{is_of, Marks};
ghost use Rattle.lru_clock.specs.SeatChanges.{AddsVacant, Charges, ChargesOver, KeepsCharges};
ghost use Rattle.lru_clock.specs.SeatChanges.{IsUnlisted, LeavesAnyOther, VacatesAny};
ghost use Rattle.lru_clock.specs.SeatChanges.{VacatesListed};
ghost use Rattle.lru_clock.specs.Ways.{left_by};

use crate::clock_core::Core;
use crate::shard_state::ShardState;
use crate::store::{Kept, Left, Looks, PinAt, Reservation};
use concurrent_lru::fit::Fit;
use concurrent_lru::sharded::Refusal;

/// The way for an entry that is to be stored in place of the key's.
pub enum Way<'a, K: Eq, V, F: Fit<K, V>> {
    /// It is clear, and this entry has left to make it so, if one has.
    Clear(Option<Left<'a, K, V, F>>),
    /// It is blocked: this entry has left, and another has to leave first.
    Blocked(Left<'a, K, V, F>),
}

impl<K: Eq + Clone + Drop, V: Drop, F: Fit<K, V>> Core<K, V, F> {
    /// Makes way for an entry that is to be stored in place of the key's: adds a place if none is
    /// vacant, and evicts one entry if the charge would take the total above the capacity. The
    /// charge of the key's entry counts as room, unless somebody has pinned it.
    ///
    /// At most one entry leaves, so the way is blocked if one has and there is still too little
    /// room. It is also blocked if one has and the key still has an entry, which then leaves next.
    ///
    /// Returns `Memory` and `Overflow` as `admit` does, and `Full` if the limit is strict, there is
    /// too little room, and no entry can be evicted, or not enough of them. No entry has changed
    /// then.
    pub fn make_way(
        &self,
        state: &mut ShardState<K>,
        tag: u32,
        key: &K,
        charge: u64,
        is_strict: bool,
    ) -> Result<Way<'_, K, V, F>, Refusal>
        ensures book { IfOk result (λ way. IfSome (left_by way)
            (λ l. l ≡ Some self.now.store.chronicle.first.book)) }
        ensures never_stale { IfErr result (λ e. e ≢ Refusal.Stale) }
        ensures seats { MatchResult result
            (λ way. VacatesAny state.old.seats state.new.seats (left_by way))
            (λ _. AddsVacant state.old.seats state.new.seats) }
    {
        self.admit(state, charge)?;
        if self.is_full_for(state, charge, is_strict) {
            return Err(Refusal::Full);
        }
        if !state.is_above(charge) {
            return Ok(Way::Clear(None));
        }
        let needed = charge.saturating_sub(self.idle_charge(state, tag, key));
        match self.make_room(state, needed, &mut Looks::new()) {
            Some(left) => {
                if state.is_above(charge) || state.seats.find(tag, key).is_some() {
                    Ok(Way::Blocked(left))
                } else {
                    Ok(Way::Clear(Some(left)))
                }
            }
            None if state.refuses(needed, is_strict) => Err(Refusal::Full),
            None => Ok(Way::Clear(None)),
        }
    }

    // Returns the charge of the key's entry, or 0 if it has none or somebody has pinned it.
    fn idle_charge(&self, state: &mut ShardState<K>, tag: u32, key: &K) -> u64
        ensures { state.new ≡ state.old }
    {
        match self.listed(state, tag, key) {
            Some((place, slot)) => {
                if slot.is_pinned() {
                    0
                } else {
                    state.seats.charge_at(place)
                }
            }
            None => 0,
        }
    }

    /// Stores an entry in place of the key's, and pins it. `evicted` is an entry that has just left
    /// to make way, so that there is room and the key has no entry. Returns the entry that has
    /// left, if one has. If the entry was stored, it counts as inserted, and later callers wait for
    /// no making of the key.
    ///
    /// Returns `Memory`, `Overflow` and `Full` as `replace` does, with the entry that was refused.
    pub fn store_over<'a>(
        &'a self,
        state: &mut ShardState<K>,
        tag: u32,
        key: &K,
        charge: u64,
        kept: Kept<K, V, F>,
        key_copy: K,
        evicted: Option<Left<'a, K, V, F>>,
        is_strict: bool,
    ) -> (
        Result<PinAt<'a, K, V, F>, (Refusal, Left<'a, K, V, F>)>,
        Option<Left<'a, K, V, F>>,
    )
        requires fits { F.fits kept.key kept.value }
        requires asked { F.fits key.now kept.value }
        requires equal { K.eq kept.key key.now ≡ true }
        requires copy { K.eq key_copy kept.key ≡ true }
        requires book { IfSome evicted (λ l. l ≡ Some self.now.store.chronicle.first.book) }
        ensures pin { IfOk result.0
            (λ found. (found.pin.key ≡ key.now) × F.fits key.now found.pin.value) }
        ensures value { IfOk result.0 (λ found. found.pin.value ≡ kept.value) }
        ensures stored { IfOk result.0 (λ found. found.pin.stored ≡ Some charge) }
        ensures book { IfOk result.0
            (λ found. found.pin.book ≡ self.now.store.chronicle.first.book) }
        ensures never_stale { IfErr result.0 (λ e. e.0 ≢ Refusal.Stale) }
        ensures charged { IfOk result.0 (λ found. MatchOption evicted.entry
            (ChargesOver charge found.place state.old.seats state.new.seats result.1)
            (λ _. Charges charge found.place state.old.seats state.new.seats)) }
        ensures within { IfOk result.0
            (λ _. IsWithin is_strict state.new.capacity state.new.seats) }
        ensures left { IfSome evicted.entry (λ _. is_some result.1 ≡ true) }
        ensures refused { IfErr result.0
            (λ _. IfNone result.1 (AddsVacant state.old.seats state.new.seats)) }
        ensures marked { IfOk result.0
            (λ _. Marks K.eq key.now state.old.makings state.new.makings) }
        ensures unmade { IfOk result.0
            (λ _. list_any (is_of K.eq key.now) state.new.makings ≡ false) }
        ensures makings { IfErr result.0 (λ _. state.new.makings ≡ state.old.makings) }
    {
        let (stored, left) = match evicted {
            Some(evicted) => {
                let mut left = Some(evicted);
                let copy = Some(key_copy);
                let stored = self.put(
                    state, tag, key, charge, kept, copy, None, &mut left, is_strict,
                );
                (stored, left)
            }
            None => self.replace(state, tag, key, charge, kept, key_copy, is_strict),
        };
        if stored.is_ok() {
            state.makings.invalidate(key);
            state.counts.insertions = state.counts.insertions.wrapping_add(1);
        }
        (stored, left)
    }

    /// Stores an entry in place of the key's, and pins it. The key's entry leaves if nobody has
    /// pinned it, and is invalidated otherwise. Returns the entry that has left, if one has.
    ///
    /// Returns `Memory` and `Overflow` as `admit` does, and `Full` if the limit is strict and has
    /// no room for both entries, and somebody has pinned the key's or its charge is too little;
    /// with the entry that was refused. The key's entry has not changed then.
    pub fn replace(
        &self,
        state: &mut ShardState<K>,
        tag: u32,
        key: &K,
        charge: u64,
        kept: Kept<K, V, F>,
        key_copy: K,
        is_strict: bool,
    ) -> (
        Result<PinAt<'_, K, V, F>, (Refusal, Left<'_, K, V, F>)>,
        Option<Left<'_, K, V, F>>,
    )
        requires fits { F.fits kept.key kept.value }
        requires asked { F.fits key.now kept.value }
        requires equal { K.eq kept.key key.now ≡ true }
        requires copy { K.eq key_copy kept.key ≡ true }
        ensures pin { IfOk result.0
            (λ found. (found.pin.key ≡ key.now) × F.fits key.now found.pin.value) }
        ensures value { IfOk result.0 (λ found. found.pin.value ≡ kept.value) }
        ensures stored { IfOk result.0 (λ found. found.pin.stored ≡ Some charge) }
        ensures book { IfOk result.0
            (λ found. found.pin.book ≡ self.now.store.chronicle.first.book) }
        ensures never_stale { IfErr result.0 (λ e. e.0 ≢ Refusal.Stale) }
        ensures charged { IfOk result.0 (λ found.
            ChargesOver charge found.place state.old.seats state.new.seats result.1) }
        ensures within { IfOk result.0
            (λ _. IsWithin is_strict state.new.capacity state.new.seats) }
        ensures refused { IfErr result.0
            (λ _. IfNone result.1 (AddsVacant state.old.seats state.new.seats)) }
        ensures makings { state.new.makings ≡ state.old.makings }
    {
        let reservation = match self.reserve_seat(state, charge, tag, Some(key_copy)) {
            Ok(reservation) => reservation,
            Err((refusal, key_copy)) => {
                return (Err((refusal, Left::refused(kept, key_copy))), None);
            }
        };
        let old = match self.give_way(state, tag, key, is_strict) {
            Ok(old) => old,
            Err(refusal) => {
                let refused = Left::refused(kept, state.seats.cancel(reservation));
                return (Err((refusal, refused)), None);
            }
        };
        match self.fill_vacant(reservation, key, kept) {
            Ok(found) => {
                let left = self.settle_in(state, tag, key, found.place, old);
                (Ok(found), left)
            }
            // Never happens, as `fill` says. An entry that has given way stays away then.
            Err((reservation, kept)) => {
                let refused = Left::refused(kept, state.seats.cancel(reservation));
                (Err((Refusal::Overflow, refused)), old)
            }
        }
    }

    // Takes out the key's entry if the limit is strict and the total, which counts the new entry as
    // well, is above the capacity.
    //
    // Returns `Full` if somebody has pinned the key's entry, its charge is too little, or it has
    // none.
    fn give_way(
        &self,
        state: &mut ShardState<K>,
        tag: u32,
        key: &K,
        is_strict: bool,
    ) -> Result<Option<Left<'_, K, V, F>>, Refusal>
        ensures seats { MatchResult result (λ left. MatchOption left
            (state.new.seats ≡ state.old.seats)
            (λ _. VacatesListed state.old.seats state.new.seats))
            (λ e. (e ≡ Refusal.Full) × (state.new.seats ≡ state.old.seats)) }
        ensures within { IfOk result
            (λ _. IsWithin is_strict state.new.capacity state.new.seats) }
        ensures makings { state.new.makings ≡ state.old.makings }
    {
        let excess = state.seats.total().saturating_sub(state.capacity);
        if !is_strict || excess == 0 {
            return Ok(None);
        }
        let Some(place) = state.seats.find(tag, key) else {
            return Err(Refusal::Full);
        };
        if state.seats.charge_at(place) < excess {
            return Err(Refusal::Full);
        }
        match self.take_idle(state, place) {
            Some(old) => Ok(Some(old)),
            None => Err(Refusal::Full),
        }
    }

    // Stores an entry in its reserved place, and pins it.
    //
    // Returns the reservation and the entry as `fill` does.
    fn fill_vacant(
        &self,
        reservation: Reservation<K>,
        key: &K,
        kept: Kept<K, V, F>,
    ) -> Result<PinAt<'_, K, V, F>, (Reservation<K>, Kept<K, V, F>)>
        requires fits { F.fits kept.key kept.value }
        requires asked { F.fits key.now kept.value }
        requires equal { K.eq kept.key key.now ≡ true }
        requires copy { IfSome reservation.key.value (λ copy. K.eq copy kept.key ≡ true) }
        ensures place { MatchResult result (λ filled. filled.place ≡ reservation.place)
            (λ back. back.0.place ≡ reservation.place) }
        ensures pin { IfOk result
            (λ filled. (filled.pin.key ≡ key.now) × F.fits key.now filled.pin.value) }
        ensures value { IfOk result (λ filled. filled.pin.value ≡ kept.value) }
        ensures stored { IfOk result (λ filled. filled.pin.stored ≡ reservation.charge.value) }
        ensures book { IfOk result
            (λ filled. filled.pin.book ≡ self.now.store.chronicle.first.book) }
    {
        let mut left = None;
        let filled = self
            .store
            .fill(reservation, key, kept, None, false, &mut left);
        // Never `Some`: no entry was about to leave.
        if let Some(left) = left {
            drop(left.into_parts());
        }
        filled
    }

    // The entry at a place, which was just stored, takes the place of the key's in the index and
    // its own in the order. Unless the key's entry has already left, it does now if nobody has
    // pinned it, and is invalidated otherwise. Returns the entry that has left, if one has.
    fn settle_in<'a>(
        &'a self,
        state: &mut ShardState<K>,
        tag: u32,
        key: &K,
        place: u32,
        old: Option<Left<'a, K, V, F>>,
    ) -> Option<Left<'a, K, V, F>>
        requires unlisted { IfNone old (IsUnlisted state.old.seats place) }
        ensures charges { MatchOption old.entry
            (LeavesAnyOther place state.old.seats state.new.seats result)
            (λ _. KeepsCharges state.old.seats state.new.seats × (is_some result ≡ true)) }
        ensures capacity { state.new.capacity ≡ state.old.capacity }
        ensures makings { state.new.makings ≡ state.old.makings }
    {
        let left = match old {
            Some(old) => Some(old),
            None => self.invalidate_entry(state, tag, key),
        };
        self.list(state, place);
        state.come(place);
        left
    }

    /// Evicts the key's entry, whatever its chances, if nobody has pinned it.
    pub fn take_idle_of(
        &self,
        state: &mut ShardState<K>,
        tag: u32,
        key: &K,
    ) -> Option<Left<'_, K, V, F>>
        ensures seats { IfNone result (state.new ≡ state.old) }
        ensures makings { state.new.makings ≡ state.old.makings }
    {
        let place = state.seats.find(tag, key)?;
        self.take_idle(state, place)
    }
}
