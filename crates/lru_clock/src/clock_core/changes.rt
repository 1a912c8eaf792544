//! The changes of a shard: entries that come, and entries that leave other than by eviction.
ghost use Rattle.std.specs.Prelude.{◌≡◌, ◌≢◌, ◌+◌, ◌<◌, ◌^◌, false, true, None, Some};
ghost use Rattle.std.specs.Prelude.{IfErr, IfOk, IfSome, MatchOption, MatchResult, is_some, sum_by};
ghost use Rattle.std.proofs.Math.ListN.{set};
ghost use Rattle.lru_clock.specs.Evictions.{Comes, refuses, IsWithin};
ghost use Rattle.lru_clock.specs.Hits.{ComesLast};
ghost use Rattle.lru_clock.specs.Orders.{IsWidened};
ghost use Rattle.lru_clock.specs.SeatChanges.{AddsVacant, Charges, KeepsCharges, Reserves};
ghost use Rattle.lru_clock.specs.SeatChanges.{VacatesIfListed};
ghost use Rattle.lru_clock.specs.Seats.{seat, LacksKey};

use crate::clock_core::Core;
use crate::shard_state::ShardState;
use crate::store::{Kept, Left, MOST_SLOTS, PinAt, Reservation};
use concurrent_lru::fit::Fit;
use concurrent_lru::sharded::Refusal;
use std::marker::PhantomData;

impl<K: Eq + Clone + Drop, V: Drop, F: Fit<K, V>> Core<K, V, F> {
    /// Returns a new entry, with a copy of the key.
    ///
    /// Returns `Memory` if the copy is refused.
    pub fn new_entry(&self, key: &K, value: V) -> Result<Kept<K, V, F>, Refusal>
        requires fits { F.fits key.now value }
        ensures fits { IfOk result (λ kept. F.fits kept.key kept.value) }
        ensures equal { IfOk result (λ kept. K.eq kept.key key.now ≡ true) }
        ensures value { IfOk result (λ kept. kept.value ≡ value) }
        ensures err { IfErr result (λ e. e ≡ Refusal.Memory) }
    {
        Ok(Kept {
            key: key.clone()?,
            value,
            mark: PhantomData,
        })
    }

    /// Checks that an entry of this charge can be stored: that the sum of the charges stays within
    /// a `u64`, and that there is a vacant place, which is added if there is none.
    ///
    /// Returns `Overflow` if the sum does not, and `Memory` and `Overflow` as `Store::grow` does.
    #[tactic(auto, using(crate::proofs::Seating::Vacant::nothing_added))]
    pub fn admit(&self, state: &mut ShardState<K>, charge: u64) -> Result<(), Refusal>
        ensures never_stale { IfErr result (λ e. e ≢ Refusal.Stale) }
        ensures fits { IfOk result (λ _. sum_by (λ seat. seat.charge) state.old.seats + charge
            < 2 ^ 64) }
        ensures order { IsWidened state.old.order state.new.order }
        ensures capacity { state.new.capacity ≡ state.old.capacity }
        ensures total { sum_by (λ seat. seat.charge) state.new.seats
            ≡ sum_by (λ seat. seat.charge) state.old.seats }
        ensures seats { AddsVacant state.old.seats state.new.seats }
        ensures makings { state.new.makings ≡ state.old.makings }
    {
        if state.seats.total().checked_add(charge).is_none() {
            return Err(Refusal::Overflow);
        }
        if state.seats.has_vacant() {
            return Ok(());
        }
        self.store
            .grow(self.alloc, &mut state.seats, &mut state.order)
    }

    /// Stores an entry in a vacant place, and pins it. It has no chance yet. An entry without a
    /// copy of its key is already invalidated, and only this caller gets it. If the place is that
    /// of the entry that has just left, the new entry takes its slot. The ticket is that of the
    /// making of the value, or `None` if the making begins with this call.
    ///
    /// Returns `Memory` and `Overflow` as `admit` does, and `Full` if the limit is strict and the
    /// charge would take the total above the capacity, each with the entry that was refused.
    #[inline(always)]
    pub fn put<'a>(
        &'a self,
        state: &mut ShardState<K>,
        tag: u32,
        key: &K,
        charge: u64,
        kept: Kept<K, V, F>,
        key_copy: Option<K>,
        ticket: Option<u64>,
        left: &mut Option<Left<'a, K, V, F>>,
        is_strict: bool,
    ) -> Result<PinAt<'a, K, V, F>, (Refusal, Left<'a, K, V, F>)>
        requires fits { F.fits kept.key kept.value }
        requires asked { F.fits key.now kept.value }
        requires equal { K.eq kept.key key.now ≡ true }
        requires copy { IfSome key_copy (λ copy. K.eq copy kept.key ≡ true) }
        requires book { IfSome left.old
            (λ l. IfSome l (λ b. b ≡ self.now.store.chronicle.first.book)) }
        ensures pin { IfOk result
            (λ found. (found.pin.key ≡ key.now) × F.fits key.now found.pin.value) }
        ensures value { IfOk result (λ found. found.pin.value ≡ kept.value) }
        ensures stored { IfOk result (λ found. found.pin.stored ≡ Some charge) }
        ensures ticket { IfSome ticket (λ t. IfOk result
            (λ found. ComesLast t found.pin.value found.pin.log)) }
        ensures book { IfOk result
            (λ found. found.pin.book ≡ self.now.store.chronicle.first.book) }
        ensures never_stale { IfErr result (λ e. e.0 ≢ Refusal.Stale) }
        ensures room { IfOk result
            (λ _. refuses is_strict state.old.capacity state.old.seats charge ≡ false) }
        ensures within { IfOk result
            (λ _. IsWithin is_strict state.new.capacity state.new.seats) }
        ensures order { MatchResult result
            (λ found. Comes state.new.seats found.place state.old.capacity
            state.old.order state.new.order)
            (λ _. IsWidened state.old.order state.new.order) }
        ensures charged { MatchResult result
            (λ found. Charges charge found.place state.old.seats state.new.seats)
            (λ _. sum_by (λ seat. seat.charge) state.new.seats
            ≡ sum_by (λ seat. seat.charge) state.old.seats) }
        ensures refused { IfErr result (λ _. AddsVacant state.old.seats state.new.seats) }
        ensures left { is_some left.new ≡ is_some left.old }
        ensures makings { state.new.makings ≡ state.old.makings }
    {
        if state.refuses(charge, is_strict) {
            return Err((Refusal::Full, Left::refused(kept, key_copy)));
        }
        let is_listed = key_copy.is_some();
        let reservation = match self.reserve_seat(state, charge, tag, key_copy) {
            Ok(reservation) => reservation,
            Err((refusal, key_copy)) => return Err((refusal, Left::refused(kept, key_copy))),
        };
        match self
            .store
            .fill(reservation, key, kept, ticket, !is_listed, left)
        {
            Ok(found) => {
                self.list(state, found.place);
                state.come(found.place);
                Ok(found)
            }
            Err((reservation, kept)) => {
                let refused = Left::refused(kept, state.seats.cancel(reservation));
                Err((Refusal::Overflow, refused))
            }
        }
    }

    // Adds an entry to the index. If the index has another entry of its key, or the entry has no
    // copy of its key, invalidates it.
    pub(crate) fn list(&self, state: &mut ShardState<K>, place: u32)
        ensures same { state.new ≡ record state.old { seats = state.new.seats } }
        ensures charges { KeepsCharges state.old.seats state.new.seats }
    {
        if !state.seats.list(place) {
            if let Some(slot) = self.store.slot(place) {
                slot.mark();
            }
        }
    }

    // Takes a vacant place for an entry, and counts its charge.
    //
    // Returns the copy of its key with the refusal if the entry cannot be stored.
    pub(crate) fn reserve_seat(
        &self,
        state: &mut ShardState<K>,
        charge: u64,
        tag: u32,
        key_copy: Option<K>,
    ) -> Result<Reservation<K>, (Refusal, Option<K>)>
        ensures done { IfOk result (λ r. r.key.value ≡ key_copy) }
        ensures charge { IfOk result (λ r. r.charge.value ≡ Some charge) }
        ensures refused { IfErr result (λ e. e.0 ≢ Refusal.Stale) }
        ensures order { IsWidened state.old.order state.new.order }
        ensures capacity { state.new.capacity ≡ state.old.capacity }
        ensures fits { IfOk result
            (λ _. sum_by (λ seat. seat.charge) state.new.seats < 2 ^ 64) }
        ensures charged { MatchResult result
            (λ r. Charges charge r.place state.old.seats state.new.seats)
            (λ _. sum_by (λ seat. seat.charge) state.new.seats
            ≡ sum_by (λ seat. seat.charge) state.old.seats) }
        ensures seats { MatchResult result
            (λ r. Reserves state.old.seats r.place state.new.seats)
            (λ _. AddsVacant state.old.seats state.new.seats) }
        ensures makings { state.new.makings ≡ state.old.makings }
    {
        if let Err(refusal) = self.admit(state, charge) {
            return Err((refusal, key_copy));
        }
        match state.seats.reserve(charge, tag, key_copy) {
            Ok(reservation) => Ok(reservation),
            Err(key_copy) => Err((Refusal::Overflow, key_copy)),
        }
    }

    /// Invalidates the key's entry, and removes it if nobody has pinned it. The index then has no
    /// entry for the key.
    pub fn invalidate_entry(
        &self,
        state: &mut ShardState<K>,
        tag: u32,
        key: &K,
    ) -> Option<Left<'_, K, V, F>>
        ensures book { IfSome result (λ l. l ≡ Some self.now.store.chronicle.first.book) }
        ensures gone { LacksKey K.eq state.new.seats tag key.now }
        ensures left { VacatesIfListed state.old.seats state.new.seats result }
        ensures capacity { state.new.capacity ≡ state.old.capacity }
        ensures makings { state.new.makings ≡ state.old.makings }
    {
        let place = state.seats.find(tag, key)?;
        state.seats.unlist(place);
        self.store.slot(place)?.mark();
        let taken = self.store.take_invalidated(place)?;
        Some(state.vacate(taken, false))
    }

    /// Invalidates the entry at a place, if there is one, and removes it if nobody has pinned it.
    pub fn invalidate_place(
        &self,
        state: &mut ShardState<K>,
        place: u32,
    ) -> Option<Left<'_, K, V, F>>
        ensures book { IfSome result (λ l. l ≡ Some self.now.store.chronicle.first.book) }
        ensures capacity { state.new.capacity ≡ state.old.capacity }
        ensures makings { state.new.makings ≡ state.old.makings }
    {
        state.seats.unlist(place);
        self.store.slot(place)?.mark();
        let taken = self.store.take_invalidated(place)?;
        Some(state.vacate(taken, false))
    }

    /// Does what `invalidate_place` does, if the entry's key finds it and `keep` returns `false`
    /// for its key, its value and its charge.
    pub fn retain_place<G>(
        &self,
        state: &mut ShardState<K>,
        place: u32,
        keep: &mut G,
    ) -> Option<Left<'_, K, V, F>>
    where
        G: FnMut(&K, &V, u64) -> bool,
        requires callable { (f : G) (k : _) (v : _) (charge : _)
            → F.fits k.now v.now → G.pre f k v charge }
        ensures book { IfSome result (λ l. l ≡ Some self.now.store.chronicle.first.book) }
        ensures capacity { state.new.capacity ≡ state.old.capacity }
        ensures makings { state.new.makings ≡ state.old.makings }
    {
        let charge = state.seats.charge_at(place);
        let mut judge = |key: &K, value: &V, charge: u64, _: u32| -> bool
            requires { G.pre keep.now key value charge }
        { keep(key, value, charge) };
        let is_kept = self
            .store
            .slot(place)?
            .visit(self.most_pins, charge, &mut judge)?;
        if is_kept {
            return None;
        }
        self.invalidate_place(state, place)
    }

    /// Evicts the entry at a place if nobody has pinned it.
    pub fn take_idle(&self, state: &mut ShardState<K>, place: u32) -> Option<Left<'_, K, V, F>>
        ensures seats { MatchOption result (state.new ≡ state.old)
            (λ _. state.new.seats ≡ set state.old.seats place (seat 0 0 None)) }
        ensures capacity { state.new.capacity ≡ state.old.capacity }
        ensures makings { state.new.makings ≡ state.old.makings }
    {
        let taken = self.store.take_idle(place)?;
        Some(state.vacate(taken, false))
    }

    /// Evicts the first entry that nobody has pinned, from the place `next` on, and sets `next` to
    /// its place.
    pub fn take_next_idle(
        &self,
        state: &mut ShardState<K>,
        next: &mut u32,
    ) -> Option<Left<'_, K, V, F>>
        ensures { MatchOption result ((state.new ≡ state.old) × (next.new ≡ next.old))
            (λ _. state.new.seats ≡ set state.old.seats next.new (seat 0 0 None)) }
    {
        for place in *next..state.seats.places() {
            if let Some(leaver) = self.take_idle(state, place) {
                *next = place;
                return Some(leaver);
            }
        }
        None
    }

    /// Adds slots until there are as many as `entries`.
    ///
    /// Returns `Overflow` if that is above the maximum number of slots; then nothing changes.
    /// Returns `Memory` as `Store::grow` does. No entry changes.
    pub fn grow_to(&self, state: &mut ShardState<K>, entries: usize) -> Result<(), Refusal>
        ensures never_stale { IfErr result (λ e. e ≢ Refusal.Stale) }
        ensures same { state.new ≡ record state.old {
          seats = state.new.seats;
          order = state.new.order;
        } }
        ensures seats { AddsVacant state.old.seats state.new.seats }
    {
        if entries > MOST_SLOTS {
            return Err(Refusal::Overflow);
        }
        for _ in state.seats.len()..entries {
            self.store
                .grow(self.alloc, &mut state.seats, &mut state.order)?;
        }
        Ok(())
    }

    /// Removes the entry at a place if it was invalidated and nobody has pinned it.
    pub fn take_invalidated(
        &self,
        state: &mut ShardState<K>,
        place: u32,
    ) -> Option<Left<'_, K, V, F>>
        ensures { MatchOption result (state.new ≡ state.old)
            (λ _. state.new.seats ≡ set state.old.seats place (seat 0 0 None)) }
    {
        let taken = self.store.take_invalidated(place)?;
        Some(state.vacate(taken, false))
    }
}
