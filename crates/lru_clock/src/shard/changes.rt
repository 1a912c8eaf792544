//! The calls that change a shard. Each takes the lock once for each entry that it removes, and at
//! most once more.
ghost use Rattle.std.specs.Prelude.{◌≡◌, ◌≢◌, ◌<◌, true, IfErr, IfOk, IfSome};
ghost use mathlib.Core.List.{IsPrefix};
ghost use Rattle.lru_clock.specs.Hits.{ComesLast};

use crate::clock_core::{Invalidated, Way};
use crate::history::past::Past;
use crate::makings::{Ended, Ticket};
use crate::shard::Shard;
use crate::store::{Hold, Looks, PinAt, Released};
use concurrent_lru::fit::Fit;
use concurrent_lru::sharded::Refusal;
use std::hash::Hash;
use std::sync::Wait;

// Returns the key of the making that ended for the index, unless the making was invalidated: then
// the key is only to be dropped. That key equals the entry's, but only this comparison proves it.
fn checked_key<K: Eq>(making: Ended<K>, key: &K) -> (Option<K>, Option<K>)
    ensures { IfSome result.0 (λ made. K.eq made key.now ≡ true) }
{
    match making {
        Ended::Current(made) => {
            if made == *key {
                (Some(made), None)
            } else {
                (None, Some(made))
            }
        }
        Ended::Invalidated(made) => (None, Some(made)),
        Ended::Unknown => (None, None),
    }
}

impl<K: Hash + Eq + Clone + Drop, V: Drop, F: Fit<K, V>> Shard<K, V, F> {
    /// Stores the value that was made under a ticket, ends the making, and returns a pin of the
    /// entry. If the key was invalidated meanwhile, the value is stored for this caller alone.
    ///
    /// Returns `Memory`, `Overflow` and `Full` if the entry is refused; the making then counts as
    /// failed.
    #[inline(never)]
    pub fn finish<R: Wait>(
        &self,
        rt: &R,
        tag: u32,
        key: &K,
        charge: u64,
        value: V,
        ticket: Ticket<K, V>,
    ) -> Result<PinAt<'_, K, V, F>, Refusal>
        requires fits { F.fits key.now value }
        ensures pin { IfOk result
            (λ found. (found.pin.key ≡ key.now) × F.fits key.now found.pin.value) }
        ensures value { IfOk result (λ found. found.pin.value ≡ value) }
        ensures stored { IfOk result (λ found. found.pin.stored ≡ Some charge) }
        ensures ticket { IfOk result
            (λ found. ComesLast ticket.number found.pin.value found.pin.log) }
        ensures book { IfOk result
            (λ found. found.pin.book ≡ self.now.core.store.chronicle.first.book) }
        ensures never_stale { IfErr result (λ e. e ≢ Refusal.Stale) }
    {
        let kept = match self.core.new_entry(key, value) {
            Ok(kept) => kept,
            Err(refusal) => {
                self.fail(rt, ticket);
                return Err(refusal);
            }
        };
        let (mut guard, mut left) = self.lock_with_room(rt, charge);
        let is_strict = guard.is_strict;
        let number = ticket.number();
        let making = guard.makings.end(ticket);
        let (key_copy, unlisted) = checked_key(making, &kept.key);
        let stored = self.core.put(
            &mut guard,
            tag,
            key,
            charge,
            kept,
            key_copy,
            Some(number),
            &mut left,
            is_strict,
        );
        if stored.is_ok() {
            guard.counts.makings = guard.counts.makings.wrapping_add(1);
        } else {
            guard.counts.failures = guard.counts.failures.wrapping_add(1);
        }
        self.wake(&guard);
        self.unlock(guard, left);
        drop(unlisted);
        match stored {
            Ok(found) => Ok(found),
            Err((refusal, refused)) => {
                refused.open(());
                Err(refusal)
            }
        }
    }

    /// Ends a making that failed.
    pub fn fail<R: Wait>(&self, rt: &R, ticket: Ticket<K, V>) {
        let mut guard = self.lock(rt);
        let making = guard.makings.end(ticket);
        guard.counts.failures = guard.counts.failures.wrapping_add(1);
        self.wake(&guard);
        self.unlock(guard, None);
        drop(making);
    }

    /// Stores a value, replacing the key's entry, and returns a pin of the new entry.
    ///
    /// Returns `Memory`, `Overflow` and `Full` if the new entry is refused. The key's entry then
    /// stays as it was, unless it was evicted to make room, as any other entry may be.
    pub fn insert<R: Wait>(
        &self,
        rt: &R,
        tag: u32,
        key: &K,
        charge: u64,
        value: V,
    ) -> Result<PinAt<'_, K, V, F>, Refusal>
        requires fits { F.fits key.now value }
        ensures pin { IfOk result
            (λ found. (found.pin.key ≡ key.now) × F.fits key.now found.pin.value) }
        ensures value { IfOk result (λ found. found.pin.value ≡ value) }
        ensures stored { IfOk result (λ found. found.pin.stored ≡ Some charge) }
        ensures book { IfOk result
            (λ found. found.pin.book ≡ self.now.core.store.chronicle.first.book) }
        ensures never_stale { IfErr result (λ e. e ≢ Refusal.Stale) }
    {
        let kept = self.core.new_entry(key, value)?;
        let key_copy = kept.key.clone()?;
        for _ in rt.forever() {
            let mut guard = self.lock(rt);
            let is_strict = guard.is_strict;
            let evicted = match self.core.make_way(&mut guard, tag, key, charge, is_strict) {
                Ok(Way::Clear(evicted)) => evicted,
                Ok(Way::Blocked(left)) => {
                    self.unlock(guard, Some(left));
                    continue;
                }
                Err(refusal) => {
                    self.unlock(guard, None);
                    return Err(refusal);
                }
            };
            let (stored, left) = self.core.store_over(
                &mut guard, tag, key, charge, kept, key_copy, evicted, is_strict,
            );
            self.wake(&guard);
            self.unlock(guard, left);
            return match stored {
                Ok(found) => Ok(found),
                Err((refusal, refused)) => {
                    refused.open(());
                    Err(refusal)
                }
            };
        }
        unreachable!()
    }

    /// Invalidates the key's entry, and the making of its value. Returns the evidence, which only
    /// `Core::invalidate` creates.
    pub fn invalidate<R: Wait>(&self, rt: &R, tag: u32, key: &K) -> Invalidated<K, V>
        ensures key { (result.key ≡ key.now) × (result.tag ≡ tag) }
        ensures book { result.book ≡ self.now.core.store.chronicle.first.book }
    {
        let mut guard = self.lock(rt);
        let (left, invalidated) = self.core.invalidate(&mut guard, tag, key);
        self.wake(&guard);
        self.unlock(guard, left);
        invalidated
    }

    /// `invalidate`, which moves `past.since` to this call: only makings that begin later begin
    /// after it.
    pub fn invalidate_since<R: Wait>(
        &self,
        rt: &R,
        tag: u32,
        key: &K,
        past: &mut Past<K, V>,
    ) -> Invalidated<K, V>
        requires book { past.old.book ≡ self.now.core.store.chronicle.first.book }
        ensures key { (result.key ≡ key.now) × (result.tag ≡ tag) }
        ensures book { (result.book ≡ past.old.book) × (past.new.book ≡ past.old.book) }
        ensures later { IsPrefix past.old.seen past.new.since }
        ensures since { result.since ≡ past.new.since }
    {
        let mut guard = self.lock(rt);
        let (left, invalidated) = self.core.invalidate_since(&mut guard, tag, key, past);
        self.wake(&guard);
        self.unlock(guard, left);
        invalidated
    }

    /// Invalidates every key that has a making or an entry. Those that come meanwhile may stay.
    pub fn clear<R: Wait>(&self, rt: &R) {
        let mut guard = self.lock(rt);
        // A making that ends before this has an entry, at one of the places that follow.
        guard.makings.invalidate_all();
        let places = guard.seats.places();
        self.wake(&guard);
        self.unlock(guard, None);
        for place in 0..places {
            let mut guard = self.lock(rt);
            let left = self.core.invalidate_place(&mut guard, place);
            self.unlock(guard, left);
        }
    }

    /// Invalidates each entry that its key finds and for which `keep` returns `false`.
    pub fn retain<R: Wait, G>(&self, rt: &R, keep: &mut G)
    where
        G: FnMut(&K, &V, u64) -> bool,
        requires callable { (f : G) (k : _) (v : _) (charge : _)
            → F.fits k.now v.now → G.pre f k v charge }
    {
        let guard = self.lock(rt);
        let places = guard.seats.places();
        self.unlock(guard, None);
        for place in 0..places {
            let mut guard = self.lock(rt);
            let left = self.core.retain_place(&mut guard, place, keep);
            self.unlock(guard, left);
        }
        // The pins under which `keep` looked at entries may have kept them from being evicted.
        self.settle_if_above();
    }

    /// Evicts the key's entry, whatever its chances, if nobody has pinned it.
    pub fn advise<R: Wait>(&self, rt: &R, tag: u32, key: &K) {
        let mut guard = self.lock(rt);
        let left = self.core.take_idle_of(&mut guard, tag, key);
        self.unlock(guard, left);
    }

    /// Evicts every entry that nobody has pinned, whatever its chances.
    pub fn prune<R: Wait>(&self, rt: &R) {
        let mut next = 0;
        for _ in rt.forever() {
            let mut guard = self.lock(rt);
            let left = self.core.take_next_idle(&mut guard, &mut next);
            let is_done = left.is_none();
            self.unlock(guard, left);
            if is_done {
                return;
            }
        }
        unreachable!()
    }

    /// Sets the capacity, and evicts down to it.
    pub fn set_capacity<R: Wait>(&self, rt: &R, capacity: u64) {
        let mut guard = self.lock(rt);
        guard.set_capacity(capacity);
        self.unlock(guard, None);
        self.evict_excess(rt);
    }

    // Evicts down to the capacity.
    fn evict_excess<R: Wait>(&self, rt: &R) {
        for _ in rt.forever() {
            let mut guard = self.lock(rt);
            let left = self.core.make_room(&mut guard, 0, &mut Looks::new());
            let is_done = left.is_none() || !guard.is_above(0);
            self.unlock(guard, left);
            if is_done {
                return;
            }
        }
        unreachable!()
    }

    /// Sets whether the capacity is a strict limit. Evicts nothing.
    pub fn set_strict_limit<R: Wait>(&self, rt: &R, strict: bool) {
        let mut guard = self.lock(rt);
        guard.is_strict = strict;
        self.unlock(guard, None);
    }

    /// Adds slots until there are as many as `entries`.
    ///
    /// Returns `Memory` and `Overflow` as `Core::grow_to` does. No entry changes.
    pub fn reserve<R: Wait>(&self, rt: &R, entries: usize) -> Result<(), Refusal>
        ensures { IfErr result (λ e. e ≢ Refusal.Stale) }
    {
        let mut guard = self.lock(rt);
        let grown = self.core.grow_to(&mut guard, entries);
        self.unlock(guard, None);
        grown
    }

    /// Ends a hold. Then does what the drop of a handle does.
    pub fn end_hold<R: Wait>(&self, rt: &R, hold: Hold<K, V, F>)
        requires book { hold.book ≡ self.now.core.store.chronicle.first.book }
    {
        let place = hold.place();
        match self.core.store.end_hold(hold) {
            Some(Released::Idle) => self.settle_if_above(),
            Some(Released::Invalidated) => self.take_invalidated(rt, place),
            Some(Released::Pinned) | None => {}
        }
    }

    /// Removes an invalidated entry whose last pin was released.
    #[inline(never)]
    pub fn take_invalidated<R: Wait>(&self, rt: &R, place: u32) {
        let mut guard = self.lock(rt);
        let left = self.core.take_invalidated(&mut guard, place);
        self.unlock(guard, left);
    }
}
