//! The calls that look at a shard: hits, without the lock; and under the lock second looks, the
//! start of a making, and sums.
ghost use Rattle.std.specs.Prelude.{◌≡◌, ◌≢◌, ◌<◌, IfErr, IfOk, IfSome};
ghost use Rattle.lru_clock.specs.Hits.{Sees};
ghost use Rattle.lru_clock.specs.Turns.{IfHit};

use crate::history::past::Past;
use crate::shard::{Shard, Turn};
use crate::shard_state::{Counts, Numbers, ShardState};
use crate::store::{Hold, PinAt};
use concurrent_lru::fit::Fit;
use concurrent_lru::sharded::Refusal;
use std::hash::Hash;
use std::sync::{MutexGuard, Wait};

impl<K: Hash + Eq + Clone + Drop, V: Drop, F: Fit<K, V>> Shard<K, V, F> {
    /// Pins the key's entry, gives it another chance, and returns the pin with the entry's place. A
    /// miss looks once more under the lock.
    ///
    /// Returns `Overflow` if the entry has the maximum number of pins.
    #[inline(always)]
    pub fn pin<R: Wait>(
        &self,
        rt: &R,
        tag: u32,
        key: &K,
        past: &Option<Past<K, V>>,
    ) -> Result<Option<PinAt<'_, K, V, F>>, Refusal>
        requires book { IfSome past.now
            (λ past. past.book ≡ self.now.core.store.chronicle.first.book) }
        ensures pin { IfOk result (λ found. IfSome found
            (λ f. (f.pin.key ≡ key.now) × F.fits key.now f.pin.value)) }
        ensures book { IfOk result (λ found. IfSome found
            (λ f. f.pin.book ≡ self.now.core.store.chronicle.first.book)) }
        ensures since { IfSome past.now (λ past. IfOk result (λ found. IfSome found
            (λ f. Sees K.eq past key.now f.pin.value f.pin.book f.pin.log))) }
        ensures refused { IfErr result (λ e. e ≡ Refusal.Overflow) }
    {
        match self.find(tag, key, past)? {
            Some(found) => Ok(Some(found)),
            // Passes a copy, so that the compiler can tell in the first look whether there is a
            // past.
            None => self.find_locked(rt, tag, key, &Past::copied(past)),
        }
    }

    // `pin` without the lock. It may miss an entry while the index is being written.
    #[inline(always)]
    fn find(
        &self,
        tag: u32,
        key: &K,
        past: &Option<Past<K, V>>,
    ) -> Result<Option<PinAt<'_, K, V, F>>, Refusal>
        requires book { IfSome past.now
            (λ past. past.book ≡ self.now.core.store.chronicle.first.book) }
        ensures pin { IfOk result (λ found. IfSome found
            (λ f. (f.pin.key ≡ key.now) × F.fits key.now f.pin.value)) }
        ensures book { IfOk result (λ found. IfSome found
            (λ f. f.pin.book ≡ self.now.core.store.chronicle.first.book)) }
        ensures since { IfSome past.now (λ past. IfOk result (λ found. IfSome found
            (λ f. Sees K.eq past key.now f.pin.value f.pin.book f.pin.log))) }
        ensures refused { IfErr result (λ e. e ≡ Refusal.Overflow) }
    {
        let Some(index) = self.core.store.index() else {
            return Ok(None);
        };
        let mut probe = index.probe(tag);
        for _ in 0..u64::MAX {
            let Some(place) = index.next(&mut probe) else {
                return Ok(None);
            };
            if let Some(slot) = self.core.store.slot(place) {
                if let Some(pin) = slot.pin(key, self.core.most_pins, past)? {
                    return Ok(Some(PinAt { place, pin }));
                }
                // The pin under which another key's entry was compared may have kept that entry
                // from being evicted.
                self.settle_if_above();
            }
        }
        Ok(None)
    }

    // `find` under the lock, where it misses no entry.
    #[inline(never)]
    fn find_locked<R: Wait>(
        &self,
        rt: &R,
        tag: u32,
        key: &K,
        past: &Option<Past<K, V>>,
    ) -> Result<Option<PinAt<'_, K, V, F>>, Refusal>
        requires book { IfSome past.now
            (λ past. past.book ≡ self.now.core.store.chronicle.first.book) }
        ensures pin { IfOk result (λ found. IfSome found
            (λ f. (f.pin.key ≡ key.now) × F.fits key.now f.pin.value)) }
        ensures book { IfOk result (λ found. IfSome found
            (λ f. f.pin.book ≡ self.now.core.store.chronicle.first.book)) }
        ensures since { IfSome past.now (λ past. IfOk result (λ found. IfSome found
            (λ f. Sees K.eq past key.now f.pin.value f.pin.book f.pin.log))) }
        ensures refused { IfErr result (λ e. e ≡ Refusal.Overflow) }
    {
        let mut guard = self.lock(rt);
        let found = self.core.find_listed(&mut guard, tag, key, past);
        self.unlock(guard, None);
        found
    }

    /// Pins the key's entry without the lock, or else does what `begin` does.
    ///
    /// Returns `Overflow`, `Full` and `Memory` as `begin` does.
    #[inline(always)]
    pub fn enter<R: Wait>(
        &self,
        rt: &R,
        tag: u32,
        key: &K,
        charge: u64,
    ) -> Result<Turn<'_, K, V, F>, Refusal>
        ensures pin { IfOk result
            (λ turn. IfHit turn (λ p. (p.key ≡ key.now) × F.fits key.now p.value)) }
        ensures book { IfOk result
            (λ turn. IfHit turn (λ p. p.book ≡ self.now.core.store.chronicle.first.book)) }
        ensures never_stale { IfErr result (λ e. e ≢ Refusal.Stale) }
    {
        match self.find(tag, key, &None)? {
            Some(found) => Ok(Turn::Hit(found)),
            None => self.begin(rt, tag, key, charge),
        }
    }

    /// Pins the key's entry, or begins the making of its value. Waits while another caller makes
    /// it.
    ///
    /// Returns `Overflow` if the entry has the maximum number of pins, or if the charge would take
    /// the total past `u64::MAX`, `Full` if the limit is strict and has no room for the charge, and
    /// `Memory` if there is none to record the making.
    #[inline(never)]
    pub fn begin<R: Wait>(
        &self,
        rt: &R,
        tag: u32,
        key: &K,
        charge: u64,
    ) -> Result<Turn<'_, K, V, F>, Refusal>
        ensures pin { IfOk result
            (λ turn. IfHit turn (λ p. (p.key ≡ key.now) × F.fits key.now p.value)) }
        ensures book { IfOk result
            (λ turn. IfHit turn (λ p. p.book ≡ self.now.core.store.chronicle.first.book)) }
        ensures never_stale { IfErr result (λ e. e ≢ Refusal.Stale) }
    {
        let (guard, turn) = self.begin_locked(rt, tag, key, charge);
        self.unlock(guard, None);
        turn
    }

    // `begin`, which leaves it to the caller to release the lock.
    fn begin_locked<R: Wait>(
        &self,
        rt: &R,
        tag: u32,
        key: &K,
        charge: u64,
    ) -> (
        MutexGuard<'_, ShardState<K>>,
        Result<Turn<'_, K, V, F>, Refusal>,
    )
        ensures pin { IfOk result.1
            (λ turn. IfHit turn (λ p. (p.key ≡ key.now) × F.fits key.now p.value)) }
        ensures book { IfOk result.1
            (λ turn. IfHit turn (λ p. p.book ≡ self.now.core.store.chronicle.first.book)) }
        ensures never_stale { IfErr result.1 (λ e. e ≢ Refusal.Stale) }
    {
        let mut guard = self.lock(rt);
        let mut has_waited = false;
        for _ in rt.forever() {
            match self.take_turn(&mut guard, tag, key, charge) {
                Ok(Some(turn)) => return (guard, Ok(turn)),
                Ok(None) => {
                    // The end of any making wakes all callers, so a call may wait more than once.
                    if !has_waited {
                        guard.counts.waits = guard.counts.waits.wrapping_add(1);
                        has_waited = true;
                    }
                    guard = self.wait(rt, guard);
                }
                Err(refusal) => return (guard, Err(refusal)),
            }
        }
        unreachable!()
    }

    /// `enter`, but never waits: returns `None` if another caller is making the value.
    ///
    /// Returns `Overflow`, `Full` and `Memory` as `begin` does.
    pub fn try_enter<R: Wait>(
        &self,
        rt: &R,
        tag: u32,
        key: &K,
        charge: u64,
    ) -> Result<Option<Turn<'_, K, V, F>>, Refusal>
        ensures pin { IfOk result (λ found. IfSome found
            (λ turn. IfHit turn (λ p. (p.key ≡ key.now) × F.fits key.now p.value))) }
        ensures book { IfOk result (λ found. IfSome found
            (λ turn. IfHit turn (λ p. p.book ≡ self.now.core.store.chronicle.first.book))) }
        ensures never_stale { IfErr result (λ e. e ≢ Refusal.Stale) }
    {
        if let Some(found) = self.find(tag, key, &None)? {
            return Ok(Some(Turn::Hit(found)));
        }
        let mut guard = self.lock(rt);
        let turn = self.take_turn(&mut guard, tag, key, charge);
        self.unlock(guard, None);
        turn
    }

    // Pins the key's entry, or begins the making of its value. Returns `None` if another caller is
    // making it.
    //
    // Returns `Overflow`, `Full` and `Memory` as `begin` does.
    fn take_turn(
        &self,
        state: &mut ShardState<K>,
        tag: u32,
        key: &K,
        charge: u64,
    ) -> Result<Option<Turn<'_, K, V, F>>, Refusal>
        ensures pin { IfOk result (λ found. IfSome found
            (λ turn. IfHit turn (λ p. (p.key ≡ key.now) × F.fits key.now p.value))) }
        ensures book { IfOk result (λ found. IfSome found
            (λ turn. IfHit turn (λ p. p.book ≡ self.now.core.store.chronicle.first.book))) }
        ensures never_stale { IfErr result (λ e. e ≢ Refusal.Stale) }
    {
        if let Some(found) = self.core.find_listed(state, tag, key, &None)? {
            return Ok(Some(Turn::Hit(found)));
        }
        match self.core.start(state, key, charge)? {
            Some(ticket) => Ok(Some(Turn::Make(ticket))),
            None => Ok(None),
        }
    }

    // Waits until a making ends or is invalidated.
    fn wait<'a, R: Wait>(
        &'a self,
        rt: &R,
        guard: MutexGuard<'a, ShardState<K>>,
    ) -> MutexGuard<'a, ShardState<K>> {
        let mut guard = guard;
        guard.makings.add_waiting();
        let mut guard = self.made.wait(rt, guard);
        guard.makings.remove_waiting();
        guard
    }

    /// Holds the entry of a hold once more.
    ///
    /// Returns `Overflow` if the entry has the maximum number of holds.
    pub fn hold_again(&self, hold: &Hold<K, V, F>) -> Result<Hold<K, V, F>, Refusal>
        requires book { hold.now.book ≡ self.now.core.store.chronicle.first.book }
        ensures hold { IfOk result (λ h. h ≡ hold.now) }
        ensures refused { IfErr result (λ e. e ≡ Refusal.Overflow) }
    {
        self.core.store.hold_again(hold, self.core.most_pins)
    }

    /// Returns whether the key has an entry.
    pub fn contains<R: Wait>(&self, rt: &R, tag: u32, key: &K) -> bool {
        let mut guard = self.lock(rt);
        let place = guard.seats.find(tag, key);
        self.unlock(guard, None);
        place.is_some()
    }

    /// Returns whether the capacity is a strict limit.
    pub fn is_limit_strict<R: Wait>(&self, rt: &R) -> bool {
        let guard = self.lock(rt);
        let is_strict = guard.is_strict;
        self.unlock(guard, None);
        is_strict
    }

    /// Returns the numbers of the shard.
    pub fn numbers<R: Wait>(&self, rt: &R) -> Numbers {
        let guard = self.lock(rt);
        let numbers = guard.numbers();
        self.unlock(guard, None);
        numbers
    }

    /// Returns the sum of the charges of the entries that somebody has pinned.
    pub fn pinned_charge<R: Wait>(&self, rt: &R) -> u64 {
        let guard = self.lock(rt);
        let pinned = self.core.pinned_charge(&guard);
        self.unlock(guard, None);
        pinned
    }

    /// Calls `f` with each entry that its key finds.
    pub fn for_each<R: Wait, G>(&self, rt: &R, f: &mut G)
    where
        G: FnMut(&K, &V, u64, u32),
        requires callable { (state : G) (k : _) (v : _) (charge pins : _)
            → F.fits k.now v.now → G.pre state k v charge pins }
    {
        let guard = self.lock(rt);
        self.core.for_each(&guard, f);
        self.unlock(guard, None);
        // The pins under which `f` looked at entries may have kept them from being evicted.
        self.settle_if_above();
    }

    /// Resets the counts, and returns what they were.
    pub fn reset_counts<R: Wait>(&self, rt: &R) -> Counts {
        let mut guard = self.lock(rt);
        let counts = guard.counts;
        guard.counts = Counts::default();
        self.unlock(guard, None);
        counts
    }
}
