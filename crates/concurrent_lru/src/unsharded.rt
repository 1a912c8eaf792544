//! A cache behind one lock, for any number of threads.
//!
//! Values are made and dropped without the lock, and read by `read` under it. Callers that ask for
//! a value that is being made wait for it.
ghost use Rattle.std.specs.Prelude.{◌≡◌, ◌≢◌, ℕ, ◌+◌, ◌<◌, ◌≤◌, Some, None, Ok, Err, IfOk, IfErr, IfSome};
ghost use Rattle.std.specs.Fn.{FnOnceReturnsAt, FnOnceTakesAt};
ghost use Rattle.concurrent_lru.specs.Cache.{CopiesAreEqual};
ghost use Rattle.concurrent_lru.specs.Counts.{charge_in, entries_in};
ghost use Rattle.concurrent_lru.specs.ThreadedCalls.{IfInit};
ghost use Rattle.concurrent_lru.specs.Visits.{CanJudge, CanVisit, VisitsEach};

use crate::as_key::AsKey;
pub use crate::counts::Counts;
use crate::door::{Door, Lookup};
pub use crate::fit::{Anything, Fit};
pub use crate::get_error::GetError;
pub use crate::handle::CacheHandle;
use crate::locked::HeldPin;
pub use crate::lru_core::Refusal;
use crate::lru_core::{Place, Spot};
pub use crate::maker::{Begun, Maker};
pub use crate::owned::OwnedHandle;
use std::alloc::Global;
use std::fmt;
use std::hash::Hash;
use std::sync::Wait;

/// A cache that threads share. `R` is the right to wait, passed in at creation; `F` is its mark,
/// which relates its values to their keys.
///
/// Whenever its lock is acquired, the cache is lawful, its total is the sum of its charges and is
/// above the capacity only if nothing is idle, and the value of every ready entry fits its key.
#[derive(Drop)]
pub struct LruCache<K: Hash + Eq + Clone, V, R: Wait, F: Fit<K, V> = Anything> {
    pub(crate) door: Door<K, V, R, F>,
}

impl<K: Hash + Eq + Clone + Drop, V: Drop, R: Wait> LruCache<K, V, R, Anything> {
    /// Creates an empty cache. It keeps idle entries while the sum of all charges is at most
    /// `capacity`. Takes no memory.
    ///
    /// It hashes keys with the seed 0: where keys come from outside, use `with_seed`.
    pub fn new(alloc: Global, rt: R, capacity: u64) -> Self
        requires copies { CopiesAreEqual K.is_clone K.eq }
    {
        LruCache::marked(alloc, rt, capacity)
    }

    /// Creates an empty cache as `new` does, which hashes keys with a seed. Takes no memory.
    ///
    /// Whoever knows the seed can choose keys that have one hash, so that each lookup of one visits
    /// them all, under the lock. Where keys come from outside, take a random seed for each cache,
    /// as a [`RandomState`](std::hash::RandomState) gives one:
    /// `RandomState::new(&rt)?.hash_one(&0)`. No answer depends on the seed.
    pub fn with_seed(alloc: Global, rt: R, capacity: u64, seed: u64) -> Self
        requires copies { CopiesAreEqual K.is_clone K.eq }
    {
        LruCache::marked_with_seed(alloc, rt, capacity, seed)
    }
}

impl<K: Hash + Eq + Clone + Drop, V: Drop, R: Wait, F: Fit<K, V>> LruCache<K, V, R, F> {
    /// Creates an empty cache with the mark `F`, otherwise as `new` does. Takes no memory.
    pub fn marked(alloc: Global, rt: R, capacity: u64) -> Self
        requires copies { CopiesAreEqual K.is_clone K.eq }
    {
        LruCache::marked_with_seed(alloc, rt, capacity, 0)
    }

    /// Creates an empty cache with the mark `F`, otherwise as `with_seed` does. Takes no memory.
    pub fn marked_with_seed(alloc: Global, rt: R, capacity: u64, seed: u64) -> Self
        requires copies { CopiesAreEqual K.is_clone K.eq }
    {
        LruCache {
            door: Door::new(alloc, rt, capacity, seed),
        }
    }

    /// Reserves room for a total of `entries` entries, including those present, as `State::reserve`
    /// does. Reserve ahead if calls should not grow the tables under the lock. A new entry still
    /// allocates its node and its value.
    ///
    /// Returns `Memory` if the allocator refuses. No entry changes in either case, though some room
    /// may have been reserved.
    pub fn reserve(&self, entries: usize) -> Result<(), Refusal>
        ensures { IfErr result (λ e. e ≡ Refusal.Memory) }
    {
        let mut guard = self.door.lock();
        guard.reserve(entries)
    }

    /// Returns a handle of the key's value if it is ready, and `None` if the key has no entry or
    /// its value is still being made. Never waits for a maker. `find` takes the key by reference.
    ///
    /// Returns `Overflow` if the entry has the maximum number of pins, and `Memory` if the copy of
    /// the value is refused.
    #[inline(always)]
    pub fn get(&self, key: K) -> Result<Option<CacheHandle<'_, K, V, R, F>>, Refusal>
        ensures key { IfOk result (λ found. IfSome found (λ h. h.key ≡ key)) }
        ensures charge { IfOk result (λ found. IfSome found (λ h. h.charge ≡ None)) }
        ensures fits { IfOk result (λ found. IfSome found (λ h. F.fits key h.value)) }
        ensures never_stale { IfErr result (λ e. e ≢ Refusal.Stale) }
    {
        self.find(&key)
    }

    /// `get` with the key by reference, or by what stands for it ([`AsKey`]): a cache whose
    /// keys are `String`s is asked by a `&str` too. The key is not copied.
    ///
    /// Returns `Overflow` and `Memory` as `get` does.
    #[inline(always)]
    pub fn find<Q: AsKey<K>>(&self, key: Q) -> Result<Option<CacheHandle<'_, K, V, R, F>>, Refusal>
        ensures key { IfOk result (λ found. IfSome found (λ h. h.key ≡ Q.owned key)) }
        ensures charge { IfOk result (λ found. IfSome found (λ h. h.charge ≡ None)) }
        ensures fits { IfOk result (λ found. IfSome found (λ h. F.fits (Q.owned key) h.value)) }
        ensures never_stale { IfErr result (λ e. e ≢ Refusal.Stale) }
    {
        let mut guard = self.door.lock();
        match guard.get(key)? {
            None => Ok(None),
            Some(pin) => Ok(Some(CacheHandle {
                door: &self.door,
                pin,
            })),
        }
    }

    /// Calls `reader` with the key's value, if it is ready, and returns its result. Returns `None`
    /// if the key has no entry or its value is still being made; `reader` is then dropped without
    /// being called. Never waits for a maker. It makes no handle, copies nothing and takes no
    /// memory.
    ///
    /// It counts as a `get` whose handle is dropped at once: an idle entry becomes the newest idle
    /// one, and a held one stays as it is. `reader` runs, or is dropped, under the lock. It should
    /// be short, and must not use this cache, since such a call would deadlock.
    ///
    /// Returns `Overflow` if the entry has the maximum number of pins, as `get` does.
    #[inline(always)]
    pub fn read<Q: AsKey<K>, T, G>(&self, key: Q, reader: G) -> Result<Option<T>, Refusal>
    where
        G: FnOnce(&V) -> T + Drop,
        requires callable { (v : V) → F.fits (Q.owned key) v → FnOnceTakesAt G.FnOnce reader v }
        ensures fits { IfOk result (λ found. IfSome found
            (λ t. (v : V) × F.fits (Q.owned key) v × FnOnceReturnsAt G.FnOnce reader v t)) }
        ensures refused { IfErr result (λ e. e ≡ Refusal.Overflow) }
    {
        let mut guard = self.door.lock();
        match guard.read(key, reader)? {
            None => Ok(None),
            Some((_, answer)) => Ok(Some(answer)),
        }
    }

    /// Returns a handle of the key's value, which `init` makes if the key has no entry or if its
    /// maker has failed. Waits while another caller makes it. `get_or_try_init_by` takes the key by
    /// reference.
    ///
    /// The charge is counted, and idle entries are evicted for it, before `init` runs. An entry
    /// that is present keeps its charge and its value, and `init` is then dropped without being
    /// called. `init` runs without the lock. It may use this cache, except for the key that it
    /// makes, since such a call would deadlock.
    ///
    /// Returns `Init` if `init` returned that error, and `Memory` if the shared copies of its value
    /// are refused: then the entry is removed, or left to a caller that waits for it, and what was
    /// evicted stays evicted. Returns `Overflow` if the charge of a new entry would take the total
    /// past `u64::MAX`, if there are no stamps left, or if the entry has the maximum number of
    /// pins; `Full` if the limit is strict (`set_strict_limit`) and leaves no room for a new entry;
    /// and `Memory` if a new entry or the copy of the value is refused: then no entry changed,
    /// except that a call that waited has released its pin.
    #[inline(always)]
    pub fn get_or_try_init<E, I>(
        &self,
        key: K,
        charge: u64,
        init: I,
    ) -> Result<CacheHandle<'_, K, V, R, F>, GetError<E>>
    where
        I: FnOnce(&K) -> Result<V, E> + Drop,
        requires charged { 0 < charge }
        requires callable { FnOnceTakesAt I.FnOnce init key }
        requires fits { (v : V) → FnOnceReturnsAt I.FnOnce init key (Ok v) → F.fits key v }
        ensures key { IfOk result (λ h. h.key ≡ key) }
        ensures charge { IfOk result (λ h. h.charge ≡ Some charge) }
        ensures fits { IfOk result (λ h. F.fits key h.value) }
        ensures error { IfErr result (λ e. IfInit e
            (λ x. FnOnceReturnsAt I.FnOnce init key (Err x))) }
    {
        self.get_or_try_init_by(&key, charge, init)
    }

    /// `get_or_try_init` with the key by reference. The key is copied only if there is no entry and
    /// one is inserted.
    ///
    /// Returns `Init`, `Memory`, `Overflow` and `Full` as `get_or_try_init` does.
    pub fn get_or_try_init_by<E, I>(
        &self,
        key: &K,
        charge: u64,
        init: I,
    ) -> Result<CacheHandle<'_, K, V, R, F>, GetError<E>>
    where
        I: FnOnce(&K) -> Result<V, E> + Drop,
        requires charged { 0 < charge }
        requires callable { FnOnceTakesAt I.FnOnce init key.now }
        requires fits { (v : V) → FnOnceReturnsAt I.FnOnce init key.now (Ok v) → F.fits key.now v }
        ensures key { IfOk result (λ h. h.key ≡ key.now) }
        ensures charge { IfOk result (λ h. h.charge ≡ Some charge) }
        ensures fits { IfOk result (λ h. F.fits key.now h.value) }
        ensures error { IfErr result (λ e. IfInit e
            (λ x. FnOnceReturnsAt I.FnOnce init key.now (Err x))) }
    {
        match self.door.begin(key, charge) {
            Err(refusal) => Err(GetError::of_refusal(refusal)),
            Ok(Lookup::Hit(handle)) => Ok(handle),
            Ok(Lookup::Make(maker)) => match init(key) {
                Err(error) => {
                    maker.fail(key);
                    Err(GetError::Init(error))
                }
                Ok(value) => match maker.ready(key, value) {
                    Ok(handle) => Ok(handle),
                    Err(refusal) => Err(GetError::of_refusal(refusal)),
                },
            },
        }
    }

    /// `get_or_try_init` with an `init` that cannot fail. `get_or_init_by` takes the key by
    /// reference.
    ///
    /// Returns `Memory`, `Overflow` and `Full` as `get_or_try_init` does.
    #[inline(always)]
    pub fn get_or_init<I>(
        &self,
        key: K,
        charge: u64,
        init: I,
    ) -> Result<CacheHandle<'_, K, V, R, F>, Refusal>
    where
        I: FnOnce(&K) -> V + Drop,
        requires charged { 0 < charge }
        requires callable { FnOnceTakesAt I.FnOnce init key }
        requires fits { (v : V) → FnOnceReturnsAt I.FnOnce init key v → F.fits key v }
        ensures key { IfOk result (λ h. h.key ≡ key) }
        ensures charge { IfOk result (λ h. h.charge ≡ Some charge) }
        ensures fits { IfOk result (λ h. F.fits key h.value) }
        ensures never_stale { IfErr result (λ e. e ≢ Refusal.Stale) }
    {
        self.get_or_init_by(&key, charge, init)
    }

    /// `get_or_try_init_by` with an `init` that cannot fail.
    ///
    /// Returns `Memory`, `Overflow` and `Full` as `get_or_try_init` does.
    pub fn get_or_init_by<I>(
        &self,
        key: &K,
        charge: u64,
        init: I,
    ) -> Result<CacheHandle<'_, K, V, R, F>, Refusal>
    where
        I: FnOnce(&K) -> V + Drop,
        requires charged { 0 < charge }
        requires callable { FnOnceTakesAt I.FnOnce init key.now }
        requires fits { (v : V) → FnOnceReturnsAt I.FnOnce init key.now v → F.fits key.now v }
        ensures key { IfOk result (λ h. h.key ≡ key.now) }
        ensures charge { IfOk result (λ h. h.charge ≡ Some charge) }
        ensures fits { IfOk result (λ h. F.fits key.now h.value) }
        ensures never_stale { IfErr result (λ e. e ≢ Refusal.Stale) }
    {
        match self.door.begin(key, charge)? {
            Lookup::Hit(handle) => Ok(handle),
            Lookup::Make(maker) => {
                let value = init(key);
                maker.ready(key, value)
            }
        }
    }

    /// `get_or_try_init_by` with an `init` that also returns the charge of the value: it need not
    /// be known before the value is made.
    ///
    /// While `init` runs, a new entry counts with a charge of 1. Then its charge is the one that
    /// `init` returned, and idle entries are evicted for it. The handle's charge is the one that
    /// `init` returned, or none if this call made no value.
    ///
    /// Returns `Init`, `Memory`, `Overflow` and `Full` as `get_or_try_init` does for a charge of 1.
    /// Returns `Overflow` also if the charge that `init` returned would take the total past
    /// `u64::MAX`, and `Full` if the limit is strict (`set_strict_limit`) and leaves no room for
    /// it: then the value is dropped, nothing is evicted for it, and the entry is removed, or left
    /// to a caller that waits for it.
    pub fn get_or_try_init_with<E, I>(
        &self,
        key: &K,
        init: I,
    ) -> Result<CacheHandle<'_, K, V, R, F>, GetError<E>>
    where
        I: FnOnce(&K) -> Result<(V, u64), E> + Drop,
        requires callable { FnOnceTakesAt I.FnOnce init key.now }
        requires charged { (v : V) → (c : ℕ) → FnOnceReturnsAt I.FnOnce init key.now (Ok (v, c))
            → 0 < c }
        requires fits { (v : V) → (c : ℕ) → FnOnceReturnsAt I.FnOnce init key.now (Ok (v, c))
            → F.fits key.now v }
        ensures key { IfOk result (λ h. h.key ≡ key.now) }
        ensures charge { IfOk result (λ h. IfSome h.charge
            (λ c. FnOnceReturnsAt I.FnOnce init key.now (Ok (h.value, c)))) }
        ensures fits { IfOk result (λ h. F.fits key.now h.value) }
        ensures error { IfErr result (λ e. IfInit e
            (λ x. FnOnceReturnsAt I.FnOnce init key.now (Err x))) }
    {
        // The least charge there is: if even that is refused, no value is made in vain.
        match self.door.begin(key, 1) {
            Err(refusal) => Err(GetError::of_refusal(refusal)),
            Ok(Lookup::Hit(handle)) => Ok(handle.uncharged()),
            Ok(Lookup::Make(maker)) => match init(key) {
                Err(error) => {
                    maker.fail(key);
                    Err(GetError::Init(error))
                }
                Ok((value, charge)) => match maker.ready_with(key, value, charge) {
                    Ok(handle) => Ok(handle),
                    Err(refusal) => Err(GetError::of_refusal(refusal)),
                },
            },
        }
    }

    /// `get_or_try_init_with` with an `init` that cannot fail.
    ///
    /// Returns `Memory`, `Overflow` and `Full` as `get_or_try_init_with` does.
    pub fn get_or_init_with<I>(
        &self,
        key: &K,
        init: I,
    ) -> Result<CacheHandle<'_, K, V, R, F>, Refusal>
    where
        I: FnOnce(&K) -> (V, u64) + Drop,
        requires callable { FnOnceTakesAt I.FnOnce init key.now }
        requires charged { (v : V) → (c : ℕ) → FnOnceReturnsAt I.FnOnce init key.now (v, c)
            → 0 < c }
        requires fits { (v : V) → (c : ℕ) → FnOnceReturnsAt I.FnOnce init key.now (v, c)
            → F.fits key.now v }
        ensures key { IfOk result (λ h. h.key ≡ key.now) }
        ensures charge { IfOk result (λ h. IfSome h.charge
            (λ c. FnOnceReturnsAt I.FnOnce init key.now (h.value, c))) }
        ensures fits { IfOk result (λ h. F.fits key.now h.value) }
        ensures never_stale { IfErr result (λ e. e ≢ Refusal.Stale) }
    {
        match self.door.begin(key, 1)? {
            Lookup::Hit(handle) => Ok(handle.uncharged()),
            Lookup::Make(maker) => {
                let (value, charge) = init(key);
                let handle = maker.ready_with(key, value, charge)?;
                Ok(handle)
            }
        }
    }

    /// Evicts the entry of a key if it is idle. Otherwise nothing happens, now or later. Takes no
    /// memory. `advise` takes the key by reference.
    pub fn advice_evict(&self, key: K) {
        self.advise(&key);
    }

    /// `advice_evict` with the key by reference, or by what stands for it.
    pub fn advise<Q: AsKey<K>>(&self, key: Q) {
        let mut guard = self.door.lock();
        let evicted = guard.advice_evict(key);
        drop(evicted.open(guard));
    }

    /// Invalidates a key: whoever asks for it after this call gets a value that was inserted, or
    /// whose making began, after it, even while others hold the old one. Copies no key and takes no
    /// memory.
    ///
    /// An idle entry is evicted. A held entry, ready or still being made, is detached from the key:
    /// no call finds it by the key any more, and the next one inserts a new entry. Its handles keep
    /// the value that they have, and callers that wait for its value get it. It is evicted when its
    /// last handle is dropped, and counts in `total_charge` and `len` until then. If the key has no
    /// entry, nothing happens.
    pub fn invalidate<Q: AsKey<K>>(&self, key: Q) {
        let mut guard = self.door.lock();
        let evicted = guard.invalidate(key);
        drop(evicted.open(guard));
    }

    /// Inserts a value, replacing what the key has, and returns its handle. It invalidates the key
    /// and inserts the new entry in one step. It is for a value that is made before its charge is
    /// known, and for one that replaces another.
    ///
    /// The old entry is treated as by `invalidate`: its handles keep the value that they have, and
    /// callers that wait for its value get that value. Never waits for a maker.
    ///
    /// Returns `Overflow` if the charge would take the total past `u64::MAX`, not counting an idle
    /// entry of the key, or if there are no stamps left; `Full` if the limit is strict
    /// (`set_strict_limit`) and leaves no room for the new entry; and `Memory` if a new entry or
    /// the shared copies of the value are refused. Then no entry changed, the key keeps what it
    /// had, and the value is dropped without the lock.
    pub fn insert(
        &self,
        key: &K,
        charge: u64,
        value: V,
    ) -> Result<CacheHandle<'_, K, V, R, F>, Refusal>
        requires charged { 0 < charge }
        requires fits { F.fits key.now value }
        ensures key { IfOk result (λ h. h.key ≡ key.now) }
        ensures charge { IfOk result (λ h. h.charge ≡ Some charge) }
        ensures value { IfOk result (λ h. h.value ≡ value) }
        ensures fits { IfOk result (λ h. F.fits key.now h.value) }
        ensures never_stale { IfErr result (λ e. e ≢ Refusal.Stale) }
    {
        let (stored, read) = self.door.share(value)?;
        let mut guard = self.door.lock();
        match guard.insert(key, charge, stored, read) {
            Ok((pin, gone)) => {
                drop(gone.open(guard));
                Ok(CacheHandle {
                    door: &self.door,
                    pin,
                })
            }
            Err((refusal, values)) => {
                drop(values.open(guard));
                Err(refusal)
            }
        }
    }

    /// Evicts every idle entry, oldest first. Takes no memory.
    pub fn prune(&self) {
        let mut guard = self.door.lock();
        let evicted = guard.prune();
        drop(evicted.open(guard));
    }

    /// Invalidates every key, as `invalidate` does one: no later call finds what a key had when the
    /// call began, be it ready or still being made. Takes no memory.
    ///
    /// Idle entries are evicted, in an unspecified order. Held ones are detached from their keys:
    /// their handles keep the values that they have, and callers that wait for a value get it.
    ///
    /// The lock is acquired for one entry at a time, so the call is not atomic: an entry that other
    /// callers add meanwhile may stay or leave. It takes time proportional to the greatest number
    /// of entries that the cache ever had at one time.
    pub fn clear(&self) {
        for number in 0..self.end_of_places() {
            let mut guard = self.door.lock();
            if let Some(spot) = guard.state().spot_in(Place::at(number)) {
                let evicted = guard.invalidate_entry(&spot);
                drop(evicted.open(guard));
            }
        }
    }

    /// Invalidates, as `invalidate` does, the key of each entry for which `keep` returns `false`.
    /// `keep` is called with the key, the value and the charge of each entry that its key finds and
    /// that has a value, in an unspecified order. Entries that are still being made stay. Takes no
    /// memory.
    ///
    /// The lock is acquired for one entry at a time, and `keep` runs under it. It should be short,
    /// and must not use this cache, since such a call would deadlock. The entries that it sees need
    /// not all have been there at any one moment: one that other callers add meanwhile may be seen
    /// or not. The call takes time proportional to the greatest number of entries that the cache
    /// ever had at one time.
    pub fn retain<G>(&self, mut keep: G)
    where
        G: FnMut(&K, &V, u64) -> bool + Drop,
        requires { CanJudge F.fits G.FnMut keep }
    {
        self.retain_by(&mut keep);
    }

    // Does the same by reference, for a caller that goes over several caches.
    pub(crate) fn retain_by<G>(&self, keep: &mut G)
    where
        G: FnMut(&K, &V, u64) -> bool,
        requires { CanJudge F.fits G.FnMut keep.old }
        ensures { CanJudge F.fits G.FnMut keep.new }
    {
        for number in 0..self.end_of_places() {
            let mut guard = self.door.lock();
            if let Some(entry) = guard.state().entry_in(Place::at(number)) {
                let spot = Spot {
                    stamp: entry.stamp,
                    hint: entry.hint,
                };
                if !entry.is_detached && !keep(entry.key, entry.value, entry.charge) {
                    let evicted = guard.invalidate_entry(&spot);
                    drop(evicted.open(guard));
                }
            }
        }
    }

    // Returns a number above those of all places that have an entry now.
    fn end_of_places(&self) -> usize {
        let guard = self.door.lock();
        guard.state().end_of_places()
    }

    /// Sets the capacity, and evicts idle entries, oldest first, while the total is above it. Takes
    /// no memory.
    pub fn set_capacity(&self, capacity: u64) {
        let mut guard = self.door.lock();
        let evicted = guard.set_capacity(capacity);
        drop(evicted.open(guard));
    }

    /// Returns the capacity. Takes no memory.
    pub fn capacity(&self) -> u64 {
        let guard = self.door.lock();
        guard.state().capacity()
    }

    /// Sets whether the capacity is a strict limit, which it is not in a new cache. Takes no
    /// memory.
    ///
    /// Held entries stay and count, so a new entry may take the total above the capacity. While the
    /// limit is strict, `get_or_init` and the calls named after it, `begin`, `try_begin`, and
    /// `insert` return `Full` instead, if the charge of a new entry exceeds the capacity together
    /// with the charges of the held entries. Then nothing changes and nothing is evicted. So do
    /// `Maker::ready_with`, and `get_or_init_with` after its loader, if the charge that is told
    /// does; the making has then failed. A call that finds an entry adds no charge, and is never
    /// refused in this way. A total that is above the capacity when the limit becomes strict only
    /// falls until it is no longer.
    pub fn set_strict_limit(&self, strict: bool) {
        let mut guard = self.door.lock();
        guard.set_strict(strict);
    }

    /// Returns whether the capacity is a strict limit. Takes no memory.
    pub fn is_limit_strict(&self) -> bool {
        let guard = self.door.lock();
        guard.is_strict()
    }

    /// Returns the sum of the charges of all entries, including those still being made and those
    /// held after an `invalidate`. Takes no memory.
    pub fn total_charge(&self) -> u64 {
        let guard = self.door.lock();
        guard.state().total()
    }

    /// Returns the sum of the charges of the held entries, including those still being made and
    /// those held after an `invalidate`. The rest of `total_charge` is that of idle entries. Takes
    /// no memory.
    pub fn pinned_charge(&self) -> u64 {
        let guard = self.door.lock();
        guard.state().pinned_charge()
    }

    /// Returns the number of entries, idle or held, including those still being made and those held
    /// after an `invalidate`. Takes no memory.
    pub fn len(&self) -> usize {
        let guard = self.door.lock();
        guard.state().len()
    }

    /// Returns whether there are no entries. Takes no memory.
    pub fn is_empty(&self) -> bool {
        self.len() == 0
    }

    /// Returns whether the key has a ready value, as `get` looks for it: an entry that is still
    /// being made does not count. Pins nothing, so the value may be evicted before the next call,
    /// and leaves the order of eviction as it is. Takes no memory.
    pub fn contains<Q: AsKey<K>>(&self, key: Q) -> bool {
        let guard = self.door.lock();
        guard.state().contains(key)
    }

    /// Calls `f` with the key, the value, the charge and the number of pins of each entry that its
    /// key finds and that has a value, in an unspecified order. An idle entry has no pins. Entries
    /// that are still being made or were invalidated are left out. Pins nothing, and leaves the
    /// order of eviction as it is. Takes no memory.
    ///
    /// The lock is held from the first call of `f` to the last, for a time proportional to the
    /// greatest number of entries that the cache ever had at one time. So `f` sees the entries of
    /// one moment, each once (`visits`), and need only take values that fit their keys. It should
    /// be short, and must not use this cache, since such a call would deadlock.
    pub fn for_each<G>(&self, mut f: G)
    where
        G: FnMut(&K, &V, u64, u32) + Drop,
        requires callable { CanVisit F.fits G.FnMut f }
        ensures visits { (last : G) × VisitsEach K.eq F.fits G.FnMut f last }
    {
        self.for_each_by(&mut f);
    }

    // Does the same by reference, for a caller that goes over several caches.
    pub(crate) fn for_each_by<G>(&self, f: &mut G)
    where
        G: FnMut(&K, &V, u64, u32),
        requires callable { CanVisit F.fits G.FnMut f.old }
        ensures callable { CanVisit F.fits G.FnMut f.new }
        ensures visits { VisitsEach K.eq F.fits G.FnMut f.old f.new }
    {
        let guard = self.door.lock();
        for entry in guard.state().entries() {
            if !entry.is_detached {
                f(entry.key, entry.value, entry.charge, entry.pins);
            }
        }
    }

    /// Returns the counts of this cache's calls since it was created or last reset. They are read
    /// under the lock, so they add up to the entries and charges of one moment. Takes no memory.
    pub fn counts(&self) -> Counts
        ensures entries { result.evictions + result.removals ≤ entries_in result }
        ensures charge { result.evicted_charge + result.removed_charge ≤ charge_in result }
    {
        let guard = self.door.lock();
        guard.counts()
    }

    /// Returns what `counts` returns and resets all counts to 0; the counting starts again from the
    /// entries that are present. Takes no memory.
    pub fn reset_counts(&self) -> Counts
        ensures entries { result.evictions + result.removals ≤ entries_in result }
        ensures charge { result.evicted_charge + result.removed_charge ≤ charge_in result }
    {
        let mut guard = self.door.lock();
        guard.reset_counts()
    }

    // Releases the pin of a handle that keeps the cache alive.
    pub(crate) fn release(&self, pin: HeldPin<K, V, F>) {
        self.door.release(pin);
    }

    // Adds a pin to the entry of a handle that keeps the cache alive.
    pub(crate) fn repin(&self, pin: &HeldPin<K, V, F>) -> Result<HeldPin<K, V, F>, Refusal>
        ensures pin { IfOk result (λ another. another ≡ pin.now) }
        ensures fits { IfOk result (λ another. F.fits another.key another.value) }
        ensures never_stale { IfErr result (λ e. e ≢ Refusal.Stale) }
    {
        self.door.repin(pin)
    }
}

// Prints the ready entries as a map, under the lock.
impl<
    K: Hash + Eq + Clone + Drop + fmt::Debug,
    V: Drop + fmt::Debug,
    R: Wait,
    F: Fit<K, V>,
> fmt::Debug for LruCache<K, V, R, F> {
    fn fmt<W: fmt::Write>(&self, f: &mut fmt::Formatter<W>) -> fmt::Result {
        let guard = self.door.lock();
        fmt::Debug::fmt(&*guard, f)
    }
}
