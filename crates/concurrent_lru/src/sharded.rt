//! A cache in shards, each behind its own lock, for any number of threads.
//!
//! A hasher chooses the shard that serves a key. No shard waits for another's lock.
ghost use Rattle.std.specs.Prelude.{◌≡◌, ◌≢◌, ℕ, ◌<◌, Some, None, Ok, Err, IfOk, IfErr, IfSome};
ghost use Rattle.std.specs.Fn.{FnOnceReturnsAt, FnOnceTakesAt};
ghost use Rattle.concurrent_lru.specs.Cache.{CopiesAreEqual};
ghost use Rattle.concurrent_lru.specs.ThreadedCalls.{IfInit};

mod maker;
mod owned;
mod route;

pub use self::owned::OwnedHandle;
use crate::as_key::AsKey;
pub use crate::counts::Counts;
pub use crate::fit::{Anything, Fit};
pub use crate::get_error::GetError;
pub use crate::lru_core::Refusal;
pub use crate::maker::{Begun, Maker};
use crate::sharded::route::Routes;
use crate::shards::DEFAULT_SHARDS;
pub use crate::shards::{ShardStep, Shards, capacity_per_shard};
pub use crate::unsharded::CacheHandle;
use std::alloc::Global;
use std::fmt;
use std::hash::{BuildHasher, Hash, RandomState};
use std::sync::Wait;

/// A cache that threads share, in shards that each have a lock and a share of the capacity. `S`
/// hashes the keys; `R` and `F` are as in `unsharded::LruCache`.
///
/// Whenever the lock of a shard is acquired, that shard is lawful, its total is the sum of its
/// charges and is above its share only if nothing in it is idle, and its ready values fit their
/// keys.
#[derive(Drop)]
pub struct LruCache<
    K: Hash + Eq + Clone,
    V,
    R: Wait,
    S: BuildHasher = RandomState,
    F: Fit<K, V> = Anything,
> {
    routes: Routes<K, V, R, S, F>,
}

impl<K: Hash + Eq + Clone + Drop, V: Drop, R: Wait + Clone> LruCache<
    K,
    V,
    R,
    RandomState,
    Anything,
> {
    /// Creates an empty cache of 16 shards. Whoever creates it promises that a copy of a key equals
    /// the key.
    ///
    /// The hasher chooses the shard of each key, and gives each shard the seed with which it hashes
    /// keys once more. So without the hasher nobody can choose keys that make the cache slow.
    ///
    /// Returns `Memory` if there is no room for the shards, or if a copy of `rt` is refused.
    pub fn new(alloc: Global, rt: R, capacity: u64, hasher: RandomState) -> Result<Self, Refusal>
        requires copies { CopiesAreEqual K.is_clone K.eq }
        ensures err { IfErr result (λ e. e ≡ Refusal.Memory) }
    {
        LruCache::marked(alloc, rt, capacity, DEFAULT_SHARDS, hasher)
    }
}

impl<K: Hash + Eq + Clone + Drop, V: Drop, R: Wait + Clone, S: BuildHasher + Drop> LruCache<
    K,
    V,
    R,
    S,
    Anything,
> {
    /// Creates an empty cache of one or more shards, each with `capacity_per_shard` of the
    /// capacity. If their number is a power of two up to 256, a call finds the shard of its key
    /// without a division.
    ///
    /// Returns `Memory` as `new` does.
    pub fn with_shards_hasher(
        alloc: Global,
        rt: R,
        capacity: u64,
        shards: usize,
        hasher: S,
    ) -> Result<Self, Refusal>
        requires some { 0 < shards }
        requires copies { CopiesAreEqual K.is_clone K.eq }
        ensures err { IfErr result (λ e. e ≡ Refusal.Memory) }
    {
        LruCache::marked(alloc, rt, capacity, shards, hasher)
    }
}

impl<
    K: Hash + Eq + Clone + Drop,
    V: Drop,
    R: Wait + Clone,
    S: BuildHasher + Drop,
    F: Fit<K, V>,
> LruCache<K, V, R, S, F> {
    /// Creates an empty cache with the mark `F`, otherwise as `with_shards_hasher` does.
    ///
    /// Returns `Memory` as `new` does.
    pub fn marked(
        alloc: Global,
        rt: R,
        capacity: u64,
        shards: usize,
        hasher: S,
    ) -> Result<Self, Refusal>
        requires some { 0 < shards }
        requires copies { CopiesAreEqual K.is_clone K.eq }
        ensures err { IfErr result (λ e. e ≡ Refusal.Memory) }
    {
        Ok(LruCache {
            routes: Routes::new(alloc, rt, capacity, shards, hasher)?,
        })
    }
}

impl<K: Hash + Eq + Clone + Drop, V: Drop, R: Wait, S: BuildHasher, F: Fit<K, V>> LruCache<
    K,
    V,
    R,
    S,
    F,
> {
    /// Returns a handle of the key's value if it is ready, and `None` if the key has no entry or
    /// its value is still being made. Never waits for a maker. `find` takes the key by reference.
    ///
    /// Returns `Overflow` if the entry has the maximum number of pins, and `Memory` if the copy of
    /// the value is refused.
    #[inline(always)]
    pub fn get(&self, key: K) -> Result<Option<CacheHandle<'_, K, V, R, F>>, Refusal>
        ensures key { IfOk result (λ found. IfSome found (λ h. h.key ≡ key)) }
        ensures charge { IfOk result (λ found. IfSome found (λ h. h.charge ≡ None)) }
        ensures fits { IfOk result (λ found. IfSome found (λ h. F.fits key h.value)) }
        ensures never_stale { IfErr result (λ e. e ≢ Refusal.Stale) }
    {
        self.find(&key)
    }

    /// `get` with the key by reference, or by what stands for it ([`AsKey`]): a cache whose
    /// keys are `String`s is asked by a `&str` too. The key is not copied.
    ///
    /// Returns `Overflow` and `Memory` as `get` does.
    #[inline(always)]
    pub fn find<Q: AsKey<K>>(&self, key: Q) -> Result<Option<CacheHandle<'_, K, V, R, F>>, Refusal>
        ensures key { IfOk result (λ found. IfSome found (λ h. h.key ≡ Q.owned key)) }
        ensures charge { IfOk result (λ found. IfSome found (λ h. h.charge ≡ None)) }
        ensures fits { IfOk result (λ found. IfSome found (λ h. F.fits (Q.owned key) h.value)) }
        ensures never_stale { IfErr result (λ e. e ≢ Refusal.Stale) }
    {
        self.routes.of(key).find(key)
    }

    /// Calls `reader` with the key's value, if it is ready, and returns its result. Returns `None`
    /// if the key has no entry or its value is still being made; `reader` is then dropped without
    /// being called. Never waits for a maker. It makes no handle, copies nothing and takes no
    /// memory.
    ///
    /// It counts as a `get` whose handle is dropped at once: an idle entry becomes the newest idle
    /// one, and a held one stays as it is. `reader` runs, or is dropped, under the lock of the
    /// shard. It should be short, and must not use this cache, since such a call may deadlock.
    ///
    /// Returns `Overflow` if the entry has the maximum number of pins, as `get` does.
    #[inline(always)]
    pub fn read<Q: AsKey<K>, T, G>(&self, key: Q, reader: G) -> Result<Option<T>, Refusal>
    where
        G: FnOnce(&V) -> T + Drop,
        requires callable { (v : V) → F.fits (Q.owned key) v → FnOnceTakesAt G.FnOnce reader v }
        ensures fits { IfOk result (λ found. IfSome found
            (λ t. (v : V) × F.fits (Q.owned key) v × FnOnceReturnsAt G.FnOnce reader v t)) }
        ensures refused { IfErr result (λ e. e ≡ Refusal.Overflow) }
    {
        self.routes.of(key).read(key, reader)
    }

    /// Returns a handle of the key's value, which `init` makes if the key has no entry or if its
    /// maker has failed. Waits while another caller makes it. `get_or_try_init_by` takes the key by
    /// reference.
    ///
    /// Charges, evictions, the call of `init` and the errors `Init`, `Overflow`, `Full` and
    /// `Memory` are those of `unsharded::LruCache`, within the key's shard.
    #[inline(always)]
    pub fn get_or_try_init<E, I>(
        &self,
        key: K,
        charge: u64,
        init: I,
    ) -> Result<CacheHandle<'_, K, V, R, F>, GetError<E>>
    where
        I: FnOnce(&K) -> Result<V, E> + Drop,
        requires charged { 0 < charge }
        requires callable { FnOnceTakesAt I.FnOnce init key }
        requires fits { (v : V) → FnOnceReturnsAt I.FnOnce init key (Ok v) → F.fits key v }
        ensures key { IfOk result (λ h. h.key ≡ key) }
        ensures charge { IfOk result (λ h. h.charge ≡ Some charge) }
        ensures fits { IfOk result (λ h. F.fits key h.value) }
        ensures error { IfErr result (λ e. IfInit e
            (λ x. FnOnceReturnsAt I.FnOnce init key (Err x))) }
    {
        self.get_or_try_init_by(&key, charge, init)
    }

    /// `get_or_try_init` with the key by reference. The key is copied only if there is no entry and
    /// one is inserted.
    ///
    /// Returns `Init`, `Memory`, `Overflow` and `Full` as `get_or_try_init` does.
    pub fn get_or_try_init_by<E, I>(
        &self,
        key: &K,
        charge: u64,
        init: I,
    ) -> Result<CacheHandle<'_, K, V, R, F>, GetError<E>>
    where
        I: FnOnce(&K) -> Result<V, E> + Drop,
        requires charged { 0 < charge }
        requires callable { FnOnceTakesAt I.FnOnce init key.now }
        requires fits { (v : V) → FnOnceReturnsAt I.FnOnce init key.now (Ok v) → F.fits key.now v }
        ensures key { IfOk result (λ h. h.key ≡ key.now) }
        ensures charge { IfOk result (λ h. h.charge ≡ Some charge) }
        ensures fits { IfOk result (λ h. F.fits key.now h.value) }
        ensures error { IfErr result (λ e. IfInit e
            (λ x. FnOnceReturnsAt I.FnOnce init key.now (Err x))) }
    {
        self.routes.of(key).get_or_try_init_by(key, charge, init)
    }

    /// `get_or_try_init` with an `init` that cannot fail. `get_or_init_by` takes the key by
    /// reference.
    ///
    /// Returns `Memory`, `Overflow` and `Full` as `get_or_try_init` does.
    #[inline(always)]
    pub fn get_or_init<I>(
        &self,
        key: K,
        charge: u64,
        init: I,
    ) -> Result<CacheHandle<'_, K, V, R, F>, Refusal>
    where
        I: FnOnce(&K) -> V + Drop,
        requires charged { 0 < charge }
        requires callable { FnOnceTakesAt I.FnOnce init key }
        requires fits { (v : V) → FnOnceReturnsAt I.FnOnce init key v → F.fits key v }
        ensures key { IfOk result (λ h. h.key ≡ key) }
        ensures charge { IfOk result (λ h. h.charge ≡ Some charge) }
        ensures fits { IfOk result (λ h. F.fits key h.value) }
        ensures never_stale { IfErr result (λ e. e ≢ Refusal.Stale) }
    {
        self.get_or_init_by(&key, charge, init)
    }

    /// `get_or_try_init_by` with an `init` that cannot fail.
    ///
    /// Returns `Memory`, `Overflow` and `Full` as `get_or_try_init` does.
    pub fn get_or_init_by<I>(
        &self,
        key: &K,
        charge: u64,
        init: I,
    ) -> Result<CacheHandle<'_, K, V, R, F>, Refusal>
    where
        I: FnOnce(&K) -> V + Drop,
        requires charged { 0 < charge }
        requires callable { FnOnceTakesAt I.FnOnce init key.now }
        requires fits { (v : V) → FnOnceReturnsAt I.FnOnce init key.now v → F.fits key.now v }
        ensures key { IfOk result (λ h. h.key ≡ key.now) }
        ensures charge { IfOk result (λ h. h.charge ≡ Some charge) }
        ensures fits { IfOk result (λ h. F.fits key.now h.value) }
        ensures never_stale { IfErr result (λ e. e ≢ Refusal.Stale) }
    {
        self.routes.of(key).get_or_init_by(key, charge, init)
    }

    /// `get_or_try_init_by` with an `init` that also returns the charge of the value: it need not
    /// be known before the value is made.
    ///
    /// The charges, the evictions, the handle's charge and the errors `Init`, `Overflow`, `Full`
    /// and `Memory` are those of `unsharded::LruCache`, within the key's shard.
    pub fn get_or_try_init_with<E, I>(
        &self,
        key: &K,
        init: I,
    ) -> Result<CacheHandle<'_, K, V, R, F>, GetError<E>>
    where
        I: FnOnce(&K) -> Result<(V, u64), E> + Drop,
        requires callable { FnOnceTakesAt I.FnOnce init key.now }
        requires charged { (v : V) → (c : ℕ) → FnOnceReturnsAt I.FnOnce init key.now (Ok (v, c))
            → 0 < c }
        requires fits { (v : V) → (c : ℕ) → FnOnceReturnsAt I.FnOnce init key.now (Ok (v, c))
            → F.fits key.now v }
        ensures key { IfOk result (λ h. h.key ≡ key.now) }
        ensures charge { IfOk result (λ h. IfSome h.charge
            (λ c. FnOnceReturnsAt I.FnOnce init key.now (Ok (h.value, c)))) }
        ensures fits { IfOk result (λ h. F.fits key.now h.value) }
        ensures error { IfErr result (λ e. IfInit e
            (λ x. FnOnceReturnsAt I.FnOnce init key.now (Err x))) }
    {
        self.routes.of(key).get_or_try_init_with(key, init)
    }

    /// `get_or_try_init_with` with an `init` that cannot fail.
    ///
    /// Returns `Memory`, `Overflow` and `Full` as `get_or_try_init_with` does.
    pub fn get_or_init_with<I>(
        &self,
        key: &K,
        init: I,
    ) -> Result<CacheHandle<'_, K, V, R, F>, Refusal>
    where
        I: FnOnce(&K) -> (V, u64) + Drop,
        requires callable { FnOnceTakesAt I.FnOnce init key.now }
        requires charged { (v : V) → (c : ℕ) → FnOnceReturnsAt I.FnOnce init key.now (v, c)
            → 0 < c }
        requires fits { (v : V) → (c : ℕ) → FnOnceReturnsAt I.FnOnce init key.now (v, c)
            → F.fits key.now v }
        ensures key { IfOk result (λ h. h.key ≡ key.now) }
        ensures charge { IfOk result (λ h. IfSome h.charge
            (λ c. FnOnceReturnsAt I.FnOnce init key.now (h.value, c))) }
        ensures fits { IfOk result (λ h. F.fits key.now h.value) }
        ensures never_stale { IfErr result (λ e. e ≢ Refusal.Stale) }
    {
        self.routes.of(key).get_or_init_with(key, init)
    }

    /// Evicts the entry of a key if it is idle. Otherwise nothing happens, now or later. Takes no
    /// memory. `advise` takes the key by reference.
    pub fn advice_evict(&self, key: K) {
        self.advise(&key);
    }

    /// `advice_evict` with the key by reference, or by what stands for it.
    pub fn advise<Q: AsKey<K>>(&self, key: Q) {
        self.routes.of(key).advise(key);
    }

    /// Invalidates a key in its shard: whoever asks for it after this call gets a value that was
    /// inserted, or whose making began, after it, even while others hold the old one. An idle entry
    /// is evicted. A held one stays for its holders only, and is evicted when its last handle is
    /// dropped. Copies no key and takes no memory.
    pub fn invalidate<Q: AsKey<K>>(&self, key: Q) {
        self.routes.of(key).invalidate(key);
    }

    /// Inserts a value into the key's shard, replacing what the key has, and returns its handle, as
    /// `unsharded::LruCache` does: it invalidates the key and inserts the new entry in one step.
    ///
    /// Returns `Overflow`, `Full` and `Memory` as there: then no entry changed, and the value is
    /// dropped.
    pub fn insert(
        &self,
        key: &K,
        charge: u64,
        value: V,
    ) -> Result<CacheHandle<'_, K, V, R, F>, Refusal>
        requires charged { 0 < charge }
        requires fits { F.fits key.now value }
        ensures key { IfOk result (λ h. h.key ≡ key.now) }
        ensures charge { IfOk result (λ h. h.charge ≡ Some charge) }
        ensures value { IfOk result (λ h. h.value ≡ value) }
        ensures fits { IfOk result (λ h. F.fits key.now h.value) }
        ensures never_stale { IfErr result (λ e. e ≢ Refusal.Stale) }
    {
        self.routes.of(key).insert(key, charge, value)
    }

    /// Returns whether the key has a ready value in its shard, as `unsharded::LruCache::contains`
    /// does. Takes no memory.
    pub fn contains<Q: AsKey<K>>(&self, key: Q) -> bool {
        self.routes.of(key).contains(key)
    }
}

// Prints the shards as a list, each under its lock.
impl<
    K: Hash + Eq + Clone + Drop + fmt::Debug,
    V: Drop + fmt::Debug,
    R: Wait,
    S: BuildHasher,
    F: Fit<K, V>,
> fmt::Debug for LruCache<K, V, R, S, F> {
    fn fmt<W: fmt::Write>(&self, f: &mut fmt::Formatter<W>) -> fmt::Result {
        self.routes.fmt(f)
    }
}
