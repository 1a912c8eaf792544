//! Handles that borrow nothing: each has an `Arc` of the cache, which keeps it alive, and the route
//! to its shard.
ghost use Rattle.std.specs.Prelude.{◌≡◌, ◌≢◌, ◌<◌, ◌%◌, Some, None, Ok, Err, IfOk, IfErr, IfSome, slice_get, vec_len};
ghost use Rattle.std.specs.Arc.{arc_value};
ghost use Rattle.std.specs.Fn.{FnOnceReturnsAt, FnOnceTakesAt};
ghost use Rattle.concurrent_lru.specs.Sharded.{key_number};
ghost use Rattle.concurrent_lru.specs.ThreadedCalls.{IfInit};

use crate::fit::{Anything, Fit};
use crate::get_error::GetError;
use crate::locked::HeldPin;
use crate::lru_core::Refusal;
use crate::sharded::LruCache;
use crate::sharded::route::Route;
use crate::unsharded;
use std::fmt;
use std::hash::{BuildHasher, Hash, RandomState};
use std::marker::Model;
use std::ops::Deref;
use std::sync::{Arc, Wait};

/// A pinned value of a cache in an `Arc`, like `CacheHandle`, except that the handle keeps the
/// cache alive. Dropping it releases the pin in the shard where it was acquired, and then drops its
/// `Arc` of the cache.
///
/// Clauses see what they see of a `CacheHandle`.
pub struct OwnedHandle<
    K: Hash + Eq + Clone,
    V,
    R: Wait,
    S: BuildHasher = RandomState,
    F: Fit<K, V> = Anything,
> {
    shard: OwnedShard<K, V, R, S, F>,
    pin: HeldPin<K, V, F>,
}

impl<K: Hash + Eq + Clone, V, R: Wait, S: BuildHasher, F: Fit<K, V>> Model
    for OwnedHandle<K, V, R, S, F> {
    ghost use Rattle.concurrent_lru.specs.Pins.{HandleOf};

    ghost Value = { HandleOf K V };

    ghost view = { λ h. record { key = h.pin.key; charge = h.pin.charge; value = h.pin.value } };
}

impl<K: Hash + Eq + Clone, V, R: Wait, S: BuildHasher, F: Fit<K, V>> OwnedHandle<K, V, R, S, F> {
    /// Returns the value. Acquires no lock.
    pub fn value(&self) -> &V
        ensures value { result.now ≡ self.now.value }
        ensures fits { F.fits self.now.key result.now }
    {
        self.pin.value()
    }
}

impl<
    K: Hash + Eq + Clone + Drop,
    V: Drop,
    R: Wait + Drop,
    S: BuildHasher + Drop,
    F: Fit<K, V>,
> OwnedHandle<K, V, R, S, F> {
    // Creates a handle of a pin that was acquired from this shard.
    fn new(shard: OwnedShard<K, V, R, S, F>, pin: HeldPin<K, V, F>) -> Self
        ensures key { result.key ≡ pin.key }
        ensures charge { result.charge ≡ pin.charge }
        ensures value { result.value ≡ pin.value }
    {
        OwnedHandle { shard, pin }
    }

    /// Returns another handle of the same value, as `CacheHandle::try_clone` does, which keeps the
    /// cache alive too.
    ///
    /// Returns `Overflow` and `Memory` as there, and `Memory` also if a copy of the `Arc` of the
    /// cache is refused; then nothing is pinned.
    pub fn try_clone(&self) -> Result<OwnedHandle<K, V, R, S, F>, Refusal>
        ensures key { IfOk result (λ h. h.key ≡ self.now.key) }
        ensures charge { IfOk result (λ h. h.charge ≡ self.now.charge) }
        ensures value { IfOk result (λ h. h.value ≡ self.now.value) }
        ensures fits { IfOk result (λ h. F.fits h.key h.value) }
        ensures never_stale { IfErr result (λ e. e ≢ Refusal.Stale) }
    {
        let shard = self.shard.again()?;
        let pin = self.shard.get().repin(&self.pin)?;
        Ok(OwnedHandle::new(shard, pin))
    }
}

impl<K: Hash + Eq + Clone, V, R: Wait, S: BuildHasher, F: Fit<K, V>> Deref
    for OwnedHandle<K, V, R, S, F> {
    type Target = V;

    ghost deref_gives = { λ h v. v ≡ h.value };

    fn deref(&self) -> &V
        ensures value { result.now ≡ self.now.value }
        ensures fits { F.fits self.now.key result.now }
    {
        self.value()
    }
}

// Prints as the value does.
impl<K: Hash + Eq + Clone, V: fmt::Debug, R: Wait, S: BuildHasher, F: Fit<K, V>> fmt::Debug
    for OwnedHandle<K, V, R, S, F> {
    ghost debug_output = { λ h. V.debug_output h.value };

    fn fmt<W: fmt::Write>(&self, f: &mut fmt::Formatter<W>) -> fmt::Result {
        fmt::Debug::fmt(self.value(), f)
    }
}

// Releases the pin under the lock of its shard before the `Arc` of the cache, which may be the
// last, is dropped.
impl<K: Hash + Eq + Clone + Drop, V: Drop, R: Wait + Drop, S: BuildHasher + Drop, F: Fit<K, V>> Drop
    for OwnedHandle<K, V, R, S, F> {
    fn drop(self) {
        let Self { shard, pin } = self;
        shard.get().release(pin);
        drop(shard);
    }
}

// One shard of a cache in an `Arc`, which it keeps alive.
#[derive(Drop)]
struct OwnedShard<K: Hash + Eq + Clone, V, R: Wait, S: BuildHasher, F: Fit<K, V>> {
    cache: Arc<LruCache<K, V, R, S, F>>,
    route: Route,
    ghost within: { route.index < vec_len (arc_value cache).routes.shards },
}

impl<
    K: Hash + Eq + Clone + Drop,
    V: Drop,
    R: Wait + Drop,
    S: BuildHasher + Drop,
    F: Fit<K, V>,
> OwnedShard<K, V, R, S, F> {
    // Returns the shard that serves a key.
    //
    // Returns `Memory` if the copy of the `Arc` is refused.
    fn of(cache: &Arc<LruCache<K, V, R, S, F>>, key: &K) -> Result<Self, Refusal>
        ensures cache { IfOk result (λ shard. arc_value shard.cache ≡ arc_value cache.now) }
        ensures route { IfOk result (λ shard. shard.route.index
            ≡ key_number S.BuildHasher S.Hasher.Hasher K.hash_input
            (arc_value cache.now).routes.hasher key.now % vec_len
            (arc_value cache.now).routes.shards) }
        ensures err { IfErr result (λ e. e ≡ Refusal.Memory) }
    {
        let route = cache.routes.route_of(key);
        let cache = Arc::try_clone(cache)?;
        Ok(OwnedShard { cache, route })
    }

    // Returns the same shard, with another `Arc` of the cache.
    //
    // Returns `Memory` if the copy of the `Arc` is refused.
    fn again(&self) -> Result<Self, Refusal>
        ensures { IfErr result (λ e. e ≡ Refusal.Memory) }
    {
        let cache = Arc::try_clone(&self.cache)?;
        Ok(OwnedShard {
            cache,
            route: self.route,
        })
    }

    // Returns the shard, a cache of one lock.
    fn get(&self) -> &unsharded::LruCache<K, V, R, F>
        ensures { slice_get (arc_value self.now.cache).routes.shards.items self.now.route.index
            ≡ Some result.now }
    {
        self.cache.routes.at(self.route)
    }
}

impl<
    K: Hash + Eq + Clone + Drop,
    V: Drop,
    R: Wait + Drop,
    S: BuildHasher + Drop,
    F: Fit<K, V>,
> LruCache<K, V, R, S, F> {
    /// `find`, with a handle that borrows nothing and keeps the cache alive.
    ///
    /// Returns `Overflow` and `Memory` as `find` does, and `Memory` also if a copy of the `Arc` is
    /// refused; then nothing is pinned.
    pub fn get_owned(
        this: &Arc<LruCache<K, V, R, S, F>>,
        key: &K,
    ) -> Result<Option<OwnedHandle<K, V, R, S, F>>, Refusal>
        ensures key { IfOk result (λ found. IfSome found (λ h. h.key ≡ key.now)) }
        ensures charge { IfOk result (λ found. IfSome found (λ h. h.charge ≡ None)) }
        ensures fits { IfOk result (λ found. IfSome found (λ h. F.fits key.now h.value)) }
        ensures never_stale { IfErr result (λ e. e ≢ Refusal.Stale) }
    {
        let shard = OwnedShard::of(this, key)?;
        let Some(handle) = shard.get().find(key)? else {
            return Ok(None);
        };
        let pin = handle.into_pin();
        Ok(Some(OwnedHandle::new(shard, pin)))
    }

    /// `get_or_init_by`, with a handle that borrows nothing and keeps the cache alive.
    ///
    /// Returns `Memory`, `Overflow` and `Full` as `get_or_init_by` does, and `Memory` also if a
    /// copy of the `Arc` is refused; then `init` is dropped without being called, and nothing is
    /// pinned.
    pub fn get_or_init_owned<I>(
        this: &Arc<LruCache<K, V, R, S, F>>,
        key: &K,
        charge: u64,
        init: I,
    ) -> Result<OwnedHandle<K, V, R, S, F>, Refusal>
    where
        I: FnOnce(&K) -> V + Drop,
        requires charged { 0 < charge }
        requires callable { FnOnceTakesAt I.FnOnce init key.now }
        requires fits { (v : V) → FnOnceReturnsAt I.FnOnce init key.now v → F.fits key.now v }
        ensures key { IfOk result (λ h. h.key ≡ key.now) }
        ensures charge { IfOk result (λ h. h.charge ≡ Some charge) }
        ensures fits { IfOk result (λ h. F.fits key.now h.value) }
        ensures never_stale { IfErr result (λ e. e ≢ Refusal.Stale) }
    {
        let shard = OwnedShard::of(this, key)?;
        let pin = shard.get().get_or_init_by(key, charge, init)?.into_pin();
        Ok(OwnedHandle::new(shard, pin))
    }

    /// `get_or_try_init_by`, with a handle that borrows nothing and keeps the cache alive.
    ///
    /// Returns `Init`, `Memory`, `Overflow` and `Full` as `get_or_try_init_by` does, and `Memory`
    /// also if a copy of the `Arc` is refused; then `init` is dropped without being called, and
    /// nothing is pinned.
    pub fn get_or_try_init_owned<E, I>(
        this: &Arc<LruCache<K, V, R, S, F>>,
        key: &K,
        charge: u64,
        init: I,
    ) -> Result<OwnedHandle<K, V, R, S, F>, GetError<E>>
    where
        I: FnOnce(&K) -> Result<V, E> + Drop,
        requires charged { 0 < charge }
        requires callable { FnOnceTakesAt I.FnOnce init key.now }
        requires fits { (v : V) → FnOnceReturnsAt I.FnOnce init key.now (Ok v) → F.fits key.now v }
        ensures key { IfOk result (λ h. h.key ≡ key.now) }
        ensures charge { IfOk result (λ h. h.charge ≡ Some charge) }
        ensures fits { IfOk result (λ h. F.fits key.now h.value) }
        ensures error { IfErr result (λ e. IfInit e
            (λ x. FnOnceReturnsAt I.FnOnce init key.now (Err x))) }
    {
        let Ok(shard) = OwnedShard::of(this, key) else {
            return Err(GetError::Memory);
        };
        let pin = shard
            .get()
            .get_or_try_init_by(key, charge, init)?
            .into_pin();
        Ok(OwnedHandle::new(shard, pin))
    }
}
