//! Handles that borrow nothing: each has an `Arc` of the cache, which keeps it alive.
ghost use Rattle.std.specs.Prelude.{◌≡◌, ◌≢◌, ◌<◌, Some, None, Ok, Err, IfOk, IfErr, IfSome};
ghost use Rattle.std.specs.Fn.{FnOnceReturnsAt, FnOnceTakesAt};
ghost use Rattle.concurrent_lru.specs.ThreadedCalls.{IfInit};

use crate::fit::{Anything, Fit};
use crate::get_error::GetError;
use crate::locked::HeldPin;
use crate::lru_core::Refusal;
use crate::unsharded::LruCache;
use std::fmt;
use std::hash::Hash;
use std::marker::Model;
use std::ops::Deref;
use std::sync::{Arc, Wait};

/// A pinned value of a cache in an `Arc`, like `CacheHandle`, except that the handle keeps the
/// cache alive. Dropping it releases the pin, and then drops its `Arc` of the cache.
///
/// Clauses see what they see of a `CacheHandle`.
pub struct OwnedHandle<K: Hash + Eq + Clone, V, R: Wait, F: Fit<K, V> = Anything> {
    cache: Arc<LruCache<K, V, R, F>>,
    pin: HeldPin<K, V, F>,
}

impl<K: Hash + Eq + Clone, V, R: Wait, F: Fit<K, V>> Model for OwnedHandle<K, V, R, F> {
    ghost use Rattle.concurrent_lru.specs.Pins.{HandleOf};

    ghost Value = { HandleOf K V };

    ghost view = { λ h. record { key = h.pin.key; charge = h.pin.charge; value = h.pin.value } };
}

impl<K: Hash + Eq + Clone, V, R: Wait, F: Fit<K, V>> OwnedHandle<K, V, R, F> {
    /// Returns the value. Acquires no lock.
    pub fn value(&self) -> &V
        ensures value { result.now ≡ self.now.value }
        ensures fits { F.fits self.now.key result.now }
    {
        self.pin.value()
    }
}

impl<K: Hash + Eq + Clone + Drop, V: Drop, R: Wait + Drop, F: Fit<K, V>> OwnedHandle<K, V, R, F> {
    // Creates a handle of a pin that was acquired from this cache.
    fn new(cache: Arc<LruCache<K, V, R, F>>, pin: HeldPin<K, V, F>) -> Self
        ensures key { result.key ≡ pin.key }
        ensures charge { result.charge ≡ pin.charge }
        ensures value { result.value ≡ pin.value }
    {
        OwnedHandle { cache, pin }
    }

    /// Returns another handle of the same value, as `CacheHandle::try_clone` does, which keeps the
    /// cache alive too.
    ///
    /// Returns `Overflow` and `Memory` as there, and `Memory` also if a copy of the `Arc` of the
    /// cache is refused; then nothing is pinned.
    pub fn try_clone(&self) -> Result<OwnedHandle<K, V, R, F>, Refusal>
        ensures key { IfOk result (λ h. h.key ≡ self.now.key) }
        ensures charge { IfOk result (λ h. h.charge ≡ self.now.charge) }
        ensures value { IfOk result (λ h. h.value ≡ self.now.value) }
        ensures fits { IfOk result (λ h. F.fits h.key h.value) }
        ensures never_stale { IfErr result (λ e. e ≢ Refusal.Stale) }
    {
        let cache = Arc::try_clone(&self.cache)?;
        let pin = self.cache.repin(&self.pin)?;
        Ok(OwnedHandle::new(cache, pin))
    }
}

impl<K: Hash + Eq + Clone, V, R: Wait, F: Fit<K, V>> Deref for OwnedHandle<K, V, R, F> {
    type Target = V;

    ghost deref_gives = { λ h v. v ≡ h.value };

    fn deref(&self) -> &V
        ensures value { result.now ≡ self.now.value }
        ensures fits { F.fits self.now.key result.now }
    {
        self.value()
    }
}

// Prints as the value does.
impl<K: Hash + Eq + Clone, V: fmt::Debug, R: Wait, F: Fit<K, V>> fmt::Debug
    for OwnedHandle<K, V, R, F> {
    ghost debug_output = { λ h. V.debug_output h.value };

    fn fmt<W: fmt::Write>(&self, f: &mut fmt::Formatter<W>) -> fmt::Result {
        fmt::Debug::fmt(self.value(), f)
    }
}

// Releases the pin under the lock before the `Arc` of the cache, which may be the last, is dropped.
impl<K: Hash + Eq + Clone + Drop, V: Drop, R: Wait + Drop, F: Fit<K, V>> Drop
    for OwnedHandle<K, V, R, F> {
    fn drop(self) {
        let Self { cache, pin } = self;
        cache.release(pin);
        drop(cache);
    }
}

impl<K: Hash + Eq + Clone + Drop, V: Drop, R: Wait + Drop, F: Fit<K, V>> LruCache<K, V, R, F> {
    /// `find`, with a handle that borrows nothing and keeps the cache alive.
    ///
    /// Returns `Overflow` and `Memory` as `find` does, and `Memory` also if a copy of the `Arc` is
    /// refused; then nothing is pinned.
    pub fn get_owned(
        this: &Arc<LruCache<K, V, R, F>>,
        key: &K,
    ) -> Result<Option<OwnedHandle<K, V, R, F>>, Refusal>
        ensures key { IfOk result (λ found. IfSome found (λ h. h.key ≡ key.now)) }
        ensures charge { IfOk result (λ found. IfSome found (λ h. h.charge ≡ None)) }
        ensures fits { IfOk result (λ found. IfSome found (λ h. F.fits key.now h.value)) }
        ensures never_stale { IfErr result (λ e. e ≢ Refusal.Stale) }
    {
        let cache = Arc::try_clone(this)?;
        match this.find(key)? {
            None => Ok(None),
            Some(handle) => {
                let pin = handle.into_pin();
                Ok(Some(OwnedHandle::new(cache, pin)))
            }
        }
    }

    /// `get_or_init_by`, with a handle that borrows nothing and keeps the cache alive.
    ///
    /// Returns `Memory`, `Overflow` and `Full` as `get_or_init_by` does, and `Memory` also if a
    /// copy of the `Arc` is refused; then `init` is dropped without being called, and nothing is
    /// pinned.
    pub fn get_or_init_owned<I>(
        this: &Arc<LruCache<K, V, R, F>>,
        key: &K,
        charge: u64,
        init: I,
    ) -> Result<OwnedHandle<K, V, R, F>, Refusal>
    where
        I: FnOnce(&K) -> V + Drop,
        requires charged { 0 < charge }
        requires callable { FnOnceTakesAt I.FnOnce init key.now }
        requires fits { (v : V) → FnOnceReturnsAt I.FnOnce init key.now v → F.fits key.now v }
        ensures key { IfOk result (λ h. h.key ≡ key.now) }
        ensures charge { IfOk result (λ h. h.charge ≡ Some charge) }
        ensures fits { IfOk result (λ h. F.fits key.now h.value) }
        ensures never_stale { IfErr result (λ e. e ≢ Refusal.Stale) }
    {
        let cache = Arc::try_clone(this)?;
        let pin = this.get_or_init_by(key, charge, init)?.into_pin();
        Ok(OwnedHandle::new(cache, pin))
    }

    /// `get_or_try_init_by`, with a handle that borrows nothing and keeps the cache alive.
    ///
    /// Returns `Init`, `Memory`, `Overflow` and `Full` as `get_or_try_init_by` does, and `Memory`
    /// also if a copy of the `Arc` is refused; then `init` is dropped without being called, and
    /// nothing is pinned.
    pub fn get_or_try_init_owned<E, I>(
        this: &Arc<LruCache<K, V, R, F>>,
        key: &K,
        charge: u64,
        init: I,
    ) -> Result<OwnedHandle<K, V, R, F>, GetError<E>>
    where
        I: FnOnce(&K) -> Result<V, E> + Drop,
        requires charged { 0 < charge }
        requires callable { FnOnceTakesAt I.FnOnce init key.now }
        requires fits { (v : V) → FnOnceReturnsAt I.FnOnce init key.now (Ok v) → F.fits key.now v }
        ensures key { IfOk result (λ h. h.key ≡ key.now) }
        ensures charge { IfOk result (λ h. h.charge ≡ Some charge) }
        ensures fits { IfOk result (λ h. F.fits key.now h.value) }
        ensures error { IfErr result (λ e. IfInit e
            (λ x. FnOnceReturnsAt I.FnOnce init key.now (Err x))) }
    {
        let Ok(cache) = Arc::try_clone(this) else {
            return Err(GetError::Memory);
        };
        let pin = this.get_or_try_init_by(key, charge, init)?.into_pin();
        Ok(OwnedHandle::new(cache, pin))
    }
}
