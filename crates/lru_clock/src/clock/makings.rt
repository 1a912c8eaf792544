//! Values that a caller of the cache makes.
ghost use Rattle.std.specs.Prelude.{◌≡◌, ◌≢◌, ◌<◌, ℕ, Some, None, Ok, Err, IfOk, IfErr, IfSome};
ghost use Rattle.std.specs.Fn.{FnOnceReturnsAt, FnOnceTakesAt};
ghost use Rattle.concurrent_lru.specs.ThreadedCalls.{IfInit, IsNotInit};
ghost use Rattle.lru_clock.specs.Shards.{IsBookOf};

use crate::clock::{Cache, CacheHandle};
use crate::shard::Turn;
use concurrent_lru::fit::Fit;
use concurrent_lru::sharded::{GetError, Refusal};
use std::hash::{BuildHasher, Hash};
use std::sync::Wait;

impl<K: Hash + Eq + Clone + Drop, V: Drop, R: Wait, S: BuildHasher, F: Fit<K, V>> Cache<
    K,
    V,
    R,
    S,
    F,
> {
    /// Returns a handle of the key's value, which `init` makes if the key has none. Waits while
    /// another caller makes it; if that making fails or is invalidated, this call makes the value.
    /// `get_or_try_init_by` takes the key by reference.
    ///
    /// `init` runs without a lock. Then entries are evicted to make room for the charge, and the
    /// value is stored. If the key was invalidated meanwhile, only this caller gets the value.
    ///
    /// Returns `Init` with the error that `init` returned, `Overflow` if the entry has the maximum
    /// number of pins or the charge would take the shard's total past `u64::MAX`, `Full` if the
    /// limit is strict (`set_strict_limit`) and leaves no room for a new entry, and `Memory` if
    /// there is none to record the making, or if a copy of the key or a slot is refused. A value
    /// that was already made is dropped.
    #[inline(always)]
    pub fn get_or_try_init<E, I>(
        &self,
        key: K,
        charge: u64,
        init: I,
    ) -> Result<CacheHandle<'_, K, V, R, F>, GetError<E>>
    where
        I: FnOnce(&K) -> Result<V, E> + Drop,
        requires charged { 0 < charge }
        requires callable { FnOnceTakesAt I.FnOnce init key }
        requires fits { (v : V) → FnOnceReturnsAt I.FnOnce init key (Ok v) → F.fits key v }
        ensures key { IfOk result (λ h. h.key ≡ key) }
        ensures charge { IfOk result (λ h. h.charge ≡ Some charge) }
        ensures fits { IfOk result (λ h. F.fits key h.value) }
        ensures book { IfOk result (λ h.
            IsBookOf S.BuildHasher S.Hasher.Hasher K.hash_input self.now key h.book) }
        ensures error { IfErr result (λ e. IfInit e
            (λ x. FnOnceReturnsAt I.FnOnce init key (Err x))) }
    {
        self.get_or_try_init_by(&key, charge, init)
    }

    /// `get_or_try_init` with the key by reference. The key is copied only if its value is made.
    ///
    /// Returns `Init`, `Memory`, `Overflow` and `Full` as `get_or_try_init` does.
    #[inline(always)]
    pub fn get_or_try_init_by<E, I>(
        &self,
        key: &K,
        charge: u64,
        init: I,
    ) -> Result<CacheHandle<'_, K, V, R, F>, GetError<E>>
    where
        I: FnOnce(&K) -> Result<V, E> + Drop,
        requires charged { 0 < charge }
        requires callable { FnOnceTakesAt I.FnOnce init key.now }
        requires fits { (v : V) → FnOnceReturnsAt I.FnOnce init key.now (Ok v) → F.fits key.now v }
        ensures key { IfOk result (λ h. h.key ≡ key.now) }
        ensures charge { IfOk result (λ h. h.charge ≡ Some charge) }
        ensures fits { IfOk result (λ h. F.fits key.now h.value) }
        ensures book { IfOk result (λ h.
            IsBookOf S.BuildHasher S.Hasher.Hasher K.hash_input self.now key.now h.book) }
        ensures error { IfErr result (λ e. IfInit e
            (λ x. FnOnceReturnsAt I.FnOnce init key.now (Err x))) }
    {
        let (shard, tag) = self.route(key);
        let turn = match shard.enter(&self.rt, tag, key, charge) {
            Ok(turn) => turn,
            Err(refusal) => return Err(error_of(refusal)),
        };
        let found = match turn {
            Turn::Hit(found) => Ok(found),
            Turn::Make(ticket) => match init(key) {
                Ok(value) => shard.finish(&self.rt, tag, key, charge, value, ticket),
                Err(error) => {
                    shard.fail(&self.rt, ticket);
                    return Err(GetError::Init(error));
                }
            },
        };
        match found {
            Ok(found) => Ok(CacheHandle::new(&self.rt, shard, found, Some(charge))),
            Err(refusal) => Err(error_of(refusal)),
        }
    }

    /// `get_or_try_init` with an `init` that cannot fail. `get_or_init_by` takes the key by
    /// reference.
    ///
    /// Returns `Memory`, `Overflow` and `Full` as `get_or_try_init` does.
    #[inline(always)]
    pub fn get_or_init<I>(
        &self,
        key: K,
        charge: u64,
        init: I,
    ) -> Result<CacheHandle<'_, K, V, R, F>, Refusal>
    where
        I: FnOnce(&K) -> V + Drop,
        requires charged { 0 < charge }
        requires callable { FnOnceTakesAt I.FnOnce init key }
        requires fits { (v : V) → FnOnceReturnsAt I.FnOnce init key v → F.fits key v }
        ensures key { IfOk result (λ h. h.key ≡ key) }
        ensures charge { IfOk result (λ h. h.charge ≡ Some charge) }
        ensures fits { IfOk result (λ h. F.fits key h.value) }
        ensures book { IfOk result (λ h.
            IsBookOf S.BuildHasher S.Hasher.Hasher K.hash_input self.now key h.book) }
        ensures never_stale { IfErr result (λ e. e ≢ Refusal.Stale) }
    {
        self.get_or_init_by(&key, charge, init)
    }

    /// `get_or_try_init_by` with an `init` that cannot fail.
    ///
    /// Returns `Memory`, `Overflow` and `Full` as `get_or_try_init` does.
    #[inline(always)]
    pub fn get_or_init_by<I>(
        &self,
        key: &K,
        charge: u64,
        init: I,
    ) -> Result<CacheHandle<'_, K, V, R, F>, Refusal>
    where
        I: FnOnce(&K) -> V + Drop,
        requires charged { 0 < charge }
        requires callable { FnOnceTakesAt I.FnOnce init key.now }
        requires fits { (v : V) → FnOnceReturnsAt I.FnOnce init key.now v → F.fits key.now v }
        ensures key { IfOk result (λ h. h.key ≡ key.now) }
        ensures charge { IfOk result (λ h. h.charge ≡ Some charge) }
        ensures fits { IfOk result (λ h. F.fits key.now h.value) }
        ensures book { IfOk result (λ h.
            IsBookOf S.BuildHasher S.Hasher.Hasher K.hash_input self.now key.now h.book) }
        ensures never_stale { IfErr result (λ e. e ≢ Refusal.Stale) }
    {
        let (shard, tag) = self.route(key);
        let found = match shard.enter(&self.rt, tag, key, charge)? {
            Turn::Hit(found) => found,
            Turn::Make(ticket) => {
                let value = init(key);
                shard.finish(&self.rt, tag, key, charge, value, ticket)?
            }
        };
        Ok(CacheHandle::new(&self.rt, shard, found, Some(charge)))
    }

    /// `get_or_try_init_by` with an `init` that also returns the charge of the value: it need not
    /// be known before the value is made.
    ///
    /// The handle's charge is the one that `init` returned, or none if this call made no value.
    ///
    /// Returns `Init`, `Memory`, `Overflow` and `Full` as `get_or_try_init` does.
    #[inline(always)]
    pub fn get_or_try_init_with<E, I>(
        &self,
        key: &K,
        init: I,
    ) -> Result<CacheHandle<'_, K, V, R, F>, GetError<E>>
    where
        I: FnOnce(&K) -> Result<(V, u64), E> + Drop,
        requires callable { FnOnceTakesAt I.FnOnce init key.now }
        requires charged { (v : V) → (c : ℕ) → FnOnceReturnsAt I.FnOnce init key.now (Ok (v, c))
            → 0 < c }
        requires fits { (v : V) → (c : ℕ) → FnOnceReturnsAt I.FnOnce init key.now (Ok (v, c))
            → F.fits key.now v }
        ensures key { IfOk result (λ h. h.key ≡ key.now) }
        ensures charge { IfOk result (λ h. IfSome h.charge
            (λ c. FnOnceReturnsAt I.FnOnce init key.now (Ok (h.value, c)))) }
        ensures fits { IfOk result (λ h. F.fits key.now h.value) }
        ensures error { IfErr result (λ e. IfInit e
            (λ x. FnOnceReturnsAt I.FnOnce init key.now (Err x))) }
    {
        let (shard, tag) = self.route(key);
        // The least charge there is: if even that would overflow, no value is made in vain.
        let turn = match shard.enter(&self.rt, tag, key, 1) {
            Ok(turn) => turn,
            Err(refusal) => return Err(error_of(refusal)),
        };
        match turn {
            Turn::Hit(found) => Ok(CacheHandle::new(&self.rt, shard, found, None)),
            Turn::Make(ticket) => match init(key) {
                Ok((value, charge)) => {
                    match shard.finish(&self.rt, tag, key, charge, value, ticket) {
                        Ok(found) => Ok(CacheHandle::new(&self.rt, shard, found, Some(charge))),
                        Err(refusal) => Err(error_of(refusal)),
                    }
                }
                Err(error) => {
                    shard.fail(&self.rt, ticket);
                    Err(GetError::Init(error))
                }
            },
        }
    }

    /// `get_or_try_init_with` with an `init` that cannot fail.
    ///
    /// Returns `Memory`, `Overflow` and `Full` as `get_or_try_init` does.
    #[inline(always)]
    pub fn get_or_init_with<I>(
        &self,
        key: &K,
        init: I,
    ) -> Result<CacheHandle<'_, K, V, R, F>, Refusal>
    where
        I: FnOnce(&K) -> (V, u64) + Drop,
        requires callable { FnOnceTakesAt I.FnOnce init key.now }
        requires charged { (v : V) → (c : ℕ) → FnOnceReturnsAt I.FnOnce init key.now (v, c)
            → 0 < c }
        requires fits { (v : V) → (c : ℕ) → FnOnceReturnsAt I.FnOnce init key.now (v, c)
            → F.fits key.now v }
        ensures key { IfOk result (λ h. h.key ≡ key.now) }
        ensures charge { IfOk result (λ h. IfSome h.charge
            (λ c. FnOnceReturnsAt I.FnOnce init key.now (h.value, c))) }
        ensures fits { IfOk result (λ h. F.fits key.now h.value) }
        ensures never_stale { IfErr result (λ e. e ≢ Refusal.Stale) }
    {
        let (shard, tag) = self.route(key);
        match shard.enter(&self.rt, tag, key, 1)? {
            Turn::Hit(found) => Ok(CacheHandle::new(&self.rt, shard, found, None)),
            Turn::Make(ticket) => {
                let (value, charge) = init(key);
                let found = shard.finish(&self.rt, tag, key, charge, value, ticket)?;
                Ok(CacheHandle::new(&self.rt, shard, found, Some(charge)))
            }
        }
    }
}

// Converts a refusal by a call that takes no stamp, and so never returns `Stale`.
pub(super) fn error_of<E>(refusal: Refusal) -> GetError<E>
    requires { refusal ≢ Refusal.Stale }
    ensures not_init { IsNotInit result }
{
    match refusal {
        Refusal::Memory => GetError::Memory,
        Refusal::Overflow => GetError::Overflow,
        Refusal::Full => GetError::Full,
        Refusal::Stale => unreachable!(),
    }
}
