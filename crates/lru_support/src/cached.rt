//! One trait for references to any of the three caches that threads share.
//!
//! Keys are `u64`. Lookups are inlined, because the benchmark times them through this trait.
ghost use Rattle.std.specs.Prelude.{◌<◌};
ghost use Rattle.std.specs.Fn.{FnOnceTakesAt};

use concurrent_lru::lru_core::Refusal;
use concurrent_lru::unsharded::GetError;
use concurrent_lru::{sharded, unsharded};
use lru_clock::clock;
use std::hash::BuildHasher;
use std::sync::Wait;

/// A reference to a cache of values `V`.
pub trait Cached<V>: Copy {
    /// A handle, which pins a value.
    type Handle: Drop;

    /// Returns a handle's value.
    fn value_of(handle: &Self::Handle) -> &V;

    /// Calls `get`.
    fn get(self, key: u64) -> Result<Option<Self::Handle>, Refusal>;

    /// Calls `read`.
    fn read<T, G>(self, key: u64, reader: G) -> Result<Option<T>, Refusal>
    where
        G: FnOnce(&V) -> T + Drop,
        requires callable { (v : V) → FnOnceTakesAt G.FnOnce reader v };

    /// Calls `get_or_init`.
    fn get_or_init<I>(self, key: u64, charge: u64, init: I) -> Result<Self::Handle, Refusal>
    where
        I: FnOnce(&u64) -> V + Drop,
        requires charged { 0 < charge }
        requires callable { FnOnceTakesAt I.FnOnce init key };

    /// Calls `get_or_try_init`.
    fn get_or_try_init<E, I>(
        self,
        key: u64,
        charge: u64,
        init: I,
    ) -> Result<Self::Handle, GetError<E>>
    where
        I: FnOnce(&u64) -> Result<V, E> + Drop,
        requires charged { 0 < charge }
        requires callable { FnOnceTakesAt I.FnOnce init key };

    /// Calls `advice_evict`.
    fn advice_evict(self, key: u64);

    /// Calls `invalidate`.
    fn invalidate(self, key: u64);

    /// Calls `insert`.
    fn insert(self, key: u64, charge: u64, value: V) -> Result<Self::Handle, Refusal>
        requires { 0 < charge };

    /// Calls `prune`.
    fn prune(self);

    /// Calls `set_capacity`.
    fn set_capacity(self, capacity: u64);

    /// Calls `reserve`.
    fn reserve(self, entries: usize) -> Result<(), Refusal>;

    /// Calls `total_charge`.
    fn total_charge(self) -> u128;

    /// Calls `contains`.
    fn contains(self, key: u64) -> bool;
}

impl<'a, V: Drop, R: Wait> Cached<V> for &'a unsharded::LruCache<u64, V, R> {
    type Handle = unsharded::CacheHandle<'a, u64, V, R>;

    #[inline(always)]
    fn value_of(handle: &Self::Handle) -> &V {
        handle.value()
    }

    #[inline(always)]
    fn get(self, key: u64) -> Result<Option<Self::Handle>, Refusal> {
        unsharded::LruCache::get(self, key)
    }

    #[inline(always)]
    fn read<T, G>(self, key: u64, reader: G) -> Result<Option<T>, Refusal>
    where
        G: FnOnce(&V) -> T + Drop,
        requires callable { (v : V) → FnOnceTakesAt G.FnOnce reader v }
    {
        unsharded::LruCache::read(self, &key, reader)
    }

    #[inline(always)]
    fn get_or_init<I>(self, key: u64, charge: u64, init: I) -> Result<Self::Handle, Refusal>
    where
        I: FnOnce(&u64) -> V + Drop,
        requires charged { 0 < charge }
        requires callable { FnOnceTakesAt I.FnOnce init key }
    {
        unsharded::LruCache::get_or_init(self, key, charge, init)
    }

    #[inline(always)]
    fn get_or_try_init<E, I>(
        self,
        key: u64,
        charge: u64,
        init: I,
    ) -> Result<Self::Handle, GetError<E>>
    where
        I: FnOnce(&u64) -> Result<V, E> + Drop,
        requires charged { 0 < charge }
        requires callable { FnOnceTakesAt I.FnOnce init key }
    {
        unsharded::LruCache::get_or_try_init(self, key, charge, init)
    }

    fn advice_evict(self, key: u64) {
        unsharded::LruCache::advice_evict(self, key);
    }

    fn invalidate(self, key: u64) {
        unsharded::LruCache::invalidate(self, &key);
    }

    fn insert(self, key: u64, charge: u64, value: V) -> Result<Self::Handle, Refusal>
        requires { 0 < charge }
    {
        unsharded::LruCache::insert(self, &key, charge, value)
    }

    fn prune(self) {
        unsharded::LruCache::prune(self);
    }

    fn set_capacity(self, capacity: u64) {
        unsharded::LruCache::set_capacity(self, capacity);
    }

    fn reserve(self, entries: usize) -> Result<(), Refusal> {
        unsharded::LruCache::reserve(self, entries)
    }

    fn total_charge(self) -> u128 {
        u128::from(unsharded::LruCache::total_charge(self))
    }

    fn contains(self, key: u64) -> bool {
        unsharded::LruCache::contains(self, &key)
    }
}

impl<'a, V: Drop, R: Wait, S: BuildHasher> Cached<V> for &'a sharded::LruCache<u64, V, R, S> {
    type Handle = sharded::CacheHandle<'a, u64, V, R>;

    #[inline(always)]
    fn value_of(handle: &Self::Handle) -> &V {
        handle.value()
    }

    #[inline(always)]
    fn get(self, key: u64) -> Result<Option<Self::Handle>, Refusal> {
        sharded::LruCache::get(self, key)
    }

    #[inline(always)]
    fn read<T, G>(self, key: u64, reader: G) -> Result<Option<T>, Refusal>
    where
        G: FnOnce(&V) -> T + Drop,
        requires callable { (v : V) → FnOnceTakesAt G.FnOnce reader v }
    {
        sharded::LruCache::read(self, &key, reader)
    }

    #[inline(always)]
    fn get_or_init<I>(self, key: u64, charge: u64, init: I) -> Result<Self::Handle, Refusal>
    where
        I: FnOnce(&u64) -> V + Drop,
        requires charged { 0 < charge }
        requires callable { FnOnceTakesAt I.FnOnce init key }
    {
        sharded::LruCache::get_or_init(self, key, charge, init)
    }

    #[inline(always)]
    fn get_or_try_init<E, I>(
        self,
        key: u64,
        charge: u64,
        init: I,
    ) -> Result<Self::Handle, GetError<E>>
    where
        I: FnOnce(&u64) -> Result<V, E> + Drop,
        requires charged { 0 < charge }
        requires callable { FnOnceTakesAt I.FnOnce init key }
    {
        sharded::LruCache::get_or_try_init(self, key, charge, init)
    }

    fn advice_evict(self, key: u64) {
        sharded::LruCache::advice_evict(self, key);
    }

    fn invalidate(self, key: u64) {
        sharded::LruCache::invalidate(self, &key);
    }

    fn insert(self, key: u64, charge: u64, value: V) -> Result<Self::Handle, Refusal>
        requires { 0 < charge }
    {
        sharded::LruCache::insert(self, &key, charge, value)
    }

    fn prune(self) {
        sharded::LruCache::prune(self);
    }

    fn set_capacity(self, capacity: u64) {
        sharded::LruCache::set_capacity(self, capacity);
    }

    fn reserve(self, entries: usize) -> Result<(), Refusal> {
        sharded::LruCache::reserve(self, entries)
    }

    fn total_charge(self) -> u128 {
        sharded::LruCache::total_charge(self)
    }

    fn contains(self, key: u64) -> bool {
        sharded::LruCache::contains(self, &key)
    }
}

impl<'a, V: Drop, R: Wait, S: BuildHasher> Cached<V> for &'a clock::Cache<u64, V, R, S> {
    type Handle = clock::CacheHandle<'a, u64, V, R>;

    #[inline(always)]
    fn value_of(handle: &Self::Handle) -> &V {
        handle.value()
    }

    #[inline(always)]
    fn get(self, key: u64) -> Result<Option<Self::Handle>, Refusal> {
        clock::Cache::get(self, key)
    }

    #[inline(always)]
    fn read<T, G>(self, key: u64, reader: G) -> Result<Option<T>, Refusal>
    where
        G: FnOnce(&V) -> T + Drop,
        requires callable { (v : V) → FnOnceTakesAt G.FnOnce reader v }
    {
        clock::Cache::read(self, &key, reader)
    }

    #[inline(always)]
    fn get_or_init<I>(self, key: u64, charge: u64, init: I) -> Result<Self::Handle, Refusal>
    where
        I: FnOnce(&u64) -> V + Drop,
        requires charged { 0 < charge }
        requires callable { FnOnceTakesAt I.FnOnce init key }
    {
        clock::Cache::get_or_init(self, key, charge, init)
    }

    #[inline(always)]
    fn get_or_try_init<E, I>(
        self,
        key: u64,
        charge: u64,
        init: I,
    ) -> Result<Self::Handle, GetError<E>>
    where
        I: FnOnce(&u64) -> Result<V, E> + Drop,
        requires charged { 0 < charge }
        requires callable { FnOnceTakesAt I.FnOnce init key }
    {
        clock::Cache::get_or_try_init(self, key, charge, init)
    }

    fn advice_evict(self, key: u64) {
        clock::Cache::advice_evict(self, key);
    }

    fn invalidate(self, key: u64) {
        clock::Cache::invalidate(self, &key);
    }

    fn insert(self, key: u64, charge: u64, value: V) -> Result<Self::Handle, Refusal>
        requires { 0 < charge }
    {
        clock::Cache::insert(self, &key, charge, value)
    }

    fn prune(self) {
        clock::Cache::prune(self);
    }

    fn set_capacity(self, capacity: u64) {
        clock::Cache::set_capacity(self, capacity);
    }

    fn reserve(self, entries: usize) -> Result<(), Refusal> {
        clock::Cache::reserve(self, entries)
    }

    fn total_charge(self) -> u128 {
        clock::Cache::total_charge(self)
    }

    fn contains(self, key: u64) -> bool {
        clock::Cache::contains(self, &key)
    }
}
