//! Handles that borrow nothing: each has an `Arc` of the cache, which keeps it alive, and a clone
//! of the value.
ghost use Rattle.std.specs.Prelude.{◌≡◌, ◌≢◌, ◌<◌, Some, None, Ok, Err, IfOk, IfErr, IfSome};
ghost use Rattle.std.specs.Prelude.{length};
ghost use Rattle.std.specs.Arc.{arc_value};
ghost use Rattle.std.specs.Fn.{FnOnceReturnsAt, FnOnceTakesAt};
ghost use Rattle.concurrent_lru.specs.ThreadedCalls.{IfInit};
ghost use Rattle.lru_clock.specs.Shards.{IsBookAt, IsBookOf, IsIndexOf};

use crate::clock::makings::error_of;
use crate::clock::{Cache, CacheHandle};
use crate::shard::Shard;
use crate::store::Hold;
use concurrent_lru::fit::{Anything, Fit};
use concurrent_lru::sharded::{GetError, Refusal};
use concurrent_lru::shown::Shown;
use std::fmt;
use std::hash::{BuildHasher, Hash, RandomState};
use std::marker::Model;
use std::ops::Deref;
use std::sync::{Arc, Wait};

/// A pinned value of a cache in an `Arc`, like `CacheHandle`, except that the handle keeps the
/// cache alive, and has a clone of the value. Dropping it releases the pin in the shard where it
/// was acquired, and then drops the clone and its `Arc` of the cache.
///
/// No type lets a handle borrow from a cache that it owns. So the values of a cache whose handles
/// are owned are best `Arc`s, whose clone is another owner of the same value.
///
/// Clauses see what they see of a `CacheHandle`, where `pinned` is the value of the entry, which
/// fits the key, and `value` is the handle's clone of it.
pub struct OwnedHandle<
    K: Hash + Eq + Clone,
    V,
    R: Wait,
    S: BuildHasher = RandomState,
    F: Fit<K, V> = Anything,
> {
    shard: OwnedShard<K, V, R, S, F>,
    hold: Hold<K, V, F>,
    value: V,
    charge: Shown<Option<u64>>,
    ghost home: { IsBookAt (arc_value shard.cache) shard.index hold.book },
}

impl<K: Hash + Eq + Clone, V, R: Wait, S: BuildHasher, F: Fit<K, V>> Model
    for OwnedHandle<K, V, R, S, F> {
    ghost use Rattle.lru_clock.specs.Pins.{OwnedOf};

    ghost Value = { OwnedOf K V };

    ghost view = { λ h. record {
      key = h.hold.key;
      charge = h.charge.value;
      pinned = h.hold.value;
      value = h.value;
      stored = h.hold.stored;
      book = h.hold.book;
      log = h.hold.log;
    } };
}

impl<K: Hash + Eq + Clone, V, R: Wait, S: BuildHasher, F: Fit<K, V>> OwnedHandle<K, V, R, S, F> {
    /// Returns the value. Acquires no lock.
    pub fn value(&self) -> &V
        ensures value { result.now ≡ self.now.value }
    {
        &self.value
    }
}

impl<
    K: Hash + Eq + Clone + Drop,
    V: Clone + Drop,
    R: Wait + Drop,
    S: BuildHasher + Drop,
    F: Fit<K, V>,
> OwnedHandle<K, V, R, S, F> {
    // Creates a handle of the entry of another, which is of this shard.
    //
    // Returns `Memory` if a clone of the value is refused, and `Overflow` if the entry has the
    // maximum number of owned handles.
    fn of(
        shard: OwnedShard<K, V, R, S, F>,
        handle: &CacheHandle<'_, K, V, R, F>,
    ) -> Result<Self, Refusal>
        requires home { IsBookAt (arc_value shard.cache) shard.index handle.now.book }
        ensures key { IfOk result (λ h. h.key ≡ handle.now.key) }
        ensures charge { IfOk result (λ h. h.charge ≡ handle.now.charge) }
        ensures pinned { IfOk result (λ h. h.pinned ≡ handle.now.value) }
        ensures value { IfOk result (λ h. V.is_clone h.pinned h.value) }
        ensures fits { IfOk result (λ h. F.fits h.key h.pinned) }
        ensures stored { IfOk result (λ h. h.stored ≡ handle.now.stored) }
        ensures book { IfOk result (λ h. h.book ≡ handle.now.book) }
        ensures never_stale { IfErr result (λ e. e ≢ Refusal.Stale) }
    {
        let value = handle.value().clone()?;
        let (hold, charge) = handle.hold()?;
        Ok(OwnedHandle {
            shard,
            hold,
            value,
            charge,
        })
    }

    /// Returns another handle of the same entry, as `CacheHandle::try_clone` does, with a clone of
    /// this handle's value. It keeps the cache alive too.
    ///
    /// Returns `Overflow` if the entry has the maximum number of owned handles, and `Memory` if a
    /// copy of the `Arc` of the cache or a clone of the value is refused; then nothing is pinned.
    pub fn try_clone(&self) -> Result<OwnedHandle<K, V, R, S, F>, Refusal>
        ensures key { IfOk result (λ h. h.key ≡ self.now.key) }
        ensures charge { IfOk result (λ h. h.charge ≡ self.now.charge) }
        ensures pinned { IfOk result (λ h. h.pinned ≡ self.now.pinned) }
        ensures value { IfOk result (λ h. V.is_clone self.now.value h.value) }
        ensures fits { IfOk result (λ h. F.fits h.key h.pinned) }
        ensures stored { IfOk result (λ h. h.stored ≡ self.now.stored) }
        ensures book { IfOk result (λ h. h.book ≡ self.now.book) }
        ensures never_stale { IfErr result (λ e. e ≢ Refusal.Stale) }
    {
        let shard = self.shard.again()?;
        let value = self.value.clone()?;
        let hold = self.shard.get().hold_again(&self.hold)?;
        Ok(OwnedHandle {
            shard,
            hold,
            value,
            charge: self.charge.again(),
        })
    }
}

impl<K: Hash + Eq + Clone, V, R: Wait, S: BuildHasher, F: Fit<K, V>> Deref
    for OwnedHandle<K, V, R, S, F> {
    type Target = V;

    ghost deref_gives = { λ h v. v ≡ h.value };

    fn deref(&self) -> &V
        ensures value { result.now ≡ self.now.value }
    {
        self.value()
    }
}

// Prints what the value prints.
impl<K: Hash + Eq + Clone, V: fmt::Debug, R: Wait, S: BuildHasher, F: Fit<K, V>> fmt::Debug
    for OwnedHandle<K, V, R, S, F> {
    ghost debug_output = { λ h. V.debug_output h.value };

    fn fmt<W: fmt::Write>(&self, f: &mut fmt::Formatter<W>) -> fmt::Result {
        fmt::Debug::fmt(self.value(), f)
    }
}

// Releases the pin as the drop of a `CacheHandle` does, before the `Arc` of the cache, which may be
// the last, is dropped.
impl<K: Hash + Eq + Clone + Drop, V: Drop, R: Wait + Drop, S: BuildHasher + Drop, F: Fit<K, V>> Drop
    for OwnedHandle<K, V, R, S, F> {
    fn drop(self) {
        let Self {
            shard,
            hold,
            value,
            charge: _,
        } = self;
        shard.get().end_hold(&shard.cache.rt, hold);
        drop(value);
        drop(shard);
    }
}

// One shard of a cache in an `Arc`, which it keeps alive.
#[derive(Drop)]
struct OwnedShard<K: Hash + Eq + Clone, V, R: Wait, S: BuildHasher, F: Fit<K, V>> {
    cache: Arc<Cache<K, V, R, S, F>>,
    index: usize,
    ghost within: { index < length (arc_value cache).books },
}

impl<
    K: Hash + Eq + Clone + Drop,
    V: Drop,
    R: Wait + Drop,
    S: BuildHasher + Drop,
    F: Fit<K, V>,
> OwnedShard<K, V, R, S, F> {
    // Returns the shard that serves a key.
    //
    // Returns `Memory` if the copy of the `Arc` is refused.
    fn of(cache: &Arc<Cache<K, V, R, S, F>>, key: &K) -> Result<Self, Refusal>
        ensures cache { IfOk result (λ shard. arc_value shard.cache ≡ arc_value cache.now) }
        ensures index { IfOk result (λ shard. IsIndexOf S.BuildHasher S.Hasher.Hasher K.hash_input
            (arc_value cache.now) key.now shard.index) }
        ensures err { IfErr result (λ e. e ≡ Refusal.Memory) }
    {
        let index = cache.index_of(key);
        let cache = Arc::try_clone(cache)?;
        Ok(OwnedShard { cache, index })
    }

    // Returns the same shard, with another `Arc` of the cache.
    //
    // Returns `Memory` if the copy of the `Arc` is refused.
    fn again(&self) -> Result<Self, Refusal>
        ensures same { IfOk result (λ shard. (arc_value shard.cache ≡ arc_value self.now.cache)
            × (shard.index ≡ self.now.index)) }
        ensures err { IfErr result (λ e. e ≡ Refusal.Memory) }
    {
        let cache = Arc::try_clone(&self.cache)?;
        Ok(OwnedShard {
            cache,
            index: self.index,
        })
    }

    // Returns the shard.
    fn get(&self) -> &Shard<K, V, F>
        ensures { IsBookAt (arc_value self.now.cache) self.now.index
            result.now.core.store.chronicle.first.book }
    {
        self.cache.shard_at(self.index)
    }
}

impl<
    K: Hash + Eq + Clone + Drop,
    V: Clone + Drop,
    R: Wait + Drop,
    S: BuildHasher + Drop,
    F: Fit<K, V>,
> Cache<K, V, R, S, F> {
    /// `find`, with a handle that borrows nothing and keeps the cache alive.
    ///
    /// Returns `Overflow` as `find` does, and also if the entry has the maximum number of owned
    /// handles. Returns `Memory` if a copy of the `Arc` or a clone of the value is refused. Then
    /// nothing is pinned.
    pub fn get_owned(
        this: &Arc<Cache<K, V, R, S, F>>,
        key: &K,
    ) -> Result<Option<OwnedHandle<K, V, R, S, F>>, Refusal>
        ensures key { IfOk result (λ found. IfSome found (λ h. h.key ≡ key.now)) }
        ensures charge { IfOk result (λ found. IfSome found (λ h. h.charge ≡ None)) }
        ensures fits { IfOk result (λ found. IfSome found (λ h. F.fits key.now h.pinned)) }
        ensures value { IfOk result (λ found. IfSome found (λ h. V.is_clone h.pinned h.value)) }
        ensures book { IfOk result (λ found. IfSome found (λ h. IsBookOf S.BuildHasher
            S.Hasher.Hasher K.hash_input (arc_value this.now) key.now h.book)) }
        ensures never_stale { IfErr result (λ e. e ≢ Refusal.Stale) }
    {
        let shard = OwnedShard::of(this, key)?;
        match this.find(key)? {
            Some(handle) => Ok(Some(OwnedHandle::of(shard, &handle)?)),
            None => Ok(None),
        }
    }

    /// `get_or_init_by`, with a handle that borrows nothing and keeps the cache alive.
    ///
    /// Returns `Memory`, `Overflow` and `Full` as `get_or_init_by` does. Returns `Memory` also if a
    /// copy of the `Arc` is refused; `init` is then dropped without being called. Returns `Memory`
    /// and `Overflow` also as `get_owned` does for a clone of the value and for the handle; a value
    /// that was made then stays in the cache. Nothing is pinned in any case.
    pub fn get_or_init_owned<I>(
        this: &Arc<Cache<K, V, R, S, F>>,
        key: &K,
        charge: u64,
        init: I,
    ) -> Result<OwnedHandle<K, V, R, S, F>, Refusal>
    where
        I: FnOnce(&K) -> V + Drop,
        requires charged { 0 < charge }
        requires callable { FnOnceTakesAt I.FnOnce init key.now }
        requires fits { (v : V) → FnOnceReturnsAt I.FnOnce init key.now v → F.fits key.now v }
        ensures key { IfOk result (λ h. h.key ≡ key.now) }
        ensures charge { IfOk result (λ h. h.charge ≡ Some charge) }
        ensures fits { IfOk result (λ h. F.fits key.now h.pinned) }
        ensures value { IfOk result (λ h. V.is_clone h.pinned h.value) }
        ensures book { IfOk result (λ h. IsBookOf S.BuildHasher S.Hasher.Hasher K.hash_input
            (arc_value this.now) key.now h.book) }
        ensures never_stale { IfErr result (λ e. e ≢ Refusal.Stale) }
    {
        let shard = OwnedShard::of(this, key)?;
        let handle = this.get_or_init_by(key, charge, init)?;
        OwnedHandle::of(shard, &handle)
    }

    /// `get_or_try_init_by`, with a handle that borrows nothing and keeps the cache alive.
    ///
    /// Returns `Init`, `Memory`, `Overflow` and `Full` as `get_or_try_init_by` does, and `Memory`
    /// and `Overflow` also as `get_or_init_owned` does.
    pub fn get_or_try_init_owned<E, I>(
        this: &Arc<Cache<K, V, R, S, F>>,
        key: &K,
        charge: u64,
        init: I,
    ) -> Result<OwnedHandle<K, V, R, S, F>, GetError<E>>
    where
        I: FnOnce(&K) -> Result<V, E> + Drop,
        requires charged { 0 < charge }
        requires callable { FnOnceTakesAt I.FnOnce init key.now }
        requires fits { (v : V) → FnOnceReturnsAt I.FnOnce init key.now (Ok v) → F.fits key.now v }
        ensures key { IfOk result (λ h. h.key ≡ key.now) }
        ensures charge { IfOk result (λ h. h.charge ≡ Some charge) }
        ensures fits { IfOk result (λ h. F.fits key.now h.pinned) }
        ensures value { IfOk result (λ h. V.is_clone h.pinned h.value) }
        ensures book { IfOk result (λ h. IsBookOf S.BuildHasher S.Hasher.Hasher K.hash_input
            (arc_value this.now) key.now h.book) }
        ensures error { IfErr result (λ e. IfInit e
            (λ x. FnOnceReturnsAt I.FnOnce init key.now (Err x))) }
    {
        let Ok(shard) = OwnedShard::of(this, key) else {
            return Err(GetError::Memory);
        };
        let handle = this.get_or_try_init_by(key, charge, init)?;
        match OwnedHandle::of(shard, &handle) {
            Ok(handle) => Ok(handle),
            Err(refusal) => Err(error_of(refusal)),
        }
    }
}
