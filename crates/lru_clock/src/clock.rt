//! A cache in shards whose hits take no lock, for any number of threads.
//!
//! A hasher chooses the shard of a key. A hit pins its entry by a compare-exchange, and dropping
//! its handle is one subtraction; clones of handles, owned handles and pasts take no lock either.
//! All other calls take the lock of the key's shard.
ghost use Rattle.std.specs.Prelude.{◌≡◌, ◌≢◌, ◌<◌, ◌/◌, Some, None, Ok, Err, IfOk, IfErr, IfSome};
ghost use Rattle.std.specs.Prelude.{length, vec_len};
ghost use Rattle.std.specs.Fn.{FnOnceReturnsAt, FnOnceTakesAt};
ghost use Rattle.concurrent_lru.specs.Cache.{CopiesAreEqual};
ghost use Rattle.concurrent_lru.specs.ThreadedCalls.{IfInit, IsNotInit};
ghost use Rattle.lru_clock.specs.Shards.{IsBookAt, IsBookOf, IsEvidenceOf, IsIndexOf, IsShardOf};
ghost use Rattle.lru_clock.specs.Shards.{IsTagOf};
ghost use Rattle.concurrent_lru.specs.Sharded.{key_number};

mod maker;
mod makings;
mod owned;
mod pasts;
mod sums;

pub use crate::clock::maker::{Begun, Maker};
pub use crate::clock::owned::OwnedHandle;
pub use crate::clock_core::Invalidated;
pub use crate::handle::CacheHandle;
pub use crate::history::past::Past;
use crate::shard::Shard;
pub use crate::shard_state::Counts;
use crate::store::MOST_PINS;
pub use concurrent_lru::fit::{Anything, Fit};
use concurrent_lru::sharded::capacity_per_shard;
pub use concurrent_lru::sharded::{GetError, Refusal};
use std::alloc::Global;
use std::fmt;
use std::hash::{BuildHasher, Hash, RandomState};
use std::marker::Model;
use std::sync::Wait;

// The number of shards of a cache that is created without a number.
const DEFAULT_SHARDS: usize = 16;

/// A cache that threads share, in shards that each have a lock and a share of the capacity. `R` is
/// the right to wait, `S` hashes the keys, and `F` is the mark, which relates values to keys.
///
/// Whenever the lock of a shard is acquired, the shard's total is the sum of the charges of its
/// entries.
///
/// Clauses see the hasher, and a name for the history of each shard.
#[derive(Drop)]
pub struct Cache<
    K: Hash + Eq + Clone,
    V,
    R: Wait,
    S: BuildHasher = RandomState,
    F: Fit<K, V> = Anything,
> {
    rt: R,
    hasher: S,
    shards: Vec<Shard<K, V, F>>,
    ghost some: { 0 < vec_len shards },
}

impl<K: Hash + Eq + Clone, V, R: Wait, S: BuildHasher, F: Fit<K, V>> Model
    for Cache<K, V, R, S, F> {
    ghost use Rattle.std.specs.Prelude.{map};
    ghost use Rattle.lru_clock.specs.Shards.{CacheOf};

    ghost Value = { CacheOf S };

    ghost view = { λ c. record {
      hasher = c.hasher;
      books = map (λ s. s.core.store.chronicle.first.book) c.shards.items;
    } };
}

impl<K: Hash + Eq + Clone + Drop, V: Drop, R: Wait + Drop> Cache<K, V, R, RandomState, Anything> {
    /// Creates an empty cache of 16 shards. Whoever creates it promises that a copy of a key equals
    /// the key.
    ///
    /// Returns `Memory` if there is no room for the shards.
    pub fn new(alloc: Global, rt: R, capacity: u64, hasher: RandomState) -> Result<Self, Refusal>
        requires copies { CopiesAreEqual K.is_clone K.eq }
        ensures err { IfErr result (λ e. e ≡ Refusal.Memory) }
    {
        Cache::marked(alloc, rt, capacity, DEFAULT_SHARDS, hasher)
    }

    /// `new` with one or more shards.
    ///
    /// Returns `Memory` as `new` does.
    pub fn with_shards(
        alloc: Global,
        rt: R,
        capacity: u64,
        shards: usize,
        hasher: RandomState,
    ) -> Result<Self, Refusal>
        requires some { 0 < shards }
        requires copies { CopiesAreEqual K.is_clone K.eq }
        ensures err { IfErr result (λ e. e ≡ Refusal.Memory) }
    {
        Cache::marked(alloc, rt, capacity, shards, hasher)
    }
}

impl<K: Hash + Eq + Clone + Drop, V: Drop, R: Wait + Drop, S: BuildHasher + Drop> Cache<
    K,
    V,
    R,
    S,
    Anything,
> {
    /// Creates an empty cache of one or more shards, each with its share of the capacity: the
    /// quotient by the number of shards, rounded up.
    ///
    /// Returns `Memory` as `new` does.
    pub fn with_shards_hasher(
        alloc: Global,
        rt: R,
        capacity: u64,
        shards: usize,
        hasher: S,
    ) -> Result<Self, Refusal>
        requires some { 0 < shards }
        requires copies { CopiesAreEqual K.is_clone K.eq }
        ensures err { IfErr result (λ e. e ≡ Refusal.Memory) }
    {
        Cache::marked(alloc, rt, capacity, shards, hasher)
    }
}

impl<
    K: Hash + Eq + Clone + Drop,
    V: Drop,
    R: Wait + Drop,
    S: BuildHasher + Drop,
    F: Fit<K, V>,
> Cache<K, V, R, S, F> {
    /// Creates an empty cache with the mark `F`, otherwise as `with_shards_hasher` does.
    ///
    /// Returns `Memory` as `new` does.
    pub fn marked(
        alloc: Global,
        rt: R,
        capacity: u64,
        shards: usize,
        hasher: S,
    ) -> Result<Self, Refusal>
        requires some { 0 < shards }
        requires copies { CopiesAreEqual K.is_clone K.eq }
        ensures err { IfErr result (λ e. e ≡ Refusal.Memory) }
    {
        Cache::with_most_pins(alloc, rt, capacity, shards, hasher, MOST_PINS)
    }

    /// `marked` with another maximum number of pins of an entry, from 1 to 1,073,741,822, which is
    /// the default. A number outside that range stands for the nearest number in it. A caller that
    /// compares an entry's key has the entry pinned meanwhile. Owned handles are counted by
    /// themselves, with the same maximum.
    ///
    /// Returns `Memory` as `new` does.
    pub fn with_most_pins(
        alloc: Global,
        rt: R,
        capacity: u64,
        shards: usize,
        hasher: S,
        most_pins: u64,
    ) -> Result<Self, Refusal>
        requires some { 0 < shards }
        requires copies { CopiesAreEqual K.is_clone K.eq }
        ensures err { IfErr result (λ e. e ≡ Refusal.Memory) }
    {
        let share = capacity_per_shard(capacity, shards);
        let most_pins = most_pins.max(1).min(MOST_PINS);
        let mut all = Vec::new(alloc);
        for _ in 0..shards {
            all.push(Shard::new(alloc, share, most_pins)?)?;
        }
        Ok(Cache {
            rt,
            hasher,
            shards: all,
        })
    }
}

impl<K: Hash + Eq + Clone + Drop, V: Drop, R: Wait, S: BuildHasher, F: Fit<K, V>> Cache<
    K,
    V,
    R,
    S,
    F,
> {
    // Returns the shard of a key and the tag under which the shard's index has the key.
    #[inline(always)]
    fn route(&self, key: &K) -> (&Shard<K, V, F>, u32)
        ensures book { IsBookOf S.BuildHasher S.Hasher.Hasher K.hash_input self.now key.now
            result.0.now.core.store.chronicle.first.book }
        ensures tag { IsTagOf S.BuildHasher S.Hasher.Hasher K.hash_input self.now key.now result.1 }
    {
        choose_shard(&self.hasher, &self.shards, key)
    }

    // Returns the index of the shard of a key.
    fn index_of(&self, key: &K) -> usize
        ensures index { IsIndexOf S.BuildHasher S.Hasher.Hasher K.hash_input self.now key.now
            result }
        ensures within { result < length self.now.books }
    {
        (self.hasher.hash_one(key) % self.shards.len() as u64) as usize
    }

    // Returns the shard of an index.
    fn shard_at(&self, index: usize) -> &Shard<K, V, F>
        requires within { index < length self.now.books }
        ensures { IsBookAt self.now index result.now.core.store.chronicle.first.book }
    {
        &self.shards[index]
    }

    /// Reserves room in each shard for its share of `entries` entries, those present included, one
    /// shard after another. A shard that gets more entries than that grows under its lock.
    ///
    /// Returns `Memory` if the allocator refuses, and `Overflow` if a share is above 4,294,966,784.
    /// No entry changes in either case, though some room may have been reserved.
    pub fn reserve(&self, entries: usize) -> Result<(), Refusal>
        ensures never_stale { IfErr result (λ e. e ≢ Refusal.Stale) }
    {
        let share = entries.div_ceil(self.shards.len());
        for shard in &self.shards {
            shard.reserve(&self.rt, share)?;
        }
        Ok(())
    }

    /// Returns a handle of the key's value if it is ready, and `None` if the key has no entry or
    /// its value is still being made. A hit acquires no lock; a miss looks once more under the lock
    /// of the shard. Never waits for a maker. `find` takes the key by reference.
    ///
    /// Returns `Overflow` if the entry has the maximum number of pins.
    #[inline(always)]
    pub fn get(&self, key: K) -> Result<Option<CacheHandle<'_, K, V, R, F>>, Refusal>
        ensures key { IfOk result (λ found. IfSome found (λ h. h.key ≡ key)) }
        ensures charge { IfOk result (λ found. IfSome found (λ h. h.charge ≡ None)) }
        ensures fits { IfOk result (λ found. IfSome found (λ h. F.fits key h.value)) }
        ensures book { IfOk result (λ found. IfSome found (λ h.
            IsBookOf S.BuildHasher S.Hasher.Hasher K.hash_input self.now key h.book)) }
        ensures never_stale { IfErr result (λ e. e ≢ Refusal.Stale) }
    {
        self.find(&key)
    }

    /// `get` with the key by reference. The key is not copied.
    ///
    /// Returns `Overflow` as `get` does.
    #[inline(always)]
    pub fn find(&self, key: &K) -> Result<Option<CacheHandle<'_, K, V, R, F>>, Refusal>
        ensures key { IfOk result (λ found. IfSome found (λ h. h.key ≡ key.now)) }
        ensures charge { IfOk result (λ found. IfSome found (λ h. h.charge ≡ None)) }
        ensures fits { IfOk result (λ found. IfSome found (λ h. F.fits key.now h.value)) }
        ensures book { IfOk result (λ found. IfSome found (λ h.
            IsBookOf S.BuildHasher S.Hasher.Hasher K.hash_input self.now key.now h.book)) }
        ensures never_stale { IfErr result (λ e. e ≢ Refusal.Stale) }
    {
        let (shard, tag) = self.route(key);
        match shard.pin(&self.rt, tag, key, &None)? {
            Some(found) => Ok(Some(CacheHandle::new(&self.rt, shard, found, None))),
            None => Ok(None),
        }
    }

    /// Calls `reader` with the key's value, if it is ready, and returns its result. Returns `None`
    /// if the key has no entry or its value is still being made; `reader` is then dropped without
    /// being called.
    ///
    /// This is a `get` whose handle is dropped after `reader` has returned: the entry is pinned
    /// meanwhile, and `reader` runs without a lock, so it may run for long and use this cache.
    ///
    /// Returns `Overflow` as `get` does.
    #[inline(always)]
    pub fn read<T, G>(&self, key: &K, reader: G) -> Result<Option<T>, Refusal>
    where
        G: FnOnce(&V) -> T + Drop,
        requires callable { (v : V) → F.fits key.now v → FnOnceTakesAt G.FnOnce reader v }
        ensures fits { IfOk result (λ found. IfSome found
            (λ t. (v : V) × F.fits key.now v × FnOnceReturnsAt G.FnOnce reader v t)) }
        ensures never_stale { IfErr result (λ e. e ≢ Refusal.Stale) }
    {
        match self.find(key)? {
            Some(handle) => Ok(Some(reader(handle.value()))),
            None => Ok(None),
        }
    }

    /// Inserts a value for a key, replacing the key's entry, and returns a handle of the value. The
    /// key is invalidated, even if its old value is pinned or being made, and the new entry is
    /// stored in the same step. Before that, entries are evicted to make room, for which the charge
    /// of the key's entry counts if nobody has pinned it; that entry may be among them.
    ///
    /// Returns `Overflow` if the charge would take the shard's total, with the old entry still
    /// counted, past `u64::MAX`, `Full` if the limit is strict (`set_strict_limit`) and leaves no
    /// room for the new entry, and `Memory` if a copy of the key or a slot is refused. Then the
    /// value is dropped, and the key's entry stays as it was, unless it was evicted to make room,
    /// which other callers then took.
    pub fn insert(
        &self,
        key: &K,
        charge: u64,
        value: V,
    ) -> Result<CacheHandle<'_, K, V, R, F>, Refusal>
        requires charged { 0 < charge }
        requires fits { F.fits key.now value }
        ensures key { IfOk result (λ h. h.key ≡ key.now) }
        ensures charge { IfOk result (λ h. h.charge ≡ Some charge) }
        ensures fits { IfOk result (λ h. F.fits key.now h.value) }
        ensures book { IfOk result (λ h.
            IsBookOf S.BuildHasher S.Hasher.Hasher K.hash_input self.now key.now h.book) }
        ensures value { IfOk result (λ h. h.value ≡ value) }
        ensures stored { IfOk result (λ h. h.stored ≡ Some charge) }
        ensures never_stale { IfErr result (λ e. e ≢ Refusal.Stale) }
    {
        let (shard, tag) = self.route(key);
        let found = shard.insert(&self.rt, tag, key, charge, value)?;
        Ok(CacheHandle::new(&self.rt, shard, found, Some(charge)))
    }

    /// Evicts the entry of a key, even a recently used one, if nobody has pinned it. Otherwise
    /// nothing happens, now or later. Takes no memory. `advise` takes the key by reference.
    pub fn advice_evict(&self, key: K) {
        self.advise(&key);
    }

    /// `advice_evict` with the key by reference.
    pub fn advise(&self, key: &K) {
        let (shard, tag) = self.route(key);
        shard.advise(&self.rt, tag, key);
    }

    /// Invalidates a key: whoever asks for it after this call gets a value that is made or inserted
    /// later, even while others have the old one pinned. An entry that nobody has pinned is removed
    /// at once. A pinned entry stays for its handles alone, and is removed when the last of them is
    /// dropped. Copies no key and takes no memory.
    ///
    /// Returns evidence for clauses that it did, which may be dropped.
    pub fn invalidate(&self, key: &K) -> Invalidated<K, V>
        ensures evidence { IsEvidenceOf S.BuildHasher S.Hasher.Hasher K.hash_input self.now key.now
            result }
    {
        let (shard, tag) = self.route(key);
        shard.invalidate(&self.rt, tag, key)
    }

    /// Evicts every entry that nobody has pinned, one shard after another, so the call is not
    /// atomic. Takes no memory.
    pub fn prune(&self) {
        for shard in &self.shards {
            shard.prune(&self.rt);
        }
    }

    /// Invalidates every key, as `invalidate` does one: no later call finds what a key had when the
    /// call began, and a value that is being made is for its maker alone. Takes no memory.
    ///
    /// The lock of a shard is acquired for one entry at a time, so the call is not atomic: an entry
    /// that other callers add meanwhile may stay or leave. Visits every slot.
    pub fn clear(&self) {
        for shard in &self.shards {
            shard.clear(&self.rt);
        }
    }

    /// Invalidates, as `invalidate` does, the key of each entry for which `keep` returns `false`.
    /// `keep` is called with the key, the value and the charge of each entry that its key finds, in
    /// an unspecified order. Values that are being made stay. Does not count as a use of an entry.
    /// Takes no memory.
    ///
    /// The lock of a shard is acquired for one entry at a time, and `keep` runs under it. It should
    /// be short, and must neither use this cache nor drop a handle of it, since that could
    /// deadlock. An entry that other callers add meanwhile may be seen or not. While `keep` looks
    /// at an entry, the entry has one pin more; what exceeds the capacity afterwards is evicted.
    /// Visits every slot.
    pub fn retain<G>(&self, mut keep: G)
    where
        G: FnMut(&K, &V, u64) -> bool + Drop,
        requires callable { (f : G) (k : _) (v : _) (charge : _)
            → F.fits k.now v.now → G.pre f k v charge }
    {
        for shard in &self.shards {
            shard.retain(&self.rt, &mut keep);
        }
    }

    /// Sets the capacity of each shard to its share, one shard after another, so the call is not
    /// atomic. Each shard then evicts down to its share. Takes no memory.
    pub fn set_capacity(&self, capacity: u64) {
        let share = capacity_per_shard(capacity, self.shards.len());
        for shard in &self.shards {
            shard.set_capacity(&self.rt, share);
        }
    }

    /// Sets whether the capacity of each shard is a strict limit, which it is not in a new cache,
    /// one shard after another, so the call is not atomic. The limit of a new entry is that of its
    /// key's shard. Takes no memory.
    ///
    /// Pinned entries stay and count, so a new entry may take the total above the capacity. While
    /// the limit is strict, `get_or_init` and the calls named after it, `begin`, `try_begin`, the
    /// calls that end a making with a value, and `insert` return `Full` instead, if the charge of a
    /// new entry exceeds the capacity together with the charges of the pinned entries. Then nothing
    /// is stored, and nothing is evicted unless other callers pin entries during the call. A making
    /// is refused before its value is made, and, as its charge counts only once it is stored,
    /// perhaps also after that. A call that finds an entry adds no charge, and is never refused in
    /// this way. A total that is above the capacity when the limit becomes strict only falls until
    /// it is no longer.
    ///
    /// A strict limit costs time where many entries are pinned: a call that adds an entry to a full
    /// shard visits slots until enough of the entries there are idle.
    pub fn set_strict_limit(&self, strict: bool) {
        for shard in &self.shards {
            shard.set_strict_limit(&self.rt, strict);
        }
    }

    /// Returns whether the capacity of every shard is a strict limit, read one after another, so it
    /// is no snapshot. Takes no memory.
    pub fn is_limit_strict(&self) -> bool {
        for shard in &self.shards {
            if !shard.is_limit_strict(&self.rt) {
                return false;
            }
        }
        true
    }

    /// Returns whether the key has an entry. Takes the lock of the shard, does not count as a use
    /// of the entry, and takes no memory.
    pub fn contains(&self, key: &K) -> bool {
        let (shard, tag) = self.route(key);
        shard.contains(&self.rt, tag, key)
    }
}

// Chooses the shard of a key by the low half of its hash, and returns it with the high half, which
// is the tag. The compiler turns a remainder by a constant power of two into a mask.
#[inline(always)]
fn choose_shard<'a, K: Hash + Eq + Clone, V, S: BuildHasher, F: Fit<K, V>>(
    hasher: &S,
    shards: &'a [Shard<K, V, F>],
    key: &K,
) -> (&'a Shard<K, V, F>, u32)
    requires some { 0 < length shards.now }
    ensures shard { IsShardOf shards.now
        (key_number S.BuildHasher S.Hasher.Hasher K.hash_input hasher.now key.now) result.0.now }
    ensures tag { result.1
        ≡ key_number S.BuildHasher S.Hasher.Hasher K.hash_input hasher.now key.now / 4294967296 }
{
    let hash = hasher.hash_one(key);
    let at = match shards.len() {
        1 => 0,
        16 => hash % 16,
        64 => hash % 64,
        len => hash % len as u64,
    };
    (&shards[at as usize], (hash >> 32) as u32)
}

// Prints numbers of the cache, which are not a snapshot.
impl<K: Hash + Eq + Clone + Drop, V: Drop, R: Wait, S: BuildHasher, F: Fit<K, V>> fmt::Debug
    for Cache<K, V, R, S, F> {
    fn fmt<W: fmt::Write>(&self, f: &mut fmt::Formatter<W>) -> fmt::Result {
        f.debug_struct("Cache")
            .field("capacity", &self.capacity())
            .field("total_charge", &self.total_charge())
            .field("len", &self.len())
            .finish()
    }
}
