//! Caches in shards for a single owner, each for the keys that are routed to it.
//!
//! A step changes only the shard that its key has, or that it names.
ghost use Rattle.std.specs.Prelude.{◌≡◌, ◌+◌, ◌-◌, ◌/◌, ◌%◌, ◌<◌, ◌≤◌, ◌^◌, ◌↔◌, length, replicate, sum_by, IfOk, IfErr, IfSome, IsTrue, IsFalse};
ghost use Rattle.std.specs.Arc.{arc_value};
ghost use Rattle.std.specs.Fn.{FnOnceReturnsAt, FnOnceTakesAt};
ghost use Rattle.concurrent_lru.specs.Cache.{count_of, empty_cache, most_pins_by_default, pinned_of, CopiesAreEqual};
ghost use Rattle.concurrent_lru.specs.Parts.{EachTakes, StandsAt};
ghost use Rattle.concurrent_lru.specs.Reads.{FindsAt, ReadsAt};
ghost use Rattle.concurrent_lru.specs.ReadyEntries.{ListsReadyAt};
ghost use Rattle.concurrent_lru.specs.Request as ask;
ghost use Rattle.concurrent_lru.specs.Results.{outcome_of_evictions, outcome_of_fail, outcome_of_poll, outcome_of_ready, outcome_of_ready_with, outcome_of_release, outcome_of_repin};
ghost use Rattle.concurrent_lru.specs.Runs.{refused};
ghost use Rattle.concurrent_lru.specs.declared.refusal.Refusal.TheVariants.{Stale};
ghost use Rattle.concurrent_lru.specs.Sharded.{AreLawful, HasReadyKeyAt, IsUnreadyAt, key_number, key_shard};
ghost use Rattle.concurrent_lru.specs.ShardSteps.{outcome_of_shard_begin, outcome_of_shard_insert, outcome_of_shard_get, outcome_of_shard_evictions, outcome_of_shard_total};

mod runs;

use crate::as_key::AsKey;
use crate::lru_core::{Begun, Entries, Evicted, Failed, Inserted, Refusal, State};
use crate::table::seed_of_shard;
use std::alloc::Global;
use std::fmt;
use std::hash::{BuildHasher, Hash, Hasher};
use std::marker::Model;
use std::sync::Arc;

/// Returns the capacity of each of `shards` shards: the quotient, rounded up. `shards` is above 0.
pub fn capacity_per_shard(capacity: u64, shards: usize) -> u64
    requires { 0 < shards }
    ensures { result ≡ (capacity + shards - 1) / shards }
{
    capacity.div_ceil(shards as u64)
}

// The number of shards of a cache that is created without one.
pub(crate) const DEFAULT_SHARDS: usize = 16;

// Returns the shard of a key: its hash modulo the number of shards. For a power of two up to 256
// the compiler uses a mask, since a 64-bit division takes as long as acquiring the lock.
#[inline(always)]
pub(crate) fn choose_shard<K: Hash + Eq, Q: AsKey<K>, S: BuildHasher>(
    hasher: &S,
    key: Q,
    shards: usize,
) -> usize
    requires { 0 < shards }
    ensures chosen { result ≡ key_number S.BuildHasher S.Hasher.Hasher K.hash_input hasher.now
        (Q.owned key) % shards }
    ensures within { result < shards }
{
    let mut state = hasher.build_hasher();
    key.feed(&mut state);
    let number = state.finish();
    let shard = match shards {
        2 => number % 2,
        4 => number % 4,
        8 => number % 8,
        16 => number % 16,
        32 => number % 32,
        64 => number % 64,
        128 => number % 128,
        256 => number % 256,
        _ => number % shards as u64,
    };
    shard as usize
}

/// A step of a run over shards. Charges are above 0. A step with a key goes to the key's shard; the
/// others name their shard first.
#[derive(Debug, Drop, PartialEq, Eq)]
pub enum ShardStep<K, V> {
    /// `begin` with a key and a charge.
    Begin(K, u64),
    /// `begin_strictly` with a key and a charge.
    BeginStrictly(K, u64),
    /// `get` with a key.
    Get(K),
    /// `advice_evict` with a key.
    AdviceEvict(K),
    /// `invalidate` with a key.
    Invalidate(K),
    /// `insert` with a key, a charge and a value.
    Insert(K, u64, Arc<V>),
    /// `insert_strictly` with a key, a charge and a value.
    InsertStrictly(K, u64, Arc<V>),
    /// `read` with a key. The value that it finds is shared, as by `get`.
    Read(K),
    /// `poll` at a shard with a stamp.
    Poll(usize, u64),
    /// `ready` at a shard with a stamp and a value.
    Ready(usize, u64, Arc<V>),
    /// `ready_with` at a shard with a stamp, a value and a charge.
    ReadyWith(usize, u64, Arc<V>, u64),
    /// `ready_with_strictly` at a shard with a stamp, a value and a charge.
    ReadyWithStrictly(usize, u64, Arc<V>, u64),
    /// `fail` at a shard with a stamp.
    Fail(usize, u64),
    /// `release` at a shard with a stamp.
    Release(usize, u64),
    /// `release_and_evict` at a shard with a stamp.
    ReleaseAndEvict(usize, u64),
    /// `repin` at a shard with a stamp.
    Repin(usize, u64),
    /// `prune_shard` with a shard.
    Prune(usize),
    /// `set_capacity_shard` with a shard and a capacity.
    SetCapacity(usize, u64),
    /// `total_shard` with a shard.
    Total(usize),
}

/// One or more caches, each for the keys that a hasher routes to it.
///
/// A stamp identifies an entry of one shard, so calls that take a stamp take the shard too. Clauses
/// see the value of specs/Sharded.antt.
#[derive(Drop)]
pub struct Shards<K: Hash + Eq + Clone, V, S> {
    alloc: Global,
    hasher: S,
    shards: Vec<State<K, V>>,
}

impl<K: Hash + Eq + Clone, V, S> Model for Shards<K, V, S> {
    ghost use Rattle.concurrent_lru.specs.Runs.{refused};
    ghost use Rattle.concurrent_lru.specs.Sharded.{Sharded, sharded_code};

    ghost Value = { Sharded K V S };

    ghost coded = { sharded_code K.code V.code S.code };

    ghost use Rattle.std.specs.Prelude.{◌<◌, length};
    ghost use Rattle.std.specs.List.{All};
    ghost use Rattle.concurrent_lru.specs.Cache.{IsLawful};
    ghost use Rattle.concurrent_lru.specs.Counted.{caches_in};

    ghost view = { λ a. record { hasher = a.hasher; caches = caches_in a.shards.items } };

    ghost invariant = { λ a. (0 < length a.shards.items)
        × All (IsLawful K.eq) (caches_in a.shards.items) };
}

impl<K: Hash + Eq + Clone, V: Drop, S: BuildHasher + Drop> Shards<K, V, S> {
    /// Creates `shards` empty caches, each with its share of the capacity. Whoever creates them
    /// promises that there is at least one, and that a copy of a key equals the key.
    ///
    /// The hasher chooses the shard of each key, and gives each shard the seed with which it hashes
    /// keys once more.
    ///
    /// Returns `Memory` if there is no room for the shards.
    pub fn new(
        alloc: Global,
        capacity: u64,
        shards: usize,
        hasher: S,
    ) -> Result<Shards<K, V, S>, Refusal>
        requires some { 0 < shards }
        requires copies { CopiesAreEqual K.is_clone K.eq }
        ensures hasher { IfOk result (λ s. s.hasher ≡ hasher) }
        ensures empty { IfOk result (λ s. s.caches
            ≡ replicate shards (empty_cache ((capacity + shards - 1) / shards) most_pins_by_default
            0)) }
        ensures lawful { IfOk result (AreLawful K.eq) }
        ensures err { IfErr result (λ e. e ≡ Refusal.Memory) }
    {
        let share = capacity_per_shard(capacity, shards);
        let mut caches = Vec::new(alloc);
        caches.reserve(shards)?;
        for _ in 0..shards {
            let seed = seed_of_shard(&hasher, caches.len());
            caches.push(State::with_seed(alloc, share, seed))?;
        }
        Ok(Shards {
            alloc,
            hasher,
            shards: caches,
        })
    }

    /// Returns the shard of a key: its hash modulo the number of shards.
    pub fn route<Q: AsKey<K>>(&self, key: Q) -> usize
        ensures route { result ≡ key_shard S.BuildHasher S.Hasher.Hasher K.hash_input self.now
            (Q.owned key) }
        ensures within { result < length self.now.caches }
    {
        choose_shard::<K, Q, S>(&self.hasher, key, self.shards.len())
    }

    /// `begin` in the key's shard, which is returned first.
    ///
    /// Returns `Overflow` and `Memory` as `State::begin` does.
    pub fn begin(
        &mut self,
        key: &K,
        charge: u64,
    ) -> Result<(usize, Begun<V>, Evicted<K, V>), Refusal>
        requires { 0 < charge }
        ensures shard { IfOk result (λ r. r.0 ≡ key_shard S.BuildHasher S.Hasher.Hasher K.hash_input
            self.old key.now) }
        ensures step { StandsAt K.eq self.old
            (key_shard S.BuildHasher S.Hasher.Hasher K.hash_input self.old key.now)
            (ask.begin key.now charge) (outcome_of_shard_begin result) self.new }
        ensures lawful { AreLawful K.eq self.new }
    {
        let shard = self.route(key);
        let (begun, evicted) = self.shards[shard].begin(key, charge)?;
        Ok((shard, begun, evicted))
    }

    /// `begin_strictly` in the key's shard, which is returned first. The limit is that shard's
    /// capacity, and the total that of the shard.
    ///
    /// Returns `Full`, `Overflow` and `Memory` as `State::begin_strictly` does.
    pub fn begin_strictly(
        &mut self,
        key: &K,
        charge: u64,
    ) -> Result<(usize, Begun<V>, Evicted<K, V>), Refusal>
        requires { 0 < charge }
        ensures shard { IfOk result (λ r. r.0 ≡ key_shard S.BuildHasher S.Hasher.Hasher K.hash_input
            self.old key.now) }
        ensures step { StandsAt K.eq self.old
            (key_shard S.BuildHasher S.Hasher.Hasher K.hash_input self.old key.now)
            (ask.begin_strictly key.now charge) (outcome_of_shard_begin result) self.new }
        ensures lawful { AreLawful K.eq self.new }
    {
        let shard = self.route(key);
        let (begun, evicted) = self.shards[shard].begin_strictly(key, charge)?;
        Ok((shard, begun, evicted))
    }

    /// `get` in the key's shard, which is returned before the stamp.
    ///
    /// Returns `Overflow` and `Memory` as `State::get` does.
    pub fn get<Q: AsKey<K>>(&mut self, key: Q) -> Result<Option<(usize, u64, Arc<V>)>, Refusal>
        ensures shard { IfOk result (λ found. IfSome found
            (λ r. r.0 ≡ key_shard S.BuildHasher S.Hasher.Hasher K.hash_input self.old
            (Q.owned key))) }
        ensures step { StandsAt K.eq self.old
            (key_shard S.BuildHasher S.Hasher.Hasher K.hash_input self.old (Q.owned key))
            (ask.get (Q.owned key)) (outcome_of_shard_get result) self.new }
        ensures lawful { AreLawful K.eq self.new }
    {
        let shard = self.route(key);
        let found = self.shards[shard].get(key)?;
        Ok(found.map(|(stamp, value)| (shard, stamp, value)))
    }

    /// `read` in the key's shard: returns the entry's stamp there and the result of `reader`. Takes
    /// no memory.
    ///
    /// Returns `Overflow` as `State::read` does.
    pub fn read<Q: AsKey<K>, T, G>(
        &mut self,
        key: Q,
        reader: G,
    ) -> Result<Option<(u64, T)>, Refusal>
    where
        G: FnOnce(&V) -> T + Drop,
        requires callable { (v : V) → FindsAt K.eq self.old
            (key_shard S.BuildHasher S.Hasher.Hasher K.hash_input self.old (Q.owned key))
            (Q.owned key) v → FnOnceTakesAt G.FnOnce reader v }
        ensures step { ReadsAt K.eq self.old (key_shard S.BuildHasher S.Hasher.Hasher K.hash_input
            self.old (Q.owned key)) (Q.owned key) (FnOnceReturnsAt G.FnOnce reader) result
            self.new }
        ensures lawful { AreLawful K.eq self.new }
    {
        let shard = self.route(key);
        self.shards[shard].read(key, reader)
    }

    /// `advice_evict` in the key's shard. Takes no memory.
    pub fn advice_evict<Q: AsKey<K>>(&mut self, key: Q) -> Evicted<K, V>
        ensures step { StandsAt K.eq self.old
            (key_shard S.BuildHasher S.Hasher.Hasher K.hash_input self.old (Q.owned key))
            (ask.advice_evict (Q.owned key)) (outcome_of_evictions result) self.new }
        ensures lawful { AreLawful K.eq self.new }
    {
        let shard = self.route(key);
        self.shards[shard].advice_evict(key)
    }

    /// `invalidate` in the key's shard. Takes no memory.
    pub fn invalidate<Q: AsKey<K>>(&mut self, key: Q) -> Evicted<K, V>
        ensures step { StandsAt K.eq self.old
            (key_shard S.BuildHasher S.Hasher.Hasher K.hash_input self.old (Q.owned key))
            (ask.invalidate (Q.owned key)) (outcome_of_evictions result) self.new }
        ensures lawful { AreLawful K.eq self.new }
    {
        let shard = self.route(key);
        self.shards[shard].invalidate(key)
    }

    /// `insert` in the key's shard, which is returned first.
    ///
    /// Returns `Overflow` and `Memory` as `State::insert` does, with the value.
    pub fn insert(
        &mut self,
        key: &K,
        charge: u64,
        value: Arc<V>,
    ) -> Result<(usize, Inserted<K, V>), (Refusal, Arc<V>)>
        requires { 0 < charge }
        ensures shard { IfOk result (λ r. r.0 ≡ key_shard S.BuildHasher S.Hasher.Hasher K.hash_input
            self.old key.now) }
        ensures step { StandsAt K.eq self.old
            (key_shard S.BuildHasher S.Hasher.Hasher K.hash_input self.old key.now)
            (ask.insert key.now charge (arc_value value)) (outcome_of_shard_insert result)
            self.new }
        ensures back { IfErr result (λ e. e.1 ≡ value) }
        ensures lawful { AreLawful K.eq self.new }
    {
        let shard = self.route(key);
        let inserted = self.shards[shard].insert(key, charge, value)?;
        Ok((shard, inserted))
    }

    /// `insert_strictly` in the key's shard, which is returned first. The limit is that shard's
    /// capacity, and the total that of the shard.
    ///
    /// Returns `Full`, `Overflow` and `Memory` as `State::insert_strictly` does, with the value.
    pub fn insert_strictly(
        &mut self,
        key: &K,
        charge: u64,
        value: Arc<V>,
    ) -> Result<(usize, Inserted<K, V>), (Refusal, Arc<V>)>
        requires { 0 < charge }
        ensures shard { IfOk result (λ r. r.0 ≡ key_shard S.BuildHasher S.Hasher.Hasher K.hash_input
            self.old key.now) }
        ensures step { StandsAt K.eq self.old
            (key_shard S.BuildHasher S.Hasher.Hasher K.hash_input self.old key.now)
            (ask.insert_strictly key.now charge (arc_value value)) (outcome_of_shard_insert result)
            self.new }
        ensures back { IfErr result (λ e. e.1 ≡ value) }
        ensures lawful { AreLawful K.eq self.new }
    {
        let shard = self.route(key);
        let inserted = self.shards[shard].insert_strictly(key, charge, value)?;
        Ok((shard, inserted))
    }

    /// `poll` in a shard. Returns `Stale` also if there is no such shard, and `Memory` as
    /// `State::poll` does.
    pub fn poll(&mut self, shard: usize, stamp: u64) -> Result<Begun<V>, Refusal>
        ensures step { StandsAt K.eq self.old shard (ask.poll stamp) (outcome_of_poll result)
            self.new }
        ensures lawful { AreLawful K.eq self.new }
    {
        let Some(cache) = self.shards.get_mut(shard) else {
            return Err(Refusal::Stale);
        };
        cache.poll(stamp)
    }

    /// `ready` in a shard. Returns the value also if there is no such shard. Takes no memory.
    pub fn ready(&mut self, shard: usize, stamp: u64, value: Arc<V>) -> Result<(), Arc<V>>
        ensures step { StandsAt K.eq self.old shard (ask.ready stamp (arc_value value))
            (outcome_of_ready result) self.new }
        ensures back { IfErr result (λ a. arc_value a ≡ arc_value value) }
        ensures lawful { AreLawful K.eq self.new }
    {
        let Some(cache) = self.shards.get_mut(shard) else {
            return Err(value);
        };
        cache.ready(stamp, value)
    }

    /// `ready_with` in a shard. Returns `Stale` with the value also if there is no such shard, and
    /// `Overflow` as `State::ready_with` does. Takes no memory.
    pub fn ready_with(
        &mut self,
        shard: usize,
        stamp: u64,
        value: Arc<V>,
        charge: u64,
    ) -> Result<Evicted<K, V>, (Refusal, Arc<V>)>
        requires { 0 < charge }
        ensures step { StandsAt K.eq self.old shard (ask.ready_with stamp (arc_value value) charge)
            (outcome_of_ready_with result) self.new }
        ensures back { IfErr result (λ e. e.1 ≡ value) }
        ensures lawful { AreLawful K.eq self.new }
    {
        let Some(cache) = self.shards.get_mut(shard) else {
            return Err((Refusal::Stale, value));
        };
        cache.ready_with(stamp, value, charge)
    }

    /// `ready_with_strictly` in a shard. The limit is that shard's capacity, and the total that of
    /// the shard. Returns `Stale` with the value also if there is no such shard, and `Full` and
    /// `Overflow` as `State::ready_with_strictly` does. Takes no memory.
    pub fn ready_with_strictly(
        &mut self,
        shard: usize,
        stamp: u64,
        value: Arc<V>,
        charge: u64,
    ) -> Result<Evicted<K, V>, (Refusal, Arc<V>)>
        requires { 0 < charge }
        ensures step { StandsAt K.eq self.old shard
            (ask.ready_with_strictly stamp (arc_value value) charge)
            (outcome_of_ready_with result) self.new }
        ensures back { IfErr result (λ e. e.1 ≡ value) }
        ensures lawful { AreLawful K.eq self.new }
    {
        let Some(cache) = self.shards.get_mut(shard) else {
            return Err((Refusal::Stale, value));
        };
        cache.ready_with_strictly(stamp, value, charge)
    }

    /// `fail` in a shard. Returns `Stale` also if there is no such shard. Takes no memory.
    pub fn fail(&mut self, shard: usize, stamp: u64) -> Result<Failed<K>, Refusal>
        ensures step { StandsAt K.eq self.old shard (ask.fail stamp) (outcome_of_fail result)
            self.new }
        ensures lawful { AreLawful K.eq self.new }
    {
        let Some(cache) = self.shards.get_mut(shard) else {
            return Err(Refusal::Stale);
        };
        cache.fail(stamp)
    }

    /// `release` in a shard. Returns `Stale` also if there is no such shard. Takes no memory.
    pub fn release(&mut self, shard: usize, stamp: u64) -> Result<Evicted<K, V>, Refusal>
        ensures step { StandsAt K.eq self.old shard (ask.release stamp) (outcome_of_release result)
            self.new }
        ensures lawful { AreLawful K.eq self.new }
    {
        let Some(cache) = self.shards.get_mut(shard) else {
            return Err(Refusal::Stale);
        };
        cache.release(stamp)
    }

    /// `release_and_evict` in a shard. Returns `Stale` also if there is no such shard. Takes no
    /// memory.
    pub fn release_and_evict(&mut self, shard: usize, stamp: u64) -> Result<Evicted<K, V>, Refusal>
        ensures step { StandsAt K.eq self.old shard (ask.release_and_evict stamp)
            (outcome_of_release result) self.new }
        ensures lawful { AreLawful K.eq self.new }
    {
        let Some(cache) = self.shards.get_mut(shard) else {
            return Err(Refusal::Stale);
        };
        cache.release_and_evict(stamp)
    }

    /// `repin` in a shard. Returns `Stale` also if there is no such shard, and `Overflow` and
    /// `Memory` as `State::repin` does.
    pub fn repin(&mut self, shard: usize, stamp: u64) -> Result<Arc<V>, Refusal>
        ensures step { StandsAt K.eq self.old shard (ask.repin stamp) (outcome_of_repin result)
            self.new }
        ensures lawful { AreLawful K.eq self.new }
    {
        let Some(cache) = self.shards.get_mut(shard) else {
            return Err(Refusal::Stale);
        };
        cache.repin(stamp)
    }

    /// `prune` in a shard. Returns `Stale` if there is no such shard. Takes no memory.
    pub fn prune_shard(&mut self, shard: usize) -> Result<Evicted<K, V>, Refusal>
        ensures step { StandsAt K.eq self.old shard ask.prune (outcome_of_shard_evictions result)
            self.new }
        ensures lawful { AreLawful K.eq self.new }
    {
        let Some(cache) = self.shards.get_mut(shard) else {
            return Err(Refusal::Stale);
        };
        Ok(cache.prune())
    }

    /// Sets the capacity of one shard to `capacity`, not to a share of it, and the shard evicts
    /// down to it. Returns `Stale` if there is no such shard. Takes no memory.
    pub fn set_capacity_shard(
        &mut self,
        shard: usize,
        capacity: u64,
    ) -> Result<Evicted<K, V>, Refusal>
        ensures step { StandsAt K.eq self.old shard (ask.set_capacity capacity)
            (outcome_of_shard_evictions result) self.new }
        ensures lawful { AreLawful K.eq self.new }
    {
        let Some(cache) = self.shards.get_mut(shard) else {
            return Err(Refusal::Stale);
        };
        Ok(cache.set_capacity(capacity))
    }

    // The same for a shard that exists.
    fn set_capacity_at(&mut self, shard: usize, capacity: u64) -> Evicted<K, V>
        requires { shard < length self.old.caches }
        ensures step { StandsAt K.eq self.old shard (ask.set_capacity capacity)
            (outcome_of_evictions result) self.new }
        ensures lawful { AreLawful K.eq self.new }
    {
        self.shards[shard].set_capacity(capacity)
    }

    /// Sets the capacity of every shard, shard 0 first, to its share: `capacity_per_shard` of
    /// `capacity`. Each evicts down to it. Returns what they evicted as one chain, the entries of
    /// shard 0 first, and those of each shard oldest first. Takes no memory.
    pub fn set_capacity(&mut self, capacity: u64) -> Evicted<K, V>
        ensures each { EachTakes K.eq self.old
            (ask.set_capacity ((capacity + length self.old.caches - 1) / length self.old.caches))
            result self.new }
        ensures lawful { AreLawful K.eq self.new }
    {
        let share = capacity_per_shard(capacity, self.shards.len());
        let mut newest_first = Evicted::none();
        for shard in 0..self.shards.len() {
            newest_first = self
                .set_capacity_at(shard, share)
                .prepend_reversed_to(newest_first);
        }
        newest_first.prepend_reversed_to(Evicted::none())
    }

    /// `total` of a shard. Returns `Stale` if there is no such shard. Takes no memory.
    pub fn total_shard(&self, shard: usize) -> Result<u64, Refusal>
        ensures step { StandsAt K.eq self.now shard ask.total (outcome_of_shard_total result)
            self.now }
        ensures lawful { AreLawful K.eq self.now }
    {
        let Some(cache) = self.shards.get(shard) else {
            return Err(Refusal::Stale);
        };
        Ok(cache.total())
    }

    /// Returns the sum of the charges of the held entries of all shards, including those still
    /// being made and those held after an `invalidate`. Takes no memory.
    pub fn pinned_charge(&self) -> u128
        ensures { result ≡ sum_by pinned_of self.now.caches }
    {
        let mut pinned = 0;
        for shard in &self.shards {
            pinned += u128::from(shard.pinned_charge());
        }
        pinned
    }

    /// Returns the number of entries of all shards, including those still being made and those held
    /// after an `invalidate`, or `usize::MAX` if there are more. Takes no memory.
    pub fn len(&self) -> usize
        ensures { sum_by count_of self.now.caches < 2 ^ 64 → result
            ≡ sum_by count_of self.now.caches }
    {
        let mut len: usize = 0;
        for shard in &self.shards {
            len = len.saturating_add(shard.len());
        }
        len
    }

    /// Returns whether no shard has an entry. Takes no memory.
    pub fn is_empty(&self) -> bool
        ensures { sum_by count_of self.now.caches < 2 ^ 64
            → (IsTrue result ↔ (sum_by count_of self.now.caches ≡ 0)) }
    {
        self.len() == 0
    }

    /// Returns whether the key has a ready value in its shard.
    pub fn contains<Q: AsKey<K>>(&self, key: Q) -> bool
        ensures yes { IsTrue result → HasReadyKeyAt K.eq self.now
            (key_shard S.BuildHasher S.Hasher.Hasher K.hash_input self.now (Q.owned key))
            (Q.owned key) }
        ensures no { IsFalse result → IsUnreadyAt K.eq self.now
            (key_shard S.BuildHasher S.Hasher.Hasher K.hash_input self.now (Q.owned key))
            (Q.owned key) }
    {
        let shard = self.route(key);
        self.shards[shard].contains(key)
    }

    /// Returns an iterator over the entries of a shard that have a value, as `State::entries` does.
    /// For the entries of all shards, take one shard after another, from 0 on, until there is no
    /// such shard. Takes no memory.
    ///
    /// Returns `Stale` if there is no such shard.
    pub fn entries_shard(&self, shard: usize) -> Result<Entries<'_, K, V>, Refusal>
        ensures entries { IfOk result (ListsReadyAt self.now shard) }
        ensures stale { IfErr result (λ e. (e ≡ Refusal.Stale)
            × (length self.now.caches ≤ shard)) }
    {
        match self.shards.get(shard) {
            Some(cache) => Ok(cache.entries()),
            None => Err(Refusal::Stale),
        }
    }
}

// Prints the shards as a list.
impl<K: Hash + Eq + Clone + fmt::Debug, V: Drop + fmt::Debug, S> fmt::Debug for Shards<K, V, S> {
    fn fmt<W: fmt::Write>(&self, f: &mut fmt::Formatter<W>) -> fmt::Result {
        f.debug_list().entries(self.shards.iter()).finish()
    }
}
