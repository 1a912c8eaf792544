//! The shards of a cache that threads share, and which of them serves a key.
//!
//! A single shard is reached only by its key or by a route, so no call goes to another shard. All
//! of them are reached by the calls in `each` alone.
ghost use Rattle.std.specs.Prelude.{◌≡◌, ◌<◌, ◌%◌, Some, IfErr, slice_get, vec_len};
ghost use Rattle.concurrent_lru.specs.Cache.{CopiesAreEqual};
ghost use Rattle.concurrent_lru.specs.Sharded.{key_number};

mod each;

use crate::as_key::AsKey;
use crate::fit::Fit;
use crate::lru_core::Refusal;
use crate::shards::{capacity_per_shard, choose_shard};
use crate::table::seed_of_shard;
use crate::unsharded::LruCache;
use std::alloc::Global;
use std::fmt;
use std::hash::{BuildHasher, Hash};
use std::sync::Wait;

/// Caches of one lock, each for the keys that a hasher routes to it.
#[derive(Drop)]
pub struct Routes<K: Hash + Eq + Clone, V, R: Wait, S, F: Fit<K, V>> {
    shards: Vec<LruCache<K, V, R, F>>,
    hasher: S,
    ghost some: { 0 < vec_len shards },
}

/// Which shard serves a key. Only `Routes::route_of` makes one.
#[derive(Clone, Copy)]
pub struct Route {
    index: usize,
}

impl<
    K: Hash + Eq + Clone + Drop,
    V: Drop,
    R: Wait + Clone,
    S: BuildHasher + Drop,
    F: Fit<K, V>,
> Routes<K, V, R, S, F> {
    /// Creates `shards` empty caches, each with its share of the capacity.
    ///
    /// Returns `Memory` if there is no room for them, or if a copy of `rt` is refused.
    pub fn new(
        alloc: Global,
        rt: R,
        capacity: u64,
        shards: usize,
        hasher: S,
    ) -> Result<Self, Refusal>
        requires some { 0 < shards }
        requires copies { CopiesAreEqual K.is_clone K.eq }
        ensures err { IfErr result (λ e. e ≡ Refusal.Memory) }
    {
        let share = capacity_per_shard(capacity, shards);
        let mut caches = Vec::new(alloc);
        for _ in 0..shards {
            let Ok(own_rt) = rt.clone() else {
                return Err(Refusal::Memory);
            };
            let seed = seed_of_shard(&hasher, caches.len());
            caches.push(LruCache::marked_with_seed(alloc, own_rt, share, seed))?;
        }
        Ok(Routes {
            shards: caches,
            hasher,
        })
    }
}

impl<K: Hash + Eq + Clone + Drop, V: Drop, R: Wait, S: BuildHasher, F: Fit<K, V>> Routes<
    K,
    V,
    R,
    S,
    F,
> {
    /// Returns the shard that serves a key: its hash modulo the number of shards.
    pub fn of<Q: AsKey<K>>(&self, key: Q) -> &LruCache<K, V, R, F>
        ensures route { slice_get self.now.shards.items
            (key_number S.BuildHasher S.Hasher.Hasher K.hash_input self.now.hasher (Q.owned key)
            % vec_len self.now.shards) ≡ Some result.now }
    {
        &self.shards[choose_shard::<K, Q, S>(&self.hasher, key, self.shards.len())]
    }

    /// Returns the route to that shard, for callers that return to it without the key.
    pub fn route_of(&self, key: &K) -> Route
        ensures route { result.index ≡ key_number S.BuildHasher S.Hasher.Hasher K.hash_input
            self.now.hasher key.now % vec_len self.now.shards }
        ensures within { result.index < vec_len self.now.shards }
    {
        Route {
            index: choose_shard::<K, &K, S>(&self.hasher, key, self.shards.len()),
        }
    }

    /// Returns the shard that a route leads to.
    pub fn at(&self, route: Route) -> &LruCache<K, V, R, F>
        requires within { route.index < vec_len self.now.shards }
        ensures shard { slice_get self.now.shards.items route.index ≡ Some result.now }
    {
        &self.shards[route.index]
    }
}

// Prints the shards as a list, each under its lock.
impl<
    K: Hash + Eq + Clone + Drop + fmt::Debug,
    V: Drop + fmt::Debug,
    R: Wait,
    S: BuildHasher,
    F: Fit<K, V>,
> fmt::Debug for Routes<K, V, R, S, F> {
    fn fmt<W: fmt::Write>(&self, f: &mut fmt::Formatter<W>) -> fmt::Result {
        f.debug_list().entries(self.shards.iter()).finish()
    }
}
