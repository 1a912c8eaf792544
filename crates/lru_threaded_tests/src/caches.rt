//! Caches of numbers: one behind a lock, one with shards and a clock. A key's shard is the
//! remainder of its number.
ghost use Rattle.std.specs.Prelude.{◌<◌};

use concurrent_lru::{sharded, unsharded};
use lru_clock::clock;
use lru_support::hashers::ByOwnNumber;
use std::alloc::Global;
use std::sync::Wait;

/// A cache behind one lock.
pub(crate) type OneLock<V, R> = unsharded::LruCache<u64, V, R>;

/// A cache with shards.
pub(crate) type Shards<V, R> = sharded::LruCache<u64, V, R, ByOwnNumber>;

/// A clock.
pub(crate) type Clock<V, R> = clock::Cache<u64, V, R, ByOwnNumber>;

/// Creates an empty cache of this many shards, which share this capacity. Returns `None` if memory
/// is refused.
pub(crate) fn with_shards<V: Drop, R: Wait + Clone + Drop>(
    alloc: Global,
    rt: R,
    capacity: u64,
    shards: usize,
) -> Option<Shards<V, R>>
    requires { 0 < shards }
{
    sharded::LruCache::with_shards_hasher(alloc, rt, capacity, shards, ByOwnNumber).ok()
}

/// Creates an empty clock, otherwise as `with_shards` does.
pub(crate) fn clock_with_shards<V: Drop, R: Wait + Drop>(
    alloc: Global,
    rt: R,
    capacity: u64,
    shards: usize,
) -> Option<Clock<V, R>>
    requires { 0 < shards }
{
    clock::Cache::with_shards_hasher(alloc, rt, capacity, shards, ByOwnNumber).ok()
}

/// Returns what a closure answers of an empty cache of numbers behind one lock. The cache is proved
/// here once, for any right to wait, and not in each test.
pub(crate) fn in_one_lock<R: Wait + Drop, T, F>(alloc: Global, rt: R, capacity: u64, asks: F) -> T
where
    F: FnOnce(&OneLock<u64, R>) -> T,
    requires callable { F.IsAlwaysCallable asks }
{
    let cache = unsharded::LruCache::new(alloc, rt, capacity);
    asks(&cache)
}

/// Returns what a closure answers of such a cache of this many shards, or `None` if memory is
/// refused.
pub(crate) fn in_shards<R: Wait + Clone + Drop, T, F>(
    alloc: Global,
    rt: R,
    capacity: u64,
    shards: usize,
    asks: F,
) -> Option<T>
where
    F: FnOnce(&Shards<u64, R>) -> T + Drop,
    requires shards { 0 < shards }
    requires callable { F.IsAlwaysCallable asks }
{
    let cache = with_shards(alloc, rt, capacity, shards)?;
    Some(asks(&cache))
}
