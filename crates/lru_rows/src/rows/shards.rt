//! Rows on a cache in shards, each with its share of the capacity and its own keys.

use crate::rows::line::Line;
use crate::rows::script::push_keys;
use concurrent_lru::lru_core::{Begun, Refusal};
use concurrent_lru::sharded::{LruCache, Shards, capacity_per_shard};
use lru_support::hashers::ByOwnNumber;
use std::alloc::Global;
use std::hash::{BuildHasherDefault, FoldHasher};
use std::sync::{Arc, Wait};

type Hasher = BuildHasherDefault<FoldHasher>;

/// A prune evicts in every shard.
pub fn prunes_every_shard<R: Wait>(rt: &R, alloc: Global, line: &mut Line) -> Result<(), Refusal> {
    let hasher: Hasher = BuildHasherDefault::new();
    let cache: LruCache<&'static str, u64, &R, Hasher> = LruCache::with_shards_hasher(
        alloc, rt, 10, 16, hasher,
    )?;
    prune(&cache, line)
}

fn prune<R: Wait>(
    cache: &LruCache<&'static str, u64, &R, Hasher>,
    line: &mut Line,
) -> Result<(), Refusal> {
    drop(cache.get_or_init("foo", 1, |_| 1)?);
    show_found(cache, line)?;
    cache.prune();
    show_found(cache, line)
}

fn show_found<R: Wait>(
    cache: &LruCache<&'static str, u64, &R, Hasher>,
    line: &mut Line,
) -> Result<(), Refusal> {
    let is_found = cache.get("foo")?.is_some();
    line.show_found(is_found)
}

/// Shows each shard's share of a capacity: the quotient, rounded up. 0 shards count as 1.
pub fn divides_its_capacity(shares: &[(u64, usize)], line: &mut Line) -> Result<(), Refusal> {
    for (capacity, shards) in shares {
        line.show(capacity_per_shard(*capacity, (*shards).max(1)))?;
    }
    Ok(())
}

/// A new entry evicts in its own shard only.
pub fn evicts_in_the_shard_of_a_key(alloc: Global, line: &mut Line) -> Result<(), Refusal> {
    let mut shards = Shards::new(alloc, 2, 2, ByOwnNumber)?;
    let mut evicted = Vec::new(alloc);
    for key in [1, 0, 2] {
        make(alloc, &mut shards, key, &mut evicted)?;
    }
    line.show_numbers(&evicted)?;
    for key in [1, 2, 0] {
        let is_found = shards.get(&key)?.is_some();
        line.show_found(is_found)?;
    }
    Ok(())
}

// Makes the value of a new key, releases the pin at once and records what was evicted.
fn make(
    alloc: Global,
    shards: &mut Shards<u64, u64, ByOwnNumber>,
    key: u64,
    evicted: &mut Vec<u64>,
) -> Result<(), Refusal> {
    let (shard, begun, at_begin) = shards.begin(&key, 1)?;
    push_keys(evicted, at_begin)?;
    if let Begun::Make(stamp) = begun {
        if shards.ready(shard, stamp, Arc::new(alloc, key)?).is_err() {
            return Err(Refusal::Stale);
        }
        push_keys(evicted, shards.release(shard, stamp)?)?;
    }
    Ok(())
}
