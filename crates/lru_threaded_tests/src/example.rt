//! An example of a sharded cache: the source of its hasher, and its capacity.

use crate::assertions::assert_equal;
use concurrent_lru::sharded::{LruCache, Refusal};
use std::alloc::Global;
use std::hash::RandomState;
use std::sync::Wait;
use std::test::Fail;

// Returns the value of key 7, made as its double.
fn doubles_seven<R: Wait>(cache: &LruCache<u64, u64, R>) -> Result<u64, Refusal> {
    let handle = cache.get_or_init(7, 1, |key| *key * 2)?;
    Ok(*handle.value())
}

// Returns what `doubles_seven` answers of a new cache, and the cache's capacity.
fn in_sixteen_shards<R: Wait + Clone + Drop>(
    alloc: Global,
    rt: R,
    hasher: RandomState,
) -> Result<(Result<u64, Refusal>, u128), Refusal> {
    let cache: LruCache<u64, u64, R> = LruCache::new(alloc, rt, 1_000, hasher)?;
    Ok((doubles_seven(&cache), cache.capacity()))
}

#[test]
fn sixteen_shards_share_a_capacity(rt: HostRuntime) -> Result<(), Fail> {
    let hasher = RandomState::new(&rt)?;
    let (value, capacity) = in_sixteen_shards(rt.alloc(), &rt, hasher)?;
    assert_equal(&rt, value?, 14);
    // Each shard has a sixteenth of 1,000, rounded up to 63.
    assert_equal(&rt, capacity, 16 * 63);
    Ok(())
}
