//! An example of a mark: each value is twice its key, and the holder of a handle knows it.
ghost use Rattle.std.specs.Prelude.{◌≡◌, ◌*◌};
ghost use Rattle.std.proofs.Common.{rules};

use crate::assertions::assert_equal;
use concurrent_lru::fit::Fit;
use concurrent_lru::sharded;
use concurrent_lru::unsharded::LruCache;
use lru_clock::clock;
use lru_support::hashers::ByOwnNumber;
use std::alloc::Global;
use std::sync::Wait;

/// The mark of caches whose values are twice their keys.
#[derive(Drop)]
struct Twice;

impl Fit<u64, u64> for Twice {
    ghost fits = { λ k v. v ≡ 2 * k };

    ghost equal_keys = { Prim.search rules };
}

#[test]
fn a_handle_proves_its_value(rt: HostRuntime) {
    let cache: LruCache<u64, u64, &HostRuntime, Twice> = LruCache::marked(rt.alloc(), &rt, 10);
    for key in 0..50u64 {
        let handle = cache
            .get_or_init(key, 1, |key| *key * 2)
            .expect(&rt, "memory");
        prove!(*handle.value() == key * 2);
    }
    let found = cache.get(49).expect(&rt, "memory");
    let handle = found.expect(&rt, "the last key is there");
    prove!(*handle.value() == 98);
}

// Returns the double of 7, made and then read without a handle.
fn double_in_shards<R: Wait + Clone + Drop>(alloc: Global, rt: R) -> Option<u64> {
    let made = sharded::LruCache::marked(alloc, rt, 10, 2, ByOwnNumber);
    let cache: sharded::LruCache<u64, u64, R, ByOwnNumber, Twice> = made.ok()?;
    drop(cache.get_or_init(7, 1, |key| *key * 2));
    match cache.read(&7, |value| *value) {
        Ok(Some(value)) => {
            prove!(value == 14);
            Some(value)
        }
        _ => None,
    }
}

// Returns the double of 7, made and then read by a handle.
fn double_in_clock<R: Wait + Drop>(alloc: Global, rt: R) -> Option<u64> {
    let made = clock::Cache::marked(alloc, rt, 10, 2, ByOwnNumber);
    let cache: clock::Cache<u64, u64, R, ByOwnNumber, Twice> = made.ok()?;
    drop(cache.get_or_init(7, 1, |key| *key * 2));
    match cache.get(7) {
        Ok(Some(handle)) => {
            prove!(*handle.value() == 14);
            Some(*handle)
        }
        _ => None,
    }
}

#[test]
fn other_caches_prove_what_they_answer(rt: HostRuntime) {
    let told = (
        double_in_shards(rt.alloc(), &rt),
        double_in_clock(rt.alloc(), &rt),
    );
    assert_equal(&rt, told, (Some(14), Some(14)));
}
