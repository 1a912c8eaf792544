//! Caches and handles that cross threads.
ghost use Rattle.std.specs.Prelude.{◌<◌};

use crate::assertions::assert_equal;
use crate::caches::{OneLock, Shards, with_shards};
use concurrent_lru::fit::Fit;
use concurrent_lru::{sharded, unsharded};
use lru_clock::clock;
use std::alloc::Global;
use std::hash::{BuildHasher, Hash};
use std::sync::Wait;
use std::thread;
use std::thread::Threads;

// Has two threads read a handle.
fn read_by_two<T: Threads, R: Wait + Send + Sync>(
    rt: &T,
    handle: &unsharded::CacheHandle<'_, u64, u64, R>,
) -> (u64, u64) {
    thread::join(rt, || *handle.value(), || *handle.value())
}

// Has another thread drop a handle.
fn drop_elsewhere<T: Threads, H: Drop + Send>(rt: &T, handle: H) {
    thread::join(rt, move || drop(handle), || ());
}

// Makes an entry in a cache that keeps nothing idle, has two threads read its handle, and another
// drop it. Returns what they read, and the totals before and after the drop.
fn shares_and_hands_on<T: Threads, R: Wait + Send + Sync>(
    rt: &T,
    cache: &OneLock<u64, R>,
) -> Option<((u64, u64), [u64; 2])> {
    let handle = cache.get_or_init(1, 3, |_| 5).ok()?;
    let read = read_by_two(rt, &handle);
    let held = cache.total_charge();
    drop_elsewhere(rt, handle);
    Some((read, [held, cache.total_charge()]))
}

#[test]
fn threads_share_a_handle_and_hand_it_on(rt: HostRuntime) {
    let own = rt.clone().expect(&rt, "memory");
    let cache: OneLock<u64, HostRuntime> = unsharded::LruCache::new(rt.alloc(), own, 0);
    let told = shares_and_hands_on(&rt, &cache);
    assert_equal(&rt, told, Some(((5, 5), [3, 0])));
}

// Makes an entry in a new cache with shards that keeps nothing idle, and has another thread drop
// its handle. Returns the totals before and after the drop.
fn hands_on_in_shards<T: Threads, R: Wait + Clone + Drop + Send + Sync>(
    rt: &T,
    alloc: Global,
    own: R,
) -> Option<[u128; 2]> {
    let cache: Shards<u64, R> = with_shards(alloc, own, 0, 2)?;
    let handle = cache.get_or_init(1, 3, |_| 5).ok()?;
    let held = cache.total_charge();
    drop_elsewhere(rt, handle);
    Some([held, cache.total_charge()])
}

#[test]
fn a_thread_drops_the_handle_of_another(rt: HostRuntime) {
    let own = rt.clone().expect(&rt, "memory");
    assert_equal(&rt, hands_on_in_shards(&rt, rt.alloc(), own), Some([3, 0]));
}

// Accepts what may be sent to another thread and shared with it. Caches and handles may, if their
// keys, values, hashers, marks and rights may: that these functions compile is the test.
fn crosses<T: Send + Sync>(_value: &T) {}

fn locked_cross<
    K: Hash + Eq + Clone + Drop + Send + Sync,
    V: Drop + Send + Sync,
    R: Wait + Send + Sync,
    F: Fit<K, V> + Send + Sync,
>(cache: &unsharded::LruCache<K, V, R, F>, handle: &unsharded::CacheHandle<'_, K, V, R, F>) {
    crosses(cache);
    crosses(handle);
}

fn sharded_cross<
    K: Hash + Eq + Clone + Drop + Send + Sync,
    V: Drop + Send + Sync,
    R: Wait + Send + Sync,
    S: BuildHasher + Send + Sync,
    F: Fit<K, V> + Send + Sync,
>(cache: &sharded::LruCache<K, V, R, S, F>) {
    crosses(cache);
}

fn clocks_cross<
    K: Hash + Eq + Clone + Drop + Send + Sync,
    V: Drop + Send + Sync,
    R: Wait + Send + Sync,
    S: BuildHasher + Send + Sync,
    F: Fit<K, V> + Send + Sync,
>(cache: &clock::Cache<K, V, R, S, F>, handle: &clock::CacheHandle<'_, K, V, R, F>) {
    crosses(cache);
    crosses(handle);
}
