//! Handles of the clock that cross threads.
ghost use Rattle.std.specs.Prelude.{◌<◌};

use crate::assertions::assert_equal;
use lru_clock::clock::{Cache, CacheHandle, Refusal};
use lru_support::hashers::ByOwnNumber;
use std::alloc::Global;
use std::sync::Wait;
use std::sync::atomic::AtomicU64;
use std::sync::atomic::Ordering::SeqCst;
use std::thread;
use std::thread::Threads;

type Numbers<R> = Cache<u64, u64, R, ByOwnNumber>;

// A cache of one shard.
fn numbers<R: Wait + Drop>(rt: R, alloc: Global, capacity: u64) -> Result<Numbers<R>, Refusal> {
    Cache::with_shards_hasher(alloc, rt, capacity, 1, ByOwnNumber)
}

// Returns the total once a spawned thread has read a handle, added the value to `read`, and dropped
// the handle.
fn total_once_read<R: Wait + Sync, T: Threads + Wait>(
    rt: &T,
    cache: &Numbers<R>,
    handle: CacheHandle<'_, u64, u64, R>,
    read: &AtomicU64,
) -> u128 {
    thread::scope(thread::scope_env(), rt, |scope| {
        let _started = scope.spawn(move || {
            read.fetch_add(*handle, SeqCst);
        });
    });
    cache.total_charge()
}

#[test]
fn a_thread_reads_and_drops_the_handle_of_another(rt: HostRuntime) {
    let own = rt.clone().expect(&rt, "memory");
    let cache = numbers(own, rt.alloc(), 2).expect(&rt, "memory");
    let handle = cache.get_or_init(1, 3, |_| 5).expect(&rt, "memory");
    let read = AtomicU64::new(0);
    assert_equal(&rt, cache.total_charge(), 3);
    // The total is above the capacity, so the entry leaves with its last pin.
    assert_equal(&rt, total_once_read(&rt, &cache, handle, &read), 0);
    assert_equal(&rt, read.load(SeqCst), 5);
}

// Returns the sum of what four threads read of a handle that they share.
fn read_by_four<R: Wait + Sync, T: Threads + Wait>(
    rt: &T,
    handle: &CacheHandle<'_, u64, u64, R>,
) -> u64 {
    let read = AtomicU64::new(0);
    let shared = &read;
    thread::scope(thread::scope_env(), rt, |scope| {
        for _ in 0..4u32 {
            let _started = scope.spawn(move || {
                shared.fetch_add(*handle.value(), SeqCst);
            });
        }
    });
    read.load(SeqCst)
}

#[test]
fn threads_share_a_handle(rt: HostRuntime) {
    let own = rt.clone().expect(&rt, "memory");
    let cache = numbers(own, rt.alloc(), 10).expect(&rt, "memory");
    let handle = cache.get_or_init(1, 3, |_| 5).expect(&rt, "memory");
    assert_equal(&rt, read_by_four(&rt, &handle), 20);
    assert_equal(&rt, cache.pinned_charge(), 3);
    drop(handle);
    assert_equal(&rt, cache.pinned_charge(), 0);
}
