//! Handles: each has a pin of its own, and so has its clone. An owned one keeps its cache alive.
ghost use Rattle.std.specs.Prelude.{◌<◌};

use crate::assertions::{assert_equal, assert_equal_at};
use crate::caches::{OneLock, Shards, in_one_lock, with_shards};
use concurrent_lru::counts::Counts;
use concurrent_lru::lru_core::Refusal;
use concurrent_lru::unsharded::GetError;
use concurrent_lru::{sharded, unsharded};
use lru_support::hashers::ByOwnNumber;
use std::alloc::Global;
use std::process::Abort;
use std::sync::{Arc, Wait};
use std::thread;
use std::thread::Threads;

// Clones a handle, invalidates its key, and clones the clone. Returns what the last handle reads,
// and the total while only it is held.
fn clones_twice<R: Wait>(cache: &OneLock<u64, R>) -> Option<(u64, u64)> {
    let first = cache.get_or_init(1, 3, |_| 5).ok()?;
    let second = first.try_clone().ok()?;
    cache.invalidate(&1);
    drop(first);
    let third = second.try_clone().ok()?;
    drop(second);
    Some((*third, cache.total_charge()))
}

// The shards of a cache have the same handles.
#[test]
fn a_handle_is_cloned(rt: HostRuntime) {
    let told = in_one_lock(rt.alloc(), &rt, 0, |cache| {
        (clones_twice(cache), cache.total_charge())
    });
    assert_equal(&rt, told, (Some((5, 3)), 0));
}

// An owner of a cache whose keys and values are numbers.
trait CacheOwner {
    // A handle, which pins a value and owns a reference to the cache.
    type Handle: Drop;

    fn value_of(handle: &Self::Handle) -> u64;

    // Calls `try_clone`.
    fn clone_of(handle: &Self::Handle) -> Option<Self::Handle>;

    // Calls `get_owned`.
    fn get(&self, key: u64) -> Result<Option<Self::Handle>, Refusal>;

    // Calls `get_or_init_owned` with a charge of 3 and an `init` that returns this value.
    fn init(&self, key: u64, value: u64) -> Result<Self::Handle, Refusal>;

    // Calls `get_or_try_init_owned` with a charge of 4 and an `init` that returns this value or
    // this error.
    fn try_init(&self, key: u64, value: Result<u64, u64>) -> Result<Self::Handle, GetError<u64>>;

    // Returns the number of owners of the cache, and its pinned charge.
    fn owners_and_pinned(&self) -> (usize, u128);

    // Calls `counts`.
    fn counts(&self) -> Counts;
}

impl<R: Wait + Drop> CacheOwner for Arc<OneLock<u64, R>> {
    type Handle = unsharded::OwnedHandle<u64, u64, R>;

    fn value_of(handle: &Self::Handle) -> u64 {
        *handle.value()
    }

    fn clone_of(handle: &Self::Handle) -> Option<Self::Handle> {
        handle.try_clone().ok()
    }

    fn get(&self, key: u64) -> Result<Option<Self::Handle>, Refusal> {
        unsharded::LruCache::get_owned(self, &key)
    }

    fn init(&self, key: u64, value: u64) -> Result<Self::Handle, Refusal> {
        unsharded::LruCache::get_or_init_owned(self, &key, 3, |_| value)
    }

    fn try_init(&self, key: u64, value: Result<u64, u64>) -> Result<Self::Handle, GetError<u64>> {
        unsharded::LruCache::get_or_try_init_owned(self, &key, 4, |_| value)
    }

    fn owners_and_pinned(&self) -> (usize, u128) {
        (Arc::strong_count(self), u128::from(self.pinned_charge()))
    }

    fn counts(&self) -> Counts {
        unsharded::LruCache::counts(self)
    }
}

impl<R: Wait + Drop> CacheOwner for Arc<Shards<u64, R>> {
    type Handle = sharded::OwnedHandle<u64, u64, R, ByOwnNumber>;

    fn value_of(handle: &Self::Handle) -> u64 {
        *handle.value()
    }

    fn clone_of(handle: &Self::Handle) -> Option<Self::Handle> {
        handle.try_clone().ok()
    }

    fn get(&self, key: u64) -> Result<Option<Self::Handle>, Refusal> {
        sharded::LruCache::get_owned(self, &key)
    }

    fn init(&self, key: u64, value: u64) -> Result<Self::Handle, Refusal> {
        sharded::LruCache::get_or_init_owned(self, &key, 3, |_| value)
    }

    fn try_init(&self, key: u64, value: Result<u64, u64>) -> Result<Self::Handle, GetError<u64>> {
        sharded::LruCache::get_or_try_init_owned(self, &key, 4, |_| value)
    }

    fn owners_and_pinned(&self) -> (usize, u128) {
        (Arc::strong_count(self), self.pinned_charge())
    }

    fn counts(&self) -> Counts {
        sharded::LruCache::counts(self)
    }
}

// What is observed of four handles of one entry, in a cache that keeps nothing idle and has one
// other owner.
#[derive(Clone, Copy, Debug, PartialEq, Eq)]
struct FourHandles {
    // The values that the four read.
    values: [u64; 4],
    // The number of owners of the cache and the pinned charge while all exist, and while only the
    // last does.
    held: [(usize, u128); 2],
    // The same once all are dropped.
    dropped: (usize, u128),
    // What all the calls counted.
    counts: Counts,
}

const FOUR_HANDLES: FourHandles = FourHandles {
    values: [5; 4],
    held: [(5, 3), (2, 3)],
    dropped: (1, 0),
    counts: Counts {
        hits: 2,
        misses: 3,
        waits: 0,
        refusals: 0,
        makings: 2,
        failures: 1,
        insertions: 2,
        evictions: 1,
        removals: 1,
        entries_before: 0,
        inserted_charge: 7,
        evicted_charge: 3,
        removed_charge: 4,
        charge_before: 0,
    },
};

// Asks for a key, and fails to make it; makes it, asks twice, and clones a handle. Then drops the
// four handles. Returns `None` if a call answers otherwise.
fn holds_four<C: CacheOwner>(cache: &C, key: u64) -> Option<FourHandles> {
    let Ok(None) = cache.get(key) else {
        return None;
    };
    let Err(GetError::Init(9)) = cache.try_init(key, Err(9)) else {
        return None;
    };
    let first = cache.init(key, 5).ok()?;
    let second = cache.try_init(key, Ok(6)).ok()?;
    let third = cache.get(key).ok()??;
    let fourth = C::clone_of(&third)?;
    let values = [
        C::value_of(&first),
        C::value_of(&second),
        C::value_of(&third),
        C::value_of(&fourth),
    ];
    let all = cache.owners_and_pinned();
    drop((first, second, third));
    let held = [all, cache.owners_and_pinned()];
    drop(fourth);
    Some(FourHandles {
        values,
        held,
        dropped: cache.owners_and_pinned(),
        counts: cache.counts(),
    })
}

// Creates a cache that keeps nothing idle.
fn one_lock<R: Wait + Drop>(alloc: Global, rt: R) -> Option<Arc<OneLock<u64, R>>> {
    Arc::new(alloc, OneLock::new(alloc, rt, 0)).ok()
}

// Creates a cache of three shards that keeps nothing idle.
fn three_shards<R: Wait + Clone + Drop>(alloc: Global, rt: R) -> Option<Arc<Shards<u64, R>>> {
    Arc::new(alloc, with_shards(alloc, rt, 0, 3)?).ok()
}

fn four_of_one_lock<R: Wait + Drop>(alloc: Global, rt: R) -> Option<FourHandles> {
    holds_four(&one_lock(alloc, rt)?, 1)
}

fn four_of_a_shard<R: Wait + Clone + Drop>(alloc: Global, rt: R, key: u64) -> Option<FourHandles> {
    holds_four(&three_shards(alloc, rt)?, key)
}

#[test]
fn an_entry_stays_until_its_owned_handles_are_dropped(rt: HostRuntime) {
    assert_equal(&rt, four_of_one_lock(rt.alloc(), &rt), Some(FOUR_HANDLES));
    for key in 0..3u64 {
        let told = four_of_a_shard(rt.alloc(), &rt, key);
        assert_equal_at(&rt, told, Some(FOUR_HANDLES), ("key", key));
    }
}

// Reads a handle and drops it.
fn read_last<R: Wait + Drop>(handle: unsharded::OwnedHandle<u64, u64, R>) -> u64 {
    *handle
}

// Reads a handle of a cache with shards and drops it.
fn read_last_of_shards<R: Wait + Drop>(
    handle: sharded::OwnedHandle<u64, u64, R, ByOwnNumber>,
) -> u64 {
    *handle
}

// Returns what another thread reads of a handle whose cache has no other owner.
fn read_elsewhere<R: Wait + Drop + Send + Sync + 'static, T: Threads + Abort>(
    rt: &T,
    alloc: Global,
    own: R,
) -> u64 {
    let cache = one_lock(alloc, own).expect(rt, "memory");
    let handle = CacheOwner::init(&cache, 1, 5).expect(rt, "memory");
    drop(cache);
    let reader = thread::spawn(rt, move || read_last(handle)).expect(rt, "a thread");
    reader.join(rt)
}

// Does the same with a cache of shards.
fn read_of_shards_elsewhere<R: Wait + Clone + Drop + Send + Sync + 'static, T: Threads + Abort>(
    rt: &T,
    alloc: Global,
    own: R,
) -> u64 {
    let cache = three_shards(alloc, own).expect(rt, "memory");
    let handle = CacheOwner::init(&cache, 1, 5).expect(rt, "memory");
    drop(cache);
    let reader = thread::spawn(rt, move || read_last_of_shards(handle)).expect(rt, "a thread");
    reader.join(rt)
}

#[test]
fn an_owned_handle_keeps_its_cache_alive(rt: HostRuntime) {
    let own = rt.clone().expect(&rt, "memory");
    assert_equal(&rt, read_elsewhere(&rt, rt.alloc(), own), 5);
    let own = rt.clone().expect(&rt, "memory");
    assert_equal(&rt, read_of_shards_elsewhere(&rt, rt.alloc(), own), 5);
}
