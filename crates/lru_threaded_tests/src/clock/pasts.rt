//! Threads that invalidate a key, and then find nothing from before.
ghost use Rattle.std.specs.Prelude.{◌≡◌, ◌<◌};

use lru_clock::clock::{Cache, CacheHandle, Refusal};
use lru_support::hashers::ByOwnNumber;
use std::alloc::Global;
use std::process::Abort;
use std::sync::Wait;
use std::sync::atomic::AtomicU64;
use std::sync::atomic::Ordering::SeqCst;
use std::thread;
use std::thread::Threads;

type Numbers<R> = Cache<u64, u64, R, ByOwnNumber>;

// A cache of one shard.
fn numbers<R: Wait + Drop>(rt: R, alloc: Global, capacity: u64) -> Result<Numbers<R>, Refusal> {
    Cache::with_shards_hasher(alloc, rt, capacity, 1, ByOwnNumber)
}

// Returns the value that a call found, and drops its handle.
pub(crate) fn value_of<R: Wait>(
    found: Result<Option<CacheHandle<'_, u64, u64, R>>, Refusal>,
) -> Option<u64> {
    match found {
        Ok(Some(handle)) => Some(*handle),
        _ => None,
    }
}

#[test]
fn a_caller_finds_nothing_from_before_its_invalidate(rt: HostRuntime) {
    let cache = numbers(&rt, rt.alloc(), 10).expect(&rt, "memory");
    replaces_a_value(&rt, &cache);
    keeps_a_past(&rt, &cache);
    learns_of_a_handle(&rt, &cache);
}

fn replaces_a_value<R: Wait>(rt: &impl Abort, cache: &Numbers<R>) {
    let mut past = cache.past(&1);
    drop(cache.insert(&1, 1, 10));
    assert_eq!(rt; value_of(cache.find_since(&1, &mut past)), Some(10));
    cache.invalidate_since(&1, &mut past);
    assert_eq!(rt; value_of(cache.find_since(&1, &mut past)), None);
    assert_eq!(rt; value_of(cache.find(&1)), None);
    assert_eq!(rt; (cache.contains(&1), cache.len()), (false, 0));
    drop(cache.insert(&1, 1, 11));
    assert_eq!(rt; value_of(cache.find_since(&1, &mut past)), Some(11));
}

// An `invalidate` by another caller changes no past.
fn keeps_a_past<R: Wait>(rt: &impl Abort, cache: &Numbers<R>) {
    let mut past = cache.past(&2);
    let mut copy = past.again();
    drop(cache.insert(&2, 1, 20));
    cache.invalidate(&2);
    drop(cache.insert(&2, 1, 21));
    assert_eq!(rt; value_of(cache.find_since(&2, &mut past)), Some(21));
    assert_eq!(rt; value_of(cache.find_since(&2, &mut copy)), Some(21));
}

// A past that has learned of a handle does not find its entry again, whatever call returned it.
fn learns_of_a_handle<R: Wait>(rt: &impl Abort, cache: &Numbers<R>) {
    let mut past = cache.past(&3);
    let handle = cache.get_or_init(3, 1, |_| 30).expect(rt, "memory");
    past.learn(&handle);
    assert_eq!(rt; value_of(cache.find_since(&3, &mut past)), Some(30));
    cache.invalidate_since(&3, &mut past);
    assert_eq!(rt; value_of(cache.find_since(&3, &mut past)), None);
    assert_eq!(rt; (*handle, cache.contains(&3)), (30, false));
}

// Gives the source of a key's value the next number, and returns whether the cache then has no
// older one, whatever others make meanwhile.
fn is_fresh_after_an_update<R: Wait>(cache: &Numbers<R>, source: &AtomicU64) -> bool {
    let mut past = cache.past(&1);
    let number = source.fetch_add(1, SeqCst).wrapping_add(1);
    cache.invalidate_since(&1, &mut past);
    makes(cache, source);
    match cache.find_since(&1, &mut past) {
        Ok(Some(handle)) => *handle >= number,
        Ok(None) => true,
        Err(_) => false,
    }
}

fn makes<R: Wait>(cache: &Numbers<R>, source: &AtomicU64) {
    drop(cache.get_or_init(1, 1, |_| source.load(SeqCst)));
}

// Returns how many of the answers to four threads were too old.
fn old_answers<R: Threads + Wait + Sync, W: Wait + Send + Sync>(rt: &R, cache: &Numbers<W>) -> u64 {
    let source = AtomicU64::new(0);
    let old = AtomicU64::new(0);
    let (from, count) = (&source, &old);
    thread::scope(thread::scope_env(), rt, |scope| {
        for _ in 0..4u32 {
            let _started = scope.spawn(move || updates(cache, from, count));
        }
    });
    old.load(SeqCst)
}

fn updates<R: Wait>(cache: &Numbers<R>, source: &AtomicU64, old: &AtomicU64) {
    for _ in 0..1_000u32 {
        if !is_fresh_after_an_update(cache, source) {
            old.fetch_add(1, SeqCst);
        }
    }
}

#[test]
fn threads_find_nothing_from_before_their_invalidate(rt: HostRuntime) {
    let own = rt.clone().expect(&rt, "memory");
    let cache = numbers(own, rt.alloc(), 10).expect(&rt, "memory");
    assert_eq!(rt; old_answers(&rt, &cache), 0);
}
