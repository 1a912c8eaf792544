//! Handles of the clock that keep their cache alive. Each is counted with the pins of its entry.
ghost use Rattle.std.specs.Prelude.{◌<◌};

use crate::assertions::{assert_equal, assert_equal_at};
use crate::caches::{Clock, clock_with_shards};
use lru_clock::clock::{Cache, GetError, OwnedHandle, Refusal};
use lru_support::drops::{DropLog, Logged};
use lru_support::hashers::ByOwnNumber;
use std::alloc::Global;
use std::process::Abort;
use std::sync::{Arc, Wait};
use std::thread;
use std::thread::Threads;

// Creates a cache of three shards with this capacity.
fn three_shards<V: Drop, R: Wait + Drop>(
    alloc: Global,
    rt: R,
    capacity: u64,
) -> Option<Arc<Clock<V, R>>> {
    Arc::new(alloc, clock_with_shards(alloc, rt, capacity, 3)?).ok()
}

// What is observed of a cache: its owners, its pinned charge, its total, and what a visit shows of
// the number of pins, of all entries together.
#[derive(Clone, Copy, Debug, PartialEq, Eq)]
struct Observed {
    owners: usize,
    pinned: u128,
    total: u128,
    pins: u32,
}

fn observes<V: Drop, R: Wait + Drop>(cache: &Arc<Clock<V, R>>) -> Observed {
    let mut shown = 0u32;
    cache.for_each(|_, _, _, pins| shown = shown.saturating_add(pins));
    Observed {
        owners: Arc::strong_count(cache),
        pinned: cache.pinned_charge(),
        total: cache.total_charge(),
        pins: shown,
    }
}

// Asks for a key, and fails to make it; makes it, asks twice, and clones a handle. Then drops all
// four handles but the last, and that too. Returns what the four read, and what is observed while
// all exist, while only the last does, and at the end. Returns `None` if a call answers otherwise.
fn holds_four<R: Wait + Drop>(
    cache: &Arc<Clock<u64, R>>,
    key: u64,
) -> Option<([u64; 4], [Observed; 3])> {
    let Ok(None) = Cache::get_owned(cache, &key) else {
        return None;
    };
    let Err(GetError::Init(9)) = Cache::get_or_try_init_owned(cache, &key, 4, |_| Err(9)) else {
        return None;
    };
    let first = Cache::get_or_init_owned(cache, &key, 3, |_| 5).ok()?;
    let second = Cache::get_or_try_init_owned(cache, &key, 4, |_| Ok::<u64, u64>(6)).ok()?;
    let third = Cache::get_owned(cache, &key).ok()??;
    let fourth = third.try_clone().ok()?;
    let values = [*first.value(), *second, *third, *fourth];
    let all = observes(cache);
    drop((first, second, third));
    let last = observes(cache);
    drop(fourth);
    Some((values, [all, last, observes(cache)]))
}

// Does this in a new cache that keeps nothing idle.
fn four_in_new<R: Wait + Drop>(
    alloc: Global,
    rt: R,
    key: u64,
) -> Option<([u64; 4], [Observed; 3])> {
    holds_four(&three_shards(alloc, rt, 0)?, key)
}

#[test]
fn an_entry_stays_until_its_owned_handles_are_dropped(rt: HostRuntime) {
    let all = Observed {
        owners: 5,
        pinned: 3,
        total: 3,
        pins: 4,
    };
    let last = Observed {
        owners: 2,
        pins: 1,
        ..all
    };
    let none = Observed {
        owners: 1,
        pinned: 0,
        total: 0,
        pins: 0,
    };
    for key in 0..3u64 {
        let told = four_in_new(rt.alloc(), &rt, key);
        assert_equal_at(&rt, told, Some(([5; 4], [all, last, none])), ("key", key));
    }
}

// A value that adds its number to a log when it is dropped.
type Noted<R> = Arc<Logged<R>>;

// Makes key 1 with a logged value, pins it by two owned handles and a borrowed one, and invalidates
// it. Drops the borrowed handle, then the cache and an owned one. Returns the last owned handle.
fn keeps_the_last<R: Wait + Clone + Drop>(
    cache: Arc<Clock<Noted<R>, R>>,
    value: Noted<R>,
) -> Option<OwnedHandle<u64, Noted<R>, R, ByOwnNumber>> {
    let borrowed = cache.insert(&1, 3, value).ok()?;
    let first = Cache::get_owned(&cache, &1).ok()??;
    let second = first.try_clone().ok()?;
    cache.invalidate(&1);
    drop(borrowed);
    let None = cache.find(&1).ok()? else {
        return None;
    };
    drop(cache);
    drop(first);
    Some(second)
}

// Does this in a new cache. Returns the numbers of the values that were dropped while the last
// handle is held, and once it is dropped.
fn drops_of_a_value<R: Wait + Clone + Drop>(alloc: Global, rt: R) -> Option<[Vec<u64>; 2]> {
    let log = DropLog::new(alloc, &rt).ok()?;
    let value = Arc::new(alloc, log.value(7).ok()?).ok()?;
    let last = keeps_the_last(three_shards(alloc, rt, 10)?, value)?;
    let held = log.numbers().ok()?;
    drop(last);
    Some([held, log.numbers().ok()?])
}

// The value is dropped once: with the last handle of its entry, which was invalidated, and with
// which the cache goes too.
#[test]
fn a_value_is_dropped_with_its_last_owned_handle(rt: HostRuntime) {
    let own = rt.clone().expect(&rt, "memory");
    let told = drops_of_a_value(rt.alloc(), own).expect(&rt, "memory");
    let [held, dropped] = told;
    assert_equal(&rt, held.len(), 0);
    assert_equal(&rt, (dropped.len(), dropped.get(0).copied()), (1, Some(7)));
}

// Pins key 1, whose entries have at most two pins here, by two borrowed handles and two owned ones.
// Returns what a third of each kind is refused with.
fn pins_at_the_maximum<R: Wait + Drop>(cache: &Arc<Clock<u64, R>>) -> Option<[Option<Refusal>; 3]> {
    let first = cache.insert(&1, 2, 11).ok()?;
    let second = first.try_clone().ok()?;
    let full = Cache::get_owned(cache, &1).err();
    drop(second);
    let owned = Cache::get_owned(cache, &1).ok()??;
    let other = Cache::get_owned(cache, &1).ok()??;
    let last = first.try_clone().ok()?;
    let clone = owned.try_clone().err();
    drop((last, first));
    let found = Cache::get_owned(cache, &1).err();
    drop((owned, other));
    Some([full, clone, found])
}

// Does this in a new cache.
fn pins_at_the_maximum_in_new<R: Wait + Drop>(
    alloc: Global,
    rt: R,
) -> Option<[Option<Refusal>; 3]> {
    let made = Cache::with_most_pins(alloc, rt, 10, 1, ByOwnNumber, 2);
    pins_at_the_maximum(&Arc::new(alloc, made.ok()?).ok()?)
}

// Owned handles have a maximum of their own.
#[test]
fn an_owned_handle_past_the_maximum_is_refused(rt: HostRuntime) {
    let told = pins_at_the_maximum_in_new(rt.alloc(), &rt);
    assert_equal(&rt, told, Some([Some(Refusal::Overflow); 3]));
}

// Reads a handle and drops it.
fn read_last<R: Wait + Drop>(handle: OwnedHandle<u64, u64, R, ByOwnNumber>) -> u64 {
    *handle
}

// Returns what another thread reads of a handle whose cache has no other owner.
fn read_elsewhere<R: Wait + Drop + Send + Sync + 'static, T: Threads + Abort>(
    rt: &T,
    alloc: Global,
    own: R,
) -> u64 {
    let cache = three_shards(alloc, own, 0).expect(rt, "memory");
    let handle = Cache::get_or_init_owned(&cache, &1, 3, |_| 5).expect(rt, "memory");
    drop(cache);
    let reader = thread::spawn(rt, move || read_last(handle)).expect(rt, "a thread");
    reader.join(rt)
}

#[test]
fn an_owned_handle_keeps_its_cache_alive(rt: HostRuntime) {
    let own = rt.clone().expect(&rt, "memory");
    assert_equal(&rt, read_elsewhere(&rt, rt.alloc(), own), 5);
}
