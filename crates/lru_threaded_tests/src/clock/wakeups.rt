//! A caller that waits for a value of the clock, until the key is invalidated while it is made, or
//! while other values become ready.
ghost use Rattle.std.specs.Prelude.{◌<◌};

use crate::assertions::{assert_equal, assert_equal_at};
use crate::caches::{Clock, clock_with_shards};
use crate::clock::invalidations::invalidates;
use crate::flags::{meets, pause, raise};
use lru_clock::clock::Begun;
use std::alloc::Global;
use std::sync::Wait;
use std::sync::atomic::AtomicU64;
use std::thread;
use std::thread::Threads;

// What the first caller does while it makes the value.
#[derive(Clone, Copy, Debug)]
enum Change {
    Invalidate,
    InvalidateSince,
    Clear,
    Insert,
}

// The progress of the two callers.
#[derive(Drop)]
struct Meeting {
    // Raised once the first makes the value.
    started: AtomicU64,
    // Raised before the second asks for it.
    coming: AtomicU64,
    // Raised once the second has a value.
    has_value: AtomicU64,
}

fn makes_change<R: Wait>(cache: &Clock<u64, R>, change: Change) {
    match change {
        Change::Invalidate => invalidates(cache, 1, false),
        Change::InvalidateSince => invalidates(cache, 1, true),
        Change::Clear => cache.clear(),
        Change::Insert => drop(cache.insert(&1, 1, 7)),
    }
}

// Makes key 1 as 5, and goes on only once the second caller, which comes meanwhile, has a value.
// Returns whether both took place, and what this caller reads.
fn comes_first<R: Wait>(
    cache: &Clock<u64, R>,
    meeting: &Meeting,
    told: Change,
) -> (bool, Option<u64>) {
    let mut met = false;
    let made = cache.get_or_init(1, 1, |_| {
        raise(&meeting.started);
        let came = meets(&meeting.coming);
        pause();
        makes_change(cache, told);
        met = came && meets(&meeting.has_value);
        5
    });
    match made {
        Ok(handle) => (met, Some(*handle)),
        Err(_) => (met, None),
    }
}

// Asks for key 1 while the first caller makes it. Makes it as 6 if it has to.
fn comes_second<R: Wait>(cache: &Clock<u64, R>, meeting: &Meeting) -> Option<u64> {
    if !meets(&meeting.started) {
        return None;
    }
    raise(&meeting.coming);
    let value = *cache.get_or_init(1, 1, |_| 6).ok()?;
    raise(&meeting.has_value);
    Some(value)
}

// Returns what the two callers of a new clock tell.
fn meet_in_new<T: Threads, R: Wait + Drop + Send + Sync>(
    rt: &T,
    alloc: Global,
    own: R,
    told: Change,
) -> Option<((bool, Option<u64>), Option<u64>)> {
    let cache: Clock<u64, R> = clock_with_shards(alloc, own, 10, 1)?;
    let meeting = Meeting {
        started: AtomicU64::new(0),
        coming: AtomicU64::new(0),
        has_value: AtomicU64::new(0),
    };
    let (shared, met) = (&cache, &meeting);
    Some(thread::join(
        rt,
        move || comes_first(shared, met, told),
        move || comes_second(shared, met),
    ))
}

#[test]
fn who_waits_for_an_invalidated_value_waits_no_longer(rt: HostRuntime) {
    let cases = [
        (Change::Invalidate, 6),
        (Change::InvalidateSince, 6),
        (Change::Clear, 6),
        (Change::Insert, 7),
    ];
    for (told, value) in cases {
        let seen = meet_in_new(&rt, rt.alloc(), &rt, told);
        assert_equal_at(&rt, seen, Some(((true, Some(5)), Some(value))), told);
    }
}

// How often `wakes_often` looks whether the other caller waits.
const LOOKS: u32 = 1_000_000;

// Makes key 1 as 5, and other keys while the other caller waits for key 1, which each of them
// wakes.
// Returns how many calls are counted that waited.
fn wakes_often<R: Wait>(cache: &Clock<u64, R>, started: &AtomicU64) -> Option<u64> {
    let Begun::Make(maker) = cache.begin(1, 1).ok()? else {
        return None;
    };
    raise(started);
    for _ in 0..LOOKS {
        if cache.counts().waits > 0 {
            break;
        }
        thread::yield_now();
    }
    for key in 2..200 {
        drop(cache.get_or_init(key, 1, |_| 0));
        thread::yield_now();
    }
    let waits = cache.counts().waits;
    drop(maker.ready(5));
    Some(waits)
}

// Waits for key 1 while the other caller makes it.
fn waits_once<R: Wait>(cache: &Clock<u64, R>, started: &AtomicU64) -> Option<u64> {
    if !meets(started) {
        return None;
    }
    Some(*cache.get_or_init(1, 1, |_| 6).ok()?)
}

// Returns what these two callers of a new clock of one shard tell.
fn wakes_in_new<T: Threads, R: Wait + Drop + Send + Sync>(
    rt: &T,
    alloc: Global,
    own: R,
) -> Option<(Option<u64>, Option<u64>)> {
    let cache: Clock<u64, R> = clock_with_shards(alloc, own, 10, 1)?;
    let started = AtomicU64::new(0);
    let (shared, flag) = (&cache, &started);
    Some(thread::join(
        rt,
        move || wakes_often(shared, flag),
        move || waits_once(shared, flag),
    ))
}

#[test]
fn a_call_that_is_woken_for_other_values_waited_once(rt: HostRuntime) {
    let told = wakes_in_new(&rt, rt.alloc(), &rt);
    assert_equal(&rt, told, Some((Some(1), Some(5))));
}
