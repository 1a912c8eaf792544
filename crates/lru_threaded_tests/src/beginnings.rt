//! Makings that begin and end by calls, without a closure, in a cache of one lock and in one with
//! shards.

use crate::assertions::{assert_equal, assert_equal_at};
use crate::caches::{OneLock, Shards, in_one_lock, in_shards};
use crate::flags::yield_until;
use concurrent_lru::counts::Counts;
use concurrent_lru::unsharded::{Begun, Refusal};
use std::alloc::Global;
use std::sync::Wait;
use std::thread;
use std::thread::Threads;

// What is told of a making: whether `try_begin` said meanwhile that the value is being made,
// whether a `find` found it meanwhile, the value that its maker got, what a `try_begin` found
// afterwards, what is pinned before and after the handles are dropped, and the counts.
type Made = (bool, bool, u64, Option<u64>, [u64; 2], Counts);

// Begins the making of a key, with the charge 2, and ends it with the value 7, perhaps with the
// charge 5.
fn makes<R: Wait>(cache: &OneLock<u64, R>, is_recharged: bool) -> Option<Made> {
    let Begun::Make(maker) = cache.begin(1, 2).ok()? else {
        return None;
    };
    let is_busy = cache.try_begin(1, 1).ok()?.is_none();
    let is_found = cache.find(&1).ok()?.is_some();
    let handle = if is_recharged {
        maker.ready_with(7, 5).ok()?
    } else {
        maker.ready(7).ok()?
    };
    let Some(Begun::Hit(found)) = cache.try_begin(1, 9).ok()? else {
        return None;
    };
    let values = (*handle, Some(*found));
    let pinned = cache.pinned_charge();
    drop(handle);
    drop(found);
    let left = cache.pinned_charge();
    Some((
        is_busy,
        is_found,
        values.0,
        values.1,
        [pinned, left],
        cache.counts(),
    ))
}

// A `try_begin` that finds the value being made counts as a miss, and pins nothing.
#[test]
fn a_making_begins_and_ends_by_calls(rt: HostRuntime) {
    for (is_recharged, charge) in [(false, 2), (true, 5)] {
        let made = in_one_lock(rt.alloc(), &rt, 10, |cache| makes(cache, is_recharged));
        let counts = Counts {
            hits: 1,
            misses: 3,
            makings: 1,
            insertions: 1,
            inserted_charge: u128::from(charge),
            ..Counts::default()
        };
        let wanted = Some((true, false, 7, Some(7), [charge, 0], counts));
        assert_equal_at(&rt, made, wanted, is_recharged);
    }
}

// Begins the making of a key, and drops the maker. Returns the number of entries then, the value
// that the next caller makes, and the counts.
fn drops_a_maker<R: Wait>(cache: &OneLock<u64, R>) -> Option<(usize, u64, Counts)> {
    let Begun::Make(maker) = cache.begin(1, 2).ok()? else {
        return None;
    };
    drop(maker);
    let len = cache.len();
    let Some(Begun::Make(maker)) = cache.try_begin(1, 3).ok()? else {
        return None;
    };
    let handle = maker.ready(8).ok()?;
    Some((len, *handle, cache.counts()))
}

#[test]
fn a_making_whose_maker_is_dropped_has_failed(rt: HostRuntime) {
    let told = in_one_lock(rt.alloc(), &rt, 10, |cache| drops_a_maker(cache));
    let counts = Counts {
        misses: 2,
        makings: 2,
        failures: 1,
        insertions: 2,
        removals: 1,
        inserted_charge: 5,
        removed_charge: 2,
        ..Counts::default()
    };
    assert_equal(&rt, told, Some((0, 8, counts)));
}

// Begins the making of a key, invalidates the key, and lets the next caller make it too. Returns
// what each of them reads, and what a `find` finds then.
fn invalidates_a_making<R: Wait>(cache: &OneLock<u64, R>) -> Option<([u64; 2], Option<u64>)> {
    let Begun::Make(first) = cache.begin(1, 2).ok()? else {
        return None;
    };
    cache.invalidate(&1);
    let Some(Begun::Make(second)) = cache.try_begin(1, 2).ok()? else {
        return None;
    };
    let (second, first) = (second.ready(6).ok()?, first.ready(5).ok()?);
    let found = cache.find(&1).ok()?;
    let found = found.map(|handle| *handle);
    Some(([*first, *second], found))
}

#[test]
fn only_its_maker_gets_a_value_that_is_invalidated(rt: HostRuntime) {
    let told = in_one_lock(rt.alloc(), &rt, 10, |cache| invalidates_a_making(cache));
    assert_equal(&rt, told, Some(([5, 6], Some(6))));
}

// What a strict limit of 10 refuses while a making of the charge 6 goes on: the making of another
// key, by both calls; nothing of the key that is being made; and a charge that is told too late.
// Then what a total that would pass `u64::MAX` refuses. At last, the number of entries and the
// counted refusals.
type Refused = (
    [Option<Refusal>; 2],
    bool,
    Option<Refusal>,
    Option<Refusal>,
    usize,
    u64,
);

fn is_refused<R: Wait>(cache: &OneLock<u64, R>) -> Option<Refused> {
    cache.set_strict_limit(true);
    let Begun::Make(maker) = cache.begin(1, 6).ok()? else {
        return None;
    };
    let full = [cache.begin(2, 5).err(), cache.try_begin(2, 5).err()];
    let is_busy = cache.try_begin(1, 99).ok()?.is_none();
    let late = maker.ready_with(7, 11).err();
    cache.set_strict_limit(false);
    let _held = cache.insert(&3, 1, 3).ok()?;
    let Begun::Make(maker) = cache.begin(1, 6).ok()? else {
        return None;
    };
    let too_large = maker.ready_with(7, u64::MAX).err();
    Some((
        full,
        is_busy,
        late,
        too_large,
        cache.len(),
        cache.counts().refusals,
    ))
}

#[test]
fn makings_are_refused_what_does_not_fit(rt: HostRuntime) {
    let told = in_one_lock(rt.alloc(), &rt, 10, |cache| is_refused(cache));
    let full = Some(Refusal::Full);
    let wanted = ([full, full], true, full, Some(Refusal::Overflow), 1, 4);
    assert_equal(&rt, told, Some(wanted));
}

// Begins the making of key 1, and drops the maker once another caller waits for the value. Returns
// whether one does.
fn gives_up<R: Wait>(cache: &OneLock<u64, R>) -> bool {
    let Ok(Begun::Make(maker)) = cache.begin(1, 3) else {
        return false;
    };
    let is_awaited = yield_until(|| cache.counts().waits > 0);
    drop(maker);
    is_awaited
}

// Waits for the value of key 1, with the charge 7, once another caller makes it. Makes it as 6 if
// it has to, and returns the value.
fn takes_over<R: Wait>(cache: &OneLock<u64, R>) -> Option<u64> {
    if !yield_until(|| cache.counts().makings > 0) {
        return None;
    }
    match cache.begin(1, 7).ok()? {
        Begun::Hit(_) => None,
        Begun::Make(maker) => Some(*maker.ready(6).ok()?),
    }
}

// Does both at the same time in a new cache. Also returns the counts.
fn hands_over<R: Threads + Wait + Sync>(rt: &R, alloc: Global) -> (bool, Option<u64>, Counts) {
    let cache: OneLock<u64, &R> = OneLock::new(alloc, rt, 10);
    let shared = &cache;
    let (is_awaited, value) = thread::join(
        rt,
        move || gives_up(shared),
        move || takes_over(shared),
    );
    (is_awaited, value, cache.counts())
}

// Who takes over a failed making keeps the entry, and its charge with it.
#[test]
fn who_waits_for_a_dropped_maker_is_the_next(rt: HostRuntime) {
    let counts = Counts {
        misses: 1,
        waits: 1,
        makings: 2,
        failures: 1,
        insertions: 1,
        inserted_charge: 3,
        ..Counts::default()
    };
    let told = hands_over(&rt, rt.alloc());
    assert_equal(&rt, told, (true, Some(6), counts));
}

// Begins the makings of eight keys, and ends every second. Returns how many were being made, the
// sum of the values that are ready then, and the counts of failures and misses.
fn makes_in_shards<R: Wait>(cache: &Shards<u64, R>) -> Option<(u64, u64, [u64; 2])> {
    let (mut busy, mut sum) = (0u64, 0u64);
    for key in 0..8u64 {
        let Begun::Make(maker) = cache.begin(key, 1).ok()? else {
            return None;
        };
        if cache.try_begin(key, 1).ok()?.is_none() {
            busy = busy.wrapping_add(1);
        }
        if key % 2 == 0 {
            drop(maker.ready(key).ok()?);
        }
    }
    for key in 0..8u64 {
        if let Some(Begun::Hit(handle)) = cache.try_begin(key, 1).ok()? {
            sum = sum.wrapping_add(*handle);
        }
    }
    let counts = cache.counts();
    Some((busy, sum, [counts.failures, counts.misses]))
}

#[test]
fn shards_have_makers_too(rt: HostRuntime) {
    let told = in_shards(rt.alloc(), &rt, 30, 3, |cache| makes_in_shards(cache));
    assert_equal(&rt, told.flatten(), Some((8, 12, [8, 20])));
}
