//! Makings of the clock that begin and end by calls, without a closure, and charges that are told
//! with the value.

use crate::assertions::assert_equal;
use crate::caches::{Clock, clock_with_shards};
use lru_clock::clock::{Begun, Refusal};
use std::alloc::Global;
use std::sync::Wait;

// What is told of a making: whether `try_begin` said meanwhile that the value is being made,
// whether a `find` found it meanwhile, the value that its maker got, what a `begin` found
// afterwards, and the total.
type Told = (bool, bool, u64, Option<u64>, u128);

// Begins the making of a key, with the charge 2, and ends it with the value 7, perhaps with the
// charge 5.
fn makes<R: Wait>(cache: &Clock<u64, R>, is_recharged: bool) -> Option<Told> {
    let Begun::Make(maker) = cache.begin(1, 2).ok()? else {
        return None;
    };
    let is_busy = cache.try_begin(1, 1).ok()?.is_none();
    let is_found = cache.find(&1).ok()?.is_some();
    let handle = if is_recharged {
        maker.ready_with(7, 5).ok()?
    } else {
        maker.ready(7).ok()?
    };
    let found = match cache.begin(1, 9).ok()? {
        Begun::Hit(handle) => Some(*handle),
        Begun::Make(_) => None,
    };
    Some((is_busy, is_found, *handle, found, cache.total_charge()))
}

// Does this in a new cache.
fn makes_in_new<R: Wait + Drop>(alloc: Global, rt: R, is_recharged: bool) -> Option<Told> {
    let cache: Clock<u64, R> = clock_with_shards(alloc, rt, 10, 2)?;
    makes(&cache, is_recharged)
}

#[test]
fn a_making_begins_and_ends_by_calls(rt: HostRuntime) {
    for (is_recharged, total) in [(false, 2u128), (true, 5)] {
        let told = makes_in_new(rt.alloc(), &rt, is_recharged);
        assert_equal(&rt, told, Some((true, false, 7, Some(7), total)));
    }
}

// Begins the making of a key, and drops the maker. Returns whether the next caller can make the
// value, the value that it gets, the counts of failures and makings, and the total.
fn drops_a_maker<R: Wait>(cache: &Clock<u64, R>) -> Option<(bool, u64, [u64; 2], u128)> {
    let Begun::Make(maker) = cache.begin(1, 2).ok()? else {
        return None;
    };
    drop(maker);
    let is_absent = !cache.contains(&1);
    let Some(Begun::Make(maker)) = cache.try_begin(1, 3).ok()? else {
        return None;
    };
    let handle = maker.ready(8).ok()?;
    let counts = cache.counts();
    Some((
        is_absent,
        *handle,
        [counts.failures, counts.makings],
        cache.total_charge(),
    ))
}

// Does this in a new cache.
fn drops_in_new<R: Wait + Drop>(alloc: Global, rt: R) -> Option<(bool, u64, [u64; 2], u128)> {
    let cache: Clock<u64, R> = clock_with_shards(alloc, rt, 10, 2)?;
    drops_a_maker(&cache)
}

#[test]
fn a_making_whose_maker_is_dropped_has_failed(rt: HostRuntime) {
    let told = drops_in_new(rt.alloc(), &rt);
    assert_equal(&rt, told, Some((true, 8, [1, 1], 3)));
}

// Makes a key whose charge is told with the value, and asks for it again. Then lets a loader fail,
// and one tell a charge that no total can have. Returns the values and charges, the refusal, the
// number of entries and the total.
fn tells_charges<R: Wait>(
    cache: &Clock<u64, R>,
) -> Option<([u64; 2], bool, Option<Refusal>, usize, u128)> {
    let made = cache.get_or_init_with(&1, |key| (*key + 6, 4)).ok()?;
    let found = cache.get_or_init_with(&1, |_| (0, 9)).ok()?;
    let has_failed = cache.get_or_try_init_with(&3, |_| Err(5)).is_err();
    let refused = cache.get_or_init_with(&5, |_| (0, u64::MAX)).err();
    Some((
        [*made, *found],
        has_failed,
        refused,
        cache.len(),
        cache.total_charge(),
    ))
}

// Does this in a new cache of one shard.
fn tells_in_new<R: Wait + Drop>(
    alloc: Global,
    rt: R,
) -> Option<([u64; 2], bool, Option<Refusal>, usize, u128)> {
    let cache: Clock<u64, R> = clock_with_shards(alloc, rt, 10, 1)?;
    tells_charges(&cache)
}

#[test]
fn a_charge_is_told_with_the_value(rt: HostRuntime) {
    let told = tells_in_new(rt.alloc(), &rt);
    assert_equal(
        &rt,
        told,
        Some(([7, 7], true, Some(Refusal::Overflow), 1, 4)),
    );
}
