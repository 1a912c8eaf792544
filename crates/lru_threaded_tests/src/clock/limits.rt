//! Calls of the clock by one thread: the limits of its numbers, more entries than its index began
//! with, each of its shards, and a value that is invalidated while it is made.
ghost use Rattle.std.specs.Prelude.{◌<◌};

use crate::assertions::{assert_equal, assert_equal_at};
use crate::caches::{Clock, clock_with_shards};
use crate::clock::invalidations::invalidates;
use lru_clock::clock::{Cache, Refusal};
use lru_support::hashers::ByOwnNumber;
use std::alloc::Global;
use std::hash::RandomState;
use std::sync::Wait;

// Makes a key's value as ten times the key, or finds it.
pub(crate) fn made<R: Wait>(cache: &Clock<u64, R>, key: u64, charge: u64) -> Result<u64, Refusal>
    requires { 0 < charge }
{
    let handle = cache.get_or_init(key, charge, |key| key.wrapping_mul(10))?;
    Ok(*handle)
}

// What is observed of a key with the maximum of pins, and of others.
#[derive(Clone, Copy, Debug, PartialEq, Eq)]
struct Limits {
    // The answers for this key, for another one, and for a charge that would take the total past
    // the maximum.
    answers: [Result<u64, Refusal>; 3],
    // Whether the key is refused another handle, and whether it has a value.
    is_refused: bool,
    has_value: bool,
    len: usize,
    // The answer for the key once it was invalidated.
    again: Result<u64, Refusal>,
}

// Holds key 1 three times, which is the maximum here, and asks for it and for others.
fn holds_three_times<R: Wait>(cache: &Clock<u64, R>) -> Limits {
    let first = cache.insert(&1, 2, 11);
    let (second, third) = (cache.find(&1), cache.find(&1));
    let answers = [
        made(cache, 1, 1),
        made(cache, 2, 1),
        made(cache, 3, u64::MAX),
    ];
    let is_refused = matches!(cache.find(&1), Err(Refusal::Overflow));
    let (has_value, len) = (cache.contains(&1), cache.len());
    cache.invalidate(&1);
    let again = made(cache, 1, 1);
    drop((first, second, third));
    Limits {
        answers,
        is_refused,
        has_value,
        len,
        again,
    }
}

// Does this in a new cache. Also returns the number of entries and the total that are left.
fn holds_in_new<R: Wait + Drop>(alloc: Global, rt: R) -> Option<(Limits, (usize, u128))> {
    let made = Cache::with_most_pins(alloc, rt, u64::MAX, 1, ByOwnNumber, 3);
    let cache: Clock<u64, R> = made.ok()?;
    let told = holds_three_times(&cache);
    Some((told, (cache.len(), cache.total_charge())))
}

// No fourth pin, and no second entry of the key. The keys 1 and 2 have the same tag.
#[test]
fn numbers_at_their_maximum_are_refused(rt: HostRuntime) {
    let limits = Limits {
        answers: [Err(Refusal::Overflow), Ok(20), Err(Refusal::Overflow)],
        is_refused: true,
        has_value: true,
        len: 2,
        again: Ok(10),
    };
    assert_equal(&rt, holds_in_new(rt.alloc(), &rt), Some((limits, (2, 2))));
}

// Makes 300 keys beside a held one. Returns whether each was made, the number of entries and the
// total, and which of three keys have a value.
fn makes_many<R: Wait>(cache: &Clock<u64, R>) -> (bool, (usize, u128), [bool; 3]) {
    let held = cache.insert(&1_000, 1, 5);
    let mut is_made = true;
    for key in 0..300u64 {
        is_made = is_made && made(cache, key, 1) == Ok(key.wrapping_mul(10));
    }
    let left = (cache.len(), cache.total_charge());
    let values = [1_000, 299, 0].map(|key| cache.contains(&key));
    drop(held);
    (is_made, left, values)
}

// Does this in a new cache.
fn makes_many_in_new<R: Wait + Drop>(
    alloc: Global,
    rt: R,
) -> Option<(bool, (usize, u128), [bool; 3])> {
    let cache: Clock<u64, R> = clock_with_shards(alloc, rt, 100, 1)?;
    Some(makes_many(&cache))
}

#[test]
fn many_entries_share_a_small_capacity(rt: HostRuntime) {
    let told = makes_many_in_new(rt.alloc(), &rt);
    assert_equal(&rt, told, Some((true, (100, 100), [true, true, false])));
}

// What the calls that go from shard to shard find in the one shard that has entries.
#[derive(Clone, Copy, Debug, PartialEq, Eq)]
struct Visits {
    len: usize,
    total: u128,
    pinned: u128,
    // The insertions that are counted, those that a reset returns, and those that are counted then.
    insertions: [u64; 3],
    // The sum of all shares of a smaller capacity, and which of the keys it leaves.
    shrunk: (u128, [bool; 3]),
    // Which of the keys a prune leaves.
    pruned: [bool; 3],
}

// Inserts three entries of the charge 2 into this one of three shards, and holds the last.
fn visits_one_shard<R: Wait>(cache: &Clock<u64, R>, shard: u64) -> Visits {
    let keys = [0, 3, 6].map(|number| shard.wrapping_add(number));
    drop(cache.insert(&keys[0], 2, 5));
    drop(cache.insert(&keys[1], 2, 5));
    let held = cache.insert(&keys[2], 2, 5);
    let (len, total, pinned) = (cache.len(), cache.total_charge(), cache.pinned_charge());
    let insertions = [
        cache.counts().insertions,
        cache.reset_counts().insertions,
        cache.counts().insertions,
    ];
    cache.set_capacity(12);
    let shrunk = (cache.capacity(), keys.map(|key| cache.contains(&key)));
    cache.prune();
    let pruned = keys.map(|key| cache.contains(&key));
    drop(held);
    Visits {
        len,
        total,
        pinned,
        insertions,
        shrunk,
        pruned,
    }
}

// Does this in a new cache of three shards.
fn visits_in_new<R: Wait + Drop>(alloc: Global, rt: R, shard: u64) -> Option<Visits> {
    let cache: Clock<u64, R> = clock_with_shards(alloc, rt, 30, 3)?;
    Some(visits_one_shard(&cache, shard))
}

#[test]
fn no_shard_is_left_out(rt: HostRuntime) {
    let wanted = Visits {
        len: 3,
        total: 6,
        pinned: 2,
        insertions: [3, 3, 0],
        shrunk: (12, [false, true, true]),
        pruned: [false, false, true],
    };
    for shard in 0..3u64 {
        let visits = visits_in_new(rt.alloc(), &rt, shard);
        assert_equal_at(&rt, visits, Some(wanted), ("shard", shard));
    }
}

// Makes key 1 with the charge 3, and invalidates it meanwhile; then makes it again with the charge
// 1. Returns what is read of both, whether the key has a value before the second, and the total
// while both are held and once the first is dropped.
fn invalidates_in_a_making<R: Wait>(
    cache: &Clock<u64, R>,
    is_since: bool,
) -> Option<([u64; 2], bool, [u128; 2])> {
    let first = cache
        .get_or_init(1, 3, |key| {
            invalidates(cache, *key, is_since);
            5
        })
        .ok()?;
    let has_value = cache.contains(&1);
    let second = cache.get_or_init(1, 1, |_| 6).ok()?;
    let values = [*first, *second];
    let held = cache.total_charge();
    drop(first);
    Some((values, has_value, [held, cache.total_charge()]))
}

// Does this in a new cache.
fn invalidates_in_new<R: Wait + Drop>(
    alloc: Global,
    rt: R,
    is_since: bool,
) -> Option<([u64; 2], bool, [u128; 2])> {
    let cache: Clock<u64, R> = clock_with_shards(alloc, rt, 10, 2)?;
    invalidates_in_a_making(&cache, is_since)
}

#[test]
fn an_invalidated_making_is_for_its_maker_alone(rt: HostRuntime) {
    for is_since in [false, true] {
        let told = invalidates_in_new(rt.alloc(), &rt, is_since);
        assert_equal(&rt, told, Some(([5, 6], false, [4, 1])));
    }
}

// Returns the capacities of a cache of 16 shards and of one of three, whose shares are rounded up.
fn capacities<R: Wait + Copy + Drop>(
    alloc: Global,
    rt: R,
    hashers: (RandomState, RandomState),
) -> Option<(u128, u128)> {
    let sixteen: Cache<u64, u64, R> = Cache::new(alloc, rt, 160, hashers.0).ok()?;
    let three: Cache<u64, u64, R> = Cache::with_shards(alloc, rt, 7, 3, hashers.1).ok()?;
    Some((sixteen.capacity(), three.capacity()))
}

#[test]
fn caches_are_made_with_shards(rt: HostRuntime) {
    let hashers = (
        RandomState::new(&rt).expect(&rt, "memory"),
        RandomState::new(&rt).expect(&rt, "memory"),
    );
    assert_equal(&rt, capacities(rt.alloc(), &rt, hashers), Some((160, 9)));
}
