//! Handles of the clock: each has a pin of its own, and so has its clone.

use crate::assertions::assert_equal;
use crate::caches::{Clock, clock_with_shards};
use lru_clock::clock::{Cache, CacheHandle, Refusal};
use lru_support::hashers::ByOwnNumber;
use std::alloc::Global;
use std::sync::Wait;

// Clones a handle, invalidates its key, and makes the key again. Then clones the clone, and drops
// all handles but the last of the invalidated entry. Returns what that handle and the new one read,
// the total while both are held, and the total once only the new one is.
fn clones_twice<R: Wait>(cache: &Clock<u64, R>) -> Option<([u64; 2], [u128; 2])> {
    let first = cache.get_or_init(1, 3, |_| 5).ok()?;
    let second = first.try_clone().ok()?;
    cache.invalidate(&1);
    drop(first);
    let other = cache.get_or_init(1, 1, |_| 6).ok()?;
    let third = second.try_clone().ok()?;
    drop(second);
    let held = cache.total_charge();
    let values = [*third, *other];
    drop(third);
    Some((values, [held, cache.total_charge()]))
}

// Does this in a new cache of two shards, and also returns the number of entries that are left.
fn clones_in_new<R: Wait + Drop>(
    alloc: Global,
    rt: R,
) -> Option<(Option<([u64; 2], [u128; 2])>, usize)> {
    let cache: Clock<u64, R> = clock_with_shards(alloc, rt, 0, 2)?;
    Some((clones_twice(&cache), cache.len()))
}

// A clone keeps its value, and no new entry of the key takes its place.
#[test]
fn a_handle_is_cloned(rt: HostRuntime) {
    let told = clones_in_new(rt.alloc(), &rt);
    assert_equal(&rt, told, Some((Some(([5, 6], [4, 1])), 0)));
}

// Clones a handle, and returns what the clone reads.
fn read_of_clone<R: Wait>(handle: &CacheHandle<'_, u64, u64, R>) -> Result<u64, Refusal> {
    let clone = handle.try_clone()?;
    Ok(*clone)
}

// Pins key 1 three times, which is the maximum here, by an insertion and two clones. Returns what
// another clone reads, and what one reads once a handle was dropped.
fn clones_at_the_maximum<R: Wait>(cache: &Clock<u64, R>) -> Option<[Result<u64, Refusal>; 2]> {
    let first = cache.insert(&1, 2, 11).ok()?;
    let second = first.try_clone().ok()?;
    let third = second.try_clone().ok()?;
    let fourth = read_of_clone(&third);
    drop(first);
    Some([fourth, read_of_clone(&third)])
}

// Does this in a new cache.
fn clones_at_the_maximum_in_new<R: Wait + Drop>(
    alloc: Global,
    rt: R,
) -> Option<[Result<u64, Refusal>; 2]> {
    let made = Cache::with_most_pins(alloc, rt, 10, 1, ByOwnNumber, 3);
    let cache: Clock<u64, R> = made.ok()?;
    clones_at_the_maximum(&cache)
}

#[test]
fn a_clone_past_the_maximum_number_of_pins_is_refused(rt: HostRuntime) {
    let told = clones_at_the_maximum_in_new(rt.alloc(), &rt);
    assert_equal(&rt, told, Some([Err(Refusal::Overflow), Ok(11)]));
}
