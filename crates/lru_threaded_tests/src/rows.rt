//! Worked rows on a cache behind one lock, which are run on a cache of one owner elsewhere too. A
//! value has the number of its key, and each answer shows which values the call dropped.

use crate::seeded::player::Player;
use crate::threaded::Then::{AtOnce, Keep};
use crate::threaded::ThreadedCall::{self, Fail, Get, Init, LetGo, Prune, SetCapacity};
use concurrent_lru::unsharded;
use lru_support::drops::{DropLog, Logged};
use lru_support::tables::answers_as_expected;
use std::alloc::Global;
use std::sync::Wait;
use std::test;

// Makes the calls on a cache of this capacity, and then compares the total.
fn plays<R: Wait + Clone + Drop>(
    rt: &R,
    alloc: Global,
    capacity: u64,
    calls: &[(ThreadedCall, &str)],
    total: u64,
) -> Result<(), test::Fail> {
    let log = DropLog::new(alloc, rt)?;
    let cache: unsharded::LruCache<u64, Logged<R>, R> = unsharded::LruCache::new(
        alloc,
        rt.clone()?,
        capacity,
    );
    let mut player = Player::new(alloc, &cache, &log)?;
    answers_as_expected(alloc, &mut player, calls)?;
    let found = cache.total_charge();
    if found != total {
        return Err(test::Fail::new(format_args!("the total is {found}, not {total}")));
    }
    Ok(())
}

const OLDEST_LEAVES: [(ThreadedCall, &str); 3] = [
    (Init(1, 1, 1, AtOnce), "Made(1, 1), drops []"),
    (Init(2, 1, 2, AtOnce), "Made(2, 2), drops []"),
    (Init(3, 1, 3, AtOnce), "Made(3, 3), drops [1]"),
];

#[test]
fn the_oldest_idle_entry_leaves(rt: HostRuntime) -> Result<(), test::Fail> {
    plays(&rt, rt.alloc(), 2, &OLDEST_LEAVES, 2)
}

const PINNED_STAYS: [(ThreadedCall, &str); 9] = [
    (Init(1, 1, 1, AtOnce), "Made(1, 1), drops []"),
    (Init(2, 1, 2, AtOnce), "Made(2, 2), drops []"),
    (Init(3, 1, 3, AtOnce), "Made(3, 3), drops [1]"),
    (Init(4, 1, 4, Keep(0)), "Made(4, 4), drops [2]"),
    (Init(5, 1, 5, AtOnce), "Made(5, 5), drops [3]"),
    (Init(6, 1, 6, AtOnce), "Made(6, 6), drops [5]"),
    (LetGo(0), "Done, drops []"),
    (Init(7, 1, 7, AtOnce), "Made(7, 7), drops [6]"),
    (Init(8, 1, 8, AtOnce), "Made(8, 8), drops [4]"),
];

#[test]
fn a_pinned_entry_stays_and_becomes_the_newest(rt: HostRuntime) -> Result<(), test::Fail> {
    plays(&rt, rt.alloc(), 2, &PINNED_STAYS, 2)
}

const FAILED_EVICTS: [(ThreadedCall, &str); 5] = [
    (Init(1, 1, 1, AtOnce), "Made(1, 1), drops []"),
    (Init(2, 1, 2, AtOnce), "Made(2, 2), drops []"),
    (Fail(3, 2, AtOnce), "Failed(3), drops [1, 2]"),
    (Get(1, AtOnce), "Absent, drops []"),
    (Get(2, AtOnce), "Absent, drops []"),
];

#[test]
fn room_is_made_even_if_the_making_fails(rt: HostRuntime) -> Result<(), test::Fail> {
    plays(&rt, rt.alloc(), 2, &FAILED_EVICTS, 0)
}

const TOO_LARGE: [(ThreadedCall, &str); 3] = [
    (Init(1, 9, 1, Keep(0)), "Made(1, 1), drops []"),
    (LetGo(0), "Done, drops [1]"),
    (Get(1, AtOnce), "Absent, drops []"),
];

#[test]
fn an_entry_above_the_capacity_leaves_with_its_last_pin(rt: HostRuntime) -> Result<(), test::Fail> {
    plays(&rt, rt.alloc(), 5, &TOO_LARGE[..1], 9)?;
    plays(&rt, rt.alloc(), 5, &TOO_LARGE, 0)
}

const FIRST_CHARGE: [(ThreadedCall, &str); 2] = [
    (Init(1, 3, 1, AtOnce), "Made(1, 1), drops []"),
    (Init(1, 7, 2, AtOnce), "Found(1), drops [2]"),
];

#[test]
fn a_hit_keeps_the_charge_of_the_entry(rt: HostRuntime) -> Result<(), test::Fail> {
    plays(&rt, rt.alloc(), 10, &FIRST_CHARGE, 3)
}

const LAST_RELEASES: [(ThreadedCall, &str); 5] = [
    (Init(1, 1, 1, Keep(0)), "Made(1, 1), drops []"),
    (Init(2, 1, 2, Keep(1)), "Made(2, 2), drops []"),
    (LetGo(1), "Done, drops []"),
    (LetGo(0), "Done, drops []"),
    (Init(3, 1, 3, AtOnce), "Made(3, 3), drops [2]"),
];

#[test]
fn the_order_is_that_of_the_last_releases(rt: HostRuntime) -> Result<(), test::Fail> {
    plays(&rt, rt.alloc(), 2, &LAST_RELEASES, 2)
}

const NO_CAPACITY: [(ThreadedCall, &str); 2] = [
    (Init(1, 1, 1, AtOnce), "Made(1, 1), drops [1]"),
    (Get(1, AtOnce), "Absent, drops []"),
];

#[test]
fn without_capacity_nothing_is_idle(rt: HostRuntime) -> Result<(), test::Fail> {
    plays(&rt, rt.alloc(), 0, &NO_CAPACITY, 0)
}

const CHANGED: [(ThreadedCall, &str); 7] = [
    (Init(1, 3, 1, AtOnce), "Made(1, 1), drops []"),
    (Init(2, 2, 2, AtOnce), "Made(2, 2), drops []"),
    (Init(3, 4, 3, AtOnce), "Made(3, 3), drops []"),
    (SetCapacity(5), "Done, drops [1, 2]"),
    (SetCapacity(9), "Done, drops []"),
    (Get(1, AtOnce), "Absent, drops []"),
    (Prune, "Done, drops [3]"),
];

#[test]
fn a_smaller_capacity_evicts_at_once(rt: HostRuntime) -> Result<(), test::Fail> {
    plays(&rt, rt.alloc(), 9, &CHANGED, 0)
}
