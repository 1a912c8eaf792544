//! Resets of the counts while other threads use the cache: what a call adds to the counts is
//! returned by exactly one reset.
ghost use Rattle.std.specs.Prelude.{◌<◌};

use crate::assertions::assert_equal;
use crate::caches::{Clock, OneLock, Shards, clock_with_shards, in_one_lock, in_shards};
use lru_support::cached::Cached;
use std::alloc::Global;
use std::sync::Wait;
use std::thread;
use std::thread::Threads;

// A reference to a cache of numbers that counts the entries that were inserted.
trait Counting: Cached<u64> {
    // Calls `counts`.
    fn insertions(self) -> u64;

    // Calls `reset_counts`.
    fn reset_insertions(self) -> u64;
}

impl<'a, R: Wait> Counting for &'a OneLock<u64, R> {
    fn insertions(self) -> u64 {
        self.counts().insertions
    }

    fn reset_insertions(self) -> u64 {
        self.reset_counts().insertions
    }
}

impl<'a, R: Wait> Counting for &'a Shards<u64, R> {
    fn insertions(self) -> u64 {
        self.counts().insertions
    }

    fn reset_insertions(self) -> u64 {
        self.reset_counts().insertions
    }
}

impl<'a, R: Wait> Counting for &'a Clock<u64, R> {
    fn insertions(self) -> u64 {
        self.counts().insertions
    }

    fn reset_insertions(self) -> u64 {
        self.reset_counts().insertions
    }
}

const RESETS: u32 = 2_000;

const INSERTIONS: u64 = 20_000;

// A cache as threads use it that insert and reset. It has no associated type, since the checker
// supports no closure of a thread over a type that has one.
trait CountingCache {
    // Inserts 20,000 values. Returns how many of these calls succeeded.
    fn insert_often(&self) -> u64;

    // Resets the counts 2,000 times. Returns how many insertions the resets reported.
    fn reset_often(&self) -> u64;

    // Returns how many insertions are counted.
    fn insertions_now(&self) -> u64;
}

impl<C: Counting> CountingCache for C {
    fn insert_often(&self) -> u64 {
        let mut inserted: u64 = 0;
        for key in 0..INSERTIONS {
            if self.insert(key % 8, 1, key).is_ok() {
                inserted = inserted.wrapping_add(1);
            }
        }
        inserted
    }

    fn reset_often(&self) -> u64 {
        let mut told: u64 = 0;
        for _ in 0..RESETS {
            told = told.wrapping_add(self.reset_insertions());
            thread::yield_now();
        }
        told
    }

    fn insertions_now(&self) -> u64 {
        self.insertions()
    }
}

// Returns how many values two threads inserted while a third reset the counts, and how many the
// resets reported, with what is counted at the end.
fn inserted_and_told<T: Threads + Sync, C: CountingCache + Sync>(rt: &T, cache: &C) -> (u64, u64) {
    let (told, (one, other)) = thread::join(
        rt,
        move || cache.reset_often(),
        move || thread::join(
            rt,
            move || cache.insert_often(),
            move || cache.insert_often(),
        ),
    );
    (
        one.wrapping_add(other),
        told.wrapping_add(cache.insertions_now()),
    )
}

// Does this in a new clock of three shards.
fn inserted_and_told_in_clock<T: Threads + Sync, R: Wait + Drop + Send + Sync>(
    rt: &T,
    alloc: Global,
    own: R,
) -> Option<(u64, u64)> {
    let cache: Clock<u64, R> = clock_with_shards(alloc, own, 6, 3)?;
    Some(inserted_and_told(rt, &&cache))
}

#[test]
fn each_call_is_counted_in_one_reset(rt: HostRuntime) {
    let told = in_one_lock(rt.alloc(), &rt, 6, |cache| inserted_and_told(&rt, &cache));
    assert_equal(&rt, told, (40_000, 40_000));
    let told = in_shards(
        rt.alloc(),
        &rt,
        6,
        3,
        |cache| inserted_and_told(&rt, &cache),
    );
    assert_equal(&rt, told, Some((40_000, 40_000)));
    let told = inserted_and_told_in_clock(&rt, rt.alloc(), &rt);
    assert_equal(&rt, told, Some((40_000, 40_000)));
}
