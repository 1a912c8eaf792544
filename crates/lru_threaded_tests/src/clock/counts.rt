//! What the clock counts of calls that are refused, fail, hit, or find nothing to do.
ghost use Rattle.std.specs.Prelude.{◌<◌};

use crate::assertions::assert_equal;
use crate::caches::{Clock, clock_with_shards};
use lru_clock::clock::{Counts, Refusal};
use std::alloc::Global;
use std::sync::Wait;

// Returns whether a call was refused for a charge that would take the total past the maximum.
fn is_overflow<T>(answer: &Result<T, Refusal>) -> bool {
    matches!(answer, Err(Refusal::Overflow))
}

// Holds key 1. Then inserts key 3 and asks for key 5 with too large a charge, and makes key 7,
// whose loader returns such a charge. Returns whether each call was refused.
fn refused<R: Wait>(cache: &Clock<u64, R>) -> [bool; 3] {
    let held = cache.insert(&1, 2, 5);
    let answers = [
        is_overflow(&cache.insert(&3, u64::MAX, 6)),
        is_overflow(&cache.get_or_init(5, u64::MAX, |_| 7)),
        is_overflow(&cache.get_or_init_with(&7, |_| (8, u64::MAX))),
    ];
    drop(held);
    answers
}

// Fails to make key 9, finds key 1, and removes a key that has no entry.
fn without_effect<R: Wait>(cache: &Clock<u64, R>) {
    drop(cache.get_or_try_init(9, 1, |_| -> Result<u64, u8> { Err(9) }));
    drop(cache.get_or_init(1, 1, |_| 6));
    drop(cache.find(&1));
    cache.advise(&11);
    cache.invalidate(&11);
}

// Does both, and then invalidates key 1 while it is held. Returns whether the calls were refused,
// and the counts before that handle is dropped, as they are reset afterwards, and after that.
fn counts<R: Wait>(cache: &Clock<u64, R>) -> ([bool; 3], [Counts; 3]) {
    let answers = refused(cache);
    without_effect(cache);
    let held = cache.find(&1);
    cache.invalidate(&1);
    let before = cache.counts();
    drop(held);
    let reset = cache.reset_counts();
    (answers, [before, reset, cache.counts()])
}

// Does this in a new cache, in one of its two shards.
fn counts_in_new<R: Wait + Drop>(alloc: Global, rt: R) -> Option<([bool; 3], [Counts; 3])> {
    let cache: Clock<u64, R> = clock_with_shards(alloc, rt, u64::MAX, 2)?;
    Some(counts(&cache))
}

#[test]
fn only_what_took_place_is_counted(rt: HostRuntime) {
    let before = Counts {
        insertions: 1,
        failures: 2,
        ..Counts::default()
    };
    let reset = Counts {
        evictions: 1,
        ..before
    };
    let told = counts_in_new(rt.alloc(), &rt);
    let wanted = ([true; 3], [before, reset, Counts::default()]);
    assert_equal(&rt, told, Some(wanted));
}
