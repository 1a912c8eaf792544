//! Invalidations by a loader: of its own key, of an idle entry and of a held one.
ghost use Rattle.std.specs.Prelude.{◌<◌};

use crate::assertions::assert_equal_at;
use crate::caches::{Clock, clock_with_shards};
use crate::clock::pasts::value_of;
use std::alloc::Global;
use std::sync::Wait;

// What the keys 1, 2 and 3 find, which of them have an entry, and how many entries there are.
#[derive(Clone, Copy, Debug, PartialEq, Eq)]
struct Found {
    values: [Option<u64>; 3],
    has_entry: [bool; 3],
    len: usize,
}

fn what_is_found<R: Wait>(cache: &Clock<u64, R>) -> Found {
    Found {
        values: [1, 2, 3].map(|key| value_of(cache.find(&key))),
        has_entry: [1, 2, 3].map(|key| cache.contains(&key)),
        len: cache.len(),
    }
}

// Invalidates a key, perhaps with a new past.
pub(crate) fn invalidates<R: Wait>(cache: &Clock<u64, R>, key: u64, is_since: bool) {
    if is_since {
        cache.invalidate_since(&key, &mut cache.past(&key));
    } else {
        cache.invalidate(&key);
    }
}

// Inserts the keys 2 and 3, and holds 3. Then makes key 1 as 5, and meanwhile invalidates all three
// keys. Returns what its maker reads, and what is found before the making, at its end, after it,
// and once the handles are dropped.
fn invalidates_in_a_making<R: Wait>(
    cache: &Clock<u64, R>,
    is_since: bool,
) -> Option<(u64, [Option<Found>; 4])> {
    drop(cache.insert(&2, 1, 20));
    let held = cache.insert(&3, 1, 30).ok()?;
    let before = what_is_found(cache);
    let mut at_end = None;
    let made = cache
        .get_or_init(1, 1, |_| {
            for key in 1..4u64 {
                invalidates(cache, key, is_since);
            }
            at_end = Some(what_is_found(cache));
            5
        })
        .ok()?;
    let (value, after) = (*made, what_is_found(cache));
    drop((held, made));
    Some((
        value,
        [
            Some(before),
            at_end,
            Some(after),
            Some(what_is_found(cache)),
        ],
    ))
}

// Does this in a new cache of two shards.
fn invalidates_in_new<R: Wait + Drop>(
    alloc: Global,
    rt: R,
    is_since: bool,
) -> Option<(u64, [Option<Found>; 4])> {
    let cache: Clock<u64, R> = clock_with_shards(alloc, rt, 10, 2)?;
    invalidates_in_a_making(&cache, is_since)
}

#[test]
fn a_loader_invalidates_its_key_and_others(rt: HostRuntime) {
    let before = Found {
        values: [None, Some(20), Some(30)],
        has_entry: [false, true, true],
        len: 2,
    };
    // The entries that count are those that are held.
    let invalidated = |len| Some(Found {
        values: [None; 3],
        has_entry: [false; 3],
        len,
    });
    let wanted = [Some(before), invalidated(1), invalidated(2), invalidated(0)];
    for is_since in [false, true] {
        let told = invalidates_in_new(rt.alloc(), &rt, is_since);
        assert_equal_at(&rt, told, Some((5, wanted)), ("since", is_since));
    }
}
