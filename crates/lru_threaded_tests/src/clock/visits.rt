//! Visits to all entries of a clock of several shards.
ghost use Rattle.std.specs.Prelude.{◌<◌};

use crate::assertions::assert_equal;
use crate::caches::{Clock, clock_with_shards};
use std::alloc::Global;
use std::sync::Wait;

// What a visit shows: the number of entries, and by key the value, the charge and the pins that it
// showed last.
#[derive(Clone, Copy, Debug, PartialEq, Eq)]
struct Visited {
    entries: u64,
    found: [Option<(u64, u64, u32)>; 6],
}

fn visits<R: Wait>(cache: &Clock<u64, R>) -> Visited {
    let mut shown = Visited {
        entries: 0,
        found: [None; 6],
    };
    cache.for_each(|key, value, charge, pins| {
        shown.entries = shown.entries.wrapping_add(1);
        if let Some(place) = shown.found.get_mut(*key as usize) {
            *place = Some((*value, charge, pins));
        }
    });
    shown
}

// Of the keys 0 to 5, inserts 0; inserts 1, and holds it twice; inserts 2, holds it, and
// invalidates it; inserts 3, holds it, and replaces it; and visits the cache while 4 is made.
fn visits_in_a_making<R: Wait>(cache: &Clock<u64, R>) -> Option<Visited> {
    drop(cache.insert(&0, 1, 10));
    let first = cache.insert(&1, 2, 11).ok()?;
    let second = first.try_clone().ok()?;
    let invalidated = cache.insert(&2, 3, 12).ok()?;
    cache.invalidate(&2);
    let replaced = cache.insert(&3, 4, 13).ok()?;
    drop(cache.insert(&3, 5, 23));
    let mut shown = None;
    let made = cache.get_or_init(4, 6, |_| {
        shown = Some(visits(cache));
        14
    });
    drop((first, second, invalidated, replaced, made));
    shown
}

// Does this in a new cache of three shards, and visits it again at the end.
fn visits_in_new<R: Wait + Drop>(alloc: Global, rt: R) -> Option<[Option<Visited>; 2]> {
    let cache: Clock<u64, R> = clock_with_shards(alloc, rt, 300, 3)?;
    let shown = visits_in_a_making(&cache);
    Some([shown, Some(visits(&cache))])
}

#[test]
fn a_visit_shows_each_entry_that_its_key_finds(rt: HostRuntime) {
    let held = Visited {
        entries: 3,
        found: [
            Some((10, 1, 0)),
            Some((11, 2, 2)),
            None,
            Some((23, 5, 0)),
            None,
            None,
        ],
    };
    let idle = Visited {
        entries: 4,
        found: [
            Some((10, 1, 0)),
            Some((11, 2, 0)),
            None,
            Some((23, 5, 0)),
            Some((14, 6, 0)),
            None,
        ],
    };
    let told = visits_in_new(rt.alloc(), &rt);
    assert_equal(&rt, told, Some([Some(held), Some(idle)]));
}
