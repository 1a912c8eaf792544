//! Removals without a key: `clear`, and `retain` with a predicate, while values are held and made.
ghost use Rattle.std.specs.Prelude.{◌<◌};

use crate::assertions::assert_equal_at;
use crate::caches::{Clock, OneLock, Shards, clock_with_shards, in_one_lock, in_shards};
use concurrent_lru::{sharded, unsharded};
use lru_clock::clock;
use lru_support::cached::Cached;
use std::alloc::Global;
use std::sync::Wait;

/// A reference to a cache whose entries are removed without naming their keys.
pub(crate) trait Removing<V>: Cached<V> {
    /// Calls `clear`.
    fn clear(self);

    /// Calls `retain` with a predicate that keeps nothing.
    fn retain_none(self);
}

impl<'a, V: Drop, R: Wait> Removing<V> for &'a OneLock<V, R> {
    fn clear(self) {
        unsharded::LruCache::clear(self);
    }

    fn retain_none(self) {
        self.retain(|_, _, _| false);
    }
}

impl<'a, V: Drop, R: Wait> Removing<V> for &'a Shards<V, R> {
    fn clear(self) {
        sharded::LruCache::clear(self);
    }

    fn retain_none(self) {
        self.retain(|_, _, _| false);
    }
}

impl<'a, V: Drop, R: Wait> Removing<V> for &'a Clock<V, R> {
    fn clear(self) {
        clock::Cache::clear(self);
    }

    fn retain_none(self) {
        self.retain(|_, _, _| false);
    }
}

// How often a predicate was called, and by key the value and the charge that it was shown last.
#[derive(Clone, Copy, Debug, PartialEq, Eq)]
struct Judged {
    calls: u64,
    shown: [Option<(u64, u64)>; 6],
}

impl Judged {
    fn new() -> Judged {
        Judged {
            calls: 0,
            shown: [None; 6],
        }
    }

    // Notes an entry, and keeps it if its charge is 1.
    fn keeps(&mut self, key: u64, value: u64, charge: u64) -> bool {
        self.calls = self.calls.wrapping_add(1);
        if let Some(place) = self.shown.get_mut(key as usize) {
            *place = Some((value, charge));
        }
        charge == 1
    }
}

// A reference to a cache of numbers whose predicate notes what it is shown.
trait Judging: Removing<u64> {
    // Calls `retain` with a predicate that keeps entries with a charge of 1.
    fn retain_light(self, judged: &mut Judged);

    // Calls `len`.
    fn len(self) -> usize;

    // Returns how many evictions are counted.
    fn evictions(self) -> u64;
}

impl<'a, R: Wait> Judging for &'a OneLock<u64, R> {
    fn retain_light(self, judged: &mut Judged) {
        self.retain(|key, value, charge| judged.keeps(*key, *value, charge));
    }

    fn len(self) -> usize {
        unsharded::LruCache::len(self)
    }

    fn evictions(self) -> u64 {
        self.counts().evictions
    }
}

impl<'a, R: Wait> Judging for &'a Shards<u64, R> {
    fn retain_light(self, judged: &mut Judged) {
        self.retain(|key, value, charge| judged.keeps(*key, *value, charge));
    }

    fn len(self) -> usize {
        sharded::LruCache::len(self)
    }

    fn evictions(self) -> u64 {
        self.counts().evictions
    }
}

impl<'a, R: Wait> Judging for &'a Clock<u64, R> {
    fn retain_light(self, judged: &mut Judged) {
        self.retain(|key, value, charge| judged.keeps(*key, *value, charge));
    }

    fn len(self) -> usize {
        clock::Cache::len(self)
    }

    fn evictions(self) -> u64 {
        self.counts().evictions
    }
}

// What the keys 0 to 5 find, and what the cache says of its entries.
#[derive(Clone, Copy, Debug, PartialEq, Eq)]
struct Found {
    values: [Option<u64>; 6],
    len: usize,
    total: u128,
    evictions: u64,
}

fn what_is_found<C: Judging>(cache: C) -> Found {
    Found {
        values: [0, 1, 2, 3, 4, 5].map(|key| match cache.read(key, |value| *value) {
            Ok(found) => found,
            Err(_) => None,
        }),
        len: cache.len(),
        total: cache.total_charge(),
        evictions: cache.evictions(),
    }
}

// What a removal leaves, by which no handle loses its value: what is found while a value is made,
// once it was made, and once all handles are dropped; and what a predicate was shown.
#[derive(Clone, Copy, Debug, PartialEq, Eq)]
struct Left {
    held: [u64; 3],
    found: [Option<Found>; 3],
    judged: Judged,
}

// Of the keys 0 to 3, with charges of 1, 2, 4 and 8, inserts 0 and 1; inserts 2, and holds it; and
// inserts 3, holds it, and invalidates it. Then makes another key with a charge of 16, and removes
// entries meanwhile, all of them or those with another charge than 1.
fn removes_in_a_making<C: Judging>(cache: C, made_key: u64, is_all: bool) -> Option<Left> {
    drop(cache.insert(0, 1, 10));
    drop(cache.insert(1, 2, 11));
    let held = cache.insert(2, 4, 12).ok()?;
    let lost = cache.insert(3, 8, 13).ok()?;
    cache.invalidate(3);
    let mut judged = Judged::new();
    let mut in_making = None;
    let made = cache
        .get_or_init(made_key, 16, |_| {
            if is_all {
                cache.clear();
            } else {
                cache.retain_light(&mut judged);
            }
            in_making = Some(what_is_found(cache));
            14
        })
        .ok()?;
    let read = [
        *C::value_of(&held),
        *C::value_of(&lost),
        *C::value_of(&made),
    ];
    let after = what_is_found(cache);
    drop((held, lost, made));
    Some(Left {
        held: read,
        found: [in_making, Some(after), Some(what_is_found(cache))],
        judged,
    })
}

// Does this in a new clock of two shards. Returns `None` if memory is refused, too.
fn removes_in_clock<R: Wait + Drop>(
    alloc: Global,
    rt: R,
    made_key: u64,
    is_all: bool,
) -> Option<Left> {
    let cache: Clock<u64, R> = clock_with_shards(alloc, rt, 200, 2)?;
    removes_in_a_making(&cache, made_key, is_all)
}

// The keys that are made, one in each of two shards.
const MADE_KEYS: [u64; 2] = [4, 5];

// Returns what a cache without an entry for any key says.
const fn nothing(len: usize, total: u128, evictions: u64) -> Option<Found> {
    Some(Found {
        values: [None; 6],
        len,
        total,
        evictions,
    })
}

// An entry that is held or being made is detached from its key, and counts until it is released. A
// clock counts a value only once it was made.
#[test]
fn a_clear_takes_the_value_of_every_key(rt: HostRuntime) {
    let wanted = Left {
        held: [12, 13, 14],
        found: [nothing(3, 28, 2), nothing(3, 28, 2), nothing(0, 0, 5)],
        judged: Judged::new(),
    };
    let of_clock = Left {
        found: [nothing(2, 12, 2), nothing(3, 28, 2), nothing(0, 0, 5)],
        ..wanted
    };
    for key in MADE_KEYS {
        let told = in_one_lock(rt.alloc(), &rt, 100, |cache| {
            removes_in_a_making(cache, key, true)
        });
        assert_equal_at(&rt, told, Some(wanted), ("one lock", key));
        let told = in_shards(rt.alloc(), &rt, 200, 2, |cache| {
            removes_in_a_making(cache, key, true)
        });
        assert_equal_at(&rt, told, Some(Some(wanted)), ("shards", key));
        let told = removes_in_clock(rt.alloc(), &rt, key, true);
        assert_equal_at(&rt, told, Some(of_clock), ("clock", key));
    }
}

// Of the entries whose values are found by their keys, those with a charge of 1 stay. So does the
// value that is being made.
#[test]
fn a_retain_asks_of_each_entry_that_its_key_finds(rt: HostRuntime) {
    let judged = Judged {
        calls: 3,
        shown: [
            Some((10, 1)),
            Some((11, 2)),
            Some((12, 4)),
            None,
            None,
            None,
        ],
    };
    for key in MADE_KEYS {
        let mut values = [Some(10), None, None, None, None, None];
        let in_making = Found {
            values,
            len: 4,
            total: 29,
            evictions: 1,
        };
        if let Some(made) = values.get_mut(key as usize) {
            *made = Some(14);
        }
        let after = Found {
            values,
            ..in_making
        };
        let dropped = Found {
            len: 2,
            total: 17,
            evictions: 3,
            ..after
        };
        let wanted = Left {
            held: [12, 13, 14],
            found: [Some(in_making), Some(after), Some(dropped)],
            judged,
        };
        let in_clock = Found {
            len: 3,
            total: 13,
            ..in_making
        };
        let of_clock = Left {
            found: [Some(in_clock), Some(after), Some(dropped)],
            ..wanted
        };
        let told = in_one_lock(rt.alloc(), &rt, 100, |cache| {
            removes_in_a_making(cache, key, false)
        });
        assert_equal_at(&rt, told, Some(wanted), ("one lock", key));
        let told = in_shards(rt.alloc(), &rt, 200, 2, |cache| {
            removes_in_a_making(cache, key, false)
        });
        assert_equal_at(&rt, told, Some(Some(wanted)), ("shards", key));
        let told = removes_in_clock(rt.alloc(), &rt, key, false);
        assert_equal_at(&rt, told, Some(of_clock), ("clock", key));
    }
}
