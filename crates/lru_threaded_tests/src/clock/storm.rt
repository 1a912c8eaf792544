//! Two, four and eight threads that make, insert, invalidate, fail and prune at once. Each value
//! carries its key and a version, by which a thread tells a value that it has invalidated.
ghost use Rattle.std.specs.Prelude.{◌<◌};

use crate::assertions::assert_equal_at;
use lru_clock::clock::Cache;
use rand_core::{Rng, SeedableRng};
use rand_xoshiro::Xoshiro256PlusPlus;
use std::alloc::Global;
use std::hash::RandomState;
use std::sync::Wait;
use std::sync::atomic::AtomicU64;
use std::sync::atomic::Ordering::SeqCst;
use std::thread;
use std::thread::Threads;

const THREADS: [u64; 3] = [2, 4, 8];

const TURNS: u32 = 8_000;

// Half of the keys, the even ones, are invalidated, and the others are inserted.
const KEYS: u64 = 200;

const CAPACITY: u64 = 60;

#[derive(Clone, Copy)]
struct Stamped {
    key: u64,
    version: u64,
}

// What the threads share: the version of the next value, and the number of wrong answers.
#[derive(Drop)]
struct Board {
    next_version: AtomicU64,
    wrong: AtomicU64,
}

impl Board {
    fn version(&self) -> u64 {
        self.next_version.fetch_add(1, SeqCst)
    }

    // Notes whether an answer was right.
    fn note(&self, is_right: bool) {
        if !is_right {
            self.wrong.fetch_add(1, SeqCst);
        }
    }
}

type Storm<'a, R> = Cache<u64, Stamped, &'a R>;

// Finds or makes a key's value, which must be the key's and have at least this version.
fn asks<R: Wait>(cache: &Storm<'_, R>, board: &Board, key: u64, least: u64) {
    let made = cache.get_or_init(
        key,
        1 + key % 3,
        |key| Stamped {
            key: *key,
            version: board.version(),
        },
    );
    match made {
        Ok(handle) => board.note(handle.key == key && handle.version >= least),
        Err(_) => board.note(false),
    }
}

// A making that may fail, and then gives no handle.
fn fails<R: Wait>(cache: &Storm<'_, R>, board: &Board, key: u64) {
    if let Ok(handle) = cache.get_or_try_init(key, 1, |_| -> Result<Stamped, u8> { Err(1) }) {
        board.note(handle.key == key);
    }
}

fn inserts<R: Wait>(cache: &Storm<'_, R>, board: &Board, key: u64) {
    let version = board.version();
    match cache.insert(&key, 1 + key % 3, Stamped { key, version }) {
        Ok(handle) => board.note(handle.key == key && handle.version == version),
        Err(_) => board.note(false),
    }
}

// Makes one turn of a thread, as drawn.
fn turn<R: Wait>(cache: &Storm<'_, R>, board: &Board, drawn: u64) {
    let key = drawn % KEYS;
    match drawn >> 60 {
        0 if key % 2 == 0 => {
            // A value that is asked for from now on was begun after this version was read.
            let least = board.next_version.load(SeqCst);
            cache.invalidate(&key);
            asks(cache, board, key, least);
        }
        0 => inserts(cache, board, key),
        1 => fails(cache, board, key),
        2 => cache.advise(&key),
        3 if key == 0 => cache.prune(),
        _ => asks(cache, board, key, 0),
    }
}

fn turns<R: Wait>(cache: &Storm<'_, R>, board: &Board, seed: u64) {
    let mut generator = Xoshiro256PlusPlus::seed_from_u64(seed);
    for _ in 0..TURNS {
        turn(cache, board, generator.next_u64());
    }
}

// Returns the number of wrong answers to so many threads.
fn storm<R: Threads + Wait + Sync>(rt: &R, cache: &Storm<'_, R>, threads: u64) -> u64 {
    let board = Board {
        next_version: AtomicU64::new(0),
        wrong: AtomicU64::new(0),
    };
    let shared = &board;
    thread::scope(thread::scope_env(), rt, |scope| {
        for seed in 0..threads {
            let _started = scope.spawn(move || turns(cache, shared, seed));
        }
    });
    board.wrong.load(SeqCst)
}

// What a storm leaves: the number of wrong answers, the pinned charge and whether the total is
// above the capacity, and the number of entries and the total after a prune.
type Left = (u64, (u128, bool), (usize, u128));

// Makes a storm of so many threads in a new cache.
fn storm_in_new<R: Threads + Wait + Sync>(
    rt: &R,
    alloc: Global,
    hasher: RandomState,
    threads: u64,
) -> Option<Left> {
    let cache = Cache::with_shards(alloc, rt, CAPACITY, 2, hasher).ok()?;
    let wrong = storm(rt, &cache, threads);
    // No call is running, so what is above the capacity would be pinned.
    let is_above = cache.total_charge() > u128::from(CAPACITY);
    let pinned = cache.pinned_charge();
    cache.prune();
    Some((
        wrong,
        (pinned, is_above),
        (cache.len(), cache.total_charge()),
    ))
}

#[test]
fn threads_share_a_cache(rt: HostRuntime) {
    for threads in THREADS {
        let hasher = RandomState::new(&rt).expect(&rt, "memory");
        let left = storm_in_new(&rt, rt.alloc(), hasher, threads);
        let wanted = Some((0, (0, false), (0, 0)));
        assert_equal_at(&rt, left, wanted, (threads, "threads"));
    }
}
