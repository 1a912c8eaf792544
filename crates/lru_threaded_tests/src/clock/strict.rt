//! The strict limit of the clock: which entries it refuses, what a refusal leaves, and that threads
//! never take a shard above its capacity.
ghost use Rattle.std.specs.Prelude.{◌<◌};

use crate::assertions::assert_equal;
use crate::caches::{Clock, clock_with_shards};
use crate::clock::limits::made;
use lru_clock::clock::{GetError, Refusal};
use rand_core::{Rng, SeedableRng};
use rand_xoshiro::Xoshiro256PlusPlus;
use std::alloc::Global;
use std::sync::Wait;
use std::sync::atomic::AtomicU64;
use std::sync::atomic::Ordering::SeqCst;
use std::thread;
use std::thread::Threads;

const CAPACITY: u64 = 20;

const THREADS: u64 = 4;

const TURNS: u32 = 2_000;

// What is read of a cache: the values of the keys 1, 2 and 3, the number of entries and the total.
type Contents = ([Option<u64>; 3], usize, u128);

fn contents<R: Wait>(cache: &Clock<u64, R>) -> Contents {
    let values = [1, 2, 3].map(|key| cache.read(&key, |value| *value).ok().flatten());
    (values, cache.len(), cache.total_charge())
}

// Inserts a value, and lets go of it at once.
fn inserted<R: Wait>(
    cache: &Clock<u64, R>,
    key: u64,
    charge: u64,
    value: u64,
) -> Result<u64, Refusal>
    requires { 0 < charge }
{
    let handle = cache.insert(&key, charge, value)?;
    Ok(*handle)
}

// What is observed of a cache of the capacity 10 whose key 1, of the charge 6, is held.
#[derive(Clone, Copy, Debug, PartialEq, Eq)]
struct Strictly {
    is_strict: [bool; 3],
    // What does not fit: a making, an insert, and one over the held entry; and what is left then.
    refused: [Result<u64, Refusal>; 3],
    kept: Contents,
    // Whether a making that does not fit ran, and how one ends whose charge is told too late.
    has_run: bool,
    is_refused_late: bool,
    after_late: Contents,
    // What fits: a making in place of idle entries, an insert over its entry, and a hit.
    accepted: [Result<u64, Refusal>; 3],
    replaced: Contents,
    // What fits beside the held entry, whose key it takes.
    over_held: Result<u64, Refusal>,
    beside: Contents,
    // A limit that is strict no longer.
    above: Result<u64, Refusal>,
}

fn is_limited<R: Wait>(cache: &Clock<u64, R>) -> Option<Strictly> {
    let at_first = cache.is_limit_strict();
    cache.set_strict_limit(true);
    let strict = cache.is_limit_strict();
    let held = cache.insert(&1, 6, 11).ok()?;
    inserted(cache, 2, 4, 20).ok()?;
    let refused = [
        made(cache, 3, 5),
        inserted(cache, 2, 5, 21),
        inserted(cache, 1, 5, 12),
    ];
    let kept = contents(cache);
    let mut has_run = false;
    let _ = cache.get_or_init(3, 5, |key| {
        has_run = true;
        *key
    });
    let late = cache.get_or_try_init_with(&3, |key| -> Result<(u64, u64), u8> { Ok((*key, 5)) });
    let is_refused_late = matches!(late, Err(GetError::Full));
    let after_late = contents(cache);
    let accepted = [
        made(cache, 3, 3),
        inserted(cache, 3, 4, 31),
        made(cache, 1, 9),
    ];
    let replaced = contents(cache);
    cache.invalidate(&3);
    let over_held = inserted(cache, 1, 4, 13);
    let beside = contents(cache);
    cache.set_strict_limit(false);
    let above = inserted(cache, 2, 8, 22);
    let at_last = cache.is_limit_strict();
    drop(held);
    Some(Strictly {
        is_strict: [at_first, strict, at_last],
        refused,
        kept,
        has_run,
        is_refused_late,
        after_late,
        accepted,
        replaced,
        over_held,
        beside,
        above,
    })
}

// Does this in a new cache. Also returns the total that is left.
fn is_limited_in_new<R: Wait + Drop>(alloc: Global, rt: R) -> Option<(Strictly, u128)> {
    let cache: Clock<u64, R> = clock_with_shards(alloc, rt, 10, 1)?;
    let told = is_limited(&cache)?;
    Some((told, cache.total_charge()))
}

#[test]
fn a_strict_limit_refuses_what_does_not_fit(rt: HostRuntime) {
    let full = Err(Refusal::Full);
    let kept = ([Some(11), Some(20), None], 2, 10);
    let wanted = Strictly {
        is_strict: [false, true, false],
        refused: [full, full, full],
        kept,
        has_run: false,
        is_refused_late: true,
        after_late: kept,
        accepted: [Ok(30), Ok(31), Ok(11)],
        replaced: ([Some(11), None, Some(31)], 2, 10),
        over_held: Ok(13),
        beside: ([Some(13), None, None], 2, 10),
        above: Ok(22),
    };
    assert_equal(&rt, is_limited_in_new(rt.alloc(), &rt), Some((wanted, 0)));
}

// What the threads share: the number of wrong answers, and of entries that were refused.
#[derive(Drop)]
struct Board {
    wrong: AtomicU64,
    full: AtomicU64,
}

// Makes or inserts as drawn, and holds what it gets in one of four slots. Notes a total above the
// capacity, and an answer that is neither a value of the key nor `Full`.
fn turns<R: Wait>(cache: &Clock<u64, &R>, board: &Board, seed: u64) {
    let mut generator = Xoshiro256PlusPlus::seed_from_u64(seed);
    let mut held = [None, None, None, None];
    for _ in 0..TURNS {
        let drawn = generator.next_u64();
        let (key, charge) = (drawn % 16, 1 + (drawn >> 8) % 5);
        let answer = if drawn >> 62 == 0 {
            cache.insert(&key, charge, key)
        } else {
            cache.get_or_init(key, charge, |key| *key)
        };
        let is_right = match &answer {
            Ok(handle) => **handle == key,
            Err(refusal) => *refusal == Refusal::Full,
        };
        if answer.is_err() {
            board.full.fetch_add(1, SeqCst);
        }
        held[(drawn >> 16) as usize % 4] = answer.ok();
        if !is_right || cache.total_charge() > u128::from(CAPACITY) {
            board.wrong.fetch_add(1, SeqCst);
        }
    }
}

// Returns the number of wrong answers, whether some entry was refused, and the total after a prune.
fn races<R: Threads + Wait + Sync>(rt: &R, alloc: Global) -> Option<(u64, bool, u128)> {
    let cache: Clock<u64, &R> = clock_with_shards(alloc, rt, CAPACITY, 1)?;
    cache.set_strict_limit(true);
    let board = Board {
        wrong: AtomicU64::new(0),
        full: AtomicU64::new(0),
    };
    let (shared, shared_board) = (&cache, &board);
    thread::scope(thread::scope_env(), rt, |scope| {
        for seed in 0..THREADS {
            let _started = scope.spawn(move || turns(shared, shared_board, seed));
        }
    });
    cache.prune();
    let is_refused = board.full.load(SeqCst) > 0;
    Some((board.wrong.load(SeqCst), is_refused, cache.total_charge()))
}

#[test]
fn threads_stay_within_a_strict_limit(rt: HostRuntime) {
    assert_equal(&rt, races(&rt, rt.alloc()), Some((0, true, 0)));
}
