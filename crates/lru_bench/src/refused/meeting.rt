//! Two threads that ask for one key at the same time: if the one that makes its value is refused
//! memory for it, the one that waits takes over the making. The output is the same on every
//! schedule.

use crate::failure::Failure;
use crate::refused::report::Report;
use crate::refused::threaded::value_found;
use concurrent_lru::unsharded::LruCache;
use std::alloc::Global;
use std::io::Write;
use std::sync::Wait;
use std::sync::atomic::{AtomicU64, Ordering};
use std::thread;
use std::thread::Threads;

// How often a maker checks whether the other thread has come, and how often it yields then, so that
// the other is asleep.
const LOOKS: u32 = 100_000;

const YIELDS: u32 = 200;

/// Has two threads ask for one key, each again if it is refused, and writes what they got.
pub fn play<R: Threads + Wait + Sync + Send, O: Write, E: Write>(
    rt: &R,
    alloc: Global,
    report: &mut Report<'_, O, E>,
) -> Result<(), Failure> {
    let cache: LruCache<u64, u64, &R> = LruCache::new(alloc, rt, 10);
    let (shared, came) = (&cache, &AtomicU64::new(0));
    let (first, second) = thread::join(rt, move || asks(shared, came), move || asks(shared, came));
    for caller in [first, second] {
        if let Some(call) = caller.refused {
            report.memory(&call)?;
        }
        report.line(&"get_or_init", &caller.value)?;
    }
    report.line(&"get", &value_found(shared, 1))?;
    report.line(&"total_charge", &cache.total_charge())
}

// The call that a thread was refused, if any, and the value that it got.
#[derive(Drop)]
struct Caller {
    refused: Option<&'static str>,
    value: Option<u64>,
}

fn asks<R: Wait>(cache: &LruCache<u64, u64, R>, came: &AtomicU64) -> Caller {
    came.fetch_add(1, Ordering::SeqCst);
    let (value, first_ran) = ask(cache, came);
    if value.is_some() {
        return Caller {
            refused: None,
            value,
        };
    }
    let (value, second_ran) = ask(cache, came);
    let refused = match (first_ran, second_ran) {
        (false, _) => "get_or_init of two threads, before its init",
        (true, true) => "get_or_init of two threads, after its init",
        (true, false) => "get_or_init of two threads, after its init: the other made the value",
    };
    Caller {
        refused: Some(refused),
        value,
    }
}

// Returns the value of the key, if there is one, and whether `init` ran.
fn ask<R: Wait>(cache: &LruCache<u64, u64, R>, came: &AtomicU64) -> (Option<u64>, bool) {
    let mut ran = false;
    let made = cache.get_or_init(1, 3, |_| {
        ran = true;
        meet(came);
        5
    });
    (made.ok().map(|handle| *handle.value()), ran)
}

// Waits until both threads have come, and then for a while.
fn meet(came: &AtomicU64) {
    for _ in 0..LOOKS {
        if came.load(Ordering::SeqCst) > 1 {
            break;
        }
        thread::yield_now();
    }
    for _ in 0..YIELDS {
        thread::yield_now();
    }
}
