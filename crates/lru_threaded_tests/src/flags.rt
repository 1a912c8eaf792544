//! Flags that threads raise for one another, with limited waits for them.
//!
//! A test that waits this way fails, instead of hanging, if the other thread never comes.

use std::sync::atomic::{AtomicU64, Ordering};
use std::thread;

// How often a thread checks a flag before it gives up.
const LOOKS: u32 = 10_000_000;

// How often `pause` yields.
const YIELDS: u32 = 100_000;

/// Raises a flag.
pub fn raise(flag: &AtomicU64) {
    flag.store(1, Ordering::SeqCst);
}

/// Returns whether the flag is raised.
pub fn is_raised(flag: &AtomicU64) -> bool {
    flag.load(Ordering::SeqCst) == 1
}

/// Yields until the flag is raised. Returns false if the thread gave up first.
pub fn meets(flag: &AtomicU64) -> bool {
    for _ in 0..LOOKS {
        if is_raised(flag) {
            return true;
        }
        thread::yield_now();
    }
    false
}

/// Yields for a while, so that other threads make progress.
pub fn pause() {
    for _ in 0..YIELDS {
        thread::yield_now();
    }
}

/// Yields until the count is at least `wanted`. Returns false if the thread gave up first.
pub fn reaches(count: &AtomicU64, wanted: u64) -> bool {
    for _ in 0..LOOKS {
        if count.load(Ordering::SeqCst) >= wanted {
            return true;
        }
        thread::yield_now();
    }
    false
}

/// Yields until the condition is met. Returns false if the thread gave up first.
pub fn yield_until<F>(is_met: F) -> bool
where
    F: Fn() -> bool + Drop,
    requires callable { F.IsAlwaysCallable is_met }
{
    for _ in 0..LOOKS {
        if is_met() {
            return true;
        }
        thread::yield_now();
    }
    false
}

/// Yields this many times.
pub fn yield_times(times: u64) {
    for _ in 0..times {
        thread::yield_now();
    }
}
