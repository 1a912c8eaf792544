//! A barrier at which workers wait for one another, so that they begin together.
//!
//! A worker whose thread was not started never comes, so the wait is limited.

use std::sync::atomic::{AtomicU64, Ordering};
use std::thread;

// How often a worker checks for the others before it gives up.
const LOOKS: u32 = 4_000_000;

/// Counts the workers that have arrived.
#[derive(Drop)]
pub struct Start {
    wanted: u64,
    came: AtomicU64,
    missed: AtomicU64,
}

impl Start {
    /// Creates a barrier for this many workers.
    pub fn of(workers: u16) -> Start {
        Start {
            wanted: u64::from(workers),
            came: AtomicU64::new(0),
            missed: AtomicU64::new(0),
        }
    }

    /// Arrives, and returns whether all others arrived before this one or another gave up.
    pub fn meets_all(&self) -> bool {
        self.came.fetch_add(1, Ordering::SeqCst);
        for _ in 0..LOOKS {
            if self.missed.load(Ordering::SeqCst) > 0 {
                return false;
            }
            if self.came.load(Ordering::SeqCst) >= self.wanted {
                return true;
            }
            thread::yield_now();
        }
        self.missed.fetch_add(1, Ordering::SeqCst);
        false
    }
}
