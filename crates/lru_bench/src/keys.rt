//! The keys that a workload asks for. Drawing one costs next to nothing compared with the call that
//! is timed.
ghost use Rattle.std.specs.Prelude.{◌<◌};

use std::num::NonZeroU64;

/// A source of keys for a worker.
pub trait Source {
    /// Returns the next key.
    fn next_key(&mut self) -> u64;
}

/// Keys drawn from those below a number of entries.
#[derive(Drop)]
pub struct Keys {
    entries: u64,
    state: u64,
    ghost some: { 0 < entries },
}

impl Keys {
    /// Returns draws of the keys below `entries`, from a generator with a seed of the worker's own.
    pub fn of_worker(entries: NonZeroU64, worker: u16) -> Keys {
        Keys {
            entries: entries.get(),
            state: u64::from(worker).wrapping_mul(77).wrapping_add(1),
        }
    }

    /// Returns the next key.
    #[inline(always)]
    pub fn draw(&mut self) -> u64
        ensures { result < self.old.entries }
    {
        // The lower bits of such a generator have short periods.
        self.state = self
            .state
            .wrapping_mul(6_364_136_223_846_793_005)
            .wrapping_add(1_442_695_040_888_963_407);
        (self.state >> 33) % self.entries
    }
}

impl Source for Keys {
    #[inline(always)]
    fn next_key(&mut self) -> u64 {
        self.draw()
    }
}

/// Successive keys.
#[derive(Drop)]
pub struct Ascending {
    /// Returns the next key.
    pub next: u64,
}

impl Source for Ascending {
    #[inline(always)]
    fn next_key(&mut self) -> u64 {
        let key = self.next;
        self.next = key.wrapping_add(1);
        key
    }
}

/// The first of the keys with which no cache is filled.
pub const FIRST_ABSENT: u64 = 10_000_000;
