//! The calls that a worker of the stress workload makes.
//!
//! Each worker draws them from a generator of its own.
ghost use Rattle.std.specs.Prelude.{◌<◌};

use rand_core::{Rng, SeedableRng};
use rand_xoshiro::Xoshiro256PlusPlus;

/// A call for a key's value.
#[derive(Clone, Copy)]
pub struct WorkerCall {
    /// The key.
    pub key: u64,
    /// The charge of a new entry.
    pub charge: u64,
    /// Whether the making fails, if one is needed.
    pub fails: bool,
    ghost charged: { 0 < charge },
}

/// Draws calls.
#[derive(Drop)]
pub struct Calls {
    generator: Xoshiro256PlusPlus,
}

impl Calls {
    /// Creates the calls of the worker with this number.
    pub fn of_worker(seed: u64, worker: u64) -> Calls {
        let mut generator = Xoshiro256PlusPlus::seed_from_u64(seed);
        for _ in 0..worker {
            generator.jump();
        }
        Calls { generator }
    }

    /// Returns the next call: a key below `keys`, a charge from 1 to 4, and a making that fails in
    /// two of ten calls.
    ///
    /// If the caller's number of keys is a constant, so is the divisor, and no division is made.
    #[inline(always)]
    pub fn draw(&mut self, keys: u64) -> WorkerCall
        requires { 0 < keys }
    {
        let a = self.generator.next_u64();
        let b = self.generator.next_u64();
        let c = self.generator.next_u64();
        WorkerCall {
            key: a % keys,
            charge: 1 + b % 4,
            fails: c % 10 >= 8,
        }
    }
}
