//! The parameters of a stress run.
//!
//! Runs with the same parameters make the same calls, in an order that the scheduler chooses.
ghost use Rattle.std.specs.Prelude.{◌<◌};

/// The number of keys that the workers of a cache share, and that each worker of the twin has of
/// its own. It is a constant, so that drawing a call takes no division.
pub const KEYS: u64 = 100;

/// The default number of calls of a worker.
pub const CALLS: u32 = 10_000;

/// The size of a stress run, and its caches.
#[derive(Clone, Copy)]
pub struct Plan {
    /// The seed of all calls.
    pub seed: u64,
    /// The number of threads that share a cache.
    pub workers: u16,
    /// The number of calls of each worker.
    pub calls: u32,
    /// The capacity of the cache behind one lock and of the twin, in the unit of the charges.
    pub lock_capacity: u64,
    /// The capacity of the sharded cache.
    pub shards_capacity: u64,
    /// The number of its shards.
    pub shards: usize,
    /// Whether a worker yields after each 1,000 calls.
    pub rests: bool,
    /// How often an `init` yields, so that others ask for what it makes.
    pub yields: u32,
    /// Whether the total is read while each handle is held.
    pub looks: bool,
    /// Whether a clock cache takes part, with the capacity and the number of shards of the sharded
    /// cache.
    pub has_clock: bool,
    ghost sharded: { 0 < shards },
}

impl Plan {
    /// Returns a plan of 8 workers with 10,000 calls each, which yield after each 1,000, with the
    /// capacity 100 under one lock and 128 in 16 shards. No `init` yields, no total is read, and no
    /// clock cache takes part.
    pub fn new(seed: u64) -> Plan {
        Plan {
            seed,
            workers: 8,
            calls: CALLS,
            lock_capacity: 100,
            shards_capacity: 128,
            shards: 16,
            rests: true,
            yields: 0,
            looks: false,
            has_clock: false,
        }
    }
}
