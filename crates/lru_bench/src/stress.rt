//! Times the stress workload, on caches in which the value of a key is the key.

use crate::bench::Bench;
use crate::failure::Failure;
use crate::host::{Host, Waiter};
use crate::report::Work;
use crate::system::{SHARDS, System};
use crate::workload::Workload;
use lru_support::cached::Cached;
use lru_support::calls::WorkerCall;
use lru_support::stress::plan::Plan;
use lru_support::stress::workers::{Answer, StressTarget, Unmade, share};
use std::io::Write;

// The seed of the calls.
const SEED: u64 = 1;

// The capacity on one lock.
const LOCK_CAPACITY: u64 = 100;

// The capacity in shards.
const SHARDS_CAPACITY: u64 = 128;

/// The number of workers, and of the calls of each.
#[derive(Clone, Copy)]
pub struct Load {
    /// The workers.
    pub workers: u16,
    /// The calls of each.
    pub calls: u32,
}

impl Load {
    // Returns the workload on a system of this capacity.
    fn work(self, system: System, capacity: u64) -> Work {
        Work {
            system,
            workload: Workload::Stress,
            entries: capacity,
            threads: u16::from(self.workers),
            operations: self.calls,
        }
    }
}

// A reference to a cache. The value of a key is the key.
#[derive(Drop)]
struct Keyed<C> {
    cache: C,
}

impl<C: Cached<u64>> StressTarget for Keyed<C> {
    fn ask(&self, call: &WorkerCall) -> Result<Answer, Unmade> {
        match self
            .cache
            .get_or_try_init(call.key, call.charge, |_| make(call))
        {
            Ok(handle) => Ok(Answer::of_key(*C::value_of(&handle))),
            Err(error) => Err(Unmade::from(error)),
        }
    }
}

// The `init` of a call: returns the key, or fails.
fn make(call: &WorkerCall) -> Result<u64, Unmade> {
    if call.fails {
        Err(Unmade::Failed)
    } else {
        Ok(call.key)
    }
}

impl<R: Host, W: Waiter, O: Write, E: Write> Bench<'_, R, W, O, E> {
    /// Times the workload on one lock and in shards.
    pub fn stress_caches(&mut self, load: Load) -> Result<(), Failure> {
        let cache = self.on_one_lock(LOCK_CAPACITY)?;
        let work = load.work(System::OneLock, LOCK_CAPACITY);
        self.stress(&Keyed { cache: &cache }, load, &work)?;
        let cache = self.in_shards(SHARDS_CAPACITY, SHARDS)?;
        let work = load.work(System::Shards(SHARDS), SHARDS_CAPACITY);
        self.stress(&Keyed { cache: &cache }, load, &work)
    }

    /// Times the workload on a clock cache.
    pub fn stress_clock(&mut self, load: Load) -> Result<(), Failure> {
        let cache = self.on_clock(SHARDS_CAPACITY, SHARDS)?;
        let work = load.work(System::Clock(SHARDS), SHARDS_CAPACITY);
        self.stress(&Keyed { cache: &cache }, load, &work)
    }

    // Times the workload: each worker makes its calls without a pause. The sum of the values that
    // were read by calls whose making would not fail is the same on every schedule.
    fn stress<C: StressTarget + Sync>(
        &mut self,
        cache: &C,
        load: Load,
        work: &Work,
    ) -> Result<(), Failure> {
        let mut plan = Plan::new(SEED);
        plan.workers = load.workers;
        plan.calls = load.calls;
        plan.rests = false;
        let (rt, alloc) = (self.rt, self.alloc);
        self.report
            .time(work, || Ok(share(rt, alloc, &plan, cache)?.key_sum))
    }
}
