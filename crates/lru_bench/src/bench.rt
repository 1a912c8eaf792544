//! Runs the workloads of a plan, one after another.

use crate::failure::Failure;
use crate::host::{Host, Waiter};
use crate::mostly::Reads;
use crate::plan::{Mostly, Plan};
use crate::report::Report;
use crate::size::Size;
use crate::stress::Load;
use crate::system::{MORE_SHARDS, MOST_SHARDS, SHARDS, Sharded};
use crate::workload::Workload;
use std::alloc::Global;
use std::io::Write;
use std::random::RandomSource;
use std::rt::Clock;
use std::sync::Wait;
use std::thread::Threads;

/// Runs a plan and writes a line for each workload. What was written before a failure stays
/// written. Where times are shown, the hit ratios of reads that mostly hit go to `err`.
pub fn run<R: Threads + Wait + Clock + RandomSource + Sync, O: Write, E: Write>(
    rt: &R,
    alloc: Global,
    plan: &Plan,
    out: &mut O,
    err: &mut E,
) -> Result<(), Failure> {
    let report = Report::new(rt, out, err, plan.shown);
    let mut bench = Bench {
        rt,
        wait: rt,
        alloc,
        report,
    };
    bench.run(plan)
}

/// What the workloads need.
#[derive(Drop)]
pub struct Bench<'a, R, W, O, E> {
    /// Threads, the clock and random numbers.
    pub rt: &'a R,
    /// The right to wait. Each cache gets a copy.
    pub wait: W,
    /// The allocator of the caches.
    pub alloc: Global,
    /// Where the results are written.
    pub report: Report<'a, R, O, E>,
}

impl<R: Host, W: Waiter, O: Write, E: Write> Bench<'_, R, W, O, E> {
    fn run(&mut self, plan: &Plan) -> Result<(), Failure> {
        self.run_alone(plan)?;
        for threads in &plan.request.threads {
            self.run_together(plan, *threads)?;
        }
        if plan.wants(Workload::Stress) {
            self.run_stress(plan.calls)?;
        }
        match &plan.mostly {
            Some(mostly) => self.run_mostly(mostly),
            None => Ok(()),
        }
    }

    // The hits and misses of one thread.
    fn run_alone(&mut self, plan: &Plan) -> Result<(), Failure> {
        for entries in &plan.request.entries {
            let size = Size::new(plan, *entries, 1);
            if size.has_hits() || size.has_misses() {
                self.use_one_lock(&size)?;
            }
            if size.has_misses() {
                self.use_room(&size)?;
            }
            self.use_shards(Sharded::Clock, 1, &size)?;
        }
        Ok(())
    }

    // The hits and misses of more than one thread.
    fn run_together(&mut self, plan: &Plan, threads: u16) -> Result<(), Failure> {
        for entries in &plan.request.entries {
            let size = Size::new(plan, *entries, threads);
            if size.has_hits() || size.has_misses() {
                self.use_one_lock(&size)?;
                self.use_shards(Sharded::Locks, SHARDS, &size)?;
                self.use_shards(Sharded::Locks, MORE_SHARDS, &size)?;
                self.use_shards(Sharded::Clock, SHARDS, &size)?;
                self.use_shards(Sharded::Clock, MORE_SHARDS, &size)?;
            }
        }
        Ok(())
    }

    fn run_stress(&mut self, calls: u32) -> Result<(), Failure> {
        for workers in [1, 2, 4, 8] {
            let load = Load { workers, calls };
            self.stress_caches(load)?;
            self.stress_clock(load)?;
        }
        Ok(())
    }

    fn run_mostly(&mut self, mostly: &Mostly) -> Result<(), Failure> {
        for threads in [1, 2, 4, 8] {
            let reads = Reads { mostly, threads };
            self.read_on_one_lock(reads)?;
            self.read_in_shards(SHARDS, reads)?;
            self.read_in_shards(MORE_SHARDS, reads)?;
            self.read_in_shards(MOST_SHARDS, reads)?;
            self.read_on_clock(SHARDS, reads)?;
            self.read_on_clock(MORE_SHARDS, reads)?;
        }
        Ok(())
    }
}
