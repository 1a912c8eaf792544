//! Times reads that mostly hit: workers that share a cache ask it for keys that were drawn before,
//! by `get_or_init` alone, or by `read` and, if nothing is found, by `get_or_init`.
ghost use Rattle.std.specs.Prelude.{◌<◌};

use crate::bench::Bench;
use crate::failure::Failure;
use crate::host::{Host, Waiter};
use crate::operation::{Make, Operation, ReadOrMake};
use crate::plan::Mostly;
use crate::report::Work;
use crate::system::System;
use crate::workers;
use crate::workers::WorkloadKeys;
use crate::workload::Workload;
use std::io::Write;

/// The workload, and how many threads share a cache.
#[derive(Clone, Copy)]
pub struct Reads<'a> {
    /// The workload.
    pub mostly: &'a Mostly,
    /// The number of threads.
    pub threads: u16,
}

impl Reads<'_> {
    // Returns the workload on a system.
    fn work(&self, system: System) -> Work {
        Work {
            system,
            workload: Workload::ReadMostly,
            entries: self.mostly.capacity,
            threads: self.threads,
            operations: self.mostly.operations,
        }
    }
}

impl<R: Host, W: Waiter, O: Write, E: Write> Bench<'_, R, W, O, E> {
    /// Times both ways on one lock.
    pub fn read_on_one_lock(&mut self, reads: Reads<'_>) -> Result<(), Failure> {
        let cache = self.on_one_lock(reads.mostly.capacity)?;
        let work = reads.work(System::OneLock);
        self.read(&Make(&cache), reads.mostly, &work)?;
        let cache = self.on_one_lock(reads.mostly.capacity)?;
        let work = reads.work(System::ReadOnOneLock);
        self.read(&ReadOrMake(&cache), reads.mostly, &work)
    }

    /// Times both ways with this many shards.
    pub fn read_in_shards(&mut self, shards: usize, reads: Reads<'_>) -> Result<(), Failure>
        requires { 0 < shards }
    {
        let cache = self.in_shards(reads.mostly.capacity, shards)?;
        let work = reads.work(System::Shards(shards));
        self.read(&Make(&cache), reads.mostly, &work)?;
        let cache = self.in_shards(reads.mostly.capacity, shards)?;
        let work = reads.work(System::ReadInShards(shards));
        self.read(&ReadOrMake(&cache), reads.mostly, &work)
    }

    /// Times `get_or_init` on a clock cache with this many shards.
    pub fn read_on_clock(&mut self, shards: usize, reads: Reads<'_>) -> Result<(), Failure>
        requires { 0 < shards }
    {
        let cache = self.on_clock(reads.mostly.capacity, shards)?;
        let work = reads.work(System::Clock(shards));
        self.read(&Make(&cache), reads.mostly, &work)
    }

    // Times the workload on an empty cache, which is filled first. Even a single worker has a
    // thread of its own.
    fn read<U: Operation + Sync>(
        &mut self,
        operation: &U,
        mostly: &Mostly,
        work: &Work,
    ) -> Result<(), Failure> {
        workers::ask_all(operation, &mostly.draws)?;
        let target = WorkloadKeys::Drawn(&mostly.draws);
        let (rt, mut hits) = (self.rt, 0);
        self.report.time(work, || {
            let totals = workers::share(rt, operation, target, work.threads, work.operations)?;
            hits = totals.hits;
            Ok(totals.sum)
        })?;
        self.report.tell_hits(work, hits)
    }
}
