//! Times hits and misses on a full cache, on one lock, in shards or on a clock, in any number of
//! threads.
ghost use Rattle.std.specs.Prelude.{◌<◌};

use crate::bench::Bench;
use crate::failure::Failure;
use crate::host::{Host, Waiter};
use crate::operation::{Make, Operation, operations};
use crate::report::Work;
use crate::size::Size;
use crate::system::{Sharded, System};
use crate::workers;
use crate::workers::WorkloadKeys;
use crate::workload::Workload;
use std::io::Write;

impl<R: Host, W: Waiter, O: Write, E: Write> Bench<'_, R, W, O, E> {
    /// Times the hits on one lock, and then the misses on the same cache, whose oldest entries are
    /// then scattered in memory.
    pub fn use_one_lock(&mut self, size: &Size<'_>) -> Result<(), Failure> {
        let cache = self.on_one_lock(size.entries.get())?;
        let (make, get, read, init) = operations(&cache);
        if !size.has_hits() {
            return self.fill_and_miss(&make, System::OneLock, size);
        }
        workers::fill(&make, size.entries)?;
        self.hits((&get, &read, &init), System::OneLock, size)?;
        self.misses(&make, System::OneLock, size)
    }

    /// Times the misses on a cache on one lock that has reserved room for twice its entries.
    pub fn use_room(&mut self, size: &Size<'_>) -> Result<(), Failure> {
        let cache = self.on_one_lock(size.entries.get())?;
        let twice = size.entries.get().saturating_mul(2);
        cache.reserve(usize::try_from(twice).unwrap_or(usize::MAX))?;
        self.fill_and_miss(&Make(&cache), System::Reserved, size)
    }

    /// Times hits and misses with this many shards: the hits on a cache in which all entries fit,
    /// however they are spread over the shards, and the misses on one that is full.
    pub fn use_shards(
        &mut self,
        kind: Sharded,
        shards: usize,
        size: &Size<'_>,
    ) -> Result<(), Failure>
        requires { 0 < shards }
    {
        if size.has_hits() {
            match kind {
                Sharded::Locks => self.hit_shards(shards, size)?,
                Sharded::Clock => self.hit_clock(shards, size)?,
            }
        }
        if size.has_misses() {
            self.miss_shards(kind, shards, size)?;
        }
        Ok(())
    }

    fn hit_shards(&mut self, shards: usize, size: &Size<'_>) -> Result<(), Failure>
        requires { 0 < shards }
    {
        let capacity = size.entries.get().saturating_mul(shards as u64);
        let roomy = self.in_shards(capacity, shards)?;
        let (make, get, read, init) = operations(&roomy);
        workers::fill(&make, size.entries)?;
        self.hits((&get, &read, &init), System::Shards(shards), size)
    }

    fn hit_clock(&mut self, shards: usize, size: &Size<'_>) -> Result<(), Failure>
        requires { 0 < shards }
    {
        let capacity = size.entries.get().saturating_mul(shards as u64);
        let roomy = self.on_clock(capacity, shards)?;
        let (make, get, read, init) = operations(&roomy);
        workers::fill(&make, size.entries)?;
        self.hits((&get, &read, &init), System::Clock(shards), size)
    }

    fn miss_shards(&mut self, kind: Sharded, shards: usize, size: &Size<'_>) -> Result<(), Failure>
        requires { 0 < shards }
    {
        match kind {
            Sharded::Locks => {
                let full = self.in_shards(size.entries.get(), shards)?;
                self.fill_and_miss(&Make(&full), System::Shards(shards), size)
            }
            Sharded::Clock => {
                let full = self.on_clock(size.entries.get(), shards)?;
                self.fill_and_miss(&Make(&full), System::Clock(shards), size)
            }
        }
    }

    // Times the workloads of present keys. Each operation has a type parameter of its own, since
    // the checker does not support threads that call a cache of a generic type.
    fn hits<G: Operation + Sync, S: Operation + Sync, I: Operation + Sync>(
        &mut self,
        (get, read, init): (&G, &S, &I),
        system: System,
        size: &Size<'_>,
    ) -> Result<(), Failure> {
        let present = WorkloadKeys::Present(size.entries);
        let work = size.work(system, Workload::HitGet);
        self.time(get, present, size, &work)?;
        let work = size.work(system, Workload::HitRead);
        self.time(read, present, size, &work)?;
        let work = size.work(system, Workload::HitInit);
        self.time(init, present, size, &work)
    }

    // Fills a cache, uses its entries as often as a workload does, so that the oldest are scattered
    // in memory, and times the misses.
    fn fill_and_miss<M: Operation + Sync>(
        &mut self,
        make: &M,
        system: System,
        size: &Size<'_>,
    ) -> Result<(), Failure> {
        workers::fill(make, size.entries)?;
        let present = WorkloadKeys::Present(size.entries);
        workers::work(make, present, 0, size.plan.operations)?;
        self.misses(make, system, size)
    }

    // Times the workload of absent keys, each of which evicts an entry.
    fn misses<M: Operation + Sync>(
        &mut self,
        make: &M,
        system: System,
        size: &Size<'_>,
    ) -> Result<(), Failure> {
        let work = size.work(system, Workload::MissEvict);
        self.time(make, WorkloadKeys::Absent, size, &work)
    }

    // Times a workload if the plan has it.
    fn time<U: Operation + Sync>(
        &mut self,
        operation: &U,
        asked: WorkloadKeys<'_>,
        size: &Size<'_>,
        work: &Work,
    ) -> Result<(), Failure> {
        if !size.plan.wants(work.workload) {
            return Ok(());
        }
        let rt = self.rt;
        self.report.time(work, || {
            Ok(workers::run(rt, operation, asked, work.threads, work.operations)?.sum)
        })
    }
}
