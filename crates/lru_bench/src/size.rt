//! The size of a run of hits and misses.

use crate::plan::Plan;
use crate::report::Work;
use crate::system::System;
use crate::workload::Workload;
use std::num::NonZeroU64;

/// The number of entries of a cache, and how many threads share it.
#[derive(Clone, Copy)]
pub struct Size<'a> {
    /// The workloads, and the number of operations of each thread.
    pub plan: &'a Plan,
    /// The number of entries of the cache.
    pub entries: NonZeroU64,
    /// The number of threads that share it.
    pub threads: u16,
}

impl<'a> Size<'a> {
    /// Returns the size of a run on this many entries, in this many threads.
    pub fn new(plan: &'a Plan, entries: NonZeroU64, threads: u16) -> Size<'a> {
        Size {
            plan,
            entries,
            threads,
        }
    }

    /// Returns a workload of this size.
    pub fn work(&self, system: System, workload: Workload) -> Work {
        Work {
            system,
            workload,
            entries: self.entries.get(),
            threads: self.threads,
            operations: self.plan.operations,
        }
    }

    /// Returns whether the plan has a workload of present keys.
    pub fn has_hits(&self) -> bool {
        [Workload::HitGet, Workload::HitRead, Workload::HitInit]
            .iter()
            .any(|workload| self.plan.wants(*workload))
    }

    /// Returns whether the plan has the workload of absent keys.
    pub fn has_misses(&self) -> bool {
        self.plan.wants(Workload::MissEvict)
    }
}
