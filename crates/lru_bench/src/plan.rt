//! Which workloads are run, their sizes, and what is shown of them.

use crate::draws::Draws;
use crate::failure::Failure;
use crate::request::{MORE_THREADS, Request, sizes};
use crate::workload::{ALL, Workload};
use std::alloc::Global;
use std::fmt;
use std::num::NonZeroU64;

/// What is shown of a workload, at the end of its line.
#[derive(Clone, Copy)]
pub enum Shown {
    /// The sum of the values that were read, which is the same on every schedule.
    Sum,
    /// The time that an operation took, in nanoseconds.
    Time,
}

/// The workloads to run, and their sizes.
#[derive(Drop)]
pub struct Plan {
    /// The workloads, except for reads that mostly hit, and on how many entries and threads.
    pub request: Request,
    /// The number of operations of a thread.
    pub operations: u32,
    /// The number of calls of a worker of the stress workload.
    pub calls: u32,
    /// The workload of reads that mostly hit, if it is run.
    pub mostly: Option<Mostly>,
    /// What is shown.
    pub shown: Shown,
}

impl Plan {
    /// Returns a plan of small workloads, of all kinds, whose sums are shown.
    pub fn check(alloc: Global) -> Result<Plan, Failure> {
        Ok(Plan {
            request: Request {
                workloads: ALL.iter().copied().collect(alloc)?,
                entries: sizes(alloc, &[8, 100])?,
                threads: MORE_THREADS.iter().copied().collect(alloc)?,
            },
            operations: 100,
            calls: 500,
            mostly: Some(Mostly::check(alloc)?),
            shown: Shown::Sum,
        })
    }

    /// Returns a plan of the requested workloads, which run long enough to be timed.
    pub fn time(request: Request, mostly: Option<Mostly>) -> Plan {
        Plan {
            request,
            operations: 1_000_000,
            calls: 500_000,
            mostly,
            shown: Shown::Time,
        }
    }

    /// Returns whether this workload is run.
    pub fn wants(&self, workload: Workload) -> bool {
        self.request
            .workloads
            .iter()
            .any(|wanted| *wanted == workload)
    }
}

// A line for each thing that the words after `time` choose. One thread always comes first.
impl fmt::Display for Plan {
    fn fmt<W: fmt::Write>(&self, f: &mut fmt::Formatter<W>) -> fmt::Result {
        f.write_str("workloads")?;
        write_each(f, &self.request.workloads)?;
        f.write_str("\nentries")?;
        write_each(f, &self.request.entries)?;
        f.write_str("\nthreads 1")?;
        write_each(f, &self.request.threads)?;
        match &self.mostly {
            Some(mostly) => write!(f, "\n{mostly}"),
            None => Ok(()),
        }
    }
}

// Writes the values, each preceded by a space.
fn write_each<W: fmt::Write, T: fmt::Display>(
    f: &mut fmt::Formatter<W>,
    values: &[T],
) -> fmt::Result {
    for value in values {
        write!(f, " {value}")?;
    }
    Ok(())
}

/// The workload of reads that mostly hit.
#[derive(Drop)]
pub struct Mostly {
    /// The keys that are asked for.
    pub draws: Draws,
    /// The capacity of each cache.
    pub capacity: u64,
    /// The number of operations of a worker.
    pub operations: u32,
}

impl Mostly {
    /// Returns a small workload.
    pub fn check(alloc: Global) -> Result<Mostly, Failure> {
        let entries = NonZeroU64::new(200).ok_or(Failure::Usage)?;
        Ok(Mostly {
            draws: Draws::even(alloc, entries, 500)?,
            capacity: 100,
            operations: 100,
        })
    }

    /// Returns a workload on these keys that runs long enough to be timed. The default capacity is
    /// 100,000.
    pub fn time(draws: Draws, capacity: Option<NonZeroU64>) -> Mostly {
        Mostly {
            draws,
            capacity: capacity.map_or(100_000, |capacity| capacity.get()),
            operations: 300_000,
        }
    }
}

impl fmt::Display for Mostly {
    fn fmt<W: fmt::Write>(&self, f: &mut fmt::Formatter<W>) -> fmt::Result {
        let (name, capacity) = (Workload::ReadMostly, self.capacity);
        write!(f, "{name} {}, capacity {capacity}", self.draws)
    }
}
