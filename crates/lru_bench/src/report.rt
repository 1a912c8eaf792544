//! The lines of the output: a workload and its result.

use crate::failure::Failure;
use crate::plan::Shown;
use crate::system::System;
use crate::workload::Workload;
use std::fmt;
use std::io::Write;
use std::rt::Clock;
use std::time::Instant;

/// A workload that was run.
#[derive(Clone, Copy)]
pub struct Work {
    /// The cache that is called.
    pub system: System,
    /// The kind of the operations.
    pub workload: Workload,
    /// The capacity of the cache.
    pub entries: u64,
    /// The number of threads.
    pub threads: u16,
    /// The number of operations of each thread.
    pub operations: u32,
}

impl Work {
    // Returns the number of operations of all threads.
    fn total(&self) -> u64 {
        u64::from(self.operations).saturating_mul(u64::from(self.threads))
    }
}

impl fmt::Display for Work {
    fn fmt<W: fmt::Write>(&self, f: &mut fmt::Formatter<W>) -> fmt::Result {
        write!(
            f,
            "{} {} {} {}",
            self.system, self.workload, self.entries, self.threads
        )
    }
}

/// Writes a line for each workload, and for some a second one with the hit ratio.
#[derive(Drop)]
pub struct Report<'a, R, O, E> {
    rt: &'a R,
    out: &'a mut O,
    err: &'a mut E,
    shown: Shown,
}

impl<'a, R: Clock, O: Write, E: Write> Report<'a, R, O, E> {
    /// Creates an empty report.
    pub fn new(rt: &'a R, out: &'a mut O, err: &'a mut E, shown: Shown) -> Report<'a, R, O, E> {
        Report {
            rt,
            out,
            err,
            shown,
        }
    }

    /// Runs a workload, which returns the sum of the values that it read, and writes its line.
    pub fn time<F: FnOnce() -> Result<u64, Failure> + Drop>(
        &mut self,
        work: &Work,
        run: F,
    ) -> Result<(), Failure>
        requires { F.IsAlwaysCallable run }
    {
        let begin = Instant::now(self.rt)?;
        let sum = run()?;
        let taken = begin.elapsed(self.rt)?;
        match self.shown {
            Shown::Sum => writeln!(self.out, "{work} {sum}")?,
            Shown::Time => {
                let nanoseconds = u64::try_from(taken.as_nanos()).unwrap_or(u64::MAX);
                let tenths = per_operation(nanoseconds, 10, work);
                writeln!(self.out, "{work} {}.{}", tenths / 10, tenths % 10)?;
            }
        }
        Ok(())
    }

    /// Writes a workload's hit ratio if times are shown. It depends on the schedule, so it is not
    /// written beside sums.
    pub fn tell_hits(&mut self, work: &Work, hits: u64) -> Result<(), Failure> {
        match self.shown {
            Shown::Sum => {}
            Shown::Time => {
                let ratio = per_operation(hits, 10_000, work);
                writeln!(
                    self.err,
                    "# hits {work} {}.{:04}",
                    ratio / 10_000,
                    ratio % 10_000
                )?;
            }
        }
        Ok(())
    }
}

// Returns a number of units for each operation of the workload, rounded down, or 0 if it has none.
fn per_operation(number: u64, units: u64, work: &Work) -> u64 {
    let total = number.saturating_mul(units).checked_div(work.total());
    total.unwrap_or(0)
}
