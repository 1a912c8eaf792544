//! A soak test: runs the stress workload from one seed after another until the time is over.

use crate::failure::Failure;
use lru_support::stress::outcome::{Counts, RoundFailure};
use lru_support::stress::plan::Plan;
use lru_support::stress::run;
use lru_support::stress::seed::number;
use std::alloc::Global;
use std::io::Write;
use std::rt::Clock;
use std::sync::Wait;
use std::thread::Threads;
use std::time::{Duration, Instant};

// How many calls a worker makes in a round. Where other programs compete for the processors, each
// yield takes as long as their time slice, so a round of many calls would take minutes.
const CALLS: u32 = 1_000;

// How often an `init` yields, so that other threads meet it.
const YIELDS: u32 = 2;

/// Where a soak test begins, and for how long it runs.
#[derive(Clone, Copy)]
pub struct Soak {
    first_seed: u64,
    time: Duration,
}

impl Soak {
    /// Parses the first seed and the number of minutes.
    ///
    /// Returns `Usage` unless both consist of digits and fit a `u64`.
    pub fn of_words(seed: &str, minutes: &str) -> Result<Soak, Failure> {
        let minutes = number(minutes).ok_or(Failure::Usage)?;
        Ok(Soak {
            first_seed: number(seed).ok_or(Failure::Usage)?,
            time: Duration::from_secs(minutes.saturating_mul(60)),
        })
    }

    /// Runs rounds until the time is over, and writes a line for each.
    ///
    /// Returns `Round` with the seed for the first check that fails, which ends the test, or if
    /// memory or a thread is refused to a round.
    pub fn run<R: Threads + Wait + Clock + Clone + Drop + Send + Sync, O: Write>(
        self,
        rt: &R,
        alloc: Global,
        out: &mut O,
    ) -> Result<(), Failure> {
        let begin = Instant::now(rt)?;
        let mut rounds: u64 = 0;
        for seed in self.first_seed..=u64::MAX {
            if begin.elapsed(rt)? >= self.time {
                break;
            }
            round(rt, alloc, seed, out)?;
            rounds = rounds.saturating_add(1);
        }
        writeln!(out, "rounds {rounds}")?;
        Ok(())
    }
}

// Runs the round of a seed, on each kind of cache: each `init` yields, and the total is read while
// each handle is held.
fn round<R: Threads + Wait + Clone + Drop + Send + Sync, O: Write>(
    rt: &R,
    alloc: Global,
    seed: u64,
    out: &mut O,
) -> Result<(), Failure> {
    let mut plan = Plan::new(seed);
    plan.calls = CALLS;
    plan.yields = YIELDS;
    plan.looks = true;
    plan.has_clock = true;
    match run::run(rt, alloc, &plan) {
        Ok(counts) => tell(seed, &counts, out),
        Err(trouble) => Err(Failure::Round(RoundFailure { seed, trouble })),
    }
}

fn tell<O: Write>(seed: u64, counts: &Counts, out: &mut O) -> Result<(), Failure> {
    writeln!(
        out,
        "seed {seed} makings {} hits {} evictions {} meetings {} greatest {}",
        counts.makings, counts.hits, counts.evictions, counts.meetings, counts.greatest
    )?;
    Ok(())
}
