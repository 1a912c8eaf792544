//! A benchmark of the caches: times their workloads, or prints what they read. It also repeats the
//! stress workload, and runs scripts of calls for runs in which memory is refused. `program` does
//! everything except access the process.
#![tactic(auto)]

mod attack;
mod bench;
mod caches;
mod draws;
mod failure;
mod hits;
mod host;
mod keys;
mod mostly;
mod operation;
mod plan;
mod program;
mod refused;
mod report;
mod request;
mod single;
mod size;
mod soak;
mod stress;
mod system;
mod workers;
mod workload;

use failure::Failure;
use lru_support::words;
use program::program;
use std::process::ExitCode;

fn main(rt: HostRuntime) -> ExitCode {
    let status = match words::after_name(&rt, Failure::Usage) {
        Ok(words) => program(&rt, rt.alloc(), &words, &mut rt.stdout(), &mut rt.stderr()),
        Err(failure) => failure.report(&mut rt.stderr()),
    };
    ExitCode::from(status)
}
