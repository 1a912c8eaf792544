//! Prints worked rows, each of which shows one rule of the cache at work. `program` does everything
//! except access the process.
#![tactic(auto)]

mod failure;
mod program;
mod rows;

use failure::{Failure, status};
use lru_support::words;
use program::program;
use std::process::ExitCode;

fn main(rt: HostRuntime) -> ExitCode {
    let words = words::after_name(&rt, Failure::Usage);
    let ended = words.and_then(|words| program(&rt, rt.alloc(), &words, &mut rt.stdout()));
    status(ended, &mut rt.stderr())
}
