//! Programs that use the caches: threads that share one, a file printed through a cache of its
//! pages, and steps from standard input replayed on a cache.
#![tactic(auto)]

mod cat;
mod counted;
mod failure;
mod program;
mod replay;
mod threads;

use failure::Failure;
use lru_support::words;
use program::program;
use std::process::ExitCode;

fn main(rt: HostRuntime) -> ExitCode {
    let (mut out, mut err) = (rt.stdout(), rt.stderr());
    let status = match words::after_name(&rt, Failure::NotText) {
        Ok(words) => program(&rt, rt.alloc(), &words, rt.reader(), &mut out, &mut err),
        Err(failure) => failure.report(&mut err),
    };
    ExitCode::from(status)
}
