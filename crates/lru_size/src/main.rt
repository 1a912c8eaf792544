//! Prints how many uses of a trace hit a cache, at any capacity of the cache.
//!
//! The arguments are those of `options`. The trace is read from the file that they name, or from
//! standard input. `program` does everything except access the process.
#![tactic(auto)]

mod clock;
mod csv;
mod failure;
mod hit_curve;
mod lines;
mod optimum;
mod options;
mod order;
mod plot;
mod program;
mod progress;
mod results;
mod sample;
mod scale;
mod table;
mod trace;

use failure::Failure;
use lru_support::words;
use program::{Streams, program};
use std::io::{self, BufReader, BufWriter, IsTerminal};
use std::os::fd::AsFd;
use std::process::ExitCode;

fn main(rt: HostRuntime) -> ExitCode {
    let alloc = rt.alloc();
    let buffers = BufReader::new(alloc, rt.reader()).and_then(|input| Ok((
        input,
        BufWriter::new(alloc, rt.stdout())?,
    )));
    let mut err = rt.stderr();
    let status = match (words::after_name(&rt, Failure::NotUtf8), buffers) {
        (Ok(args), Ok((input, mut out))) => {
            let err_is_terminal = err.as_fd().is_terminal();
            let streams = Streams {
                input,
                out: &mut out,
                err: &mut err,
                err_is_terminal,
            };
            program(alloc, &rt, &args, streams)
        }
        (Err(failure), _) => failure.report(&mut err),
        (_, Err(error)) => Failure::from_read_error(&error).report(&mut err),
    };
    ExitCode::from(status)
}
