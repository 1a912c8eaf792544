//! Why the program fails.
//!
//! Each failure has its line on standard error, and its exit status.

use concurrent_lru::lru_core::Refusal;
use lru_support::stress::outcome::RoundFailure;
use std::alloc::AllocError;
use std::io;
use std::io::Write;
use std::process::ExitCode;

/// Why the program fails.
#[derive(Clone, Copy)]
pub enum Failure {
    /// The arguments are invalid.
    Usage,
    /// A call was refused though no row expects it, or memory for the program's own data was.
    Refused(Refusal),
    /// The stress workload failed.
    Stress(RoundFailure),
    /// A write failed, with the system's error.
    Write(io::Error),
}

/// Writes to `err` why a run failed, if it did, in one line, and returns the exit status: 0 if it
/// did not fail, 2 for invalid arguments, and otherwise 1.
pub fn status<E: Write>(ended: Result<(), Failure>, err: &mut E) -> ExitCode {
    let (told, status) = match ended {
        Ok(()) => (Ok(()), 0),
        Err(Failure::Usage) => (writeln!(err, "usage: rows | stress SEED"), 2),
        Err(Failure::Refused(refusal)) => (writeln!(err, "refused {}", refusal.code()), 1),
        Err(Failure::Stress(failure)) => (writeln!(err, "{failure}"), 1),
        Err(Failure::Write(error)) => {
            let told = writeln!(err, "lru_rows: cannot write standard output: {error}");
            (told, 1)
        }
    };
    ExitCode::from(if told.is_ok() { status } else { 1 })
}

impl From<AllocError> for Failure {
    fn from(error: AllocError) -> Failure {
        Failure::Refused(Refusal::from(error))
    }
}

impl From<io::Error> for Failure {
    fn from(error: io::Error) -> Failure {
        Failure::Write(error)
    }
}
