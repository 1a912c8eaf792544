//! Why the program fails.
//!
//! Each failure has its line on standard error, and its exit status.

use concurrent_lru::lru_core::Refusal;
use concurrent_lru::unsharded::GetError;
use lru_pages::{Fault, OpenError};
use std::alloc::{AllocError, AllocFailed};
use std::io::{ErrorKind, Write};
use std::{fmt, io};

/// Why the program fails. If it is about a file, it has the path; if it is about a line of the
/// input, it has the number of the line, counted from 1.
#[derive(Drop)]
pub enum Failure<'a> {
    /// The arguments are invalid.
    Usage,
    /// An argument is not UTF-8.
    NotText,
    /// A file was not opened.
    Open(&'a str, OpenError),
    /// A page or a block of it was not read.
    Read(&'a str, GetError<Fault>),
    /// Reading standard input failed.
    Input(io::Error),
    /// A line is not a step: what was expected, and what was found if it can be shown.
    Line(u64, &'static str, Option<String>),
    /// The step on a line was refused, or memory was refused while it was read.
    Step(u64, Refusal),
    /// Memory was refused for the program's own data.
    Refused(Refusal),
    /// A write failed.
    Write(io::Error),
}

impl<'a> Failure<'a> {
    /// Converts the error of reading standard input.
    pub fn of_input(error: &io::Error) -> Failure<'a> {
        match error.kind() {
            ErrorKind::OutOfMemory => Failure::Refused(Refusal::Memory),
            _ => Failure::Input(*error),
        }
    }

    /// Writes the failure to `err` in one line, and returns the exit status: 2 for invalid
    /// arguments, otherwise 1.
    pub fn report<E: Write>(self, err: &mut E) -> u8 {
        let told = writeln!(err, "{self}");
        match (self, told) {
            (Failure::Usage | Failure::NotText, Ok(())) => 2,
            _ => 1,
        }
    }
}

impl<'a> fmt::Display for Failure<'a> {
    fn fmt<W: fmt::Write>(&self, f: &mut fmt::Formatter<W>) -> fmt::Result {
        match self {
            Failure::Usage => write!(f, "usage: examples [cat FILE [PAGES] | replay < STEPS]"),
            Failure::NotText => write!(f, "examples: an argument is not valid UTF-8"),
            Failure::Open(path, error) => write!(f, "examples: cannot open {path:?}: {error}"),
            Failure::Read(path, error) => write!(f, "examples: cannot read {path:?}: {error}"),
            Failure::Input(error) => write!(f, "examples: cannot read standard input: {error}"),
            Failure::Line(number, expected, None) => {
                write!(f, "line {number}: expected {expected}")
            }
            Failure::Line(number, expected, Some(found)) => {
                write!(f, "line {number}: expected {expected}, not {found:?}")
            }
            Failure::Step(number, refusal) => write!(
                f,
                "line {number}: refused {}",
                refusal.code()
            ),
            Failure::Refused(refusal) => write!(f, "refused {}", refusal.code()),
            Failure::Write(error) => write!(f, "examples: cannot write standard output: {error}"),
        }
    }
}

impl<'a> From<Refusal> for Failure<'a> {
    fn from(refusal: Refusal) -> Failure<'a> {
        Failure::Refused(refusal)
    }
}

impl<'a> From<AllocError> for Failure<'a> {
    fn from(error: AllocError) -> Failure<'a> {
        Failure::Refused(Refusal::from(error))
    }
}

impl<'a, T: Drop> From<AllocFailed<T>> for Failure<'a> {
    fn from(error: AllocFailed<T>) -> Failure<'a> {
        Failure::Refused(Refusal::from(error))
    }
}

impl<'a> From<io::Error> for Failure<'a> {
    fn from(error: io::Error) -> Failure<'a> {
        Failure::Write(error)
    }
}
