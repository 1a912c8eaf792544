//! Why the program fails.

use lru_sizing::refusal::Refusal;
use std::alloc::{AllocError, AllocFailed, Global};
use std::io::{ErrorKind, Write};
use std::{fmt, io};

/// What was expected of a line of the trace.
#[derive(Clone, Copy, Debug, PartialEq, Eq)]
pub enum Expected {
    /// A line of UTF-8.
    Utf8,
    /// A key, with or without a charge.
    Use,
    /// A charge.
    Charge,
    /// The end of the line.
    End,
}

impl fmt::Display for Expected {
    fn fmt<W: fmt::Write>(&self, f: &mut fmt::Formatter<W>) -> fmt::Result {
        f.write_str(match self {
            Expected::Utf8 => "UTF-8",
            Expected::Use => "KEY [CHARGE]",
            Expected::Charge => "a charge from 1 to 18446744073709551615",
            Expected::End => "nothing after the charge",
        })
    }
}

/// Why the program fails. Lines are counted from 1.
#[derive(Debug, Drop)]
pub enum Failure {
    /// The arguments are invalid, as this message from their parser explains.
    Usage(String),
    /// An argument is not UTF-8.
    NotUtf8,
    /// The plot and the CSV file would go to the same place.
    OneFile,
    /// Memory ran out.
    OutOfMemory,
    /// The trace has no line.
    NoUses,
    /// The sample has `keys` keys, fewer than the `wanted` ones that an estimate needs.
    FewKeys {
        keys: usize,
        wanted: usize,
    },
    /// No key of the sample is used twice, so the sample says nothing of hits.
    NoReuse,
    /// A line of the trace is not a use: it has the word `found` where something else was expected.
    Line {
        line: u64,
        expected: Expected,
        found: Option<String>,
    },
    /// Two lines of the trace give the same key different charges.
    TwoCharges {
        first: u64,
        second: u64,
    },
    /// The charges of the keys up to this line add up to more than `u64::MAX`.
    Overflow {
        line: u64,
    },
    /// The charges of the sampled keys add up to more than `u64::MAX`.
    SampleOverflow,
    /// The use on this line did not hit or miss in the replay as the curve predicts.
    Mismatch {
        line: u64,
    },
    /// Standard input could not be read.
    Read(io::Error),
    /// The file that has the trace could not be opened or read.
    Trace {
        path: String,
        error: io::Error,
    },
    /// Standard output could not be written.
    Write(io::Error),
    /// A file could not be written.
    File {
        path: String,
        error: io::Error,
    },
}

impl Failure {
    /// Converts an error from reading standard input.
    pub fn from_read_error(error: &io::Error) -> Failure {
        match error.kind() {
            ErrorKind::OutOfMemory => Failure::OutOfMemory,
            _ => Failure::Read(*error),
        }
    }

    /// Converts an error from reading the trace in the file at `path`.
    pub fn of_trace(self, alloc: Global, path: &str) -> Failure {
        let Failure::Read(error) = self else {
            return self;
        };
        match String::from_str(alloc, path) {
            Ok(path) => Failure::Trace { path, error },
            Err(_) => Failure::OutOfMemory,
        }
    }

    /// Converts an error from writing the file at `path`.
    pub fn from_file_error(alloc: Global, path: &str, error: io::Error) -> Failure {
        match String::from_str(alloc, path) {
            Ok(path) => Failure::File { path, error },
            Err(_) => Failure::OutOfMemory,
        }
    }

    /// The charges of the keys up to the use at this place of the trace, counted from 0, add up to
    /// more than `u64::MAX`.
    pub fn overflow_at(place: usize) -> Failure {
        Failure::Overflow {
            line: line_of(place),
        }
    }

    /// Writes a message to `err`, and returns the exit status of the program.
    ///
    /// The status is 2 if the arguments or the trace are to blame, and otherwise 1. It is also 1 if
    /// the message cannot be written.
    pub fn report<E: Write>(self, err: &mut E) -> u8 {
        match writeln!(err, "lru_size: {self}") {
            Ok(()) => self.status(),
            Err(_) => 1,
        }
    }

    fn status(&self) -> u8 {
        match self {
            Failure::Usage(_)
            | Failure::NotUtf8
            | Failure::OneFile
            | Failure::NoUses
            | Failure::FewKeys { .. }
            | Failure::NoReuse
            | Failure::Line { .. }
            | Failure::TwoCharges { .. } => 2,
            _ => 1,
        }
    }
}

impl fmt::Display for Failure {
    fn fmt<W: fmt::Write>(&self, f: &mut fmt::Formatter<W>) -> fmt::Result {
        match self {
            Failure::Usage(text) => f.write_str(message_of(text.as_str())),
            Failure::NotUtf8 => write!(f, "an argument is not valid UTF-8"),
            Failure::OneFile => write!(f, "--svg and --csv name the same file"),
            Failure::OutOfMemory => write!(f, "out of memory"),
            Failure::NoUses => write!(f, "the trace is empty"),
            Failure::FewKeys { keys, wanted } => write!(
                f,
                "too few keys in the sample: {keys}, and an estimate needs {wanted}; choose a \
                    smaller N"
            ),
            Failure::NoReuse => write!(
                f,
                "no key in the sample is used twice, so hits cannot be estimated: choose a \
                    smaller N"
            ),
            Failure::Line {
                line,
                expected,
                found: None,
            } => write!(f, "line {line}: expected {expected}"),
            Failure::Line {
                line,
                expected,
                found: Some(word),
            } => write!(f, "line {line}: expected {expected}, found {word:?}"),
            Failure::TwoCharges { first, second } => {
                write!(f, "lines {first} and {second}: one key with two charges")
            }
            Failure::Overflow { line } => write!(
                f,
                "line {line}: the charges of the keys add up to more than {}",
                u64::MAX
            ),
            Failure::SampleOverflow => write!(
                f,
                "the charges of the sampled keys add up to more than {}",
                u64::MAX
            ),
            Failure::Mismatch { line } => {
                write!(f, "line {line}: the replay contradicts the curve")
            }
            Failure::Read(error) => write!(f, "cannot read standard input: {error}"),
            Failure::Trace { path, error } => write!(f, "cannot read {path:?}: {error}"),
            Failure::Write(error) => write!(f, "cannot write standard output: {error}"),
            Failure::File { path, error } => write!(f, "cannot write {path:?}: {error}"),
        }
    }
}

// Strips `error: ` and the newline at the end from a message of the arguments' parser.
fn message_of(text: &str) -> &str {
    let text = text.trim_end();
    text.strip_prefix("error: ").unwrap_or(text)
}

// A refusal counts the uses of the trace from 0, and there is one on each line.
fn line_of(place: usize) -> u64 {
    (place as u64).saturating_add(1)
}

impl From<Refusal> for Failure {
    fn from(refusal: Refusal) -> Failure {
        match refusal {
            Refusal::Memory => Failure::OutOfMemory,
            Refusal::Overflow(place) => Failure::overflow_at(place),
            Refusal::TwoCharges(first, second) => Failure::TwoCharges {
                first: line_of(first),
                second: line_of(second),
            },
        }
    }
}

impl From<AllocError> for Failure {
    fn from(_: AllocError) -> Failure {
        Failure::OutOfMemory
    }
}

impl<T: Drop> From<AllocFailed<T>> for Failure {
    fn from(_: AllocFailed<T>) -> Failure {
        Failure::OutOfMemory
    }
}

impl From<io::Error> for Failure {
    fn from(error: io::Error) -> Failure {
        match error.kind() {
            ErrorKind::OutOfMemory => Failure::OutOfMemory,
            _ => Failure::Write(error),
        }
    }
}
