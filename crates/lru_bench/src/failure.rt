//! Why the program fails.
//!
//! Each failure has its line on standard error, and its exit status.

use crate::request::MOST_ENTRIES;
use concurrent_lru::lru_core::Refusal;
use lru_support::stress::outcome::{RoundFailure, Trouble};
use std::alloc::{AllocError, AllocFailed};
use std::io;
use std::io::Write;

/// Why the program fails.
#[derive(Clone, Copy)]
pub enum Failure {
    /// The arguments are invalid.
    Usage,
    /// A word after `time` is neither a workload nor a number of entries in the allowed range, or
    /// the capacity is not such a number.
    Word,
    /// A call of the cache was refused, or memory was refused for the program's own data.
    Refused(Refusal),
    /// The file of keys is empty, or its last key is incomplete.
    Keys,
    /// A call of the stress workload returned no value, or that of another key.
    Answers,
    /// A round of the stress workload failed.
    Round(RoundFailure),
    /// Reading a file, a write, the clock or the system's random numbers failed.
    System,
}

impl Failure {
    /// Writes the failure to `err` in one line, and returns the exit status: 2 for invalid
    /// arguments, otherwise 1.
    pub fn report<E: Write>(self, err: &mut E) -> u8 {
        let told = match self {
            Failure::Usage => writeln!(
                err,
                "usage: lru_bench check | \
                 (plan | time) [WORD ..] [read_mostly FILE [CAPACITY]] | \
                 run (lock | clock) WORKLOAD ENTRIES CALLS | \
                 attack (chosen | drawn) (known | seeded | shards) KEYS | \
                 soak SEED MINUTES | refused [SCRIPT]"
            ),
            Failure::Word => writeln!(
                err,
                "lru_bench: WORD is hit_get, hit_read, hit_init, miss_evict, stress, threads, \
                 sizes, or a number of entries from 1 to {MOST_ENTRIES}; CAPACITY is such a number"
            ),
            Failure::Refused(refusal) => writeln!(err, "refused {}", refusal.code()),
            Failure::Keys => writeln!(err, "the file has no keys of four bytes"),
            Failure::Answers => writeln!(err, "stress failed"),
            Failure::Round(failure) => writeln!(err, "{failure}"),
            Failure::System => {
                writeln!(err, "a file, a write, the clock or random numbers failed")
            }
        };
        match (self, told) {
            (Failure::Usage | Failure::Word, Ok(())) => 2,
            _ => 1,
        }
    }
}

impl From<Refusal> for Failure {
    fn from(refusal: Refusal) -> Failure {
        Failure::Refused(refusal)
    }
}

impl From<Trouble> for Failure {
    fn from(trouble: Trouble) -> Failure {
        match trouble {
            Trouble::Refused => Failure::Refused(Refusal::Memory),
            Trouble::Failed(_) => Failure::Answers,
        }
    }
}

impl From<AllocError> for Failure {
    fn from(error: AllocError) -> Failure {
        Failure::Refused(Refusal::from(error))
    }
}

impl<T: Drop> From<AllocFailed<T>> for Failure {
    fn from(_: AllocFailed<T>) -> Failure {
        Failure::Refused(Refusal::Memory)
    }
}

impl From<io::Error> for Failure {
    fn from(_: io::Error) -> Failure {
        Failure::System
    }
}
