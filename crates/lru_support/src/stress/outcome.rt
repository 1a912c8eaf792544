//! The outcome of a stress run: what it counted, or why it failed.

use concurrent_lru::lru_core::Refusal;
use std::alloc::{AllocError, AllocFailed};
use std::fmt;

/// What the parts of a run counted together.
#[derive(Clone, Copy)]
pub struct Counts {
    /// How often a value had to be made: an `init` ran, or the twin returned `Make`.
    pub makings: u64,
    /// How many calls returned a value that another call made.
    pub hits: u64,
    /// How many values were evicted before the end of their part, not counting those of the twin.
    pub evictions: u64,
    /// How many of the hits returned a value that was made during the call. Such a caller waited
    /// for it, unless it acquired the lock only after the making. The twin has none.
    pub meetings: u64,
    /// The greatest total that was read while a handle was held; 0 if none was read.
    pub greatest: u128,
}

impl Counts {
    /// Returns counts of 0.
    pub fn none() -> Counts {
        Counts {
            makings: 0,
            hits: 0,
            evictions: 0,
            meetings: 0,
            greatest: 0,
        }
    }

    /// Returns the sums of the counts, and the greater of the totals.
    pub fn and(self, other: Counts) -> Counts {
        Counts {
            makings: self.makings.saturating_add(other.makings),
            hits: self.hits.saturating_add(other.hits),
            evictions: self.evictions.saturating_add(other.evictions),
            meetings: self.meetings.saturating_add(other.meetings),
            greatest: self.greatest.max(other.greatest),
        }
    }
}

/// The checks of a run. The first four are of the unsharded, the sharded and the clock cache.
#[derive(Clone, Copy, Debug, PartialEq, Eq)]
pub enum Check {
    /// A call whose making would not fail returns a value of its key.
    Answers,
    /// After all workers have ended, the total is at most the capacity.
    Total,
    /// After a prune the total is 0.
    Prune,
    /// After that prune, as many values were dropped as were made.
    Drops,
    /// No call of the twin returns `Wait`, and none is refused.
    TwinAnswers,
    /// The twin's journal has one record for each accepted call.
    TwinRecords,
    /// The journal's total is at most the capacity, and 0 after a prune.
    TwinTotal,
}

impl fmt::Display for Check {
    fn fmt<W: fmt::Write>(&self, f: &mut fmt::Formatter<W>) -> fmt::Result {
        let name = match self {
            Check::Answers => "answers",
            Check::Total => "total",
            Check::Prune => "prune",
            Check::Drops => "drops",
            Check::TwinAnswers => "answers of the twin",
            Check::TwinRecords => "records of the twin",
            Check::TwinTotal => "total of the twin",
        };
        f.write_str(name)
    }
}

/// Why a run failed.
#[derive(Clone, Copy, Debug, PartialEq, Eq)]
pub enum Trouble {
    /// Memory was refused, or a thread was not started.
    Refused,
    /// This check failed.
    Failed(Check),
}

impl Trouble {
    /// Returns the one to report: a refusal before a failed check, otherwise the first.
    pub fn worse(one: Option<Trouble>, other: Option<Trouble>) -> Option<Trouble> {
        match (one, other) {
            (Some(Trouble::Failed(_)), Some(Trouble::Refused)) | (None, _) => other,
            _ => one,
        }
    }
}

/// Why the run of a seed failed.
#[derive(Clone, Copy, Debug, PartialEq, Eq)]
pub struct RoundFailure {
    /// The seed of the run.
    pub seed: u64,
    /// Why it failed.
    pub trouble: Trouble,
}

// A refusal depends on the system and not on the seed.
impl fmt::Display for RoundFailure {
    fn fmt<W: fmt::Write>(&self, f: &mut fmt::Formatter<W>) -> fmt::Result {
        match self.trouble {
            Trouble::Refused => f.write_str("refused 1"),
            Trouble::Failed(check) => write!(f, "seed {} failed: {check}", self.seed),
        }
    }
}

impl From<Refusal> for Trouble {
    fn from(refusal: Refusal) -> Trouble {
        match refusal {
            Refusal::Memory => Trouble::Refused,
            Refusal::Overflow | Refusal::Stale | Refusal::Full => {
                Trouble::Failed(Check::TwinAnswers)
            }
        }
    }
}

impl From<AllocError> for Trouble {
    fn from(_: AllocError) -> Trouble {
        Trouble::Refused
    }
}

impl<T: Drop> From<AllocFailed<T>> for Trouble {
    fn from(_: AllocFailed<T>) -> Trouble {
        Trouble::Refused
    }
}
