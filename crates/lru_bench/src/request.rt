//! Parses the words after `time`.

use crate::failure::Failure;
use crate::keys::FIRST_ABSENT;
use crate::workload::{ALL, Workload};
use std::alloc::{AllocError, Global};
use std::num::NonZeroU64;

/// The largest number of entries that a cache is filled with. With more, keys that must be absent
/// would be present.
pub const MOST_ENTRIES: u64 = FIRST_ABSENT;

/// The numbers of threads that make hits and misses in the runs of more than one thread.
pub const MORE_THREADS: [u16; 3] = [2, 4, 8];

// The numbers of entries of a cache, if no word gives one.
const ENTRIES: [u64; 2] = [1_000, 1_000_000];

// The numbers of entries that the word `sizes` stands for.
const EVERY_SIZE: [u64; 4] = [1_000, 10_000, 100_000, 1_000_000];

/// The workloads to time, and their sizes.
#[derive(Drop)]
pub struct Request {
    /// The workloads, except for reads that mostly hit.
    pub workloads: Vec<Workload>,
    /// The number of entries of a cache, for each run.
    pub entries: Vec<NonZeroU64>,
    /// The number of threads that make hits and misses, for each run after that of one thread.
    pub threads: Vec<u16>,
}

impl Request {
    /// Parses the words. Each is a workload, a number of entries, `sizes` for several such numbers,
    /// or `threads` for runs of more than one thread. Without a number, caches of 1,000 and of
    /// 1,000,000 entries are used. Without a workload, all are run, or only reads that mostly hit
    /// if `has_mostly`.
    ///
    /// Returns `Word` for any other word.
    pub fn of_words(alloc: Global, words: &[String], has_mostly: bool) -> Result<Request, Failure> {
        let mut request = Request {
            workloads: Vec::new(alloc),
            entries: Vec::new(alloc),
            threads: Vec::new(alloc),
        };
        for word in words {
            request.add(alloc, word.as_str())?;
        }
        if request.workloads.is_empty() && !has_mostly {
            request.workloads = ALL.iter().copied().collect(alloc)?;
        }
        if request.entries.is_empty() {
            request.entries = sizes(alloc, &ENTRIES)?;
        }
        Ok(request)
    }

    fn add(&mut self, alloc: Global, word: &str) -> Result<(), Failure> {
        match word {
            "sizes" => self.entries = sizes(alloc, &EVERY_SIZE)?,
            "threads" => self.threads = MORE_THREADS.iter().copied().collect(alloc)?,
            _ => match Workload::named(word) {
                Some(workload) => self.workloads.push(workload)?,
                None => self.entries.push(number(word).ok_or(Failure::Word)?)?,
            },
        }
        Ok(())
    }
}

/// Returns the numbers that are above 0.
pub fn sizes(alloc: Global, numbers: &[u64]) -> Result<Vec<NonZeroU64>, AllocError> {
    numbers
        .iter()
        .filter_map(|number| NonZeroU64::new(*number))
        .collect(alloc)
}

/// Parses a number from 1 to `MOST_ENTRIES`. A sign is not a digit, though `parse` accepts one.
pub fn number(word: &str) -> Option<NonZeroU64> {
    if word.starts_with('+') {
        return None;
    }
    match word.parse::<u64>() {
        Ok(number) if number <= MOST_ENTRIES => NonZeroU64::new(number),
        _ => None,
    }
}
