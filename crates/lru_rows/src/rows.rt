//! The worked rows: each shows one rule of the cache at work, as a line of text.
//!
//! Most of them are scripts for a cache without a lock; the others have a function each.

mod journal;
pub mod line;
mod locked;
mod script;
mod scripts;
mod shards;
mod threads;

use concurrent_lru::lru_core::Refusal;
use line::Line;
use script::Script;
use std::alloc::Global;
use std::sync::Wait;
use std::thread::Threads;

/// The rows, in order: the first is row 1.
pub const ROWS: &[Row] = &[
    Row::Values(10, 1),
    Row::Values(5, 3),
    Row::Advice,
    Row::Scripts(scripts::EVICTS_THE_OLDEST),
    Row::Scripts(scripts::KEEPS_WHAT_IS_PINNED),
    Row::FailedMaking,
    Row::PrunedShards,
    Row::Scripts(scripts::EVICTS_BEFORE_A_FAILED_MAKING),
    Row::Scripts(scripts::KEEPS_A_LARGE_ENTRY_WHILE_PINNED),
    Row::Scripts(scripts::KEEPS_THE_FIRST_CHARGE),
    Row::Scripts(scripts::EVICTS_BY_LAST_RELEASE),
    Row::Scripts(scripts::HOLDS_WHAT_FITS),
    Row::Scripts(scripts::HOLDS_WHAT_WAS_LOOKED_UP),
    Row::Shares(&[(10, 16), (128, 16), (10, 4), (0, 4), (u64::MAX, 16)]),
    Row::Scripts(scripts::REFUSES_PAST_THE_GREATEST_TOTAL),
    Row::Scripts(scripts::HANDS_A_MAKING_OVER),
    Row::Scripts(scripts::HOLDS_NOTHING_WITHOUT_CAPACITY),
    Row::Scripts(scripts::REFUSES_PAST_THE_LAST_STAMP_AND_PIN),
    Row::Scripts(scripts::SETTLES_TO_A_NEW_CAPACITY),
    Row::TwoThreads,
    Row::Journal,
    Row::ShardOfAKey,
];

/// The content of a row.
#[derive(Clone, Copy)]
pub enum Row {
    /// Runs scripts, one after another, on a cache without a lock.
    Scripts(&'static [Script]),
    /// At this capacity, with this charge for each entry: a present key keeps its value, and after
    /// an eviction it is made again.
    Values(u64, u64),
    /// Advice evicts an entry that is not pinned, and does nothing to a pinned one.
    Advice,
    /// A making that fails leaves no entry, and the next one may succeed.
    FailedMaking,
    /// A prune evicts in every shard.
    PrunedShards,
    /// Each shard's share of a capacity: the quotient, rounded up. 0 shards count as 1.
    Shares(&'static [(u64, usize)]),
    /// A new entry evicts in its own shard only.
    ShardOfAKey,
    /// A thread finds the value that another thread made.
    TwoThreads,
    /// Accepted steps are recorded, even if nothing was found; refused ones are not.
    Journal,
}

impl Row {
    /// Runs the row and adds its parts to a line; a journal's records follow below, one on each
    /// line.
    ///
    /// A refusal is shown if a script asks for it, and otherwise returned. `Memory` is never shown;
    /// it is also returned if a thread cannot be started.
    pub fn run<R: Threads + Wait + Sync>(
        &self,
        rt: &R,
        alloc: Global,
        line: &mut Line,
    ) -> Result<(), Refusal> {
        match *self {
            Row::Scripts(scripts) => script::run(alloc, scripts, line),
            Row::Values(capacity, charge) => {
                locked::makes_values(rt, alloc, capacity, charge, line)
            }
            Row::Advice => locked::evicts_on_advice(rt, alloc, line),
            Row::FailedMaking => locked::keeps_no_failed_making(rt, alloc, line),
            Row::PrunedShards => shards::prunes_every_shard(rt, alloc, line),
            Row::Shares(shares) => shards::divides_its_capacity(shares, line),
            Row::ShardOfAKey => shards::evicts_in_the_shard_of_a_key(alloc, line),
            Row::TwoThreads => threads::finds_what_another_thread_made(rt, alloc, line),
            Row::Journal => journal::records_accepted_steps(alloc, line),
        }
    }
}
