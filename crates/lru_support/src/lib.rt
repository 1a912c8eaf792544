//! What tests and programs share: one trait for the caches that threads share, values that record
//! their drops, a hasher with known hashes, the stress workload and the calls of its workers,
//! tables of calls, the words of a command line, and the lines of an input.
#![tactic(auto)]

pub mod cached;
pub mod calls;
pub mod drops;
pub mod hashers;
pub mod lines;
pub mod stress;
pub mod tables;
pub mod words;
