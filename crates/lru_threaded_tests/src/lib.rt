//! Tests of the caches that threads share, of one lock, of shards and of the clock, and of the
//! stress workload.
//!
//! They are apart from the caches, so that the crates of the caches are proved once.
#![tactic(auto)]

#[cfg(test)]
mod assertions;
#[cfg(test)]
mod beginnings;
#[cfg(test)]
mod caches;
#[cfg(test)]
mod clock;
#[cfg(test)]
mod crossings;
#[cfg(test)]
mod example;
#[cfg(test)]
mod flags;
#[cfg(test)]
mod gates;
#[cfg(test)]
mod handles;
#[cfg(test)]
mod keys;
#[cfg(test)]
mod makers;
#[cfg(test)]
mod marks;
#[cfg(test)]
mod meetings;
#[cfg(test)]
mod pool;
#[cfg(test)]
mod removals;
#[cfg(test)]
mod resets;
#[cfg(test)]
mod rows;
#[cfg(test)]
mod seeded;
#[cfg(test)]
mod stress;
#[cfg(test)]
mod threaded;
#[cfg(test)]
mod told;
#[cfg(test)]
mod waiting;
