//! Tests of the cache for a single owner, of the journal and its twin, of page caches and of
//! sizing, and the examples of the documents.
//!
//! They are apart from what they test, so that its crates are proved once. The library is empty:
//! its modules contain only tests.
#![tactic(auto)]

#[cfg(test)]
mod assertions;
#[cfg(test)]
mod examples;
#[cfg(test)]
mod journal;
#[cfg(test)]
mod pages;
#[cfg(test)]
mod sizing;
#[cfg(test)]
mod state;
