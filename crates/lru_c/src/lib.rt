//! The cache with a single owner, for programs in C and in other languages that call C. C holds
//! handles to caches and to chains of evicted entries. Threads that share a handle need a lock of
//! their own around each call.
#![tactic(auto)]

pub mod any_cache;
pub mod at;
pub mod bytes;
pub mod cache;
pub mod calls;
pub mod chain;
mod chain_calls;
pub mod clock;
pub mod code;
pub mod counts;
pub mod entries;
pub mod handle;
pub mod handles;
pub mod kind;
mod steps;
pub mod told;
pub mod values;
pub mod words;
