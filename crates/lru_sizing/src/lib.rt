//! Sizing a cache: which uses of a trace hit, at every capacity, from one pass over the trace.
//!
//! A trace is a list of uses, each a key and its charge; a key has one charge. The *reuse weight*
//! of a use is the sum of the charges of the distinct keys used since the last use of its key,
//! including its own; the first use of a key has none. In a cache for a single owner
//! (`lru_core::State`) that starts empty, and in which each use is released at once, a use hits if
//! and only if its reuse weight is at most the capacity: `law` states this of every run, and
//! `replay` runs the cache.
//!
//! - `reuse_weights` reads a trace once.
//! - `Curve` returns hits, misses and the charge made at any capacity, and the least capacity for a
//!   number of hits.
//! - `replay` runs a trace through the cache itself.
//! - `estimate` samples the keys of a trace that outgrows memory. No clause states how near
//!   an estimate is.
#![tactic(auto)]

pub mod curve;
pub mod estimate;
pub mod law;
pub mod refusal;
pub mod replay;
pub mod reuse_weights;
pub mod sum_tree;
