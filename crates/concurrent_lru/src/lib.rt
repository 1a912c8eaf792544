//! A cache of heavy values that threads share. Handles pin values; entries without a pin are
//! evicted, least recently released first, while the charges exceed the capacity.
//!
//! Every function on the path of a hit, from the call to its node, is marked `inline(always)`: a
//! hit takes some fifty nanoseconds, so each call of a function shows. What is rare (a making, a
//! wait, a growth) is left as a call.
#![tactic(auto)]

pub mod as_key;
pub mod counts;
mod door;
pub mod eviction;
pub mod fit;
mod get_error;
mod handle;
pub mod linear_probing;
pub mod list;
pub mod locked;
pub mod lru_core;
mod maker;
pub mod node_table;
mod owned;
mod refusal;
pub mod sealed;
pub mod shard_laws;
pub mod sharded;
mod shards;
pub mod share;
pub mod shown;
pub mod step;
pub mod step_laws;
mod table;
pub mod unsharded;
pub mod whole_runs;
mod work;
