//! A cache for threads in which a hit takes no lock, and the drop of a handle hardly ever does.
//!
//! A hit adds a pin to the word of its entry's slot in one compare-exchange, and dropping its
//! handle removes the pin in one subtraction. Entries that nobody has pinned are evicted: a new one
//! is on trial until it is used, and a hand moves from slot to slot among the others, as in CLOCK,
//! and spares those that were used since it last passed them. Misses, insertions and evictions take
//! the lock of a shard.
//!
//! After a caller invalidates a key with a `Past`, it finds with that past only values whose making
//! began later. What is proved of it is by a history of each shard, which exists only in proofs and
//! records when each making began and when each entry was stored: what is found was made by a
//! making that began after all that the past had seen at the invalidation.
//!
//! The caches of `concurrent_lru` evict in exact LRU order. This one has most of their calls, and
//! the same marks and errors. Its owned handles have a clone of the value.
#![tactic(auto)]

pub mod clock;
pub mod clock_core;
mod excess;
mod handle;
mod history;
mod index;
mod makings;
mod order;
mod shard;
mod shard_state;
mod store;
