//! The clock for programs in C with threads: a shard of the cache of `lru_clock`, whose lock is the
//! caller's.
//!
//! Each thread has a reader, with which it pins entries and gives their pins back without the lock.
//! All calls that change the shard take its clock, under the lock. A pin is the place of its entry,
//! and any reader of the shard may give it back.
ghost use Rattle.std.specs.Prelude.{◌≡◌};
ghost use Rattle.lru_c.specs.Clocks.{tag_of as tag};

pub mod calls;
pub mod handles;
pub mod locked;
pub mod reader;
pub mod told;

use crate::words::key::Words;
use concurrent_lru::fit::Anything;
use lru_clock::clock_core::Core;

/// What the threads share of a shard.
pub type Entries = Core<Words, u64, Anything>;

// Returns the tag that the index has for a hash.
pub(crate) fn tag_of(hash: u64) -> u32
    ensures { result ≡ tag hash }
{
    (hash >> 32) as u32
}
