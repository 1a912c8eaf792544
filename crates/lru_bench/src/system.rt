//! The caches that are measured, with the names that their lines begin with.

use std::fmt;

/// The default number of shards of a cache.
pub const SHARDS: usize = 16;

/// A larger number, for caches that many threads share.
pub const MORE_SHARDS: usize = 64;

/// The largest number that is measured.
pub const MOST_SHARDS: usize = 256;

/// A kind of cache that has shards.
#[derive(Clone, Copy)]
pub enum Sharded {
    /// The cache that has a lock for each shard.
    Locks,
    /// The clock cache.
    Clock,
}

/// A cache, and for some the way in which it is called.
#[derive(Clone, Copy)]
pub enum System {
    /// The cache on one lock.
    OneLock,
    /// The cache on one lock, which has reserved room for twice its entries.
    Reserved,
    /// The cache with this many shards.
    Shards(usize),
    /// The cache on one lock, called by `read` and then, if nothing was found, by `get_or_init`.
    ReadOnOneLock,
    /// The cache with this many shards, called in the same way.
    ReadInShards(usize),
    /// The clock cache with this many shards.
    Clock(usize),
}

// One word. The default number of shards is left out.
impl fmt::Display for System {
    fn fmt<W: fmt::Write>(&self, f: &mut fmt::Formatter<W>) -> fmt::Result {
        match self {
            System::OneLock => f.write_str("port-unsharded"),
            System::Reserved => f.write_str("port-unsharded-reserved"),
            System::Shards(SHARDS) => f.write_str("port-sharded"),
            System::Shards(shards) => write!(f, "port-sharded-{shards}"),
            System::ReadOnOneLock => f.write_str("port-unsharded-read"),
            System::ReadInShards(SHARDS) => f.write_str("port-sharded-read"),
            System::ReadInShards(shards) => write!(f, "port-sharded-{shards}-read"),
            System::Clock(SHARDS) => f.write_str("port-clock"),
            System::Clock(shards) => write!(f, "port-clock-{shards}"),
        }
    }
}
