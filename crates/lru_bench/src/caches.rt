//! Creates empty caches: on one lock, in shards, and clocks.
ghost use Rattle.std.specs.Prelude.{◌<◌};

use crate::bench::Bench;
use crate::failure::Failure;
use crate::host::{Host, Waiter};
use concurrent_lru::{sharded, unsharded};
use lru_clock::clock;
use std::hash::RandomState;
use std::io::Write;

impl<R: Host, W: Waiter, O: Write, E: Write> Bench<'_, R, W, O, E> {
    /// Creates a cache on one lock.
    pub fn on_one_lock(&self, capacity: u64) -> Result<unsharded::LruCache<u64, u64, W>, Failure> {
        Ok(unsharded::LruCache::new(self.alloc, self.wait.clone()?, capacity))
    }

    /// Creates a cache with this many shards, over which a hasher with a random seed spreads the
    /// keys.
    pub fn in_shards(
        &self,
        capacity: u64,
        shards: usize,
    ) -> Result<sharded::LruCache<u64, u64, W>, Failure>
        requires { 0 < shards }
    {
        let hasher = RandomState::new(self.rt)?;
        let made: Result<sharded::LruCache<u64, u64, W>, _> = sharded::LruCache::with_shards_hasher(
            self.alloc,
            self.wait.clone()?,
            capacity,
            shards,
            hasher,
        );
        Ok(made?)
    }

    /// Creates a clock cache with this many shards, over which a hasher with a random seed spreads
    /// the keys.
    pub fn on_clock(
        &self,
        capacity: u64,
        shards: usize,
    ) -> Result<clock::Cache<u64, u64, W>, Failure>
        requires { 0 < shards }
    {
        let hasher = RandomState::new(self.rt)?;
        let wait = self.wait.clone()?;
        Ok(clock::Cache::with_shards(self.alloc, wait, capacity, shards, hasher)?)
    }
}
