//! One workload on one cache, in one thread, for tools that count what a call does. Two runs with
//! the same arguments do the same work, since they read no clock and draw no random number.

use crate::failure::Failure;
use crate::operation::{Get, Init, Make, Read};
use crate::request::number;
use crate::workers;
use crate::workers::WorkloadKeys;
use crate::workload::Workload;
use concurrent_lru::unsharded::LruCache;
use lru_clock::clock::Cache;
use lru_support::cached::Cached;
use std::alloc::Global;
use std::hash::{BuildHasherDefault, FoldHasher};
use std::num::NonZeroU64;
use std::sync::Wait;

// Which cache is called.
#[derive(Clone, Copy)]
enum Target {
    // One lock.
    Lock,
    // A clock of one shard.
    Clock,
}

impl Target {
    fn named(name: &str) -> Option<Target> {
        match name {
            "lock" => Some(Target::Lock),
            "clock" => Some(Target::Clock),
            _ => None,
        }
    }
}

/// A workload of hits or misses, on which cache it is run, and how much of it.
#[derive(Clone, Copy)]
pub struct Single {
    target: Target,
    workload: Workload,
    entries: NonZeroU64,
    calls: u32,
}

impl Single {
    /// Parses the name of a cache, `lock` or `clock`, the name of a workload, the number of entries
    /// and the number of calls.
    ///
    /// Returns `Usage` if there is no cache or no workload of this name, or a number is not one
    /// from 1 to `MOST_ENTRIES`.
    pub fn of_words(
        target: &str,
        workload: &str,
        entries: &str,
        calls: &str,
    ) -> Result<Single, Failure> {
        let calls = number(calls).ok_or(Failure::Usage)?;
        Ok(Single {
            target: Target::named(target).ok_or(Failure::Usage)?,
            workload: Workload::named(workload).ok_or(Failure::Usage)?,
            entries: number(entries).ok_or(Failure::Usage)?,
            calls: u32::try_from(calls.get()).unwrap_or(u32::MAX),
        })
    }

    /// Fills a cache, uses its entries at random, so that their order is not that of their memory,
    /// and then makes the calls. Returns the sum of the values that the calls read.
    ///
    /// Returns `Usage` if the workload is not one of hits or misses.
    pub fn run<W: Wait + Drop>(self, alloc: Global, wait: W) -> Result<u64, Failure> {
        let capacity = self.entries.get();
        match self.target {
            Target::Lock => {
                let cache: LruCache<u64, u64, W> = LruCache::new(alloc, wait, capacity);
                self.call(&cache)
            }
            Target::Clock => {
                let hasher: BuildHasherDefault<FoldHasher> = BuildHasherDefault::new();
                let cache: Cache<u64, u64, W, BuildHasherDefault<FoldHasher>> =
                    Cache::with_shards_hasher(alloc, wait, capacity, 1, hasher)?;
                self.call(&cache)
            }
        }
    }

    fn call<C: Cached<u64>>(self, cache: C) -> Result<u64, Failure> {
        let make = Make(cache);
        let present = WorkloadKeys::Present(self.entries);
        workers::fill(&make, self.entries)?;
        workers::work(&make, present, 1, self.uses_before())?;
        let told = match self.workload {
            Workload::HitGet => workers::work(&Get(cache), present, 0, self.calls)?,
            Workload::HitRead => workers::work(&Read(cache), present, 0, self.calls)?,
            Workload::HitInit => workers::work(&Init(cache), present, 0, self.calls)?,
            Workload::MissEvict => workers::work(&make, WorkloadKeys::Absent, 0, self.calls)?,
            Workload::Stress | Workload::ReadMostly => return Err(Failure::Usage),
        };
        Ok(told.sum)
    }

    // Two uses of each entry on average, before the calls.
    fn uses_before(self) -> u32 {
        u32::try_from(self.entries.get().saturating_mul(2)).unwrap_or(u32::MAX)
    }
}
