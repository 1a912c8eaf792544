//! Unsharded, sharded and clock caches whose values count themselves, and the checks of them.
ghost use Rattle.std.specs.Prelude.{◌<◌};

use crate::cached::Cached;
use crate::calls::WorkerCall;
use crate::stress::counted::{Book, CountedValue};
use crate::stress::outcome::{Check, Counts, Trouble};
use crate::stress::plan::Plan;
use crate::stress::workers::{Answer, Notes, StressTarget, Unmade};
use concurrent_lru::{sharded, unsharded};
use lru_clock::clock;
use std::alloc::Global;
use std::hash::{BuildHasherDefault, FoldHasher};
use std::sync::Arc;

/// The hasher of the caches with shards.
pub type KeyHasher = BuildHasherDefault<FoldHasher>;

/// The cache behind one lock.
pub type Cache<R> = unsharded::LruCache<u64, CountedValue, R>;

/// The cache with shards.
pub type Shards<R> = sharded::LruCache<u64, CountedValue, R, KeyHasher>;

/// The clock, with shards.
pub type Clock<R> = clock::Cache<u64, CountedValue, R, KeyHasher>;

/// A reference to a cache, how it is asked, and the book of its values.
#[derive(Drop)]
pub struct CheckedCache<C> {
    cache: C,
    book: Arc<Book>,
    // How often an `init` yields.
    yields: u32,
    // Whether the total is read while the handle is held.
    looks: bool,
}

impl<C: Cached<CountedValue>> StressTarget for CheckedCache<C> {
    fn ask(&self, call: &WorkerCall) -> Result<Answer, Unmade> {
        let began = self.book.now();
        let mut ran = false;
        match self.cache.get_or_try_init(call.key, call.charge, |_| {
            ran = true;
            CountedValue::make(&self.book, call, self.yields)
        }) {
            Ok(handle) => {
                let value = C::value_of(&handle);
                Ok(Answer {
                    key: value.key(),
                    is_hit: !ran,
                    is_meeting: !ran && value.is_made_after(began),
                    total: if self.looks {
                        self.cache.total_charge()
                    } else {
                        0
                    },
                })
            }
            Err(error) => Err(Unmade::from(error)),
        }
    }
}

/// What is checked after all workers have ended. It has no associated type, since the checker
/// covers no thread that is sent a type parameter with one.
pub trait Finish {
    /// Checks the cache, and returns what was counted. Its total may be at most `allowed`.
    ///
    /// Returns the first check that failed.
    fn finish(&self, noted: Notes, allowed: u128) -> Result<Counts, Trouble>;
}

impl<C: Cached<CountedValue>> CheckedCache<C> {
    /// Creates a checked cache from an empty one, with a new book, to be asked as the plan says.
    ///
    /// Returns `Refused` if memory was refused.
    pub fn of(alloc: Global, plan: &Plan, cache: C) -> Result<CheckedCache<C>, Trouble> {
        let book = Arc::new(alloc, Book::new())?;
        Ok(CheckedCache {
            cache,
            book,
            yields: plan.yields,
            looks: plan.looks,
        })
    }
}

impl<C: Cached<CountedValue>> Finish for CheckedCache<C> {
    fn finish(&self, noted: Notes, allowed: u128) -> Result<Counts, Trouble> {
        let counts = Counts {
            makings: self.book.inits(),
            hits: noted.hits,
            evictions: self.book.dropped(),
            meetings: noted.meetings,
            greatest: noted.greatest,
        };
        if self.cache.total_charge() > allowed {
            return Err(Trouble::Failed(Check::Total));
        }
        self.cache.prune();
        if self.cache.total_charge() != 0 {
            return Err(Trouble::Failed(Check::Prune));
        }
        if self.book.dropped() != self.book.made() {
            return Err(Trouble::Failed(Check::Drops));
        }
        Ok(counts)
    }
}
