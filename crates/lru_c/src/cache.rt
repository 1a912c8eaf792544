//! A cache with its counts, for any type of key.
ghost use Rattle.std.specs.Prelude.{◌≡◌, ◌<◌, []};
ghost use Rattle.concurrent_lru.specs.Cache.{CopiesAreEqual, empty_cache};
ghost use Rattle.concurrent_lru.specs.Request as ask;
ghost use Rattle.lru_c.specs.Counted.{no_calls};

use crate::counts::Counts;
use crate::steps;
use crate::told::{LruPin, LruStats, LruTold};
use crate::values::State;
use std::alloc::Global;
use std::hash::Hash;

/// A cache with its counts and a key buffer, `R`, which depends on how C passes a key.
#[derive(Drop)]
pub struct Cache<K: Hash + Eq + Clone, R> {
    /// The cache.
    pub state: State<K>,
    /// The counts of what its calls have returned.
    pub counts: Counts,
    /// A buffer for the key of the current call, unless C passes whole keys.
    pub room: R,
}

impl<K: Hash + Eq + Clone, R> Cache<K, R> {
    ghost use Rattle.lru_c.specs.Counted.{answered, stats_of};
    ghost use Rattle.lru_c.specs.Told.{bare, Asks};

    // Returns a new, empty cache whose first entry gets the stamp `first_stamp`.
    pub(crate) fn new(
        alloc: Global,
        capacity: u64,
        first_stamp: u64,
        most_pins: u32,
        seed: u64,
        room: R,
    ) -> Cache<K, R>
        requires pinned { 0 < most_pins }
        requires copies { CopiesAreEqual K.is_clone K.eq }
        ensures cache { result.state.cache ≡ empty_cache capacity most_pins first_stamp }
        ensures counts { result.counts ≡ no_calls first_stamp }
    {
        Cache {
            state: State::without_stamp_map(alloc, capacity, first_stamp, most_pins, seed),
            counts: Counts::from(first_stamp),
            room,
        }
    }

    pub(crate) fn fail(&mut self, pin: LruPin) -> u32
        ensures asks { Asks K.eq self.old.state.cache (ask.fail pin.stamp) (bare result) []
            self.new.state.cache }
        ensures counts { self.new.counts ≡ answered (bare result) self.old.counts }
    {
        let code = steps::fail(&mut self.state, pin);
        self.counts.answer(LruTold::bare(code));
        code
    }

    pub(crate) fn stats(&self) -> LruStats
        ensures { result ≡ stats_of self.now.state.cache self.now.counts }
    {
        let counts = self.counts;
        let entries = self.state.len() as u64;
        let insertions = counts.next_stamp.saturating_sub(counts.first_stamp);
        LruStats {
            hits: counts.hits,
            misses: counts.misses,
            waits: counts.waits,
            insertions,
            evictions: insertions
                .saturating_sub(counts.removals)
                .saturating_sub(entries),
            removals: counts.removals,
            entries,
            charge: self.state.total(),
            pinned_charge: self.state.pinned_charge(),
            capacity: self.state.capacity(),
        }
    }
}
