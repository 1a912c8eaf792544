//! Counts of what the calls on a cache have returned to C.
//!
//! They are plain numbers, kept with the cache behind its handle.
ghost use Rattle.std.specs.Prelude.{◌≡◌};
ghost use Rattle.lru_c.specs.Counted.{answered, inserted, no_calls, one_insertion, one_making};

use crate::code;
use crate::told::LruTold;

/// What the calls on a cache have returned since it was opened. A count that reaches `u64::MAX`
/// stays there.
#[derive(Clone, Copy)]
pub struct Counts {
    /// Calls of `begin` and `get` that found a value.
    pub hits: u64,
    /// Calls of `begin` and `get` that found none and did not wait.
    pub misses: u64,
    /// Calls of `begin` that found the value being made.
    pub waits: u64,
    /// Entries that a `fail` removed.
    pub removals: u64,
    /// The stamp that the first entry gets.
    pub first_stamp: u64,
    /// The stamp that the next new entry gets.
    pub next_stamp: u64,
}

impl Counts {
    // Returns the counts of a cache without calls whose first entry gets this stamp.
    pub(crate) fn from(first_stamp: u64) -> Counts
        ensures { result ≡ no_calls first_stamp }
    {
        Counts {
            hits: 0,
            misses: 0,
            waits: 0,
            removals: 0,
            first_stamp,
            next_stamp: first_stamp,
        }
    }

    // Counts the answer of `begin`, `get` or `fail`.
    #[inline(always)]
    pub(crate) fn answer(&mut self, told: LruTold)
        ensures { self.new ≡ answered told self.old }
    {
        if told.code == code::HIT {
            self.hits = self.hits.saturating_add(1);
        } else if told.code == code::MAKE {
            self.make(told.pin.stamp);
        } else if told.code == code::MISSED {
            self.misses = self.misses.saturating_add(1);
        } else if told.code == code::WAIT {
            self.waits = self.waits.saturating_add(1);
        } else if told.code == code::REMOVED {
            self.removals = self.removals.saturating_add(1);
        }
    }

    // Counts a miss, and a new entry unless the caller took over a making that failed.
    fn make(&mut self, stamp: u64)
        ensures { self.new ≡ one_making stamp self.old }
    {
        self.misses = self.misses.saturating_add(1);
        if stamp == self.next_stamp {
            self.insert();
        }
    }

    // Counts a new entry.
    fn insert(&mut self)
        ensures { self.new ≡ one_insertion self.old }
    {
        self.next_stamp = self.next_stamp.saturating_add(1);
    }

    // Counts the answer of `insert`.
    pub(crate) fn answer_insert(&mut self, told: LruTold)
        ensures { self.new ≡ inserted told self.old }
    {
        if told.code == code::DONE {
            self.insert();
        }
    }
}
