//! Calls that change nothing.
ghost use Rattle.std.specs.Prelude.{◌≡◌, ◌↔◌, IsTrue, IsFalse, MatchOption};
ghost use Rattle.concurrent_lru.specs.Cache.{count_of, pinned_of, IsLawful, HasKeyAt, LacksStamp, IsWithinLimits};
ghost use Rattle.concurrent_lru.specs.Makings.{IsBeingMade};
ghost use Rattle.concurrent_lru.specs.Ready.{HasReadyKey};
ghost use Rattle.concurrent_lru.specs.Request as ask;
ghost use Rattle.concurrent_lru.specs.Results.{outcome_of_total};
ghost use Rattle.concurrent_lru.specs.Runs.{Stands};
ghost use Rattle.concurrent_lru.specs.Steps.{IsUnready};

use crate::as_key::AsKey;
use crate::lru_core::State;
use crate::node_table::Phase;
use crate::share::Sharing;
use crate::table::Spot;
use std::hash::Hash;

impl<K: Hash + Eq + Clone, V: Drop, M: Sharing<V>> State<K, V, M>
where
    M::Share: Drop,
{
    /// Returns the sum of the charges of all entries, including those still being made and those
    /// held after an `invalidate`.
    pub fn total(&self) -> u64
        ensures step { Stands K.eq self.now.cache ask.total (outcome_of_total result)
            self.now.cache }
        ensures lawful { IsLawful K.eq self.now.cache }
    {
        // The table keeps it up to date, so no entry is visited.
        self.table.total()
    }

    /// Returns the sum of the charges of the held entries, including those still being made and
    /// those held after an `invalidate`.
    pub fn pinned_charge(&self) -> u64
        ensures { result ≡ pinned_of self.now.cache }
    {
        self.table.pinned_charge()
    }

    /// Returns the number of entries, idle or held, including those still being made and those held
    /// after an `invalidate`.
    pub fn len(&self) -> usize
        ensures { result ≡ count_of self.now.cache }
    {
        self.table.len()
    }

    /// Returns whether there are no entries.
    pub fn is_empty(&self) -> bool
        ensures { IsTrue result ↔ (count_of self.now.cache ≡ 0) }
    {
        self.len() == 0
    }

    /// Returns whether the key has a ready value, idle or held. An entry that is still being made
    /// does not count. Pins nothing, and leaves the order of eviction as it is.
    pub fn contains<Q: AsKey<K>>(&self, key: Q) -> bool
        ensures yes { IsTrue result → HasReadyKey K.eq self.now.cache (Q.owned key) }
        ensures no { IsFalse result → IsUnready K.eq self.now.cache (Q.owned key) }
    {
        let Ok(found) = self.table.find_key(key) else {
            return false;
        };
        let Phase::Ready(_) = &found.node.phase else {
            return false;
        };
        true
    }

    // Returns whether a caller is making the key's value.
    pub(crate) fn is_being_made(&self, key: &K) -> bool
        ensures yes { IsTrue result → IsBeingMade K.eq self.now.cache key.now }
        ensures no { IsFalse result → IsBeingMade K.eq self.now.cache key.now → ⊥ }
    {
        let Ok(found) = self.table.find_key(key) else {
            return false;
        };
        let Phase::Making = &found.node.phase else {
            return false;
        };
        true
    }

    /// Returns the capacity.
    pub fn capacity(&self) -> u64
        ensures capacity { result ≡ self.now.cache.capacity }

        // Stamps, pins and sums stay within their types.
        ensures limits { IsWithinLimits self.now.cache }
    {
        // The bounds of the two fields' types, for the clause on limits. It has no run-time cost.
        prove!(self.next <= u64::MAX);
        prove!(self.most_pins <= u32::MAX);
        self.capacity
    }

    /// Returns the key of the entry with this stamp, held or idle, even after an `invalidate`.
    pub fn key_of(&self, stamp: u64) -> Option<&K>
        ensures { MatchOption result (LacksStamp self.now.cache stamp)
            (λ key. HasKeyAt self.now.cache stamp key.now) }
    {
        let hint = self.last;
        self.key_at(&Spot { stamp, hint })
    }
}
