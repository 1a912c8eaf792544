//! Evictions under the lock, other than those of an insertion or a release.
ghost use Rattle.std.specs.Prelude.{◌≡◌};
ghost use Rattle.concurrent_lru.specs.CountedCalls.{counted, evicted};
ghost use Rattle.concurrent_lru.specs.Request as ask;
ghost use Rattle.concurrent_lru.specs.Results.{outcome_of_evictions};
ghost use Rattle.concurrent_lru.specs.Runs.{Stands};
ghost use Rattle.concurrent_lru.specs.Steps.{InvalidatesAt};

use crate::as_key::AsKey;
use crate::fit::Fit;
use crate::locked::Locked;
use crate::lru_core::{Evicted, Spot};
use crate::sealed::Sealed;
use std::hash::Hash;

impl<K: Hash + Eq + Clone + Drop, V: Drop, F: Fit<K, V>> Locked<K, V, F> {
    /// The core's `advice_evict`. Takes no memory.
    pub fn advice_evict<Q: AsKey<K>>(&mut self, key: Q) -> Sealed<Evicted<K, V>>
        ensures step { Stands K.eq self.old.cache (ask.advice_evict (Q.owned key))
            (outcome_of_evictions result) self.new.cache }
        ensures counted { self.new.counts ≡ counted self.old.cache (ask.advice_evict (Q.owned key))
            (outcome_of_evictions result) self.old.counts }
        ensures strict { self.new.strict ≡ self.old.strict }
    {
        let evicted = self.state.advice_evict(key);
        self.counts
            .evict(self.state.len() as u64, self.state.total());
        Sealed::of(evicted)
    }

    /// The core's `invalidate`. Takes no memory.
    pub fn invalidate<Q: AsKey<K>>(&mut self, key: Q) -> Sealed<Evicted<K, V>>
        ensures step { Stands K.eq self.old.cache (ask.invalidate (Q.owned key))
            (outcome_of_evictions result) self.new.cache }
        ensures counted { self.new.counts ≡ counted self.old.cache (ask.invalidate (Q.owned key))
            (outcome_of_evictions result) self.old.counts }
        ensures strict { self.new.strict ≡ self.old.strict }
    {
        let evicted = self.state.invalidate(key);
        self.counts
            .evict(self.state.len() as u64, self.state.total());
        Sealed::of(evicted)
    }

    /// The core's `invalidate_entry`. Takes no memory.
    pub fn invalidate_entry(&mut self, spot: &Spot) -> Sealed<Evicted<K, V>>
        ensures step { InvalidatesAt K.eq self.old.cache spot.now.stamp result self.new.cache }
        ensures counted { self.new.counts ≡ evicted result self.old.counts }
        ensures strict { self.new.strict ≡ self.old.strict }
    {
        let evicted = self.state.invalidate_entry(spot);
        self.counts
            .evict(self.state.len() as u64, self.state.total());
        Sealed::of(evicted)
    }

    /// The core's `prune`. Takes no memory.
    pub fn prune(&mut self) -> Sealed<Evicted<K, V>>
        ensures step { Stands K.eq self.old.cache ask.prune (outcome_of_evictions result)
            self.new.cache }
        ensures counted { self.new.counts ≡ counted self.old.cache ask.prune
            (outcome_of_evictions result) self.old.counts }
        ensures strict { self.new.strict ≡ self.old.strict }
    {
        let evicted = self.state.prune();
        self.counts
            .evict(self.state.len() as u64, self.state.total());
        Sealed::of(evicted)
    }

    /// The core's `set_capacity`. Takes no memory.
    pub fn set_capacity(&mut self, capacity: u64) -> Sealed<Evicted<K, V>>
        ensures step { Stands K.eq self.old.cache (ask.set_capacity capacity)
            (outcome_of_evictions result) self.new.cache }
        ensures counted { self.new.counts ≡ counted self.old.cache (ask.set_capacity capacity)
            (outcome_of_evictions result) self.old.counts }
        ensures strict { self.new.strict ≡ self.old.strict }
    {
        let evicted = self.state.set_capacity(capacity);
        self.counts
            .evict(self.state.len() as u64, self.state.total());
        Sealed::of(evicted)
    }
}
