//! Insertions under the lock.
ghost use Rattle.std.specs.Prelude.{◌≡◌, ◌≢◌, ◌<◌, Err, Some, IsTrue, IsFalse, IfOk, IfErr, OnOk, OnErr};
ghost use Rattle.std.specs.Arc.{arc_value};
ghost use Rattle.concurrent_lru.specs.Cache.{HasCapacityFor};
ghost use Rattle.concurrent_lru.specs.CountedCalls.{replaced};
ghost use Rattle.concurrent_lru.specs.Counts.{one_refusal};
ghost use Rattle.concurrent_lru.specs.Inserts.{Replaces, RefusesToReplace, RefusesToReplaceStrictly};

use crate::fit::Fit;
use crate::locked::{HeldPin, Locked};
use crate::lru_core::{Evicted, Inserted, Refusal, Spot};
use crate::sealed::Sealed;
use std::hash::Hash;
use std::sync::Arc;

impl<K: Hash + Eq + Clone + Drop, V: Drop, F: Fit<K, V>> Locked<K, V, F> {
    /// The core's `insert`, or its `insert_strictly` if the limit is strict: the new entry of the
    /// key gets `stored`, and the pin holds `read`, another `Arc` of the same value. What it
    /// replaced, and what its charge evicted, are sealed.
    ///
    /// Returns `Full`, `Overflow` and `Memory` as there: then no entry changes, and both `Arc`s are
    /// sealed.
    pub fn insert(
        &mut self,
        key: &K,
        charge: u64,
        stored: Arc<V>,
        read: Arc<V>,
    ) -> Result<
        (HeldPin<K, V, F>, Sealed<(Evicted<K, V>, Evicted<K, V>)>),
        (Refusal, Sealed<(Arc<V>, Arc<V>)>),
    >
        requires charged { 0 < charge }
        requires fits { F.fits key.now (arc_value stored) }
        requires same { arc_value read ≡ arc_value stored }
        ensures step { IfOk result (λ r. Replaces K.eq self.old.cache key.now charge
            (arc_value stored) r.0.stamp r.1.0 r.1.1 self.new.cache) }
        ensures room { IsTrue self.old.strict → OnOk result (HasCapacityFor self.old.cache charge) }
        ensures refused { IsFalse self.old.strict → IfErr result (λ e. RefusesToReplace K.eq
            self.old.cache key.now charge e.0 self.new.cache) }
        ensures refused_strictly { IsTrue self.old.strict → IfErr result
            (λ e. RefusesToReplaceStrictly K.eq self.old.cache key.now charge e.0 self.new.cache) }
        ensures inserted { IfOk result (λ r. self.new.counts
            ≡ replaced r.1.0 r.1.1 charge self.old.counts) }
        ensures counts { OnErr result (self.new.counts ≡ one_refusal self.old.counts) }
        ensures pin { IfOk result (λ r. (r.0.key ≡ key.now) × (r.0.charge ≡ Some charge)
            × (r.0.value ≡ arc_value stored)) }
        ensures never_stale { IfErr result (λ e. e.0 ≢ Refusal.Stale) }
        ensures strict { self.new.strict ≡ self.old.strict }
    {
        if self.strict && self.state.lacks_capacity_for(charge) {
            self.counts.refuse();
            return Err((Refusal::Full, Sealed::of((stored, read))));
        }
        let (inserted, hint) = match self.state.insert_at(key, charge, stored) {
            Ok(inserted) => inserted,
            Err((refusal, stored)) => {
                self.counts.refuse();
                return Err((refusal, Sealed::of((stored, read))));
            }
        };
        self.counts.insert(charge);
        self.counts
            .evict(self.state.len() as u64, self.state.total());
        let Inserted {
            stamp,
            replaced,
            evicted,
        } = inserted;
        let pin = HeldPin::of(Spot { stamp, hint }, key, Some(charge), read);
        Ok((pin, Sealed::of((replaced, evicted))))
    }
}
