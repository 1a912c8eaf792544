//! Makings that become ready with a charge that their loader told.
ghost use Rattle.std.specs.Prelude.{◌≡◌, ◌≢◌, ◌<◌, Ok, Err, Some, IsTrue, IsFalse, IfOk, IfErr};
ghost use Rattle.std.specs.Arc.{arc_value};
ghost use Rattle.concurrent_lru.specs.Cache.{Held, making, HasNoOtherPin, HasCapacityToCharge, LacksCapacityToCharge};
ghost use Rattle.concurrent_lru.specs.CountedCalls.{counted};
ghost use Rattle.concurrent_lru.specs.Debts.{outcome_of_locked_ready_with, ready_with_under};
ghost use Rattle.concurrent_lru.specs.Ready.{HasEqualKeyAt};
ghost use Rattle.concurrent_lru.specs.Results.{outcome_of_ready_with};
ghost use Rattle.concurrent_lru.specs.Runs.{IsMadeAt, Stands};
ghost use Rattle.concurrent_lru.specs.Steps.{Holds};

use crate::fit::Fit;
use crate::locked::counting::count_refusal;
use crate::locked::{HeldPin, Locked, Making, Waiters};
use crate::lru_core::{Evicted, Refusal, Spot};
use crate::sealed::Sealed;
use std::hash::Hash;
use std::sync::Arc;

impl<K: Hash + Eq + Clone + Drop, V: Drop, F: Fit<K, V>> Locked<K, V, F> {
    /// The core's `ready_with`, or its `ready_with_strictly` if the limit is strict, if the
    /// making's entry has the key: the entry gets `stored` and the charge, and the pin holds
    /// `read`, another `Arc` of the same value. What the charge evicted is sealed. Takes no memory.
    ///
    /// Callers are to be woken unless the entry has no other pin. If no entry with this stamp and
    /// key is being made, `stored` is sealed in place of what was evicted.
    ///
    /// Returns `Overflow` and `Full` as there: then no entry changes, both `Arc`s are sealed, and
    /// the making comes back.
    pub fn ready_with(
        &mut self,
        making: Making<K>,
        key: &K,
        stored: Arc<V>,
        read: Arc<V>,
        charge: u64,
    ) -> Result<
        (
            HeldPin<K, V, F>,
            Sealed<Result<Evicted<K, V>, Arc<V>>>,
            Waiters,
        ),
        (Refusal, Sealed<(Arc<V>, Arc<V>)>, Making<K>),
    >
        requires charged { 0 < charge }
        requires asked { making.key ≡ key.now }
        requires fits { F.fits key.now (arc_value stored) }
        requires same { arc_value read ≡ arc_value stored }
        ensures step { HasEqualKeyAt K.eq self.old.cache making.stamp key.now
            → Stands K.eq self.old.cache
            (ready_with_under self.old.strict making.stamp (arc_value stored) charge)
            (outcome_of_locked_ready_with result) self.new.cache }
        ensures no_entry { (HasEqualKeyAt K.eq self.old.cache making.stamp key.now → ⊥)
            → IfOk result (λ r. r.1 ≡ Err stored) × (self.new ≡ self.old) }
        ensures counted { self.new.counts ≡ counted self.old.cache
            (ready_with_under self.old.strict making.stamp (arc_value stored) charge)
            (outcome_of_locked_ready_with result) self.old.counts }
        ensures pin { IfOk result (λ r. r.0 ≡ record {
          stamp = making.stamp;
          key = key.now;
          charge = Some charge;
          value = arc_value stored;
        }) }
        ensures quiet { IfOk result (λ r. IsFalse r.2
            → HasNoOtherPin self.old.cache making.stamp) }
        ensures making { IfErr result (λ e. e.2 ≡ making) }
        ensures never_stale { IfErr result (λ e. e.0 ≢ Refusal.Stale) }
        ensures strict { self.new.strict ≡ self.old.strict }
    {
        let (charged, shared) = self.ready_with_core(&making.spot, key, stored, charge);
        match charged {
            Ok(evicted) => {
                let pin = making.into_pin(key, charge, read);
                Ok((pin, Sealed::of(Ok(evicted)), Waiters { some: shared }))
            }
            Err((refusal, stored)) => match refusal {
                Refusal::Stale => {
                    let pin = making.into_pin(key, charge, read);
                    Ok((pin, Sealed::of(Err(stored)), Waiters { some: shared }))
                }
                Refusal::Memory => Err((Refusal::Memory, Sealed::of((stored, read)), making)),
                Refusal::Overflow => Err((Refusal::Overflow, Sealed::of((stored, read)), making)),
                Refusal::Full => Err((Refusal::Full, Sealed::of((stored, read)), making)),
            },
        }
    }

    // The core's `ready_with`, or its `ready_with_strictly` if the limit is strict, counted, if the
    // spot's entry has the key. Returns the core's result, and whether the entry has a pin besides
    // the maker's.
    fn ready_with_core(
        &mut self,
        spot: &Spot,
        key: &K,
        stored: Arc<V>,
        charge: u64,
    ) -> (Result<Evicted<K, V>, (Refusal, Arc<V>)>, bool)
        requires charged { 0 < charge }
        requires fits { F.fits key.now (arc_value stored) }
        ensures step { HasEqualKeyAt K.eq self.old.cache spot.now.stamp key.now
            → Stands K.eq self.old.cache
            (ready_with_under self.old.strict spot.now.stamp (arc_value stored) charge)
            (outcome_of_ready_with result.0) self.new.cache }
        ensures no_entry { (HasEqualKeyAt K.eq self.old.cache spot.now.stamp key.now → ⊥)
            → (result.0 ≡ Err (Refusal.Stale, stored)) × (self.new ≡ self.old) }
        ensures counted { self.new.counts ≡ counted self.old.cache
            (ready_with_under self.old.strict spot.now.stamp (arc_value stored) charge)
            (outcome_of_ready_with result.0) self.old.counts }
        ensures back { IfErr result.0 (λ e. e.1 ≡ stored) }
        ensures quiet { IsFalse result.1 → HasNoOtherPin self.old.cache spot.now.stamp }
        ensures strict { self.new.strict ≡ self.old.strict }
    {
        let (is_own, shared) = self.state.has_key(spot, key);
        if !is_own {
            return (Err((Refusal::Stale, stored)), shared);
        }
        if self.is_full_with(spot, charge) {
            self.counts.refuse();
            return (Err((Refusal::Full, stored)), shared);
        }
        let was = self.state.charge_at(spot);
        match self.state.ready_with_at(spot, stored, charge) {
            Ok(evicted) => {
                self.counts.recharge(was, charge);
                self.counts
                    .evict(self.state.len() as u64, self.state.total());
                (Ok(evicted), shared)
            }
            Err((refusal, stored)) => {
                count_refusal(&mut self.counts, &refusal);
                (Err((refusal, stored)), shared)
            }
        }
    }

    // Returns whether the limit is strict and leaves no room for another charge of the spot's
    // entry, which is being made.
    fn is_full_with(&self, spot: &Spot, charge: u64) -> bool
        ensures strict { IsTrue result → IsTrue self.now.strict }
        ensures yes { IsTrue result → IsMadeAt K.eq self.now.cache spot.now.stamp
            (λ was. LacksCapacityToCharge self.now.cache was charge) }
        ensures no { IsFalse result → IsTrue self.now.strict → (e : Held K V)
            → Holds self.now.cache spot.now.stamp e making
            → HasCapacityToCharge self.now.cache e.charge charge }
    {
        self.strict && self.state.is_full_with(spot, charge)
    }
}
