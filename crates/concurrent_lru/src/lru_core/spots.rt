//! The calls for a caller that keeps a spot of each entry that it pins: those that pin an entry
//! return a hint of it, and those by stamp take a spot. They hash no stamp, so they suit a cache
//! without a map by stamp.
ghost use Rattle.std.specs.Prelude.{◌≡◌, ◌+◌, ◌<◌, ◌≤◌, ◌⊎◌, Some, None, OnOk, OnErr, IfErr, IfOk, IsTrue, IsFalse, MatchOption, length};
ghost use Rattle.concurrent_lru.specs.Cache.{Held, making, held_at, IsLawful, HasKeyAt, LacksStamp, HasNoOtherPin, HasCapacityFor, LacksCapacityFor, HasCapacityToCharge, LacksCapacityToCharge, IsWithinCapacity};
ghost use Rattle.concurrent_lru.specs.Counted.{WritesAtMostOneMore};
ghost use Rattle.concurrent_lru.specs.Inserts.{Inserts, InsertsStrictly, Remakes};
ghost use Rattle.concurrent_lru.specs.KeyHashes.{IsHashOf};
ghost use Rattle.concurrent_lru.specs.Ready.{HasEqualKeyAt};
ghost use Rattle.concurrent_lru.specs.Request as ask;
ghost use Rattle.concurrent_lru.specs.Results.{outcome_of_begin_by, outcome_of_poll_by, outcome_of_ready_by, outcome_of_ready_with, outcome_of_fail, outcome_of_get_by, outcome_of_release, outcome_of_repin_by, outcome_of_insert_by, begun_without_hint, found_without_hint, inserted_without_hint};
ghost use Rattle.concurrent_lru.specs.Runs.{IsMadeAt, Stands};
ghost use Rattle.concurrent_lru.specs.Steps.{Holds, IsAbsent};

use crate::as_key::AsKey;
use crate::lru_core::{Evicted, Failed, Inserted, Refusal, State};
use crate::node_table::{Found, Node, Phase};
use crate::share::{Sharing, Stored};
use crate::step::Begun;
use crate::table::{Hint, KeyHash, Spot};
use std::hash::Hash;

impl<K: Hash + Eq + Clone, V: Drop, M: Sharing<V>> State<K, V, M>
where
    M::Share: Drop,
{
    /// Does what `begin` does, with the same refusals, and also returns a hint of the entry.
    #[inline(always)]
    pub fn begin_at(
        &mut self,
        key: &K,
        charge: u64,
    ) -> Result<(Begun<M::Share>, Evicted<K, V, M>, Hint), Refusal>
        requires { 0 < charge }
        ensures step { Stands K.eq self.old.cache (ask.begin key.now charge)
            (outcome_of_begin_by M.seen (begun_without_hint result)) self.new.cache }
        ensures work { WritesAtMostOneMore self.old
            (outcome_of_begin_by M.seen (begun_without_hint result)) self.new }
        ensures lawful { IsLawful K.eq self.new.cache }
    {
        // A proved program does not run this. One that `rt try` runs stops here at a charge of 0.
        prove!(charge > 0);
        let found = match self.table.find_key(key) {
            Ok(found) => found,
            Err(hash) => return self.make(hash, key, charge),
        };
        let Found { place, link, node } = found;
        let (stamp, pins, hash) = (node.stamp, node.pins, node.hash);
        if pins == self.most_pins {
            return Err(Refusal::Overflow);
        }
        let hint = Hint { hash, place };
        match &node.phase {
            Phase::Making => {
                self.table.set_pins(place, link, pins + 1);
                Ok((Begun::Wait(stamp), Evicted::none(), hint))
            }
            Phase::Untaken => {
                self.table.set_pins(place, link, pins + 1);
                self.table.set_phase(place, link, Phase::Making);
                Ok((Begun::Make(stamp), Evicted::none(), hint))
            }
            Phase::Ready(value) => {
                let share = value.share()?;
                self.table.pin(place, link, pins);
                Ok((Begun::Hit(stamp, share), Evicted::none(), hint))
            }
        }
    }

    /// Does what `begin_strictly` does, with the same refusals, and also returns a hint of the
    /// entry.
    #[inline(always)]
    pub fn begin_strictly_at(
        &mut self,
        key: &K,
        charge: u64,
    ) -> Result<(Begun<M::Share>, Evicted<K, V, M>, Hint), Refusal>
        requires { 0 < charge }
        ensures step { Stands K.eq self.old.cache (ask.begin_strictly key.now charge)
            (outcome_of_begin_by M.seen (begun_without_hint result)) self.new.cache }
        ensures limit { IsWithinCapacity self.old.cache → IsWithinCapacity self.new.cache }
        ensures work { WritesAtMostOneMore self.old
            (outcome_of_begin_by M.seen (begun_without_hint result)) self.new }
        ensures lawful { IsLawful K.eq self.new.cache }
    {
        if self.is_full_for(key, charge) {
            return Err(Refusal::Full);
        }
        self.begin_at(key, charge)
    }

    // Returns whether `begin_strictly` is refused as `Full`: the capacity has no room for the
    // charge, and the key finds no entry.
    #[inline(always)]
    pub(crate) fn is_full_for(&self, key: &K, charge: u64) -> bool
        ensures yes { IsTrue result → LacksCapacityFor self.now.cache charge
            × IsAbsent K.eq self.now.cache key.now }
        ensures no { IsFalse result → HasCapacityFor self.now.cache charge
            ⊎ (IsAbsent K.eq self.now.cache key.now → ⊥) }
        ensures lawful { IsLawful K.eq self.now.cache }
    {
        self.lacks_capacity_for(charge) && self.lacks_entry(key)
    }

    // Returns whether a charge exceeds the capacity together with the charges of the held entries.
    // The idle entries do not count, since they would leave.
    #[inline(always)]
    pub(crate) fn lacks_capacity_for(&self, charge: u64) -> bool
        ensures yes { IsTrue result → LacksCapacityFor self.now.cache charge }
        ensures no { IsFalse result → HasCapacityFor self.now.cache charge }
        ensures lawful { IsLawful K.eq self.now.cache }
    {
        let pinned = self.table.pinned_charge();
        pinned > self.capacity || charge > self.capacity - pinned
    }

    // Returns whether the key finds no entry, in any phase. Begins ask it only where there is no
    // room, so it is left as a call.
    #[inline(never)]
    fn lacks_entry(&self, key: &K) -> bool
        ensures yes { IsTrue result → IsAbsent K.eq self.now.cache key.now }
        ensures no { IsFalse result → IsAbsent K.eq self.now.cache key.now → ⊥ }
    {
        match self.table.find_key(key) {
            Ok(_) => false,
            Err(_) => true,
        }
    }

    // Begins on a key that has no entry. Everything that can be refused precedes the first change.
    #[inline(always)]
    fn make(
        &mut self,
        hash: KeyHash,
        key: &K,
        charge: u64,
    ) -> Result<(Begun<M::Share>, Evicted<K, V, M>, Hint), Refusal>
        requires charged { 0 < charge }
        requires hash { IsHashOf K.hash_input hash key.now }
        requires absent { IsAbsent K.eq self.old.cache key.now }
        ensures step { Stands K.eq self.old.cache (ask.begin key.now charge)
            (outcome_of_begin_by M.seen (begun_without_hint result)) self.new.cache }
        ensures work { WritesAtMostOneMore self.old
            (outcome_of_begin_by M.seen (begun_without_hint result)) self.new }
        ensures same { OnErr result (self.new ≡ self.old) }
        ensures lawful { IsLawful K.eq self.new.cache }
    {
        if charge > u64::MAX - self.table.total() || self.next == u64::MAX {
            return Err(Refusal::Overflow);
        }
        let stamp = self.next;
        let place = self.table.add(self.alloc, stamp, hash, key, charge)?;
        self.next += 1;
        let evicted = self.table.settle(self.capacity);
        let hint = Hint {
            hash: hash.number,
            place,
        };
        Ok((Begun::Make(stamp), evicted, hint))
    }

    /// Does what `poll` does, by spot.
    pub fn poll_at(&mut self, spot: &Spot) -> Result<Begun<M::Share>, Refusal>
        ensures step { Stands K.eq self.old.cache (ask.poll spot.now.stamp)
            (outcome_of_poll_by M.seen result) self.new.cache }
        ensures work { self.new.work ≡ self.old.work }
        ensures lawful { IsLawful K.eq self.new.cache }
    {
        let Some(found) = self.table.find_stamp(spot) else {
            return Err(Refusal::Stale);
        };
        let Found { place, link, node } = found;
        if node.pins == 0 {
            return Err(Refusal::Stale);
        }
        match &node.phase {
            Phase::Making => Ok(Begun::Wait(spot.stamp)),
            Phase::Untaken => {
                self.table.set_phase(place, link, Phase::Making);
                Ok(Begun::Make(spot.stamp))
            }
            Phase::Ready(value) => Ok(Begun::Hit(spot.stamp, value.share()?)),
        }
    }

    /// Does what `ready` does, by spot.
    pub fn ready_at(&mut self, spot: &Spot, value: M::Share) -> Result<(), M::Share>
        ensures step { Stands K.eq self.old.cache (ask.ready spot.now.stamp (M.seen value))
            (outcome_of_ready_by M.seen result) self.new.cache }
        ensures work { self.new.work ≡ self.old.work }
        ensures back { IfErr result (λ a. M.seen a ≡ M.seen value) }
        ensures lawful { IsLawful K.eq self.new.cache }
    {
        let Some(found) = self.table.find_stamp(spot) else {
            return Err(value);
        };
        let Found { place, link, node } = found;
        let Phase::Making = &node.phase else {
            return Err(value);
        };
        self.table
            .set_phase(place, link, Phase::Ready(Stored::new(value)));
        Ok(())
    }

    // `ready`, if the spot's entry has this key. Also returns whether the entry has a pin besides
    // the maker's, since both need the same lookup.
    #[inline(always)]
    pub(crate) fn ready_keyed(
        &mut self,
        spot: &Spot,
        key: &K,
        value: M::Share,
    ) -> (Result<(), M::Share>, bool)
        ensures step { HasEqualKeyAt K.eq self.old.cache spot.now.stamp key.now
            → Stands K.eq self.old.cache (ask.ready spot.now.stamp (M.seen value))
            (outcome_of_ready_by M.seen result.0) self.new.cache }
        ensures keyed { OnOk result.0 (HasEqualKeyAt K.eq self.old.cache spot.now.stamp key.now) }
        ensures same { OnErr result.0 (self.new.cache ≡ self.old.cache) }
        ensures back { IfErr result.0 (λ a. a ≡ value) }
        ensures quiet { IsFalse result.1 → HasNoOtherPin self.old.cache spot.now.stamp }
        ensures lawful { IsLawful K.eq self.new.cache }
    {
        let Some(found) = self.table.find_stamp(spot) else {
            return (Err(value), false);
        };
        let Found { place, link, node } = found;
        let shared = node.pins > 1;
        if node.key != *key {
            return (Err(value), shared);
        }
        let Phase::Making = &node.phase else {
            return (Err(value), shared);
        };
        let stored = Stored::new(value);
        self.table.set_phase(place, link, Phase::Ready(stored));
        (Ok(()), shared)
    }

    /// Does what `ready_with` does, by spot.
    pub fn ready_with_at(
        &mut self,
        spot: &Spot,
        value: M::Share,
        charge: u64,
    ) -> Result<Evicted<K, V, M>, (Refusal, M::Share)>
        requires { 0 < charge }
        ensures step { Stands K.eq self.old.cache
            (ask.ready_with spot.now.stamp (M.seen value) charge)
            (outcome_of_ready_with result) self.new.cache }
        ensures work { IfOk result (λ evicted. self.new.work ≡ self.old.work + length evicted) }
        ensures same { OnErr result (self.new ≡ self.old) }
        ensures back { IfErr result (λ e. e.1 ≡ value) }
        ensures lawful { IsLawful K.eq self.new.cache }
    {
        // A proved program does not run this. One that `rt try` runs stops here at a charge of 0.
        prove!(charge > 0);
        let Some(found) = self.table.find_stamp(spot) else {
            return Err((Refusal::Stale, value));
        };
        let Found { place, link, node } = found;
        let Phase::Making = &node.phase else {
            return Err((Refusal::Stale, value));
        };
        // The charge with which the making was begun no longer counts.
        let rest = self.table.total() - node.charge;
        if charge > u64::MAX - rest {
            return Err((Refusal::Overflow, value));
        }
        self.table.set_charge(place, link, charge);
        self.table
            .set_phase(place, link, Phase::Ready(Stored::new(value)));
        Ok(self.table.settle(self.capacity))
    }

    /// Does what `ready_with_strictly` does, by spot.
    pub fn ready_with_strictly_at(
        &mut self,
        spot: &Spot,
        value: M::Share,
        charge: u64,
    ) -> Result<Evicted<K, V, M>, (Refusal, M::Share)>
        requires { 0 < charge }
        ensures step { Stands K.eq self.old.cache
            (ask.ready_with_strictly spot.now.stamp (M.seen value) charge)
            (outcome_of_ready_with result) self.new.cache }
        ensures limit { IsWithinCapacity self.old.cache → IsWithinCapacity self.new.cache }
        ensures work { IfOk result (λ evicted. self.new.work ≡ self.old.work + length evicted) }
        ensures same { OnErr result (self.new ≡ self.old) }
        ensures back { IfErr result (λ e. e.1 ≡ value) }
        ensures lawful { IsLawful K.eq self.new.cache }
    {
        if self.is_full_with(spot, charge) {
            return Err((Refusal::Full, value));
        }
        self.ready_with_at(spot, value, charge)
    }

    // Returns whether `ready_with_strictly` is refused as `Full`: the spot's entry is being made,
    // and its new charge exceeds the capacity together with the charges of the other held entries.
    pub(crate) fn is_full_with(&self, spot: &Spot, charge: u64) -> bool
        ensures yes { IsTrue result → IsMadeAt K.eq self.now.cache spot.now.stamp
            (λ was. LacksCapacityToCharge self.now.cache was charge) }
        ensures no { IsFalse result → (e : Held K V) → Holds self.now.cache spot.now.stamp e making
            → HasCapacityToCharge self.now.cache e.charge charge }
        ensures lawful { IsLawful K.eq self.now.cache }
    {
        let Some(found) = self.table.find_stamp(spot) else {
            return false;
        };
        let Phase::Making = &found.node.phase else {
            return false;
        };
        let others = self.table.pinned_charge() - found.node.charge;
        others > self.capacity || charge > self.capacity - others
    }

    /// Does what `fail` does, by spot.
    pub fn fail_at(&mut self, spot: &Spot) -> Result<Failed<K>, Refusal>
        ensures step { Stands K.eq self.old.cache (ask.fail spot.now.stamp) (outcome_of_fail result)
            self.new.cache }
        ensures work { self.new.work ≡ self.old.work }
        ensures lawful { IsLawful K.eq self.new.cache }
    {
        let Some(found) = self.table.find_stamp(spot) else {
            return Err(Refusal::Stale);
        };
        let Found { place, link, node } = found;
        let pins = node.pins;
        let Phase::Making = &node.phase else {
            return Err(Refusal::Stale);
        };
        if pins > 1 {
            self.table.set_pins(place, link, pins - 1);
            self.table.set_phase(place, link, Phase::Untaken);
            return Ok(Failed::Left);
        }
        let node = self.table.take_held(place);
        let Node {
            stamp: _,
            key,
            charge: _,
            pins: _,
            detached: _,
            phase: _,
            next: _,
            ..
        } = Box::into_inner(node);
        Ok(Failed::Removed(key))
    }

    /// Does what `get` does, with the same refusals, and also returns a hint of the entry.
    #[inline(always)]
    pub fn get_at<Q: AsKey<K>>(&mut self, key: Q) -> Result<Option<(u64, M::Share, Hint)>, Refusal>
        ensures step { Stands K.eq self.old.cache (ask.get (Q.owned key))
            (outcome_of_get_by M.seen (found_without_hint result)) self.new.cache }
        ensures work { WritesAtMostOneMore self.old
            (outcome_of_get_by M.seen (found_without_hint result)) self.new }
        ensures lawful { IsLawful K.eq self.new.cache }
    {
        let Ok(found) = self.table.find_key(key) else {
            return Ok(None);
        };
        let Found { place, link, node } = found;
        let (stamp, pins, hash) = (node.stamp, node.pins, node.hash);
        let Phase::Ready(value) = &node.phase else {
            return Ok(None);
        };
        if pins == self.most_pins {
            return Err(Refusal::Overflow);
        }
        // The node is found before the copy, since a processor starts no later read until an atomic
        // instruction has completed.
        let share = value.share()?;
        self.table.pin(place, link, pins);
        Ok(Some((stamp, share, Hint { hash, place })))
    }

    /// Does what `release` does, by spot.
    #[inline(always)]
    pub fn release_at(&mut self, spot: &Spot) -> Result<Evicted<K, V, M>, Refusal>
        ensures step { Stands K.eq self.old.cache (ask.release spot.now.stamp)
            (outcome_of_release result) self.new.cache }
        ensures work { WritesAtMostOneMore self.old (outcome_of_release result) self.new }
        ensures lawful { IsLawful K.eq self.new.cache }
    {
        let Some(found) = self.table.find_stamp(spot) else {
            return Err(Refusal::Stale);
        };
        let Found { place, link, node } = found;
        let (pins, detached) = (node.pins, node.detached);
        let Phase::Ready(_) = &node.phase else {
            return Err(Refusal::Stale);
        };
        if pins == 0 {
            return Err(Refusal::Stale);
        }
        if pins > 1 {
            self.table.set_pins(place, link, pins - 1);
            return Ok(Evicted::none());
        }
        if detached {
            return Ok(Evicted::one(self.table.take_held(place)));
        }
        self.table.make_idle(place, link);
        Ok(self.table.settle(self.capacity))
    }

    /// Does what `release_and_evict` does, by spot.
    pub fn release_and_evict_at(&mut self, spot: &Spot) -> Result<Evicted<K, V, M>, Refusal>
        ensures step { Stands K.eq self.old.cache (ask.release_and_evict spot.now.stamp)
            (outcome_of_release result) self.new.cache }
        ensures work { self.new.work ≡ self.old.work }
        ensures lawful { IsLawful K.eq self.new.cache }
    {
        let Some(found) = self.table.find_stamp(spot) else {
            return Err(Refusal::Stale);
        };
        let Found { place, link, node } = found;
        let pins = node.pins;
        let Phase::Ready(_) = &node.phase else {
            return Err(Refusal::Stale);
        };
        if pins == 0 {
            return Err(Refusal::Stale);
        }
        if pins > 1 {
            self.table.set_pins(place, link, pins - 1);
            return Ok(Evicted::none());
        }
        // The total only falls, so nothing else has to leave.
        let last = Evicted::one(self.table.take_held(place));
        Ok(last)
    }

    /// Does what `repin` does, by spot.
    pub fn repin_at(&mut self, spot: &Spot) -> Result<M::Share, Refusal>
        ensures step { Stands K.eq self.old.cache (ask.repin spot.now.stamp)
            (outcome_of_repin_by M.seen result) self.new.cache }
        ensures work { WritesAtMostOneMore self.old (outcome_of_repin_by M.seen result) self.new }
        ensures lawful { IsLawful K.eq self.new.cache }
    {
        let Some(found) = self.table.find_stamp(spot) else {
            return Err(Refusal::Stale);
        };
        let Found { place, link, node } = found;
        let pins = node.pins;
        let Phase::Ready(value) = &node.phase else {
            return Err(Refusal::Stale);
        };
        if pins == self.most_pins {
            return Err(Refusal::Overflow);
        }
        let share = value.share()?;
        self.table.pin(place, link, pins);
        Ok(share)
    }

    /// Does what `insert` does, with the same refusals, and also returns a hint of the new entry.
    #[inline(always)]
    pub fn insert_at(
        &mut self,
        key: &K,
        charge: u64,
        value: M::Share,
    ) -> Result<(Inserted<K, V, M>, Hint), (Refusal, M::Share)>
        requires { 0 < charge }
        ensures step { Inserts K.eq self.old.cache key.now charge (M.seen value)
            (inserted_without_hint result) self.new.cache }
        ensures request { Stands K.eq self.old.cache (ask.insert key.now charge (M.seen value))
            (outcome_of_insert_by M.seen (inserted_without_hint result)) self.new.cache }
        ensures work { IfOk result (λ r. self.new.work ≤ self.old.work + length
            r.0.replaced + length r.0.evicted + 1) }
        ensures same { OnErr result (self.new ≡ self.old) }
        ensures back { IfErr result (λ e. e.1 ≡ value) }
        ensures lawful { IsLawful K.eq self.new.cache }
    {
        // A proved program does not run this. One that `rt try` runs stops here at a charge of 0.
        prove!(charge > 0);
        let (spot, replaced, evicted) = match self.remake(key, charge) {
            Ok(made) => made,
            Err(refusal) => return Err((refusal, value)),
        };
        // Never refused: the entry is being made.
        let _stored = self.ready_at(&spot, value);
        let inserted = Inserted {
            stamp: spot.stamp,
            replaced,
            evicted,
        };
        Ok((inserted, spot.hint))
    }

    /// Does what `insert_strictly` does, with the same refusals, and also returns a hint of the new
    /// entry.
    pub fn insert_strictly_at(
        &mut self,
        key: &K,
        charge: u64,
        value: M::Share,
    ) -> Result<(Inserted<K, V, M>, Hint), (Refusal, M::Share)>
        requires { 0 < charge }
        ensures step { InsertsStrictly K.eq self.old.cache key.now charge (M.seen value)
            (inserted_without_hint result) self.new.cache }
        ensures request { Stands K.eq self.old.cache
            (ask.insert_strictly key.now charge (M.seen value))
            (outcome_of_insert_by M.seen (inserted_without_hint result)) self.new.cache }
        ensures limit { IsWithinCapacity self.old.cache → IsWithinCapacity self.new.cache }
        ensures work { IfOk result (λ r. self.new.work ≤ self.old.work + length
            r.0.replaced + length r.0.evicted + 1) }
        ensures same { OnErr result (self.new ≡ self.old) }
        ensures back { IfErr result (λ e. e.1 ≡ value) }
        ensures lawful { IsLawful K.eq self.new.cache }
    {
        if self.lacks_capacity_for(charge) {
            return Err((Refusal::Full, value));
        }
        self.insert_at(key, charge, value)
    }

    // `invalidate` followed by `begin`. Everything that can be refused precedes the first change.
    #[inline(always)]
    fn remake(
        &mut self,
        key: &K,
        charge: u64,
    ) -> Result<(Spot, Evicted<K, V, M>, Evicted<K, V, M>), Refusal>
        requires { 0 < charge }
        ensures step { Remakes K.eq self.old.cache key.now charge result self.new.cache }
        ensures work { IfOk result (λ r. self.new.work ≤ self.old.work + length r.1 + length
            r.2 + 1) }
        ensures same { OnErr result (self.new ≡ self.old) }
        ensures before { IsLawful K.eq self.old.cache }
        ensures lawful { IsLawful K.eq self.new.cache }
    {
        let stamp = self.next;
        let found = match self.table.find_key(key) {
            Ok(found) => found,
            Err(hash) => {
                let (_begun, evicted, hint) = self.make(hash, key, charge)?;
                return Ok((Spot { stamp, hint }, Evicted::none(), evicted));
            }
        };
        let Found { place, node, .. } = found;
        let (pins, old_charge, hash) = (node.pins, node.charge, node.hash);
        if pins > 0 {
            if charge > u64::MAX - self.table.total() || stamp == u64::MAX {
                return Err(Refusal::Overflow);
            }
            let new = self
                .table
                .add_over_held(self.alloc, place, stamp, key, charge)?;
            self.next += 1;
            let evicted = self.table.settle(self.capacity);
            let hint = Hint { hash, place: new };
            return Ok((Spot { stamp, hint }, Evicted::none(), evicted));
        }
        // An idle entry leaves with its charge.
        let rest = self.table.total() - old_charge;
        if charge > u64::MAX - rest || stamp == u64::MAX {
            return Err(Refusal::Overflow);
        }
        let (old, new) = self
            .table
            .add_over_idle(self.alloc, place, stamp, key, charge)?;
        self.next += 1;
        let evicted = self.table.settle(self.capacity);
        let hint = Hint { hash, place: new };
        Ok((Spot { stamp, hint }, Evicted::one(old), evicted))
    }

    /// Does what `key_of` does, by spot.
    pub fn key_at(&self, spot: &Spot) -> Option<&K>
        ensures { MatchOption result (LacksStamp self.now.cache spot.now.stamp)
            (λ key. HasKeyAt self.now.cache spot.now.stamp key.now) }
    {
        match self.table.find_stamp(spot) {
            Some(found) => Some(&found.node.key),
            None => None,
        }
    }

    // Returns whether the spot's entry has this key, and whether it has more than one pin. Both are
    // false if it has left.
    pub(crate) fn has_key(&self, spot: &Spot, key: &K) -> (bool, bool)
        ensures yes { IsTrue result.0 → HasEqualKeyAt K.eq self.now.cache spot.now.stamp key.now }
        ensures no { IsFalse result.0
            → HasEqualKeyAt K.eq self.now.cache spot.now.stamp key.now → ⊥ }
        ensures quiet { IsFalse result.1 → HasNoOtherPin self.now.cache spot.now.stamp }
    {
        match self.table.find_stamp(spot) {
            Some(found) => (found.node.key == *key, found.node.pins > 1),
            None => (false, false),
        }
    }

    // Returns the charge of the entry with the spot's stamp, or 0 if there is none.
    pub(crate) fn charge_at(&self, spot: &Spot) -> u64
        ensures { (e : Held K V) → held_at self.now.cache spot.now.stamp ≡ Some e
            → result ≡ e.charge }
    {
        match self.table.find_stamp(spot) {
            Some(found) => found.node.charge,
            None => 0,
        }
    }

    // Returns the stamp that the next new entry gets.
    pub(crate) fn next_stamp(&self) -> u64
        ensures { result ≡ self.now.cache.next }
    {
        self.next
    }
}
