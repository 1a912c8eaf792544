//! The data under the lock: the core's state, whose ready values fit their keys, with counts of its
//! calls.
//!
//! Each call is one step of the core. What it leaves to be done is returned as a debt, a type that
//! is not `Drop`.
ghost use Rattle.std.specs.Prelude.{◌≡◌, ◌≢◌, ◌<◌, Ok, Err, Some, None, IsFalse, IfOk, IfErr, IfSome, false};
ghost use Rattle.std.specs.Arc.{arc_value};
ghost use Rattle.std.specs.Fn.{FnOnceReturnsAt, FnOnceTakesAt};
ghost use Rattle.concurrent_lru.specs.Cache.{count_of, empty_cache, most_pins_by_default, sum_of, IsLawful, CopiesAreEqual, HasNoOtherPin, IsSettled};
ghost use Rattle.concurrent_lru.specs.CountedCalls.{counted, counted_look, AddUp};
ghost use Rattle.concurrent_lru.specs.Counts.{counts_from, one_miss};
ghost use Rattle.concurrent_lru.specs.Debts.{outcome_of_locked_begin, outcome_of_locked_try_begin, outcome_of_locked_poll, outcome_of_locked_get, outcome_of_locked_repin, begin_under, AsksOnEntry, AsksOnPoll, IfEntered, IfPolled, NeedsNoWait};
ghost use Rattle.concurrent_lru.specs.Makings.{IsBeingMade};
ghost use Rattle.concurrent_lru.specs.Reads.{Reads};
ghost use Rattle.concurrent_lru.specs.Ready.{ValuesFit, HasEqualKeyAt};
ghost use Rattle.concurrent_lru.specs.Request as ask;
ghost use Rattle.concurrent_lru.specs.Results.{outcome_of_poll, outcome_of_ready, outcome_of_fail, outcome_of_release};
ghost use Rattle.concurrent_lru.specs.Runs.{Stands};
ghost use Rattle.concurrent_lru.specs.ThreadedCalls.{IfHit};

mod charges;
mod counting;
mod evictions;
mod inserts;
mod pins;
mod waiters;

pub use self::pins::{Entered, HeldPin, Making, Polled, Unread, Waiting, Woken};
pub use self::waiters::Waiters;
use crate::as_key::AsKey;
use crate::counts::Counts;
use crate::fit::Fit;
use crate::locked::counting::{count_look, count_poll, count_repin};
use crate::lru_core::{Begun, Evicted, Failed, Refusal, Spot, State};
use crate::sealed::Sealed;
use std::alloc::Global;
use std::fmt;
use std::hash::Hash;
use std::marker::{Model, PhantomData};
use std::sync::Arc;

/// A state of the core whose ready values fit their keys by the mark `F`, with counts of its calls.
///
/// Clauses see the abstract cache, the counts, and whether the limit is strict, which only
/// `set_strict` changes: every other call that takes `&mut self` says that it stays the same.
/// Whenever the lock is acquired, the type's invariant is that the cache is lawful (so its total is
/// above the capacity only if nothing is idle), that the value of every ready entry fits its key,
/// and that the counts add up to the entries and their charges. Each call counts its outcome, as
/// `counted` of specs/CountedCalls.antt defines.
///
/// It has no map by stamp. A debt holds the spot of its entry, the stamp with the hash of the key
/// and the place, and a pinned entry stays at its place, so the call that settles a debt finds the
/// entry at once. A lookup visits every entry only for a stamp from elsewhere, or one whose entry
/// has left.
#[derive(Drop)]
pub struct Locked<K: Hash + Eq + Clone, V, F: Fit<K, V>> {
    state: State<K, V>,
    counts: Counts,
    // Whether begins and inserts are the core's strict ones.
    strict: bool,
    mark: PhantomData<F>,
}

impl<K: Hash + Eq + Clone, V, F: Fit<K, V>> Model for Locked<K, V, F> {
    ghost use Rattle.concurrent_lru.specs.CountedCalls.{LockedCache, locked_cache_code, IsSoundUnderLock};

    ghost Value = { LockedCache K V };

    ghost coded = { locked_cache_code K.code V.code };

    ghost view = { λ a. record { cache = a.state.cache; counts = a.counts; strict = a.strict } };

    ghost invariant = { λ a. IsSoundUnderLock K.eq F.fits a.state.cache a.counts };
}

impl<K: Hash + Eq + Clone + Drop, V: Drop, F: Fit<K, V>> Locked<K, V, F> {
    /// Creates an empty cache, whose limit is not strict. Takes no memory.
    pub fn new(alloc: Global, capacity: u64, seed: u64) -> Self
        requires copies { CopiesAreEqual K.is_clone K.eq }
        ensures empty { result.cache ≡ empty_cache capacity most_pins_by_default 0 }
        ensures counts { result.counts ≡ counts_from 0 0 }
        ensures strict { result.strict ≡ false }
    {
        Locked {
            state: State::without_stamp_map(alloc, capacity, 0, u32::MAX, seed),
            counts: Counts::from(0, 0),
            strict: false,
            mark: PhantomData,
        }
    }

    /// The core's `reserve`.
    ///
    /// Returns `Memory` if the allocator refuses.
    pub fn reserve(&mut self, entries: usize) -> Result<(), Refusal>
        ensures err { IfErr result (λ e. e ≡ Refusal.Memory) }
        ensures same { self.new ≡ self.old }
    {
        self.state.reserve(entries)
    }

    /// Returns the core's state, for calls that change nothing. Its other clauses state what holds
    /// whenever the lock is acquired.
    pub fn state(&self) -> &State<K, V>
        ensures cache { result.now.cache ≡ self.now.cache }
        ensures lawful { IsLawful K.eq self.now.cache }
        ensures settled { IsSettled self.now.cache }
        ensures kept { ValuesFit F.fits self.now.cache }
        ensures adds_up { AddUp self.now.cache self.now.counts }
    {
        &self.state
    }

    /// Returns the counts, which add up to the entries and their charges.
    pub fn counts(&self) -> Counts
        ensures counted { result ≡ self.now.counts }
        ensures adds_up { AddUp self.now.cache result }
    {
        self.counts
    }

    /// Returns the counts and starts the counting again.
    pub fn reset_counts(&mut self) -> Counts
        ensures counted { result ≡ self.old.counts }
        ensures adds_up { AddUp self.old.cache result }
        ensures anew { self.new.counts ≡ counts_from (count_of self.old.cache)
            (sum_of self.old.cache) }
        ensures cache { self.new.cache ≡ self.old.cache }
        ensures strict { self.new.strict ≡ self.old.strict }
    {
        let counted = self.counts;
        self.counts = Counts::from(self.state.len() as u64, self.state.total());
        counted
    }

    /// Sets whether the limit is strict.
    pub fn set_strict(&mut self, strict: bool)
        ensures strict { self.new.strict ≡ strict }
        ensures cache { self.new.cache ≡ self.old.cache }
        ensures counts { self.new.counts ≡ self.old.counts }
    {
        self.strict = strict;
    }

    /// Returns whether the limit is strict.
    pub fn is_strict(&self) -> bool
        ensures { result ≡ self.now.strict }
    {
        self.strict
    }

    /// The core's `begin`, or its `begin_strictly` if the limit is strict. The value of a hit fits
    /// the key.
    #[inline(always)]
    pub fn begin(&mut self, key: &K, charge: u64) -> Result<Entered<K, V, F>, Refusal>
        requires charged { 0 < charge }
        ensures step { Stands K.eq self.old.cache (begin_under self.old.strict key.now charge)
            (outcome_of_locked_begin result) self.new.cache }
        ensures counted { self.new.counts ≡ counted self.old.cache
            (begin_under self.old.strict key.now charge)
            (outcome_of_locked_begin result) self.old.counts }
        ensures asked { IfOk result (λ e. AsksOnEntry e key.now charge self.new) }
        ensures hit { IfOk result (λ e. IfEntered e (F.fits key.now)) }
        ensures never_stale { IfErr result (λ e. e ≢ Refusal.Stale) }
        ensures strict { self.new.strict ≡ self.old.strict }
    {
        if self.strict && self.state.is_full_for(key, charge) {
            self.counts.refuse();
            return Err(Refusal::Full);
        }
        let next = self.state.next_stamp();
        let (begun, evicted, hint) = match self.state.begin_at(key, charge) {
            Ok(begun) => begun,
            Err(refusal) => {
                self.counts.refuse();
                return Err(refusal);
            }
        };
        match begun {
            // A begin that finds an entry evicts nothing, so there is nothing to seal.
            Begun::Hit(stamp, value) => {
                prove!(evicted.is_empty());
                self.counts.hit();
                let spot = Spot { stamp, hint };
                Ok(Entered::Hit(HeldPin::of(spot, key, Some(charge), value)))
            }
            Begun::Wait(stamp) => {
                prove!(evicted.is_empty());
                self.counts.wait();
                let spot = Spot { stamp, hint };
                Ok(Entered::Wait(Waiting::of(spot, key, charge, self)))
            }
            Begun::Make(stamp) => {
                self.counts.miss();
                self.counts.make();
                // A making that is taken over has an earlier stamp, and inserts no entry.
                if stamp == next {
                    self.counts.insert(charge);
                    self.counts
                        .evict(self.state.len() as u64, self.state.total());
                }
                let making = Making::of(Spot { stamp, hint }, key, charge);
                Ok(Entered::Make(making, Sealed::of(evicted)))
            }
        }
    }

    /// `begin`, if no other caller is making the value: the caller need not wait. Otherwise returns
    /// `None`, and counts a miss.
    pub fn try_begin(&mut self, key: &K, charge: u64) -> Result<Option<Entered<K, V, F>>, Refusal>
        requires charged { 0 < charge }
        ensures busy { IsBeingMade K.eq self.old.cache key.now → (result ≡ Ok None)
            × (self.new ≡ record self.old { counts = one_miss self.old.counts }) }
        ensures step { (IsBeingMade K.eq self.old.cache key.now → ⊥)
            → Stands K.eq self.old.cache (begin_under self.old.strict key.now charge)
            (outcome_of_locked_try_begin result) self.new.cache }
        ensures counted { (IsBeingMade K.eq self.old.cache key.now → ⊥)
            → self.new.counts ≡ counted self.old.cache
            (begin_under self.old.strict key.now charge)
            (outcome_of_locked_try_begin result) self.old.counts }
        ensures asked { IfOk result (λ found. IfSome found
            (λ e. AsksOnEntry e key.now charge self.new)) }
        ensures hit { IfOk result (λ found. IfSome found (λ e. IfEntered e (F.fits key.now))) }
        ensures at_once { IfOk result (λ found. IfSome found NeedsNoWait) }
        ensures never_stale { IfErr result (λ e. e ≢ Refusal.Stale) }
        ensures strict { self.new.strict ≡ self.old.strict }
    {
        if self.state.is_being_made(key) {
            self.counts.miss();
            return Ok(None);
        }
        let entered = self.begin(key, charge)?;
        Ok(Some(entered))
    }

    /// The core's `get`. The value found fits the key.
    #[inline(always)]
    pub fn get<Q: AsKey<K>>(&mut self, key: Q) -> Result<Option<HeldPin<K, V, F>>, Refusal>
        ensures step { Stands K.eq self.old.cache (ask.get (Q.owned key))
            (outcome_of_locked_get result) self.new.cache }
        ensures counted { self.new.counts ≡ counted self.old.cache (ask.get (Q.owned key))
            (outcome_of_locked_get result) self.old.counts }
        ensures asked { IfOk result (λ found. IfSome found
            (λ p. (p.key ≡ Q.owned key) × (p.charge ≡ None))) }
        ensures hit { IfOk result (λ found. IfSome found (λ p. F.fits (Q.owned key) p.value)) }
        ensures never_stale { IfErr result (λ e. e ≢ Refusal.Stale) }
        ensures strict { self.new.strict ≡ self.old.strict }
    {
        let found = self.state.get_at(key);
        count_look(&mut self.counts, &found);
        match found? {
            None => Ok(None),
            Some((stamp, value, hint)) => {
                let spot = Spot { stamp, hint };
                Ok(Some(HeldPin::of(spot, key, None, value)))
            }
        }
    }

    /// The core's `read`. The value passed to `reader` fits the key.
    #[inline(always)]
    pub fn read<Q: AsKey<K>, T, G>(
        &mut self,
        key: Q,
        reader: G,
    ) -> Result<Option<(u64, T)>, Refusal>
    where
        G: FnOnce(&V) -> T + Drop,
        requires callable { (v : V) → F.fits (Q.owned key) v → FnOnceTakesAt G.FnOnce reader v }
        ensures step { Reads K.eq self.old.cache (Q.owned key)
            (FnOnceReturnsAt G.FnOnce reader) result self.new.cache }
        ensures counted { self.new.counts ≡ counted_look result self.old.counts }
        ensures fits { IfOk result (λ found. IfSome found
            (λ r. (v : V) × F.fits (Q.owned key) v × FnOnceReturnsAt G.FnOnce reader v r.1)) }
        ensures refused { IfErr result (λ e. e ≡ Refusal.Overflow) }
        ensures strict { self.new.strict ≡ self.old.strict }
    {
        let found = self.state.read(key, reader);
        count_look(&mut self.counts, &found);
        found
    }

    /// The core's `poll`, if the pin's entry has the key. The value of a hit fits the key.
    pub fn poll(&mut self, woken: Woken<K>, key: &K) -> Polled<K, V, F>
        requires asked { woken.key ≡ key.now }
        ensures step { HasEqualKeyAt K.eq self.old.cache woken.stamp key.now
            → Stands K.eq self.old.cache (ask.poll woken.stamp)
            (outcome_of_locked_poll result) self.new.cache }
        ensures counted { self.new.counts ≡ counted self.old.cache (ask.poll woken.stamp)
            (outcome_of_locked_poll result) self.old.counts }
        ensures no_entry { (HasEqualKeyAt K.eq self.old.cache woken.stamp key.now → ⊥)
            → (result ≡ Polled.NoPin) × (self.new ≡ self.old) }
        ensures asked { AsksOnPoll result key.now woken.charge self.new }
        ensures hit { IfPolled result (F.fits key.now) }
        ensures strict { self.new.strict ≡ self.old.strict }
    {
        let Woken {
            spot,
            asked: _,
            charge,
        } = woken;
        self.poll_spot(spot, key, charge)
    }

    // The core's `poll`, if the spot's entry has the key, for a caller that asked with this charge.
    fn poll_spot(&mut self, spot: Spot, key: &K, charge: u64) -> Polled<K, V, F>
        ensures step { HasEqualKeyAt K.eq self.old.cache spot.stamp key.now
            → Stands K.eq self.old.cache (ask.poll spot.stamp) (outcome_of_locked_poll result)
            self.new.cache }
        ensures counted { self.new.counts ≡ counted self.old.cache (ask.poll spot.stamp)
            (outcome_of_locked_poll result) self.old.counts }
        ensures no_entry { (HasEqualKeyAt K.eq self.old.cache spot.stamp key.now → ⊥)
            → (result ≡ Polled.NoPin) × (self.new ≡ self.old) }
        ensures asked { AsksOnPoll result key.now charge self.new }
        ensures hit { IfPolled result (F.fits key.now) }
        ensures strict { self.new.strict ≡ self.old.strict }
    {
        match self.poll_core(&spot, key) {
            Ok(Begun::Make(_)) => {
                let making = Making::of(spot, key, charge);
                Polled::Entered(Entered::Make(making, Sealed::of(Evicted::none())))
            }
            Ok(Begun::Wait(_)) => {
                Polled::Entered(Entered::Wait(Waiting::of(spot, key, charge, self)))
            }
            Ok(Begun::Hit(_, value)) => {
                Polled::Entered(Entered::Hit(HeldPin::of(spot, key, Some(charge), value)))
            }
            Err(Refusal::Memory) => Polled::Refused(Unread { spot }),
            // A poll never overflows, so this is `Stale`, and there is no pin to release.
            Err(_) => Polled::NoPin,
        }
    }

    // The core's `poll`, counted, if the spot's entry has the key. Returns the core's result.
    fn poll_core(&mut self, spot: &Spot, key: &K) -> Result<Begun<V>, Refusal>
        ensures step { HasEqualKeyAt K.eq self.old.cache spot.now.stamp key.now
            → Stands K.eq self.old.cache (ask.poll spot.now.stamp) (outcome_of_poll result)
            self.new.cache }
        ensures counted { self.new.counts ≡ counted self.old.cache (ask.poll spot.now.stamp)
            (outcome_of_poll result) self.old.counts }
        ensures no_entry { (HasEqualKeyAt K.eq self.old.cache spot.now.stamp key.now → ⊥)
            → (result ≡ Err Refusal.Stale) × (self.new ≡ self.old) }
        ensures hit { IfOk result (λ b. IfHit b (F.fits key.now)) }
        ensures strict { self.new.strict ≡ self.old.strict }
    {
        let (is_own, _) = self.state.has_key(spot, key);
        if !is_own {
            return Err(Refusal::Stale);
        }
        let polled = self.state.poll_at(spot);
        count_poll(&mut self.counts, &polled);
        polled
    }

    /// The core's `ready`, if the making's entry has the key: the entry gets `stored`, and the pin
    /// holds `read`, another `Arc` of the same value. Takes no memory.
    ///
    /// Callers are to be woken unless the entry has no other pin. If no entry with this stamp and
    /// key is being made, `stored` is returned.
    #[inline(always)]
    pub fn ready(
        &mut self,
        making: Making<K>,
        key: &K,
        stored: Arc<V>,
        read: Arc<V>,
    ) -> (HeldPin<K, V, F>, Sealed<Result<(), Arc<V>>>, Waiters)
        requires asked { making.key ≡ key.now }
        requires fits { F.fits key.now (arc_value stored) }
        requires same { arc_value read ≡ arc_value stored }
        ensures step { HasEqualKeyAt K.eq self.old.cache making.stamp key.now
            → Stands K.eq self.old.cache (ask.ready making.stamp (arc_value stored))
            (outcome_of_ready result.1) self.new.cache }
        ensures counts { self.new.counts ≡ self.old.counts }
        ensures no_entry { (HasEqualKeyAt K.eq self.old.cache making.stamp key.now → ⊥)
            → (result.1 ≡ Err stored) × (self.new ≡ self.old) }
        ensures back { IfErr result.1 (λ a. arc_value a ≡ arc_value stored) }
        ensures pin { result.0 ≡ record {
          stamp = making.stamp;
          key = key.now;
          charge = Some making.charge;
          value = arc_value stored;
        } }
        ensures quiet { IsFalse result.2 → HasNoOtherPin self.old.cache making.stamp }
        ensures strict { self.new.strict ≡ self.old.strict }
    {
        let Making {
            spot,
            asked: _,
            charge,
        } = making;
        let (back, shared) = self.state.ready_keyed(&spot, key, stored);
        let pin = HeldPin::of(spot, key, Some(charge), read);
        (pin, Sealed::of(back), Waiters { some: shared })
    }

    /// The core's `fail`, if the making's entry has the key. Takes no memory.
    ///
    /// Callers are to be woken unless the entry has no other pin. Returns `Stale` if no entry with
    /// this stamp and key is being made.
    pub fn fail(
        &mut self,
        making: Making<K>,
        key: &K,
    ) -> (Sealed<Result<Failed<K>, Refusal>>, Waiters)
        requires asked { making.key ≡ key.now }
        ensures step { HasEqualKeyAt K.eq self.old.cache making.stamp key.now
            → Stands K.eq self.old.cache (ask.fail making.stamp) (outcome_of_fail result.0)
            self.new.cache }
        ensures counted { self.new.counts ≡ counted self.old.cache (ask.fail making.stamp)
            (outcome_of_fail result.0) self.old.counts }
        ensures no_entry { (HasEqualKeyAt K.eq self.old.cache making.stamp key.now → ⊥)
            → (result.0 ≡ Err Refusal.Stale) × (self.new ≡ self.old) }
        ensures quiet { IsFalse result.1 → HasNoOtherPin self.old.cache making.stamp }
        ensures strict { self.new.strict ≡ self.old.strict }
    {
        let Making {
            spot,
            asked: _,
            charge: _,
        } = making;
        let (is_own, shared) = self.state.has_key(&spot, key);
        let waiters = Waiters { some: shared };
        if !is_own {
            return (Sealed::of(Err(Refusal::Stale)), waiters);
        }
        (Sealed::of(self.fail_core(&spot)), waiters)
    }

    // The core's `fail`, counted. Returns the core's result.
    fn fail_core(&mut self, spot: &Spot) -> Result<Failed<K>, Refusal>
        ensures step { Stands K.eq self.old.cache (ask.fail spot.now.stamp) (outcome_of_fail result)
            self.new.cache }
        ensures counted { self.new.counts ≡ counted self.old.cache (ask.fail spot.now.stamp)
            (outcome_of_fail result) self.old.counts }
        ensures strict { self.new.strict ≡ self.old.strict }
    {
        match self.state.fail_at(spot)? {
            Failed::Left => {
                self.counts.fail();
                Ok(Failed::Left)
            }
            Failed::Removed(key) => {
                self.counts.fail();
                self.counts.remove(self.state.total());
                Ok(Failed::Removed(key))
            }
        }
    }

    /// The core's `release`. Takes no memory. Seals the pin's `Arc` of the value, followed by what
    /// the release evicted.
    ///
    /// Returns `Stale` if no held and ready entry has the stamp.
    #[inline(always)]
    pub fn release(
        &mut self,
        pin: HeldPin<K, V, F>,
    ) -> Sealed<(Arc<V>, Result<Evicted<K, V>, Refusal>)>
        ensures step { Stands K.eq self.old.cache (ask.release pin.stamp)
            (outcome_of_release result.1) self.new.cache }
        ensures counted { self.new.counts ≡ counted self.old.cache (ask.release pin.stamp)
            (outcome_of_release result.1) self.old.counts }
        ensures value { arc_value result.0 ≡ pin.value }
        ensures strict { self.new.strict ≡ self.old.strict }
    {
        let HeldPin {
            spot,
            asked: _,
            charge: _,
            value,
            mark: _,
        } = pin;
        Sealed::of((value, self.release_core(&spot)))
    }

    /// The core's `repin`, for another pin in the entry of `pin`. The new pin holds `read`, another
    /// `Arc` of the pin's value, and the `Arc` that the core returned is sealed.
    ///
    /// Returns `Overflow` and `Memory` as there, with `read` sealed: then no entry changes. If the
    /// core refuses as `Stale`, nothing changes either (`stale`), and that refusal is sealed: no
    /// entry has a pin for `pin` or for the new pin, whose release then changes nothing.
    pub fn repin(
        &mut self,
        pin: &HeldPin<K, V, F>,
        read: Arc<V>,
    ) -> Result<(HeldPin<K, V, F>, Sealed<Result<Arc<V>, Refusal>>), (Refusal, Sealed<Arc<V>>)>
        requires same { arc_value read ≡ pin.now.value }
        ensures step { Stands K.eq self.old.cache (ask.repin pin.now.stamp)
            (outcome_of_locked_repin result) self.new.cache }
        ensures counted { self.new.counts ≡ counted self.old.cache (ask.repin pin.now.stamp)
            (outcome_of_locked_repin result) self.old.counts }
        ensures pin { IfOk result (λ r. r.0 ≡ pin.now) }
        ensures stale { IfOk result (λ r. IfErr r.1
            (λ e. (e ≡ Refusal.Stale) × (self.new ≡ self.old))) }
        ensures never_stale { IfErr result (λ e. e.0 ≢ Refusal.Stale) }
        ensures strict { self.new.strict ≡ self.old.strict }
    {
        let repinned = self.state.repin_at(&pin.spot);
        count_repin(&mut self.counts, &repinned);
        match repinned {
            Ok(shared) => Ok((pin.again(read), Sealed::of(Ok(shared)))),
            Err(Refusal::Stale) => Ok((pin.again(read), Sealed::of(Err(Refusal::Stale)))),
            Err(Refusal::Overflow) => Err((Refusal::Overflow, Sealed::of(read))),
            Err(Refusal::Memory) => Err((Refusal::Memory, Sealed::of(read))),
            Err(Refusal::Full) => Err((Refusal::Full, Sealed::of(read))),
        }
    }

    /// The core's `release`, for a pin whose value was not read. Takes no memory.
    ///
    /// Returns `Stale` as `release` does.
    pub fn give_up(&mut self, unread: Unread) -> Sealed<Result<Evicted<K, V>, Refusal>>
        ensures step { Stands K.eq self.old.cache (ask.release unread)
            (outcome_of_release result) self.new.cache }
        ensures counted { self.new.counts ≡ counted self.old.cache
            (ask.release unread) (outcome_of_release result) self.old.counts }
        ensures strict { self.new.strict ≡ self.old.strict }
    {
        let Unread { spot } = unread;
        Sealed::of(self.release_core(&spot))
    }

    // The core's `release`, counted. Returns the core's result.
    #[inline(always)]
    fn release_core(&mut self, spot: &Spot) -> Result<Evicted<K, V>, Refusal>
        ensures step { Stands K.eq self.old.cache (ask.release spot.now.stamp)
            (outcome_of_release result) self.new.cache }
        ensures counted { self.new.counts ≡ counted self.old.cache (ask.release spot.now.stamp)
            (outcome_of_release result) self.old.counts }
        ensures strict { self.new.strict ≡ self.old.strict }
    {
        let evicted = self.state.release_at(spot)?;
        if evicted.is_empty() {
            return Ok(evicted);
        }
        self.counts
            .evict(self.state.len() as u64, self.state.total());
        Ok(evicted)
    }
}

// Prints the ready entries as a map, as the core does.
impl<K: Hash + Eq + Clone + Drop + fmt::Debug, V: Drop + fmt::Debug, F: Fit<K, V>> fmt::Debug
    for Locked<K, V, F> {
    fn fmt<W: fmt::Write>(&self, f: &mut fmt::Formatter<W>) -> fmt::Result {
        self.state.fmt(f)
    }
}
