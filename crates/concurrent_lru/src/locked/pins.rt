//! What a caller has in an entry, as debts: types that are not `Drop`, so that the checker refuses
//! a path that forgets one. Each is taken only by the call that settles it.
ghost use Rattle.std.specs.Prelude.{◌≡◌, Some, None, IfOk, IfErr};
ghost use Rattle.std.specs.Arc.{arc_value};
ghost use Rattle.std.specs.Sync.Mutex.{mutex_guard_value};

use crate::as_key::AsKey;
use crate::fit::Fit;
use crate::locked::Locked;
use crate::lru_core::{Evicted, Refusal, Spot};
use crate::sealed::Sealed;
use crate::shown::Shown;
use std::hash::Hash;
use std::marker::{Model, PhantomData};
use std::snapshot::Snapshot;
use std::sync::{Arc, Condvar, MutexGuard, Wait};

/// A debt: the caller is to make the value of an entry. `ready` and `fail` take it.
///
/// Clauses see the stamp of the entry, and the key and the charge that were asked for.
pub struct Making<K> {
    pub(super) spot: Spot,
    pub(super) asked: Snapshot<K>,
    pub(super) charge: u64,
}

impl<K> Model for Making<K> {
    ghost use Rattle.concurrent_lru.specs.Pins.{AskOf};

    ghost Value = { AskOf K };

    ghost view = { λ m. record {
      stamp = m.spot.stamp;
      key = m.asked.value;
      charge = m.charge;
    } };
}

impl<K> Making<K> {
    // Creates the making of the spot's entry.
    pub(super) fn of(spot: Spot, key: &K, charge: u64) -> Self
        ensures { result ≡ record {
          stamp = spot.stamp;
          key = key.now;
          charge = charge;
        } }
    {
        Making {
            spot,
            asked: Snapshot::of(key),
            charge,
        }
    }
}

impl<K: Hash + Eq + Clone> Making<K> {
    // Returns the maker's pin as one that reads the value that was made, with this charge.
    pub(super) fn into_pin<V, F: Fit<K, V>>(
        self,
        key: &K,
        charge: u64,
        value: Arc<V>,
    ) -> HeldPin<K, V, F>
        requires { F.fits key.now (arc_value value) }
        ensures { result ≡ record {
          stamp = self.stamp;
          key = key.now;
          charge = Some charge;
          value = arc_value value;
        } }
    {
        let Self {
            spot,
            asked: _,
            charge: _,
        } = self;
        HeldPin::of(spot, key, Some(charge), value)
    }
}

/// A debt: a pin in an entry whose value another caller makes. `sleep` takes it; a release would
/// not, since there is no value yet.
///
/// Clauses see the stamp of the entry, the key and the charge that were asked for, and the state in
/// which the call that returned it left the cache.
pub struct Waiting<K: Hash + Eq + Clone, V, F: Fit<K, V>> {
    spot: Spot,
    asked: Snapshot<K>,
    charge: u64,
    left: Snapshot<Locked<K, V, F>>,
}

impl<K: Hash + Eq + Clone, V, F: Fit<K, V>> Model for Waiting<K, V, F> {
    ghost use Rattle.concurrent_lru.specs.Pins.{WaitOf, wait_code};

    ghost Value = { WaitOf K V };

    ghost coded = { wait_code K.code V.code };

    ghost view = { λ w. record {
      stamp = w.spot.stamp;
      key = w.asked.value;
      charge = w.charge;
      left = w.left.value;
    } };
}

impl<K: Hash + Eq + Clone, V, F: Fit<K, V>> Waiting<K, V, F> {
    // Creates a pin in the spot's entry.
    pub(super) fn of(spot: Spot, key: &K, charge: u64, left: &Locked<K, V, F>) -> Self
        ensures { result ≡ record {
          stamp = spot.stamp;
          key = key.now;
          charge = charge;
          left = left.now;
        } }
    {
        Waiting {
            spot,
            asked: Snapshot::of(key),
            charge,
            left: Snapshot::of(left),
        }
    }

    /// Releases the lock and sleeps, atomically, until it is woken; then acquires the lock again.
    ///
    /// Nothing is known of a lock once it is released, so the guard must be that of the call that
    /// returned the pin: no wakeup comes between that call and the sleep.
    pub fn sleep<'a, R: Wait>(
        self,
        rt: &R,
        woken: &Condvar,
        guard: MutexGuard<'a, Locked<K, V, F>>,
    ) -> (MutexGuard<'a, Locked<K, V, F>>, Woken<K>)
        requires awake { mutex_guard_value guard ≡ self.left }
        ensures { result.1 ≡ record {
          stamp = self.stamp;
          key = self.key;
          charge = self.charge;
        } }
    {
        let Self {
            spot,
            asked,
            charge,
            left: _,
        } = self;
        let guard = woken.wait(rt, guard);
        (
            guard,
            Woken {
                spot,
                asked,
                charge,
            },
        )
    }
}

/// A debt: a pin of a caller that has slept, in an entry whose value another caller made or is
/// still making. `poll` takes it.
///
/// Clauses see what they see of a `Making`.
pub struct Woken<K> {
    pub(super) spot: Spot,
    pub(super) asked: Snapshot<K>,
    pub(super) charge: u64,
}

impl<K> Model for Woken<K> {
    ghost use Rattle.concurrent_lru.specs.Pins.{AskOf};

    ghost Value = { AskOf K };

    ghost view = { λ w. record {
      stamp = w.spot.stamp;
      key = w.asked.value;
      charge = w.charge;
    } };
}

/// A debt: a pin in a ready entry whose value was not read, since its copy was refused. `give_up`
/// takes it.
///
/// Clauses see the stamp of the entry.
pub struct Unread {
    pub(super) spot: Spot,
}

impl Model for Unread {
    ghost use Rattle.std.specs.Prelude.{ℕ};

    ghost Value = { ℕ };

    ghost view = { λ u. u.spot.stamp };
}

/// A debt: a pin in a ready entry, and the value. `release` takes it.
///
/// Clauses see the stamp of the entry, the key and the charge that were asked for, and the value,
/// which fits that key by the mark `F`.
pub struct HeldPin<K: Hash + Eq + Clone, V, F: Fit<K, V>> {
    pub(super) spot: Spot,
    pub(super) asked: Shown<K>,
    pub(super) charge: Shown<Option<u64>>,
    pub(super) value: Arc<V>,
    pub(super) mark: PhantomData<F>,
}

impl<K: Hash + Eq + Clone, V, F: Fit<K, V>> Model for HeldPin<K, V, F> {
    ghost use Rattle.std.specs.Arc.{arc_value};
    ghost use Rattle.concurrent_lru.specs.Pins.{PinOf};

    ghost Value = { PinOf K V };

    ghost view = { λ p. record {
      stamp = p.spot.stamp;
      key = p.asked.value;
      charge = p.charge.value;
      value = arc_value p.value;
    } };

    ghost invariant = { λ p. F.fits p.asked.value (arc_value p.value) };
}

impl<K: Hash + Eq + Clone, V, F: Fit<K, V>> HeldPin<K, V, F> {
    // Creates a pin in the spot's entry. A `get` has no charge.
    pub(super) fn of<Q: AsKey<K>>(spot: Spot, key: Q, charge: Option<u64>, value: Arc<V>) -> Self
        requires { F.fits (Q.owned key) (arc_value value) }
        ensures { result ≡ record {
          stamp = spot.stamp;
          key = Q.owned key;
          charge = charge;
          value = arc_value value;
        } }
    {
        HeldPin {
            spot,
            asked: Shown::by_key(&key),
            charge: Shown::of(&charge),
            value,
            mark: PhantomData,
        }
    }

    // Returns this pin as one of a caller that asked with no charge.
    pub(crate) fn uncharged(self) -> Self
        ensures { result ≡ record self { charge = None } }
    {
        let Self {
            spot,
            asked,
            charge: _,
            value,
            mark,
        } = self;
        HeldPin {
            spot,
            asked,
            charge: Shown::of(&None),
            value,
            mark,
        }
    }

    // Creates another pin in the same entry, which holds another `Arc` of the value.
    pub(super) fn again(&self, value: Arc<V>) -> Self
        requires { arc_value value ≡ self.now.value }
        ensures { result ≡ self.now }
    {
        HeldPin {
            spot: self.spot,
            asked: self.asked.again(),
            charge: self.charge.again(),
            value,
            mark: PhantomData,
        }
    }

    /// Returns another `Arc` of the value. Acquires no lock.
    ///
    /// Returns `Memory` if it is refused.
    pub fn share(&self) -> Result<Arc<V>, Refusal>
        ensures value { IfOk result (λ a. arc_value a ≡ self.now.value) }
        ensures fits { IfOk result (λ a. F.fits self.now.key (arc_value a)) }
        ensures refusal { IfErr result (λ e. e ≡ Refusal.Memory) }
    {
        Ok(Arc::try_clone(&self.value)?)
    }

    /// Returns the value. Acquires no lock.
    pub fn value(&self) -> &V
        ensures value { result.now ≡ self.now.value }
        ensures fits { F.fits self.now.key result.now }
    {
        &*self.value
    }
}

/// What a caller that asked for a value finds, by `begin` or, once it has waited, by `poll`.
pub enum Entered<K: Hash + Eq + Clone, V, F: Fit<K, V>> {
    /// The caller is to make the value; with it, what the charge evicted.
    Make(Making<K>, Sealed<Evicted<K, V>>),
    /// Another caller is making it; sleep, and ask again by `poll`.
    Wait(Waiting<K, V, F>),
    /// The value is ready.
    Hit(HeldPin<K, V, F>),
}

/// The result of `poll`.
pub enum Polled<K: Hash + Eq + Clone, V, F: Fit<K, V>> {
    /// The pin's entry was found. If the caller is to make the value, its maker has failed, and
    /// nothing was evicted.
    Entered(Entered<K, V, F>),
    /// The value is ready, but its copy was refused.
    Refused(Unread),
    /// No held entry has the stamp and the key: there is no pin.
    NoPin,
}
