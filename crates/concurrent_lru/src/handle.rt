//! Handles, each of which pins the value that it reads.
//!
//! Reading acquires no lock; dropping the handle releases the pin under the lock.
ghost use Rattle.std.specs.Prelude.{◌≡◌, ◌≢◌, None, IfOk, IfErr};

use crate::door::Door;
use crate::fit::{Anything, Fit};
use crate::locked::HeldPin;
use crate::lru_core::Refusal;
use std::fmt;
use std::hash::Hash;
use std::marker::Model;
use std::ops::Deref;
use std::sync::Wait;

/// A pinned value: its entry is not evicted while the handle exists. A handle that is forgotten
/// keeps its pin forever.
///
/// A sharded cache returns the handle of the shard, which is of this type too.
///
/// Clauses see the key and the charge that were asked for (`get` has no charge), and the value,
/// which fits that key by the mark `F`.
pub struct CacheHandle<'a, K: Hash + Eq + Clone, V, R: Wait, F: Fit<K, V> = Anything> {
    // Where the pin was acquired and is released.
    pub(crate) door: &'a Door<K, V, R, F>,
    pub(crate) pin: HeldPin<K, V, F>,
}

impl<'a, K: Hash + Eq + Clone, V, R: Wait, F: Fit<K, V>> Model for CacheHandle<'a, K, V, R, F> {
    ghost use Rattle.concurrent_lru.specs.Pins.{HandleOf};

    ghost Value = { HandleOf K V };

    ghost view = { λ h. record { key = h.pin.key; charge = h.pin.charge; value = h.pin.value } };
}

impl<'a, K: Hash + Eq + Clone, V, R: Wait, F: Fit<K, V>> CacheHandle<'a, K, V, R, F> {
    /// Returns the value. Acquires no lock.
    pub fn value(&self) -> &V
        ensures value { result.now ≡ self.now.value }
        ensures fits { F.fits self.now.key result.now }
    {
        self.pin.value()
    }
}

impl<'a, K: Hash + Eq + Clone + Drop, V: Drop, R: Wait, F: Fit<K, V>> CacheHandle<'a, K, V, R, F> {
    /// Returns another handle of the same value, which pins its entry once more, even after an
    /// `invalidate` of its key. No key is looked up, so this counts as no hit.
    ///
    /// Returns `Overflow` if the entry has the maximum number of pins, and `Memory` if a copy of
    /// the `Arc` of the value is refused; then nothing is pinned.
    pub fn try_clone(&self) -> Result<CacheHandle<'a, K, V, R, F>, Refusal>
        ensures key { IfOk result (λ h. h.key ≡ self.now.key) }
        ensures charge { IfOk result (λ h. h.charge ≡ self.now.charge) }
        ensures value { IfOk result (λ h. h.value ≡ self.now.value) }
        ensures fits { IfOk result (λ h. F.fits h.key h.value) }
        ensures never_stale { IfErr result (λ e. e ≢ Refusal.Stale) }
    {
        let pin = self.door.repin(&self.pin)?;
        Ok(CacheHandle {
            door: self.door,
            pin,
        })
    }

    // Returns this handle as one of a caller that asked with no charge.
    pub(crate) fn uncharged(self) -> Self
        ensures key { result.key ≡ self.entry.key }
        ensures charge { result.charge ≡ None }
        ensures value { result.value ≡ self.entry.value }
    {
        let Self { door, pin } = self;
        CacheHandle {
            door,
            pin: pin.uncharged(),
        }
    }

    // Returns the pin alone, for a handle that keeps the cache alive by other means.
    pub(crate) fn into_pin(self) -> HeldPin<K, V, F>
        ensures key { result.key ≡ self.entry.key }
        ensures charge { result.charge ≡ self.entry.charge }
        ensures value { result.value ≡ self.entry.value }
    {
        let Self { door: _, pin } = self;
        pin
    }
}

impl<'a, K: Hash + Eq + Clone, V, R: Wait, F: Fit<K, V>> Deref for CacheHandle<'a, K, V, R, F> {
    type Target = V;

    ghost deref_gives = { λ h v. v ≡ h.value };

    fn deref(&self) -> &V
        ensures value { result.now ≡ self.now.value }
        ensures fits { F.fits self.now.key result.now }
    {
        self.value()
    }
}

// Prints as the value does.
impl<'a, K: Hash + Eq + Clone, V: fmt::Debug, R: Wait, F: Fit<K, V>> fmt::Debug
    for CacheHandle<'a, K, V, R, F> {
    ghost debug_output = { λ h. V.debug_output h.value };

    fn fmt<W: fmt::Write>(&self, f: &mut fmt::Formatter<W>) -> fmt::Result {
        fmt::Debug::fmt(self.value(), f)
    }
}

// Releases the pin under the lock. The handle's copy, and then what the release evicted, are
// dropped after the lock is released.
impl<K: Hash + Eq + Clone + Drop, V: Drop, R: Wait, F: Fit<K, V>> Drop
    for CacheHandle<'_, K, V, R, F> {
    #[inline(always)]
    fn drop(self) {
        let Self { door, pin } = self;
        door.release(pin);
    }
}
