//! Makings that their callers begin and end by calls of their own, without a closure.
ghost use Rattle.std.specs.Prelude.{◌≡◌, ◌≢◌, ◌<◌, Some, IfErr, IfOk, IfSome};
ghost use Rattle.concurrent_lru.specs.Beginnings.{IfMaking, IfReady};
ghost use Rattle.concurrent_lru.specs.Doors.{IsLookupFor};

use crate::door;
use crate::door::Lookup;
use crate::fit::{Anything, Fit};
use crate::handle::CacheHandle;
use crate::lru_core::Refusal;
use crate::unsharded::LruCache;
use std::hash::Hash;
use std::marker::Model;
use std::sync::Wait;

/// What `begin` and `try_begin` found.
#[derive(Drop)]
pub enum Begun<'a, K: Hash + Eq + Clone + Drop, V: Drop, R: Wait, F: Fit<K, V> = Anything> {
    /// The value is ready.
    Hit(CacheHandle<'a, K, V, R, F>),
    /// The caller makes the value. Callers that ask for the key with `get_or_init` and the like
    /// wait meanwhile.
    Make(Maker<'a, K, V, R, F>),
}

/// The making of a key's value, by the caller who has this maker. `ready` ends it. If the maker is
/// dropped instead, the making has failed, and one of those that wait for the value makes it. A
/// maker that is forgotten makes them wait forever.
///
/// A sharded cache returns the maker of the shard, which is of this type too.
///
/// Clauses see the key, and the charge with which the making was begun.
pub struct Maker<'a, K: Hash + Eq + Clone, V, R: Wait, F: Fit<K, V> = Anything> {
    making: door::Maker<'a, K, V, R, F>,
    key: K,
}

impl<'a, K: Hash + Eq + Clone, V, R: Wait, F: Fit<K, V>> Model for Maker<'a, K, V, R, F> {
    ghost use Rattle.std.specs.Prelude.{◌≡◌};
    ghost use Rattle.concurrent_lru.specs.Makers.{MakerOf};

    ghost Value = { MakerOf K };

    ghost view = { λ m. record { key = m.key; charge = m.making.charge } };

    ghost invariant = { λ m. m.making.key ≡ m.key };
}

impl<'a, K: Hash + Eq + Clone + Drop, V: Drop, R: Wait, F: Fit<K, V>> Maker<'a, K, V, R, F> {
    /// Makes `value` the key's value, which those that wait for it get too, and returns a handle of
    /// it. If the key was invalidated meanwhile, only this caller and those that waited before get
    /// the value.
    ///
    /// Returns `Memory` if the shared copies of the value are refused. The making has failed then,
    /// and the value is dropped.
    pub fn ready(self, value: V) -> Result<CacheHandle<'a, K, V, R, F>, Refusal>
        requires fits { F.fits self.key value }
        ensures key { IfOk result (λ h. h.key ≡ self.entry.key) }
        ensures charge { IfOk result (λ h. h.charge ≡ Some self.entry.charge) }
        ensures value { IfOk result (λ h. h.value ≡ value) }
        ensures fits { IfOk result (λ h. F.fits h.key h.value) }
        ensures refused { IfErr result (λ e. e ≡ Refusal.Memory) }
    {
        let Self { making, key } = self;
        making.ready(&key, value)
    }

    /// `ready` with another charge than that with which the making was begun. Idle entries are
    /// evicted for it.
    ///
    /// Returns `Memory` as `ready` does, `Overflow` if the charge would take the total past
    /// `u64::MAX`, and `Full` if the limit is strict (`set_strict_limit`) and leaves no room for
    /// it. The making has failed then, and the value is dropped.
    pub fn ready_with(self, value: V, charge: u64) -> Result<CacheHandle<'a, K, V, R, F>, Refusal>
        requires charged { 0 < charge }
        requires fits { F.fits self.key value }
        ensures key { IfOk result (λ h. h.key ≡ self.entry.key) }
        ensures charge { IfOk result (λ h. h.charge ≡ Some charge) }
        ensures value { IfOk result (λ h. h.value ≡ value) }
        ensures fits { IfOk result (λ h. F.fits h.key h.value) }
        ensures never_stale { IfErr result (λ e. e ≢ Refusal.Stale) }
    {
        let Self { making, key } = self;
        making.ready_with(&key, value, charge)
    }
}

// Ends the making, which has failed.
impl<K: Hash + Eq + Clone + Drop, V: Drop, R: Wait, F: Fit<K, V>> Drop for Maker<'_, K, V, R, F> {
    fn drop(self) {
        let Self { making, key } = self;
        making.fail(&key);
    }
}

impl<'a, K: Hash + Eq + Clone + Drop, V: Drop, R: Wait, F: Fit<K, V>> Begun<'a, K, V, R, F> {
    // What a caller has that asked for this key and charge.
    fn of_lookup(lookup: Lookup<'a, K, V, R, F>, key: K, charge: u64) -> Self
        requires { IsLookupFor F.fits lookup key charge }
        ensures found { IfReady result
            (λ h. (h.key ≡ key) × (h.charge ≡ Some charge) × F.fits key h.value) }
        ensures making { IfMaking result (λ m. (m.key ≡ key) × (m.charge ≡ charge)) }
    {
        // Only the contract uses it.
        let _ = charge;
        match lookup {
            Lookup::Make(making) => Begun::Make(Maker { making, key }),
            Lookup::Hit(handle) => Begun::Hit(handle),
        }
    }
}

impl<K: Hash + Eq + Clone + Drop, V: Drop, R: Wait, F: Fit<K, V>> LruCache<K, V, R, F> {
    /// Returns a handle of the key's value if it is ready, and otherwise begins the making of the
    /// value. Waits while another caller makes it; if that making fails, this call may take it
    /// over.
    ///
    /// The charge is counted, and idle entries are evicted for it, before the value is made, and
    /// `Maker::ready_with` may tell another. An entry that is present keeps its charge.
    ///
    /// Returns `Overflow` if the charge of a new entry would take the total past `u64::MAX`, if
    /// there are no stamps left, or if the entry has the maximum number of pins; `Full` if the
    /// limit is strict (`set_strict_limit`) and leaves no room for a new entry; and `Memory` if a
    /// new entry or the copy of the value is refused. Then no entry changed, except that a call
    /// that waited has released its pin.
    pub fn begin(&self, key: K, charge: u64) -> Result<Begun<'_, K, V, R, F>, Refusal>
        requires charged { 0 < charge }
        ensures found { IfOk result (λ begun. IfReady begun
            (λ h. (h.key ≡ key) × (h.charge ≡ Some charge) × F.fits key h.value)) }
        ensures making { IfOk result (λ begun. IfMaking begun
            (λ m. (m.key ≡ key) × (m.charge ≡ charge))) }
        ensures never_stale { IfErr result (λ e. e ≢ Refusal.Stale) }
    {
        let lookup = self.door.begin(&key, charge)?;
        Ok(Begun::of_lookup(lookup, key, charge))
    }

    /// `begin`, but never waits: returns `None` if another caller is making the value. Nothing is
    /// pinned then, and it counts as a miss, as a `get` does that finds no value.
    ///
    /// Returns `Overflow`, `Full` and `Memory` as `begin` does.
    pub fn try_begin(&self, key: K, charge: u64) -> Result<Option<Begun<'_, K, V, R, F>>, Refusal>
        requires charged { 0 < charge }
        ensures found { IfOk result (λ begun. IfSome begun (λ begun. IfReady begun
            (λ h. (h.key ≡ key) × (h.charge ≡ Some charge) × F.fits key h.value))) }
        ensures making { IfOk result (λ begun. IfSome begun (λ begun. IfMaking begun
            (λ m. (m.key ≡ key) × (m.charge ≡ charge)))) }
        ensures never_stale { IfErr result (λ e. e ≢ Refusal.Stale) }
    {
        match self.door.try_begin(&key, charge)? {
            Some(lookup) => Ok(Some(Begun::of_lookup(lookup, key, charge))),
            None => Ok(None),
        }
    }
}
