//! Handles, each of which pins the value that it reads.
//!
//! Reading a handle acquires no lock. Dropping one seldom does: see its `Drop`.
ghost use Rattle.std.specs.Prelude.{◌≡◌, ◌≢◌, IfOk, IfErr};
ghost use Rattle.lru_clock.specs.Hits.{HasArrived};

use crate::history::Log;
use crate::shard::Shard;
use crate::store::{Hold, PinAt, Released};
use concurrent_lru::fit::{Anything, Fit};
use concurrent_lru::sharded::Refusal;
use concurrent_lru::shown::Shown;
use std::fmt;
use std::hash::Hash;
use std::marker::Model;
use std::ops::Deref;
use std::sync::Wait;

/// A pinned value: its entry is neither freed nor evicted while the handle exists. A handle that is
/// forgotten keeps its pin forever.
///
/// A handle may be sent to other threads and shared with them if keys, values, the mark and the
/// right to wait may be.
///
/// Clauses see the key and the charge that the caller asked for (`get` asks for no charge), and the
/// value, which fits that key by the mark `F`. If the call stored the entry, they see the charge
/// that counts for it (`stored`). They also see a prefix of the history of the key's shard, within
/// which the entry was stored (`log`), and whose history it is (`book`).
pub struct CacheHandle<'a, K: Hash + Eq + Clone, V, R: Wait, F: Fit<K, V> = Anything> {
    rt: &'a R,
    shard: &'a Shard<K, V, F>,
    found: PinAt<'a, K, V, F>,
    charge: Shown<Option<u64>>,
}

impl<'a, K: Hash + Eq + Clone, V, R: Wait, F: Fit<K, V>> Model for CacheHandle<'a, K, V, R, F> {
    ghost use Rattle.lru_clock.specs.Pins.{HandleOf};

    ghost Value = { HandleOf K V };

    ghost view = { λ h. record {
      key = h.found.pin.key;
      charge = h.charge.value;
      value = h.found.pin.value;
      stored = h.found.pin.stored;
      book = h.found.pin.book;
      log = h.found.pin.log;
    } };
}

impl<'a, K: Hash + Eq + Clone, V, R: Wait, F: Fit<K, V>> CacheHandle<'a, K, V, R, F> {
    // Creates a handle from a pin and the shard of its entry.
    #[inline(always)]
    pub(crate) fn new(
        rt: &'a R,
        shard: &'a Shard<K, V, F>,
        found: PinAt<'a, K, V, F>,
        charge: Option<u64>,
    ) -> Self
        ensures key { result.key ≡ found.entry.pin.key }
        ensures charge { result.charge ≡ charge }
        ensures value { result.value ≡ found.entry.pin.value }
        ensures stored { result.stored ≡ found.entry.pin.stored }
        ensures seen { (result.book ≡ found.entry.pin.book)
            × (result.log ≡ found.entry.pin.log) }
    {
        CacheHandle {
            rt,
            shard,
            found,
            charge: Shown::of(&charge),
        }
    }

    /// Returns the prefix of the history that the handle's call saw. The entry was stored within
    /// it.
    pub(crate) fn seen(&self) -> Log<K, V>
        ensures seen { (result.book ≡ self.now.book) × (result.log ≡ self.now.log) }
        ensures arrived { HasArrived K.eq self.now.log self.now.key self.now.value }
    {
        self.found.pin.seen()
    }

    /// Returns the value. Acquires no lock.
    #[inline(always)]
    pub fn value(&self) -> &V
        ensures value { result.now ≡ self.now.value }
        ensures fits { F.fits self.now.key result.now }
    {
        self.found.pin.value()
    }
}

impl<'a, K: Hash + Eq + Clone + Drop, V: Drop, R: Wait, F: Fit<K, V>> CacheHandle<'a, K, V, R, F> {
    /// Holds the entry for a handle that borrows nothing, and returns the charge that was asked for
    /// too.
    ///
    /// Returns `Overflow` if the entry has the maximum number of such handles.
    pub(crate) fn hold(&self) -> Result<(Hold<K, V, F>, Shown<Option<u64>>), Refusal>
        ensures key { IfOk result (λ held. held.0.key ≡ self.now.key) }
        ensures charge { IfOk result (λ held. held.1.value ≡ self.now.charge) }
        ensures value { IfOk result (λ held. held.0.value ≡ self.now.value) }
        ensures stored { IfOk result (λ held. held.0.stored ≡ self.now.stored) }
        ensures seen { IfOk result
            (λ held. (held.0.book ≡ self.now.book) × (held.0.log ≡ self.now.log)) }
        ensures refused { IfErr result (λ e. e ≡ Refusal.Overflow) }
    {
        let most_holds = self.shard.core.most_pins;
        let hold = self.found.pin.hold(self.found.place, most_holds)?;
        Ok((hold, self.charge.again()))
    }

    /// Returns another handle of the same value, which pins its entry once more, even after an
    /// `invalidate` of its key. No key is looked up, and this counts as no use of the entry.
    /// Acquires no lock, and takes no memory.
    ///
    /// Returns `Overflow` if the entry has the maximum number of pins; then nothing is pinned.
    pub fn try_clone(&self) -> Result<CacheHandle<'a, K, V, R, F>, Refusal>
        ensures key { IfOk result (λ h. h.key ≡ self.now.key) }
        ensures charge { IfOk result (λ h. h.charge ≡ self.now.charge) }
        ensures value { IfOk result (λ h. h.value ≡ self.now.value) }
        ensures stored { IfOk result (λ h. h.stored ≡ self.now.stored) }
        ensures fits { IfOk result (λ h. F.fits h.key h.value) }
        ensures book { IfOk result (λ h. h.book ≡ self.now.book) }
        ensures never_stale { IfErr result (λ e. e ≢ Refusal.Stale) }
    {
        let pin = self.found.pin.again(self.shard.core.most_pins)?;
        Ok(CacheHandle {
            rt: self.rt,
            shard: self.shard,
            found: PinAt {
                place: self.found.place,
                pin,
            },
            charge: self.charge.again(),
        })
    }
}

impl<'a, K: Hash + Eq + Clone, V, R: Wait, F: Fit<K, V>> Deref for CacheHandle<'a, K, V, R, F> {
    type Target = V;

    ghost deref_gives = { λ h v. v ≡ h.value };

    #[inline(always)]
    fn deref(&self) -> &V
        ensures value { result.now ≡ self.now.value }
        ensures fits { F.fits self.now.key result.now }
    {
        self.value()
    }
}

// Prints what the value prints.
impl<'a, K: Hash + Eq + Clone, V: fmt::Debug, R: Wait, F: Fit<K, V>> fmt::Debug
    for CacheHandle<'a, K, V, R, F> {
    ghost debug_output = { λ h. V.debug_output h.value };

    fn fmt<W: fmt::Write>(&self, f: &mut fmt::Formatter<W>) -> fmt::Result {
        fmt::Debug::fmt(self.value(), f)
    }
}

// Releases the pin without a lock. If that was the last pin of an invalidated entry, removes the
// entry under the lock. If it was the last pin of any other entry and the total is above the
// capacity, evicts down to the capacity, unless another caller has the lock.
impl<K: Hash + Eq + Clone + Drop, V: Drop, R: Wait, F: Fit<K, V>> Drop
    for CacheHandle<'_, K, V, R, F> {
    #[inline(always)]
    fn drop(self) {
        let Self {
            rt,
            shard,
            found,
            charge: _,
        } = self;
        let PinAt { place, pin } = found;
        match pin.release() {
            Released::Pinned => {}
            Released::Idle => shard.settle_if_above(),
            Released::Invalidated => shard.take_invalidated(rt, place),
        }
    }
}
