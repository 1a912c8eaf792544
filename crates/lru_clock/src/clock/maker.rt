//! Makings that their callers begin and end by calls of their own, without a closure.
ghost use Rattle.std.specs.Prelude.{◌≡◌, ◌≢◌, ◌<◌, Some, IfErr, IfOk, IfSome};
ghost use Rattle.lru_clock.specs.Beginnings.{IfMaking, IfReady};
ghost use Rattle.lru_clock.specs.Shards.{IsBookOf};
ghost use Rattle.lru_clock.specs.Turns.{IfHit};

use crate::clock::{Cache, CacheHandle};
use crate::makings::Ticket;
use crate::shard::{Shard, Turn};
use concurrent_lru::fit::{Anything, Fit};
use concurrent_lru::sharded::Refusal;
use std::hash::{BuildHasher, Hash};
use std::marker::Model;
use std::sync::Wait;

/// What `begin` and `try_begin` found.
#[derive(Drop)]
pub enum Begun<'a, K: Hash + Eq + Clone + Drop, V: Drop, R: Wait, F: Fit<K, V> = Anything> {
    /// The value is ready.
    Hit(CacheHandle<'a, K, V, R, F>),
    /// The caller makes the value. Callers that ask for the key with `get_or_init` and the like
    /// wait meanwhile.
    Make(Maker<'a, K, V, R, F>),
}

/// The making of a key's value, by the caller who has this maker. `ready` ends it. If the maker is
/// dropped instead, the making has failed, and one of those that wait for the value makes it. A
/// maker that is forgotten makes them wait forever.
///
/// Clauses see the key, the charge with which the making was begun, and whose history the entry
/// will be in (`book`).
pub struct Maker<'a, K: Hash + Eq + Clone, V, R: Wait, F: Fit<K, V> = Anything> {
    rt: &'a R,
    shard: &'a Shard<K, V, F>,
    tag: u32,
    key: K,
    charge: u64,
    ticket: Ticket<K, V>,
    ghost charged: { 0 < charge },
}

impl<'a, K: Hash + Eq + Clone, V, R: Wait, F: Fit<K, V>> Model for Maker<'a, K, V, R, F> {
    ghost use Rattle.lru_clock.specs.Makers.{MakerOf};

    ghost Value = { MakerOf K };

    ghost view = { λ m. record {
      key = m.key;
      charge = m.charge;
      book = m.shard.now.core.store.chronicle.first.book;
    } };
}

impl<'a, K: Hash + Eq + Clone + Drop, V: Drop, R: Wait, F: Fit<K, V>> Maker<'a, K, V, R, F> {
    /// Makes `value` the key's value, which those that wait for it get too, and returns a handle of
    /// it. If the key was invalidated meanwhile, only this caller gets the value.
    ///
    /// Returns `Overflow` if the charge would take the shard's total past `u64::MAX`, `Full` if the
    /// limit is strict and others have taken the room meanwhile, and `Memory` if a copy of the key
    /// or a slot is refused. The making has failed then, and the value is dropped.
    pub fn ready(self, value: V) -> Result<CacheHandle<'a, K, V, R, F>, Refusal>
        requires fits { F.fits self.key value }
        ensures key { IfOk result (λ h. h.key ≡ self.entry.key) }
        ensures charge { IfOk result (λ h. h.charge ≡ Some self.entry.charge) }
        ensures value { IfOk result (λ h. h.value ≡ value) }
        ensures stored { IfOk result (λ h. h.stored ≡ Some self.entry.charge) }
        ensures fits { IfOk result (λ h. F.fits h.key h.value) }
        ensures book { IfOk result (λ h. h.book ≡ self.entry.book) }
        ensures never_stale { IfErr result (λ e. e ≢ Refusal.Stale) }
    {
        let charge = self.charge;
        self.ready_with(value, charge)
    }

    /// `ready` with another charge than that with which the making was begun.
    ///
    /// Returns `Overflow`, `Full` and `Memory` as `ready` does.
    pub fn ready_with(self, value: V, charge: u64) -> Result<CacheHandle<'a, K, V, R, F>, Refusal>
        requires charged { 0 < charge }
        requires fits { F.fits self.key value }
        ensures key { IfOk result (λ h. h.key ≡ self.entry.key) }
        ensures charge { IfOk result (λ h. h.charge ≡ Some charge) }
        ensures value { IfOk result (λ h. h.value ≡ value) }
        ensures stored { IfOk result (λ h. h.stored ≡ Some charge) }
        ensures fits { IfOk result (λ h. F.fits h.key h.value) }
        ensures book { IfOk result (λ h. h.book ≡ self.entry.book) }
        ensures never_stale { IfErr result (λ e. e ≢ Refusal.Stale) }
    {
        let Self {
            rt,
            shard,
            tag,
            key,
            charge: _,
            ticket,
        } = self;
        let found = shard.finish(rt, tag, &key, charge, value, ticket)?;
        Ok(CacheHandle::new(rt, shard, found, Some(charge)))
    }
}

// Ends the making, which has failed.
impl<K: Hash + Eq + Clone + Drop, V: Drop, R: Wait, F: Fit<K, V>> Drop for Maker<'_, K, V, R, F> {
    fn drop(self) {
        let Self {
            rt,
            shard,
            tag: _,
            key: _,
            charge: _,
            ticket,
        } = self;
        shard.fail(rt, ticket);
    }
}

impl<K: Hash + Eq + Clone + Drop, V: Drop, R: Wait, S: BuildHasher, F: Fit<K, V>> Cache<
    K,
    V,
    R,
    S,
    F,
> {
    /// Returns a handle of the key's value if it is ready, and otherwise begins the making of the
    /// value. Waits while another caller makes it; if that making fails or is invalidated, this
    /// call begins another. The charge is that of the value, unless `Maker::ready_with` tells
    /// another.
    ///
    /// Returns `Overflow` if the entry has the maximum number of pins or the charge would take the
    /// shard's total past `u64::MAX`, `Full` if the limit is strict (`set_strict_limit`) and leaves
    /// no room for the charge, and `Memory` if there is none to record the making.
    pub fn begin(&self, key: K, charge: u64) -> Result<Begun<'_, K, V, R, F>, Refusal>
        requires charged { 0 < charge }
        ensures found { IfOk result (λ begun. IfReady begun
            (λ h. (h.key ≡ key) × (h.charge ≡ Some charge) × F.fits key h.value)) }
        ensures found_book { IfOk result (λ begun. IfReady begun (λ h.
            IsBookOf S.BuildHasher S.Hasher.Hasher K.hash_input self.now key h.book)) }
        ensures making { IfOk result (λ begun. IfMaking begun
            (λ m. (m.key ≡ key) × (m.charge ≡ charge))) }
        ensures making_book { IfOk result (λ begun. IfMaking begun (λ m.
            IsBookOf S.BuildHasher S.Hasher.Hasher K.hash_input self.now key m.book)) }
        ensures never_stale { IfErr result (λ e. e ≢ Refusal.Stale) }
    {
        let (shard, tag) = self.route(&key);
        let turn = shard.enter(&self.rt, tag, &key, charge)?;
        Ok(Begun::of_turn(&self.rt, shard, tag, key, charge, turn))
    }

    /// `begin`, but never waits: returns `None` if another caller is making the value.
    ///
    /// Returns `Overflow`, `Full` and `Memory` as `begin` does.
    pub fn try_begin(&self, key: K, charge: u64) -> Result<Option<Begun<'_, K, V, R, F>>, Refusal>
        requires charged { 0 < charge }
        ensures found { IfOk result (λ begun. IfSome begun (λ begun. IfReady begun
            (λ h. (h.key ≡ key) × (h.charge ≡ Some charge) × F.fits key h.value))) }
        ensures found_book { IfOk result (λ begun. IfSome begun (λ begun. IfReady begun (λ h.
            IsBookOf S.BuildHasher S.Hasher.Hasher K.hash_input self.now key h.book))) }
        ensures making { IfOk result (λ begun. IfSome begun (λ begun. IfMaking begun
            (λ m. (m.key ≡ key) × (m.charge ≡ charge)))) }
        ensures making_book { IfOk result (λ begun. IfSome begun (λ begun. IfMaking begun (λ m.
            IsBookOf S.BuildHasher S.Hasher.Hasher K.hash_input self.now key m.book))) }
        ensures never_stale { IfErr result (λ e. e ≢ Refusal.Stale) }
    {
        let (shard, tag) = self.route(&key);
        match shard.try_enter(&self.rt, tag, &key, charge)? {
            Some(turn) => Ok(Some(Begun::of_turn(&self.rt, shard, tag, key, charge, turn))),
            None => Ok(None),
        }
    }
}

impl<'a, K: Hash + Eq + Clone + Drop, V: Drop, R: Wait, F: Fit<K, V>> Begun<'a, K, V, R, F> {
    // What a caller with this turn has.
    fn of_turn(
        rt: &'a R,
        shard: &'a Shard<K, V, F>,
        tag: u32,
        key: K,
        charge: u64,
        turn: Turn<'a, K, V, F>,
    ) -> Self
        requires charged { 0 < charge }
        requires pin { IfHit turn (λ p. (p.key ≡ key) × F.fits key p.value) }
        requires book { IfHit turn (λ p. p.book ≡ shard.now.core.store.chronicle.first.book) }
        ensures found { IfReady result
            (λ h. (h.key ≡ key) × (h.charge ≡ Some charge) × F.fits key h.value) }
        ensures found_book { IfReady result
            (λ h. h.book ≡ shard.now.core.store.chronicle.first.book) }
        ensures making { IfMaking result (λ m. (m.key ≡ key) × (m.charge ≡ charge)) }
        ensures making_book { IfMaking result
            (λ m. m.book ≡ shard.now.core.store.chronicle.first.book) }
    {
        match turn {
            Turn::Hit(found) => Begun::Hit(CacheHandle::new(rt, shard, found, Some(charge))),
            Turn::Make(ticket) => Begun::Make(Maker {
                rt,
                shard,
                tag,
                key,
                charge,
                ticket,
            }),
        }
    }
}
