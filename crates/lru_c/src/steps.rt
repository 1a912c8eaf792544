//! The steps of a cache of words, for any type of key. Each takes one step of the core and returns
//! its answer as C gets it.
ghost use Rattle.std.specs.Prelude.{◌≡◌, ◌<◌, ◌==◌, ◌⊎◌, [], MatchBool};
ghost use Rattle.concurrent_lru.specs.Request as ask;
ghost use Rattle.lru_c.specs.Codes as codes;
ghost use Rattle.lru_c.specs.Inserts.{TellsInsertBy, TellsInserted};
ghost use Rattle.lru_c.specs.Opened.{number_of, TellsReady};
ghost use Rattle.lru_c.specs.Told.{bare, begin_by, begun_told, evict_by, failed_code, found_told, numbered, refusal_code, request_of, Asks, ReadiesWith, TellsBegun, TellsCharged, TellsReleased};

use crate::code;
use crate::told::{LruPin, LruTold};
use crate::values::{Begun, Evicted, State};
use concurrent_lru::lru_core::{Failed, Hint, Inserted, Refusal};
use concurrent_lru::share::ByCopy;
use std::hash::Hash;

pub(crate) fn begin<K: Hash + Eq + Clone>(
    state: &mut State<K>,
    key: &K,
    charge: u64,
    strict: bool,
) -> (LruTold, Evicted<K>)
    requires { 0 < charge }
    ensures { Asks K.eq state.old.cache (begin_by strict key.now charge) result.0 result.1
        state.new.cache }
{
    if strict {
        told_of_begin(state.begin_strictly_at(key, charge))
    } else {
        told_of_begin(state.begin_at(key, charge))
    }
}

// Returns the answer of a begin with this result, and what it evicted.
#[inline(always)]
fn told_of_begin<K: Drop>(
    outcome: Result<(Begun, Evicted<K>, Hint), Refusal>,
) -> (LruTold, Evicted<K>)
    ensures { TellsBegun outcome result.0 result.1 }
{
    match outcome {
        Ok((begun, gone, hint)) => (told_of_begun(begun, hint), gone),
        Err(refusal) => (LruTold::bare(code_of(refusal)), Evicted::none()),
    }
}

fn told_of_begun(begun: Begun, hint: Hint) -> LruTold
    ensures { result ≡ begun_told hint begun }
{
    match begun {
        Begun::Make(stamp) => LruTold::of(code::MAKE, LruPin::of(stamp, hint), 0),
        Begun::Wait(stamp) => LruTold::of(code::WAIT, LruPin::of(stamp, hint), 0),
        Begun::Hit(stamp, value) => LruTold::of(code::HIT, LruPin::of(stamp, hint), value),
    }
}

pub(crate) fn poll<K: Hash + Eq + Clone>(state: &mut State<K>, pin: LruPin) -> LruTold
    ensures { Asks K.eq state.old.cache (ask.poll pin.stamp) result [] state.new.cache }
{
    match state.poll_at(&pin.spot()) {
        Ok(begun) => told_of_begun(begun, pin.hint()),
        Err(refusal) => LruTold::bare(code_of(refusal)),
    }
}

pub(crate) fn ready<K: Hash + Eq + Clone>(state: &mut State<K>, pin: LruPin, value: u64) -> u32
    ensures { Asks K.eq state.old.cache (ask.ready pin.stamp value) (bare result) []
        state.new.cache }
{
    match state.ready_at(&pin.spot(), value) {
        Ok(()) => code::DONE,
        Err(_back) => code::STALE,
    }
}

// Stores a value with a charge, which takes the place of the one with which its entry was begun. If
// the call is strict and the capacity has no room for the charge beside the other held entries,
// stores nothing.
pub(crate) fn ready_with<K: Hash + Eq + Clone>(
    state: &mut State<K>,
    pin: LruPin,
    value: u64,
    charge: u64,
    strict: bool,
) -> (u32, Evicted<K>)
    ensures { ReadiesWith K.eq strict state.old.cache pin.stamp value charge (bare result.0)
        result.1 state.new.cache }
{
    if charge == 0 {
        return (code::NO_CHARGE, Evicted::none());
    }
    if strict {
        told_of_charged(state.ready_with_strictly_at(&pin.spot(), value, charge))
    } else {
        told_of_charged(state.ready_with_at(&pin.spot(), value, charge))
    }
}

// Returns the code of a `ready_with` with this result, and what it evicted.
#[inline(always)]
fn told_of_charged<K: Drop>(outcome: Result<Evicted<K>, (Refusal, u64)>) -> (u32, Evicted<K>)
    ensures { TellsCharged outcome result.0 result.1 }
{
    match outcome {
        Ok(gone) => (code::DONE, gone),
        Err((refusal, _back)) => (code_of(refusal), Evicted::none()),
    }
}

pub(crate) fn fail<K: Hash + Eq + Clone>(state: &mut State<K>, pin: LruPin) -> u32
    ensures { Asks K.eq state.old.cache (ask.fail pin.stamp) (bare result) [] state.new.cache }
{
    match state.fail_at(&pin.spot()) {
        Ok(failed) => code_of_failed(failed),
        Err(refusal) => code_of(refusal),
    }
}

fn code_of_failed<K: Drop>(failed: Failed<K>) -> u32
    ensures { result ≡ failed_code failed }
{
    match failed {
        Failed::Left => code::LEFT,
        Failed::Removed(_key) => code::REMOVED,
    }
}

pub(crate) fn get<K: Hash + Eq + Clone>(state: &mut State<K>, key: &K) -> LruTold
    ensures { Asks K.eq state.old.cache (ask.get key.now) result [] state.new.cache }
{
    match state.get_at(key) {
        Ok(found) => told_of_found(found),
        Err(refusal) => LruTold::bare(code_of(refusal)),
    }
}

fn told_of_found(found: Option<(u64, u64, Hint)>) -> LruTold
    ensures { result ≡ found_told found }
{
    match found {
        Some((stamp, value, hint)) => LruTold::of(code::HIT, LruPin::of(stamp, hint), value),
        None => LruTold::bare(code::MISSED),
    }
}

/// A step that takes no key and may evict.
#[derive(Clone, Copy)]
pub enum Step {
    /// Release a pin.
    Release(LruPin),
    /// Release a pin, and evict its entry with the last one.
    ReleaseAndEvict(LruPin),
    /// Evict every idle entry.
    Prune,
    /// Set the capacity.
    SetCapacity(u64),
}

#[inline(always)]
pub(crate) fn take<K: Hash + Eq + Clone>(state: &mut State<K>, step: Step) -> (u32, Evicted<K>)
    ensures { Asks K.eq state.old.cache (request_of step) (bare result.0) result.1
        state.new.cache }
{
    match step {
        Step::Release(pin) => told_of_release(state.release_at(&pin.spot())),
        Step::ReleaseAndEvict(pin) => told_of_release(state.release_and_evict_at(&pin.spot())),
        Step::Prune => (code::DONE, state.prune()),
        Step::SetCapacity(capacity) => (code::DONE, state.set_capacity(capacity)),
    }
}

// Returns the code of a release with this result, and what it evicted.
#[inline(always)]
fn told_of_release<K: Drop>(outcome: Result<Evicted<K>, Refusal>) -> (u32, Evicted<K>)
    ensures { TellsReleased outcome result.0 result.1 }
{
    match outcome {
        Ok(gone) => (code::DONE, gone),
        Err(refusal) => (code_of(refusal), Evicted::none()),
    }
}

pub(crate) fn repin<K: Hash + Eq + Clone>(state: &mut State<K>, pin: LruPin) -> LruTold
    ensures { Asks K.eq state.old.cache (ask.repin pin.stamp) result [] state.new.cache }
{
    match state.repin_at(&pin.spot()) {
        Ok(value) => LruTold::of(code::PINNED, pin, value),
        Err(refusal) => LruTold::bare(code_of(refusal)),
    }
}

// Evicts the entry of a key if it is idle. Detaches it if it is held, if `even_held` says so.
pub(crate) fn evict<K: Hash + Eq + Clone>(
    state: &mut State<K>,
    key: &K,
    even_held: bool,
) -> (u32, Evicted<K>)
    ensures { Asks K.eq state.old.cache (evict_by even_held key.now)
        (bare result.0) result.1 state.new.cache }
{
    if even_held {
        (code::DONE, state.invalidate(key))
    } else {
        (code::DONE, state.advice_evict(key))
    }
}

// Also returns what the new entry replaced, and what its charge evicted. If the insert is strict
// and the capacity has no room for the charge beside the held entries, inserts nothing.
pub(crate) fn insert<K: Hash + Eq + Clone>(
    state: &mut State<K>,
    key: &K,
    charge: u64,
    value: u64,
    strict: bool,
) -> (LruTold, (Evicted<K>, Evicted<K>))
    requires { 0 < charge }
    ensures { TellsInsertBy K.eq strict state.old.cache key.now charge value result.0 result.1.0
        result.1.1 state.new.cache }
{
    if strict {
        told_of_insert(state.insert_strictly_at(key, charge, value))
    } else {
        told_of_insert(state.insert_at(key, charge, value))
    }
}

// Returns the answer of an insert with this result, with what it replaced and what it evicted.
#[inline(always)]
fn told_of_insert<K: Drop>(
    outcome: Result<(Inserted<K, u64, ByCopy>, Hint), (Refusal, u64)>,
) -> (LruTold, (Evicted<K>, Evicted<K>))
    ensures { TellsInserted outcome result.0 result.1.0 result.1.1 }
{
    match outcome {
        Ok((inserted, hint)) => {
            let Inserted {
                stamp,
                replaced,
                evicted,
            } = inserted;
            let pin = LruPin::of(stamp, hint);
            let told = LruTold::of(code::DONE, pin, 0);
            (told, (replaced, evicted))
        }
        Err((refusal, _back)) => refused(code_of(refusal)),
    }
}

// Refuses an insert with a code: nothing was replaced or evicted.
pub(crate) fn refused<K: Drop>(code: u32) -> (LruTold, (Evicted<K>, Evicted<K>))
    ensures { (result.0 ≡ bare code) × (result.1.0 ≡ []) × (result.1.1 ≡ []) }
{
    (LruTold::bare(code), (Evicted::none(), Evicted::none()))
}

fn code_of(refusal: Refusal) -> u32
    ensures { result ≡ refusal_code refusal }
{
    match refusal {
        Refusal::Overflow => code::OVERFLOW,
        Refusal::Stale => code::STALE,
        Refusal::Memory => code::MEMORY,
        Refusal::Full => code::FULL,
    }
}

/// A number that a cache tells.
#[derive(Clone, Copy)]
pub enum Number {
    /// The sum of the charges of all entries.
    Total,
    /// The sum of the charges of the held entries.
    PinnedCharge,
    /// The capacity.
    Capacity,
    /// The number of entries.
    Len,
}

pub(crate) fn tell<K: Hash + Eq + Clone>(state: &State<K>, which: Number) -> LruTold
    ensures { result ≡ numbered codes.number (number_of which state.now.cache) }
{
    LruTold::number(code::NUMBER, read(state, which))
}

fn read<K: Hash + Eq + Clone>(state: &State<K>, which: Number) -> u64
    ensures { result ≡ number_of which state.now.cache }
{
    match which {
        Number::Total => state.total(),
        Number::PinnedCharge => state.pinned_charge(),
        Number::Capacity => state.capacity(),
        Number::Len => state.len() as u64,
    }
}

pub(crate) fn reserve<K: Hash + Eq + Clone>(state: &mut State<K>, entries: usize) -> u32
    ensures code { (result ≡ codes.done) ⊎ (result ≡ codes.memory) }
    ensures same { state.new.cache ≡ state.old.cache }
{
    match state.reserve(entries) {
        Ok(()) => code::DONE,
        Err(_) => code::MEMORY,
    }
}

pub(crate) fn contains<K: Hash + Eq + Clone>(state: &State<K>, key: &K) -> u32
    ensures { TellsReady K.eq state.now.cache key.now result }
{
    if state.contains(key) {
        code::DONE
    } else {
        code::MISSED
    }
}
