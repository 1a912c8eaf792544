//! The calls of C that open caches, those on caches that take no key, and those on chains.
ghost use Rattle.std.specs.Prelude.{◌≡◌, ◌==◌, ⊤, false, true, None, Some, MatchBool};
ghost use Rattle.concurrent_lru.specs.Cache.{count_of, most_pins_by_default, pinned_of, sum_of};
ghost use Rattle.concurrent_lru.specs.Request as ask;
ghost use Rattle.lru_c.specs.Calls.{Asks, AsksInto, FreesInto, Into, Numbers, OpensCache, ReadiesInto, Reserves, TellsStats};
ghost use Rattle.lru_c.specs.Chains.{chain_code, IsEmpty, PopsOpen};
ghost use Rattle.lru_c.specs.Codes as codes;
ghost use Rattle.lru_c.specs.Entries.{EntriesOf, EntryOf};
ghost use Rattle.lru_c.specs.Opened.{number_of, Opens};
ghost use Rattle.lru_c.specs.Told.{bare, request_of};

use crate::any_cache::AnyCache;
use crate::chain::AnyChain;
use crate::chain_calls::empty_chain;
use crate::entries::LruEntry;
use crate::handle::{Handle, open_new, take};
use crate::handles::{LruCache, LruChain};
use crate::steps::{Number, Step};
use crate::told::{LruGone, LruPin, LruStats, LruTold};
use crate::{chain_calls, code};
use std::alloc::Global;

/// Opens an empty cache whose keys are of the kind `keys`, one of those of `kind`. An entry may
/// have up to `u32::MAX` pins, and the first entry gets the stamp 0. Keys are hashed with `seed`;
/// only the hashes of pins depend on it.
///
/// Returns `NO_KIND` if there is no such kind, `OPEN` if the handle is already open, and `MEMORY`
/// if the allocator refuses. The handle is unchanged then.
#[unsafe(no_mangle)]
pub extern "C" fn lru_cache_new(
    alloc: Global,
    keys: u32,
    capacity: u64,
    seed: u64,
    out: &mut LruCache,
) -> u32
    ensures { OpensCache keys capacity most_pins_by_default 0 out.old result out.new }
{
    lru_cache_new_with_limits(alloc, keys, capacity, 0, u32::MAX, seed, out)
}

/// Opens an empty cache whose keys are of the kind `keys`, whose first entry gets the stamp
/// `first_stamp`, and whose entries have at most `most_pins` pins each. Keys are hashed with
/// `seed`; only the hashes of pins depend on it.
///
/// Returns `NO_PINS` if `most_pins` is 0, `NO_KIND` if there is no such kind, `OPEN` if the handle
/// is already open, and `MEMORY` if the allocator refuses. The handle is unchanged then.
#[unsafe(no_mangle)]
pub extern "C" fn lru_cache_new_with_limits(
    alloc: Global,
    keys: u32,
    capacity: u64,
    first_stamp: u64,
    most_pins: u32,
    seed: u64,
    out: &mut LruCache,
) -> u32
    ensures { MatchBool (most_pins == 0)
        ((result ≡ codes.no_pins) × (out.new.cache.held ≡ out.old.cache.held))
        (OpensCache keys capacity most_pins first_stamp out.old result out.new) }
{
    if most_pins == 0 {
        return code::NO_PINS;
    }
    match AnyCache::new(alloc, keys, capacity, first_stamp, most_pins, seed) {
        Some(cache) => open_new(alloc, cache, out.is_open == 1, out),
        None => code::NO_KIND,
    }
}

/// Frees a cache, closes its handle, and puts its entries that have a value into a chain: the idle
/// ones, oldest first, followed by the held ones, in no particular order.
///
/// Returns `CLOSED` if the cache or chain is not open, and `NOT_EMPTY` if the chain has entries.
#[unsafe(no_mangle)]
pub extern "C" fn lru_cache_free(cache: &mut LruCache, left: &mut LruChain) -> u32
    ensures { FreesInto left.old left.new result cache.old cache.new }
{
    let chain = match empty_chain(left) {
        Ok(chain) => chain,
        Err(code) => return code,
    };
    let Some(mut taken) = take(cache) else {
        return code::CLOSED;
    };
    taken.take_all(chain);
    code::DONE
}

/// Asks again for a value that was being made. Returns `MAKE` if its maker has failed.
///
/// Returns `STALE` if no held entry has the stamp of the pin, and `CLOSED` if the cache is not
/// open; nothing changes then.
#[unsafe(no_mangle)]
pub extern "C" fn lru_cache_poll(cache: &mut LruCache, pin: LruPin) -> LruTold
    ensures { Asks cache.old.cache.held (λ K. ask.poll pin.stamp) result cache.new.cache.held }
{
    let Some(cache) = cache.get_mut() else {
        return LruTold::bare(code::CLOSED);
    };
    cache.poll(pin)
}

/// Stores the value of an entry that is being made. Takes the fields of its pin.
///
/// Returns `STALE` if no entry is being made under the stamp, and `CLOSED` if the cache is not
/// open. Nothing changes then, and the value is not taken.
#[unsafe(no_mangle)]
pub extern "C" fn lru_cache_ready_at(
    cache: &mut LruCache,
    stamp: u64,
    hash: u64,
    place: usize,
    value: u64,
) -> u32
    ensures { Asks cache.old.cache.held (λ K. ask.ready stamp value) (bare result)
        cache.new.cache.held }
{
    let pin = LruPin { stamp, hash, place };
    match cache.get_mut() {
        Some(cache) => cache.ready(pin, value),
        None => code::CLOSED,
    }
}

/// Stores the value of an entry that is being made, with a charge that takes the place of the one
/// with which it was begun. What that evicts is put into a chain, oldest first. Takes the fields of
/// the pin.
///
/// Returns `STALE` if no entry is being made under the stamp, `FULL` if the call is strict and the
/// charge, with the charges of the other held entries, is above the capacity, `OVERFLOW` if the
/// total would exceed `u64::MAX`, `NO_CHARGE` if the charge is 0, `CLOSED` if the cache or chain is
/// not open, and `NOT_EMPTY` if the chain has entries. Nothing changes then: in particular, nothing
/// is evicted, the entry is still being made, and the value is not taken.
#[unsafe(no_mangle)]
pub extern "C" fn lru_cache_ready_with_at(
    cache: &mut LruCache,
    stamp: u64,
    hash: u64,
    place: usize,
    value: u64,
    charge: u64,
    strict: bool,
    gone: &mut LruChain,
) -> u32
    ensures { Into gone.old gone.new (bare result) cache.old cache.new
        (ReadiesInto strict stamp value charge (bare result)) }
{
    let pin = LruPin { stamp, hash, place };
    match empty_chain(gone) {
        Ok(chain) => match cache.get_mut() {
            Some(cache) => cache.ready_with(pin, value, charge, strict, chain),
            None => code::CLOSED,
        },
        Err(code) => code,
    }
}

/// Gives up a making and releases its pin. Returns `LEFT` if others wait, otherwise `REMOVED`.
///
/// Returns `STALE` if no entry is being made under the stamp, and `CLOSED` if the cache is not
/// open; nothing changes then.
#[unsafe(no_mangle)]
pub extern "C" fn lru_cache_fail(cache: &mut LruCache, pin: LruPin) -> u32
    ensures { Asks cache.old.cache.held (λ K. ask.fail pin.stamp) (bare result)
        cache.new.cache.held }
{
    match cache.get_mut() {
        Some(cache) => cache.fail(pin),
        None => code::CLOSED,
    }
}

/// Pins a ready entry once more, and returns `PINNED` with its pin and its value. The entry may be
/// held, detached or not, or idle.
///
/// Returns `STALE` if no ready entry has the stamp, `OVERFLOW` if the entry has the maximum number
/// of pins, and `CLOSED` if the cache is not open; nothing changes then.
#[unsafe(no_mangle)]
pub extern "C" fn lru_cache_repin(cache: &mut LruCache, pin: LruPin) -> LruTold
    ensures { Asks cache.old.cache.held (λ K. ask.repin pin.stamp) result cache.new.cache.held }
{
    match cache.get_mut() {
        Some(cache) => cache.repin(pin),
        None => LruTold::bare(code::CLOSED),
    }
}

/// Releases a pin of a ready entry. With its last pin the entry becomes the newest idle one, or is
/// evicted if it is detached. What is evicted is put into a chain, oldest first. Takes the fields
/// of the pin.
///
/// Returns `STALE` if no held and ready entry has the stamp, `CLOSED` if the cache or chain is not
/// open, and `NOT_EMPTY` if the chain has entries; nothing changes then.
#[unsafe(no_mangle)]
pub extern "C" fn lru_cache_release_at(
    cache: &mut LruCache,
    stamp: u64,
    hash: u64,
    place: usize,
    gone: &mut LruChain,
) -> u32
    ensures { Into gone.old gone.new (bare result) cache.old cache.new
        (AsksInto (λ K. ask.release stamp) (bare result)) }
{
    into_chain(cache, Step::Release(LruPin { stamp, hash, place }), gone)
}

/// Releases a pin of a ready entry as `release` does, but with its last pin the entry is evicted
/// into the chain.
///
/// Returns `STALE` if no held and ready entry has the stamp, `CLOSED` if the cache or chain is not
/// open, and `NOT_EMPTY` if the chain has entries; nothing changes then.
#[unsafe(no_mangle)]
pub extern "C" fn lru_cache_release_and_evict(
    cache: &mut LruCache,
    pin: LruPin,
    gone: &mut LruChain,
) -> u32
    ensures { Into gone.old gone.new (bare result) cache.old cache.new
        (AsksInto (λ K. ask.release_and_evict pin.stamp) (bare result)) }
{
    into_chain(cache, Step::ReleaseAndEvict(pin), gone)
}

/// Evicts every idle entry into a chain, oldest first.
///
/// Returns `CLOSED` if the cache or chain is not open, and `NOT_EMPTY` if the chain has entries;
/// nothing changes then.
#[unsafe(no_mangle)]
pub extern "C" fn lru_cache_prune(cache: &mut LruCache, gone: &mut LruChain) -> u32
    ensures { Into gone.old gone.new (bare result) cache.old cache.new
        (AsksInto (λ K. ask.prune) (bare result)) }
{
    into_chain(cache, Step::Prune, gone)
}

/// Sets the capacity, and evicts idle entries into a chain while the total is above it.
///
/// Returns `CLOSED` if the cache or chain is not open, and `NOT_EMPTY` if the chain has entries;
/// nothing changes then.
#[unsafe(no_mangle)]
pub extern "C" fn lru_cache_set_capacity(cache: &mut LruCache, to: u64, gone: &mut LruChain) -> u32
    ensures { Into gone.old gone.new (bare result) cache.old cache.new
        (AsksInto (λ K. ask.set_capacity to) (bare result)) }
{
    into_chain(cache, Step::SetCapacity(to), gone)
}

// Takes a step of a cache that puts what it evicts into a chain.
#[inline(always)]
fn into_chain(cache: &mut LruCache, step: Step, gone: &mut LruChain) -> u32
    ensures { Into gone.old gone.new (bare result) cache.old cache.new
        (AsksInto (λ K. request_of step) (bare result)) }
{
    match empty_chain(gone) {
        Ok(chain) => match cache.get_mut() {
            Some(cache) => cache.take(step, chain),
            None => code::CLOSED,
        },
        Err(code) => code,
    }
}

/// Reserves room for a total of `entries` entries.
///
/// Returns `MEMORY` if the allocator refuses, and `CLOSED` if the cache is not open. No entry
/// changes in any case.
#[unsafe(no_mangle)]
pub extern "C" fn lru_cache_reserve(cache: &mut LruCache, entries: usize) -> u32
    ensures { Reserves cache.old.cache.held result cache.new.cache.held }
{
    match cache.get_mut() {
        Some(cache) => cache.reserve(entries),
        None => code::CLOSED,
    }
}

/// Returns the sum of the charges of all entries, or `CLOSED` if the cache is not open.
#[unsafe(no_mangle)]
pub extern "C" fn lru_cache_total(cache: &mut LruCache) -> LruTold
    ensures { Numbers cache.old.cache.held (λ K. sum_of) result cache.new.cache.held }
{
    tell(cache, Number::Total)
}

/// Returns the sum of the charges of the held entries, or `CLOSED` if the cache is not open.
#[unsafe(no_mangle)]
pub extern "C" fn lru_cache_pinned_charge(cache: &mut LruCache) -> LruTold
    ensures { Numbers cache.old.cache.held (λ K. pinned_of) result cache.new.cache.held }
{
    tell(cache, Number::PinnedCharge)
}

/// Returns the capacity, or `CLOSED` if the cache is not open.
#[unsafe(no_mangle)]
pub extern "C" fn lru_cache_capacity(cache: &mut LruCache) -> LruTold
    ensures { Numbers cache.old.cache.held (λ K c. c.capacity) result cache.new.cache.held }
{
    tell(cache, Number::Capacity)
}

/// Returns the number of entries, held and idle, or `CLOSED` if the cache is not open.
#[unsafe(no_mangle)]
pub extern "C" fn lru_cache_len(cache: &mut LruCache) -> LruTold
    ensures { Numbers cache.old.cache.held (λ K. count_of) result cache.new.cache.held }
{
    tell(cache, Number::Len)
}

fn tell(cache: &mut LruCache, which: Number) -> LruTold
    ensures { Numbers cache.old.cache.held (λ K. number_of which) result cache.new.cache.held }
{
    match cache.get_mut() {
        Some(cache) => cache.tell(which),
        None => LruTold::bare(code::CLOSED),
    }
}

/// Writes counts of what the calls on a cache have returned since it was opened, and what it holds.
///
/// Returns `CLOSED` if the cache is not open; nothing is written then.
#[unsafe(no_mangle)]
pub extern "C" fn lru_cache_stats(cache: &mut LruCache, out: &mut LruStats) -> u32
    ensures told { TellsStats cache.old.cache.held result out.new cache.new.cache.held }
    ensures kept { MatchBool (result == codes.done) ⊤ (out.new ≡ out.old) }
{
    let Some(cache) = cache.get_mut() else {
        return code::CLOSED;
    };
    *out = cache.stats();
    code::DONE
}

/// Writes the entry of a pin: its value, its charge, and how many pins it has. The pin may have
/// been released, as long as the entry is in the cache.
///
/// Returns `STALE` if no entry with a value has the stamp of the pin, and `CLOSED` if the cache is
/// not open; nothing is written then.
#[unsafe(no_mangle)]
pub extern "C" fn lru_cache_entry(cache: &mut LruCache, pin: LruPin, out: &mut LruEntry) -> u32
    ensures told { EntryOf cache.old.cache.held pin.stamp result out.new cache.new.cache.held }
    ensures kept { MatchBool (result == codes.done) ⊤ (out.new ≡ out.old) }
{
    match cache.get_mut() {
        Some(cache) => cache.write_entry(pin, out),
        None => code::CLOSED,
    }
}

/// Writes all entries that have a value to the start of a buffer, each once, in no particular
/// order: `NUMBER` with how many there are. No entry is pinned or moved.
///
/// Returns `NO_ROOM` with the number of all entries if the buffer is too small, and `CLOSED` if the
/// cache is not open. After `NO_ROOM` the buffer has some of the entries.
#[unsafe(no_mangle)]
pub extern "C" fn lru_cache_entries_nonnull(cache: &mut LruCache, out: &mut [LruEntry]) -> LruTold
    ensures { EntriesOf cache.old.cache.held result out.old out.new cache.new.cache.held }
{
    match cache.get_mut() {
        Some(cache) => cache.write_entries(out),
        None => LruTold::bare(code::CLOSED),
    }
}

/// Opens an empty chain.
///
/// Returns `OPEN` if the handle is already open, or `MEMORY`; the handle is unchanged then.
#[unsafe(no_mangle)]
pub extern "C" fn lru_chain_new(alloc: Global, out: &mut LruChain) -> u32
    ensures { Opens (out.old.is_open == 1) out.old.chain.held IsEmpty result out.new.chain.held }
{
    open_new(alloc, AnyChain::none(), out.is_open == 1, out)
}

/// Frees an empty chain and closes its handle.
///
/// Returns `NOT_EMPTY` if the chain has entries, and `CLOSED` if it is not open; nothing changes
/// then.
#[unsafe(no_mangle)]
pub extern "C" fn lru_chain_free(chain: &mut LruChain) -> u32
    ensures code { result ≡ chain_code chain.old.chain.held }
    ensures chain { MatchBool (result == codes.done) (chain.new.chain.held ≡ None)
        (chain.new.chain.held ≡ chain.old.chain.held) }
{
    let code = chain_calls::emptiness_code(chain);
    if code == code::DONE {
        drop(take(chain));
    }
    code
}

/// Takes the first entry out of a chain. Returns false if none is left or the chain is not open.
#[unsafe(no_mangle)]
pub extern "C" fn lru_chain_pop(chain: &mut LruChain, out: &mut LruGone) -> bool
    ensures { MatchBool result
        (PopsOpen chain.old.chain.held (Some out.new) chain.new.chain.held)
        (PopsOpen chain.old.chain.held None chain.new.chain.held × (out.new ≡ out.old)) }
{
    let Some(chain) = chain.get_mut() else {
        return false;
    };
    // Most calls evict nothing, so this returns before registers are saved for the rest.
    if chain.emptiness_code() == code::DONE {
        return false;
    }
    match chain.pop() {
        Some(gone) => {
            *out = gone;
            true
        }
        None => false,
    }
}

/// Returns whether a chain has no entries or is not open.
#[unsafe(no_mangle)]
pub extern "C" fn lru_chain_is_empty(chain: &mut LruChain) -> bool
    ensures same { chain.new.chain.held ≡ chain.old.chain.held }
    ensures empty { MatchBool (chain_code chain.old.chain.held == codes.not_empty)
        (result ≡ false) (result ≡ true) }
{
    chain_calls::emptiness_code(chain) != code::NOT_EMPTY
}
