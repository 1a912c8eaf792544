//! The calls of C on caches whose keys are two words.
ghost use Rattle.std.specs.Prelude.{◌≡◌, ◌==◌, ⊤, MatchBool};
ghost use Rattle.concurrent_lru.specs.Request as ask;
ghost use Rattle.lru_c.specs.WordsCalls.{words, AsksByKey, Begins, Contains, Evicts, Inserts, IntoWords, KeyOf};
ghost use Rattle.lru_c.specs.Codes as codes;
ghost use Rattle.lru_c.specs.Told.{bare, evict_by};

pub mod cache;
pub mod key;

use crate::chain_calls::empty_chain;
use crate::handles::{LruCache, LruChain};
use crate::steps;
use crate::told::{LruPin, LruTold};
use crate::words::cache::{words_cache, write_key};
use crate::words::key::Words;

/// Asks for the value of a key and pins its entry, inserting one with this charge if there is none.
/// What the charge of a new entry evicts is put into a chain, oldest first. If the call is strict,
/// inserts no entry whose charge the capacity has no room for.
///
/// Returns `FULL` if the call is strict, the key has no entry, and the charge, with the charges of
/// the held entries, is above the capacity. Returns `NO_CHARGE` if the charge is 0, `CLOSED` if the
/// cache or chain is not open, `OTHER_KEYS` if the keys of the cache are not two words, `NOT_EMPTY`
/// if the chain has entries, and `OVERFLOW` or `MEMORY` as `lru.h` says. Nothing changes then: in
/// particular, nothing is evicted.
#[unsafe(no_mangle)]
pub extern "C" fn lru_words_begin(
    cache: &mut LruCache,
    first: u64,
    second: u64,
    charge: u64,
    strict: bool,
    gone: &mut LruChain,
) -> LruTold
    ensures { IntoWords gone.old gone.new result cache.old cache.new
        (Begins strict (words first second) charge result) }
{
    match empty_chain(gone) {
        Ok(chain) => match words_cache(cache) {
            Ok(cache) => chain.take_words(cache.begin(&Words { first, second }, charge, strict)),
            Err(code) => LruTold::bare(code),
        },
        Err(code) => LruTold::bare(code),
    }
}

/// Pins the entry of a key and returns its value, or returns `MISSED` if the key has no ready
/// value.
///
/// Returns `OVERFLOW` if the entry has the maximum number of pins, `CLOSED` if the cache is not
/// open, and `OTHER_KEYS` if its keys are not two words; nothing changes then.
#[unsafe(no_mangle)]
pub extern "C" fn lru_words_get(cache: &mut LruCache, first: u64, second: u64) -> LruTold
    ensures { AsksByKey (ask.get (words first second)) cache.old.cache.held result
        cache.new.cache.held }
{
    match words_cache(cache) {
        Ok(cache) => cache.get(&Words { first, second }),
        Err(code) => LruTold::bare(code),
    }
}

/// Returns `DONE` if a key has a ready value, otherwise `MISSED`. Pins nothing and moves nothing.
///
/// Returns `CLOSED` if the cache is not open, and `OTHER_KEYS` if its keys are not two words.
#[unsafe(no_mangle)]
pub extern "C" fn lru_words_contains(cache: &mut LruCache, first: u64, second: u64) -> u32
    ensures { Contains (words first second) cache.old.cache.held result cache.new.cache.held }
{
    match words_cache(cache) {
        Ok(cache) => steps::contains(&cache.state, &Words { first, second }),
        Err(code) => code,
    }
}

/// Evicts the entry of a key into a chain if it is idle. If it is held, detaches it if `even_held`
/// says so: no call finds it by the key then, but it is still found by its stamp, and is evicted
/// with its last pin. Otherwise nothing happens, now or later.
///
/// Returns `CLOSED` if the cache or chain is not open, `OTHER_KEYS` if the keys of the cache are
/// not two words, and `NOT_EMPTY` if the chain has entries; nothing changes then.
#[unsafe(no_mangle)]
pub extern "C" fn lru_words_evict(
    cache: &mut LruCache,
    first: u64,
    second: u64,
    even_held: bool,
    gone: &mut LruChain,
) -> u32
    ensures { IntoWords gone.old gone.new (bare result) cache.old cache.new
        (Evicts (evict_by even_held (words first second)) (bare result)) }
{
    match empty_chain(gone) {
        Ok(chain) => match words_cache(cache) {
            Ok(cache) => chain.take_words(cache.evict(&Words { first, second }, even_held)),
            Err(code) => code,
        },
        Err(code) => code,
    }
}

/// Inserts a value, replacing what the key has: detaches the entry of the key as `invalidate` does,
/// and inserts a new one with a pin for the caller. Returns `DONE` with that pin. The idle entry
/// that was replaced, and then what the charge evicted, oldest first, are put into a chain.
///
/// Returns `FULL` if the call is strict and the charge, with the charges of the held entries, is
/// above the capacity, whatever entry the key has. Returns `NO_CHARGE` if the charge is 0, `CLOSED`
/// if the cache or chain is not open, `OTHER_KEYS` if the keys of the cache are not two words,
/// `NOT_EMPTY` if the chain has entries, and `OVERFLOW` or `MEMORY` as `lru.h` says. Nothing
/// changes then: in particular, nothing is evicted, and the value is not taken.
#[unsafe(no_mangle)]
pub extern "C" fn lru_words_insert(
    cache: &mut LruCache,
    first: u64,
    second: u64,
    charge: u64,
    value: u64,
    strict: bool,
    gone: &mut LruChain,
) -> LruTold
    ensures { IntoWords gone.old gone.new result cache.old cache.new
        (Inserts strict (words first second) charge value result) }
{
    match empty_chain(gone) {
        Ok(chain) => match words_cache(cache) {
            Ok(cache) => chain.take_both_words(cache.insert(
                &Words { first, second },
                charge,
                value,
                strict,
            )),
            Err(code) => LruTold::bare(code),
        },
        Err(code) => LruTold::bare(code),
    }
}

/// Writes the two words of an entry's key, held or idle.
///
/// Returns `STALE` if no entry has the stamp, `CLOSED` if the cache is not open, and `OTHER_KEYS`
/// if its keys are not two words; nothing is written then.
#[unsafe(no_mangle)]
pub extern "C" fn lru_words_key_of(
    cache: &mut LruCache,
    pin: LruPin,
    first: &mut u64,
    second: &mut u64,
) -> u32
    ensures told { KeyOf pin.stamp (words first.new second.new) cache.old.cache.held result
        cache.new.cache.held }
    ensures kept { MatchBool (result == codes.done) ⊤
        ((first.new ≡ first.old) × (second.new ≡ second.old)) }
{
    match words_cache(cache) {
        Ok(cache) => write_key(&cache.state, pin, first, second),
        Err(code) => code,
    }
}
