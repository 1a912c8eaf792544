//! The calls of C on caches whose keys are bytes. The caller hashes the bytes, so that it need not
//! hold a lock meanwhile, and passes their hash, which is a part of the key.
ghost use Rattle.std.specs.Prelude.{◌≡◌, ◌==◌, ⊤, MatchBool};
ghost use Rattle.concurrent_lru.specs.Request as ask;
ghost use Rattle.lru_c.specs.BytesCalls.{AsksByKey, Begins, Contains, Evicts, Inserts, IntoBytes, KeyOf};
ghost use Rattle.lru_c.specs.Codes as codes;
ghost use Rattle.lru_c.specs.Told.{bare, evict_by};

pub mod cache;
pub mod key;

use crate::bytes::cache::{bytes_cache, copy_key};
use crate::chain_calls::empty_chain;
use crate::handles::{LruCache, LruChain};
use crate::told::{LruPin, LruTold};

/// Asks for the value of a key and pins its entry, inserting one with this charge if there is none.
/// What the charge of a new entry evicts is put into a chain, oldest first. If the call is strict,
/// inserts no entry whose charge the capacity has no room for.
///
/// Returns `FULL` if the call is strict, the key has no entry, and the charge, with the charges of
/// the held entries, is above the capacity. Returns `NO_CHARGE` if the charge is 0, `CLOSED` if the
/// cache or chain is not open, `OTHER_KEYS` if the keys of the cache are not bytes, `NOT_EMPTY` if
/// the chain has entries, and `OVERFLOW` or `MEMORY` as `lru.h` says. Nothing changes then: in
/// particular, nothing is evicted.
#[unsafe(no_mangle)]
pub extern "C" fn lru_bytes_begin_nonnull(
    cache: &mut LruCache,
    key: &[u8],
    hash: u64,
    charge: u64,
    strict: bool,
    gone: &mut LruChain,
) -> LruTold
    ensures { IntoBytes gone.old gone.new result cache.old cache.new
        (Begins strict key.now hash charge result) }
{
    match empty_chain(gone) {
        Ok(chain) => match bytes_cache(cache) {
            Ok(cache) => chain.take_bytes(cache.begin(key, hash, charge, strict)),
            Err(code) => LruTold::bare(code),
        },
        Err(code) => LruTold::bare(code),
    }
}

/// Pins the entry of a key and returns its value, or returns `MISSED` if the key has no ready
/// value.
///
/// Returns `OVERFLOW` if the entry has the maximum number of pins, `MEMORY` if a copy of the key is
/// refused, `CLOSED` if the cache is not open, and `OTHER_KEYS` if its keys are not bytes; nothing
/// changes then.
#[unsafe(no_mangle)]
pub extern "C" fn lru_bytes_get_nonnull(cache: &mut LruCache, key: &[u8], hash: u64) -> LruTold
    ensures { AsksByKey ask.get key.now hash cache.old.cache.held result
        cache.new.cache.held }
{
    match bytes_cache(cache) {
        Ok(cache) => cache.get(key, hash),
        Err(code) => LruTold::bare(code),
    }
}

/// Returns `DONE` if a key has a ready value, otherwise `MISSED`. Pins nothing and moves nothing.
///
/// Returns `MEMORY` if a copy of the key is refused, `CLOSED` if the cache is not open, and
/// `OTHER_KEYS` if its keys are not bytes.
#[unsafe(no_mangle)]
pub extern "C" fn lru_bytes_contains_nonnull(cache: &mut LruCache, key: &[u8], hash: u64) -> u32
    ensures { Contains key.now hash cache.old.cache.held result cache.new.cache.held }
{
    match bytes_cache(cache) {
        Ok(cache) => cache.contains(key, hash),
        Err(code) => code,
    }
}

/// Evicts the entry of a key into a chain if it is idle. If it is held, detaches it if `even_held`
/// says so: no call finds it by the key then, but it is still found by its stamp, and is evicted
/// with its last pin. Otherwise nothing happens, now or later.
///
/// Returns `MEMORY` if a copy of the key is refused, `CLOSED` if the cache or chain is not open,
/// `OTHER_KEYS` if the keys of the cache are not bytes, and `NOT_EMPTY` if the chain has entries;
/// nothing changes then.
#[unsafe(no_mangle)]
pub extern "C" fn lru_bytes_evict_nonnull(
    cache: &mut LruCache,
    key: &[u8],
    hash: u64,
    even_held: bool,
    gone: &mut LruChain,
) -> u32
    ensures { IntoBytes gone.old gone.new (bare result) cache.old cache.new
        (Evicts (evict_by even_held) key.now hash (bare result)) }
{
    match empty_chain(gone) {
        Ok(chain) => match bytes_cache(cache) {
            Ok(cache) => chain.take_bytes(cache.evict(key, hash, even_held)),
            Err(code) => code,
        },
        Err(code) => code,
    }
}

/// Inserts a value, replacing what the key has: detaches the entry of the key as `invalidate` does,
/// and inserts a new one with a pin for the caller. Returns `DONE` with that pin. The idle entry
/// that was replaced, and then what the charge evicted, oldest first, are put into a chain.
///
/// Returns `FULL` if the call is strict and the charge, with the charges of the held entries, is
/// above the capacity, whatever entry the key has. Returns `NO_CHARGE` if the charge is 0, `CLOSED`
/// if the cache or chain is not open, `OTHER_KEYS` if the keys of the cache are not bytes,
/// `NOT_EMPTY` if the chain has entries, and `OVERFLOW` or `MEMORY` as `lru.h` says. Nothing
/// changes then: in particular, nothing is evicted, and the value is not taken.
#[unsafe(no_mangle)]
pub extern "C" fn lru_bytes_insert_nonnull(
    cache: &mut LruCache,
    key: &[u8],
    hash: u64,
    charge: u64,
    value: u64,
    strict: bool,
    gone: &mut LruChain,
) -> LruTold
    ensures { IntoBytes gone.old gone.new result cache.old cache.new
        (Inserts strict key.now hash charge value result) }
{
    match empty_chain(gone) {
        Ok(chain) => match bytes_cache(cache) {
            Ok(cache) => chain.take_both_bytes(cache.insert(key, hash, charge, value, strict)),
            Err(code) => LruTold::bare(code),
        },
        Err(code) => LruTold::bare(code),
    }
}

/// Copies the bytes of the key of an entry, held or idle, to the start of a buffer: `NUMBER` with
/// their number.
///
/// Returns `NO_ROOM` with their number if the buffer is too small, `STALE` if no entry has the
/// stamp, `CLOSED` if the cache is not open, and `OTHER_KEYS` if its keys are not bytes. Nothing is
/// written then.
#[unsafe(no_mangle)]
pub extern "C" fn lru_bytes_key_of_nonnull(
    cache: &mut LruCache,
    pin: LruPin,
    buffer: &mut [u8],
) -> LruTold
    ensures told { KeyOf pin.stamp buffer.old buffer.new cache.old.cache.held result
        cache.new.cache.held }
    ensures kept { MatchBool (result.code == codes.number) ⊤ (buffer.new ≡ buffer.old) }
{
    match bytes_cache(cache) {
        Ok(cache) => copy_key(&cache.state, pin, buffer),
        Err(code) => LruTold::bare(code),
    }
}
