//! The steps of a cache whose keys are bytes.
ghost use Rattle.std.specs.Borrow.{sem};
ghost use Rattle.std.specs.Prelude.{◌≡◌, ◌==◌, ⊤, [], true, MatchBool};
ghost use Rattle.concurrent_lru.specs.Request as ask;
ghost use Rattle.lru_c.specs.BytesCalls.{bytes_cache as behind, CopiesKey};
ghost use Rattle.lru_c.specs.Codes as codes;
ghost use Rattle.lru_c.specs.Lends.{IsLent, LendsBytes};
ghost use Rattle.lru_c.specs.declared.any_cache.AnyCache.TheVariants as any;

use crate::any_cache::AnyCache;
use crate::bytes::key::Bytes;
use crate::cache::Cache;
use crate::handle::Handle;
use crate::told::{LruPin, LruTold};
use crate::values::{Evicted, State};
use crate::{code, steps};

/// A cache whose keys are bytes. A lookup needs a whole key, so the bytes of a call are copied into
/// a buffer that is kept, and their hash beside them.
pub type BytesCache = Cache<Bytes, Bytes>;

// Returns the cache of a handle for a call on it, if its keys are bytes. Otherwise returns the code
// that says why not: `CLOSED` or `OTHER_KEYS`.
#[inline(always)]
pub(crate) fn bytes_cache<G: Handle<To = AnyCache>>(cache: &mut G) -> Result<&mut BytesCache, u32>
    ensures* writes_back { sem 𝓛 (LendsBytes G.row G.held cache.entry result) }
    ensures cache { IsLent any.Bytes behind (G.held cache.old) result }
{
    match cache.get_mut() {
        Some(AnyCache::Bytes(cache)) => Ok(cache),
        Some(AnyCache::Words(_)) => Err(code::OTHER_KEYS),
        None => Err(code::CLOSED),
    }
}

impl Cache<Bytes, Bytes> {
    ghost use Rattle.lru_c.specs.BytesCalls.{BeginsByKey, ContainsBytes, IsKeyOf};
    ghost use Rattle.lru_c.specs.Keys.{bytes_eq};
    ghost use Rattle.lru_c.specs.Counted.{answered, inserted};
    ghost use Rattle.lru_c.specs.Inserts.{TellsInsertBy, TellsInsertOf};
    ghost use Rattle.lru_c.specs.Told.{bare, evict_by, AsksOf};

    // Copies a key of these bytes and this hash into the buffer. Returns false if the buffer cannot
    // grow.
    fn keep(&mut self, key: &[u8], hash: u64) -> bool
        ensures kept { result ≡ true → IsKeyOf key.now hash self.new.room }
        ensures state { self.new.state ≡ self.old.state }
        ensures counts { self.new.counts ≡ self.old.counts }
    {
        self.room.hash = hash;
        self.room.bytes.clear();
        self.room.bytes.extend_from_slice(key).is_ok()
    }

    pub(crate) fn begin(
        &mut self,
        key: &[u8],
        hash: u64,
        charge: u64,
        strict: bool,
    ) -> (LruTold, Evicted<Bytes>)
        ensures asks { BeginsByKey self.old.state.cache strict key.now hash charge result.0
            result.1 self.new.state.cache }
        ensures counts { self.new.counts ≡ answered result.0 self.old.counts }
    {
        if charge == 0 {
            return (LruTold::bare(code::NO_CHARGE), Evicted::none());
        }
        if !self.keep(key, hash) {
            return (LruTold::bare(code::MEMORY), Evicted::none());
        }
        let answer = steps::begin(&mut self.state, &self.room, charge, strict);
        self.counts.answer(answer.0);
        answer
    }

    pub(crate) fn get(&mut self, key: &[u8], hash: u64) -> LruTold
        ensures asks { AsksOf bytes_eq (IsKeyOf key.now hash) self.old.state.cache ask.get result []
            self.new.state.cache }
        ensures counts { self.new.counts ≡ answered result self.old.counts }
    {
        if !self.keep(key, hash) {
            return LruTold::bare(code::MEMORY);
        }
        let told = steps::get(&mut self.state, &self.room);
        self.counts.answer(told);
        told
    }

    // Evicts the entry of a key if it is idle. Detaches it if it is held, if `even_held` says so.
    pub(crate) fn evict(&mut self, key: &[u8], hash: u64, even_held: bool) -> (u32, Evicted<Bytes>)
        ensures asks { AsksOf bytes_eq (IsKeyOf key.now hash) self.old.state.cache
            (evict_by even_held) (bare result.0) result.1 self.new.state.cache }
        ensures counts { self.new.counts ≡ self.old.counts }
    {
        if !self.keep(key, hash) {
            return (code::MEMORY, Evicted::none());
        }
        steps::evict(&mut self.state, &self.room, even_held)
    }

    pub(crate) fn insert(
        &mut self,
        key: &[u8],
        hash: u64,
        charge: u64,
        value: u64,
        strict: bool,
    ) -> (LruTold, (Evicted<Bytes>, Evicted<Bytes>))
        ensures tells { TellsInsertOf (TellsInsertBy bytes_eq strict) (IsKeyOf key.now hash)
            self.old.state.cache charge value result.0 result.1.0 result.1.1 self.new.state.cache }
        ensures counts { self.new.counts ≡ inserted result.0 self.old.counts }
    {
        if charge == 0 {
            return steps::refused(code::NO_CHARGE);
        }
        if !self.keep(key, hash) {
            return steps::refused(code::MEMORY);
        }
        let answer = steps::insert(&mut self.state, &self.room, charge, value, strict);
        self.counts.answer_insert(answer.0);
        answer
    }

    pub(crate) fn contains(&mut self, key: &[u8], hash: u64) -> u32
        ensures contains { ContainsBytes self.old.state.cache key.now hash result }
        ensures same { self.new.state ≡ self.old.state }
        ensures counts { self.new.counts ≡ self.old.counts }
    {
        if !self.keep(key, hash) {
            return code::MEMORY;
        }
        steps::contains(&self.state, &self.room)
    }
}

// Copies the bytes of the key of the entry with this stamp to the start of a buffer.
pub(crate) fn copy_key(state: &State<Bytes>, pin: LruPin, buffer: &mut [u8]) -> LruTold
    ensures told { CopiesKey state.now.cache pin.stamp result buffer.old buffer.new }
    ensures kept { MatchBool (result.code == codes.number) ⊤ (buffer.new ≡ buffer.old) }
{
    let Some(key) = state.key_at(&pin.spot()) else {
        return LruTold::bare(code::STALE);
    };
    let length = key.bytes.len();
    if length > buffer.len() {
        return LruTold::number(code::NO_ROOM, length as u64);
    }
    buffer[..length].copy_from_slice(&key.bytes);
    LruTold::number(code::NUMBER, length as u64)
}
