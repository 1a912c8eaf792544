//! The steps of a cache whose keys are two words.
ghost use Rattle.std.specs.Borrow.{sem};
ghost use Rattle.std.specs.Prelude.{◌≡◌, ◌==◌, ⊤, [], MatchBool};
ghost use Rattle.concurrent_lru.specs.Request as ask;
ghost use Rattle.lru_c.specs.Codes as codes;
ghost use Rattle.lru_c.specs.Lends.{IsLent, LendsWords};
ghost use Rattle.lru_c.specs.Opened.{TellsKey};
ghost use Rattle.lru_c.specs.WordsCalls.{words, words_cache as behind};
ghost use Rattle.lru_c.specs.declared.any_cache.AnyCache.TheVariants as any;

use crate::any_cache::AnyCache;
use crate::cache::Cache;
use crate::handle::Handle;
use crate::told::{LruPin, LruTold};
use crate::values::{Evicted, State};
use crate::words::key::Words;
use crate::{code, steps};

/// A cache whose keys are two words.
pub type WordsCache = Cache<Words, ()>;

// Returns the cache of a handle for a call on it, if its keys are two words. Otherwise returns the
// code that says why not: `CLOSED` or `OTHER_KEYS`.
#[inline(always)]
pub(crate) fn words_cache<G: Handle<To = AnyCache>>(cache: &mut G) -> Result<&mut WordsCache, u32>
    ensures* writes_back { sem 𝓛 (LendsWords G.row G.held cache.entry result) }
    ensures cache { IsLent any.Words behind (G.held cache.old) result }
{
    match cache.get_mut() {
        Some(AnyCache::Bytes(_)) => Err(code::OTHER_KEYS),
        Some(AnyCache::Words(cache)) => Ok(cache),
        None => Err(code::CLOSED),
    }
}

impl Cache<Words, ()> {
    ghost use Rattle.lru_c.specs.Counted.{answered, inserted};
    ghost use Rattle.lru_c.specs.Keys.{words_eq};
    ghost use Rattle.lru_c.specs.Inserts.{TellsInsertBy, TellsInsertOf};
    ghost use Rattle.lru_c.specs.Told.{bare, begin_by, evict_by, Asks, IsSame};

    pub(crate) fn begin(
        &mut self,
        key: &Words,
        charge: u64,
        strict: bool,
    ) -> (LruTold, Evicted<Words>)
        ensures asks { MatchBool (charge == 0)
            ((result.0 ≡ bare codes.no_charge) ×
            IsSame self.old.state.cache result.1 self.new.state.cache)
            (Asks words_eq self.old.state.cache (begin_by strict key.now charge) result.0 result.1
            self.new.state.cache) }
        ensures counts { self.new.counts ≡ answered result.0 self.old.counts }
    {
        if charge == 0 {
            return (LruTold::bare(code::NO_CHARGE), Evicted::none());
        }
        let answer = steps::begin(&mut self.state, key, charge, strict);
        self.counts.answer(answer.0);
        answer
    }

    pub(crate) fn get(&mut self, key: &Words) -> LruTold
        ensures asks { Asks words_eq self.old.state.cache (ask.get key.now) result []
            self.new.state.cache }
        ensures counts { self.new.counts ≡ answered result self.old.counts }
    {
        let told = steps::get(&mut self.state, key);
        self.counts.answer(told);
        told
    }

    // Evicts the entry of a key if it is idle. Detaches it if it is held, if `even_held` says so.
    pub(crate) fn evict(&mut self, key: &Words, even_held: bool) -> (u32, Evicted<Words>)
        ensures asks { Asks words_eq self.old.state.cache (evict_by even_held key.now)
            (bare result.0) result.1 self.new.state.cache }
        ensures counts { self.new.counts ≡ self.old.counts }
    {
        steps::evict(&mut self.state, key, even_held)
    }

    pub(crate) fn insert(
        &mut self,
        key: &Words,
        charge: u64,
        value: u64,
        strict: bool,
    ) -> (LruTold, (Evicted<Words>, Evicted<Words>))
        ensures tells { TellsInsertOf (TellsInsertBy words_eq strict) (λ k. k ≡ key.now)
            self.old.state.cache charge value result.0 result.1.0 result.1.1 self.new.state.cache }
        ensures counts { self.new.counts ≡ inserted result.0 self.old.counts }
    {
        if charge == 0 {
            return steps::refused(code::NO_CHARGE);
        }
        let answer = steps::insert(&mut self.state, key, charge, value, strict);
        self.counts.answer_insert(answer.0);
        answer
    }
}

// Writes the two words of the key of the entry with the stamp of a pin.
pub(crate) fn write_key(state: &State<Words>, pin: LruPin, first: &mut u64, second: &mut u64) -> u32
    ensures told { TellsKey state.now.cache pin.stamp result (words first.new second.new) }
    ensures kept { MatchBool (result == codes.done) ⊤
        ((first.new ≡ first.old) × (second.new ≡ second.old)) }
{
    match state.key_at(&pin.spot()) {
        Some(key) => {
            *first = key.first;
            *second = key.second;
            code::DONE
        }
        None => code::STALE,
    }
}
