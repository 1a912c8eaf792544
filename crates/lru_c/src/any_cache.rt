//! What the handle of a cache points to, and the calls on it that take no key.
ghost use Rattle.std.specs.Prelude.{◌≡◌, ◌==◌, ◌<◌, ⊤, true, false, MatchBool, MatchOption};
ghost use Rattle.concurrent_lru.specs.Request as ask;
ghost use Rattle.lru_c.specs.Codes as codes;

use crate::bytes::cache::BytesCache;
use crate::bytes::key::Bytes;
use crate::cache::Cache;
use crate::chain::{AnyChain, Chain};
use crate::entries::{LruEntry, write_entries, write_entry};
use crate::steps::{Number, Step};
use crate::told::{LruPin, LruStats, LruTold};
use crate::words::cache::WordsCache;
use crate::{kind, steps};
use std::alloc::Global;

/// A cache whose keys are of one of two kinds.
#[derive(Drop)]
pub enum AnyCache {
    /// A cache whose keys are bytes.
    Bytes(BytesCache),
    /// A cache whose keys are two words.
    Words(WordsCache),
}

impl AnyCache {
    ghost use Rattle.lru_c.specs.Calls.{AsksAny, AsksInto, HoldsAll, IsNew, NumbersAny, ReadiesInto, ReservesAny, StatsAny};
    ghost use Rattle.lru_c.specs.Chains.{IsEmpty};
    ghost use Rattle.lru_c.specs.Entries.{EntriesOfAny, EntryOfAny};
    ghost use Rattle.lru_c.specs.Keys.{is_kind};
    ghost use Rattle.lru_c.specs.Opened.{number_of};
    ghost use Rattle.lru_c.specs.Told.{bare, request_of};

    // Returns a new, empty cache whose keys are of a kind, or `None` if there is no such kind.
    pub(crate) fn new(
        alloc: Global,
        kind: u32,
        capacity: u64,
        first_stamp: u64,
        most_pins: u32,
        seed: u64,
    ) -> Option<AnyCache>
        requires { 0 < most_pins }
        ensures { MatchOption result (is_kind kind ≡ false) (λ cache. (is_kind kind ≡ true) ×
            IsNew kind capacity most_pins first_stamp cache) }
    {
        if kind == kind::BYTES {
            let room = Bytes::new(alloc);
            let cache = Cache::new(alloc, capacity, first_stamp, most_pins, seed, room);
            return Some(AnyCache::Bytes(cache));
        }
        if kind == kind::WORDS {
            let cache = Cache::new(alloc, capacity, first_stamp, most_pins, seed, ());
            return Some(AnyCache::Words(cache));
        }
        None
    }

    pub(crate) fn poll(&mut self, pin: LruPin) -> LruTold
        ensures { AsksAny self.old (λ K. ask.poll pin.stamp) result self.new }
    {
        match self {
            AnyCache::Bytes(cache) => steps::poll(&mut cache.state, pin),
            AnyCache::Words(cache) => steps::poll(&mut cache.state, pin),
        }
    }

    pub(crate) fn ready(&mut self, pin: LruPin, value: u64) -> u32
        ensures { AsksAny self.old (λ K. ask.ready pin.stamp value) (bare result) self.new }
    {
        match self {
            AnyCache::Bytes(cache) => steps::ready(&mut cache.state, pin, value),
            AnyCache::Words(cache) => steps::ready(&mut cache.state, pin, value),
        }
    }

    // Stores a value with a charge, and puts what that evicts into a chain.
    pub(crate) fn ready_with(
        &mut self,
        pin: LruPin,
        value: u64,
        charge: u64,
        strict: bool,
        gone: &mut AnyChain,
    ) -> u32
        requires { IsEmpty gone.old }
        ensures { ReadiesInto strict pin.stamp value charge (bare result) self.old gone.new
            self.new }
    {
        match self {
            AnyCache::Bytes(cache) => {
                let state = &mut cache.state;
                gone.take_bytes(steps::ready_with(state, pin, value, charge, strict))
            }
            AnyCache::Words(cache) => {
                let state = &mut cache.state;
                gone.take_words(steps::ready_with(state, pin, value, charge, strict))
            }
        }
    }

    pub(crate) fn fail(&mut self, pin: LruPin) -> u32
        ensures { AsksAny self.old (λ K. ask.fail pin.stamp) (bare result) self.new }
    {
        match self {
            AnyCache::Bytes(cache) => cache.fail(pin),
            AnyCache::Words(cache) => cache.fail(pin),
        }
    }

    pub(crate) fn repin(&mut self, pin: LruPin) -> LruTold
        ensures { AsksAny self.old (λ K. ask.repin pin.stamp) result self.new }
    {
        match self {
            AnyCache::Bytes(cache) => steps::repin(&mut cache.state, pin),
            AnyCache::Words(cache) => steps::repin(&mut cache.state, pin),
        }
    }

    // Takes a step, and puts what it evicts into a chain.
    #[inline(always)]
    pub(crate) fn take(&mut self, step: Step, gone: &mut AnyChain) -> u32
        requires { IsEmpty gone.old }
        ensures { AsksInto (λ K. request_of step) (bare result) self.old gone.new self.new }
    {
        match self {
            AnyCache::Bytes(cache) => gone.take_bytes(steps::take(&mut cache.state, step)),
            AnyCache::Words(cache) => gone.take_words(steps::take(&mut cache.state, step)),
        }
    }

    pub(crate) fn reserve(&mut self, entries: usize) -> u32
        ensures { ReservesAny self.old result self.new }
    {
        match self {
            AnyCache::Bytes(cache) => steps::reserve(&mut cache.state, entries),
            AnyCache::Words(cache) => steps::reserve(&mut cache.state, entries),
        }
    }

    pub(crate) fn tell(&mut self, which: Number) -> LruTold
        ensures { NumbersAny self.old (λ K. number_of which) result self.new }
    {
        match self {
            AnyCache::Bytes(cache) => steps::tell(&cache.state, which),
            AnyCache::Words(cache) => steps::tell(&cache.state, which),
        }
    }

    pub(crate) fn stats(&mut self) -> LruStats
        ensures { StatsAny self.old result self.new }
    {
        match self {
            AnyCache::Bytes(cache) => cache.stats(),
            AnyCache::Words(cache) => cache.stats(),
        }
    }

    // Writes the entry with the stamp of a pin.
    pub(crate) fn write_entry(&mut self, pin: LruPin, out: &mut LruEntry) -> u32
        ensures told { EntryOfAny self.old pin.stamp result out.new self.new }
        ensures kept { MatchBool (result == codes.done) ⊤ (out.new ≡ out.old) }
    {
        match self {
            AnyCache::Bytes(cache) => write_entry(&cache.state, pin, out),
            AnyCache::Words(cache) => write_entry(&cache.state, pin, out),
        }
    }

    // Writes all entries that have a value to the start of a buffer.
    pub(crate) fn write_entries(&mut self, out: &mut [LruEntry]) -> LruTold
        ensures { EntriesOfAny self.old result out.old out.new self.new }
    {
        match self {
            AnyCache::Bytes(cache) => write_entries(&cache.state, out),
            AnyCache::Words(cache) => write_entries(&cache.state, out),
        }
    }

    // Takes out every entry that has a value.
    pub(crate) fn take_all(&mut self, left: &mut AnyChain)
        requires { IsEmpty left.old }
        ensures { HoldsAll self.old left.new }
    {
        match self {
            AnyCache::Bytes(cache) => left.fill_bytes(Chain::of(cache.state.take_all())),
            AnyCache::Words(cache) => left.fill_words(Chain::of(cache.state.take_all())),
        }
    }
}
