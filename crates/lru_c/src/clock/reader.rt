//! What the handle of a reader leads to.
ghost use Rattle.std.specs.Prelude.{◌≡◌, MatchOption, MatchResult};
ghost use Rattle.lru_c.specs.Clocks.{bare_found, IsLookup, IsLookupAt, IsRelease};
ghost use Rattle.lru_c.specs.Codes as codes;

use crate::clock::told::LruFound;
use crate::clock::{Entries, tag_of};
use crate::code;
use crate::words::key::Words;
use concurrent_lru::sharded::Refusal;
use lru_clock::clock_core::{ExcessFlag, HoldAt, Released};
use std::sync::Arc;

/// A thread's access to the entries of a shard.
#[derive(Drop)]
pub struct Reader {
    entries: Arc<Entries>,
    excess: Arc<ExcessFlag>,
}

impl Reader {
    pub(crate) fn of(entries: Arc<Entries>, excess: Arc<ExcessFlag>) -> Reader {
        Reader { entries, excess }
    }

    // Pins the entry of a key.
    #[inline(always)]
    pub(crate) fn pin(&self, hash: u64, key: &Words) -> LruFound
        ensures { IsLookup result }
    {
        told_of_lookup(self.entries.hold(tag_of(hash), key))
    }

    // Pins whatever entry is at a place.
    pub(crate) fn pin_at(&self, place: u32) -> LruFound
        ensures { IsLookupAt place result }
    {
        told_of_lookup(self.entries.hold_at(place))
    }

    // Gives back a pin of the entry at a place. After the last one, tells what is left to do under
    // the lock.
    #[inline(always)]
    pub(crate) fn unpin(&self, place: u32) -> u32
        ensures { IsRelease result }
    {
        match self.entries.end_hold(place) {
            Some(Released::Pinned) => code::DONE,
            Some(Released::Idle) => {
                if self.excess.is_set() {
                    code::ABOVE
                } else {
                    code::DONE
                }
            }
            Some(Released::Invalidated) => code::LAST,
            None => code::STALE,
        }
    }
}

// Returns the answer of a lookup with this result, whose one refusal is `Overflow`.
#[inline(always)]
pub(crate) fn told_of_lookup(found: Result<Option<(HoldAt, u64)>, Refusal>) -> LruFound
    ensures lookup { IsLookup result }
    ensures told { MatchResult found (λ found. MatchOption found
        (result ≡ bare_found codes.missed)
        (λ held. (result.code ≡ codes.hit) × (result.place ≡ held.0)))
        (λ _. result ≡ bare_found codes.overflow) }
{
    match found {
        Ok(Some((hold, value))) => LruFound::lent(code::HIT, value, hold),
        Ok(None) => LruFound::bare(code::MISSED),
        Err(_) => LruFound::bare(code::OVERFLOW),
    }
}
