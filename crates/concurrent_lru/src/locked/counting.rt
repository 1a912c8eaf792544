//! How the calls under the lock count the results of the core's steps.
ghost use Rattle.std.specs.Prelude.{◌≡◌};
ghost use Rattle.concurrent_lru.specs.CountedCalls.{counted_look, counted_poll, counted_repin};
ghost use Rattle.concurrent_lru.specs.Debts.{counted_refusal};

use crate::counts::Counts;
use crate::lru_core::{Begun, Refusal};
use std::sync::Arc;

// Counts the result of a lookup: a hit, a miss or a refusal.
#[inline(always)]
pub(super) fn count_look<T>(counts: &mut Counts, found: &Result<Option<T>, Refusal>)
    ensures { counts.new ≡ counted_look found.now counts.old }
{
    match found {
        Ok(Some(_)) => counts.hits = counts.hits.saturating_add(1),
        Ok(None) => counts.misses = counts.misses.saturating_add(1),
        Err(_) => counts.refusals = counts.refusals.saturating_add(1),
    }
}

// Counts the result of a poll: a making started, or a refusal for lack of memory.
pub(super) fn count_poll<V>(counts: &mut Counts, polled: &Result<Begun<V>, Refusal>)
    ensures { counts.new ≡ counted_poll polled.now counts.old }
{
    match polled {
        Ok(Begun::Make(_)) => counts.make(),
        Err(Refusal::Memory) => counts.refuse(),
        Ok(_) => {}
        Err(_) => {}
    }
}

// Counts the result of a repin: a refusal, unless no entry has the stamp.
pub(super) fn count_repin<V>(counts: &mut Counts, repinned: &Result<Arc<V>, Refusal>)
    ensures { counts.new ≡ counted_repin repinned.now counts.old }
{
    match repinned {
        Err(Refusal::Memory | Refusal::Overflow) => counts.refuse(),
        Ok(_) => {}
        Err(_) => {}
    }
}

// Counts a refusal of a value with its charge, unless no entry with the stamp is being made.
pub(super) fn count_refusal(counts: &mut Counts, refusal: &Refusal)
    ensures { counts.new ≡ counted_refusal refusal.now counts.old }
{
    match refusal {
        Refusal::Memory | Refusal::Overflow | Refusal::Full => counts.refuse(),
        Refusal::Stale => {}
    }
}
