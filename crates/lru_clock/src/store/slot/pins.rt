//! Pins, each of which keeps its entry until it is released.
ghost use Rattle.std.specs.Prelude.{◌≡◌, ◌<◌, IfErr, IfOk, IfSome, IsTrue};
ghost use Rattle.lru_clock.specs.Contents.{HasValue};
ghost use Rattle.lru_clock.specs.Hits.{HasArrived, Sees};
ghost use Rattle.lru_clock.specs.Places.{place_of};

use crate::history::Log;
use crate::history::past::Past;
use crate::store::slot::content::Content;
use crate::store::slot::{Pin, Released, Slot, pins_of, state_of};
use concurrent_lru::fit::Fit;
use concurrent_lru::sharded::Refusal;
use concurrent_lru::shown::Shown;
use lru_slot::{Claim, MARKED, ONE_READER, PRESENT};

// Returns whether two claims of one slot are of the same entry, by the numbers of the arrivals.
fn have_one_entry<K: Eq, V, F: Fit<K, V>>(
    claim: &Claim<'_, Content<K, V, F>>,
    other: &Claim<'_, Content<K, V, F>>,
) -> bool
    requires read { (claim.now.right ≡ 1) × (other.now.right ≡ 1) }
    requires slot { claim.now.tag ≡ other.now.tag }
    ensures { IsTrue result → (v : V) → HasValue claim.now.value v → HasValue other.now.value v }
{
    match claim.get() {
        Content::Entry { arrival, .. } => match other.get() {
            Content::Entry { arrival: found, .. } => arrival.is(found),
            Content::Empty => false,
        },
        Content::Empty => false,
    }
}

impl<'a, K: Eq, V, F: Fit<K, V>> Pin<'a, K, V, F> {
    // Keeps a pin of an entry that `confirm` accepts, unless it exceeds the maximum, and releases
    // any other pin.
    #[inline(always)]
    pub(super) fn of_key(
        slot: &'a Slot<K, V, F>,
        claim: Claim<'a, Content<K, V, F>>,
        key: &K,
        past: &Option<Past<K, V>>,
        is_too_many: bool,
    ) -> Result<Option<Self>, Refusal>
        requires read { claim.right ≡ 1 }
        requires slot { claim.tag ≡ slot.now.track.word }
        requires book { IfSome past.now (λ p. p.book ≡ slot.now.track.word.book) }
        ensures pin { IfOk result (λ found. IfSome found
            (λ p. (p.key ≡ key.now) × F.fits key.now p.value)) }
        ensures place { IfOk result (λ found. IfSome found
            (λ p. p.place ≡ place_of slot.now.spot.value)) }
        ensures book { IfOk result (λ found. IfSome found
            (λ p. p.book ≡ slot.now.track.word.book)) }
        ensures since { IfSome past.now (λ past. IfOk result (λ found. IfSome found
            (λ p. Sees K.eq past key.now p.value p.book p.log))) }
        ensures refused { IfErr result (λ e. e ≡ Refusal.Overflow) }
    {
        match claim.get().confirm(key, &slot.track, past) {
            Some((shown, seen)) => {
                if is_too_many {
                    claim.leave();
                    return Err(Refusal::Overflow);
                }
                Ok(Some(Pin {
                    slot,
                    claim,
                    asked: Shown::of(key),
                    shown,
                    stored: Shown::of(&None),
                    seen,
                }))
            }
            None => {
                claim.leave();
                Ok(None)
            }
        }
    }

    /// Returns the value.
    #[inline(always)]
    pub fn value(&self) -> &V
        ensures value { result.now ≡ self.now.value }
        ensures fits { F.fits self.now.key result.now }
    {
        match self.claim.get() {
            Content::Entry { kept, .. } => &kept.value,
            Content::Empty => unreachable!(),
        }
    }

    /// Returns the prefix of the history that was seen. The entry came within it.
    #[inline(always)]
    pub fn seen(&self) -> Log<K, V>
        ensures seen { (result.book ≡ self.now.book) × (result.log ≡ self.now.log) }
        ensures arrived { HasArrived K.eq self.now.log self.now.key self.now.value }
    {
        self.seen.again()
    }

    /// Pins the entry once more, even if it was invalidated, and gives it no chance.
    ///
    /// Returns `Overflow` if the entry has the maximum number of pins.
    pub fn again(&self, most_pins: u64) -> Result<Self, Refusal>
        requires limit { most_pins < 1073741823 }
        ensures place { IfOk result (λ p. p.place ≡ self.now.place) }
        ensures key { IfOk result (λ p. p.key ≡ self.now.key) }
        ensures value { IfOk result (λ p. p.value ≡ self.now.value) }
        ensures stored { IfOk result (λ p. p.stored ≡ self.now.stored) }
        ensures fits { IfOk result (λ p. F.fits p.key p.value) }
        ensures book { IfOk result (λ p. p.book ≡ self.now.book) }
        ensures refused { IfErr result (λ e. e ≡ Refusal.Overflow) }
    {
        let mut seen = self.slot.cell.load();
        for _ in 0..u64::MAX {
            let state = state_of(seen);
            if (state != PRESENT && state != MARKED) || pins_of(seen) >= most_pins {
                return Err(Refusal::Overflow);
            }
            let (found, claim) = self.slot.cell.turn(seen, seen + ONE_READER);
            if found == seen {
                // Always so, since no other entry comes to the slot while this pin exists, but only
                // this comparison proves it.
                if have_one_entry(&self.claim, &claim) {
                    return Ok(Pin {
                        slot: self.slot,
                        claim,
                        asked: self.asked.again(),
                        shown: self.shown.again(),
                        stored: self.stored.again(),
                        seen: self.seen.again(),
                    });
                }
                claim.leave();
                return Err(Refusal::Overflow);
            }
            claim.done();
            seen = found;
        }
        Err(Refusal::Overflow)
    }

    /// Releases the pin, and returns the state of the entry afterwards.
    #[inline(always)]
    pub fn release(self) -> Released {
        let Self {
            slot: _,
            claim,
            asked: _,
            shown: _,
            stored: _,
            seen: _,
        } = self;
        let seen = claim.leave();
        if pins_of(seen) != 1 {
            Released::Pinned
        } else if state_of(seen) == MARKED {
            Released::Invalidated
        } else {
            Released::Idle
        }
    }
}
