//! Holds: pins that are only counted, for callers that cannot keep a claim.
//!
//! A hold keeps an entry in its slot as a pin does. But it is a number in the word, above the
//! chances, and borrows nothing. In Rattle, a debt stands for it: a `Hold` for that of an owned
//! handle, and a `HoldAt` for one that is about to be lent to C. In C, its place does, which is a
//! number. So whoever says there that it ends a hold of a slot need not have one: if the slot has
//! none, nothing changes.
//!
//! The value is copied under a claim, which ends before the call does. So a hold takes one step
//! more than a pin.
ghost use Rattle.std.specs.Prelude.{◌≡◌, ◌<◌, IfErr, IfOk, IfSome};
ghost use Rattle.lru_clock.specs.Places.{place_of};

use crate::history::Log;
use crate::store::slot::content::Content;
use crate::store::slot::{
    MOST_CHANCES, MOST_PINS, MOST_USED, ONE_CHANCE, ONE_HOLD, Pin, PinAt, Released, Slot, holds_of,
    is_kept, pins_of, state_of,
};
use concurrent_lru::fit::Fit;
use concurrent_lru::sharded::Refusal;
use concurrent_lru::shown::Shown;
use lru_slot::{Claim, MARKED, ONE_READER, PRESENT};
use std::marker::{Model, PhantomData};

// The least word that has the maximum number of holds.
const MOST_HOLDS: u64 = 0xffff_0000_0000_0000;

/// A debt: a hold of the entry that a pin had. Until `Store::end_hold` takes it, the entry is
/// neither freed nor evicted. It borrows nothing, so it does not read the value.
///
/// Clauses see what they see of the pin.
pub struct Hold<K: Eq, V, F: Fit<K, V>> {
    place: u32,
    asked: Shown<K>,
    shown: Shown<V>,
    stored: Shown<Option<u64>>,
    seen: Log<K, V>,
    mark: PhantomData<F>,
}

impl<K: Eq, V, F: Fit<K, V>> Model for Hold<K, V, F> {
    ghost use Rattle.std.specs.Prelude.{◌≡◌};
    ghost use Rattle.lru_clock.specs.Hits.{HasArrived};
    ghost use Rattle.lru_clock.specs.Pins.{PinOf};

    ghost Value = { PinOf K V };

    ghost view = { λ h. record {
      place = h.place;
      key = h.asked.value;
      value = h.shown.value;
      stored = h.stored.value;
      book = h.seen.book;
      log = h.seen.log;
    } };

    ghost invariant = { λ h. F.fits h.asked.value h.shown.value
        × HasArrived K.eq h.seen.log h.asked.value h.shown.value };
}

impl<K: Eq, V, F: Fit<K, V>> Hold<K, V, F> {
    /// Returns the place of the entry.
    pub fn place(&self) -> u32
        ensures { result ≡ self.now.place }
    {
        self.place
    }

    // Returns another one for the same entry, which has to be counted first.
    fn again(&self) -> Self
        ensures { result ≡ self.now }
    {
        Hold {
            place: self.place,
            asked: self.asked.again(),
            shown: self.shown.again(),
            stored: self.stored.again(),
            seen: self.seen.again(),
            mark: PhantomData,
        }
    }
}

impl<K: Eq + Drop, V: Drop, F: Fit<K, V>> Hold<K, V, F> {
    /// Ends the hold, which is one of this slot, and returns the state of the entry afterwards.
    /// Returns `None` if there is no slot, or no hold: neither can be, but no clause says so.
    pub(in crate::store) fn end(self, slot: Option<&Slot<K, V, F>>) -> Option<Released>
        requires slot { IfSome slot (λ slot. place_of slot.now.spot.value ≡ self.place) }
        requires book { IfSome slot (λ slot. slot.now.track.word.book ≡ self.book) }
    {
        let Hold {
            place: _,
            asked: _,
            shown: _,
            stored: _,
            seen: _,
            mark: _,
        } = self;
        slot?.end_hold()
    }
}

/// A debt: a hold of the entry at a place, for a caller in C. Until it is ended, the entry is
/// neither freed nor evicted. It borrows nothing, and knows no history.
///
/// Clauses see the place.
pub struct HoldAt {
    place: u32,
}

impl Model for HoldAt {
    ghost use Rattle.std.specs.Prelude.{ℕ};

    ghost Value = { ℕ };

    ghost view = { λ h. h.place };
}

impl HoldAt {
    /// Returns the place, as which the caller in C has the hold from then on. It ends the hold by
    /// passing this number to `Core::end_hold` or `Core::end_hold_and_take`.
    #[inline(always)]
    pub fn into_place(self) -> u32
        ensures { result ≡ self }
    {
        let HoldAt { place } = self;
        place
    }

    // Ends the hold, which is one of this slot, and returns the state of the entry afterwards.
    // Returns `None` if there is no hold, which cannot be, but no clause says so.
    #[inline(always)]
    fn end<K: Eq + Drop, V: Drop, F: Fit<K, V>>(self, slot: &Slot<K, V, F>) -> Option<Released>
        requires slot { place_of slot.now.spot.value ≡ self }
    {
        let HoldAt { place: _ } = self;
        slot.end_hold()
    }
}

impl<K: Eq + Drop, V: Drop, F: Fit<K, V>> PinAt<'_, K, V, F> {
    /// Turns the pin into a hold. Tries again while the entry has the maximum number of holds.
    pub fn into_hold(self) -> HoldAt
        ensures { result ≡ self.entry.place }
    {
        let PinAt { place, pin } = self;
        for _ in 0..u64::MAX {
            if pin.slot.add_hold(MOST_HOLDS / ONE_HOLD).is_ok() {
                break;
            }
        }
        let _ = pin.release();
        HoldAt { place }
    }
}

impl<'a, K: Eq + Drop, V: Drop, F: Fit<K, V>> Pin<'a, K, V, F> {
    /// Holds the entry, even if it was invalidated.
    ///
    /// Returns `Overflow` if the entry has this many holds.
    pub fn hold(&self, place: u32, most_holds: u64) -> Result<Hold<K, V, F>, Refusal>
        requires place { self.now.place ≡ place }
        requires limit { most_holds < 1073741823 }
        ensures hold { IfOk result (λ h. h ≡ self.now) }
        ensures refused { IfErr result (λ e. e ≡ Refusal.Overflow) }
    {
        self.slot.add_hold(most_holds)?;
        Ok(Hold {
            place,
            asked: self.asked.again(),
            shown: self.shown.again(),
            stored: self.stored.again(),
            seen: self.seen.again(),
            mark: PhantomData,
        })
    }
}

impl<K: Eq + Drop, V: Drop, F: Fit<K, V>> Slot<K, V, F> {
    // Counts a hold more of whatever entry is in the slot, even of an invalidated one.
    //
    // Returns `Overflow` if the entry has this many.
    fn add_hold(&self, most_holds: u64) -> Result<(), Refusal>
        requires limit { most_holds < 1073741823 }
        ensures { IfErr result (λ e. e ≡ Refusal.Overflow) }
    {
        let mut seen = self.cell.load();
        for _ in 0..u64::MAX {
            let state = state_of(seen);
            if (state != PRESENT && state != MARKED) || holds_of(seen) >= most_holds {
                return Err(Refusal::Overflow);
            }
            let (found, claim) = self.cell.turn(seen, seen + ONE_HOLD);
            claim.done();
            if found == seen {
                return Ok(());
            }
            seen = found;
        }
        Err(Refusal::Overflow)
    }

    /// Holds the entry of a hold once more.
    ///
    /// Returns `Overflow` if the entry has this many holds.
    pub(in crate::store) fn hold_again(
        &self,
        hold: &Hold<K, V, F>,
        most_holds: u64,
    ) -> Result<Hold<K, V, F>, Refusal>
        requires slot { place_of self.now.spot.value ≡ hold.now.place }
        requires book { self.now.track.word.book ≡ hold.now.book }
        requires limit { most_holds < 1073741823 }
        ensures hold { IfOk result (λ h. h ≡ hold.now) }
        ensures refused { IfErr result (λ e. e ≡ Refusal.Overflow) }
    {
        self.add_hold(most_holds)?;
        Ok(hold.again())
    }

    /// Ends a hold of the entry, and returns its state afterwards. Returns `None` if it has no
    /// hold.
    #[inline(always)]
    pub fn end_hold(&self) -> Option<Released> {
        let mut seen = self.cell.load();
        for _ in 0..u64::MAX {
            let state = state_of(seen);
            if seen < ONE_HOLD || (state != PRESENT && state != MARKED) {
                return None;
            }
            let (found, claim) = self.cell.turn(seen, seen - ONE_HOLD);
            claim.done();
            if found == seen {
                return Some(left_by_hold(seen - ONE_HOLD));
            }
            seen = found;
        }
        None
    }
}

impl<K: Eq + Drop, V: Copy + Drop, F: Fit<K, V>> Slot<K, V, F> {
    /// Holds the entry if it is present and has this key, gives it another chance, up to three, and
    /// returns its value with the hold. The place is that of this slot.
    ///
    /// Returns `Overflow` if the entry, of whatever key, has the maximum number of holds or pins.
    #[inline(always)]
    pub fn hold(&self, place: u32, key: &K) -> Result<Option<(HoldAt, V)>, Refusal>
        requires { place_of self.now.spot.value ≡ place }
        ensures { IfErr result (λ e. e ≡ Refusal.Overflow) }
    {
        // The word is guessed, as in `pin`.
        let (found, claim) = self.cell.turn(MOST_USED, MOST_USED + ONE_HOLD + ONE_READER);
        if found == MOST_USED {
            return Ok(self.value_of(HoldAt { place }, claim, key));
        }
        claim.done();
        self.hold_from(found, place, key)
    }

    // Does what `hold` does, after the word was found to be `seen`.
    fn hold_from(&self, seen: u64, place: u32, key: &K) -> Result<Option<(HoldAt, V)>, Refusal>
        requires { place_of self.now.spot.value ≡ place }
        ensures { IfErr result (λ e. e ≡ Refusal.Overflow) }
    {
        let mut seen = seen;
        for _ in 0..u64::MAX {
            if state_of(seen) != PRESENT {
                return Ok(None);
            }
            if pins_of(seen) > MOST_PINS || seen >= MOST_HOLDS {
                return Err(Refusal::Overflow);
            }
            let next = if seen % ONE_HOLD < MOST_CHANCES {
                seen + ONE_HOLD + ONE_CHANCE + ONE_READER
            } else {
                seen + ONE_HOLD + ONE_READER
            };
            let (found, claim) = self.cell.turn(seen, next);
            if found == seen {
                return Ok(self.value_of(HoldAt { place }, claim, key));
            }
            claim.done();
            seen = found;
        }
        Ok(None)
    }

    // Ends a claim that came with a hold. Returns the hold with the value if the entry has this
    // key, and else ends the hold too.
    #[inline(always)]
    fn value_of(
        &self,
        hold: HoldAt,
        claim: Claim<'_, Content<K, V, F>>,
        key: &K,
    ) -> Option<(HoldAt, V)>
        requires slot { place_of self.now.spot.value ≡ hold }
        requires read { claim.right ≡ 1 }
    {
        let value = match claim.get() {
            Content::Entry { kept, .. } => {
                if kept.key == *key {
                    Some(kept.value)
                } else {
                    None
                }
            }
            Content::Empty => None,
        };
        claim.leave();
        self.with_value(hold, value)
    }

    // Returns the hold with the value, and ends it if there is none.
    #[inline(always)]
    fn with_value(&self, hold: HoldAt, value: Option<V>) -> Option<(HoldAt, V)>
        requires { place_of self.now.spot.value ≡ hold }
        ensures { IfSome result (λ held. held.0 ≡ hold) }
    {
        match value {
            Some(value) => Some((hold, value)),
            None => {
                let _ = hold.end(self);
                None
            }
        }
    }

    /// Holds whatever entry is in the slot, even an invalidated one, and returns its value with the
    /// hold. The place is that of this slot.
    ///
    /// Returns `Overflow` if the entry has the maximum number of holds or pins.
    pub fn hold_any(&self, place: u32) -> Result<Option<(HoldAt, V)>, Refusal>
        requires { place_of self.now.spot.value ≡ place }
        ensures place { IfOk result (λ found. IfSome found (λ held. held.0 ≡ place)) }
        ensures refused { IfErr result (λ e. e ≡ Refusal.Overflow) }
    {
        let mut seen = self.cell.load();
        for _ in 0..u64::MAX {
            if state_of(seen) != PRESENT && state_of(seen) != MARKED {
                return Ok(None);
            }
            if pins_of(seen) > MOST_PINS || seen >= MOST_HOLDS {
                return Err(Refusal::Overflow);
            }
            let (found, claim) = self.cell.turn(seen, seen + ONE_HOLD + ONE_READER);
            if found == seen {
                let hold = HoldAt { place };
                let value = match claim.get() {
                    Content::Entry { kept, .. } => Some(kept.value),
                    Content::Empty => None,
                };
                claim.leave();
                return Ok(self.with_value(hold, value));
            }
            claim.done();
            seen = found;
        }
        Ok(None)
    }
}

// Returns the state of an entry with this word.
#[inline(always)]
fn left_by_hold(word: u64) -> Released {
    if is_kept(word) {
        Released::Pinned
    } else if state_of(word) == MARKED {
        Released::Invalidated
    } else {
        Released::Idle
    }
}
