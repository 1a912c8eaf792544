//! Slots that their holder alone may read and write.
ghost use Rattle.std.specs.Prelude.{◌≡◌, true, IfOk, IfSome};
ghost use Rattle.lru_clock.specs.Hits.{ComesLast};

use crate::history::Chronicle;
use crate::history::track::Recorded;
use crate::store::slot::content::Content;
use crate::store::slot::{Kept, Pin, Slot};
use concurrent_lru::fit::Fit;
use concurrent_lru::shown::Shown;
use lru_slot::{Claim, FREE, MARKED, ONE_READER, PRESENT};
use std::marker::Model;

/// A debt: a slot that its holder alone may read and write, with the entry that is about to leave,
/// if there is one. `fill` or `free` takes it. Clauses see the slot's place and the book of its
/// history.
pub struct Claimed<'a, K: Eq, V, F: Fit<K, V>> {
    pub(super) slot: &'a Slot<K, V, F>,
    pub(super) claim: Claim<'a, Content<K, V, F>>,
    // The debt of the entry that the history has in the slot. An invalidated one has already left.
    pub(super) recorded: Option<Recorded<K, V>>,
}

impl<'a, K: Eq, V, F: Fit<K, V>> Model for Claimed<'a, K, V, F> {
    ghost use Rattle.std.specs.Prelude.{◌≡◌, IfSome};
    ghost use Rattle.lru_clock.specs.Pins.{ClaimedOf};
    ghost use Rattle.lru_clock.specs.Places.{place_of};

    ghost Value = { ClaimedOf };

    ghost view = { λ c. record {
      place = place_of c.slot.now.spot.value;
      book = c.slot.now.track.word.book;
    } };

    ghost invariant = { λ c. (c.claim.right ≡ 2)
        × (c.claim.tag ≡ c.slot.now.track.word)
        × IfSome c.recorded (λ r. r ≡ c.slot.now.track.word) };
}

/// A debt: an entry that was taken out of the slot at a place, and whose charge still counts.
/// `Seats::vacate` takes it. So no charge goes on counting after its entry was removed.
pub struct Taken<'a, K: Eq, V, F: Fit<K, V>> {
    pub(in crate::store) place: u32,
    pub(in crate::store) claimed: Claimed<'a, K, V, F>,
    pub ghost at: { claimed.place ≡ place },
}

impl<'a, K: Eq, V, F: Fit<K, V>> Taken<'a, K, V, F> {
    /// Returns the place from which the entry was taken.
    pub fn place(&self) -> u32
        ensures { result ≡ self.now.place }
    {
        self.place
    }
}

impl<'a, K: Eq + Drop, V: Drop, F: Fit<K, V>> Claimed<'a, K, V, F> {
    /// Stores an entry in the slot, and pins it. `charge` is the charge that counts for it. If the
    /// entry is already invalidated, it leaves the history at once, and nobody else can pin it.
    /// The ticket is that of the making of the value, or `None` if the making begins with this
    /// call. Returns the pin, and the entry that has left.
    ///
    /// If the new entry cannot be stored, returns it in place of the pin, and frees the slot.
    pub(in crate::store) fn fill(
        self,
        key: &K,
        kept: Kept<K, V, F>,
        charge: Shown<Option<u64>>,
        is_invalidated: bool,
        ticket: Option<u64>,
        chronicle: &Chronicle<K, V>,
    ) -> (
        Result<Pin<'a, K, V, F>, Kept<K, V, F>>,
        Option<Kept<K, V, F>>,
    )
        requires fits { F.fits kept.key kept.value }
        requires asked { F.fits key.now kept.value }
        requires equal { K.eq kept.key key.now ≡ true }
        requires book { chronicle.now.first.book ≡ self.book }
        ensures place { IfOk result.0 (λ p. p.place ≡ self.entry.place) }
        ensures pin { IfOk result.0 (λ p. (p.key ≡ key.now) × F.fits key.now p.value) }
        ensures value { IfOk result.0 (λ p. p.value ≡ kept.value) }
        ensures stored { IfOk result.0 (λ p. p.stored ≡ charge.value) }
        ensures ticket { IfSome ticket (λ t. IfOk result.0 (λ p. ComesLast t p.value p.log)) }
        ensures book { IfOk result.0 (λ p. p.book ≡ self.entry.book) }
    {
        let Self {
            slot,
            claim,
            recorded,
        } = self;
        let (passed, _) = slot.track.look(&chronicle.first);
        // Always `Some`, since nobody else draws a number without the lock.
        let Some((number, ticket, seen)) = chronicle.number(passed, ticket) else {
            let back = Claimed {
                slot,
                claim,
                recorded,
            };
            return (Err(kept), back.free());
        };
        // Always `Ok`, since nobody else changes the counter of a slot without the lock. The entry
        // that is about to leave, if there is one, leaves the history in the same step.
        let (arrival, age, recorded) = match slot
            .track
            .come(number, ticket, &seen, &kept.key, &kept.value, recorded)
        {
            Ok(came) => came,
            Err(recorded) => {
                let back = Claimed {
                    slot,
                    claim,
                    recorded,
                };
                return (Err(kept), back.free());
            }
        };
        let shown = Shown::of(&kept.value);
        let log = arrival.log.again();
        let content = Content::Entry { age, kept, arrival };
        let (old, claim) = if is_invalidated {
            slot.track.leave(recorded);
            claim.put_pinned(content, MARKED + ONE_READER)
        } else {
            recorded.keep();
            claim.put_pinned(content, PRESENT + ONE_READER)
        };
        let pin = Pin {
            slot,
            claim,
            asked: Shown::of(key),
            shown,
            stored: charge,
            seen: log,
        };
        (Ok(pin), old.into_kept())
    }

    /// Frees the slot, and returns the entry that has left.
    pub(in crate::store) fn free(self) -> Option<Kept<K, V, F>> {
        let Self {
            slot,
            claim,
            recorded,
        } = self;
        if let Some(recorded) = recorded {
            slot.track.leave(recorded);
        }
        claim.put(Content::Empty, FREE).into_kept()
    }
}
