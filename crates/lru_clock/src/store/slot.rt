//! Slots, each with room for one entry and a word that says who may read or write the entry.
//!
//! The low half of the word is laid out by `lru_slot`: two bits for the state, and 30 for the
//! number of pins. The high half is the number of the entry's chances: how often the hand spares
//! the entry before it evicts it. So a hit adds its pin and a chance in one compare-exchange. Above
//! the chances is the number of holds, which `holds` says more of.
//!
//! The life of a slot, by the states of its word:
//!
//! ```text
//!             claim             fill                mark
//!     FREE ----------> TAKEN ----------> PRESENT ----------> MARKED
//!       ^              |   ^                |                   |
//!       |     free     |   | look, take_at  |   look, take_at   |
//!       +--------------+   +----------------+-------------------+
//! ```
//!
//! The holder of the lock takes these steps:
//!
//! - `FREE` to `TAKEN`, by a compare-exchange: the slot is about to get an entry;
//! - `TAKEN` to `PRESENT`, or to `MARKED` if the entry was invalidated before it came, by a store:
//!   the entry is there, with a pin of whoever stored it;
//! - `PRESENT` to `MARKED`, by a compare-exchange: the entry is invalidated;
//! - one chance less or all, only without pins, by a compare-exchange: a look;
//! - `PRESENT` or `MARKED` to `TAKEN`, only without pins, by a compare-exchange: the entry is about
//!   to leave. It stays in the slot until another entry takes its place;
//! - `TAKEN` to `FREE`, by a store, if no other entry does: the slot is empty.
//!
//! Anybody takes these:
//!
//! - a pin more and perhaps a chance, only in `PRESENT`, by a compare-exchange: a hit, a comparison
//!   of keys, or a visit;
//! - a pin more by a caller that has one, in `PRESENT` or `MARKED`, by a compare-exchange: a clone;
//! - a hold more or less, in `PRESENT` or `MARKED`, by a compare-exchange: `holds` says by whom;
//! - a chance less, by a compare-exchange, after a comparison of keys that differ;
//! - a pin less, by a subtraction: whoever has the pin gives it back.
ghost use Rattle.std.specs.Prelude.{◌≡◌, ◌≢◌, ◌<◌, ◌%◌, ◌/◌, IfErr, IfOk, IfSome, IsTrue};
ghost use Rattle.std.specs.Prelude.{MatchOption};
ghost use Rattle.lru_slot.specs.Words.{readers, Gains, IsTurn};
ghost use Rattle.lru_clock.specs.Hits.{Sees};
ghost use Rattle.lru_clock.specs.Looks.{after_look as after_look_};
ghost use Rattle.lru_clock.specs.Places.{place_of};

mod claimed;
mod content;
mod holds;
mod pins;

use crate::history::past::Past;
use crate::history::track::{Recorded, Track};
use crate::history::{Chronicle, Log};
use crate::order::{Cost, Look};
pub use crate::store::slot::claimed::{Claimed, Taken};
use crate::store::slot::content::Content;
pub use crate::store::slot::holds::{Hold, HoldAt};
use concurrent_lru::fit::{Anything, Fit};
use concurrent_lru::sharded::Refusal;
use concurrent_lru::shown::Shown;
use lru_slot::{Claim, Counted, FREE, MARKED, ONE_READER, PRESENT, TAKEN};
use std::marker::{Model, PhantomData};
use std::mem::size_of;

/// The maximum number of pins of an entry. The word has room for one more, which a caller that
/// finds the maximum takes while it compares the key.
pub const MOST_PINS: u64 = 0x3fff_fffe;

const ONE_CHANCE: u64 = 0x1_0000_0000;

const ONE_HOLD: u64 = 0x4_0000_0000;

// The least word with the maximum number of chances.
const MOST_CHANCES: u64 = 0x3_0000_0000;

// The word of a present entry that has the maximum number of chances, and that nobody has pinned.
const MOST_USED: u64 = MOST_CHANCES + PRESENT;

/// A key and a value, which fits the key by the mark `F`.
#[derive(Drop)]
pub struct Kept<K: Eq, V, F: Fit<K, V>> {
    pub key: K,
    pub value: V,
    pub mark: PhantomData<F>,
}

/// Room for one entry. A `PRESENT` entry is found by its key; a `MARKED` one was invalidated, and
/// stays for those who have pinned it.
#[derive(Drop)]
pub struct Slot<K: Eq, V, F: Fit<K, V>> {
    cell: Counted<Content<K, V, F>>,
    // The slot's counter in the history.
    pub track: Track<K, V>,
    // The number of the slot's page, and the slot's position there.
    pub spot: Shown<(usize, usize)>,
    ghost same: { cell ≡ track.word },
}

const _: () = prove!(size_of::<Slot<u64, u64, Anything>>() == 48);

/// A debt: a pin. `release` takes it; until then the entry is neither freed nor evicted.
///
/// Clauses see the place of its slot, the key that the caller asked for, the value, which fits that
/// key by the mark `F`, the charge under which the call stored the entry, if it did (`stored`), and
/// the prefix of the history that the call saw.
pub struct Pin<'a, K: Eq, V, F: Fit<K, V>> {
    slot: &'a Slot<K, V, F>,
    claim: Claim<'a, Content<K, V, F>>,
    asked: Shown<K>,
    shown: Shown<V>,
    stored: Shown<Option<u64>>,
    seen: Log<K, V>,
}

impl<'a, K: Eq, V, F: Fit<K, V>> Model for Pin<'a, K, V, F> {
    ghost use Rattle.std.specs.Prelude.{◌≡◌};
    ghost use Rattle.lru_clock.specs.Contents.{HasValue};
    ghost use Rattle.lru_clock.specs.Hits.{HasArrived};
    ghost use Rattle.lru_clock.specs.Pins.{PinOf};
    ghost use Rattle.lru_clock.specs.Places.{place_of};

    ghost Value = { PinOf K V };

    ghost view = { λ p. record {
      place = place_of p.slot.now.spot.value;
      key = p.asked.value;
      value = p.shown.value;
      stored = p.stored.value;
      book = p.seen.book;
      log = p.seen.log;
    } };

    ghost invariant = { λ p. (p.claim.right ≡ 1)
        × (p.claim.tag ≡ p.slot.now.track.word)
        × HasValue p.claim.value p.shown.value
        × F.fits p.asked.value p.shown.value
        × HasArrived K.eq p.seen.log p.asked.value p.shown.value };
}

/// A pin of the entry at a place.
pub struct PinAt<'a, K: Eq, V, F: Fit<K, V>> {
    pub place: u32,
    pub pin: Pin<'a, K, V, F>,
    pub ghost at: { pin.place ≡ place },
}

/// The state of an entry after a pin of it was released.
#[derive(Clone, Copy, PartialEq, Eq)]
pub enum Released {
    /// Others have pinned it.
    Pinned,
    /// Nobody has pinned it.
    Idle,
    /// Nobody has pinned it, and it was invalidated.
    Invalidated,
}

fn state_of(word: u64) -> u64
    ensures { result ≡ word % 4 }
{
    word % 4
}

fn pins_of(word: u64) -> u64
    ensures { result ≡ readers word }
{
    word % ONE_CHANCE / ONE_READER
}

fn holds_of(word: u64) -> u64
    ensures { result ≡ word / 17179869184 }
{
    word / ONE_HOLD
}

// Returns whether somebody has pinned or holds the entry of a slot with this word.
fn is_kept(word: u64) -> bool {
    pins_of(word) != 0 || word >= ONE_HOLD
}

// Returns whether the slot with this word has an entry that nobody has pinned or holds.
fn is_idle(word: u64) -> bool
    ensures turn { IsTrue result → IsTurn word 3 }
    ensures unheld { IsTrue result → word < 17179869184 }
{
    let state = state_of(word);
    pins_of(word) == 0 && word < ONE_HOLD && (state == PRESENT || state == MARKED)
}

// Returns the word of a slot after a look that found this one, and an entry that nobody has pinned.
fn after_look(word: u64, cost: Cost) -> u64
    requires { IsTurn word 3 }
    ensures word { result ≡ after_look_ cost word }
    ensures turn { IsTurn word result }
{
    if state_of(word) != PRESENT || word < ONE_CHANCE {
        return TAKEN;
    }
    match cost {
        Cost::OneChance => word - ONE_CHANCE,
        Cost::AllChances => word % ONE_CHANCE,
    }
}

impl<K: Eq + Drop, V: Drop, F: Fit<K, V>> Slot<K, V, F> {
    /// Creates the empty slot at a position of a page, and adds it to a history.
    pub(super) fn new(chronicle: &Chronicle<K, V>, page: usize, at: usize) -> Self
        ensures book { result.track.word.book ≡ chronicle.now.first.book }
        ensures spot { result.spot.value ≡ (page, at) }
    {
        let track = chronicle.begin();
        Slot {
            cell: Counted::new(Content::Empty, &track.word),
            track,
            spot: Shown::of(&(page, at)),
        }
    }

    /// Pins the entry if it is present and has this key, and gives it another chance, up to three.
    ///
    /// With a past, pins the entry only if its making began after `since`. The prefix of the
    /// history that the pin then has extends the one that the past has seen, and the entry is in
    /// the slot at the end of it.
    ///
    /// Returns `Overflow` if the entry has this key and the maximum number of pins.
    #[inline(always)]
    pub fn pin(
        &self,
        key: &K,
        most_pins: u64,
        past: &Option<Past<K, V>>,
    ) -> Result<Option<Pin<'_, K, V, F>>, Refusal>
        requires limit { most_pins < 1073741823 }
        requires book { IfSome past.now (λ p. p.book ≡ self.now.track.word.book) }
        ensures pin { IfOk result (λ found. IfSome found
            (λ p. (p.key ≡ key.now) × F.fits key.now p.value)) }
        ensures place { IfOk result (λ found. IfSome found
            (λ p. p.place ≡ place_of self.now.spot.value)) }
        ensures book { IfOk result (λ found. IfSome found
            (λ p. p.book ≡ self.now.track.word.book)) }
        ensures since { IfSome past.now (λ past. IfOk result (λ found. IfSome found
            (λ p. Sees K.eq past key.now p.value p.book p.log))) }
        ensures refused { IfErr result (λ e. e ≡ Refusal.Overflow) }
    {
        // The word is guessed and not loaded first, since a load would transfer the word's cache
        // line one more time if another thread wrote the word last.
        let (found, claim) = self.cell.turn(MOST_USED, MOST_USED + ONE_READER);
        if found == MOST_USED {
            return Pin::of_key(self, claim, key, past, most_pins == 0);
        }
        claim.done();
        self.pin_from(found, key, most_pins, past)
    }

    // Does what `pin` does, after the word was found to be `seen`.
    #[inline(always)]
    fn pin_from(
        &self,
        seen: u64,
        key: &K,
        most_pins: u64,
        past: &Option<Past<K, V>>,
    ) -> Result<Option<Pin<'_, K, V, F>>, Refusal>
        requires limit { most_pins < 1073741823 }
        requires book { IfSome past.now (λ p. p.book ≡ self.now.track.word.book) }
        ensures pin { IfOk result (λ found. IfSome found
            (λ p. (p.key ≡ key.now) × F.fits key.now p.value)) }
        ensures place { IfOk result (λ found. IfSome found
            (λ p. p.place ≡ place_of self.now.spot.value)) }
        ensures book { IfOk result (λ found. IfSome found
            (λ p. p.book ≡ self.now.track.word.book)) }
        ensures since { IfSome past.now (λ past. IfOk result (λ found. IfSome found
            (λ p. Sees K.eq past key.now p.value p.book p.log))) }
        ensures refused { IfErr result (λ e. e ≡ Refusal.Overflow) }
    {
        let mut seen = seen;
        for _ in 0..u64::MAX {
            if state_of(seen) != PRESENT {
                return Ok(None);
            }
            let pins = pins_of(seen);
            // There is one more pin than the maximum while another caller compares the key.
            if pins > most_pins {
                seen = self.cell.load();
                continue;
            }
            let is_chance = seen < MOST_CHANCES;
            let next = if is_chance {
                seen + ONE_CHANCE + ONE_READER
            } else {
                seen + ONE_READER
            };
            let (found, claim) = self.cell.turn(seen, next);
            if found == seen {
                let pinned = Pin::of_key(self, claim, key, past, pins == most_pins);
                if is_chance && matches!(&pinned, Ok(None)) {
                    self.lose_chance();
                }
                return pinned;
            }
            claim.done();
            seen = found;
        }
        Ok(None)
    }

    // Takes back a chance that was given to the entry of another key. If the word changes at the
    // same time, the entry keeps the chance.
    #[inline(never)]
    fn lose_chance(&self) {
        let seen = self.cell.load();
        if state_of(seen) == PRESENT && seen % ONE_HOLD >= ONE_CHANCE {
            let (_, claim) = self.cell.turn(seen, seen - ONE_CHANCE);
            claim.done();
        }
    }

    /// Returns whether the entry, if there is one, is pinned or held.
    pub fn is_pinned(&self) -> bool {
        is_kept(self.cell.load())
    }

    /// Calls `f` with the entry if it is present: with its key, its value, this charge and the
    /// number of its pins and holds. Returns what `f` does. The entry is pinned meanwhile, and gets
    /// no chance.
    pub fn visit<T, G>(&self, most_pins: u64, charge: u64, f: &mut G) -> Option<T>
    where
        G: FnMut(&K, &V, u64, u32) -> T,
        requires limit { most_pins < 1073741823 }
        requires callable { (state : G) (k : _) (v : _) (charge pins : _)
            → F.fits k.now v.now → G.pre state k v charge pins }
    {
        let mut seen = self.cell.load();
        for _ in 0..u64::MAX {
            if state_of(seen) != PRESENT {
                return None;
            }
            let pins = pins_of(seen);
            // There is one more pin than the maximum while another caller compares the key.
            if pins > most_pins {
                seen = self.cell.load();
                continue;
            }
            let (found, claim) = self.cell.turn(seen, seen + ONE_READER);
            if found == seen {
                let told = match claim.get() {
                    Content::Entry { kept, .. } => Some(f(
                        &kept.key,
                        &kept.value,
                        charge,
                        (pins + holds_of(seen)) as u32,
                    )),
                    Content::Empty => None,
                };
                claim.leave();
                return told;
            }
            claim.done();
            seen = found;
        }
        None
    }

    /// Claims a free slot, which is about to get an entry. Returns `None` if the slot is not free.
    pub(super) fn claim(&self) -> Option<Claimed<'_, K, V, F>>
        ensures place { IfSome result
            (λ claimed. claimed.place ≡ place_of self.now.spot.value) }
        ensures book { IfSome result (λ claimed. claimed.book ≡ self.now.track.word.book) }
    {
        let (found, claim) = self.cell.turn(FREE, TAKEN);
        if found != FREE {
            claim.done();
            return None;
        }
        Some(Claimed {
            slot: self,
            claim,
            recorded: None,
        })
    }

    /// Invalidates the entry: nobody can pin it any more, but it stays for the callers that have.
    pub fn mark(&self) {
        for _ in 0..u64::MAX {
            let seen = self.cell.load();
            if state_of(seen) != PRESENT {
                return;
            }
            if let Some((claim, recorded)) = self.hide(seen, seen + 1) {
                claim.done();
                if let Some(recorded) = recorded {
                    self.track.leave(recorded);
                }
                return;
            }
        }
    }

    // Changes the word from `seen` to `next`, with which nobody finds the entry any more. Returns
    // the claim, and the debt of the entry, which the history has in the slot unless it was
    // invalidated before.
    //
    // Returns `None` if the word has changed.
    #[inline(always)]
    fn hide(
        &self,
        seen: u64,
        next: u64,
    ) -> Option<(Claim<'_, Content<K, V, F>>, Option<Recorded<K, V>>)>
        requires { IsTurn seen next }
        ensures gains { IfSome result (λ hidden. Gains seen next hidden.0.right) }
        ensures slot { IfSome result (λ hidden. hidden.0.tag ≡ self.now.track.word) }
        ensures recorded { IfSome result
            (λ hidden. IfSome hidden.1 (λ r. r ≡ self.now.track.word)) }
    {
        let (found, claim) = self.cell.turn(seen, next);
        if found != seen {
            claim.done();
            return None;
        }
        if state_of(seen) == PRESENT {
            Some((claim, Some(self.track.recorded())))
        } else {
            Some((claim, None))
        }
    }

    /// Looks at the entry, if there is one. An entry that nobody has pinned loses one chance or all
    /// of them, as `cost` says, or is taken out if it has none. So is an invalidated one, whatever
    /// its chances.
    ///
    /// If the word changes meanwhile, nothing is done, and the entry counts as pinned.
    pub(super) fn look(&self, place: u32, cost: Cost) -> (Look, Option<Taken<'_, K, V, F>>)
        requires slot { place_of self.now.spot.value ≡ place }
        ensures found { MatchOption result.1 (result.0 ≢ Look.Unused)
            (λ taken. (taken.place ≡ place) × (result.0 ≡ Look.Unused)) }
        ensures book { IfSome result.1
            (λ taken. taken.claimed.book ≡ self.now.track.word.book) }
    {
        let seen = self.cell.load();
        if !is_idle(seen) {
            return (Look::Pinned, None);
        }
        let next = after_look(seen, cost);
        if next == TAKEN {
            return match self.take_at(place, seen) {
                Some(taken) => (Look::Unused, Some(taken)),
                None => (Look::Pinned, None),
            };
        }
        let (found, claim) = self.cell.turn(seen, next);
        claim.done();
        if found == seen {
            (Look::Used, None)
        } else {
            (Look::Pinned, None)
        }
    }

    /// Takes out the entry, whatever its chances, if nobody has pinned it.
    pub(super) fn take_idle(&self, place: u32) -> Option<Taken<'_, K, V, F>>
        requires slot { place_of self.now.spot.value ≡ place }
        ensures place { IfSome result (λ taken. taken.place ≡ place) }
        ensures book { IfSome result (λ taken. taken.claimed.book ≡ self.now.track.word.book) }
    {
        let seen = self.cell.load();
        if is_idle(seen) {
            self.take_at(place, seen)
        } else {
            None
        }
    }

    /// Takes out the entry if it was invalidated and nobody has pinned it.
    pub(super) fn take_invalidated(&self, place: u32) -> Option<Taken<'_, K, V, F>>
        requires slot { place_of self.now.spot.value ≡ place }
        ensures place { IfSome result (λ taken. taken.place ≡ place) }
        ensures book { IfSome result (λ taken. taken.claimed.book ≡ self.now.track.word.book) }
    {
        let seen = self.cell.load();
        if state_of(seen) == MARKED && is_idle(seen) {
            self.take_at(place, seen)
        } else {
            None
        }
    }

    // Takes out the entry, unless the word has changed.
    fn take_at(&self, place: u32, seen: u64) -> Option<Taken<'_, K, V, F>>
        requires turn { IsTurn seen 3 }
        requires unheld { seen < 17179869184 }
        requires slot { place_of self.now.spot.value ≡ place }
        ensures place { IfSome result (λ taken. taken.place ≡ place) }
        ensures book { IfSome result (λ taken. taken.claimed.book ≡ self.now.track.word.book) }
    {
        let (claim, recorded) = self.hide(seen, TAKEN)?;
        Some(Taken {
            place,
            claimed: Claimed {
                slot: self,
                claim,
                recorded,
            },
        })
    }
}
