//! The slots of a shard and their index, which grow under the lock and are read without it.
//!
//! Slots are allocated in pages, and never move. The first eight pages have the same size, the next
//! eight twice that, and so on. So only slots of the last page, about a ninth of all slots in a
//! large shard, can be unused yet. A new index is twice as large as the one before it. The old ones
//! stay as they were: a reader that still has one may miss an entry, and looks again under the
//! lock.
ghost use Rattle.std.specs.Prelude.{◌≡◌, ◌≢◌, ◌<◌, true, Some, None, IfErr, IfOk, IfSome};
ghost use Rattle.std.specs.Prelude.{◌∷◌, MatchResult, is_some, sum_by};
ghost use Rattle.lru_clock.specs.Books.{EachAt, numbers};
ghost use Rattle.lru_clock.specs.Hits.{ComesLast};
ghost use Rattle.lru_clock.specs.Looks.{LooksOnce};
ghost use Rattle.lru_clock.specs.Orders.{IsWidened};
ghost use Rattle.lru_clock.specs.Places.{length_of, place_of};
ghost use Rattle.lru_clock.specs.SeatChanges.{AddsVacant};

mod looks;
mod search;
mod seat;
mod seats;
mod slot;

use crate::history::past::Past;
use crate::history::{Chronicle, Log};
use crate::index::Index;
use crate::order::{Cost, Look, Looked, Order};
pub use crate::store::looks::Looks;
pub use crate::store::seats::{Reservation, Seats};
use crate::store::slot::Claimed;
pub use crate::store::slot::{Hold, HoldAt, Kept, MOST_PINS, PinAt, Released, Slot, Taken};
use boxcar::slot::{OnceSlot, SlotRule};
use boxcar::tag::{Names, Tag};
use concurrent_lru::fit::Fit;
use concurrent_lru::sharded::Refusal;
use std::alloc::{AllocError, Global};
use std::marker::Model;
use std::sync::Arc;
use std::sync::atomic::AtomicU64;
use std::sync::atomic::Ordering::SeqCst;

// The number of slots in each of the first eight pages.
const FIRST_PAGE: usize = 64;

// With this many pages, every place fits a `u32`.
const PAGES: usize = 184;

/// The maximum number of slots of a shard.
pub const MOST_SLOTS: usize = 4_294_966_784;

// The maximum number of indexes, since each is twice as large as the one before it.
const LEVELS: usize = 26;

/// The rule of a page: each of its slots belongs to the history that the tag of the page names, and
/// its spot is the number that the tag has of the page, and its position in the page.
pub struct SlotsMatchTag;

impl<K: Eq, V, F: Fit<K, V>> SlotRule<Vec<Slot<K, V, F>>> for SlotsMatchTag {
    ghost use Rattle.std.specs.Prelude.{◌≡◌, ◌∷◌};
    ghost use Rattle.lru_clock.specs.Books.{EachAt, numbers};

    ghost holds = { λ tag page. EachAt (λ k slot. (slot.spot.value.1 ≡ k)
        × (slot.spot.value.0 ∷ numbers slot.track.word.book ≡ tag)) page.items };
}

/// The rule of an index: it may be any.
pub struct AnyIndex;

impl SlotRule<Arc<Index>> for AnyIndex {
    ghost use Rattle.std.specs.Prelude.{⊤};

    ghost holds = { λ _ _. ⊤ };
}

// A tag names a page by its number, and a history by the numbers of its book.
struct PageNumbers;

impl<K, V> Names<(usize, Log<K, V>)> for PageNumbers {
    ghost use Rattle.std.specs.Prelude.{◌∷◌};
    ghost use Rattle.lru_clock.specs.Books.{numbers};

    ghost numbers = { λ page. page.0 ∷ numbers page.1.book };
}

/// The slots of a shard, their history and their index.
#[derive(Drop)]
pub struct Store<K: Eq, V, F: Fit<K, V>> {
    // The number of the index in use.
    level: AtomicU64,
    // A `OnceLock` would wake those who wait for it, which no library for C may do.
    indexes: Vec<OnceSlot<Arc<Index>, AnyIndex>>,
    pages: Vec<OnceSlot<Vec<Slot<K, V, F>>, SlotsMatchTag>>,
    pub chronicle: Chronicle<K, V>,
    ghost tags: { EachAt (λ k page. page.tag ≡ k ∷ numbers chronicle.first.book) pages.items },
}

/// A debt: an entry that was removed or refused, with the copy of its key that its seat had or
/// would have had. `open` takes it, with the guard of the lock, so neither is dropped under the
/// lock; or `into_parts` does, for a caller that has no guard.
///
/// An entry that was removed lies in its slot until another is stored there. Clauses see the book
/// of that slot's history.
pub struct Left<'a, K: Eq, V, F: Fit<K, V>> {
    // The slot in which the entry lies, until it is taken out of it.
    taken: Option<Taken<'a, K, V, F>>,
    kept: Option<Kept<K, V, F>>,
    key_copy: Option<K>,
}

impl<'a, K: Eq, V, F: Fit<K, V>> Model for Left<'a, K, V, F> {
    ghost use Rattle.std.specs.Prelude.{Option};
    ghost use Rattle.core.specs.Option.{option_map};
    ghost use Rattle.logbook.specs.Pages.{Book};

    ghost Value = { Option Book };

    ghost view = { λ l. option_map (λ t. t.claimed.book) l.taken };
}

impl<'a, K: Eq + Drop, V: Drop, F: Fit<K, V>> Left<'a, K, V, F> {
    /// Returns the debt of an entry that was refused.
    pub fn refused(kept: Kept<K, V, F>, key_copy: Option<K>) -> Self
        ensures { result ≡ None }
    {
        Left {
            taken: None,
            kept: Some(kept),
            key_copy,
        }
    }

    // Returns the debt of an entry that lies in its slot.
    fn in_slot(taken: Taken<'a, K, V, F>, key_copy: Option<K>) -> Self
        ensures { result ≡ Some taken.entry.claimed.book }
    {
        Left {
            taken: Some(taken),
            kept: None,
            key_copy,
        }
    }

    // Takes the slot in which the entry that left lies, if the slot is at this place.
    fn take_slot(left: &mut Option<Self>, place: u32) -> Option<Claimed<'a, K, V, F>>
        ensures book { IfSome result (λ claimed. left.old ≡ Some (Some claimed.book)) }
        ensures place { IfSome result (λ claimed. claimed.place ≡ place) }
        ensures left { is_some left.new ≡ is_some left.old }
    {
        let Some(left) = left else {
            return None;
        };
        match &left.taken {
            Some(taken) => {
                if taken.place != place {
                    return None;
                }
            }
            None => return None,
        }
        let Taken { place: _, claimed } = left.taken.take()?;
        Some(claimed)
    }

    /// Releases the lock by dropping its guard, and then drops the entry. Frees the slot in which
    /// the entry lies before that.
    pub fn open<G: Drop>(self, guard: G) {
        let (kept, key_copy) = self.take();
        drop(guard);
        drop(kept);
        drop(key_copy);
    }

    /// Frees the slot in which the entry lies, and returns the key and the value. They are always
    /// there, as an entry that leaves lies in its slot, but no clause says so.
    pub fn into_parts(self) -> Option<(K, V)> {
        let (kept, key_copy) = self.take();
        drop(key_copy);
        let Kept {
            key,
            value,
            mark: _,
        } = kept?;
        Some((key, value))
    }

    // Takes the entry out of the slot in which it lies.
    fn take(self) -> (Option<Kept<K, V, F>>, Option<K>) {
        let Self {
            taken,
            kept,
            key_copy,
        } = self;
        match taken {
            Some(taken) => {
                let Taken { place: _, claimed } = taken;
                (claimed.free(), key_copy)
            }
            None => (kept, key_copy),
        }
    }
}

// Returns the page of a place, and its position in the page. Counted from 8 * FIRST_PAGE before the
// first place, each page of 2^k slots begins at a multiple of 2^k, from 8 * 2^k to 15 * 2^k.
#[inline(always)]
fn page_of(place: u32) -> (usize, usize)
    ensures place { place_of result ≡ place }
    ensures within { result.1 < length_of result.0 }
{
    let past = place as u64 + 8 * FIRST_PAGE as u64;
    let log = past.ilog2().wrapping_sub(3);
    let multiple = past.wrapping_shr(log);
    let sizes = log.wrapping_sub(FIRST_PAGE.ilog2()) as usize;
    let page = sizes
        .wrapping_mul(8)
        .wrapping_add(multiple as usize)
        .wrapping_sub(8);
    (page, past.wrapping_sub(multiple.wrapping_shl(log)) as usize)
}

// Returns the number of slots in a page.
fn page_len(page: usize) -> usize
    requires { page < 184 }
{
    FIRST_PAGE << (page / 8)
}

fn new_page<K: Eq + Drop, V: Drop, F: Fit<K, V>>(
    alloc: Global,
    page: usize,
    chronicle: &Chronicle<K, V>,
) -> Result<Vec<Slot<K, V, F>>, AllocError>
    requires { page < 184 }
    ensures { IfOk result (λ slots. EachAt (λ k slot. (slot.spot.value ≡ (page, k))
        × (slot.track.word.book ≡ chronicle.now.first.book)) slots.items) }
{
    let len = page_len(page);
    let mut slots = Vec::with_capacity(alloc, len)?;
    for _ in 0..len {
        slots.push(Slot::new(chronicle, page, slots.len()))?;
    }
    Ok(slots)
}

// Creates empty room for all pages, with the tags that name them and a history.
fn new_pages<K: Eq + Drop, V: Drop, F: Fit<K, V>>(
    alloc: Global,
    log: &Log<K, V>,
) -> Result<Vec<OnceSlot<Vec<Slot<K, V, F>>, SlotsMatchTag>>, AllocError>
    ensures { IfOk result
        (λ pages. EachAt (λ k page. page.tag ≡ k ∷ numbers log.now.book) pages.items) }
{
    let mut pages = Vec::with_capacity(alloc, PAGES)?;
    for _ in 0..PAGES {
        let tag = Tag::of::<(usize, Log<K, V>), PageNumbers>(&(pages.len(), log.again()));
        pages.push(OnceSlot::new(&tag))?;
    }
    Ok(pages)
}

impl<K: Eq + Drop, V: Drop, F: Fit<K, V>> Store<K, V, F> {
    /// Creates a store without slots, with an index for those who read it without the lock.
    ///
    /// Returns `AllocError` if the allocator refuses.
    pub fn new(alloc: Global, index: Arc<Index>) -> Result<Self, AllocError> {
        let mut indexes = Vec::with_capacity(alloc, LEVELS)?;
        for _ in 0..LEVELS {
            indexes.push(OnceSlot::new(&Tag::empty()))?;
        }
        let chronicle = Chronicle::new();
        let pages = new_pages(alloc, &chronicle.first)?;
        let store = Store {
            level: AtomicU64::new(0),
            indexes,
            pages,
            chronicle,
        };
        store.publish(index, 0);
        Ok(store)
    }

    /// Returns a past that has seen the history up to this call. Its `since` is the beginning, so
    /// that every making begins after it.
    pub fn past(&self) -> Past<K, V>
        ensures book { result.book ≡ self.now.chronicle.first.book }
    {
        self.chronicle.past()
    }

    /// Returns the slot at a place.
    #[inline(always)]
    pub fn slot(&self, place: u32) -> Option<&Slot<K, V, F>>
        ensures place { IfSome result (λ slot. place_of slot.now.spot.value ≡ place) }
        ensures book { IfSome result
            (λ slot. slot.now.track.word.book ≡ self.now.chronicle.first.book) }
    {
        let (page, at) = page_of(place);
        self.pages.get(page)?.get()?.get(at)
    }

    /// Stores an entry in the slot whose place was reserved for it, and returns the place and a
    /// pin. The ticket is that of the making of the value, or `None` if the making begins with this
    /// call. Nobody else can pin an entry that is invalidated before it is stored. An entry that is
    /// about to leave this slot leaves in the same step.
    ///
    /// Returns the reservation and the entry if the entry cannot be stored.
    pub fn fill<'a>(
        &'a self,
        reservation: Reservation<K>,
        key: &K,
        kept: Kept<K, V, F>,
        ticket: Option<u64>,
        is_invalidated: bool,
        left: &mut Option<Left<'a, K, V, F>>,
    ) -> Result<PinAt<'a, K, V, F>, (Reservation<K>, Kept<K, V, F>)>
        requires fits { F.fits kept.key kept.value }
        requires asked { F.fits key.now kept.value }
        requires equal { K.eq kept.key key.now ≡ true }
        requires copy { IfSome reservation.key.value (λ copy. K.eq copy kept.key ≡ true) }
        requires book { IfSome left.old (λ l. IfSome l (λ b. b ≡ self.now.chronicle.first.book)) }
        ensures place { MatchResult result (λ filled. filled.place ≡ reservation.place)
            (λ back. back.0.place ≡ reservation.place) }
        ensures pin { IfOk result
            (λ filled. (filled.pin.key ≡ key.now) × F.fits key.now filled.pin.value) }
        ensures value { IfOk result (λ filled. filled.pin.value ≡ kept.value) }
        ensures stored { IfOk result (λ filled. filled.pin.stored ≡ reservation.charge.value) }
        ensures ticket { IfSome ticket (λ t. IfOk result
            (λ filled. ComesLast t filled.pin.value filled.pin.log)) }
        ensures book { IfOk result (λ filled. filled.pin.book ≡ self.now.chronicle.first.book) }
        ensures left { is_some left.new ≡ is_some left.old }
    {
        let place = reservation.place;
        let claimed = match Left::take_slot(left, place) {
            Some(claimed) => claimed,
            None => match self.claim(place) {
                Some(claimed) => claimed,
                None => return Err((reservation, kept)),
            },
        };
        let charge = reservation.charge.again();
        let (stored, old) = claimed.fill(
            key,
            kept,
            charge,
            is_invalidated,
            ticket,
            &self.chronicle,
        );
        // A slot that was free had no old entry.
        if let (Some(left), Some(old)) = (left, old) {
            left.kept = Some(old);
        }
        match stored {
            Ok(pin) => {
                let Reservation {
                    place,
                    key: _,
                    charge: _,
                } = reservation;
                Ok(PinAt { place, pin })
            }
            Err(kept) => Err((reservation, kept)),
        }
    }

    // Claims the slot at a place, if it is free.
    fn claim(&self, place: u32) -> Option<Claimed<'_, K, V, F>>
        ensures place { IfSome result (λ claimed. claimed.place ≡ place) }
        ensures book { IfSome result (λ claimed. claimed.book ≡ self.now.chronicle.first.book) }
    {
        self.slot(place)?.claim()
    }

    /// Looks at the entry at a place, as `Slot::look` says. A place without a slot counts as
    /// pinned.
    pub fn look(&self, place: u32, cost: Cost, looks: &mut Looks) -> Option<Taken<'_, K, V, F>>
        ensures place { IfSome result (λ taken. taken.place ≡ place) }
        ensures book { IfSome result
            (λ taken. taken.claimed.book ≡ self.now.chronicle.first.book) }
        ensures look { LooksOnce place cost looks.old.made looks.new.made result }
    {
        let (found, taken) = match self.slot(place) {
            Some(slot) => slot.look(place, cost),
            None => (Look::Pinned, None),
        };
        *looks = looks.with(&Looked { place, cost, found });
        taken
    }

    /// Takes out the entry at a place, whatever its chances, if nobody has pinned it.
    pub fn take_idle(&self, place: u32) -> Option<Taken<'_, K, V, F>>
        ensures place { IfSome result (λ taken. taken.place ≡ place) }
        ensures book { IfSome result
            (λ taken. taken.claimed.book ≡ self.now.chronicle.first.book) }
    {
        self.slot(place)?.take_idle(place)
    }

    /// Takes out the entry at a place if it was invalidated and nobody has pinned it.
    pub fn take_invalidated(&self, place: u32) -> Option<Taken<'_, K, V, F>>
        ensures place { IfSome result (λ taken. taken.place ≡ place) }
        ensures book { IfSome result
            (λ taken. taken.claimed.book ≡ self.now.chronicle.first.book) }
    {
        self.slot(place)?.take_invalidated(place)
    }

    /// Holds the entry of a hold once more.
    ///
    /// Returns `Overflow` if the entry has this many holds.
    pub fn hold_again(
        &self,
        hold: &Hold<K, V, F>,
        most_holds: u64,
    ) -> Result<Hold<K, V, F>, Refusal>
        requires book { hold.now.book ≡ self.now.chronicle.first.book }
        requires limit { most_holds < 1073741823 }
        ensures hold { IfOk result (λ h. h ≡ hold.now) }
        ensures refused { IfErr result (λ e. e ≡ Refusal.Overflow) }
    {
        match self.slot(hold.place()) {
            Some(slot) => slot.hold_again(hold, most_holds),
            // Never so, since a hold is of a slot.
            None => Err(Refusal::Overflow),
        }
    }

    /// Ends a hold, as `Hold::end` does.
    pub fn end_hold(&self, hold: Hold<K, V, F>) -> Option<Released>
        requires book { hold.book ≡ self.now.chronicle.first.book }
    {
        let slot = self.slot(hold.place());
        hold.end(slot)
    }

    /// Returns the index, for those who read it without the lock.
    #[inline(always)]
    pub fn index(&self) -> Option<&Index> {
        let index = self.indexes.get(self.level.load(SeqCst) as usize)?.get()?;
        Some(&**index)
    }

    // Makes this the index that is read without the lock.
    fn publish(&self, index: Arc<Index>, level: u64) {
        if let Some(cell) = self.indexes.get(level as usize) {
            // Always sets the cell: each level is published once.
            let _ = cell.set_written(index);
            self.level.store(level, SeqCst);
        }
    }

    /// Adds a slot, a seat for it, and room for it in the order.
    ///
    /// Returns `Memory` if the allocator refuses, and `Overflow` if the shard has the maximum
    /// number of slots, 4,294,966,784. No entry changes.
    pub fn grow(
        &self,
        alloc: Global,
        seats: &mut Seats<K>,
        order: &mut Order,
    ) -> Result<(), Refusal>
        ensures never_stale { IfErr result (λ e. e ≢ Refusal.Stale) }
        ensures order { IsWidened order.old order.new }
        ensures total { sum_by (λ seat. seat.charge) seats.new
            ≡ sum_by (λ seat. seat.charge) seats.old }
        ensures seats { AddsVacant seats.old seats.new }
    {
        let place = seats.places();
        self.add_page(alloc, place, seats, order)?;
        if seats.add(place)? {
            let index = seats.share_index()?;
            self.publish(index, self.level.load(SeqCst).wrapping_add(1));
        }
        Ok(())
    }

    // Adds the page of a place if there is none, with room for its seats and in the order.
    //
    // Returns `Memory` and `Overflow` as `grow` does.
    #[tactic(auto, using(crate::proofs::FirstBits::same_widened))]
    fn add_page(
        &self,
        alloc: Global,
        place: u32,
        seats: &mut Seats<K>,
        order: &mut Order,
    ) -> Result<(), Refusal>
        ensures never_stale { IfErr result (λ e. e ≢ Refusal.Stale) }
        ensures order { IsWidened order.old order.new }
        ensures seats { seats.new ≡ seats.old }
    {
        let (page, _) = page_of(place);
        if page >= PAGES {
            return Err(Refusal::Overflow);
        }
        let Some(slots) = self.pages.get(page) else {
            return Err(Refusal::Overflow);
        };
        if slots.get().is_some() {
            return Ok(());
        }
        let len = page_len(page);
        let Ok(places) = u32::try_from((place as usize).saturating_add(len)) else {
            return Err(Refusal::Overflow);
        };
        seats.make_room(len)?;
        order.make_room(places)?;
        // Always sets the page, since nobody else adds one without the lock.
        let _ = slots.set_written(new_page(alloc, page, &self.chronicle)?);
        Ok(())
    }
}
