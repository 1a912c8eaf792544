//! What a shard knows, under its lock, about each of its slots, and the words of the index.
ghost use Rattle.std.specs.Prelude.{◌≡◌, ◌+◌, ◌<◌, ℕ, [], sum_by, true, false};
ghost use Rattle.std.specs.Prelude.{IfOk, IfSome, IsTrue, None};
ghost use Rattle.std.specs.Prelude.{MatchBool, MatchOption, MatchResult};
ghost use Rattle.std.specs.Prelude.{length, replicate, List, Some, IfNone};
ghost use Rattle.std.proofs.Math.ListN.{set};
ghost use Rattle.lru_clock.specs.Index.{IsSize};
ghost use Rattle.lru_clock.specs.Seats.{seat as seat_of, HasKeyAt, LacksKey, IsIndex};
ghost use Rattle.lru_clock.specs.Evictions.{charge_at, tag_at, places_of};
ghost use Rattle.lru_clock.specs.SeatChanges.{AddsVacant, IsFree, IsVacant, ListsAt, UnlistsAt};

use crate::index::{Index, Words, word_of};
use crate::store::search::{Search, find_key};
use crate::store::seat::Seat;
use crate::store::{Left, Taken};
use concurrent_lru::fit::Fit;
use concurrent_lru::shown::Shown;
use std::alloc::{AllocError, Global};
use std::marker::Model;
use std::sync::Arc;

// The number of words of the first index.
const FIRST_WORDS: usize = 256;

// The maximum number of words: as many as there are tags.
const MOST_WORDS: usize = 0x1_0000_0000;

/// A debt: a place that was taken for an entry, whose charge already counts. Either `Store::fill`
/// takes it, with an entry whose key equals the copy in the seat, or `Seats::cancel` does. So the
/// charge of each entry in a slot counts, and its seat has no other key.
pub struct Reservation<K> {
    pub(super) place: u32,
    pub(super) key: Shown<Option<K>>,
    pub(super) charge: Shown<Option<u64>>,
}

/// The seats of a shard in the order of their places, with the sum of their charges, the number of
/// entries, the first of the vacant places, and the words of the index. Clauses see the list of the
/// seats.
#[derive(Drop)]
pub struct Seats<K: Eq> {
    total: u64,
    seats: Vec<Seat<K>>,
    entries: usize,
    // The first of the linked vacant places, the last of which leads to the first place without a
    // seat. So those that were given back come first, the latest before the others, and then those
    // that never had an entry, in the order of their places.
    vacant: u32,
    words: Words,
}

impl<K: Eq> Model for Seats<K> {
    ghost use Rattle.std.specs.Prelude.{◌≡◌, List, sum_by};
    ghost use Rattle.std.specs.Coded.{coded_list};
    ghost use Rattle.lru_clock.specs.Seats.{Seat as Seat_, seat_code, IsIndex};

    ghost Value = { List (Seat_ K) };

    ghost coded = { coded_list (seat_code K.code) };

    ghost view = { λ s. s.seats.items };

    ghost invariant = { λ s. (s.total ≡ sum_by (λ seat. seat.charge) s.seats.items)
        × IsIndex K.eq s.seats.items s.words };
}

impl<K: Eq + Drop> Seats<K> {
    /// Creates an empty list of seats, and an index without entries.
    ///
    /// Returns `AllocError` if the allocator refuses.
    pub fn new(alloc: Global) -> Result<Seats<K>, AllocError>
        ensures { IfOk result (λ seats. seats ≡ []) }
    {
        let words = Words::new(alloc, FIRST_WORDS)?;
        Ok(Seats {
            total: 0,
            seats: Vec::new(alloc),
            entries: 0,
            vacant: 0,
            words,
        })
    }

    /// Returns the index, for those who read it without the lock.
    ///
    /// Returns `AllocError` if the count of its owners would overflow.
    pub fn share_index(&self) -> Result<Arc<Index>, AllocError> {
        self.words.share()
    }

    /// Returns the sum of all charges.
    pub fn total(&self) -> u64
        ensures { result ≡ sum_by (λ seat. seat.charge) self.now }
    {
        self.total
    }

    /// Returns the number of seats.
    pub fn len(&self) -> usize
        ensures { result ≡ length self.now }
    {
        self.seats.len()
    }

    /// Returns the place that the next seat will have, which is the number of seats.
    pub fn places(&self) -> u32
        ensures { result ≡ places_of self.now }
    {
        u32::try_from(self.seats.len()).unwrap_or(u32::MAX)
    }

    /// Returns the number of entries.
    pub fn entries(&self) -> usize {
        self.entries
    }

    /// Returns the charge of the entry at a place, or 0 if there is none.
    pub fn charge_at(&self, place: u32) -> u64
        ensures { result ≡ charge_at self.now place }
    {
        match self.seats.get(place as usize) {
            Some(seat) => seat.charge(),
            None => 0,
        }
    }

    /// Returns the tag of the entry at a place, if the index has the entry.
    pub fn listed_tag(&self, place: u32) -> Option<u32>
        ensures { result ≡ tag_at self.now place }
    {
        match self.seats.get(place as usize) {
            Some(seat) => {
                if seat.is_listed() {
                    Some(seat.tag())
                } else {
                    None
                }
            }
            None => None,
        }
    }

    /// Returns the place of a key's entry, if the index has one. It has no other entry of the key.
    pub fn find(&mut self, tag: u32, key: &K) -> Option<u32>
        ensures same { self.new ≡ self.old }
        ensures found { MatchOption result (LacksKey K.eq self.new tag key.now)
            (λ place. HasKeyAt K.eq self.new tag key.now place) }
        ensures one { IfSome result
            (λ place. (p : ℕ) → HasKeyAt K.eq self.new tag key.now p → p ≡ place) }
    {
        match find_key(&mut self.words, &self.seats, tag, key) {
            Search::Found(place) => Some(place),
            Search::Empty(_) => None,
        }
    }

    /// Makes room for exactly `more` seats, those of a page, whose slots are all created at once.
    ///
    /// Returns `AllocError` if the allocator refuses.
    pub fn make_room(&mut self, more: usize) -> Result<(), AllocError>
        ensures { self.new ≡ self.old }
    {
        self.seats.reserve_exact(more)
    }

    /// Adds a vacant seat for `place`, the first place without a seat. Returns whether the index
    /// was replaced by a wider one.
    ///
    /// Returns `AllocError` if the allocator refuses.
    pub fn add(&mut self, place: u32) -> Result<bool, AllocError>
        ensures total { sum_by (λ seat. seat.charge) self.new
            ≡ sum_by (λ seat. seat.charge) self.old }
        ensures seats { AddsVacant self.old self.new }
    {
        let wider = widened(&self.seats, self.words.count())?;
        self.seats.push(Seat::vacant(place.saturating_add(1)))?;
        match wider {
            Some(words) => {
                self.words = words;
                Ok(true)
            }
            None => Ok(false),
        }
    }

    /// Returns whether there is a vacant place.
    pub fn has_vacant(&self) -> bool {
        (self.vacant as usize) < self.seats.len()
    }

    /// Takes a vacant place for an entry, whose charge then counts, and keeps the copy of its key.
    /// The index does not have the entry yet.
    ///
    /// Returns the copy of the key if no place is vacant, or if the charge would take the total
    /// past `u64::MAX`.
    pub fn reserve(
        &mut self,
        charge: u64,
        tag: u32,
        key: Option<K>,
    ) -> Result<Reservation<K>, Option<K>>
        ensures seats { MatchResult result
            (λ r. (self.new ≡ set self.old r.place (seat_of charge tag key)) × (r.key.value ≡ key)
            × IsVacant self.old r.place)
            (λ back. (self.new ≡ self.old) × (back ≡ key)) }
        ensures charge { IfOk result (λ r. r.charge.value ≡ Some charge) }
    {
        let place = self.vacant;
        let Some(next) = self.vacant_after(place, charge) else {
            return Err(key);
        };
        self.vacant = next;
        self.entries = self.entries.wrapping_add(1);
        let reservation = Reservation {
            place,
            key: Shown::of(&key),
            charge: Shown::of(&Some(charge)),
        };
        drop(self.put(place, Seat::unlisted(tag, charge, key)));
        Ok(reservation)
    }

    /// Gives back the place of an entry that could not be stored, and returns the copy of its key.
    /// Its charge no longer counts.
    pub fn cancel(&mut self, reservation: Reservation<K>) -> Option<K>
        ensures { self.new ≡ set self.old reservation.place (seat_of 0 0 None) }
    {
        let Reservation {
            place,
            key: _,
            charge: _,
        } = reservation;
        self.empty(place)
    }

    /// Gives back the place of an entry that was taken out, and returns the entry with the copy of
    /// its key. Its charge no longer counts, and the index no longer has it.
    pub fn vacate<'a, V: Drop, F: Fit<K, V>>(
        &mut self,
        taken: Taken<'a, K, V, F>,
    ) -> Left<'a, K, V, F>
        ensures seats { self.new ≡ set self.old taken.entry.place (seat_of 0 0 None) }
        ensures book { result ≡ Some taken.entry.claimed.book }
    {
        let key_copy = self.empty(taken.place);
        Left::in_slot(taken, key_copy)
    }

    /// Adds the entry at a place to the index, unless the index already has an entry of its key.
    /// Returns whether it was added.
    #[inline(always)]
    pub fn list(&mut self, place: u32) -> bool
        ensures { MatchBool result (ListsAt self.old place self.new) (self.new ≡ self.old) }
    {
        let at = place as usize;
        if at >= self.seats.len() || self.seats[at].is_listed() {
            return false;
        }
        let tag = self.seats[at].tag();
        let Some(key) = self.seats[at].key() else {
            return false;
        };
        match find_key(&mut self.words, &self.seats, tag, key) {
            Search::Found(_) => false,
            Search::Empty(to) => {
                self.words.put(to, word_of(tag, place));
                self.seats[at].list();
                true
            }
        }
    }

    /// Removes the entry at a place from the index, if the index has it. Then the index has no
    /// entry of its key.
    pub fn unlist(&mut self, place: u32)
        ensures seats { UnlistsAt self.old place self.new }
        ensures gone { (t : ℕ) (k : K) → HasKeyAt K.eq self.old t k place
            → LacksKey K.eq self.new t k }
    {
        let at = place as usize;
        if at < self.seats.len() && self.seats[at].is_listed() {
            self.words.remove(word_of(self.seats[at].tag(), place));
            self.seats[at].unlist();
        }
    }

    // Returns the vacant place after this one, if an entry of this charge may be put at this one:
    // if it is vacant, and the sum of the charges stays within a `u64`.
    fn vacant_after(&self, place: u32, charge: u64) -> Option<u32>
        ensures free { IfSome result (λ _. IsFree self.now place charge) }
        ensures vacant { IfSome result (λ _. IsVacant self.now place) }
    {
        let next = self.seats.get(place as usize)?.next()?;
        if self.total.checked_add(charge).is_some() {
            Some(next)
        } else {
            None
        }
    }

    // Replaces the seat of a place, and returns the old one.
    fn put(&mut self, place: u32, seat: Seat<K>) -> Seat<K>
        requires free { IsFree self.old place seat.charge }
        requires unlisted { seat.is_listed ≡ false }
        requires tag { seat.tag < 4294967296 }
        ensures { self.new ≡ set self.old place seat }
    {
        let at = place as usize;
        self.total = self.total - self.seats[at].charge() + seat.charge();
        std::mem::replace(&mut self.seats[at], seat)
    }

    // Makes a place vacant, removes its entry from the index, and returns the copy of the key.
    fn empty(&mut self, place: u32) -> Option<K>
        ensures { self.new ≡ set self.old place (seat_of 0 0 None) }
    {
        self.unlist(place);
        let at = place as usize;
        if at >= self.seats.len() {
            return None;
        }
        self.total -= self.seats[at].charge();
        let seat = std::mem::replace(&mut self.seats[at], Seat::vacant(self.vacant));
        self.vacant = place;
        self.entries = self.entries.wrapping_sub(1);
        seat.into_key()
    }
}

// Returns a wider index if, with another entry, less than half of `count` words would be empty. An
// index with the maximum number of words is filled further.
fn widened<K: Eq>(seats: &Vec<Seat<K>>, count: usize) -> Result<Option<Words>, AllocError>
    requires index { (words : List ℕ) × IsIndex K.eq seats.now.items words }
    requires size { IsSize count }
    requires holds { length seats.now.items < count }
    ensures wider { IfOk result (λ wider. IfSome wider (λ words. IsIndex K.eq seats.now.items words
        × (length seats.now.items + 1 < length words))) }
    ensures room { IfOk result (λ wider. IfNone wider (length seats.now.items + 1 < count)) }
{
    let places = seats.len();
    if places < count / 2 && places + 1 < count {
        return Ok(None);
    }
    if count < MOST_WORDS {
        let mut words = Words::new(*seats.allocator(), count * 2)?;
        copy_listed(seats, &mut words);
        return Ok(Some(words));
    }
    if places + 1 < count {
        Ok(None)
    } else {
        Err(AllocError)
    }
}

// Puts the word of each listed entry into the words of a new index, which are all 0.
fn copy_listed<K: Eq>(seats: &[Seat<K>], words: &mut Words)
    requires index { (words : List ℕ) × IsIndex K.eq seats.now words }
    requires zeros { words.old ≡ replicate (length words.old) 0 }
    requires room { length seats.now < length words.old }
    requires size { IsSize (length words.old) }
    ensures long { length words.new ≡ length words.old }
    ensures index { IsIndex K.eq seats.now words.new }
{
    for at in 0..seats.len() {
        if seats[at].is_listed() {
            let word = word_of(seats[at].tag(), at as u32);
            let to = words.find_empty(word);
            words.put(to, word);
        }
    }
}
