//! A plain clock cache of one owner: a list of places that is scanned at each call. It shares no
//! code with the cache, and does what `docs/DEFINITIONS.md` says of the clock.
//!
//! Nothing is kept that can be counted: which entries are on trial is said by the entries, and
//! their charges and the ghosts of each part are summed up when they are asked for.

mod order;

use crate::seeded::player::SLOTS;
use crate::seeded::said::Said;
use crate::threaded::{Then, ThreadedCall};
use lru_clock::clock::{Counts, Refusal};
use lru_support::tables::{Answers, text_of};
use std::alloc::{AllocError, Global};
use std::hash::BuildHasher;
use std::mem;

// An entry of the plain cache. Its value is a number.
#[derive(Clone, Copy)]
struct Entry {
    key: u64,
    charge: u64,
    number: u64,
    chances: u64,
    pins: u64,
    is_found: bool,
    is_on_trial: bool,
}

// The upper 30 bits of the tag of a key whose entry left, and whether it was on trial.
#[derive(Clone, Copy, PartialEq, Eq)]
struct Ghost {
    tag: u32,
    was_on_trial: bool,
}

/// A plain clock cache, the places of the pins that are held in slots, and the numbers of the
/// values that the last call dropped, in order.
#[derive(Drop)]
pub(crate) struct Plain<S: BuildHasher> {
    hasher: S,
    capacity: u64,
    is_strict: bool,
    places: Vec<Option<Entry>>,
    // The last of them is taken next. Behind those that never had an entry, the lowest place last,
    // come those that were given back.
    vacant: Vec<usize>,
    hand: usize,
    sweep: usize,
    border: u64,
    ghosts: Vec<Option<Ghost>>,
    // The number of slots of all pages.
    room: usize,
    pages: u32,
    // The places that an entry of the main part left last.
    young: Vec<bool>,
    pins: [Option<usize>; SLOTS],
    dropped: Vec<u64>,
    counts: Counts,
}

impl<S: BuildHasher + Drop> Plain<S> {
    /// Creates an empty cache.
    pub(crate) fn new(alloc: Global, capacity: u64, hasher: S) -> Self {
        Plain {
            hasher,
            capacity,
            is_strict: false,
            places: Vec::new(alloc),
            vacant: Vec::new(alloc),
            hand: 0,
            sweep: 0,
            border: capacity / 8,
            ghosts: Vec::new(alloc),
            room: 0,
            pages: 0,
            young: Vec::new(alloc),
            pins: [None; SLOTS],
            dropped: Vec::new(alloc),
            counts: Counts::default(),
        }
    }

    // Returns the sum of the charges.
    fn total(&self) -> u64 {
        let mut total = 0u64;
        for entry in self.places.iter().flatten() {
            total = total.wrapping_add(entry.charge);
        }
        total
    }

    // Returns the sum of the charges of the pinned entries.
    fn pinned(&self) -> u64 {
        let mut pinned = 0u64;
        for entry in self.places.iter().flatten() {
            if entry.pins > 0 {
                pinned = pinned.wrapping_add(entry.charge);
            }
        }
        pinned
    }

    // Returns the number of entries.
    fn len(&self) -> usize {
        self.places.iter().flatten().count()
    }

    fn entry(&self, place: usize) -> Option<Entry> {
        *self.places.get(place)?
    }

    fn set(&mut self, place: usize, entry: Option<Entry>) {
        if let Some(at) = self.places.get_mut(place) {
            *at = entry;
        }
    }

    fn find(&self, key: u64) -> Option<(usize, Entry)> {
        for place in 0..self.places.len() {
            if let Some(entry) = self.entry(place) {
                if entry.is_found && entry.key == key {
                    return Some((place, entry));
                }
            }
        }
        None
    }

    fn is_above(&self, charge: u64) -> bool {
        self.total().wrapping_add(charge) > self.capacity
    }

    // Returns whether the limit is strict and has no room for a charge beside the pinned entries.
    fn is_full_for(&self, charge: u64) -> bool {
        self.is_strict && self.pinned().wrapping_add(charge) > self.capacity
    }

    // A value is refused, and dropped.
    fn refuse(&mut self, number: u64) -> Result<Said, AllocError> {
        self.dropped.push(number)?;
        Ok(Said::Refused(Refusal::Full))
    }

    fn make_room(&mut self, charge: u64) -> Result<(), AllocError> {
        for _ in 0..1_000u32 {
            if !self.is_above(charge) || !self.evict()? {
                break;
            }
        }
        Ok(())
    }

    // Makes room for an entry that is to replace the key's, whose charge counts as room if nobody
    // has pinned it.
    fn make_way(&mut self, key: u64, charge: u64) -> Result<(), AllocError> {
        for _ in 0..1_000u32 {
            let given_back = match self.find(key) {
                Some((_, entry)) if entry.pins == 0 => entry.charge,
                _ => 0,
            };
            if !self.is_above(charge.saturating_sub(given_back)) || !self.evict()? {
                break;
            }
        }
        Ok(())
    }

    // Makes room once more if the total is above the capacity now and was not before the call. Then
    // all entries are pinned, so those on trial pass it.
    fn settle(&mut self, was_above: bool) -> Result<(), AllocError> {
        if !was_above {
            self.make_room(0)?;
        }
        Ok(())
    }

    fn add_place(&mut self) -> Result<(), AllocError> {
        if self.places.len() >= self.room {
            self.add_page()?;
        }
        self.vacant.insert(0, self.places.len())?;
        self.places.push(None)?;
        self.young.push(false)?;
        Ok(())
    }

    // Adds a page of slots, 64 in each of the first eight, and half as many ghosts.
    fn add_page(&mut self) -> Result<(), AllocError> {
        let sizes = self.pages / 8;
        let slots = 64usize.wrapping_shl(sizes);
        self.pages = self.pages.wrapping_add(1);
        self.room = self.room.wrapping_add(slots);
        for _ in 0..slots / 2 {
            self.ghosts.push(None)?;
        }
        Ok(())
    }

    fn add_vacant_place(&mut self) -> Result<(), AllocError> {
        if self.vacant.is_empty() {
            self.add_place()?;
        }
        Ok(())
    }

    fn store(&mut self, key: u64, charge: u64, number: u64) -> Result<usize, AllocError> {
        self.add_vacant_place()?;
        let place = self.vacant.pop().unwrap_or(0);
        let is_on_trial = self.come(key, charge);
        self.set(
            place,
            Some(Entry {
                key,
                charge,
                number,
                chances: 0,
                pins: 1,
                is_found: true,
                is_on_trial,
            }),
        );
        Ok(place)
    }

    // Finds a key's entry, pins it, and gives it a chance. Returns its number and its place.
    fn pin(&mut self, key: u64) -> Option<(u64, usize)> {
        let (place, entry) = self.find(key)?;
        let chances = entry.chances.wrapping_add(1).min(3);
        let pins = entry.pins.wrapping_add(1);
        self.set(
            place,
            Some(Entry {
                chances,
                pins,
                ..entry
            }),
        );
        Some((entry.number, place))
    }

    // Pins what a key finds, and does with the pin what is asked.
    fn get(&mut self, key: u64, then: Then) -> Result<Said, AllocError> {
        let Some((number, place)) = self.pin(key) else {
            return Ok(Said::Absent);
        };
        self.keep(place, then)?;
        Ok(Said::Found(number))
    }

    // Finds a key's entry or adds one. The value of an `init` that does not run is dropped.
    fn make(&mut self, key: u64, charge: u64, number: u64, then: Then) -> Result<Said, AllocError> {
        if let Some((found, place)) = self.pin(key) {
            self.dropped.push(number)?;
            self.keep(place, then)?;
            return Ok(Said::Found(found));
        }
        if self.is_full_for(charge) {
            return self.refuse(number);
        }
        let was_above = self.is_above(0);
        self.make_room(charge)?;
        let place = self.store(key, charge, number)?;
        self.settle(was_above)?;
        self.counts.makings = self.counts.makings.wrapping_add(1);
        self.keep(place, then)?;
        Ok(Said::Made(key, number))
    }

    // Finds a key's entry, or fails: room is made only for a value that there is.
    fn fail(&mut self, key: u64, charge: u64, then: Then) -> Result<Said, AllocError> {
        match self.get(key, then)? {
            Said::Absent if self.is_full_for(charge) => Ok(Said::Refused(Refusal::Full)),
            Said::Absent => {
                self.counts.failures = self.counts.failures.wrapping_add(1);
                Ok(Said::Failed(key))
            }
            found => Ok(found),
        }
    }

    // Adds an entry, replacing what the key has.
    fn insert(
        &mut self,
        key: u64,
        charge: u64,
        number: u64,
        then: Then,
    ) -> Result<Said, AllocError> {
        let was_above = self.is_above(0);
        self.add_vacant_place()?;
        if self.is_full_for(charge) {
            return self.refuse(number);
        }
        self.make_way(key, charge)?;
        let old = self.find(key);
        let place = self.store(key, charge, number)?;
        if let Some((place, entry)) = old {
            self.detach(place, entry)?;
        }
        self.settle(was_above)?;
        self.counts.insertions = self.counts.insertions.wrapping_add(1);
        self.keep(place, then)?;
        Ok(Said::Put(number))
    }

    // Does with a pin what the call does with its handle.
    fn keep(&mut self, place: usize, then: Then) -> Result<(), AllocError> {
        match then {
            Then::AtOnce => self.release(place),
            Then::Keep(slot) => {
                self.let_go(slot)?;
                if let Some(pin) = self.pins.get_mut(slot) {
                    *pin = Some(place);
                }
                Ok(())
            }
            Then::Forget => Ok(()),
        }
    }

    fn let_go(&mut self, slot: usize) -> Result<(), AllocError> {
        if let Some(Some(place)) = self.pins.get(slot).copied() {
            self.release(place)?;
        }
        if let Some(pin) = self.pins.get_mut(slot) {
            *pin = None;
        }
        Ok(())
    }

    fn invalidate(&mut self, key: u64) -> Result<(), AllocError> {
        match self.find(key) {
            Some((place, entry)) => self.detach(place, entry),
            None => Ok(()),
        }
    }

    // A key loses its entry, which leaves if nobody has pinned it.
    fn detach(&mut self, place: usize, entry: Entry) -> Result<(), AllocError> {
        if entry.pins == 0 {
            return self.leave(place, entry);
        }
        let is_found = false;
        self.set(place, Some(Entry { is_found, ..entry }));
        Ok(())
    }

    // Evicts a key's entry if nobody has pinned it.
    fn advise(&mut self, key: u64) -> Result<(), AllocError> {
        match self.find(key) {
            Some((place, entry)) if entry.pins == 0 => self.leave(place, entry),
            _ => Ok(()),
        }
    }

    // Releases a pin of the entry of a place.
    fn release(&mut self, place: usize) -> Result<(), AllocError> {
        let Some(entry) = self.entry(place) else {
            return Ok(());
        };
        let pins = entry.pins.wrapping_sub(1);
        if pins > 0 {
            self.set(place, Some(Entry { pins, ..entry }));
            return Ok(());
        }
        if !entry.is_found {
            return self.leave(place, entry);
        }
        self.set(place, Some(Entry { pins, ..entry }));
        self.make_room(0)
    }

    // Evicts each entry that nobody has pinned.
    fn prune(&mut self) -> Result<(), AllocError> {
        for place in 0..self.places.len() {
            if let Some(entry) = self.entry(place) {
                if entry.pins == 0 {
                    self.leave(place, entry)?;
                }
            }
        }
        Ok(())
    }

    // Adds places until there are so many.
    fn reserve(&mut self, places: usize) -> Result<(), AllocError> {
        for _ in self.places.len()..places {
            self.add_place()?;
        }
        Ok(())
    }

    fn take(&mut self, call: ThreadedCall) -> Result<Said, AllocError> {
        match call {
            ThreadedCall::Get(key, then) => self.get(key, then),
            ThreadedCall::Read(key) => match self.get(key, Then::AtOnce)? {
                Said::Found(number) => Ok(Said::Read(number)),
                other => Ok(other),
            },
            ThreadedCall::Contains(key) => Ok(Said::Contains(self.find(key).is_some())),
            ThreadedCall::Init(key, charge, number, then)
            | ThreadedCall::TryInit(key, charge, number, then) => {
                self.make(key, charge, number, then)
            }
            ThreadedCall::Fail(key, charge, then) => self.fail(key, charge, then),
            ThreadedCall::Insert(key, charge, number, then) => {
                self.insert(key, charge, number, then)
            }
            _ => {
                self.change(call)?;
                Ok(Said::Done)
            }
        }
    }

    // Makes a call that returns no value.
    fn change(&mut self, call: ThreadedCall) -> Result<(), AllocError> {
        match call {
            ThreadedCall::LetGo(slot) => self.let_go(slot),
            ThreadedCall::AdviceEvict(key) => self.advise(key),
            ThreadedCall::Invalidate(key) => self.invalidate(key),
            ThreadedCall::Prune => self.prune(),
            ThreadedCall::Reserve(places) => self.reserve(places),
            ThreadedCall::SetStrict(is_strict) => {
                self.is_strict = is_strict;
                Ok(())
            }
            ThreadedCall::SetCapacity(capacity) => {
                let was_above = self.is_above(0);
                self.capacity = capacity;
                self.border = capacity / 8;
                self.settle(was_above)?;
                self.make_room(0)
            }
            _ => Ok(()),
        }
    }
}

// Answers as a player of the cache does.
impl<S: BuildHasher + Drop> Answers<ThreadedCall> for Plain<S> {
    fn answer(&mut self, alloc: Global, call: ThreadedCall) -> Result<String, AllocError> {
        if let ThreadedCall::View = call {
            let (capacity, total, len) = (self.capacity, self.total(), self.len());
            let is_strict = self.is_strict;
            let (is_empty, pinned, counts) = (len == 0, self.pinned(), self.counts);
            return format!(in alloc;
                "Cache {{ capacity: {capacity}, total_charge: {total}, len: {len} }}, \
                empty {is_empty}, strict {is_strict}, pinned {pinned}, {counts:?}"
            );
        }
        if let ThreadedCall::ResetCounts = call {
            let counts = self.counts;
            self.counts = Counts::default();
            return text_of(alloc, &counts);
        }
        let said = self.take(call)?;
        let dropped = mem::replace(&mut self.dropped, Vec::new(alloc));
        format!(in alloc; "{said:?}, drops {dropped:?}")
    }
}
