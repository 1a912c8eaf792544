//! What the handle of a clock leads to: the entries of a shard, and the state that the lock of the
//! caller protects.
ghost use Rattle.std.specs.Prelude.{◌≡◌, ◌==◌, ⊤, [], MatchBool, MatchOption, IfOk};
ghost use Rattle.lru_c.specs.Clocks.{found, number_of, Adds, AreCounts, BeginsMaking, Erases};
ghost use Rattle.lru_c.specs.Clocks.{Fails, IsLookup, LeavesAny, LeavesAt, LeavesOne, Readies};
ghost use Rattle.lru_c.specs.Clocks.{ReleasesAt, Reserves, StoresOver, WritesLeft};
ghost use Rattle.lru_c.specs.Codes as codes;

use crate::clock::reader::{Reader, told_of_lookup};
use crate::clock::told::{LruClockCounts, LruFound, LruLeft};
use crate::clock::{Entries, tag_of};
use crate::code;
use crate::words::key::Words;
use concurrent_lru::fit::Anything;
use concurrent_lru::sharded::Refusal;
use lru_clock::clock_core::{Begun, ExcessFlag, HeldOver, Left, Looks, MOST_PINS, ShardState};
use std::alloc::{AllocError, Global};
use std::sync::Arc;

/// The entries of a shard, and the state under its lock.
#[derive(Drop)]
pub struct Clock {
    entries: Arc<Entries>,
    excess: Arc<ExcessFlag>,
    pub state: ShardState<Words>,
}

/// A number that a clock tells.
#[derive(Clone, Copy)]
pub enum ClockNumber {
    /// The sum of the charges of all entries.
    Total,
    /// The capacity.
    Capacity,
    /// The number of places.
    Places,
}

impl Clock {
    // Returns a clock without entries.
    pub(crate) fn new(alloc: Global, capacity: u64) -> Result<Clock, AllocError>
        ensures { IfOk result (λ clock. (clock.state.capacity ≡ capacity) ×
            (clock.state.seats ≡ [])) }
    {
        let (entries, state) = Entries::new(alloc, capacity, MOST_PINS)?;
        let Ok(entries) = Arc::new(alloc, entries) else {
            return Err(AllocError);
        };
        match Arc::new(alloc, ExcessFlag::new()) {
            Ok(excess) => Ok(Clock {
                entries,
                excess,
                state,
            }),
            Err(_) => Err(AllocError),
        }
    }

    // Returns a reader of the entries.
    pub(crate) fn reader(&self) -> Result<Reader, AllocError> {
        let entries = Arc::try_clone(&self.entries)?;
        let excess = Arc::try_clone(&self.excess)?;
        Ok(Reader::of(entries, excess))
    }

    // Tells the readers whether the total is above the capacity, after a change of either.
    fn tell_readers(&self) {
        self.excess.update(&self.state);
    }

    // Evicts one entry if another charge would take the total above the capacity.
    pub(crate) fn make_room(&mut self, charge: u64, left: &mut LruLeft) -> u32
        ensures leaves { LeavesOne self.old.state.seats result self.new.state.seats }
        ensures kept { MatchBool (result == codes.gone) ⊤ (left.new ≡ left.old) }
    {
        let gone = self
            .entries
            .make_room(&mut self.state, charge, &mut Looks::new());
        let code = write_left(gone, left);
        self.tell_readers();
        code
    }

    // Adds an entry and pins it. If the key has an entry, pins that.
    pub(crate) fn add(
        &mut self,
        hash: u64,
        key: &Words,
        charge: u64,
        value: u64,
        is_strict: bool,
    ) -> LruFound
        ensures { Adds key.now charge value is_strict self.old.state result self.new.state }
    {
        if charge == 0 {
            return LruFound::bare(code::NO_CHARGE);
        }
        let tag = tag_of(hash);
        match self.entries.hold_listed(&mut self.state, tag, key) {
            Ok(None) => {}
            Ok(Some((hold, value))) => return LruFound::lent(code::HIT, value, hold),
            Err(_) => return LruFound::bare(code::OVERFLOW),
        }
        if self.state.refuses(charge, is_strict) {
            return LruFound::bare(code::FULL);
        }
        match self
            .entries
            .hold_new(&mut self.state, tag, key, charge, value)
        {
            Ok(hold) => {
                self.tell_readers();
                LruFound::lent(code::DONE, value, hold)
            }
            Err(refusal) => LruFound::refused(refusal),
        }
    }

    // Stores an entry in place of the key's and pins it, and makes room for it.
    pub(crate) fn insert(
        &mut self,
        hash: u64,
        key: &Words,
        charge: u64,
        value: u64,
        is_strict: bool,
        left: &mut LruLeft,
    ) -> LruFound
        ensures inserts { StoresOver key.now charge value is_strict self.old.state result
            self.new.state }
        ensures kept { WritesLeft result.code left.old left.new }
    {
        if charge == 0 {
            return LruFound::bare(code::NO_CHARGE);
        }
        let tag = tag_of(hash);
        let found = match self
            .entries
            .hold_over(&mut self.state, tag, key, charge, value, is_strict)
        {
            Ok(HeldOver::Held(hold, gone)) => match gone {
                None => LruFound::lent(code::DONE, value, hold),
                Some(gone) => {
                    write(gone, left);
                    LruFound::lent(code::REPLACED, value, hold)
                }
            },
            Ok(HeldOver::Blocked(gone)) => {
                write(gone, left);
                LruFound::bare(code::GONE)
            }
            Err(Refusal::Full) => LruFound::bare(code::FULL),
            Err(refusal) => LruFound::refused(refusal),
        };
        self.tell_readers();
        found
    }

    // Pins the entry of a key.
    pub(crate) fn find(&mut self, hash: u64, key: &Words) -> LruFound
        ensures told { IsLookup result }
        ensures same { self.new.state ≡ self.old.state }
    {
        told_of_lookup(self.entries.hold_listed(&mut self.state, tag_of(hash), key))
    }

    // Pins the entry of a key, or begins the making of its value.
    pub(crate) fn begin(&mut self, hash: u64, key: &Words, charge: u64) -> LruFound
        ensures { BeginsMaking key.now charge self.old.state result self.new.state }
    {
        if charge == 0 {
            return LruFound::bare(code::NO_CHARGE);
        }
        match self
            .entries
            .begin_held(&mut self.state, tag_of(hash), key, charge)
        {
            Ok(Begun::Make(ticket)) => LruFound::of(code::MAKE, ticket),
            Ok(Begun::Wait) => LruFound::bare(code::WAIT),
            Ok(Begun::Hit(hold, value)) => LruFound::lent(code::HIT, value, hold),
            Err(refusal) => LruFound::refused(refusal),
        }
    }

    // Ends a making, and adds the entry of its value and pins it.
    pub(crate) fn ready(
        &mut self,
        ticket: u64,
        hash: u64,
        charge: u64,
        value: u64,
        is_strict: bool,
    ) -> LruFound
        ensures { Readies ticket charge value is_strict self.old.state result self.new.state }
    {
        if charge == 0 {
            return LruFound::bare(code::NO_CHARGE);
        }
        if self.state.refuses(charge, is_strict) {
            return LruFound::bare(code::FULL);
        }
        match self
            .entries
            .hold_made(&mut self.state, ticket, tag_of(hash), charge, value)
        {
            Ok(Some(hold)) => {
                self.tell_readers();
                LruFound::lent(code::DONE, value, hold)
            }
            Ok(None) => LruFound::bare(code::STALE),
            Err(refusal) => LruFound::refused(refusal),
        }
    }

    // Ends a making that failed.
    pub(crate) fn fail(&mut self, ticket: u64) -> u32
        ensures { Fails ticket self.old.state result self.new.state }
    {
        if self.entries.fail_number(&mut self.state, ticket) {
            code::DONE
        } else {
            code::STALE
        }
    }

    // Invalidates the entry of a key, which leaves if nobody has pinned it, and its making.
    pub(crate) fn erase(&mut self, hash: u64, key: &Words, left: &mut LruLeft) -> u32
        ensures erases { Erases hash key.now self.old.state result self.new.state }
        ensures kept { MatchBool (result == codes.gone) ⊤ (left.new ≡ left.old) }
    {
        let gone = self
            .entries
            .invalidate_entry(&mut self.state, tag_of(hash), key);
        self.state.makings.invalidate(key);
        let code = write_left(gone, left);
        self.tell_readers();
        code
    }

    // Gives back a pin of the entry at a place, and takes out the entry if nobody else has pinned
    // it.
    pub(crate) fn release_and_evict(&mut self, place: u32, left: &mut LruLeft) -> u32
        ensures releases { ReleasesAt place self.old.state result self.new.state }
        ensures kept { MatchBool (result == codes.gone) ⊤ (left.new ≡ left.old) }
    {
        let Some(gone) = self.entries.end_hold_and_take(&mut self.state, place) else {
            return code::STALE;
        };
        let code = write_left(gone, left);
        self.tell_readers();
        code
    }

    // Takes out the entry at a place if it was invalidated and nobody has pinned it.
    pub(crate) fn collect(&mut self, place: u32, left: &mut LruLeft) -> u32
        ensures leaves { LeavesAt place self.old.state result self.new.state }
        ensures kept { MatchBool (result == codes.gone) ⊤ (left.new ≡ left.old) }
    {
        let gone = self.entries.take_invalidated(&mut self.state, place);
        let code = write_left(gone, left);
        self.tell_readers();
        code
    }

    // Evicts the first entry that nobody has pinned, from the place `next` on.
    pub(crate) fn prune(&mut self, next: &mut u32, left: &mut LruLeft) -> u32
        ensures leaves { LeavesAt next.new self.old.state result self.new.state }
        ensures kept { MatchBool (result == codes.gone) ⊤
            ((left.new ≡ left.old) × (next.new ≡ next.old)) }
    {
        let gone = self.entries.take_next_idle(&mut self.state, next);
        let code = write_left(gone, left);
        self.tell_readers();
        code
    }

    // Adds places until there are as many as `entries`.
    pub(crate) fn reserve(&mut self, entries: usize) -> u32
        ensures { Reserves self.old.state result self.new.state }
    {
        match self.entries.grow_to(&mut self.state, entries) {
            Ok(()) => code::DONE,
            Err(Refusal::Memory) => code::MEMORY,
            Err(_) => code::OVERFLOW,
        }
    }

    pub(crate) fn set_capacity(&mut self, capacity: u64)
        ensures capacity { self.new.state.capacity ≡ capacity }
        ensures seats { self.new.state.seats ≡ self.old.state.seats }
    {
        self.state.set_capacity(capacity);
        self.tell_readers();
    }

    pub(crate) fn tell(&self, which: ClockNumber) -> LruFound
        ensures { result ≡ found codes.number (number_of which self.now.state) 0 }
    {
        LruFound::number(match which {
            ClockNumber::Total => self.state.seats.total(),
            ClockNumber::Capacity => self.state.capacity,
            ClockNumber::Places => self.state.seats.places() as u64,
        })
    }

    // Returns what has happened since the clock was opened, and what it holds.
    pub(crate) fn counts(&self) -> LruClockCounts
        ensures { AreCounts self.now.state result }
    {
        let numbers = self.state.numbers();
        LruClockCounts {
            makings: numbers.counts.makings,
            failures: numbers.counts.failures,
            insertions: numbers.counts.insertions,
            evictions: numbers.counts.evictions,
            entries: numbers.entries as u64,
            charge: numbers.total,
            capacity: numbers.capacity,
        }
    }

    // Returns whether no value is being made.
    pub(crate) fn has_no_makings(&self) -> bool
        ensures { MatchBool result (self.now.state.makings ≡ []) ⊤ }
    {
        self.state.makings.is_empty()
    }

    // Returns the number of entries.
    pub(crate) fn len(&self) -> usize {
        self.state.seats.entries()
    }

    // Returns the sum of the charges of the entries that somebody has pinned.
    pub(crate) fn pinned_charge(&self) -> u64 {
        self.entries.pinned_charge(&self.state)
    }
}

// Writes the entry that left, if one did.
fn write_left(gone: Option<Left<Words, u64, Anything>>, left: &mut LruLeft) -> u32
    ensures told { MatchOption gone.entry (result ≡ codes.done) (λ _. result ≡ codes.gone) }
    ensures leaves { LeavesAny result }
    ensures kept { MatchBool (result == codes.gone) ⊤ (left.new ≡ left.old) }
{
    match gone {
        Some(gone) => {
            write(gone, left);
            code::GONE
        }
        None => code::DONE,
    }
}

// Writes an entry that left.
fn write(gone: Left<Words, u64, Anything>, left: &mut LruLeft) {
    // Always `Some`.
    if let Some((key, value)) = gone.into_parts() {
        *left = LruLeft {
            first: key.first,
            second: key.second,
            value,
        };
    }
}
