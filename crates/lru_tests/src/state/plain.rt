//! The same cache in the plainest form: a list of entries, which is scanned at each call.
//!
//! Its answers are those expected of the cache.

use concurrent_lru::lru_core::Refusal;
use lru_support::tables::{Call, text_of};
use std::alloc::{AllocError, Global};
use std::fmt;

/// The keys are the numbers below this one.
pub(crate) const KEYS: usize = 12;

/// What is shown of an entry: stamp, key, charge, pins, whether it is detached, and value.
pub(crate) type Seen = (u64, u64, u64, u32, bool, u64);

// The state of a value.
#[derive(Clone, Copy, PartialEq, Eq)]
enum Phase {
    Making,
    Untaken,
    Ready(u64),
}

#[derive(Clone, Copy)]
struct Entry {
    stamp: u64,
    key: u64,
    charge: u64,
    pins: u32,
    // Whether its key no longer finds it.
    detached: bool,
    phase: Phase,
    // When its last pin was released: the number of that release.
    rested: u64,
}

// The result of `begin` and `poll`.
#[derive(Clone, Copy, Debug)]
enum Begun {
    Make(u64),
    Wait(u64),
    Hit(u64, u64),
}

// The result of `fail`.
#[derive(Clone, Copy, Debug)]
enum Failed {
    Left,
    Removed(u64),
}

// An entry that left the cache.
#[derive(Clone, Copy, Debug)]
struct Gone {
    stamp: u64,
    key: u64,
    charge: u64,
    value: u64,
}

// The result of `insert`.
#[derive(Clone, Copy, Debug)]
struct Inserted {
    stamp: u64,
    replaced: Evicted,
    evicted: Evicted,
}

// What left the cache, oldest first.
#[derive(Clone, Copy)]
struct Evicted([Option<Gone>; KEYS]);

impl fmt::Debug for Evicted {
    fn fmt<W: fmt::Write>(&self, f: &mut fmt::Formatter<W>) -> fmt::Result {
        f.debug_list().entries(self.0.iter().flatten()).finish()
    }
}

/// A cache of numbers by numbers below `KEYS`.
#[derive(Drop)]
pub(crate) struct Plain {
    capacity: u64,
    most_pins: u32,
    /// The stamp of the next new entry.
    pub(crate) next: u64,
    /// The stamp of the entry that the last call pinned, if it pinned one.
    pub(crate) pinned: Option<u64>,
    releases: u64,
    entries: Vec<Entry>,
}

impl Plain {
    /// Creates an empty cache, as `State::with_limits` does.
    pub(crate) fn with_limits(
        alloc: Global,
        capacity: u64,
        first_stamp: u64,
        most_pins: u32,
    ) -> Plain {
        Plain {
            capacity,
            most_pins,
            next: first_stamp,
            pinned: None,
            releases: 0,
            entries: Vec::new(alloc),
        }
    }

    /// Returns what a walk over the entries shows, in the order of the stamps. Returns `AllocError`
    /// if memory is refused.
    pub(crate) fn seen(&self, alloc: Global) -> Result<Vec<Seen>, AllocError> {
        let mut seen = Vec::new(alloc);
        for it in &self.entries {
            if let Phase::Ready(value) = it.phase {
                seen.push((it.stamp, it.key, it.charge, it.pins, it.detached, value))?;
            }
        }
        seen.sort()?;
        Ok(seen)
    }

    /// Returns the number of entries, the sum of their charges, and that of the held ones.
    pub(crate) fn sums(&self) -> (usize, u64, u64) {
        (self.entries.len(), self.total(), self.pinned_charge())
    }

    /// Returns whether a key finds a ready entry.
    pub(crate) fn contains(&self, key: u64) -> bool {
        matches!(self.of_key(key), Some(entry) if matches!(entry.phase, Phase::Ready(_)))
    }

    fn of_key(&self, key: u64) -> Option<Entry> {
        let mut entries = self.entries.iter();
        entries.find(|it| it.key == key && !it.detached).copied()
    }

    fn of_stamp(&self, stamp: u64) -> Option<Entry> {
        self.entries.iter().find(|it| it.stamp == stamp).copied()
    }

    fn total(&self) -> u64 {
        let mut total: u64 = 0;
        for entry in &self.entries {
            total = total.saturating_add(entry.charge);
        }
        total
    }

    fn pinned_charge(&self) -> u64 {
        let mut sum: u64 = 0;
        for entry in &self.entries {
            if entry.pins > 0 {
                sum = sum.saturating_add(entry.charge);
            }
        }
        sum
    }

    // Replaces the entry of a stamp.
    fn put(&mut self, entry: Entry) {
        for place in &mut self.entries {
            if place.stamp == entry.stamp {
                *place = entry;
            }
        }
    }

    // Removes the entry of a stamp.
    fn remove(&mut self, stamp: u64) {
        for index in 0..self.entries.len() {
            if self.entries[index].stamp == stamp {
                self.entries.swap_remove(index);
                return;
            }
        }
    }

    // Adds a pin to an entry.
    fn pin(&mut self, mut entry: Entry) {
        entry.pins = entry.pins.saturating_add(1);
        self.put(entry);
        self.pinned = Some(entry.stamp);
    }

    // Removes an idle entry.
    fn evict(&mut self, entry: Entry) -> Option<Gone> {
        match entry.phase {
            Phase::Ready(value) if entry.pins == 0 => {
                self.remove(entry.stamp);
                Some(Gone {
                    stamp: entry.stamp,
                    key: entry.key,
                    charge: entry.charge,
                    value,
                })
            }
            _ => None,
        }
    }

    // Removes an idle entry, and returns it alone.
    fn evict_alone(&mut self, entry: Entry) -> Evicted {
        let mut evicted = [None; KEYS];
        evicted[0] = self.evict(entry);
        Evicted(evicted)
    }

    // Returns the idle entry whose last pin was released first.
    fn oldest(&self) -> Option<Entry> {
        let mut oldest: Option<Entry> = None;
        for entry in &self.entries {
            if entry.pins == 0 && !matches!(oldest, Some(it) if it.rested <= entry.rested) {
                oldest = Some(*entry);
            }
        }
        oldest
    }

    // Evicts the oldest idle entry if the total is above `capacity`.
    fn evict_oldest(&mut self, capacity: u64) -> Option<Gone> {
        if self.total() <= capacity {
            return None;
        }
        self.evict(self.oldest()?)
    }

    fn settle(&mut self, capacity: u64) -> Evicted {
        let mut evicted = [None; KEYS];
        for place in &mut evicted {
            let Some(gone) = self.evict_oldest(capacity) else {
                break;
            };
            *place = Some(gone);
        }
        Evicted(evicted)
    }

    fn begin(&mut self, key: u64, charge: u64) -> Result<(Begun, Evicted), Refusal> {
        let Some(mut entry) = self.of_key(key) else {
            return self.make(key, charge);
        };
        if entry.pins == self.most_pins {
            return Err(Refusal::Overflow);
        }
        let begun = match entry.phase {
            Phase::Making => Begun::Wait(entry.stamp),
            Phase::Untaken => Begun::Make(entry.stamp),
            Phase::Ready(value) => Begun::Hit(entry.stamp, value),
        };
        if entry.phase == Phase::Untaken {
            entry.phase = Phase::Making;
        }
        self.pin(entry);
        Ok((begun, Evicted([None; KEYS])))
    }

    // Whether the capacity has room for the charge beside those of the held entries.
    fn has_capacity_for(&self, charge: u64) -> bool {
        self.pinned_charge().saturating_add(charge) <= self.capacity
    }

    fn begin_strictly(&mut self, key: u64, charge: u64) -> Result<(Begun, Evicted), Refusal> {
        if self.of_key(key).is_none() && !self.has_capacity_for(charge) {
            return Err(Refusal::Full);
        }
        self.begin(key, charge)
    }

    fn make(&mut self, key: u64, charge: u64) -> Result<(Begun, Evicted), Refusal> {
        let stamp = self.next;
        let (Some(next), Some(_)) = (stamp.checked_add(1), self.total().checked_add(charge)) else {
            return Err(Refusal::Overflow);
        };
        self.entries.push(Entry {
            stamp,
            key,
            charge,
            pins: 1,
            detached: false,
            phase: Phase::Making,
            rested: 0,
        })?;
        self.next = next;
        self.pinned = Some(stamp);
        Ok((Begun::Make(stamp), self.settle(self.capacity)))
    }

    fn poll(&mut self, stamp: u64) -> Result<Begun, Refusal> {
        let Some(mut entry) = self.of_stamp(stamp) else {
            return Err(Refusal::Stale);
        };
        match entry.phase {
            _ if entry.pins == 0 => Err(Refusal::Stale),
            Phase::Making => Ok(Begun::Wait(stamp)),
            Phase::Untaken => {
                entry.phase = Phase::Making;
                self.put(entry);
                Ok(Begun::Make(stamp))
            }
            Phase::Ready(value) => Ok(Begun::Hit(stamp, value)),
        }
    }

    // Returns the entry with this stamp if it is being made.
    fn being_made(&self, stamp: u64) -> Option<Entry> {
        match self.of_stamp(stamp) {
            Some(entry) if entry.phase == Phase::Making => Some(entry),
            _ => None,
        }
    }

    fn ready(&mut self, stamp: u64, value: u64) -> Result<(), u64> {
        let mut entry = self.being_made(stamp).ok_or(value)?;
        entry.phase = Phase::Ready(value);
        self.put(entry);
        Ok(())
    }

    fn fail(&mut self, stamp: u64) -> Result<Failed, Refusal> {
        let mut entry = self.being_made(stamp).ok_or(Refusal::Stale)?;
        if entry.pins > 1 {
            entry.pins -= 1;
            entry.phase = Phase::Untaken;
            self.put(entry);
            return Ok(Failed::Left);
        }
        self.remove(stamp);
        Ok(Failed::Removed(entry.key))
    }

    fn get(&mut self, key: u64) -> Result<Option<(u64, u64)>, Refusal> {
        let Some(entry) = self.of_key(key) else {
            return Ok(None);
        };
        let Phase::Ready(value) = entry.phase else {
            return Ok(None);
        };
        if entry.pins == self.most_pins {
            return Err(Refusal::Overflow);
        }
        self.pin(entry);
        Ok(Some((entry.stamp, value)))
    }

    // A get whose pin is released at once. It leaves no pin, and evicts nothing.
    fn read(&mut self, key: u64) -> Result<Option<(u64, u64)>, Refusal> {
        let Some((stamp, value)) = self.get(key)? else {
            return Ok(None);
        };
        let _evicted = self.release(stamp)?;
        self.pinned = None;
        Ok(Some((stamp, value)))
    }

    // Removes a pin from a ready entry, and returns the entry.
    fn unpin(&mut self, stamp: u64) -> Result<Entry, Refusal> {
        let mut entry = self.of_stamp(stamp).ok_or(Refusal::Stale)?;
        if entry.pins == 0 || !matches!(entry.phase, Phase::Ready(_)) {
            return Err(Refusal::Stale);
        }
        entry.pins -= 1;
        entry.rested = self.releases;
        self.releases = self.releases.saturating_add(1);
        self.put(entry);
        Ok(entry)
    }

    fn release(&mut self, stamp: u64) -> Result<Evicted, Refusal> {
        let entry = self.unpin(stamp)?;
        if entry.pins == 0 && entry.detached {
            return Ok(self.evict_alone(entry));
        }
        let capacity = if entry.pins == 0 {
            self.capacity
        } else {
            u64::MAX
        };
        Ok(self.settle(capacity))
    }

    fn release_and_evict(&mut self, stamp: u64) -> Result<Evicted, Refusal> {
        let entry = self.unpin(stamp)?;
        if entry.pins > 0 {
            return Ok(self.settle(u64::MAX));
        }
        Ok(self.evict_alone(entry))
    }

    fn repin(&mut self, stamp: u64) -> Result<u64, Refusal> {
        let entry = self.of_stamp(stamp).ok_or(Refusal::Stale)?;
        let Phase::Ready(value) = entry.phase else {
            return Err(Refusal::Stale);
        };
        if entry.pins == self.most_pins {
            return Err(Refusal::Overflow);
        }
        self.pin(entry);
        Ok(value)
    }

    fn advice_evict(&mut self, key: u64) -> Evicted {
        match self.of_key(key) {
            Some(entry) => self.evict_alone(entry),
            None => Evicted([None; KEYS]),
        }
    }

    fn invalidate(&mut self, key: u64) -> Evicted {
        let Some(mut entry) = self.of_key(key) else {
            return Evicted([None; KEYS]);
        };
        if entry.pins == 0 {
            return self.evict_alone(entry);
        }
        entry.detached = true;
        self.put(entry);
        Evicted([None; KEYS])
    }

    fn insert(&mut self, key: u64, charge: u64, value: u64) -> Result<Inserted, (Refusal, u64)> {
        let leaves = match self.of_key(key) {
            Some(entry) if entry.pins == 0 => entry.charge,
            _ => 0,
        };
        let rest = self.total().saturating_sub(leaves);
        let (Some(_), Some(_)) = (self.next.checked_add(1), rest.checked_add(charge)) else {
            return Err((Refusal::Overflow, value));
        };
        let stamp = self.next;
        let replaced = self.invalidate(key);
        let (_, evicted) = match self.make(key, charge) {
            Ok(made) => made,
            Err(refusal) => return Err((refusal, value)),
        };
        if let Err(value) = self.ready(stamp, value) {
            return Err((Refusal::Stale, value));
        }
        Ok(Inserted {
            stamp,
            replaced,
            evicted,
        })
    }

    fn insert_strictly(
        &mut self,
        key: u64,
        charge: u64,
        value: u64,
    ) -> Result<Inserted, (Refusal, u64)> {
        if !self.has_capacity_for(charge) {
            return Err((Refusal::Full, value));
        }
        self.insert(key, charge, value)
    }

    fn key_of(&self, stamp: u64) -> Option<u64> {
        Some(self.of_stamp(stamp)?.key)
    }

    fn set_capacity(&mut self, capacity: u64) -> Evicted {
        self.capacity = capacity;
        self.settle(capacity)
    }

    /// Makes a call. Returns the text of its answer, or `AllocError` if memory is refused.
    pub(crate) fn answer(&mut self, alloc: Global, call: Call) -> Result<String, AllocError> {
        self.pinned = None;
        match call {
            Call::Begin(key, charge) => text_of(alloc, &self.begin(key, charge)),
            Call::BeginStrictly(key, charge) => text_of(alloc, &self.begin_strictly(key, charge)),
            Call::Poll(stamp) => text_of(alloc, &self.poll(stamp)),
            Call::Ready(stamp, value) => text_of(alloc, &self.ready(stamp, value)),
            Call::Fail(stamp) => text_of(alloc, &self.fail(stamp)),
            Call::Get(key) => text_of(alloc, &self.get(key)),
            Call::Read(key) => text_of(alloc, &self.read(key)),
            Call::Release(stamp) => text_of(alloc, &self.release(stamp)),
            Call::ReleaseAndEvict(stamp) => text_of(alloc, &self.release_and_evict(stamp)),
            Call::Repin(stamp) => text_of(alloc, &self.repin(stamp)),
            Call::AdviceEvict(key) => text_of(alloc, &self.advice_evict(key)),
            Call::Invalidate(key) => text_of(alloc, &self.invalidate(key)),
            Call::Insert(key, charge, value) => text_of(alloc, &self.insert(key, charge, value)),
            Call::InsertStrictly(key, charge, value) => {
                text_of(alloc, &self.insert_strictly(key, charge, value))
            }
            Call::Prune => text_of(alloc, &self.settle(0)),
            Call::SetCapacity(capacity) => text_of(alloc, &self.set_capacity(capacity)),
            Call::Total => text_of(alloc, &self.total()),
            Call::Capacity => text_of(alloc, &self.capacity),
            Call::KeyOf(stamp) => text_of(alloc, &self.key_of(stamp)),
        }
    }
}
