//! A model of a cache with locks, used by one thread: shards with one owner, of which everything is
//! proved. A cache behind one lock is a single shard.
//!
//! An `init` that does not run is dropped with its value; a value is dropped when it is evicted.
ghost use Rattle.std.specs.Prelude.{◌<◌};

use crate::seeded::player::SLOTS;
use crate::seeded::said::Said;
use crate::seeded::view::{View, Walk};
use crate::threaded::{Then, ThreadedCall};
use concurrent_lru::counts::Counts;
use concurrent_lru::lru_core::{Begun, Evicted, Refusal};
use concurrent_lru::sharded::{Shards, capacity_per_shard};
use lru_support::hashers::ByOwnNumber;
use lru_support::tables::{Answers, text_of};
use std::alloc::{AllocError, Global};
use std::sync::Arc;

// Adds one.
fn count(number: &mut u64) {
    *number = number.wrapping_add(1);
}

fn add(sum: &mut u128, charge: u64) {
    *sum = sum.wrapping_add(u128::from(charge));
}

/// Shards, the pins that are held in slots, the values that the last call dropped, and the counts.
#[derive(Drop)]
pub(crate) struct Model {
    shards: Shards<u64, u64, ByOwnNumber>,
    number_of_shards: usize,
    capacity: u64,
    is_strict: bool,
    pins: [Option<(usize, u64)>; SLOTS],
    dropped: Vec<u64>,
    counts: Counts,
}

impl Model {
    /// Creates a model of an empty cache of this many shards, which share this capacity.
    pub(crate) fn new(
        alloc: Global,
        capacity: u64,
        number_of_shards: usize,
    ) -> Result<Model, Refusal>
        requires { 0 < number_of_shards }
    {
        Ok(Model {
            shards: Shards::new(alloc, capacity, number_of_shards, ByOwnNumber)?,
            number_of_shards,
            capacity,
            is_strict: false,
            pins: [None; SLOTS],
            dropped: Vec::new(alloc),
            counts: Counts::default(),
        })
    }

    fn take(&mut self, alloc: Global, call: ThreadedCall) -> Result<Said, AllocError> {
        match call {
            ThreadedCall::Get(key, then) => self.get(key, then),
            ThreadedCall::Read(key) => Ok(self.read(key)),
            ThreadedCall::Contains(key) => Ok(Said::Contains(self.shards.contains(&key))),
            ThreadedCall::Init(key, charge, value, then)
            | ThreadedCall::TryInit(key, charge, value, then) => {
                self.init(alloc, key, charge, Some(value), then)
            }
            ThreadedCall::Fail(key, charge, then) => self.init(alloc, key, charge, None, then),
            ThreadedCall::Insert(key, charge, value, then) => self.insert(
                alloc, key, charge, value, then,
            ),
            ThreadedCall::LetGo(slot) => self.let_go(slot),
            // No memory is asked for where there is too little.
            ThreadedCall::Reserve(entries) if entries == usize::MAX => Ok(Said::Refused(
                Refusal::Memory,
            )),
            _ => self.change(call),
        }
    }

    // Makes a call that returns no value.
    fn change(&mut self, call: ThreadedCall) -> Result<Said, AllocError> {
        match call {
            ThreadedCall::AdviceEvict(key) => {
                let evicted = self.shards.advice_evict(&key);
                self.note(evicted)?;
            }
            ThreadedCall::Invalidate(key) => {
                let evicted = self.shards.invalidate(&key);
                self.note(evicted)?;
            }
            ThreadedCall::Prune => self.prune()?,
            ThreadedCall::SetCapacity(capacity) => {
                self.capacity = capacity;
                let evicted = self.shards.set_capacity(capacity);
                self.note(evicted)?;
            }
            ThreadedCall::SetStrict(is_strict) => self.is_strict = is_strict,
            _ => {}
        }
        Ok(Said::Done)
    }

    fn get(&mut self, key: u64, then: Then) -> Result<Said, AllocError> {
        match self.shards.get(&key) {
            Ok(Some((shard, stamp, value))) => {
                count(&mut self.counts.hits);
                self.keep(shard, stamp, then)?;
                Ok(Said::Found(*value))
            }
            Ok(None) => {
                count(&mut self.counts.misses);
                Ok(Said::Absent)
            }
            Err(refusal) => Ok(self.refuse(refusal)),
        }
    }

    fn read(&mut self, key: u64) -> Said {
        match self.shards.read(&key, |value| *value) {
            Ok(Some((_, value))) => {
                count(&mut self.counts.hits);
                Said::Read(value)
            }
            Ok(None) => {
                count(&mut self.counts.misses);
                Said::Absent
            }
            Err(refusal) => self.refuse(refusal),
        }
    }

    fn refuse(&mut self, refusal: Refusal) -> Said {
        count(&mut self.counts.refusals);
        Said::Refused(refusal)
    }

    fn begin(
        &mut self,
        key: u64,
        charge: u64,
    ) -> Result<(usize, Begun<u64>, Evicted<u64, u64>), Refusal>
        requires { 0 < charge }
    {
        if self.is_strict {
            self.shards.begin_strictly(&key, charge)
        } else {
            self.shards.begin(&key, charge)
        }
    }

    // A making that is to fail has no value.
    fn init(
        &mut self,
        alloc: Global,
        key: u64,
        charge: u64,
        value: Option<u64>,
        then: Then,
    ) -> Result<Said, AllocError> {
        match self.begin(key, charge.max(1)) {
            Err(refusal) => {
                self.drop_unused(value)?;
                Ok(self.refuse(refusal))
            }
            Ok((shard, begun, evicted)) => {
                self.note(evicted)?;
                match begun {
                    Begun::Make(stamp) => {
                        count(&mut self.counts.misses);
                        count(&mut self.counts.makings);
                        self.insert_entry(charge);
                        self.make(alloc, (shard, stamp), key, charge, value, then)
                    }
                    Begun::Hit(stamp, found) => {
                        count(&mut self.counts.hits);
                        self.drop_unused(value)?;
                        self.keep(shard, stamp, then)?;
                        Ok(Said::Found(*found))
                    }
                    // A single thread finds no making of another.
                    Begun::Wait(_) => Ok(Said::Absent),
                }
            }
        }
    }

    fn make(
        &mut self,
        alloc: Global,
        pin: (usize, u64),
        key: u64,
        charge: u64,
        value: Option<u64>,
        then: Then,
    ) -> Result<Said, AllocError> {
        let (shard, stamp) = pin;
        let Some(value) = value else {
            let _ = self.shards.fail(shard, stamp);
            count(&mut self.counts.failures);
            count(&mut self.counts.removals);
            add(&mut self.counts.removed_charge, charge);
            return Ok(Said::Failed(key));
        };
        let _ = self.shards.ready(shard, stamp, Arc::new(alloc, value)?);
        self.keep(shard, stamp, then)?;
        Ok(Said::Made(key, value))
    }

    fn insert_entry(&mut self, charge: u64) {
        count(&mut self.counts.insertions);
        add(&mut self.counts.inserted_charge, charge);
    }

    fn insert(
        &mut self,
        alloc: Global,
        key: u64,
        charge: u64,
        value: u64,
        then: Then,
    ) -> Result<Said, AllocError> {
        let stored = Arc::new(alloc, value)?;
        let inserted = if self.is_strict {
            self.shards.insert_strictly(&key, charge.max(1), stored)
        } else {
            self.shards.insert(&key, charge.max(1), stored)
        };
        match inserted {
            Ok((shard, inserted)) => {
                self.note(inserted.replaced)?;
                self.note(inserted.evicted)?;
                self.insert_entry(charge);
                self.keep(shard, inserted.stamp, then)?;
                Ok(Said::Put(value))
            }
            Err((refusal, _)) => {
                self.dropped.push(value)?;
                Ok(self.refuse(refusal))
            }
        }
    }

    fn drop_unused(&mut self, value: Option<u64>) -> Result<(), AllocError> {
        if let Some(value) = value {
            self.dropped.push(value)?;
        }
        Ok(())
    }

    // Does with a pin what the call does with its handle.
    fn keep(&mut self, shard: usize, stamp: u64, then: Then) -> Result<(), AllocError> {
        match then {
            Then::AtOnce => self.release(shard, stamp),
            Then::Keep(slot) => {
                let _: Said = self.let_go(slot)?;
                if let Some(place) = self.pins.get_mut(slot) {
                    *place = Some((shard, stamp));
                }
                Ok(())
            }
            Then::Forget => Ok(()),
        }
    }

    fn let_go(&mut self, slot: usize) -> Result<Said, AllocError> {
        if let Some(Some((shard, stamp))) = self.pins.get(slot).copied() {
            self.release(shard, stamp)?;
        }
        if let Some(place) = self.pins.get_mut(slot) {
            *place = None;
        }
        Ok(Said::Done)
    }

    fn release(&mut self, shard: usize, stamp: u64) -> Result<(), AllocError> {
        match self.shards.release(shard, stamp) {
            Ok(evicted) => self.note(evicted),
            Err(_) => Ok(()),
        }
    }

    fn prune(&mut self) -> Result<(), AllocError> {
        for shard in 0..self.number_of_shards {
            if let Ok(evicted) = self.shards.prune_shard(shard) {
                self.note(evicted)?;
            }
        }
        Ok(())
    }

    // Drops and counts what was evicted, oldest first.
    fn note(&mut self, evicted: Evicted<u64, u64>) -> Result<(), AllocError> {
        for gone in evicted {
            count(&mut self.counts.evictions);
            add(&mut self.counts.evicted_charge, gone.charge);
            self.dropped.push(*gone.value)?;
        }
        Ok(())
    }

    fn total(&self) -> u128 {
        let mut total: u128 = 0;
        for shard in 0..self.number_of_shards {
            if let Ok(one) = self.shards.total_shard(shard) {
                total = total.saturating_add(u128::from(one));
            }
        }
        total
    }

    fn walk(&self) -> Walk {
        let mut walk = Walk::new();
        for shard in 0..self.number_of_shards {
            if let Ok(entries) = self.shards.entries_shard(shard) {
                for entry in entries {
                    if !entry.is_detached {
                        walk.add(*entry.key, *entry.value, entry.charge, entry.pins);
                    }
                }
            }
        }
        walk
    }

    fn view(&self) -> View {
        let share = capacity_per_shard(self.capacity, self.number_of_shards.max(1));
        View {
            len: self.shards.len(),
            is_empty: self.shards.is_empty(),
            total: self.total(),
            pinned: self.shards.pinned_charge(),
            capacity: u128::from(share).saturating_mul(self.number_of_shards as u128),
            is_strict: self.is_strict,
            walk: self.walk(),
            counts: self.counts,
        }
    }

    // Returns the counts, and counts again from the entries that are present.
    fn reset(&mut self) -> Counts {
        let counts = self.counts;
        self.counts = Counts {
            entries_before: self.shards.len() as u64,
            charge_before: self.total(),
            ..Counts::default()
        };
        counts
    }
}

// Answers as a player of the cache does.
impl Answers<ThreadedCall> for Model {
    fn answer(&mut self, alloc: Global, call: ThreadedCall) -> Result<String, AllocError> {
        if let ThreadedCall::View = call {
            return text_of(alloc, &self.view());
        }
        if let ThreadedCall::ResetCounts = call {
            return text_of(alloc, &self.reset());
        }
        let said = self.take(alloc, call)?;
        let text = format!(in alloc; "{said:?}, drops {:?}", self.dropped)?;
        self.dropped.clear();
        Ok(text)
    }
}
