//! A single thread that makes calls on a cache, and holds handles in slots.
ghost use Rattle.std.specs.Prelude.{◌<◌};

use crate::seeded::said::Said;
use crate::seeded::view::Viewed;
use crate::threaded::{NoHandle, Then, ThreadedCall, make_value, try_make_value};
use lru_support::cached::Cached;
use lru_support::drops::{DropLog, Logged};
use lru_support::tables::Answers;
use std::alloc::{AllocError, Global};
use std::mem;
use std::sync::Wait;

/// The number of handles that a player can hold.
pub(crate) const SLOTS: usize = 4;

/// A cache, the log of its values, and the handles that are held in slots, initially none.
#[derive(Drop)]
pub(crate) struct Player<'l, R: Wait, C: Cached<Logged<R>>> {
    cache: C,
    log: &'l DropLog<R>,
    slots: Vec<Option<C::Handle>>,
}

impl<'l, R: Wait + Clone + Drop, C: Viewed<Logged<R>>> Player<'l, R, C> {
    /// Creates a player that holds nothing. Returns `AllocError` if there is no room for its slots.
    pub(crate) fn new(
        alloc: Global,
        cache: C,
        log: &'l DropLog<R>,
    ) -> Result<Player<'l, R, C>, AllocError> {
        let mut slots = Vec::new(alloc);
        for _ in 0..SLOTS {
            slots.push(None)?;
        }
        Ok(Player { cache, log, slots })
    }

    // Makes a call. Returns `AllocError` if memory for a value is refused; then no call was made.
    fn take(&mut self, call: ThreadedCall) -> Result<Said, AllocError> {
        match call {
            ThreadedCall::Init(key, charge, number, then) => {
                let value = self.log.value(number)?;
                Ok(self.init(key, charge, value, then))
            }
            ThreadedCall::TryInit(key, charge, number, then) => {
                let value = self.log.value(number)?;
                Ok(self.try_init(key, charge, Some(value), then))
            }
            ThreadedCall::Fail(key, charge, then) => Ok(self.try_init(key, charge, None, then)),
            ThreadedCall::Insert(key, charge, number, then) => {
                let value = self.log.value(number)?;
                Ok(self.insert(key, charge, value, then))
            }
            ThreadedCall::Get(key, then) => Ok(self.get(key, then)),
            ThreadedCall::Read(key) => Ok(self.read(key)),
            ThreadedCall::LetGo(slot) => {
                self.put(slot, None);
                Ok(Said::Done)
            }
            _ => Ok(change(self.cache, call)),
        }
    }

    // Puts a handle in a slot and drops what the slot had.
    fn put(&mut self, slot: usize, handle: Option<C::Handle>) {
        if let Some(place) = self.slots.get_mut(slot) {
            *place = handle;
        }
    }

    // Does with a handle what the call asks, and returns the number of its value.
    fn keep(&mut self, handle: C::Handle, then: Then) -> u64 {
        let number = C::value_of(&handle).number();
        match then {
            Then::AtOnce => drop(handle),
            Then::Keep(slot) => self.put(slot, Some(handle)),
            Then::Forget => mem::forget(handle),
        }
        number
    }

    fn get(&mut self, key: u64, then: Then) -> Said {
        match self.cache.get(key) {
            Ok(Some(handle)) => Said::Found(self.keep(handle, then)),
            Ok(None) => Said::Absent,
            Err(refusal) => Said::Refused(refusal),
        }
    }

    fn read(&self, key: u64) -> Said {
        match self.cache.read(key, |value| value.number()) {
            Ok(Some(number)) => Said::Read(number),
            Ok(None) => Said::Absent,
            Err(refusal) => Said::Refused(refusal),
        }
    }

    fn insert(&mut self, key: u64, charge: u64, value: Logged<R>, then: Then) -> Said {
        match self.cache.insert(key, charge.max(1), value) {
            Ok(handle) => Said::Put(self.keep(handle, then)),
            Err(refusal) => Said::Refused(refusal),
        }
    }

    fn init(&mut self, key: u64, charge: u64, value: Logged<R>, then: Then) -> Said {
        let mut ran = None;
        let made = make_value(self.cache, key, charge.max(1), value, &mut ran);
        self.answer_made(made, ran, then)
    }

    fn try_init(&mut self, key: u64, charge: u64, value: Option<Logged<R>>, then: Then) -> Said {
        let mut ran = None;
        let made = try_make_value(self.cache, key, charge.max(1), value, &mut ran);
        self.answer_made(made, ran, then)
    }

    // If an `init` made the value, `ran` has the key of that `init`.
    fn answer_made(
        &mut self,
        made: Result<C::Handle, NoHandle>,
        ran: Option<u64>,
        then: Then,
    ) -> Said {
        match made {
            Ok(handle) => {
                let number = self.keep(handle, then);
                match ran {
                    Some(key) => Said::Made(key, number),
                    None => Said::Found(number),
                }
            }
            Err(NoHandle::Failed(key)) => Said::Failed(key),
            Err(NoHandle::Refused(refusal)) => Said::Refused(refusal),
        }
    }
}

// Makes a call that returns no value.
fn change<V, C: Viewed<V>>(cache: C, call: ThreadedCall) -> Said {
    match call {
        ThreadedCall::Contains(key) => return Said::Contains(cache.contains(key)),
        ThreadedCall::AdviceEvict(key) => cache.advice_evict(key),
        ThreadedCall::Invalidate(key) => cache.invalidate(key),
        ThreadedCall::Prune => cache.prune(),
        ThreadedCall::SetCapacity(capacity) => cache.set_capacity(capacity),
        ThreadedCall::SetStrict(is_strict) => cache.set_strict(is_strict),
        ThreadedCall::Reserve(entries) => {
            if let Err(refusal) = cache.reserve(entries) {
                return Said::Refused(refusal);
            }
        }
        _ => {}
    }
    Said::Done
}

// Prints the answer and the values that were dropped.
impl<'l, R: Wait + Clone + Drop, C: Viewed<Logged<R>>> Answers<ThreadedCall> for Player<'l, R, C> {
    fn answer(&mut self, alloc: Global, call: ThreadedCall) -> Result<String, AllocError> {
        match call {
            ThreadedCall::View => return self.cache.view(alloc),
            ThreadedCall::ResetCounts => return self.cache.reset(alloc),
            _ => {}
        }
        let said = self.take(call)?;
        let dropped = self.log.numbers()?;
        self.log.clear();
        format!(in alloc; "{said:?}, drops {dropped:?}")
    }
}
