//! Workers that share a cache, each with calls of its own.

use crate::calls::{Calls, WorkerCall};
use crate::stress::outcome::{Check, Trouble};
use crate::stress::plan::{KEYS, Plan};
use crate::stress::start::Start;
use concurrent_lru::lru_core::Refusal;
use concurrent_lru::unsharded::GetError;
use std::alloc::Global;
use std::thread;
use std::thread::Threads;

/// The result of a call.
#[derive(Clone, Copy)]
pub struct Answer {
    /// The key that the value was made for.
    pub key: u64,
    /// Whether another call's `init` made it.
    pub is_hit: bool,
    /// Whether it did so after this call began.
    pub is_meeting: bool,
    /// The total while the handle was held, if it was read.
    pub total: u128,
}

impl Answer {
    /// Returns an answer of which only the key that the value was made for is known.
    pub fn of_key(key: u64) -> Answer {
        Answer {
            key,
            is_hit: false,
            is_meeting: false,
            total: 0,
        }
    }
}

/// Why a call returned no value.
#[derive(Clone, Copy)]
pub enum Unmade {
    /// The making was meant to fail.
    Failed,
    /// The cache refused the call, or memory for the value was refused.
    Refused(Refusal),
}

impl From<GetError<Unmade>> for Unmade {
    fn from(error: GetError<Unmade>) -> Unmade {
        match error {
            GetError::Init(unmade) => unmade,
            GetError::Memory => Unmade::Refused(Refusal::Memory),
            GetError::Overflow => Unmade::Refused(Refusal::Overflow),
            GetError::Full => Unmade::Refused(Refusal::Full),
        }
    }
}

/// A cache as its workers ask it. It has no associated type, since the checker supports no closure
/// of a thread over a type that has one.
pub trait StressTarget {
    /// Asks for a value, and drops its handle at once.
    fn ask(&self, call: &WorkerCall) -> Result<Answer, Unmade>;
}

/// What workers note of their calls' answers.
#[derive(Clone, Copy)]
pub struct Notes {
    /// The sum of the values' keys, over the calls whose making would not fail. If it would,
    /// whether a value is read depends on the other workers, so only this sum is the same on every
    /// schedule.
    pub key_sum: u64,
    /// How many calls returned a value that another call made.
    pub hits: u64,
    /// How many of these values were made after the call began.
    pub meetings: u64,
    /// The greatest total that was read while a handle was held; 0 if none was read.
    pub greatest: u128,
    trouble: Option<Trouble>,
}

impl Notes {
    fn none() -> Notes {
        Notes {
            key_sum: 0,
            hits: 0,
            meetings: 0,
            greatest: 0,
            trouble: None,
        }
    }

    fn note(&mut self, call: &WorkerCall, answer: Result<Answer, Unmade>) {
        match answer {
            Ok(answer) => self.note_value(call, answer),
            Err(Unmade::Failed) if call.fails => {}
            Err(Unmade::Refused(Refusal::Memory)) => self.trouble = Some(Trouble::Refused),
            Err(_) => self.note_failed(),
        }
    }

    fn note_value(&mut self, call: &WorkerCall, answer: Answer) {
        if answer.key != call.key {
            self.note_failed();
        }
        if !call.fails {
            self.key_sum = self.key_sum.wrapping_add(answer.key);
        }
        self.hits = self.hits.wrapping_add(u64::from(answer.is_hit));
        self.meetings = self.meetings.wrapping_add(u64::from(answer.is_meeting));
        self.greatest = self.greatest.max(answer.total);
    }

    fn note_failed(&mut self) {
        let failed = Trouble::Failed(Check::Answers);
        self.trouble = Trouble::worse(self.trouble, Some(failed));
    }

    // Returns the sum of these workers' notes.
    fn sum(notes: &[Notes]) -> Notes {
        let mut sum = Notes::none();
        for note in notes {
            sum.key_sum = sum.key_sum.wrapping_add(note.key_sum);
            sum.hits = sum.hits.wrapping_add(note.hits);
            sum.meetings = sum.meetings.wrapping_add(note.meetings);
            sum.greatest = sum.greatest.max(note.greatest);
            sum.trouble = Trouble::worse(sum.trouble, note.trouble);
        }
        sum
    }
}

/// Makes all workers' calls on a cache at once, and returns what they noted together.
///
/// Returns `Refused` if memory was refused to a call or a worker could not have its own thread, and
/// otherwise `Failed(Answers)` if a call whose making would not fail returned no value, or that of
/// another key.
pub fn share<R: Threads + Sync, C: StressTarget + Sync>(
    rt: &R,
    alloc: Global,
    plan: &Plan,
    cache: &C,
) -> Result<Notes, Trouble> {
    let start = Start::of(plan.workers);
    let together = &start;
    let notes = thread::map_indices(
        rt,
        alloc,
        usize::from(plan.workers),
        &|worker| { work(cache, plan, worker, together) },
    )?;
    let sum = Notes::sum(&notes);
    match sum.trouble {
        Some(trouble) => Err(trouble),
        None => Ok(sum),
    }
}

// Makes a worker's calls.
fn work<C: StressTarget>(cache: &C, plan: &Plan, worker: usize, start: &Start) -> Notes {
    let mut notes = Notes::none();
    if !start.meets_all() {
        notes.trouble = Some(Trouble::Refused);
        return notes;
    }
    let mut calls = Calls::of_worker(plan.seed, worker as u64);
    for number in 0..plan.calls {
        let call = calls.draw(KEYS);
        notes.note(&call, cache.ask(&call));
        if plan.rests && number % 1_000 == 999 {
            thread::yield_now();
        }
    }
    notes
}
