//! The counters of slots, which record what comes to them and what leaves them.
ghost use Rattle.std.specs.Prelude.{◌≡◌, ◌+◌, ◌<◌, ◌≤◌, ◌++◌, ◌∷◌, [], List, None, true};
ghost use Rattle.std.specs.Prelude.{IfErr, IfOk, IfSome, IsTrue};
ghost use mathlib.Core.List.{IsPrefix};
ghost use Rattle.lru_clock.specs.History.{turns, entry, entry_at};
ghost use Rattle.lru_clock.specs.Arrivals.{Arrives};
ghost use Rattle.lru_clock.specs.Hits.{ComesLast};
ghost use Rattle.lru_clock.specs.declared.history.Event.{Event as Event_};

use crate::history::past::Arrival;
use crate::history::{
    Add, Ask, Coming, Count, EntryComes, EntryLeaves, GainsNothing, Log, Look, MOST_NUMBERS,
    NumberIsDrawn,
};
use concurrent_lru::shown::Shown;
use std::marker::Model;

/// The counter of a slot, with a prefix of the history that has the slot's first event.
#[derive(Drop)]
pub struct Track<K, V> {
    pub word: Count<K, V>,
    pub(super) begun: Log<K, V>,
    pub ghost tracked: { word.tracked ≡ true },
    pub ghost book: { begun.book ≡ word.book },
    pub ghost begins: { 0 < turns word.key begun.log },
}

impl<K, V> Track<K, V> {
    /// Reads the counter, and returns its value with a prefix of the history after which it has it.
    #[inline(always)]
    pub fn look(&self, past: &Log<K, V>) -> (u64, Log<K, V>)
        requires book { past.now.book ≡ self.now.word.book }
        ensures book { result.1.book ≡ past.now.book }
        ensures later { IsPrefix past.now.log result.1.log }
        ensures begun { 0 < turns self.now.word.key result.1.log }
        ensures found { result.0 ≡ turns self.now.word.key result.1.log }
    {
        let mut seen = past.again();
        seen.learn(&self.begun);
        let mut ask: Ask<K, V> = seen.plain::<GainsNothing, Count<K, V>, EntryLeaves>(&self.word);
        let found = self.word.load::<Look, GainsNothing>(&mut seen, &mut ask);
        (found, seen)
    }

    /// Draws a number from this counter.
    pub(super) fn draw(&self, past: &Log<K, V>) -> Option<(u64, Log<K, V>)>
        requires book { past.now.book ≡ self.now.word.book }
        ensures book { IfSome result (λ drawn. drawn.1.book ≡ past.now.book) }
        ensures drawn { IfSome result (λ drawn. drawn.0 ≡ turns self.now.word.key drawn.1.log) }
    {
        let (last, mut seen) = self.look(past);
        if last >= MOST_NUMBERS {
            return None;
        }
        let ask = seen.plain::<GainsNothing, Count<K, V>, NumberIsDrawn>(&self.word);
        if self.add(last, last + 2, ask, &mut seen) {
            Some((last + 2, seen))
        } else {
            None
        }
    }

    /// Records that an entry comes to the slot, with a number that was drawn in `seen`, and a
    /// ticket that was drawn no later. It takes the place of the entry `old`, if there is one.
    /// Returns the arrival, the age of the making, and the debt of the new entry.
    ///
    /// Returns `old` if the counter has already reached the number, or if another caller changes it
    /// at the same time.
    pub fn come(
        &self,
        number: u64,
        ticket: u64,
        seen: &Log<K, V>,
        key: &K,
        value: &V,
        old: Option<Recorded<K, V>>,
    ) -> Result<(Arrival<K, V>, u32, Recorded<K, V>), Option<Recorded<K, V>>>
        requires book { seen.now.book ≡ self.now.word.book }
        requires drawn { number ≤ turns 1 seen.now.log }
        requires begun { ticket ≤ number }
        requires old { IfSome old (λ r. r ≡ self.now.word) }
        ensures arrives { IfOk result
            (λ came. Arrives self.now.word came.0 came.1 (entry key.now value.now)) }
        ensures ticket { IfOk result (λ came. ComesLast ticket value.now came.0.log.log) }
        ensures recorded { IfOk result (λ came. came.2 ≡ self.now.word) }
        ensures back { IfErr result (λ back. back ≡ old) }
    {
        let (last, mut log) = self.look(seen);
        if last >= number {
            return Err(old);
        }
        let coming = Coming {
            word: Shown::of(&self.word),
            skipped: number - last - 1,
            ticket,
            key: Shown::of(key),
            value: Shown::of(value),
        };
        let ask = log.plain::<GainsNothing, Coming<K, V>, EntryComes>(&coming);
        if self.add(last, number, ask, &mut log) {
            let age = (number - ticket).min(u32::MAX as u64) as u32;
            let recorded = match old {
                Some(old) => old,
                None => self.recorded(),
            };
            Ok((Arrival { number, log }, age, recorded))
        } else {
            Err(old)
        }
    }

    /// Returns the debt of the entry that the history has in the slot, once others can no longer
    /// find it there.
    pub fn recorded(&self) -> Recorded<K, V>
        ensures { result ≡ self.now.word }
    {
        Recorded {
            word: Shown::of(&self.word),
        }
    }

    /// Records that the entry has left the slot.
    pub fn leave(&self, recorded: Recorded<K, V>)
        requires { recorded ≡ self.now.word }
    {
        let (last, mut seen) = self.look(&self.begun);
        if last < MOST_NUMBERS {
            let ask = seen.plain::<GainsNothing, Count<K, V>, EntryLeaves>(&self.word);
            if self.add(last, last + 1, ask, &mut seen) {
                recorded.end(&seen);
                return;
            }
        }
        // Never so: nobody else changes the counter of a slot without the lock.
        recorded.keep();
    }

    // Adds the event that is asked for, which raises the counter from `last` to `next`. Returns
    // `false` and adds nothing if the counter is no longer `last`.
    #[inline(always)]
    fn add(&self, last: u64, next: u64, ask: Ask<K, V>, seen: &mut Log<K, V>) -> bool
        requires book { seen.old.book ≡ self.now.word.book }
        requires begun { 0 < turns self.now.word.key seen.old.log }
        requires ask { (ask.names ≡ seen.old.names) × (ask.state ≡ None)
            × (ask.ask.place ≡ self.now.word.key) }
        requires next { next ≡ last + (ask.ask.skipped + 1) }
        ensures book { seen.new.book ≡ seen.old.book }
        ensures added { IsTrue result → (mid : List (Event_ K V))
            × (seen.new.log ≡ (seen.old.log ++ mid) ++ ask.ask ∷ [])
            × (turns self.now.word.key seen.new.log ≡ next) }
    {
        let mut ask = ask;
        let mut pen = seen.no_pen();
        let found = self
            .word
            .compare_exchange::<Add, GainsNothing>(last, next, seen, &mut ask, &mut pen);
        found == last
    }
}

/// A debt: the history has an entry in a slot. `Track::leave` takes it, which records that the
/// entry has left, or `Track::come`, which records that another has taken its place. So no entry
/// leaves its slot unrecorded.
///
/// While others can find the entry, its slot has the debt: it is `keep` that gives it to the slot,
/// and `Track::recorded` that takes it back. Clauses see the counter of the slot.
pub struct Recorded<K, V> {
    word: Shown<Count<K, V>>,
}

impl<K, V> Model for Recorded<K, V> {
    ghost use Rattle.logbook.specs.Pages.{Named};

    ghost Value = { Named };

    ghost view = { λ r. r.word.value };
}

impl<K, V> Recorded<K, V> {
    /// Leaves the entry in the history.
    pub fn keep(self) {
        let Recorded { word: _ } = self;
    }

    // Ends the debt: at the end of this prefix of the history, the slot has no entry.
    fn end(self, seen: &Log<K, V>)
        requires book { seen.now.book ≡ self.book }
        requires gone { entry_at self.key seen.now.log ≡ None }
    {
        // Only the contract uses it.
        let _ = seen;
        let Recorded { word: _ } = self;
    }
}
