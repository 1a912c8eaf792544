//! What a caller has seen of a history, and what it may find with it.
ghost use Rattle.std.specs.Prelude.{◌≡◌, ℕ, IfSome, IsTrue};
ghost use mathlib.Core.List.{IsPrefix};
ghost use Rattle.logbook.specs.Pages.{Named};
ghost use Rattle.lru_clock.specs.History.{turns, ComesTo, HasCome};
ghost use Rattle.lru_clock.specs.Arrivals.{Arrives};
ghost use Rattle.lru_clock.specs.declared.history.Entry.{Entry as Entry_};

use crate::history::track::Track;
use crate::history::{Chronicle, Log};
use std::marker::Model;

/// A caller's record of what it has seen of a key's shard, with which it finds nothing again that
/// it has invalidated.
///
/// After an `invalidate_since` with a past, `find_since` with that past returns only values that
/// were inserted, or whose making began, after the call, whatever other callers do. So it returns
/// none that the past had seen: found with it, or learned of by `learn`.
///
/// Clauses see two prefixes of the shard's history: what the caller has seen (`seen`), and the
/// prefix after which the making of an entry must have begun for the caller to find the entry
/// (`since`). The `book` says whose history it is. At run time a past is one number.
#[derive(Drop)]
pub struct Past<K, V> {
    // At least as great as each number that was drawn in `since`.
    number: u64,
    since: Log<K, V>,
    seen: Log<K, V>,
}

impl<K, V> Model for Past<K, V> {
    ghost use Rattle.std.specs.Prelude.{◌≡◌, ◌≤◌};
    ghost use mathlib.Core.List.{IsPrefix};
    ghost use Rattle.lru_clock.specs.History.{turns};
    ghost use Rattle.lru_clock.specs.Pins.{PastOf};

    ghost Value = { PastOf K V };

    ghost view = { λ p. record { book = p.seen.book; since = p.since.log; seen = p.seen.log } };

    ghost invariant = { λ p. (p.since.book ≡ p.seen.book) × IsPrefix p.since.log p.seen.log
        × (turns 1 p.since.log ≤ p.number) };
}

impl<K, V> Past<K, V> {
    /// Returns a copy.
    pub fn again(&self) -> Self
        ensures { result ≡ self.now }
    {
        Past {
            number: self.number,
            since: self.since.again(),
            seen: self.seen.again(),
        }
    }

    /// Returns a copy of the past, if there is one.
    #[inline(always)]
    pub(crate) fn copied(past: &Option<Self>) -> Option<Self>
        ensures { result ≡ past.now }
    {
        match past {
            Some(past) => Some(past.again()),
            None => None,
        }
    }

    /// Returns what has been seen.
    #[inline(always)]
    pub(crate) fn seen(&self) -> Log<K, V>
        ensures { (result.book ≡ self.now.book) × (result.log ≡ self.now.seen) }
    {
        self.seen.again()
    }

    /// Returns the prefix after which the making of an entry must have begun for it to be found.
    pub(crate) fn since(&self) -> Log<K, V>
        ensures { (result.book ≡ self.now.book) × (result.log ≡ self.now.since) }
    {
        self.since.again()
    }

    /// Returns a past with the same `since` that has seen more.
    #[inline(always)]
    pub(crate) fn after(&self, seen: Log<K, V>) -> Self
        requires book { seen.book ≡ self.now.book }
        requires later { IsPrefix self.now.seen seen.log }
        ensures book { result.book ≡ self.now.book }
        ensures since { result.since ≡ self.now.since }
        ensures seen { result.seen ≡ seen.log }
    {
        Past {
            number: self.number,
            since: self.since.again(),
            seen,
        }
    }

    /// Returns a longer prefix of the history, if the making of the entry of this arrival, which is
    /// of this age, is known to have begun after `since`, and the entry is still in its slot at the
    /// end of the prefix.
    #[inline(always)]
    pub(crate) fn find(
        &self,
        track: &Track<K, V>,
        arrival: &Arrival<K, V>,
        age: u32,
    ) -> Option<Log<K, V>>
        requires book { self.now.book ≡ track.now.word.book }
        requires arrival { arrival.now.log.book ≡ track.now.word.book }
        ensures ours { IfSome result (λ seen. seen.book ≡ track.now.word.book) }
        ensures comes { IfSome result (λ seen. (e : Entry_ K V)
            → Arrives track.now.word arrival.now age e → ComesTo track.now.word.key e seen.log) }
        ensures book { IfSome result (λ seen. seen.book ≡ self.now.book) }
        ensures later { IfSome result (λ seen. IsPrefix self.now.seen seen.log) }
        ensures came { IfSome result (λ seen. (e : Entry_ K V)
            → Arrives track.now.word arrival.now age e
            → HasCome track.now.word.key self.now.since e seen.log) }
    {
        let (number, seen) = track.look(&self.seen);
        let ticket = arrival.ticket(age)?;
        if number != arrival.number || ticket <= self.number {
            return None;
        }
        // Has no effect at run time: it proves that both are prefixes of one history.
        let mut both = seen.again();
        both.learn(&arrival.log);
        Some(seen)
    }
}

/// How an entry came to its slot: the number that was drawn for it, and the prefix of the history
/// that ends when it came.
///
/// The age of its making, which the slot keeps, is how far the ticket lies below the number, or
/// `u32::MAX` if it lies that far below or farther.
#[derive(Drop)]
pub struct Arrival<K, V> {
    pub(super) number: u64,
    pub(crate) log: Log<K, V>,
}

impl<K, V> Arrival<K, V> {
    // Returns the ticket of the making, which is of this age. Returns `None` if the age is too
    // great to tell: two billion numbers were drawn during the making, which then counts as begun
    // before the `since` of any past.
    #[inline(always)]
    fn ticket(&self, age: u32) -> Option<u64>
        ensures { IfSome result (λ ticket. (w : Named) (e : Entry_ K V)
            → (at : Arrives w self.now age e) → at.ticket ≡ ticket) }
    {
        if age == u32::MAX {
            return None;
        }
        // Always `Some`, since a ticket is drawn before the number.
        self.number.checked_sub(age as u64)
    }

    /// Returns whether both are one arrival, if they are arrivals at one slot.
    pub(crate) fn is(&self, other: &Arrival<K, V>) -> bool
        requires book { other.now.log.book ≡ self.now.log.book }
        ensures { IsTrue result → (w : Named) (age other_age : ℕ) (e f : Entry_ K V)
            → Arrives w self.now age e → Arrives w other.now other_age f → e ≡ f }
    {
        // Has no effect at run time: it proves that both are prefixes of one history.
        let mut both = self.log.again();
        both.learn(&other.log);
        self.number == other.number
    }

    /// With a past, does what `Past::find` does. Without one, reads nothing, and returns the
    /// history up to this arrival.
    #[inline(always)]
    pub(crate) fn confirm(
        &self,
        age: u32,
        track: &Track<K, V>,
        past: &Option<Past<K, V>>,
    ) -> Option<Log<K, V>>
        requires arrival { self.now.log.book ≡ track.now.word.book }
        requires book { IfSome past.now (λ p. p.book ≡ track.now.word.book) }
        ensures ours { IfSome result (λ seen. seen.book ≡ track.now.word.book) }
        ensures comes { IfSome result (λ seen. (e : Entry_ K V)
            → Arrives track.now.word self.now age e → ComesTo track.now.word.key e seen.log) }
        ensures book { IfSome past.now (λ past. IfSome result (λ seen. seen.book ≡ past.book)) }
        ensures later { IfSome past.now
            (λ past. IfSome result (λ seen. IsPrefix past.seen seen.log)) }
        ensures came { IfSome past.now (λ past. IfSome result (λ seen. (e : Entry_ K V)
            → Arrives track.now.word self.now age e
            → HasCome track.now.word.key past.since e seen.log)) }
    {
        match past {
            Some(past) => past.find(track, self, age),
            None => Some(self.log.again()),
        }
    }
}

impl<K, V> Chronicle<K, V> {
    /// Returns a past that has seen the history up to this call. Its `since` is the beginning, so
    /// that every making begins after it.
    pub fn past(&self) -> Past<K, V>
        ensures book { result.book ≡ self.now.first.book }
        ensures since { result.since ≡ self.now.first.log }
    {
        let (_, seen) = self.numbers.look(&self.first);
        Past {
            number: 1,
            since: self.first.again(),
            seen,
        }
    }

    /// Returns a past whose `since` is the history up to this call, and so extends all that the
    /// given past has seen.
    pub fn renew(&self, past: &Past<K, V>) -> Past<K, V>
        requires book { past.now.book ≡ self.now.first.book }
        ensures book { result.book ≡ past.now.book }
        ensures later { IsPrefix past.now.seen result.since }
    {
        let (number, since) = self.numbers.look(&past.seen);
        let seen = since.again();
        Past {
            number,
            since,
            seen,
        }
    }
}
