//! The keys whose values are being made, under the lock of a shard.
ghost use Rattle.std.specs.Prelude.{◌≡◌, ◌≢◌, [], false, IfErr, IfOk, MatchBool, MatchOption};
ghost use Rattle.std.specs.List.{list_any};
ghost use Rattle.lru_clock.specs.History.{turns};
ghost use Rattle.lru_clock.specs.Makings.{has_number, is_numbered, is_of};
ghost use Rattle.lru_clock.specs.Makings.{Ends, IsAt, IsWith, Marks};

use crate::history::Log;
use concurrent_lru::sharded::Refusal;
use std::alloc::{AllocError, Global};
use std::marker::Model;

/// A debt: a value that its caller makes. `Makings::end` takes it, whether the value was made or
/// not. Its number was drawn from the history of the shard when the making began, and no other
/// making has it.
pub struct Ticket<K, V> {
    number: u64,
    // The prefix of the history that ends when the number was drawn.
    pub(crate) began: Log<K, V>,
    ghost drawn: { number ≡ turns 1 began.log },
}

impl<K, V> Ticket<K, V> {
    /// Returns the number.
    pub(crate) fn number(&self) -> u64
        ensures { result ≡ self.now.number }
    {
        self.number
    }

    /// Returns the number of the making, which `Makings::end_number` takes in place of the ticket.
    pub(crate) fn into_number(self) -> u64
        ensures { result ≡ self.number }
    {
        let Ticket { number, began: _ } = self;
        number
    }
}

/// A key whose value is being made.
#[derive(Drop)]
pub struct Making<K> {
    key: K,
    // That of the ticket.
    number: u64,
    // Whether later callers make another value.
    is_invalidated: bool,
}

/// How a making ended.
#[derive(Drop)]
pub enum Ended<K> {
    /// Its value is the one for the key.
    Current(K),
    /// The key was invalidated meanwhile: its value is for its maker alone.
    Invalidated(K),
    /// There is no such making.
    Unknown,
}

/// The values that are being made, each by one caller, and the number of callers that wait for any
/// of them. Clauses see the list of the makings, the oldest first. No two of them have the same
/// number, and no two that are not invalidated have equal keys.
#[derive(Drop)]
pub struct Makings<K: Eq> {
    makings: Vec<Making<K>>,
    // The least number that the next making may have.
    next_number: u64,
    waiting: u64,
}

impl<K: Eq> Model for Makings<K> {
    ghost use Rattle.std.specs.Prelude.{List};
    ghost use Rattle.lru_clock.specs.Makings.{AreApart};
    ghost use Rattle.lru_clock.specs.declared.makings.Making.{Making};

    ghost Value = { List (Making K) };

    ghost view = { λ m. m.makings.items };

    ghost invariant = { λ m. AreApart K.eq m.next_number m.makings.items };
}

impl<K: Eq + Drop> Makings<K> {
    /// Creates an empty list.
    pub fn new(alloc: Global) -> Self
        ensures { result ≡ [] }
    {
        Makings {
            makings: Vec::new(alloc),
            next_number: 0,
            waiting: 0,
        }
    }

    /// Returns whether no value is being made.
    pub fn is_empty(&self) -> bool
        ensures { MatchBool result (self.now ≡ []) (self.now ≢ []) }
    {
        self.makings.is_empty()
    }

    /// Returns whether the key's value is being made, and later callers are to wait for it.
    pub fn contains(&self, key: &K) -> bool
        ensures { result ≡ list_any (is_of K.eq key.now) self.now }
    {
        self.find(key).is_some()
    }

    /// Begins the making of a key's value, which nobody is making, and returns its ticket, with a
    /// number that was drawn at the end of `began`.
    ///
    /// Returns `Memory` if the allocator refuses, and `Overflow` if an earlier making has the same
    /// number or a greater one.
    pub fn begin<V>(
        &mut self,
        key: K,
        number: u64,
        began: Log<K, V>,
    ) -> Result<Ticket<K, V>, Refusal>
        requires absent { list_any (is_of K.eq key) self.now ≡ false }
        requires drawn { number ≡ turns 1 began.log }
        ensures began { IfOk result (λ ticket. ticket.began ≡ began) }
        ensures made { IfOk result (λ ticket. IsWith self.old key ticket.number self.new) }
        ensures refused { IfErr result (λ e. (self.new ≡ self.old) × (e ≢ Refusal.Stale)) }
    {
        if number < self.next_number {
            return Err(Refusal::Overflow);
        }
        let Some(next_number) = number.checked_add(1) else {
            return Err(Refusal::Overflow);
        };
        let made = self.makings.push(Making {
            key,
            number,
            is_invalidated: false,
        });
        if let Err(failed) = made {
            return Err(AllocError::from(failed).into());
        }
        self.next_number = next_number;
        Ok(Ticket { number, began })
    }

    /// Ends a making.
    pub fn end<V>(&mut self, ticket: Ticket<K, V>) -> Ended<K>
        ensures { Ends ticket.number self.old result self.new }
    {
        self.end_number(ticket.into_number())
    }

    /// `end`, for a caller that cannot keep a ticket and may pass any number: it may end a making
    /// of another caller, or none.
    pub(crate) fn end_number(&mut self, number: u64) -> Ended<K>
        ensures { Ends number self.old result self.new }
    {
        let Some(at) = self.find_number(number) else {
            return Ended::Unknown;
        };
        let Making {
            key,
            number: _,
            is_invalidated,
        } = self.makings.remove(at);
        if is_invalidated {
            Ended::Invalidated(key)
        } else {
            Ended::Current(key)
        }
    }

    /// Invalidates the making of a key's value: later callers make another value.
    pub fn invalidate(&mut self, key: &K)
        ensures marks { Marks K.eq key.now self.old self.new }
        ensures gone { list_any (is_of K.eq key.now) self.new ≡ false }
    {
        if let Some(at) = self.find(key) {
            self.makings[at].is_invalidated = true;
        }
    }

    /// Invalidates the making of every key's value.
    pub fn invalidate_all(&mut self) {
        for at in 0..self.makings.len() {
            self.mark(at);
        }
    }

    // Invalidates the making at an index, if there is one.
    fn mark(&mut self, at: usize) {
        if at >= self.makings.len() {
            return;
        }
        self.makings[at].is_invalidated = true;
    }

    // Returns where the making of a key's value is that was not invalidated.
    fn find(&self, key: &K) -> Option<usize>
        ensures { MatchOption result (list_any (is_of K.eq key.now) self.now ≡ false)
            (λ at. IsAt (is_of K.eq key.now) self.now at) }
    {
        for at in 0..self.makings.len() {
            let making = &self.makings[at];
            if !making.is_invalidated && making.key == *key {
                return Some(at);
            }
        }
        None
    }

    // Returns where the making with a number is.
    fn find_number(&self, number: u64) -> Option<usize>
        ensures { MatchOption result (has_number number self.now ≡ false)
            (λ at. IsAt (is_numbered number) self.now at) }
    {
        for at in 0..self.makings.len() {
            if self.makings[at].number == number {
                return Some(at);
            }
        }
        None
    }

    /// Another caller waits.
    pub fn add_waiting(&mut self) {
        self.waiting = self.waiting.wrapping_add(1);
    }

    /// A caller has stopped waiting.
    pub fn remove_waiting(&mut self) {
        self.waiting = self.waiting.wrapping_sub(1);
    }

    /// Returns whether a caller waits.
    pub fn has_waiting(&self) -> bool {
        self.waiting != 0
    }
}
