//! What a shard knows, under its lock, about one of its slots.
ghost use Rattle.std.specs.Prelude.{◌≡◌, ◌≢◌, false, true, IfSome, MatchOption, None, Some};
ghost use Rattle.lru_clock.specs.Seats.{seat as seat_of, listed_as};

use std::marker::Model;
use std::mem::size_of;

/// What is known of a place under the lock. Clauses see the charge of its entry, or 0 if there is
/// none; the tag of the hash of the entry's key; whether the index has the entry; and a copy of the
/// entry's key, unless the entry was invalidated before it was stored.
#[derive(Drop)]
pub struct Seat<K> {
    state: State<K>,
}

// The small fields come first, so that they share a word.
#[derive(Drop)]
enum State<K> {
    // There is no entry. Vacant places are linked: this leads to the next one, if there is one.
    Vacant(u32),
    // The entry was invalidated before it was stored, so the index never has it.
    Hidden {
        tag: u32,
        charge: u64,
    },
    // The entry has a copy of its key, by which the index can have it.
    Keyed {
        is_listed: bool,
        tag: u32,
        charge: u64,
        key: K,
    },
}

const _: () = prove!(size_of::<Seat<u64>>() == 24);

impl<K> Model for Seat<K> {
    ghost use Rattle.lru_clock.specs.Seats.{Seat as Seat_, seat_code};

    ghost Value = { Seat_ K };

    ghost coded = { seat_code K.code };

    ghost use Rattle.lru_clock.specs.SeatStates.{seat_in};

    ghost view = { λ s. seat_in s.state };
}

impl<K> Seat<K> {
    /// Creates the seat of a vacant place, which leads to the next one.
    pub fn vacant(next: u32) -> Self
        ensures { result ≡ seat_of 0 0 None }
    {
        Seat {
            state: State::Vacant(next),
        }
    }

    /// Creates the seat of an entry that the index does not have.
    pub fn unlisted(tag: u32, charge: u64, key: Option<K>) -> Self
        ensures { result ≡ seat_of charge tag key }
    {
        match key {
            Some(key) => Seat {
                state: State::Keyed {
                    is_listed: false,
                    tag,
                    charge,
                    key,
                },
            },
            None => Seat {
                state: State::Hidden { tag, charge },
            },
        }
    }

    /// Returns the next vacant place, if this place is vacant.
    pub fn next(&self) -> Option<u32>
        ensures { IfSome result (λ _. self.now ≡ seat_of 0 0 None) }
    {
        match &self.state {
            State::Vacant(next) => Some(*next),
            _ => None,
        }
    }

    /// Returns the charge of the entry, or 0 if there is none.
    pub fn charge(&self) -> u64
        ensures { result ≡ self.now.charge }
    {
        match &self.state {
            State::Vacant(_) => 0,
            State::Hidden { charge, .. } => *charge,
            State::Keyed { charge, .. } => *charge,
        }
    }

    /// Returns the tag of the hash of the entry's key.
    pub fn tag(&self) -> u32
        ensures { result ≡ self.now.tag }
    {
        match &self.state {
            State::Vacant(_) => 0,
            State::Hidden { tag, .. } => *tag,
            State::Keyed { tag, .. } => *tag,
        }
    }

    /// Returns whether the index has the entry.
    pub fn is_listed(&self) -> bool
        ensures { result ≡ self.now.is_listed }
    {
        match &self.state {
            State::Keyed { is_listed, .. } => *is_listed,
            _ => false,
        }
    }

    /// Returns the copy of the entry's key, if there is one.
    pub fn key(&self) -> Option<&K>
        ensures { MatchOption result (self.now.key ≡ None) (λ key. self.now.key ≡ Some key.now) }
    {
        match &self.state {
            State::Keyed { key, .. } => Some(key),
            _ => None,
        }
    }

    /// Returns the copy of the entry's key, if there is one.
    pub fn into_key(self) -> Option<K>
    where
        K: Drop,
    {
        match self.state {
            State::Keyed { key, .. } => Some(key),
            _ => None,
        }
    }

    /// Records that the index has the entry.
    pub fn list(&mut self)
        requires { self.old.key ≢ None }
        ensures { self.new ≡ listed_as true self.old }
    {
        if let State::Keyed { is_listed, .. } = &mut self.state {
            *is_listed = true;
        }
    }

    /// Records that the index no longer has the entry.
    pub fn unlist(&mut self)
        ensures { self.new ≡ listed_as false self.old }
    {
        if let State::Keyed { is_listed, .. } = &mut self.state {
            *is_listed = false;
        }
    }
}
