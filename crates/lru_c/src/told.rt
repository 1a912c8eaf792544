//! What a call returns to C.
ghost use Rattle.std.specs.Prelude.{◌≡◌};
ghost use Rattle.lru_c.specs.Told.{bare, hint_of, numbered, pin_of, told};

use concurrent_lru::lru_core::{Hint, Place, Spot};

/// How a call that pinned an entry names it, for the calls that follow.
#[repr(C)]
#[derive(Clone, Copy, PartialEq, Eq)]
pub struct LruPin {
    /// The number that names the entry.
    pub stamp: u64,
    /// The hash of the entry's key, with which a lookup of the entry begins.
    pub hash: u64,
    /// The number of the entry's place, at which a lookup goes on if the key no longer leads to the
    /// entry. No answer depends on the hash or the place, but a lookup that finds the entry by
    /// neither visits every entry.
    pub place: usize,
}

impl LruPin {
    // Returns the pin that an answer has if it names no entry.
    fn none() -> LruPin
        ensures { (result.stamp ≡ 0) × (result.hash ≡ 0) × (result.place ≡ 0) }
    {
        LruPin {
            stamp: 0,
            hash: 0,
            place: 0,
        }
    }

    // Returns the pin of an entry.
    pub(crate) fn of(stamp: u64, hint: Hint) -> LruPin
        ensures { result ≡ pin_of stamp hint }
    {
        LruPin {
            stamp,
            hash: hint.hash,
            place: hint.place.number(),
        }
    }

    // Returns where the core begins a lookup of the entry.
    pub(crate) fn hint(self) -> Hint
        ensures { result ≡ hint_of self }
    {
        Hint {
            hash: self.hash,
            place: Place::at(self.place),
        }
    }

    // Returns the entry as the core names it.
    pub(crate) fn spot(self) -> Spot
        ensures { result.stamp ≡ self.stamp }
    {
        Spot {
            stamp: self.stamp,
            hint: self.hint(),
        }
    }
}

/// What a call returns: a code, and what goes with it.
#[repr(C)]
#[derive(Clone, Copy, PartialEq, Eq)]
pub struct LruTold {
    /// The entry that the caller has pinned.
    pub pin: LruPin,
    /// The value, or the number that was asked for.
    pub value: u64,
    /// One of the codes of `code`.
    pub code: u32,
}

impl LruTold {
    pub(crate) fn of(code: u32, pin: LruPin, value: u64) -> LruTold
        ensures { result ≡ told code pin value }
    {
        LruTold { pin, value, code }
    }

    // Returns an answer that names no entry.
    pub(crate) fn number(code: u32, value: u64) -> LruTold
        ensures { result ≡ numbered code value }
    {
        LruTold {
            pin: LruPin::none(),
            value,
            code,
        }
    }

    pub(crate) fn bare(code: u32) -> LruTold
        ensures { result ≡ bare code }
    {
        LruTold::number(code, 0)
    }
}

/// An entry that left a cache.
#[repr(C)]
#[derive(Clone, Copy, PartialEq, Eq)]
pub struct LruGone {
    /// The number that named the entry.
    pub stamp: u64,
    /// The charge of the entry.
    pub charge: u64,
    /// The value.
    pub value: u64,
}

/// What the calls on a cache have returned since it was opened, and what it holds.
#[repr(C)]
#[derive(Clone, Copy, PartialEq, Eq)]
pub struct LruStats {
    /// Calls that asked for a value and found it ready.
    pub hits: u64,
    /// Calls that asked for a value that was not ready, except those that waited.
    pub misses: u64,
    /// Calls that found the value being made by another caller.
    pub waits: u64,
    /// Entries inserted.
    pub insertions: u64,
    /// Entries evicted.
    pub evictions: u64,
    /// Entries removed because their making failed and no caller was waiting.
    pub removals: u64,
    /// Entries present.
    pub entries: u64,
    /// The sum of their charges.
    pub charge: u64,
    /// The sum of the charges of the held entries.
    pub pinned_charge: u64,
    /// The capacity.
    pub capacity: u64,
}
