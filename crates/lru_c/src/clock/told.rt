//! What the calls on a clock return to C.
ghost use Rattle.std.specs.Prelude.{◌≡◌};
ghost use Rattle.lru_c.specs.Clocks.{bare_found, found, IsRefused};
ghost use Rattle.lru_c.specs.Codes as codes;

use crate::code;
use concurrent_lru::sharded::Refusal;
use lru_clock::clock_core::HoldAt;

/// What a lookup returns, in two registers: a code, and what goes with it.
#[repr(C)]
#[derive(Clone, Copy, PartialEq, Eq)]
pub struct LruFound {
    /// The value, the ticket of a making, or the number that was asked for.
    pub value: u64,
    /// One of the codes of `code`.
    pub code: u32,
    /// The place of the entry that the caller has pinned.
    pub place: u32,
}

impl LruFound {
    // Returns an answer that lends a hold: the caller in C has it from then on, by its place.
    #[inline(always)]
    pub(crate) fn lent(code: u32, value: u64, hold: HoldAt) -> LruFound
        ensures { result ≡ found code value hold }
    {
        let place = hold.into_place();
        LruFound { value, code, place }
    }

    // Returns an answer that lends nothing.
    pub(crate) fn of(code: u32, value: u64) -> LruFound
        ensures { result ≡ found code value 0 }
    {
        LruFound {
            value,
            code,
            place: 0,
        }
    }

    // Returns an answer that is a code alone.
    pub(crate) fn bare(code: u32) -> LruFound
        ensures { result ≡ bare_found code }
    {
        LruFound::of(code, 0)
    }

    // Returns the answer of a call that was refused, never with `Stale` nor by a strict limit.
    pub(crate) fn refused(refusal: Refusal) -> LruFound
        ensures { IsRefused result }
    {
        match refusal {
            Refusal::Memory => LruFound::bare(code::MEMORY),
            _ => LruFound::bare(code::OVERFLOW),
        }
    }

    // Returns a number.
    pub(crate) fn number(value: u64) -> LruFound
        ensures { result ≡ found codes.number value 0 }
    {
        LruFound::of(code::NUMBER, value)
    }
}

/// An entry that left a clock.
#[repr(C)]
#[derive(Clone, Copy, PartialEq, Eq)]
pub struct LruLeft {
    /// The first word of its key.
    pub first: u64,
    /// The second word of its key.
    pub second: u64,
    /// The value.
    pub value: u64,
}

/// What has happened in a clock since it was opened, and what it holds. A count that passes
/// `u64::MAX` starts again at 0.
#[repr(C)]
#[derive(Clone, Copy, PartialEq, Eq)]
pub struct LruClockCounts {
    /// Makings whose value was stored.
    pub makings: u64,
    /// Makings that failed, or whose value was refused.
    pub failures: u64,
    /// Entries that `add` and `insert` stored.
    pub insertions: u64,
    /// Entries that have left.
    pub evictions: u64,
    /// Entries present.
    pub entries: u64,
    /// The sum of their charges.
    pub charge: u64,
    /// The capacity.
    pub capacity: u64,
}
