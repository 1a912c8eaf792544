//! Why no handle was returned: the error of `get_or_try_init`.
//!
//! The caller's own error is kept apart from the cache's.
ghost use Rattle.std.specs.Prelude.{◌≡◌, ◌≢◌};
ghost use Rattle.concurrent_lru.specs.ThreadedCalls.{IsNotInit};

use crate::refusal::Refusal;
use std::error::Error;
use std::fmt;

/// Why `get_or_try_init` returned no handle.
#[derive(Debug, Drop, PartialEq, Eq)]
pub enum GetError<E> {
    /// The allocator refused a growth or a copy.
    Memory,
    /// A number is at its maximum: the total, the next stamp, or the pins of an entry.
    Overflow,
    /// The limit is strict, and the charge of a new entry would take the total above the capacity,
    /// even after every idle entry has left.
    Full,
    /// `init` returned this error.
    Init(E),
}

impl<E> GetError<E> {
    /// Returns the code of the error, for programs that have only numbers: 1, 2, 4 or 5.
    pub fn code(&self) -> u8
        ensures memory { self.now ≡ GetError.Memory → result ≡ 1 }
        ensures overflow { self.now ≡ GetError.Overflow → result ≡ 2 }
        ensures full { self.now ≡ GetError.Full → result ≡ 5 }
        ensures init { (error : E) → self.now ≡ GetError.Init error → result ≡ 4 }
    {
        match self {
            GetError::Memory => 1,
            GetError::Overflow => 2,
            GetError::Full => 5,
            GetError::Init(_) => 4,
        }
    }

    // Converts a refusal. A begin or a making is never refused as stale.
    pub(crate) fn of_refusal(refusal: Refusal) -> GetError<E>
        requires { refusal ≢ Refusal.Stale }
        ensures memory { refusal ≡ Refusal.Memory → result ≡ GetError.Memory }
        ensures overflow { refusal ≡ Refusal.Overflow → result ≡ GetError.Overflow }
        ensures full { refusal ≡ Refusal.Full → result ≡ GetError.Full }
        ensures not_init { IsNotInit result }
    {
        match refusal {
            Refusal::Memory => GetError::Memory,
            Refusal::Overflow => GetError::Overflow,
            Refusal::Full => GetError::Full,
            Refusal::Stale => unreachable!(),
        }
    }
}

// The error of `init` prints its own text.
impl<E: fmt::Display> fmt::Display for GetError<E> {
    ghost use Rattle.std.specs.Fmt.{padded};
    ghost use Rattle.concurrent_lru.specs.Messages.{get_error_text, styled_get_error_text};

    ghost output = { get_error_text E.output };

    ghost styled_output = { styled_get_error_text padded E.styled_output };

    fn fmt<W: fmt::Write>(&self, f: &mut fmt::Formatter<W>) -> fmt::Result {
        match self {
            GetError::Memory => fmt::Display::fmt(&Refusal::Memory, f),
            GetError::Overflow => fmt::Display::fmt(&Refusal::Overflow, f),
            GetError::Full => fmt::Display::fmt(&Refusal::Full, f),
            GetError::Init(error) => fmt::Display::fmt(error, f),
        }
    }
}

impl<E: Error> Error for GetError<E> {}
