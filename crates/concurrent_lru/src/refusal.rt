//! Why a call was refused.
ghost use Rattle.std.specs.Prelude.{◌≡◌};

use std::alloc::{AllocError, AllocFailed};
use std::error::Error;
use std::fmt;

/// Why a call changed nothing.
#[derive(Clone, Copy, Debug, PartialEq, Eq)]
pub enum Refusal {
    /// The allocator refused a growth or a copy.
    Memory,
    /// A number is at its maximum: the total, the next stamp, or the pins of an entry.
    Overflow,
    /// No entry with this stamp is in the phase that the call needs.
    Stale,
    /// The charge of a new entry would take the total above the capacity, even after every idle
    /// entry has left. Only strict calls are refused in this way.
    Full,
}

impl Refusal {
    /// Returns the code of the refusal, for programs that have only numbers: 1, 2, 3 or 5.
    pub fn code(&self) -> u8
        ensures memory { self.now ≡ Refusal.Memory → result ≡ 1 }
        ensures overflow { self.now ≡ Refusal.Overflow → result ≡ 2 }
        ensures stale { self.now ≡ Refusal.Stale → result ≡ 3 }
        ensures full { self.now ≡ Refusal.Full → result ≡ 5 }
    {
        match self {
            Refusal::Memory => 1,
            Refusal::Overflow => 2,
            Refusal::Stale => 3,
            Refusal::Full => 5,
        }
    }
}

impl fmt::Display for Refusal {
    ghost use Rattle.std.specs.Prelude.{Some};
    ghost use Rattle.std.specs.Fmt.{padded};
    ghost use Rattle.concurrent_lru.specs.Messages.{refusal_text};

    ghost output = { λ e. Some (refusal_text e) };

    ghost styled_output = { λ e spec. Some (padded spec (refusal_text e)) };

    fn fmt<W: fmt::Write>(&self, f: &mut fmt::Formatter<W>) -> fmt::Result {
        match self {
            Refusal::Memory => f.pad("no memory"),
            Refusal::Overflow => f.pad("a number is at its end"),
            Refusal::Stale => f.pad("the stamp fits no entry"),
            Refusal::Full => f.pad("the cache is full of held entries"),
        }
    }
}

impl Error for Refusal {}

impl From<AllocError> for Refusal {
    ghost use Rattle.std.specs.Prelude.{◌≡◌};
    ghost use Rattle.concurrent_lru.specs.declared.refusal.Refusal.TheVariants.{Memory};

    ghost from_gives = { λ _ e. e ≡ Memory };

    fn from(_: AllocError) -> Refusal {
        Refusal::Memory
    }
}

impl<T: Drop> From<AllocFailed<T>> for Refusal {
    ghost use Rattle.std.specs.Prelude.{◌≡◌};
    ghost use Rattle.concurrent_lru.specs.declared.refusal.Refusal.TheVariants.{Memory};

    ghost from_gives = { λ _ e. e ≡ Memory };

    fn from(_: AllocFailed<T>) -> Refusal {
        Refusal::Memory
    }
}
