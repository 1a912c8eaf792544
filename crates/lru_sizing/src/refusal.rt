//! Why a trace is refused.

use std::alloc::{AllocError, AllocFailed};
use std::fmt;

/// Why a trace is refused. Uses are identified by their index in the trace, from 0.
#[derive(Clone, Copy, Debug, PartialEq, Eq)]
pub enum Refusal {
    /// The allocator refused memory.
    Memory,
    /// At this use, the charges of the distinct keys sum to more than `u64::MAX`.
    Overflow(usize),
    /// These two uses of one key, the earlier one first, have different charges.
    TwoCharges(usize, usize),
}

impl fmt::Display for Refusal {
    fn fmt<W: fmt::Write>(&self, f: &mut fmt::Formatter<W>) -> fmt::Result {
        match self {
            Refusal::Memory => write!(f, "there is no memory"),
            Refusal::Overflow(place) => {
                write!(f, "the charges of the keys up to use {place} pass u64::MAX")
            }
            Refusal::TwoCharges(first, second) => {
                write!(f, "uses {first} and {second} of one key have two charges")
            }
        }
    }
}

impl From<AllocError> for Refusal {
    ghost use Rattle.std.specs.Prelude.{◌≡◌};
    ghost use Rattle.lru_sizing.specs.declared.refusal.Refusal.TheVariants.{Memory};

    ghost from_gives = { λ _ e. e ≡ Memory };

    fn from(_: AllocError) -> Refusal {
        Refusal::Memory
    }
}

impl<T: Drop> From<AllocFailed<T>> for Refusal {
    ghost use Rattle.std.specs.Prelude.{◌≡◌};
    ghost use Rattle.lru_sizing.specs.declared.refusal.Refusal.TheVariants.{Memory};

    ghost from_gives = { λ _ e. e ≡ Memory };

    fn from(_: AllocFailed<T>) -> Refusal {
        Refusal::Memory
    }
}
