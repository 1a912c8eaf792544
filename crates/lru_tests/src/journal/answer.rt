//! The answers of a journal and its twin to a call, in a form that can be compared.

use concurrent_lru::lru_core::{Failed, Refusal};
use lru_journal::journal::Told;
use std::sync::Arc;

/// The reply to a call, or its refusal, and the value or the key that was returned with it.
#[derive(Clone, Copy, Debug, PartialEq, Eq)]
pub(crate) struct Answer {
    pub(crate) told: Result<Told, Refusal>,
    pub(crate) value: Option<u64>,
}

impl Answer {
    /// A reply without a value.
    pub(crate) fn says(told: Told) -> Answer {
        Answer {
            told: Ok(told),
            value: None,
        }
    }

    /// A reply with a value or a key.
    pub(crate) fn gives(told: Told, value: u64) -> Answer {
        Answer {
            told: Ok(told),
            value: Some(value),
        }
    }

    /// A refusal without a value.
    pub(crate) fn refused(refusal: Refusal) -> Answer {
        Answer {
            told: Err(refusal),
            value: None,
        }
    }

    /// A refusal that returned the value that was passed in.
    pub(crate) fn returned(refusal: Refusal, value: u64) -> Answer {
        Answer {
            told: Err(refusal),
            value: Some(value),
        }
    }

    /// The answer to a call that replies only that it is done.
    pub(crate) fn done<T: Drop>(told: Result<T, Refusal>) -> Answer {
        match told {
            Ok(_) => Answer::says(Told::Done),
            Err(refusal) => Answer::refused(refusal),
        }
    }

    /// The answer to a ready.
    pub(crate) fn ready(told: Result<(), (Refusal, Arc<u64>)>) -> Answer {
        match told {
            Ok(()) => Answer::says(Told::Done),
            Err((refusal, value)) => Answer::returned(refusal, *value),
        }
    }

    /// The answer to a fail.
    pub(crate) fn failed(told: Result<Failed<u64>, Refusal>) -> Answer {
        match told {
            Ok(Failed::Left) => Answer::says(Told::Left),
            Ok(Failed::Removed(key)) => Answer::gives(Told::Removed, key),
            Err(refusal) => Answer::refused(refusal),
        }
    }

    /// The answer to a read whose reader copies the value.
    pub(crate) fn read(told: Result<Option<(u64, u64)>, Refusal>) -> Answer {
        match told {
            Ok(Some((stamp, value))) => Answer::gives(Told::Found(stamp), value),
            Ok(None) => Answer::says(Told::Missed),
            Err(refusal) => Answer::refused(refusal),
        }
    }

    /// The answer to a question for the total.
    pub(crate) fn total(told: Result<u64, Refusal>) -> Answer {
        match told {
            Ok(total) => Answer::says(Told::Total(total)),
            Err(refusal) => Answer::refused(refusal),
        }
    }
}
