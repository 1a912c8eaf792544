//! Calls as rows of a table, each with the expected text of its answer, and the function that makes
//! them.

use std::alloc::{AllocError, Global};
use std::fmt::Debug;
use std::test::Fail;

/// A call on a cache for a single owner, whose values are numbers.
#[derive(Clone, Copy, Debug)]
pub enum Call<K = u64> {
    /// `begin` with a key and a charge, which is above 0.
    Begin(K, u64),
    /// `begin_strictly` with a key and a charge, which is above 0.
    BeginStrictly(K, u64),
    /// `poll` with a stamp.
    Poll(u64),
    /// `ready` with a stamp and a value.
    Ready(u64, u64),
    /// `fail` with a stamp.
    Fail(u64),
    /// `get` with a key.
    Get(K),
    /// `read` with a key, by a reader that copies the value.
    Read(K),
    /// `release` with a stamp.
    Release(u64),
    /// `release_and_evict` with a stamp.
    ReleaseAndEvict(u64),
    /// `repin` with a stamp.
    Repin(u64),
    /// `advice_evict` with a key.
    AdviceEvict(K),
    /// `invalidate` with a key.
    Invalidate(K),
    /// `insert` with a key, a charge, which is above 0, and a value.
    Insert(K, u64, u64),
    /// `insert_strictly` with a key, a charge, which is above 0, and a value.
    InsertStrictly(K, u64, u64),
    /// `prune`.
    Prune,
    /// `set_capacity` with a capacity.
    SetCapacity(u64),
    /// `total`.
    Total,
    /// `capacity`.
    Capacity,
    /// `key_of` with a stamp.
    KeyOf(u64),
}

impl<K: Copy> Call<K> {
    /// Returns the key that the call names, if it names one.
    pub fn key(self) -> Option<K> {
        match self {
            Call::Begin(key, _)
            | Call::BeginStrictly(key, _)
            | Call::Get(key)
            | Call::Read(key)
            | Call::AdviceEvict(key)
            | Call::Invalidate(key)
            | Call::Insert(key, ..)
            | Call::InsertStrictly(key, ..) => Some(key),
            _ => None,
        }
    }
}

/// A cache on which calls can be made. `C` is the type of such a call.
pub trait Answers<C> {
    /// Makes the call, and returns the text of its result, as `{:?}` writes it.
    ///
    /// Returns `AllocError` if memory for a value or for the text is refused.
    fn answer(&mut self, alloc: Global, call: C) -> Result<String, AllocError>;
}

/// Makes the calls of a table in order, and fails at the first whose answer is not the expected
/// one: the failure shows the row's number, its call, the answer and the expected one. It also
/// fails if memory for a text is refused.
pub fn answers_as_expected<C: Copy + Debug + Drop, T: Answers<C>>(
    alloc: Global,
    cache: &mut T,
    table: &[(C, &str)],
) -> Result<(), Fail> {
    for (row, (call, wanted)) in table.iter().enumerate() {
        let answer = cache.answer(alloc, *call)?;
        if answer.as_str() != *wanted {
            return Err(Fail::new(format_args!(
                "at row {row}, {call:?}\n  answered: {answer}\n    wanted: {wanted}"
            )));
        }
    }
    Ok(())
}

/// Fails if the text of an answer is not the expected one, and shows both.
pub fn says<T: Debug>(alloc: Global, answer: &T, wanted: &str) -> Result<(), Fail> {
    let answer = text_of(alloc, answer)?;
    if answer.as_str() != wanted {
        return Err(Fail::new(format_args!("\n  answered: {answer}\n    wanted: {wanted}")));
    }
    Ok(())
}

/// Returns the text of an answer. Returns `AllocError` if memory for it is refused.
pub fn text_of<T: Debug>(alloc: Global, answer: &T) -> Result<String, AllocError> {
    format!(in alloc; "{answer:?}")
}
