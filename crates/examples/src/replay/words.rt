//! The words of a step.

use concurrent_lru::lru_core::Refusal;
use std::num::NonZeroU64;

/// What is expected of a line that is no step.
pub const STEP: &str = "`new CAPACITY`, `init KEY CHARGE ok|fail drop|keep SLOT`, \
    `insert KEY CHARGE drop|keep SLOT`, `get KEY drop|keep SLOT`, `read KEY`, `release SLOT`, \
    `advice KEY`, `invalidate KEY`, `prune` or `total`";

/// Why a line ends the replay.
#[derive(Clone, Copy)]
pub enum Wrong<'l> {
    /// What was expected, and what was found instead.
    Found(&'static str, &'l str),
    /// The step was refused.
    Refused(Refusal),
}

impl<'l> From<Refusal> for Wrong<'l> {
    fn from(refusal: Refusal) -> Wrong<'l> {
        Wrong::Refused(refusal)
    }
}

/// Returns the capacity in a line that creates a cache.
pub fn capacity<'l>(line: &'l str) -> Result<u64, Wrong<'l>> {
    match line.strip_prefix("new ") {
        Some(word) => number(word),
        None => Err(Wrong::Found("`new CAPACITY` first", line)),
    }
}

/// Returns a number. `str::parse` accepts a leading `+`, which is not a digit.
pub fn number<'l>(word: &'l str) -> Result<u64, Wrong<'l>> {
    match word.parse() {
        Ok(number) if !word.starts_with('+') => Ok(number),
        _ => Err(Wrong::Found("a number up to 18446744073709551615", word)),
    }
}

/// Returns a charge.
pub fn charge<'l>(word: &'l str) -> Result<NonZeroU64, Wrong<'l>> {
    NonZeroU64::new(number(word)?).ok_or(Wrong::Found("a charge above 0", word))
}

/// Returns the slot in which a handle is kept, or `None` if it is dropped.
pub fn fate<'l>(line: &'l str, words: &[&'l str]) -> Result<Option<usize>, Wrong<'l>> {
    match *words {
        ["drop"] => Ok(None),
        ["keep", word] => Ok(Some(slot(word)?)),
        _ => Err(Wrong::Found(STEP, line)),
    }
}

/// Returns a slot.
pub fn slot<'l>(word: &'l str) -> Result<usize, Wrong<'l>> {
    let slot = ["0", "1", "2", "3"].iter().position(|digit| *digit == word);
    slot.ok_or(Wrong::Found("a slot from 0 to 3", word))
}
