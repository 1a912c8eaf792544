//! Keys of 16 bytes.

/// A key of two words. Two keys are equal if both words are.
#[derive(Clone, Copy, PartialEq, Eq, Hash)]
pub struct Words {
    /// The first word.
    pub first: u64,
    /// The second word.
    pub second: u64,
}
