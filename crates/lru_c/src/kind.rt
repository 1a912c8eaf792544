//! The kinds of keys, as `lru.h` lists them.

/// Keys of bytes.
pub const BYTES: u32 = 0;
/// Keys of two words.
pub const WORDS: u32 = 1;
