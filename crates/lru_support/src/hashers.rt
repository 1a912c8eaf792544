//! A hasher with known hashes, so that the shard of a key follows from the key.
//!
//! It is for keys of type `u64`; other keys may all have the same hash.

use std::hash::{BuildHasher, Hasher};

/// Builds hashers whose hash of a `u64` is the `u64` itself.
#[derive(Clone, Copy)]
pub struct ByOwnNumber;

impl BuildHasher for ByOwnNumber {
    type Hasher = OwnNumber;

    ghost build_hasher = { λ _. record { 0 = 0 } };

    fn build_hasher(&self) -> OwnNumber {
        OwnNumber(0)
    }
}

/// Keeps the last `u64` that was written, and ignores other writes.
#[derive(Drop)]
pub struct OwnNumber(u64);

impl Hasher for OwnNumber {
    ghost use Rattle.std.specs.Prelude.{length, nat_eq, cond};
    ghost use Rattle.std.specs.Int.{from_le_bytes, w64};

    ghost write = { λ s bytes. cond (nat_eq (length bytes) 8) (record { 0 = from_le_bytes w64 bytes }) s };

    ghost finish = { λ s. s.0 };

    fn finish(&self) -> u64 {
        self.0
    }

    fn write(&mut self, bytes: &[u8]) {
        if let Ok(bytes) = <[u8; 8]>::try_from(bytes) {
            self.0 = u64::from_le_bytes(bytes);
        }
    }
}
