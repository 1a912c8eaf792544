//! A `FoldHasher` that is fed at most eight bytes at a time.
//!
//! At a longer write, a `FoldHasher` multiplies two words of the key with each other, so that some
//! keys have one hash whatever it was fed before. At a shorter one it multiplies by a number that
//! is never 0, and without the seed nobody can tell which keys have hashes in common.

use std::hash::{FoldHasher, Hasher};

/// A hasher whose hashes depend on what it is fed first.
#[derive(Clone, Copy)]
pub struct WordHasher {
    // The hasher that it feeds. A new one has been fed nothing.
    pub(super) inner: FoldHasher,
}

impl Hasher for WordHasher {
    ghost use Rattle.concurrent_lru.specs.WordHashes.{write, finish};

    ghost write = { write };

    ghost finish = { finish };

    #[inline(always)]
    fn finish(&self) -> u64 {
        self.inner.finish()
    }

    #[inline(always)]
    fn write(&mut self, bytes: &[u8]) {
        let mut at = 0;
        while bytes.len() - at > 8 {
            self.inner.write(&bytes[at..at + 8]);
            at += 8;
        }
        self.inner.write(&bytes[at..]);
    }
}
