//! Reads at an offset, from an open file or a substitute for it.
//!
//! There is no shared position, so threads may read one file at the same time without a lock.
ghost use Rattle.std.specs.Prelude.{ℕ, List, ⊤, OnOk};

use std::fs::File;
use std::io;
use std::os::unix::fs::FileExt;

/// Reads at an offset.
pub trait ReadAt {
    // The bytes may be at the offset.
    ghost has: { Self → ℕ → List ℕ → Type 0 } = { λ _ _ _. ⊤ };

    /// Fills `buf` with the bytes from `offset` on. Returns `UnexpectedEof` if there are fewer, and
    /// the system's error if it fails; the content of `buf` is then unspecified.
    fn fill(&self, buf: &mut [u8], offset: u64) -> io::Result<()>
        ensures has { OnOk result (has self.now offset buf.new) };
}

/// An open file. No contract can state which bytes the system returns: any bytes may be at any
/// offset. What is proved of its blocks is which bytes are requested.
impl ReadAt for File {
    fn fill(&self, buf: &mut [u8], offset: u64) -> io::Result<()> {
        self.read_exact_at(buf, offset)
    }
}
