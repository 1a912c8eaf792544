//! A reader of blocks by number: a file, a device, or a part of memory.
//!
//! Its ghost members define which bytes are which block; a cache of its pages relies on nothing
//! else.
ghost use Rattle.std.specs.Prelude.{◌≡◌, ℕ, List, ⊤, IfOk, IfErr};

/// Reads blocks by number.
///
/// A reader defines for contracts, by a relation, which bytes may be one of its blocks: by an
/// equation if they are determined, as in memory, and by what is known of them, such as their
/// number, if the system supplies them, as from a disk.
pub trait Blocks {
    /// Why a block was not read.
    type Fault;

    // The bytes are the reader's block of this number.
    ghost is_block: { Self → ℕ → List ℕ → Type 0 };

    // The reader cannot supply the block of this number, for this reason.
    ghost is_fault: { Self → ℕ → Self.Fault → Type 0 } = { λ _ _ _. ⊤ };

    /// Returns the bytes of a block. A reader allocates them itself, and returns a fault of its own
    /// if it cannot.
    fn block(&self, number: u64) -> Result<Vec<u8>, Self::Fault>
        ensures block { IfOk result (λ v. is_block self.now number v.items) }
        ensures fault { IfErr result (λ e. is_fault self.now number e) };
}
