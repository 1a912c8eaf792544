//! A page: the bytes of a block, with its reader and its number.
//!
//! The type's invariant relates the three, so no page with other bytes can be made.
ghost use Rattle.std.specs.Prelude.{◌≡◌, IfOk, IfErr};

use crate::blocks::Blocks;
use concurrent_lru::fit::Fit;
use std::fmt;
use std::marker::Model;

/// A block of a reader, as it was read.
///
/// Clauses see the reader that it refers to, the number of the block, and its bytes, which are that
/// block of that reader.
#[derive(Drop)]
pub struct Page<'a, B: Blocks> {
    reader: &'a B,
    number: u64,
    bytes: Vec<u8>,
}

impl<'a, B: Blocks> Model for Page<'a, B> {
    ghost use Rattle.lru_pages.specs.Pages.{PageOf};

    ghost Value = { PageOf B };

    ghost view = { λ p. record { reader = p.reader.now; number = p.number; bytes = p.bytes.items } };

    ghost invariant = { λ p. B.is_block p.reader.now p.number p.bytes.items };
}

impl<'a, B: Blocks> Page<'a, B> {
    // Reads a block. Returns the reader's fault if it has one.
    pub(crate) fn read(reader: &'a B, number: u64) -> Result<Self, B::Fault>
        ensures reader { IfOk result (λ p. p.reader ≡ reader.now) }
        ensures number { IfOk result (λ p. p.number ≡ number) }
        ensures block { IfOk result (λ p. B.is_block p.reader number p.bytes) }
        ensures fault { IfErr result (λ e. B.is_fault reader.now number e) }
    {
        let bytes = reader.block(number)?;
        Ok(Page {
            reader,
            number,
            bytes,
        })
    }

    /// Returns the number of the block.
    pub fn number(&self) -> u64
        ensures { result ≡ self.now.number }
    {
        self.number
    }

    /// Returns the bytes of the block.
    pub fn bytes(&self) -> &[u8]
        ensures bytes { result.now ≡ self.now.bytes }
        ensures block { B.is_block self.now.reader self.now.number result.now }
    {
        self.bytes.as_slice()
    }

    /// Returns the reader of the block.
    pub fn reader(&self) -> &'a B
        ensures { result.now ≡ self.now.reader }
    {
        self.reader
    }
}

// Prints the number and the length only, since a cache of pages is printed under its lock.
impl<B: Blocks> fmt::Debug for Page<'_, B> {
    fn fmt<W: fmt::Write>(&self, f: &mut fmt::Formatter<W>) -> fmt::Result {
        f.debug_struct("Page")
            .field("number", &self.number)
            .field("len", &self.bytes.len())
            .finish()
    }
}

/// The mark of caches of pages: a page's number is its key, and its bytes are that block of its
/// reader.
#[derive(Drop)]
pub struct Numbered;

impl<'a, B: Blocks> Fit<u64, Page<'a, B>> for Numbered {
    ghost use Rattle.std.proofs.Common.{rules};

    ghost fits = { λ key page. (page.number ≡ key) × B.is_block page.reader key page.bytes };

    ghost equal_keys = { Prim.search rules };
}
