//! A file as blocks of equal size: the reader of a page cache over a file.
//!
//! Its contract states which offset and how many bytes are read for a number.
ghost use Rattle.std.specs.Prelude.{◌≡◌, ℕ, ◌<◌, ◌≤◌, ◌↔◌, IfOk, IfSome, IfNone, IsTrue};
ghost use Rattle.lru_pages.specs.Cuts.{start_of, count_of};

use crate::blocks::Blocks;
use crate::fault::Fault;
use crate::open_error::OpenError;
use crate::read_at::ReadAt;
use std::alloc::Global;
use std::fs;
use std::fs::{File, Files, Metadata};
use std::marker::Model;
use std::path::AsPath;

/// A file as blocks of `size` bytes: block n starts at byte n times `size`, and the last block may
/// be shorter. `S` is `File` or a substitute for it.
///
/// The length is that of the file when it was opened: bytes appended since are in no block, and
/// blocks that lost bytes when it was truncated are `Short`. Overwritten bytes are read as they are
/// then; a page that was read before keeps its bytes.
///
/// Clauses see the source, the length and the size of a block. No contract states which bytes of a
/// block the disk returned.
#[derive(Drop)]
pub struct FileBlocks<S: ReadAt = File> {
    alloc: Global,
    source: S,
    len: u64,
    size: u64,
}

impl<S: ReadAt> Model for FileBlocks<S> {
    ghost use Rattle.std.specs.Prelude.{◌<◌};
    ghost use Rattle.lru_pages.specs.Cuts.{Cut};

    ghost Value = { Cut S };

    ghost view = { λ b. record { source = b.source; len = b.len; size = b.size } };

    ghost invariant = { λ b. 0 < b.size };
}

impl FileBlocks<File> {
    /// Opens a file for reading, as blocks of `size` bytes. It stays open as long as the blocks
    /// exist.
    ///
    /// Returns `Folder` or `Special`, without opening it, if the path is not that of a regular
    /// file; and `System` if there is no file, if it may not be read, or if the system fails.
    pub fn open<F: Files<File = File>, P: AsPath + Copy>(
        alloc: Global,
        files: &F,
        path: P,
        size: u64,
    ) -> Result<Self, OpenError>
        requires { 0 < size }
        ensures { IfOk result (λ blocks. blocks.size ≡ size) }
    {
        // Opening a pipe waits for its writer, so the type of the file is checked first.
        file_len(&fs::metadata(files, path)?)?;
        let file = File::open(files, path)?;
        let len = file_len(&file.metadata()?)?;
        Ok(FileBlocks::new(alloc, file, len, size))
    }
}

impl<S: ReadAt> FileBlocks<S> {
    /// Creates blocks of `size` bytes from the first `len` bytes of a source. Takes no memory.
    pub fn new(alloc: Global, source: S, len: u64, size: u64) -> Self
        requires { 0 < size }
        ensures { result ≡ record { source = source; len = len; size = size } }
    {
        FileBlocks {
            alloc,
            source,
            len,
            size,
        }
    }

    /// Returns the source of the blocks.
    pub fn source(&self) -> &S
        ensures { result.now ≡ self.now.source }
    {
        &self.source
    }

    /// Returns the total length of all blocks in bytes: the length passed to `new`, or that of the
    /// file when it was opened.
    pub fn len(&self) -> u64
        ensures { result ≡ self.now.len }
    {
        self.len
    }

    /// Returns whether there are no blocks.
    pub fn is_empty(&self) -> bool
        ensures { IsTrue result ↔ (self.now.len ≡ 0) }
    {
        self.len == 0
    }

    /// Returns the number of blocks: the length divided by the size of a block, rounded up. Blocks
    /// are numbered from 0; a number that is not below the count is `PastEnd`.
    pub fn count(&self) -> u64
        ensures count { result ≡ count_of self.now }
        ensures past { (n : ℕ) → (result ≤ n) ↔ (self.now.len ≤ start_of self.now n) }
    {
        self.len.div_ceil(self.size)
    }

    /// Returns the number of bytes of each block except the last, which may be shorter.
    pub fn size(&self) -> u64
        ensures size { result ≡ self.now.size }
        ensures above { 0 < result }
    {
        self.size
    }

    // Returns where a block begins, or `None` if that is past the end.
    fn start(&self, number: u64) -> Option<u64>
        ensures start { IfSome result (λ start. start ≡ start_of self.now number) }
        ensures inside { IfSome result (λ start. start < self.now.len) }
        ensures past { IfNone result (self.now.len ≤ start_of self.now number) }
    {
        prove!(self.len <= u64::MAX);
        let Some(start) = number.checked_mul(self.size) else {
            return None;
        };
        if start < self.len {
            return Some(start);
        }
        None
    }
}

impl<S: ReadAt> Blocks for FileBlocks<S> {
    ghost use Rattle.lru_pages.specs.Cuts.{IsBlockOf};
    ghost use Rattle.lru_pages.specs.Faults.{IsFaultOf};

    type Fault = Fault;

    ghost is_block = { IsBlockOf S.has };

    ghost is_fault = { IsFaultOf };

    fn block(&self, number: u64) -> Result<Vec<u8>, Fault> {
        let Some(start) = self.start(number) else {
            return Err(Fault::PastEnd);
        };
        let len = self.size.min(self.len - start);
        let Ok(mut bytes) = vec![in self.alloc; 0u8; len as usize] else {
            return Err(Fault::Memory);
        };
        match self.source.fill(&mut bytes, start) {
            Ok(()) => Ok(bytes),
            Err(error) => Err(Fault::of_read(error)),
        }
    }
}

// Returns the length of a regular file.
fn file_len(metadata: &Metadata) -> Result<u64, OpenError> {
    if metadata.is_dir() {
        return Err(OpenError::Folder);
    }
    if !metadata.is_file() {
        return Err(OpenError::Special);
    }
    Ok(metadata.len())
}
