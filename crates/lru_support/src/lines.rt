//! The lines of an input, read one at a time.

use std::alloc::Global;
use std::io;
use std::io::{BufRead, Read};

/// A reader of lines. It takes as much memory as the longest line so far.
#[derive(Drop)]
pub struct Lines<I> {
    input: I,
    line: Vec<u8>,
    number: u64,
}

impl<I: BufRead> Lines<I> {
    /// Creates a reader of an input. Reads nothing yet.
    pub fn new(alloc: Global, input: I) -> Lines<I> {
        Lines {
            input,
            line: Vec::new(alloc),
            number: 0,
        }
    }

    /// Returns the number of the last line that was requested, from 1, or 0 if there was none.
    pub fn number(&self) -> u64 {
        self.number
    }

    /// Returns the line that was read last, with its end if that was read.
    pub fn line(&self) -> &[u8] {
        self.line.as_slice()
    }

    /// Reads the next line with its end, or only its first `most` bytes if it is longer. Returns
    /// whether there was anything to read.
    pub fn read(&mut self, most: u64) -> io::Result<bool> {
        self.number = self.number.saturating_add(1);
        self.line.clear();
        let mut input = self.input.by_ref().take(most);
        Ok(input.read_until(b'\n', &mut self.line)? > 0)
    }
}
