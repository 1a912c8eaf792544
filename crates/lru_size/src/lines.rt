//! The lines of a trace.
ghost use Rattle.std.specs.Prelude.{◌<◌};

use crate::failure::{Expected, Failure};
use lru_support::lines::Lines;
use std::alloc::Global;
use std::io::BufRead;

// Some editors write it at the start of a file.
const BYTE_ORDER_MARK: char = '\u{feff}';

/// A use of a key.
#[derive(Clone, Copy)]
pub struct Use<'a> {
    /// The key.
    pub key: &'a str,
    /// The charge of the key, at least 1.
    pub charge: u64,
    ghost charged: { 0 < charge },
}

/// Reads the next line. Returns `false` at the end of the input.
///
/// # Errors
///
/// `Read` if the input cannot be read, and `OutOfMemory` if memory runs out.
pub fn advance<I: BufRead>(lines: &mut Lines<I>) -> Result<bool, Failure> {
    lines
        .read(u64::MAX)
        .map_err(|error| Failure::from_read_error(&error))
}

/// A line of a trace.
#[derive(Drop)]
pub struct Line<'a> {
    alloc: Global,
    /// Its number. The first line has the number 1.
    pub number: u64,
    bytes: &'a [u8],
}

impl<'a> Line<'a> {
    /// Returns the line that was read last.
    pub fn last<I: BufRead>(alloc: Global, lines: &'a Lines<I>) -> Line<'a> {
        Line {
            alloc,
            number: lines.number(),
            bytes: lines.line(),
        }
    }

    /// Parses the line: a key, and its charge unless that is 1.
    ///
    /// # Errors
    ///
    /// `Line` if the line is not a use, and `OutOfMemory` if memory runs out.
    pub fn parse(&self) -> Result<Use<'a>, Failure> {
        let Ok(text) = str::from_utf8(self.bytes) else {
            return Err(self.error(Expected::Utf8, None));
        };
        let mut words = text.split_ascii_whitespace();
        let Some(key) = words.next() else {
            return Err(self.error(Expected::Use, None));
        };
        // It would become part of the first key, and make it differ from that key on later lines.
        if key.starts_with(BYTE_ORDER_MARK) {
            return Err(self.error(Expected::Use, Some(key)));
        }
        let charge = match words.next() {
            Some(word) => self.parse_charge(word)?,
            None => 1,
        };
        if let Some(word) = words.next() {
            return Err(self.error(Expected::End, Some(word)));
        }
        if charge == 0 {
            return Err(self.error(Expected::Charge, Some("0")));
        }
        Ok(Use { key, charge })
    }

    // `str::parse` accepts a leading `+`, which a charge may not have.
    fn parse_charge(&self, word: &str) -> Result<u64, Failure> {
        match word.parse() {
            Ok(charge) if !word.starts_with('+') => Ok(charge),
            _ => Err(self.error(Expected::Charge, Some(word))),
        }
    }

    // Returns the error that the line has `found` where something else was expected.
    fn error(&self, expected: Expected, found: Option<&str>) -> Failure {
        let found = match found.map(|word| String::from_str(self.alloc, word)) {
            Some(Ok(word)) => Some(word),
            Some(Err(_)) => return Failure::OutOfMemory,
            None => None,
        };
        Failure::Line {
            line: self.number,
            expected,
            found,
        }
    }
}
