//! The line of a row: its parts, separated by `; `.
//!
//! A call that adds a part returns `Memory` if there is no room for its text.

use concurrent_lru::lru_core::{Begun, Failed, Refusal};
use std::alloc::Global;
use std::fmt::{self, Display, Write};

/// The parts of a row so far.
#[derive(Drop)]
pub struct Line {
    text: String,
}

impl fmt::Display for Line {
    fn fmt<W: fmt::Write>(&self, f: &mut fmt::Formatter<W>) -> fmt::Result {
        f.write_str(self.text.as_str())
    }
}

impl Line {
    /// Creates a line with no parts. Takes no memory.
    pub fn new(alloc: Global) -> Line {
        Line {
            text: String::new(alloc),
        }
    }

    /// Adds a part.
    pub fn show<T: Display + Drop>(&mut self, part: T) -> Result<(), Refusal> {
        let separator = if self.text.is_empty() { "" } else { "; " };
        self.add(separator, part)
    }

    /// Adds some text below the parts.
    pub fn show_below<T: Display + Drop>(&mut self, text: T) -> Result<(), Refusal> {
        self.add("\n", text)
    }

    fn add<T: Display + Drop>(&mut self, separator: &str, text: T) -> Result<(), Refusal> {
        match write!(self.text, "{separator}{text}") {
            Ok(()) => Ok(()),
            Err(_) => Err(Refusal::Memory),
        }
    }

    /// Adds whether a lookup found an entry.
    pub fn show_found(&mut self, is_found: bool) -> Result<(), Refusal> {
        self.show(if is_found { "some" } else { "none" })
    }

    /// Adds whether a making succeeded.
    pub fn show_made(&mut self, is_made: bool) -> Result<(), Refusal> {
        self.show(if is_made { "ok" } else { "err" })
    }

    /// Adds keys or stamps, in order.
    pub fn show_numbers(&mut self, numbers: &[u64]) -> Result<(), Refusal> {
        self.show(format_args!("{numbers:?}"))
    }

    /// Adds the result of `begin` or `poll`.
    pub fn show_begun(&mut self, begun: Result<Begun<u64>, Refusal>) -> Result<(), Refusal> {
        match begun {
            Ok(Begun::Make(stamp)) => self.show(format_args!("make {stamp}")),
            Ok(Begun::Wait(stamp)) => self.show(format_args!("wait {stamp}")),
            Ok(Begun::Hit(stamp, _)) => self.show(format_args!("hit {stamp}")),
            Err(refusal) => self.show_refusal(refusal),
        }
    }

    /// Adds the result of `fail`.
    pub fn show_failed(&mut self, failed: Result<Failed<u64>, Refusal>) -> Result<(), Refusal> {
        match failed {
            Ok(Failed::Left) => self.show("left"),
            Ok(Failed::Removed(_)) => self.show("removed"),
            Err(refusal) => self.show_refusal(refusal),
        }
    }

    /// Adds a refusal. Returns `Memory` instead of adding it.
    pub fn show_refusal(&mut self, refusal: Refusal) -> Result<(), Refusal> {
        match refusal {
            Refusal::Memory => Err(refusal),
            Refusal::Overflow => self.show("overflow"),
            Refusal::Stale => self.show("stale"),
            Refusal::Full => self.show("full"),
        }
    }
}
