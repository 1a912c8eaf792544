//! Values that record their number when they are dropped.
//!
//! A log creates them, and returns the numbers in the order of the drops.

use std::alloc::{AllocError, Global};
use std::fmt;
use std::sync::{Arc, Mutex, Wait};

// The numbers of the values that were dropped.
#[derive(Drop)]
struct Numbers {
    noted: Vec<u64>,
    // Whether memory was refused for a number, which is then missing.
    is_short: bool,
}

impl Numbers {
    fn note(&mut self, number: u64) {
        if self.noted.push(number).is_err() {
            self.is_short = true;
        }
    }

    fn copy(&self) -> Result<Vec<u64>, AllocError> {
        if self.is_short {
            return Err(AllocError);
        }
        self.noted.clone()
    }
}

/// A log of the values that were dropped.
#[derive(Drop)]
pub struct DropLog<R: Wait> {
    rt: R,
    numbers: Arc<Mutex<Numbers>>,
}

/// A value with a number, which it adds to its log when it is dropped.
pub struct Logged<R: Wait> {
    rt: R,
    number: u64,
    numbers: Arc<Mutex<Numbers>>,
}

impl<R: Wait + Clone + Drop> DropLog<R> {
    /// Creates an empty log. Returns `AllocError` if its memory is refused.
    pub fn new(alloc: Global, rt: &R) -> Result<DropLog<R>, AllocError> {
        let rt = rt.clone()?;
        let none = Numbers {
            noted: Vec::new(alloc),
            is_short: false,
        };
        Ok(DropLog {
            rt,
            numbers: Arc::new(alloc, Mutex::new(none))?,
        })
    }

    /// Creates a value with this number, which adds it here when it is dropped. Returns
    /// `AllocError` if a copy of the right to wait, or of the log's `Arc`, is refused.
    pub fn value(&self, number: u64) -> Result<Logged<R>, AllocError> {
        Ok(Logged {
            rt: self.rt.clone()?,
            number,
            numbers: Arc::try_clone(&self.numbers)?,
        })
    }

    /// Returns the numbers of the values that were dropped since the log was created or cleared, in
    /// order. Returns `AllocError` if memory was refused for one of them or for this list.
    pub fn numbers(&self) -> Result<Vec<u64>, AllocError> {
        self.numbers.lock(&self.rt).copy()
    }

    /// Clears the log.
    pub fn clear(&self) {
        let mut noted = self.numbers.lock(&self.rt);
        noted.noted.clear();
        noted.is_short = false;
    }
}

impl<R: Wait> Logged<R> {
    /// Returns the number.
    pub fn number(&self) -> u64 {
        self.number
    }
}

// Prints as its number.
impl<R: Wait> fmt::Debug for Logged<R> {
    fn fmt<W: fmt::Write>(&self, f: &mut fmt::Formatter<W>) -> fmt::Result {
        self.number.fmt(f)
    }
}

impl<R: Wait + Drop> Drop for Logged<R> {
    fn drop(self) {
        let Self {
            rt,
            number,
            numbers,
        } = self;
        numbers.lock(&rt).note(number);
    }
}
