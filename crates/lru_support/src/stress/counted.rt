//! Values that count themselves and record when they were made.

use crate::calls::WorkerCall;
use crate::stress::workers::Unmade;
use concurrent_lru::lru_core::Refusal;
use std::sync::Arc;
use std::sync::atomic::{AtomicU64, Ordering};
use std::thread;

/// What the values of a cache and their makers count together.
#[derive(Drop)]
pub struct Book {
    // A counter that orders moments: of two moments, the earlier has the smaller number.
    clock: AtomicU64,
    inits: AtomicU64,
    made: AtomicU64,
    dropped: AtomicU64,
}

impl Book {
    /// Creates a book with all counts at 0.
    pub fn new() -> Book {
        Book {
            clock: AtomicU64::new(0),
            inits: AtomicU64::new(0),
            made: AtomicU64::new(0),
            dropped: AtomicU64::new(0),
        }
    }

    /// Returns a moment that is later than all those returned before.
    pub fn now(&self) -> u64 {
        self.clock.fetch_add(1, Ordering::SeqCst)
    }

    /// Returns how often an `init` ran.
    pub fn inits(&self) -> u64 {
        self.inits.load(Ordering::SeqCst)
    }

    /// Returns how many values were made.
    pub fn made(&self) -> u64 {
        self.made.load(Ordering::SeqCst)
    }

    /// Returns how many values were dropped.
    pub fn dropped(&self) -> u64 {
        self.dropped.load(Ordering::SeqCst)
    }
}

/// A value that counts itself as made and as dropped.
pub struct CountedValue {
    book: Arc<Book>,
    key: u64,
    moment: u64,
}

impl CountedValue {
    /// Runs the `init` of a call: yields this many times, and then fails or makes the value.
    pub fn make(book: &Arc<Book>, call: &WorkerCall, yields: u32) -> Result<CountedValue, Unmade> {
        book.inits.fetch_add(1, Ordering::SeqCst);
        for _ in 0..yields {
            thread::yield_now();
        }
        if call.fails {
            return Err(Unmade::Failed);
        }
        let Ok(own) = Arc::try_clone(book) else {
            return Err(Unmade::Refused(Refusal::Memory));
        };
        book.made.fetch_add(1, Ordering::SeqCst);
        Ok(CountedValue {
            book: own,
            key: call.key,
            moment: book.now(),
        })
    }

    /// Returns the key that it was made for.
    pub fn key(&self) -> u64 {
        self.key
    }

    /// Returns whether it was made after this moment.
    pub fn is_made_after(&self, moment: u64) -> bool {
        moment < self.moment
    }
}

impl Drop for CountedValue {
    fn drop(self) {
        let Self {
            book,
            key: _,
            moment: _,
        } = self;
        book.dropped.fetch_add(1, Ordering::SeqCst);
    }
}
