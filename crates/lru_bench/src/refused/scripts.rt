//! The scripts, each with its name, in a list for each kind of cache.
//!
//! The proof of a function goes over all of each constant that it names, and its time grows with
//! about the square of the constant's length. So one function names each list.

mod threaded;
mod twin;

use crate::refused::{threaded as on_threads, twin as on_twin};

/// The calls of a script, in lines.
pub type Calls<C> = &'static [&'static [C]];

/// A script. Its cache is empty at first.
#[derive(Clone, Copy)]
pub enum Script {
    /// Calls of a cache that threads share, with a capacity.
    Threaded(on_threads::Kind, u64, Calls<on_threads::Call>),
    /// Calls of a twin, with a capacity: those of one caller, and then those of another.
    Twin(u64, Calls<on_twin::Call>, Calls<on_twin::Call>),
    /// An entry that takes the room of two, on a cache of one lock.
    OverTwo,
    /// Two threads that ask for one key.
    Meeting,
}

/// A script and its name.
pub type Named = (&'static str, Script);

/// Returns all lists, in the order in which they run.
pub fn lists() -> [&'static [Named]; 2] {
    [threaded::all(), twin::all()]
}
