//! The index of a shard, from the hashes of keys to the places of their slots: words that are read
//! without the lock and written under it.
//!
//! A word is 0, or has a place plus one in its high half and the tag of a hash in its low half. The
//! words of a tag are found by linear probing. Without the lock a word is only a hint: the reader
//! pins the slot and compares the key, and a reader that finds nothing looks again under the lock.
//! The holder of the lock has the `Words`, and knows each of them.
ghost use Rattle.std.specs.Prelude.{◌≡◌, ◌+◌, ◌*◌, ◌/◌, ◌%◌, ◌<◌};
ghost use Rattle.lru_clock.specs.Index.{word_of as word_for};

mod probing;
mod words;

pub use crate::index::words::Words;
use crate::index::words::{HolderKnowsWords, KnownWords};
use atomic_table::Table;
use std::alloc::Global;

// By how much the words of successive places differ.
const ONE_PLACE: u64 = 0x1_0000_0000;

/// A table of words.
#[derive(Drop)]
pub struct Index {
    table: Table<(), KnownWords, Vec<u64>, HolderKnowsWords, Global>,
    // One less than the number of words, which is a power of two.
    mask: usize,
    ghost size: { mask + 1 ≡ table.shared.table_id.words },
}

/// A search for the words of a tag: the tag, and the position to look at next.
#[derive(Clone, Copy)]
pub struct Probe {
    at: usize,
    tag: u32,
}

// Returns the word that leads to a place.
pub fn word_of(tag: u32, place: u32) -> u64
    requires { place < 4294967295 }
    ensures { result ≡ word_for tag place }
{
    (place as u64 + 1) * ONE_PLACE + tag as u64
}

pub fn tag_of(word: u64) -> u32
    ensures { result ≡ word % 4294967296 }
{
    (word % ONE_PLACE) as u32
}

// Returns the place that a word leads to, plus one.
pub fn past_place(word: u64) -> u32
    ensures { result ≡ word / 4294967296 }
{
    (word / ONE_PLACE) as u32
}

impl Index {
    /// Begins a search for the places of a tag.
    #[inline(always)]
    pub fn probe(&self, tag: u32) -> Probe {
        Probe {
            at: tag as usize,
            tag,
        }
    }

    /// Returns the next place that a word of the probe's tag leads to, or `None` if there is none.
    #[inline(always)]
    pub fn next(&self, probe: &mut Probe) -> Option<u32> {
        for _ in 0..self.table.word_count() {
            let word = self.table.shared.peek(probe.at & self.mask);
            if word == 0 {
                return None;
            }
            probe.at = probe.at.wrapping_add(1);
            if tag_of(word) == probe.tag {
                return past_place(word).checked_sub(1);
            }
        }
        None
    }
}
