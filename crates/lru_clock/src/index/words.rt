//! The words of an index, as known to whoever holds the lock of its shard.
ghost use Rattle.std.specs.Prelude.{◌≡◌, ◌<◌, length, replicate, slice_set, IfOk};
ghost use Rattle.concurrent_lru.specs.Probing.Probes.{mark_at};
ghost use Rattle.lru_clock.specs.Index.{IsSize};

use crate::index::Index;
use atomic_table::{Play, Seat, Table, TableRule};
use std::alloc::{AllocError, Global};
use std::collections::LinkedList;
use std::marker::Model;
use std::sync::Arc;

/// What is known of an index: its words. It exists only in clauses.
pub struct KnownWords {
    /// The words.
    pub words: LinkedList<u64>,
}

/// The rule of an index: the holder of its `Words`, and nobody else, knows all of its words.
pub struct HolderKnowsWords;

impl TableRule<(), KnownWords, Vec<u64>> for HolderKnowsWords {
    ghost use Rattle.std.specs.Prelude.{◌≡◌, [], ◌∷◌};

    ghost holds = { λ _ index. index.views ≡ record { words = index.words } ∷ [] };

    ghost first = { λ zeros. record { words = zeros.items } };
}

/// A step that reads a word: it finds what is known of it.
struct Look;

impl Play<(), KnownWords> for Look {
    ghost use Rattle.std.specs.Prelude.{◌≡◌};
    ghost use Rattle.concurrent_lru.specs.Probing.Probes.{mark_at};

    ghost then = { λ step before found after. (found ≡ mark_at before.0.words step.word)
        × (after ≡ before) };
}

/// A step that writes a word: the new word is then known.
struct Write;

impl Play<(), KnownWords> for Write {
    ghost use Rattle.std.specs.Prelude.{◌≡◌, slice_set};

    ghost then = { λ step before written after. after
        ≡ (record { words = slice_set before.0.words step.word written }, before.1) };
}

/// The words of an index, for the holder of the lock: nobody else writes them. Clauses see the list
/// of the words.
#[derive(Drop)]
pub struct Words {
    index: Arc<Index>,
    seat: Seat<(), KnownWords>,
}

impl Model for Words {
    ghost use Rattle.std.specs.Prelude.{◌≡◌, List, ℕ, [], length};
    ghost use Rattle.lru_clock.specs.Index.{IsSize};

    ghost Value = { List ℕ };

    ghost view = { λ w. w.seat.me.0.words };

    ghost invariant = { λ w. (w.seat.table_id ≡ w.index.value.table.shared.table_id)
        × (w.seat.me.1 ≡ [])
        × (length w.seat.me.0.words ≡ w.index.value.table.shared.table_id.words)
        × IsSize (length w.seat.me.0.words) };
}

impl Words {
    /// Creates an index of `count` words, a power of two, all of them 0.
    ///
    /// Returns `AllocError` if the allocator refuses.
    pub fn new(alloc: Global, count: usize) -> Result<Words, AllocError>
        requires { IsSize count }
        ensures { IfOk result (λ words. words ≡ replicate count 0) }
    {
        let mut zeros = Vec::with_capacity(alloc, count)?;
        zeros.resize(count, 0)?;
        let mask = count - 1;
        let (table, seat) = Table::of_words(alloc, &zeros, &zeros)?;
        let index = Index { table, mask };
        match Arc::new(alloc, index) {
            Ok(index) => Ok(Words { index, seat }),
            Err(_) => Err(AllocError),
        }
    }

    /// Returns the index, for those who read it without the lock.
    ///
    /// Returns `AllocError` if the count of its owners would overflow.
    pub fn share(&self) -> Result<Arc<Index>, AllocError> {
        self.index.clone()
    }

    /// Returns the number of words.
    pub fn count(&self) -> usize
        ensures count { result ≡ length self.now }
        ensures size { IsSize result }
    {
        self.index.mask + 1
    }

    /// Returns a word.
    pub fn get(&mut self, at: usize) -> u64
        requires within { at < length self.old }
        ensures same { self.new ≡ self.old }
        ensures word { result ≡ mark_at self.old at }
    {
        self.index.table.shared.load::<Look>(&mut self.seat, at)
    }

    /// Writes a word.
    pub fn set(&mut self, at: usize, word: u64)
        requires within { at < length self.old }
        ensures { self.new ≡ slice_set self.old at word }
    {
        self.index
            .table
            .shared
            .store::<Write>(&mut self.seat, at, word)
    }
}
