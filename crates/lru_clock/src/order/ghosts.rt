//! The ghosts of a shard: tags of keys whose entries left not long ago, each with the part that its
//! entry left.
ghost use Rattle.std.specs.Prelude.{◌≡◌, ◌<◌, ◌==◌, ◌%◌, cond, [], MatchOption};
ghost use Rattle.std.proofs.Math.ListN.{set};
ghost use Rattle.lru_clock.specs.Ghosts.{ghost, ghost_at, home, ghosts_of};
ghost use Rattle.lru_clock.specs.Ghosts.{part_left, with_ghost, without_ghost};
ghost use Rattle.lru_clock.specs.Bits.{IsPadded};

use crate::order::Part;
use std::alloc::{AllocError, Global};
use std::marker::Model;

/// A table of ghosts, and how many of them left each part. The ghost of a tag has one word that it
/// may be in, so a ghost takes the place of another one. Clauses see the words.
///
/// A word is 0, or has the upper 30 bits of a tag, then a 1 and a bit for the part. So another key
/// may be taken for one that left, which does no harm but that its entry skips the trial.
#[derive(Drop)]
pub struct Ghosts {
    words: Vec<u32>,
    // How many ghosts left the trial part, and how many the main part.
    of_trial: usize,
    of_main: usize,
}

impl Model for Ghosts {
    ghost use Rattle.std.specs.Prelude.{◌≡◌, ◌<◌, List, ℕ, length};
    ghost use Rattle.lru_clock.specs.Ghosts.{ghosts_of};
    ghost use Rattle.lru_clock.specs.declared.order.Part.TheVariants.{Trial, Main};

    ghost Value = { List ℕ };

    ghost view = { λ g. g.words.items };

    ghost invariant = { λ g. (g.of_trial ≡ ghosts_of Trial g.words.items)
        × (g.of_main ≡ ghosts_of Main g.words.items)
        × (length g.words.items < 4294967296) };
}

// Returns the word of a ghost.
fn word_of(tag: u32, part: Part) -> u32
    ensures { result ≡ ghost tag part }
{
    match part {
        Part::Trial => tag / 4 * 4 + 2,
        Part::Main => tag / 4 * 4 + 3,
    }
}

impl Ghosts {
    /// Creates a table without room for a ghost.
    pub fn new(alloc: Global) -> Self
        ensures { result ≡ [] }
    {
        Ghosts {
            words: Vec::new(alloc),
            of_trial: 0,
            of_main: 0,
        }
    }

    /// Adds room until there is room for `count` ghosts. Most of the ghosts that are there are not
    /// found any more, since their tags then lead to other words.
    ///
    /// Returns `AllocError` if the allocator refuses. Nothing changes then.
    pub fn grow(&mut self, count: u32) -> Result<(), AllocError>
        ensures { IsPadded self.old self.new }
    {
        let count = (count as usize).max(self.words.len());
        self.words.reserve_exact(count - self.words.len())?;
        self.words.resize(count, 0)
    }

    /// Returns the number of ghosts that left a part.
    pub fn count(&self, part: Part) -> usize
        ensures count { result ≡ ghosts_of part self.now }
        ensures few { result < 4294967296 }
    {
        match part {
            Part::Trial => self.of_trial,
            Part::Main => self.of_main,
        }
    }

    /// Returns the part that the ghost of a tag left, if there is one.
    pub fn find(&self, tag: u32) -> Option<Part>
        ensures { result ≡ part_left self.now tag }
    {
        let word = self.word_at(tag)?;
        if word == word_of(tag, Part::Trial) {
            Some(Part::Trial)
        } else if word == word_of(tag, Part::Main) {
            Some(Part::Main)
        } else {
            None
        }
    }

    /// Adds the ghost of a tag that left a part.
    pub fn add(&mut self, tag: u32, part: Part)
        ensures { self.new ≡ with_ghost self.old tag part }
    {
        self.set(tag, word_of(tag, part));
    }

    /// Removes the ghost that is where that of a tag may be.
    pub fn remove(&mut self, tag: u32)
        ensures { self.new ≡ without_ghost self.old tag }
    {
        self.set(tag, 0);
    }

    // Returns the word in which the ghost of a tag may be, if there is room for ghosts.
    fn word_at(&self, tag: u32) -> Option<u32>
        ensures { MatchOption result (self.now ≡ []) (λ word. word ≡ ghost_at self.now tag) }
    {
        if self.words.len() == 0 {
            return None;
        }
        Some(self.words[tag as usize % self.words.len()])
    }

    // Replaces the word in which the ghost of a tag may be, and counts.
    fn set(&mut self, tag: u32, word: u32)
        ensures { self.new ≡ set self.old (home self.old tag) word }
    {
        if self.words.len() == 0 {
            return;
        }
        let at = tag as usize % self.words.len();
        let old = self.words[at];
        self.words[at] = word;
        self.of_trial = self.of_trial - is_of(old, 2) + is_of(word, 2);
        self.of_main = self.of_main - is_of(old, 3) + is_of(word, 3);
    }
}

// Returns 1 if the word is that of a ghost with these two last bits, and else 0.
fn is_of(word: u32, last: u32) -> usize
    ensures { result ≡ cond (word % 4 == last) 1 0 }
{
    if word % 4 == last { 1 } else { 0 }
}
