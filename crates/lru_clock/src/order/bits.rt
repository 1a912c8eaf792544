//! A bit for each place of a shard, 64 to a word.
ghost use Rattle.std.specs.Prelude.{◌≡◌, ◌<◌, ◌*◌, ◌-◌, [], length, IfSome, MatchOption};
ghost use Rattle.lru_clock.specs.Bits.{has_bit, with_bit, without_bit, first_bit, next_bit};
ghost use Rattle.lru_clock.specs.Bits.{IsPadded, LacksFrom, IsLowest};

use std::alloc::{AllocError, Global};
use std::marker::Model;

/// A bit for each place. Clauses see the words, each with the bits of 64 places.
#[derive(Drop)]
pub struct Bits {
    words: Vec<u64>,
}

impl Model for Bits {
    ghost use Rattle.std.specs.Prelude.{List, ℕ, ◌*◌, ◌<◌, length};

    ghost Value = { List ℕ };

    ghost view = { λ b. b.words.items };

    // So each place that has a bit fits a `u32`.
    ghost invariant = { λ b. 64 * length b.words.items < 4294967296 };
}

impl Bits {
    /// Creates bits for no places.
    pub fn new(alloc: Global) -> Self
        ensures { result ≡ [] }
    {
        Bits {
            words: Vec::new(alloc),
        }
    }

    /// Adds bits that are not set until the places below `places` have one. `places` is a multiple
    /// of 64.
    ///
    /// Returns `AllocError` if the allocator refuses. No bit changes then.
    pub fn grow(&mut self, places: u32) -> Result<(), AllocError>
        ensures { IsPadded self.old self.new }
    {
        let count = (places as usize / 64).max(self.words.len());
        self.words.reserve_exact(count - self.words.len())?;
        self.words.resize(count, 0)
    }

    /// Returns whether the bit of a place is set.
    pub fn has(&self, place: u32) -> bool
        ensures { result ≡ has_bit self.now place }
    {
        match self.words.get(place as usize / 64) {
            Some(word) => (*word >> (place % 64)) % 2 == 1,
            None => false,
        }
    }

    /// Sets the bit of a place.
    pub fn add(&mut self, place: u32)
        ensures { self.new ≡ with_bit self.old place }
    {
        if let Some(word) = self.words.get_mut(place as usize / 64) {
            *word |= 1 << (place % 64);
        }
    }

    /// Clears the bit of a place, and returns whether it was set.
    pub fn remove(&mut self, place: u32) -> bool
        ensures was { result ≡ has_bit self.old place }
        ensures cleared { self.new ≡ without_bit self.old place }
    {
        let is_set = self.has(place);
        if is_set {
            if let Some(word) = self.words.get_mut(place as usize / 64) {
                *word ^= 1 << (place % 64);
            }
        }
        is_set
    }

    /// Returns the first place from `from` on whose bit is set. After the last place comes the
    /// first one.
    pub fn next_from(&self, from: u32) -> Option<u32>
        ensures next { result ≡ next_bit self.now from }
        ensures fits { IfSome result (λ place. place < 4294967295) }
    {
        match self.first_from(from) {
            Some(place) => Some(place),
            None => self.first_from(0),
        }
    }

    // Returns the first place from `from` on whose bit is set.
    fn first_from(&self, from: u32) -> Option<u32>
        ensures first { result ≡ first_bit self.now from (64 * length self.now - from) }
        ensures fits { IfSome result (λ place. place < 4294967295) }
    {
        let mut bit = from % 64;
        for at in from as usize / 64..self.words.len() {
            if let Some(found) = lowest_from(self.words[at], bit) {
                return Some(at as u32 * 64 + found);
            }
            bit = 0;
        }
        None
    }
}

// Returns the lowest bit from `bit` on that is set in a word.
fn lowest_from(word: u64, bit: u32) -> Option<u32>
    requires { bit < 64 }
    ensures { MatchOption result (LacksFrom word bit) (λ found. IsLowest word bit found) }
{
    let rest = word >> bit;
    if rest == 0 {
        None
    } else {
        Some(bit + rest.trailing_zeros())
    }
}
