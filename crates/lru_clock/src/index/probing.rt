//! Linear probing under the lock: a word is at its home or after it, and no word in between is 0.
ghost use Rattle.std.specs.Prelude.{◌≡◌, ◌≢◌, ℕ, ◌<◌, length, slice_set, MatchOption};
ghost use Rattle.concurrent_lru.specs.Probing.Cycle.{next_of as next_in};
ghost use Rattle.concurrent_lru.specs.Probing.Probes.{mark_at, Ends, HasEmpty, IsFilledAt, IsReached};
ghost use Rattle.concurrent_lru.specs.Probing.Gaps.{IsGap};
ghost use Rattle.lru_clock.specs.Index.{AreOnce, Rearranges, HasWord, LacksWord, PutsIn, TakesOut};

use crate::index::Words;
use concurrent_lru::linear_probing::{home_of, next_of, steps_between};

impl Words {
    // Moves the word at a position back to the hole, unless it would then lie before its home.
    // Returns the position that is the hole afterwards. The word at the hole counts as 0, whatever
    // it is.
    fn close_hole(&mut self, hole: usize, at: usize) -> usize
        requires hole { hole < length self.old }
        requires at { at < length self.old }
        requires gap { (start : ℕ)
            × IsGap (length self.old) (slice_set self.old hole 0) start hole at }
        requires filled { IsFilledAt self.old at }
        ensures long { length self.new ≡ length self.old }
        ensures gap { (start : ℕ)
            → IsGap (length self.old) (slice_set self.old hole 0) start hole at
            → IsGap (length self.old) (slice_set self.new result 0) start result
            (next_in (length self.old) at) }
        ensures same { Rearranges (slice_set self.old hole 0) (slice_set self.new result 0) }
    {
        let count = self.count();
        let word = self.get(at);
        let home = home_of(count, word);
        if steps_between(count, home, at) < steps_between(count, hole, at) {
            return hole;
        }
        self.set(hole, word);
        at
    }

    // Takes out the word at a position, and moves words back so that searches still reach all of
    // them. Each position is written once, so a reader without the lock that meets a hole which is
    // about to be filled finds the old word there, and goes on.
    fn take_out(&mut self, from: usize)
        requires within { from < length self.old }
        requires filled { IsFilledAt self.old from }
        requires ends { HasEmpty self.old }
        requires reached { IsReached self.old }
        requires apart { AreOnce self.old }
        ensures { TakesOut self.old self.new (mark_at self.old from) }
    {
        let count = self.count();
        let mut hole = from;
        let mut at = next_of(count, from);
        while self.get(at) != 0 {
            hole = self.close_hole(hole, at);
            at = next_of(count, at);
        }
        self.set(hole, 0);
    }

    // Returns the position of a word, if the index has it.
    fn find(&mut self, word: u64) -> Option<usize>
        requires filled { word ≢ 0 }
        requires ends { HasEmpty self.old }
        requires reached { IsReached self.old }
        ensures same { self.new ≡ self.old }
        ensures found { MatchOption result (LacksWord self.old word)
            (λ at. (at < length self.old) × (mark_at self.old at ≡ word)) }
    {
        let count = self.count();
        let mut at = home_of(count, word);
        loop {
            let found = self.get(at);
            if found == word {
                return Some(at);
            }
            if found == 0 {
                return None;
            }
            at = next_of(count, at);
        }
    }

    /// Removes a word.
    pub fn remove(&mut self, word: u64)
        requires filled { word ≢ 0 }
        requires has { HasWord self.old word }
        requires ends { HasEmpty self.old }
        requires reached { IsReached self.old }
        requires apart { AreOnce self.old }
        ensures { TakesOut self.old self.new word }
    {
        if let Some(at) = self.find(word) {
            self.take_out(at);
        }
    }

    /// Returns the empty position at which a search for a word ends.
    pub fn find_empty(&mut self, word: u64) -> usize
        requires ends { HasEmpty self.old }
        ensures same { self.new ≡ self.old }
        ensures ends { Ends self.old word result }
    {
        let count = self.count();
        let mut at = home_of(count, word);
        while self.get(at) != 0 {
            at = next_of(count, at);
        }
        at
    }

    /// Writes a word at the position at which a search for it ends.
    pub fn put(&mut self, at: usize, word: u64)
        requires filled { word ≢ 0 }
        requires ends { Ends self.old word at }
        requires reached { IsReached self.old }
        requires apart { AreOnce self.old }
        requires absent { LacksWord self.old word }
        ensures { PutsIn self.old self.new word }
    {
        self.set(at, word);
    }
}
