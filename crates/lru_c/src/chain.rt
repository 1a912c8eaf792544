//! What the handle of a chain points to.
ghost use Rattle.std.specs.Prelude.{◌≡◌};
ghost use Rattle.lru_c.specs.Chains.{chain_of, code_of_entries, entries_of, Pops};

use crate::bytes::key::Bytes;
use crate::code;
use crate::told::LruGone;
use crate::values::{Evicted, Gone};
use crate::words::key::Words;

/// The entries that a call took out of a cache, in order: `first`, and then `rest`.
#[derive(Drop)]
pub struct Chain<K> {
    /// The entries that are popped first.
    pub first: Evicted<K>,
    /// The entries that are popped after those.
    pub rest: Evicted<K>,
}

impl<K: Drop> Chain<K> {
    // Returns a chain of the entries that a call evicted.
    pub(crate) fn of(evicted: Evicted<K>) -> Chain<K>
        ensures { result ≡ chain_of evicted }
    {
        Chain {
            first: Evicted::none(),
            rest: evicted,
        }
    }

    // Returns `NOT_EMPTY` if the chain has entries, otherwise `DONE`.
    pub(crate) fn emptiness_code(&self) -> u32
        ensures { result ≡ code_of_entries (entries_of self.now) }
    {
        if !self.first.is_empty() {
            return code::NOT_EMPTY;
        }
        if !self.rest.is_empty() {
            return code::NOT_EMPTY;
        }
        code::DONE
    }

    // Takes out the first entry and returns it, or `None` if none is left.
    pub(crate) fn pop(&mut self) -> Option<LruGone>
        ensures { Pops (entries_of self.old) result (entries_of self.new) }
    {
        match self.first.pop() {
            Some(gone) => Some(told(&gone)),
            None => match self.rest.pop() {
                Some(gone) => Some(told(&gone)),
                None => None,
            },
        }
    }
}

fn told<K>(gone: &Gone<K>) -> LruGone
    ensures { (result.stamp ≡ gone.now.stamp) × (result.charge ≡ gone.now.charge) ×
        (result.value ≡ gone.now.value) }
{
    LruGone {
        stamp: gone.stamp,
        charge: gone.charge,
        value: gone.value,
    }
}

/// The entries that a call took out of a cache, whose keys are of one of two kinds.
#[derive(Drop)]
pub enum AnyChain {
    /// Entries whose keys are bytes.
    Bytes(Chain<Bytes>),
    /// Entries whose keys are two words.
    Words(Chain<Words>),
}

impl AnyChain {
    ghost use Rattle.std.specs.Prelude.{Some, ◌++◌};
    ghost use Rattle.lru_c.specs.Chains.{bytes_in, emptiness_code, words_in, IsEmpty, PopsAny};

    // Returns a chain of no entries. It takes entries with keys of either kind.
    pub(crate) fn none() -> AnyChain
        ensures { IsEmpty result }
    {
        AnyChain::Words(Chain::of(Evicted::none()))
    }

    // Takes what a call on a cache whose keys are bytes evicted, and returns its answer.
    #[inline(always)]
    pub(crate) fn take_bytes<A: Drop>(&mut self, told: (A, Evicted<Bytes>)) -> A
        requires { IsEmpty self.old }
        ensures answer { result ≡ told.0 }
        ensures chain { bytes_in self.new ≡ Some told.1 }
    {
        let (answer, evicted) = told;
        self.fill_bytes(Chain::of(evicted));
        answer
    }

    // Takes what an insert into such a cache replaced and then what it evicted, and returns its
    // answer.
    #[inline(always)]
    pub(crate) fn take_both_bytes<A: Drop>(
        &mut self,
        told: (A, (Evicted<Bytes>, Evicted<Bytes>)),
    ) -> A
        requires { IsEmpty self.old }
        ensures answer { result ≡ told.0 }
        ensures chain { bytes_in self.new ≡ Some (told.1.0 ++ told.1.1) }
    {
        let (answer, (first, rest)) = told;
        self.fill_bytes(Chain { first, rest });
        answer
    }

    // Becomes `filled` if that has entries. Most calls evict nothing, and then nothing is written.
    #[inline(always)]
    pub(crate) fn fill_bytes(&mut self, filled: Chain<Bytes>)
        requires { IsEmpty self.old }
        ensures { bytes_in self.new ≡ Some (entries_of filled) }
    {
        if filled.emptiness_code() == code::NOT_EMPTY {
            self.replace(AnyChain::Bytes(filled));
        }
    }

    // Takes what a call on a cache whose keys are two words evicted, and returns its answer.
    #[inline(always)]
    pub(crate) fn take_words<A: Drop>(&mut self, told: (A, Evicted<Words>)) -> A
        requires { IsEmpty self.old }
        ensures answer { result ≡ told.0 }
        ensures chain { words_in self.new ≡ Some told.1 }
    {
        let (answer, evicted) = told;
        self.fill_words(Chain::of(evicted));
        answer
    }

    // Takes what an insert into such a cache replaced and then what it evicted, and returns its
    // answer.
    #[inline(always)]
    pub(crate) fn take_both_words<A: Drop>(
        &mut self,
        told: (A, (Evicted<Words>, Evicted<Words>)),
    ) -> A
        requires { IsEmpty self.old }
        ensures answer { result ≡ told.0 }
        ensures chain { words_in self.new ≡ Some (told.1.0 ++ told.1.1) }
    {
        let (answer, (first, rest)) = told;
        self.fill_words(Chain { first, rest });
        answer
    }

    // Becomes `filled` if that has entries.
    #[inline(always)]
    pub(crate) fn fill_words(&mut self, filled: Chain<Words>)
        requires { IsEmpty self.old }
        ensures { words_in self.new ≡ Some (entries_of filled) }
    {
        if filled.emptiness_code() == code::NOT_EMPTY {
            self.replace(AnyChain::Words(filled));
        }
    }

    // Not inlined, since most calls evict nothing.
    #[inline(never)]
    fn replace(&mut self, filled: AnyChain)
        ensures { self.new ≡ filled }
    {
        *self = filled;
    }

    // Returns `NOT_EMPTY` if the chain has entries, otherwise `DONE`.
    pub(crate) fn emptiness_code(&self) -> u32
        ensures { result ≡ emptiness_code self.now }
    {
        match self {
            AnyChain::Bytes(chain) => chain.emptiness_code(),
            AnyChain::Words(chain) => chain.emptiness_code(),
        }
    }

    // Takes out the first entry and returns it, or `None` if none is left.
    #[inline(never)]
    pub(crate) fn pop(&mut self) -> Option<LruGone>
        ensures { PopsAny self.old result self.new }
    {
        match self {
            AnyChain::Bytes(chain) => chain.pop(),
            AnyChain::Words(chain) => chain.pop(),
        }
    }
}
