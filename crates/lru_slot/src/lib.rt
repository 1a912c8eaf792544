//! A slot for one value, which many threads may read or one may write, with a word that says which.
//!
//! The word is laid out as by the kit's `counted_slot`, and changes by the same rule, `IsTurn`: the
//! low two bits are the state, the next 30 count the readers, and the high half is the caller's.
//! The claims differ. Whoever stores a value can keep a claim to read it, by the same store, and a
//! claim may be sent to other threads.
#![tactic(auto)]

ghost use Rattle.std.specs.Prelude.{◌≡◌, ◌≢◌, ℕ, ◌%◌, ◌<◌, ◌≤◌, Option};
ghost use Rattle.std.specs.Coded.{coded_option};
ghost use Rattle.counted_slot.specs.Counting.{slot_owns, slot_shares, claim_owns, claim_shares};
ghost use Rattle.lru_slot.specs.Words.{readers, IsTurn, Gains};

use atomic_table::exchange;
pub use counted_slot::{FREE, Fits, MARKED, ONE_READER, PRESENT, TAKEN};
use std::marker::{Brand, Model, Move, Owns, PhantomData, Send, Sync};
use std::sync::atomic::Ordering::SeqCst;
use std::sync::atomic::raw;

#[cfg(test)]
mod tests;

/// A value and its word. Clauses see the tag by which the value fits.
pub struct Counted<X: Fits> {
    word: u64,
    value: X,
}

impl<X: Fits> Owns for Counted<X> {
    ghost Value = { X.Tag };

    ghost coded = { X.Tag.code };

    ghost shr_at = { λ tag at κ. slot_shares X.row (X.fits tag) at κ };
}

impl<X: Fits> Move for Counted<X> {
    ghost own_val = { λ tag vs. slot_owns X.row (X.fits tag)
        (λ n x. Fields.own_val (record { word = n; value = x }) vs) };
}

unsafe impl<X: Fits + Send> Send for Counted<X> {}

unsafe impl<X: Fits + Send + Sync> Sync for Counted<X> {}

impl<X: Fits + Drop> Drop for Counted<X> {
    fn drop(self) {
        drop(self.into_inner());
    }
}

/// A debt: what a change of the word gained. `leave`, `put` or `done` takes it.
///
/// Clauses see the slot's tag, and the right: 0 to nothing, 1 to read the value, or 2 to write it.
/// With the right to read they also see the value.
pub struct Claim<'a, X: Fits> {
    slot: *const Counted<X>,
    life: PhantomData<&'a X>,
    pub ghost tag: { X.Tag } by { X.Tag.code },
    pub ghost right: { ℕ },
    pub ghost value: { Option X } by { coded_option X.code },
}

impl<'a, X: Fits> Model for Claim<'a, X> {
    ghost also_owns = { λ c. claim_owns 'a X.row (X.fits c.tag) c.slot c.right c.value };

    ghost also_shares = { λ c at κ. claim_shares 'a X.row (X.fits c.tag) c.slot c.right c.value κ };
}

// Any thread may end a claim, since that is one atomic step.
unsafe impl<'a, X: Fits + Send + Sync> Send for Claim<'a, X> {}

unsafe impl<'a, X: Fits + Sync> Sync for Claim<'a, X> {}

impl<X: Fits> Counted<X> {
    /// Creates a slot with a value that fits the tag, and with the word `FREE`.
    pub fn new(value: X, tag: &X::Tag) -> Counted<X>
        requires { X.fits tag.now value }
        ensures { result ≡ tag.now }
    {
        let _ = tag;
        Counted { word: FREE, value }
    }

    /// Returns the value.
    pub fn into_inner(self) -> X
        ensures { X.fits self result }
    {
        let Counted { word: _, value } = self;
        value
    }

    /// Returns the word.
    #[inline(always)]
    pub fn load(&self) -> u64 {
        unsafe { raw::load::<Brand>(&raw const self.word, SeqCst) }
    }

    /// Changes the word from `old` to `new`, if it is `old`. Returns the word as it was, and what
    /// the change gained: the right to write if `new` is taken, the right to read if it counts one
    /// reader more, and otherwise nothing.
    #[inline(always)]
    pub fn turn(&self, old: u64, new: u64) -> (u64, Claim<'_, X>)
        requires { IsTurn old new }
        ensures gains { result.0 ≡ old → Gains old new result.1.right }
        ensures fails { result.0 ≢ old → result.1.right ≡ 0 }
        ensures slot { result.1.tag ≡ self.now }
    {
        let seen = unsafe { exchange::<Brand>(&raw const self.word, old, new) };
        let claim = Claim {
            slot: self,
            life: PhantomData,
        };
        (seen, claim)
    }
}

impl<'a, X: Fits> Claim<'a, X> {
    /// Returns the value in the slot.
    #[inline(always)]
    pub fn get(&self) -> &X
        requires { self.now.right ≡ 1 }
        ensures value { Some result.now ≡ self.now.value }
        ensures fits { X.fits self.now.tag result.now }
    {
        unsafe { &(*self.slot).value }
    }

    /// Ends a claim that gained nothing.
    #[inline(always)]
    pub fn done(self)
        requires { self.right ≡ 0 }
    {
        let Claim { slot: _, life: _ } = self;
    }

    /// Counts one reader less, and returns the word as it was.
    #[inline(always)]
    pub fn leave(self) -> u64
        requires { self.right ≡ 1 }
    {
        let Claim { slot, life: _ } = self;
        unsafe { raw::fetch_sub::<Brand>(&raw const (*slot).word, ONE_READER, SeqCst) }
    }

    /// Leaves a value in the slot under a word that counts no reader. Returns the value that was
    /// there.
    pub fn put(self, value: X, new: u64) -> X
        requires write { self.right ≡ 2 }
        requires word { (new % 4 < 3) × (readers new ≡ 0) }
        requires fits { X.fits self.tag value }
        ensures { X.fits self.entry.tag result }
    {
        let (old, claim) = self.put_and_claim(value, new);
        claim.done();
        old
    }

    /// Leaves a value in the slot under a word that counts one reader. Returns the value that was
    /// there, and the claim of that reader.
    pub fn put_pinned(self, value: X, new: u64) -> (X, Claim<'a, X>)
        requires write { self.right ≡ 2 }
        requires word { (0 < new % 4) × (new % 4 < 3) × (readers new ≡ 1) }
        requires fits { X.fits self.tag value }
        ensures old { X.fits self.entry.tag result.0 }
        ensures read { result.1.right ≡ 1 }
        ensures slot { result.1.tag ≡ self.entry.tag }
        ensures value { result.1.value ≡ Some value }
    {
        self.put_and_claim(value, new)
    }

    // Leaves a value in the slot under a word that counts at most one reader. Returns the value
    // that was there, with the claim of the reader, or a claim that gained nothing.
    #[inline(always)]
    fn put_and_claim(self, value: X, new: u64) -> (X, Claim<'a, X>)
        requires write { self.right ≡ 2 }
        requires word { (new % 4 < 3) × (readers new ≤ 1) × (readers new ≤ new % 4) }
        requires fits { X.fits self.tag value }
        ensures old { X.fits self.entry.tag result.0 }
        ensures read { result.1.right ≡ readers new }
        ensures slot { result.1.tag ≡ self.entry.tag }
        ensures value { result.1.value ≡ Some value }
    {
        let Claim { slot, life } = self;
        let old = unsafe {
            let at = &raw const (*slot).value as *mut X;
            let old = at.read();
            at.write(value);
            old
        };
        unsafe { raw::store::<Brand>(&raw const (*slot).word, new, SeqCst) };
        (old, Claim { slot, life })
    }
}
