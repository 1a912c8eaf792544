//! The order in which the entries of a shard leave it.
//!
//! A new entry is on trial. The one that has been on trial for longest leaves when room is needed,
//! if nobody has used it; if somebody has, it moves to the main part, without its chances. There a
//! hand moves from place to place, as in CLOCK, and an entry that nobody has used since leaves.
//! Both parts lie in the same slots: an entry stays where it is.
//!
//! Ghosts are the tags of keys whose entries left not long ago. An entry whose key has a ghost
//! skips the trial, as in S3-FIFO. If it had left the trial part, that part was too small; if the
//! main part, it was too large. So each of them moves the border between the parts, as in ARC.
//!
//! Instead of a queue, a second hand moves over the places that are on trial. What comes takes the
//! place that became vacant last, so these places are in the order in which their entries came,
//! but for places that entries of the main part left. An entry that comes to one of those is young,
//! and the second hand spares it once.
//!
//! Nothing here looks at a slot, and no entry depends on it: a wrong bit or ghost costs hits, and
//! nothing else.
ghost use Rattle.std.specs.Prelude.{◌≡◌, ◌<◌};
ghost use Rattle.lru_clock.specs.Bits.{has_bit};
ghost use Rattle.lru_clock.specs.Ghosts.{ghosts_of};
ghost use Rattle.lru_clock.specs.Orders.{no_order, first_border, moved_border, ratio as ratio_of};
ghost use Rattle.lru_clock.specs.Orders.{begun, ended, came, left, IsWidened};
ghost use Rattle.lru_clock.specs.Orders.{is_due, second, swept, skips, hand_moved};

mod bits;
mod ghosts;
mod laws;

use crate::order::bits::Bits;
use crate::order::ghosts::Ghosts;
use std::alloc::{AllocError, Global};
use std::marker::Model;

/// A part of a shard.
#[derive(Clone, Copy, PartialEq, Eq)]
pub enum Part {
    /// The entries on trial.
    Trial,
    /// The others.
    Main,
}

/// Where the second hand came to.
#[derive(Clone, Copy, PartialEq, Eq)]
pub enum Second {
    /// No place is on trial.
    Nowhere,
    /// A place whose entry was young, and no longer is.
    Young,
    /// A place whose entry has to leave, or to pass the trial.
    Old(u32),
}

/// What a look at a slot found.
#[derive(Clone, Copy, PartialEq, Eq)]
pub enum Look {
    /// No entry, an entry that somebody has pinned, or one that somebody else changed meanwhile.
    Pinned,
    /// An entry that nobody has pinned and that has a chance.
    Used,
    /// An entry that nobody has pinned and that has no chance, or that was invalidated.
    Unused,
}

/// What a look takes from an entry that was used and that nobody has pinned.
#[derive(Clone, Copy, PartialEq, Eq)]
pub enum Cost {
    /// One of its chances.
    OneChance,
    /// All its chances.
    AllChances,
}

/// A look at a slot: at which place it was made, what it took from an entry that was used, and what
/// it found.
#[derive(Clone, Copy, PartialEq, Eq)]
pub struct Looked {
    pub place: u32,
    pub cost: Cost,
    pub found: Look,
}

/// The order in which entries leave: which places are on trial, which are young, the ghosts, the
/// border, and the places of the two hands.
///
/// Clauses see all of it.
#[derive(Drop)]
pub struct Order {
    trials: Bits,
    youngs: Bits,
    ghosts: Ghosts,
    // The charge from which on the trial part has to give up entries.
    border: u64,
    // The sum of the charges of the entries on trial.
    trial: u64,
    sweep: u32,
    hand: u32,
}

impl Model for Order {
    ghost use Rattle.lru_clock.specs.Orders.{OrderOf};

    ghost Value = { OrderOf };

    ghost view = { λ o. record {
      trials = o.trials;
      youngs = o.youngs;
      ghosts = o.ghosts;
      border = o.border;
      trial = o.trial;
      sweep = o.sweep;
      hand = o.hand;
    } };
}

// Returns how many charges the border moves for each charge of an entry that returns:
// `(other + 1) / own`, to the nearest number, and at least 1. `own` is the number of ghosts that
// left the same part, with the one that was found, and `other` those that left the other part.
fn ratio(own: usize, other: usize) -> u64
    requires own { (0 < own) × (own < 4294967296) }
    requires other { other < 4294967296 }
    ensures { result ≡ ratio_of own other }
{
    let (own, other) = (own as u64, other as u64);
    ((2 * other + own + 2) / (2 * own)).max(1)
}

impl Order {
    /// Creates the order of a shard without places.
    pub fn new(alloc: Global, capacity: u64) -> Self
        ensures { result ≡ no_order capacity }
    {
        Order {
            trials: Bits::new(alloc),
            youngs: Bits::new(alloc),
            ghosts: Ghosts::new(alloc),
            border: capacity / 8,
            trial: 0,
            sweep: 0,
            hand: 0,
        }
    }

    /// Makes room for the places below `places`, a multiple of 64.
    ///
    /// Returns `AllocError` if the allocator refuses. No place changes.
    pub fn make_room(&mut self, places: u32) -> Result<(), AllocError>
        ensures { IsWidened self.old self.new }
    {
        self.trials.grow(places)?;
        self.youngs.grow(places)?;
        self.ghosts.grow(places / 2)
    }

    /// Sets the border for a capacity.
    pub fn set_capacity(&mut self, capacity: u64)
        ensures { self.new ≡ record self.old { border = first_border capacity } }
    {
        self.border = capacity / 8;
    }

    /// Returns whether the trial part has to give up an entry.
    pub fn is_due(&self) -> bool
        ensures { result ≡ is_due self.now }
    {
        self.trial != 0 && self.trial >= self.border
    }

    /// Moves the second hand past the next place on trial.
    pub fn move_second(&mut self) -> Second
        ensures second { result ≡ second self.old }
        ensures moved { self.new ≡ swept self.old }
    {
        let Some(place) = self.trials.next_from(self.sweep) else {
            return Second::Nowhere;
        };
        self.sweep = place + 1;
        if self.youngs.remove(place) {
            Second::Young
        } else {
            Second::Old(place)
        }
    }

    /// Returns whether the hand skips the place at which it is, since that is on trial and the hand
    /// is for the main part.
    pub fn skips(&self, is_main: bool) -> bool
        ensures { result ≡ skips is_main self.now }
    {
        is_main && self.trials.has(self.hand)
    }

    /// Moves the hand to the next of `places` places, and returns the place that it was at.
    pub fn move_hand(&mut self, places: u32) -> u32
        ensures hand { result ≡ self.old.hand }
        ensures moved { self.new ≡ hand_moved places self.old }
    {
        let place = self.hand;
        self.hand = match place.checked_add(1) {
            Some(next) => { if next < places { next } else { 0 } }
            None => 0,
        };
        place
    }

    /// The entry at a place is no longer on trial. Returns whether it was.
    pub fn end_trial(&mut self, place: u32, charge: u64) -> bool
        ensures was { result ≡ has_bit self.old.trials place }
        ensures ended { self.new ≡ ended place charge self.old }
    {
        let is_on_trial = self.trials.remove(place);
        if is_on_trial {
            self.trial = self.trial.saturating_sub(charge);
        }
        is_on_trial
    }

    /// The entry at a place left. It has a ghost if there is a tag.
    #[inline(always)]
    pub fn leave(&mut self, place: u32, charge: u64, tag: Option<u32>)
        ensures { self.new ≡ left place charge tag self.old }
    {
        let is_on_trial = self.end_trial(place, charge);
        if let Some(tag) = tag {
            let part = if is_on_trial { Part::Trial } else { Part::Main };
            self.ghosts.add(tag, part);
        }
        if is_on_trial {
            self.youngs.remove(place);
        } else {
            self.youngs.add(place);
        }
    }

    /// An entry came to a place. It is on trial, unless its tag has a ghost.
    pub fn come(&mut self, place: u32, charge: u64, tag: Option<u32>, capacity: u64)
        ensures { self.new ≡ came place charge tag capacity self.old }
    {
        if let Some(tag) = tag {
            if let Some(part) = self.ghosts.find(tag) {
                self.move_border(part, charge, capacity);
                self.ghosts.remove(tag);
                return;
            }
        }
        self.begin_trial(place, charge);
    }

    // The entry at a place is on trial.
    fn begin_trial(&mut self, place: u32, charge: u64)
        ensures { self.new ≡ begun place charge self.old }
    {
        self.trials.add(place);
        self.trial = self.trial.saturating_add(charge);
    }

    // Moves the border since an entry returns that had left a part, as its ghost says.
    fn move_border(&mut self, part: Part, charge: u64, capacity: u64)
        requires { 0 < ghosts_of part self.old.ghosts }
        ensures { self.new
            ≡ record self.old { border = moved_border part charge capacity self.old } }
    {
        let of_trial = self.ghosts.count(Part::Trial);
        let of_main = self.ghosts.count(Part::Main);
        match part {
            Part::Trial => {
                let step = charge.saturating_mul(ratio(of_trial, of_main));
                self.border = self.border.saturating_add(step).min(capacity / 2);
            }
            Part::Main => {
                let step = charge.saturating_mul(ratio(of_main, of_trial));
                self.border = self.border.saturating_sub(step).max(capacity / 64);
            }
        }
    }
}
