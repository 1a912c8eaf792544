//! The order in which the entries of the plain clock leave it: on trial first, then by the hand,
//! and what their ghosts change.

use crate::clock::plain::{Entry, Ghost, Plain};
use std::alloc::AllocError;
use std::hash::BuildHasher;

impl<S: BuildHasher + Drop> Plain<S> {
    // Returns the tag of a key, and where its ghost may be.
    fn home(&self, key: u64) -> (u32, usize) {
        let tag = (self.hasher.hash_one(&key) >> 32) as u32;
        (
            tag / 4,
            (tag as usize).checked_rem(self.ghosts.len()).unwrap_or(0),
        )
    }

    // Returns the number of ghosts that left the trial part, or the main part.
    fn ghosts_of(&self, was_on_trial: bool) -> u64 {
        let mut count = 0u64;
        for it in self.ghosts.iter().flatten() {
            if it.was_on_trial == was_on_trial {
                count = count.wrapping_add(1);
            }
        }
        count
    }

    // Returns the sum of the charges on trial.
    fn on_trial(&self) -> u64 {
        let mut total = 0u64;
        for entry in self.places.iter().flatten() {
            if entry.is_on_trial {
                total = total.wrapping_add(entry.charge);
            }
        }
        total
    }

    // An entry leaves, for whatever reason.
    pub(super) fn leave(&mut self, place: usize, entry: Entry) -> Result<(), AllocError> {
        self.set(place, None);
        self.set_young(place, !entry.is_on_trial);
        self.vacant.push(place)?;
        self.counts.evictions = self.counts.evictions.wrapping_add(1);
        self.dropped.push(entry.number)?;
        Ok(())
    }

    fn set_young(&mut self, place: usize, is_young: bool) {
        if let Some(at) = self.young.get_mut(place) {
            *at = is_young;
        }
    }

    // An entry leaves to make room, and leaves a ghost.
    fn leave_ghost(&mut self, place: usize, entry: Entry) -> Result<(), AllocError> {
        if entry.is_found {
            let (tag, home) = self.home(entry.key);
            let was_on_trial = entry.is_on_trial;
            if let Some(at) = self.ghosts.get_mut(home) {
                *at = Some(Ghost { tag, was_on_trial });
            }
        }
        self.leave(place, entry)
    }

    // Returns the next place that is on trial.
    fn next_on_trial(&self) -> Option<(usize, Entry)> {
        for step in 0..self.places.len() {
            let at = self.sweep.wrapping_add(step);
            let place = at.checked_rem(self.places.len())?;
            if let Some(entry) = self.entry(place) {
                if entry.is_on_trial {
                    return Some((place, entry));
                }
            }
        }
        None
    }

    // The second hand comes to the next place on trial. Returns whether its entry left.
    fn try_next(&mut self) -> Result<bool, AllocError> {
        let Some((place, entry)) = self.next_on_trial() else {
            return Ok(false);
        };
        self.sweep = place.wrapping_add(1);
        if self.young.get(place) == Some(&true) {
            self.set_young(place, false);
            return Ok(false);
        }
        if entry.pins == 0 && entry.chances == 0 {
            self.leave_ghost(place, entry)?;
            return Ok(true);
        }
        let chances = if entry.pins == 0 { 0 } else { entry.chances };
        let is_on_trial = false;
        self.set(
            place,
            Some(Entry {
                is_on_trial,
                chances,
                ..entry
            }),
        );
        Ok(false)
    }

    // The hand comes to one place. Returns whether an entry left.
    fn pass(&mut self, is_main_only: bool) -> Result<bool, AllocError> {
        let place = self.hand;
        let next = place.wrapping_add(1);
        self.hand = if next < self.places.len() { next } else { 0 };
        let Some(entry) = self.entry(place) else {
            return Ok(false);
        };
        if entry.pins > 0 || (is_main_only && entry.is_on_trial) {
            return Ok(false);
        }
        if entry.chances > 0 {
            let chances = entry.chances.wrapping_sub(1);
            self.set(place, Some(Entry { chances, ..entry }));
            return Ok(false);
        }
        self.leave_ghost(place, entry)?;
        Ok(true)
    }

    // Returns whether an entry left: one on trial, or one of the main part, or any.
    pub(super) fn evict(&mut self) -> Result<bool, AllocError> {
        for _ in 0..self.places.len().wrapping_mul(2) {
            let on_trial = self.on_trial();
            if on_trial == 0 || on_trial < self.border {
                break;
            }
            if self.try_next()? {
                return Ok(true);
            }
        }
        for is_main_only in [true, false] {
            for _ in 0..self.places.len().wrapping_mul(4) {
                if self.pass(is_main_only)? {
                    return Ok(true);
                }
            }
        }
        Ok(false)
    }

    // An entry comes, and skips the trial if its key has a ghost. Returns whether it is on trial.
    pub(super) fn come(&mut self, key: u64, charge: u64) -> bool {
        let (tag, home) = self.home(key);
        let Some(Some(found)) = self.ghosts.get(home).copied() else {
            return true;
        };
        if found.tag != tag {
            return true;
        }
        let own = self.ghosts_of(found.was_on_trial);
        let other = self.ghosts_of(!found.was_on_trial);
        let nearest = other.wrapping_mul(2).wrapping_add(own).wrapping_add(2);
        let ratio = nearest.checked_div(own.wrapping_mul(2)).unwrap_or(0).max(1);
        let step = charge.wrapping_mul(ratio);
        self.border = if found.was_on_trial {
            self.border.wrapping_add(step).min(self.capacity / 2)
        } else {
            self.border.saturating_sub(step).max(self.capacity / 64)
        };
        if let Some(at) = self.ghosts.get_mut(home) {
            *at = None;
        }
        false
    }
}
