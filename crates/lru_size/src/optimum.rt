//! The hits of Belady's optimum: what is used again latest, or never, leaves first.
//!
//! A key may leave right after its use, while others stay. If all charges are equal, no order hits
//! more often. If they differ, this is the order by the next use alone, which ignores charges, and
//! other orders may hit more often.
ghost use Rattle.std.specs.Prelude.{◌≡◌, ◌+◌, ◌≤◌, IfOk, IsTrue, length, vec_len};
ghost use Rattle.std.specs.BinaryHeap.{heap_len};

use std::alloc::{AllocError, Global};
use std::collections::{BinaryHeap, HashMap};

/// When each use of a trace is followed by the next one of its key.
#[derive(Drop)]
pub struct NextUses {
    uses: Vec<Followed>,
}

// A use.
#[derive(Clone, Copy)]
struct Followed {
    charge: u64,
    // The place of the next use of the key, or `None` if there is none.
    next: Option<usize>,
}

impl NextUses {
    /// Finds the next use of each use of a trace.
    ///
    /// # Errors
    ///
    /// `AllocError` if memory runs out.
    pub fn new(alloc: Global, trace: &[(u64, u64)]) -> Result<NextUses, AllocError>
        ensures { IfOk result (λ next. vec_len next.uses ≡ length trace.now) }
    {
        let mut uses: Vec<Followed> = Vec::with_capacity(alloc, trace.len())?;
        let mut last_places: HashMap<u64, usize> = HashMap::new(alloc);
        for (place, (key, charge)) in trace.iter().enumerate() {
            if let Some(last) = last_places.insert(*key, place)? {
                if let Some(followed) = uses.get_mut(last) {
                    followed.next = Some(place);
                }
            }
            uses.push(Followed {
                charge: *charge,
                next: None,
            })?;
        }
        Ok(NextUses { uses })
    }

    /// Returns how many uses hit at a capacity: at most all. A key whose charge is above it never
    /// stays, and displaces no other.
    ///
    /// # Errors
    ///
    /// `AllocError` if memory runs out.
    pub fn hits(&self, alloc: Global, capacity: u64) -> Result<u64, AllocError>
        ensures { IfOk result (λ hits. hits ≤ vec_len self.now.uses) }
    {
        let mut content = Content::new(alloc, self.uses.len(), capacity)?;
        let mut hits = 0u64;
        for (place, used) in self.uses.iter().enumerate() {
            if content.take(place, used.charge) {
                hits += 1;
            }
            if let Some(next) = used.next {
                content.keep(next, used.charge)?;
            }
        }
        Ok(hits)
    }
}

// The keys in the cache, each as the place of its next use. A key without one is never kept.
#[derive(Drop)]
struct Content {
    // For each place of the trace, whether the key that is used there is kept for this use.
    is_kept: Vec<bool>,
    // The next uses of the kept keys with their charges. Uses that are past remain here. They are
    // never the latest while a key is kept, and if none is kept, there is room for any charge.
    latest: BinaryHeap<(usize, u64)>,
    capacity: u64,
    // The capacity less the charges of the kept keys.
    room: u64,
}

impl Content {
    // Creates an empty cache for a trace with so many uses.
    fn new(alloc: Global, uses: usize, capacity: u64) -> Result<Content, AllocError> {
        let mut is_kept = Vec::with_capacity(alloc, uses)?;
        for _ in 0..uses {
            is_kept.push(false)?;
        }
        Ok(Content {
            is_kept,
            latest: BinaryHeap::new(alloc),
            capacity,
            room: capacity,
        })
    }

    // Uses the key at a place, and takes it out. Returns whether it was kept, so that the use hits.
    fn take(&mut self, place: usize, charge: u64) -> bool {
        let is_kept = self.is_kept.get(place).copied().unwrap_or(false);
        if is_kept {
            self.room = self.room.saturating_add(charge);
        }
        is_kept
    }

    // Keeps a key for its next use, unless there is too little room for it even when all keys have
    // left that are used later than that.
    fn keep(&mut self, next: usize, charge: u64) -> Result<(), AllocError> {
        if charge > self.capacity {
            return Ok(());
        }
        while self.room < charge {
            if !self.let_go(next) {
                return Ok(());
            }
        }
        self.room -= charge;
        self.mark(next, true);
        self.latest.push((next, charge))?;
        Ok(())
    }

    // Lets go of the key that is used latest, if that is later than `next`. Returns whether it is.
    fn let_go(&mut self, next: usize) -> bool
        ensures { IsTrue result → heap_len self.new.latest + 1 ≡ heap_len self.old.latest }
    {
        match self.latest.peek() {
            Some((latest, _)) if *latest > next => {}
            _ => return false,
        }
        let Some((latest, charge)) = self.latest.pop() else {
            return false;
        };
        self.mark(latest, false);
        self.room = self.room.saturating_add(charge);
        true
    }

    fn mark(&mut self, place: usize, is_kept: bool)
        ensures { self.new.latest ≡ self.old.latest }
    {
        if let Some(mark) = self.is_kept.get_mut(place) {
            *mark = is_kept;
        }
    }
}
