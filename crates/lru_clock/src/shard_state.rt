//! The state that the lock of a shard protects.
ghost use Rattle.std.specs.Prelude.{◌≡◌, [], sum_by, cond, IfOk, Some, None};
ghost use Rattle.lru_clock.specs.Evictions.{arrived, passed, charge_at, tag_at};
ghost use Rattle.lru_clock.specs.Evictions.{is_above, refuses};
ghost use Rattle.lru_clock.specs.Orders.{left};
ghost use Rattle.std.proofs.Math.ListN.{set};
ghost use Rattle.lru_clock.specs.Seats.{seat};

use crate::makings::Makings;
use crate::order::Order;
use crate::store::{Left, Seats, Taken};
use concurrent_lru::fit::Fit;
use std::alloc::{AllocError, Global};
use std::fmt;

/// Counts of what calls did under the locks since the cache was created or the counts were last
/// reset. A count that passes `u64::MAX` starts again at 0.
///
/// Hits are not counted: a counter that all threads write would cost a hit as much as a lock.
#[derive(Clone, Copy, PartialEq, Eq, Debug, Default)]
pub struct Counts {
    /// Values that loaders made and that were stored.
    pub makings: u64,
    /// Loaders that failed, and values that loaders made and the cache refused.
    pub failures: u64,
    /// Values that `insert` stored.
    pub insertions: u64,
    /// Entries removed: evicted, or invalidated and no longer pinned.
    pub evictions: u64,
    /// Calls that waited for a value that another caller was making.
    pub waits: u64,
}

impl Counts {
    /// Returns the sums of two caches' counts.
    pub fn wrapping_add(self, other: Counts) -> Counts {
        Counts {
            makings: self.makings.wrapping_add(other.makings),
            failures: self.failures.wrapping_add(other.failures),
            insertions: self.insertions.wrapping_add(other.insertions),
            evictions: self.evictions.wrapping_add(other.evictions),
            waits: self.waits.wrapping_add(other.waits),
        }
    }
}

/// The numbers of a shard at one moment under its lock.
#[derive(Clone, Copy)]
pub struct Numbers {
    /// The capacity.
    pub capacity: u64,
    /// The sum of the charges.
    pub total: u64,
    /// The number of entries.
    pub entries: usize,
    /// The counts.
    pub counts: Counts,
}

/// The state that the lock of a shard protects.
#[derive(Drop)]
pub struct ShardState<K: Eq> {
    pub capacity: u64,
    /// Whether the capacity is a strict limit.
    pub is_strict: bool,
    pub seats: Seats<K>,
    pub makings: Makings<K>,
    pub counts: Counts,
    pub order: Order,
}

impl<K: Eq + Drop> ShardState<K> {
    /// Creates the state of a shard without entries, whose limit is not strict.
    ///
    /// Returns `AllocError` if the allocator refuses.
    pub fn new(alloc: Global, capacity: u64) -> Result<Self, AllocError>
        ensures { IfOk result (λ state. (state.capacity ≡ capacity) × (state.seats ≡ [])) }
    {
        Ok(ShardState {
            capacity,
            is_strict: false,
            seats: Seats::new(alloc)?,
            makings: Makings::new(alloc),
            counts: Counts::default(),
            order: Order::new(alloc, capacity),
        })
    }

    /// Returns the numbers of the shard.
    pub fn numbers(&self) -> Numbers
        ensures capacity { result.capacity ≡ self.now.capacity }
        ensures total { result.total ≡ sum_by (λ seat. seat.charge) self.now.seats }
        ensures counts { result.counts ≡ self.now.counts }
    {
        Numbers {
            capacity: self.capacity,
            total: self.seats.total(),
            entries: self.seats.entries(),
            counts: self.counts,
        }
    }

    /// Returns whether another charge would take the total above the capacity, so that entries must
    /// be evicted. If the total would not fit a `u64`, nothing is evicted: the charge will be
    /// refused.
    pub fn is_above(&self, charge: u64) -> bool
        ensures { result ≡ is_above self.now.capacity self.now.seats charge }
    {
        match self.seats.total().checked_add(charge) {
            Some(total) => total > self.capacity,
            None => false,
        }
    }

    /// Returns whether a strict limit refuses another charge, since it would take the total above
    /// the capacity. A limit that is not strict refuses none.
    pub fn refuses(&self, charge: u64, is_strict: bool) -> bool
        ensures { result ≡ refuses is_strict self.now.capacity self.now.seats charge }
    {
        is_strict && self.is_above(charge)
    }

    /// Vacates the seat of an entry that was taken out of its slot, and counts an eviction. The
    /// entry has a ghost only if the hands evicted it and the index had it.
    #[inline(always)]
    pub(crate) fn vacate<'a, V: Drop, F: Fit<K, V>>(
        &mut self,
        taken: Taken<'a, K, V, F>,
        is_evicted: bool,
    ) -> Left<'a, K, V, F>
        ensures book { result ≡ Some taken.entry.claimed.book }
        ensures seats { self.new.seats ≡ set self.old.seats taken.entry.place (seat 0 0 None) }
        ensures order { self.new.order
            ≡ left taken.entry.place (charge_at self.old.seats taken.entry.place)
            (cond is_evicted (tag_at self.old.seats taken.entry.place) None) self.old.order }
        ensures capacity { self.new.capacity ≡ self.old.capacity }
        ensures makings { self.new.makings ≡ self.old.makings }
    {
        let place = taken.place();
        let tag = if is_evicted {
            self.seats.listed_tag(place)
        } else {
            None
        };
        self.order.leave(place, self.seats.charge_at(place), tag);
        self.counts.evictions = self.counts.evictions.wrapping_add(1);
        self.seats.vacate(taken)
    }

    /// The entry at a place, which was just stored, takes its place in the order.
    #[inline(always)]
    pub(crate) fn come(&mut self, place: u32)
        ensures { self.new ≡ record self.old {
          order = arrived self.old.seats place self.old.capacity self.old.order;
        } }
    {
        let charge = self.seats.charge_at(place);
        let tag = self.seats.listed_tag(place);
        self.order.come(place, charge, tag, self.capacity);
    }

    /// The entry at a place has passed its trial.
    pub(crate) fn end_trial(&mut self, place: u32)
        ensures { self.new
            ≡ record self.old { order = passed self.old.seats place self.old.order } }
    {
        self.order.end_trial(place, self.seats.charge_at(place));
    }

    /// Sets the capacity, and the border for it.
    pub fn set_capacity(&mut self, capacity: u64)
        ensures capacity { self.new.capacity ≡ capacity }
        ensures seats { self.new.seats ≡ self.old.seats }
    {
        self.capacity = capacity;
        self.order.set_capacity(capacity);
    }
}
