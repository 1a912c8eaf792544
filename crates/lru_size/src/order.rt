//! Other orders in which a cache evicts, beside the one that the curve is of.

use crate::clock;
use crate::failure::Failure;
use crate::optimum::NextUses;
use crate::trace::Trace;
use std::alloc::Global;
use std::sync::Wait;

/// An order in which a cache evicts, other than the exact LRU order.
#[derive(Clone, Copy, Debug, PartialEq, Eq)]
pub enum Order {
    /// That of `lru_clock`.
    Clock,
    /// Belady's optimum: what is used again latest, or never, leaves first.
    Optimum,
}

impl Order {
    /// Returns the name of the order: the option that asks for it, and the start of its columns.
    pub fn name(self) -> &'static str {
        match self {
            Order::Clock => "clock",
            Order::Optimum => "optimum",
        }
    }
}

/// The hits of a trace at a capacity in other orders, as far as they are asked for.
#[derive(Clone, Copy, Default)]
pub struct OtherHits {
    clock: Option<u64>,
    optimum: Option<u64>,
}

impl OtherHits {
    /// Returns the number of uses that hit in an order, or `None` if it is not asked for.
    pub fn of(self, order: Order) -> Option<u64> {
        match order {
            Order::Clock => self.clock,
            Order::Optimum => self.optimum,
        }
    }
}

/// Replays a trace in other orders.
#[derive(Drop)]
pub struct Replays<'a, W> {
    alloc: Global,
    wait: &'a W,
    trace: &'a Trace,
    replays_clock: bool,
    // Present if the optimum is asked for.
    next_uses: Option<NextUses>,
}

impl<'a, W: Wait> Replays<'a, W> {
    /// Prepares replays of `trace` in each of `orders`.
    ///
    /// # Errors
    ///
    /// `OutOfMemory` if memory runs out.
    pub fn new(
        alloc: Global,
        wait: &'a W,
        trace: &'a Trace,
        orders: &[Order],
    ) -> Result<Replays<'a, W>, Failure> {
        let next_uses = if orders.contains(&Order::Optimum) {
            Some(NextUses::new(alloc, &trace.uses)?)
        } else {
            None
        };
        Ok(Replays {
            alloc,
            wait,
            trace,
            replays_clock: orders.contains(&Order::Clock),
            next_uses,
        })
    }

    /// Replays the trace at a capacity.
    ///
    /// # Errors
    ///
    /// `OutOfMemory` if memory runs out, and `Overflow` if the charges of the keys add up to more
    /// than `u64::MAX`.
    pub fn hits(&self, capacity: u64) -> Result<OtherHits, Failure> {
        let mut hits = OtherHits::default();
        if self.replays_clock {
            hits.clock = Some(clock::hits(self.alloc, self.wait, self.trace, capacity)?);
        }
        if let Some(next_uses) = &self.next_uses {
            hits.optimum = Some(next_uses.hits(self.alloc, capacity)?);
        }
        Ok(hits)
    }
}
