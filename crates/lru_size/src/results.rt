//! What the program has counted.

use crate::failure::Failure;
use crate::hit_curve::HitCurve;
use crate::order::{Order, OtherHits, Replays};
use crate::scale::fraction;
use std::alloc::{AllocError, Global};
use std::sync::Wait;

// The number of the table's rows if the capacities are evenly spaced.
const ROWS: u64 = 10;

/// What the program has counted.
#[derive(Drop)]
pub struct Results {
    /// The hits in the exact LRU order.
    pub curve: HitCurve,
    /// The other orders.
    pub orders: Vec<Order>,
    /// The hits at each of the table's capacities.
    pub rows: Vec<Row>,
    /// Whether all uses have the same charge.
    pub has_one_charge: bool,
}

impl Results {
    /// Returns whether the optimum is among the orders, but ignores charges that differ.
    pub fn ignore_charges(&self) -> bool {
        !self.has_one_charge && self.orders.contains(&Order::Optimum)
    }
}

/// The hits at a capacity.
#[derive(Clone, Copy)]
pub struct Row {
    /// The capacity, in units of charge.
    pub capacity: u64,
    /// The number of uses that hit in the exact LRU order.
    pub hits: u64,
    /// The sum of the charges of the uses that miss in the exact LRU order.
    pub charge_made: u128,
    /// The number of uses that hit in other orders.
    pub others: OtherHits,
}

impl Row {
    /// Returns the row of a capacity.
    pub fn new(curve: &HitCurve, capacity: u64, others: OtherHits) -> Row {
        Row {
            capacity,
            hits: curve.hits(capacity),
            charge_made: curve.charge_made(capacity),
            others,
        }
    }
}

/// Returns a row for each of the capacities, or for ten evenly spaced ones if there are none.
///
/// # Errors
///
/// Those of `Replays::hits`.
pub fn rows<W: Wait>(
    alloc: Global,
    curve: &HitCurve,
    replays: &Replays<'_, W>,
    capacities: &[u64],
) -> Result<Vec<Row>, Failure> {
    if capacities.is_empty() {
        rows_at(alloc, curve, replays, &evenly_spaced(alloc, curve, ROWS)?)
    } else {
        rows_at(alloc, curve, replays, capacities)
    }
}

fn rows_at<W: Wait>(
    alloc: Global,
    curve: &HitCurve,
    replays: &Replays<'_, W>,
    capacities: &[u64],
) -> Result<Vec<Row>, Failure> {
    let mut rows = Vec::new(alloc);
    for capacity in capacities {
        rows.push(Row::new(curve, *capacity, replays.hits(*capacity)?))?;
    }
    Ok(rows)
}

/// Returns `count` evenly spaced capacities, the last of which is the least with the greatest hit
/// ratio. Returns fewer if that capacity is less than `count`.
///
/// # Errors
///
/// `AllocError` if memory runs out.
pub fn evenly_spaced(alloc: Global, curve: &HitCurve, count: u64) -> Result<Vec<u64>, AllocError> {
    let full = curve.full_capacity();
    let mut capacities = Vec::new(alloc);
    let mut previous = 0;
    for part in 1..=count {
        let capacity = fraction(full, part, count);
        if capacity != previous {
            capacities.push(capacity)?;
            previous = capacity;
        }
    }
    Ok(capacities)
}
