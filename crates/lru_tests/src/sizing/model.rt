//! Plain models to compare with: a list of the resident keys, and sums by definition. Compares a
//! trace with them at given capacities.

use lru_sizing::curve::Curve;
use lru_sizing::refusal::Refusal;
use lru_sizing::replay::{has_charges, replay};
use lru_sizing::reuse_weights::reuse_weights;
use std::alloc::{AllocError, Global};

// The resident keys with their charges, least recently used first, and the sum of the charges.
#[derive(Drop)]
struct Resident {
    keys: Vec<(u64, u64)>,
    sum: u64,
}

impl Resident {
    // Uses a key, and drops the oldest keys while the charges exceed the capacity. Returns whether
    // the key was resident.
    fn use_once(&mut self, used: (u64, u64), capacity: u64) -> Result<bool, AllocError> {
        let place = self.keys.iter().position(|other| other.0 == used.0);
        if let Some(place) = place {
            self.remove(place);
        }
        self.keys.push(used)?;
        self.sum = self.sum.saturating_add(used.1);
        self.shrink(capacity);
        Ok(place.is_some())
    }

    fn shrink(&mut self, capacity: u64) {
        for _ in 0..self.keys.len() {
            if self.sum <= capacity {
                break;
            }
            self.remove(0);
        }
    }

    // Removes the key at a place, if there is one.
    fn remove(&mut self, place: usize) {
        if place < self.keys.len() {
            let (_, charge) = self.keys.remove(place);
            self.sum = self.sum.saturating_sub(charge);
        }
    }
}

// Returns whether each use of a trace hits at a capacity, by a list of the resident keys.
fn hits_of_a_list(
    alloc: Global,
    trace: &[(u64, u64)],
    capacity: u64,
) -> Result<Vec<bool>, AllocError> {
    let mut resident = Resident {
        keys: Vec::new(alloc),
        sum: 0,
    };
    let mut hits = Vec::new(alloc);
    for used in trace {
        hits.push(resident.use_once(*used, capacity)?)?;
    }
    Ok(hits)
}

/// Returns the reuse weight of the use at an index, by its definition.
pub(crate) fn weight_by_definition(
    alloc: Global,
    trace: &[(u64, u64)],
    place: usize,
) -> Result<Option<u64>, AllocError> {
    let mut since: Vec<u64> = Vec::new(alloc);
    let mut sum = 0u64;
    let Some((key, own)) = trace.get(place) else {
        return Ok(None);
    };
    for (other, charge) in trace.iter().take(place).rev() {
        if other == key {
            return Ok(Some(sum.saturating_add(*own)));
        }
        if !since.contains(other) {
            since.push(*other)?;
            sum = sum.saturating_add(*charge);
        }
    }
    Ok(None)
}

/// Returns the first of these capacities at which the curve, the replay and the list of resident
/// keys do not agree on a trace, if there is one.
pub(crate) fn first_difference(
    alloc: Global,
    trace: &[(u64, u64)],
    capacities: &[u64],
) -> Result<Option<u64>, Refusal> {
    let weights = reuse_weights(alloc, trace)?;
    if weights.len() != trace.len() {
        return Ok(Some(0));
    }
    let curve = Curve::new(alloc, trace, &weights)?;
    for capacity in capacities {
        if differs(alloc, trace, &curve, *capacity)? {
            return Ok(Some(*capacity));
        }
    }
    Ok(None)
}

// Returns whether they do not agree at a capacity, or the trace has no charges.
fn differs(
    alloc: Global,
    trace: &[(u64, u64)],
    curve: &Curve,
    capacity: u64,
) -> Result<bool, Refusal> {
    if !has_charges(trace) {
        return Ok(true);
    }
    let run = replay(alloc, trace, capacity)?;
    let hits = hits_of_a_list(alloc, trace, capacity)?;
    Ok(run != hits || !is_told(curve, trace, &hits, capacity))
}

// Returns whether a curve has, at a capacity, the numbers that follow from these hits.
fn is_told(curve: &Curve, trace: &[(u64, u64)], hits: &[bool], capacity: u64) -> bool {
    let mut count = 0usize;
    let mut made = 0u128;
    for ((_, charge), hit) in trace.iter().zip(hits) {
        if *hit {
            count = count.saturating_add(1);
        } else {
            made = made.saturating_add(u128::from(*charge));
        }
    }
    let least = curve.least_capacity(count);
    let is_least = matches!(least, Some(least) if least <= capacity && curve.hits(least) >= count);
    let is_counted = curve.hits(capacity) == count
        && curve.misses(capacity) == trace.len().saturating_sub(count)
        && curve.charge_made(capacity) == made
        && curve.most_hits() >= count;
    is_least && is_counted
}
