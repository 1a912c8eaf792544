//! The number of hits at every capacity, and the charge that is made at it.
ghost use Rattle.std.specs.Prelude.{◌≡◌, ◌+◌, ◌<◌, ◌≤◌, ℕ, IfOk, MatchOption, length, map, sum};
ghost use Rattle.std.specs.List.Sorted.{IsPermutation, IsNonDecreasingBy};
ghost use Rattle.lru_sizing.specs.Curves.{hits_in, charge_made_in, reused, IsCurveOf, IsLeastFor};

use std::alloc::{AllocError, Global};
use std::marker::Model;

/// The reuse weights of a trace in ascending order, with the charge made that goes with each.
///
/// Clauses see the number of uses, these weights, and for each number of hits the charge that is
/// made for the other uses (`StepCurve` of specs/Curves.antt).
#[derive(Drop)]
pub struct Curve {
    uses: usize,
    weights: Vec<u64>,
    made: Vec<u128>,
}

impl Model for Curve {
    ghost use Rattle.lru_sizing.specs.Curves.{StepCurve, step_curve_code, IsStepCurve};

    ghost Value = { StepCurve };

    ghost coded = { step_curve_code };

    ghost view = { λ a. record { uses = a.uses; weights = a.weights.items; made = a.made.items } };

    ghost invariant = { λ a. IsStepCurve a.uses a.weights.items a.made.items };
}

impl Curve {
    /// Creates a curve from a trace and its reuse weights. Allocates for each use that is not the
    /// first of its key, and returns `AllocError` if the allocator refuses.
    pub fn new<K>(
        alloc: Global,
        trace: &[(K, u64)],
        weights: &[Option<u64>],
    ) -> Result<Curve, AllocError>
        requires { length trace.now ≡ length weights.now }
        ensures { IfOk result (IsCurveOf (map (λ u. u.1) trace.now) weights.now) }
    {
        let reused = reuses(alloc, trace, weights)?;
        let mut left = total_charge(trace);
        let mut weights_so_far = Vec::new(alloc);
        let mut made = Vec::new(alloc);
        made.push(left)?;
        for (weight, charge) in &reused {
            left -= u128::from(*charge);
            weights_so_far.push(*weight)?;
            made.push(left)?;
        }
        Ok(Curve {
            uses: trace.len(),
            weights: weights_so_far,
            made,
        })
    }

    /// Returns the number of uses in the trace.
    pub fn uses(&self) -> usize
        ensures { result ≡ self.now.uses }
    {
        self.uses
    }

    /// Returns the number of uses that hit at this capacity.
    pub fn hits(&self, capacity: u64) -> usize
        ensures { result ≡ hits_in capacity self.now }
    {
        self.weights.partition_point(|weight| *weight <= capacity)
    }

    /// Returns the number of uses that miss at this capacity.
    pub fn misses(&self, capacity: u64) -> usize
        ensures { result + hits_in capacity self.now ≡ self.now.uses }
    {
        self.uses - self.hits(capacity)
    }

    /// Returns the sum of the charges of the uses that miss at this capacity: what is made, for the
    /// first time or again. It may exceed `u64::MAX`.
    pub fn charge_made(&self, capacity: u64) -> u128
        ensures { result ≡ charge_made_in capacity self.now }
    {
        self.made[self.hits(capacity)]
    }

    /// Returns the number of uses that hit if the capacity is large enough for all keys: no
    /// capacity has more hits.
    pub fn most_hits(&self) -> usize
        ensures most { result ≡ length self.now.weights }
        ensures bound { (capacity : ℕ) → hits_in capacity self.now ≤ result }
    {
        self.weights.len()
    }

    /// Returns the least capacity with at least `hits` hits, or `None` if no capacity has so many.
    pub fn least_capacity(&self, hits: usize) -> Option<u64>
        ensures { MatchOption result (length self.now.weights < hits)
            (IsLeastFor hits (λ capacity. hits_in capacity self.now)) }
    {
        if hits == 0 {
            return Some(0);
        }
        self.weights.get(hits - 1).copied()
    }
}

// Returns the reuse weights of the uses that have one, each with the charge of the use, in
// ascending order.
fn reuses<K>(
    alloc: Global,
    trace: &[(K, u64)],
    weights: &[Option<u64>],
) -> Result<Vec<(u64, u64)>, AllocError>
    requires { length trace.now ≡ length weights.now }
    ensures permutation { IfOk result (λ r. IsPermutation
        (reused (map (λ u. u.1) trace.now) weights.now) r.items) }
    ensures rising { IfOk result (λ r. IsNonDecreasingBy (λ p. p.0) r.items) }
{
    let mut reused = Vec::new(alloc);
    for (place, weight) in weights.iter().enumerate() {
        if let Some(weight) = weight {
            reused.push((*weight, trace[place].1))?;
        }
    }
    reused.sort_unstable_by_key(|pair| pair.0);
    Ok(reused)
}

// Returns the sum of the charges of all uses, which cannot exceed a `u128`.
fn total_charge<K>(trace: &[(K, u64)]) -> u128
    ensures { result ≡ sum (map (λ u. u.1) trace.now) }
{
    let mut total = 0;
    for (_, charge) in trace {
        total += u128::from(*charge);
    }
    total
}
