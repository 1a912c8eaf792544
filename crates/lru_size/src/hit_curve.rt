//! The hits of a trace at every capacity.

use crate::scale::fraction_ceil;
use lru_sizing::curve::Curve;
use lru_sizing::estimate::Estimate;

/// The hits of a trace at every capacity, counted or estimated.
#[derive(Drop)]
pub enum HitCurve {
    /// Counted in the uses of all keys.
    Exact(Curve),
    /// Estimated from the uses of a sample of the keys.
    Estimated(Estimate),
}

impl HitCurve {
    /// Returns the number of uses in the trace.
    pub fn uses(&self) -> u64 {
        match self {
            HitCurve::Exact(curve) => curve.uses() as u64,
            HitCurve::Estimated(estimate) => estimate.uses(),
        }
    }

    /// Returns the number of uses that hit at a capacity.
    pub fn hits(&self, capacity: u64) -> u64 {
        match self {
            HitCurve::Exact(curve) => curve.hits(capacity) as u64,
            HitCurve::Estimated(estimate) => estimate.hits(capacity),
        }
    }

    /// Returns the sum of the charges of the uses that miss at a capacity.
    pub fn charge_made(&self, capacity: u64) -> u128 {
        match self {
            HitCurve::Exact(curve) => curve.charge_made(capacity),
            HitCurve::Estimated(estimate) => estimate.charge_made(capacity),
        }
    }

    /// Returns the number of uses that hit if the capacity is large enough for all keys.
    pub fn most_hits(&self) -> u64 {
        match self {
            HitCurve::Exact(curve) => curve.most_hits() as u64,
            HitCurve::Estimated(estimate) => estimate.most_hits(),
        }
    }

    /// Returns the least capacity at which at least `hits` uses hit, or `None` if there is none.
    pub fn least_capacity(&self, hits: u64) -> Option<u64> {
        match self {
            HitCurve::Exact(curve) => curve.least_capacity(hits as usize),
            HitCurve::Estimated(estimate) => estimate.least_capacity(hits),
        }
    }

    /// Returns the least capacity with the greatest hit ratio: a larger one has no more hits.
    pub fn full_capacity(&self) -> u64 {
        self.least_capacity(self.most_hits()).unwrap_or(0)
    }

    /// Returns the least capacity with at least `percent` percent of the greatest hit ratio.
    /// `percent` is at most 100.
    ///
    /// Returns `None` if that would be the capacity 0, at which no use hits: then no use hits at
    /// any capacity, or the curve is estimated from too small a sample to tell.
    pub fn knee(&self, percent: u64) -> Option<u64> {
        let hits = fraction_ceil(self.most_hits(), percent, 100);
        self.least_capacity(hits).filter(|capacity| *capacity > 0)
    }
}
