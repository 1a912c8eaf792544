//! Estimates of the hits at every capacity from a sample of the keys, for traces that outgrow
//! memory. No clause states how near an estimate is.
//!
//! Keys are sampled at a fixed rate by a hash of the key, so a sampled key keeps all its uses. A
//! reuse weight in the sample is scaled by the rate, and so is a count of misses. Misses are scaled
//! and hits are the rest, because a scaled count of hits would depend on whether a few hot keys are
//! in the sample.

ghost use Rattle.std.specs.Prelude.{◌≡◌, ◌<◌, ℕ, max, IfOk, IfErr, OnOk, MatchOption, length, vec_len, map};
ghost use Rattle.concurrent_lru.specs.Uses.{HaveOneCharge};
ghost use Rattle.lru_sizing.specs.Curves.{IsLeastFor};
ghost use Rattle.lru_sizing.specs.Estimates.{is_sampled, estimated_misses, estimated_hits, estimated_charge_made, scaled_weight, scaled, IsEstimateOf};
ghost use Rattle.lru_sizing.specs.RefusedTraces.{IsRefusedFor};

use crate::curve::Curve;
use crate::refusal::Refusal;
use crate::reuse_weights::reuse_weights;
use std::alloc::{AllocError, Global};
use std::hash::{DefaultHasher, Hash, Hasher};
use std::marker::Model;

/// The rate at which keys are sampled.
#[derive(Clone, Copy, Debug, PartialEq, Eq)]
pub struct Sample {
    /// About one key in this many is sampled.
    pub one_in: u64,
    ghost some: { 0 < one_in },
}

impl Sample {
    /// Samples about one key in `one_in`, or all of them if that is 1 or 0.
    pub fn one_in(one_in: u64) -> Sample
        ensures { result.one_in ≡ max one_in 1 }
    {
        Sample {
            one_in: one_in.max(1),
        }
    }

    /// Returns whether a key is sampled. Only its hash decides that, so the result is the same for
    /// equal keys, in any run.
    pub fn takes<K: Hash>(&self, key: &K) -> bool
        ensures { result ≡ is_sampled self.now.one_in (K.hash_input key.now) }
    {
        let mut hasher = DefaultHasher::new();
        key.hash(&mut hasher);
        hasher.finish() % self.one_in == 0
    }
}

/// An estimate of the hits of a trace at every capacity, from the uses of the sampled keys.
///
/// Clauses see the sampling rate, the number of uses, and the curve of the sampled uses
/// (`EstimatedCurve` of specs/Estimates.antt): they state what is estimated, not how near that is.
#[derive(Drop)]
pub struct Estimate {
    sample: Sample,
    uses: u64,
    sampled: Curve,
}

impl Model for Estimate {
    ghost use Rattle.lru_sizing.specs.Estimates.{EstimatedCurve, estimated_curve_code};

    ghost Value = { EstimatedCurve };

    ghost coded = { estimated_curve_code };

    ghost view = { λ a. record { one_in = a.sample.one_in; uses = a.uses; sampled = a.sampled } };
}

impl Estimate {
    /// Creates an estimate from the uses whose keys are sampled, in order, and the number of uses
    /// in the whole trace.
    ///
    /// Returns the errors of `reuse_weights` on the sampled uses; their indices are among these.
    pub fn new<K: Hash + Eq>(
        alloc: Global,
        sample: Sample,
        sampled: &[(K, u64)],
        uses: u64,
    ) -> Result<Estimate, Refusal>
        ensures estimate { IfOk result (IsEstimateOf K.eq sample.one_in sampled.now uses) }
        ensures charged { OnOk result (HaveOneCharge K.eq sampled.now) }
        ensures err { IfErr result (λ e. IsRefusedFor K.eq sampled.now e) }
    {
        let weights = reuse_weights(alloc, sampled)?;
        let scaled = scale_weights(alloc, sample, sampled, &weights)?;
        let sampled = Curve::new(alloc, sampled, &scaled)?;
        Ok(Estimate {
            sample,
            uses,
            sampled,
        })
    }

    /// Returns the number of uses in the whole trace.
    pub fn uses(&self) -> u64
        ensures { result ≡ self.now.uses }
    {
        self.uses
    }

    /// Returns an estimate of the number of uses that miss at this capacity.
    pub fn misses(&self, capacity: u64) -> u64
        ensures { result ≡ estimated_misses capacity self.now }
    {
        let misses = self.sampled.misses(capacity) as u64;
        misses.saturating_mul(self.sample.one_in).min(self.uses)
    }

    /// Returns an estimate of the number of uses that hit at this capacity.
    pub fn hits(&self, capacity: u64) -> u64
        ensures { result ≡ estimated_hits capacity self.now }
    {
        self.uses.saturating_sub(self.misses(capacity))
    }

    /// Returns an estimate of the number of uses that hit if the capacity is large enough for all
    /// keys.
    pub fn most_hits(&self) -> u64
        ensures { result ≡ estimated_hits u64.MAX self.now }
    {
        self.hits(u64::MAX)
    }

    /// Returns an estimate of the sum of the charges of the uses that miss at this capacity.
    pub fn charge_made(&self, capacity: u64) -> u128
        ensures { result ≡ estimated_charge_made capacity self.now }
    {
        let made = self.sampled.charge_made(capacity);
        made.saturating_mul(u128::from(self.sample.one_in))
    }

    /// Returns the least capacity at which `hits` returns this many or more, or `None` if there is
    /// none.
    pub fn least_capacity(&self, hits: u64) -> Option<u64>
        ensures { MatchOption result ((capacity : ℕ) → estimated_hits capacity self.now < hits)
            (IsLeastFor hits (λ capacity. estimated_hits capacity self.now)) }
    {
        if hits == 0 {
            return Some(0);
        }
        let misses = self.uses.checked_sub(hits)? / self.sample.one_in;
        let uses = self.sampled.uses() as u64;
        self.sampled
            .least_capacity(uses.saturating_sub(misses) as usize)
    }
}

// Scales each of these reuse weights in the sample.
fn scale_weights<K>(
    alloc: Global,
    sample: Sample,
    sampled: &[(K, u64)],
    weights: &[Option<u64>],
) -> Result<Vec<Option<u64>>, AllocError>
    requires { length sampled.now ≡ length weights.now }
    ensures scaled { IfOk result (λ r. r.items ≡ scaled sample.one_in (map (λ u. u.1) sampled.now)
        weights.now) }
    ensures len { IfOk result (λ r. vec_len r ≡ length weights.now) }
{
    let mut scaled = Vec::new(alloc);
    for (place, weight) in weights.iter().enumerate() {
        let own = sampled[place].1;
        scaled.push(weight.map(|weight| scaled_weight(sample, own, weight)))?;
    }
    Ok(scaled)
}

// Scales a reuse weight in the sample: the charges of the other keys are scaled, and the use's own
// is not, since its key is sampled. The result saturates.
fn scaled_weight(sample: Sample, own: u64, weight: u64) -> u64
    ensures { result ≡ scaled_weight sample.one_in own weight }
{
    let others = weight.saturating_sub(own);
    others.saturating_mul(sample.one_in).saturating_add(own)
}
