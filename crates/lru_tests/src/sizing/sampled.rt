//! Estimates from a sample of the keys, compared with the one from all keys, which is exact, of a
//! trace whose keys are used according to Zipf's law: the k-th about 1/k times as often as the
//! first.

use lru_sizing::estimate::{Estimate, Sample};
use lru_sizing::refusal::Refusal;
use rand_core::{Rng, SeedableRng};
use rand_xoshiro::Xoshiro256PlusPlus;
use std::alloc::{AllocError, Global};

const KEYS: u64 = 10_000;

const USES: u64 = 50_000;

// Returns for each key how often it and those before it are used, out of the last of these numbers.
fn shares(alloc: Global) -> Result<Vec<u64>, AllocError> {
    let mut sum = 0u64;
    let mut shares = Vec::new(alloc);
    for key in 1..=KEYS {
        sum = sum.saturating_add((1 << 32) / key.max(1));
        shares.push(sum)?;
    }
    Ok(shares)
}

// Returns uses by Zipf's law. A key has a charge from 1 to 4.
fn zipf(alloc: Global, seed: u64) -> Result<Vec<(u64, u64)>, AllocError> {
    let shares = shares(alloc)?;
    let all = shares.last().copied().unwrap_or(1).max(1);
    let mut generator = Xoshiro256PlusPlus::seed_from_u64(seed);
    let mut trace = Vec::new(alloc);
    for _ in 0..USES {
        let drawn = generator.next_u64() % all;
        let key = shares.partition_point(|share| *share <= drawn) as u64;
        trace.push((key, 1 + key % 4))?;
    }
    Ok(trace)
}

// Returns the estimate from one key in `one_in`.
fn estimate_of(alloc: Global, trace: &[(u64, u64)], one_in: u64) -> Result<Estimate, Refusal> {
    let sample = Sample::one_in(one_in);
    let mut sampled = Vec::new(alloc);
    for used in trace {
        if sample.takes(&used.0) {
            sampled.push(*used)?;
        }
    }
    Ok(Estimate::new(alloc, sample, &sampled, trace.len() as u64)?)
}

// Returns the error of an estimate, in uses per 10,000: the mean over 20 capacities, and the
// maximum.
fn errors(exact: &Estimate, estimate: &Estimate) -> (u64, u64) {
    let (mut sum, mut most) = (0u64, 0u64);
    for step in 1..=20u64 {
        let capacity = step * 1_250;
        let difference = estimate.hits(capacity).abs_diff(exact.hits(capacity));
        let wrong = difference.saturating_mul(10_000) / USES;
        sum = sum.saturating_add(wrong);
        most = most.max(wrong);
    }
    (sum / 20, most)
}

#[test]
fn are_near_the_exact_curve(rt: HostRuntime) {
    for seed in 1..=3 {
        let trace = zipf(rt.alloc(), seed).expect(&rt, "memory");
        let exact = estimate_of(rt.alloc(), &trace, 1).expect(&rt, "no refusal");
        let estimate = estimate_of(rt.alloc(), &trace, 10).expect(&rt, "no refusal");
        let (mean, most) = errors(&exact, &estimate);
        assert!(rt;
            mean <= 100 && most <= 200,
            "seed {seed}: {mean} and {most} in 10,000"
        );
    }
}
