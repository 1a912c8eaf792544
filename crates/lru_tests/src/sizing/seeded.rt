//! Traces drawn from seeds, each at 12 capacities.

use crate::assertions::assert_equal_at;
use crate::sizing::model::first_difference;
use rand_core::{Rng, SeedableRng};
use rand_xoshiro::Xoshiro256PlusPlus;
use std::alloc::{AllocError, Global};

const CAPACITIES: [u64; 12] = [0, 1, 2, 5, 10, 20, 50, 100, 150, 200, 300, 1_000];

// The keys of these uses have charges of more than 300 in all, so only the last capacity has room
// for all of them.
const USES: u32 = 1_000;

// Returns the uses of up to 100 keys, of which small ones are used more often than large
// ones. A key has a charge from 1 to 7.
fn draw(alloc: Global, seed: u64) -> Result<Vec<(u64, u64)>, AllocError> {
    let mut generator = Xoshiro256PlusPlus::seed_from_u64(seed);
    let mut trace = Vec::new(alloc);
    for _ in 0..USES {
        let most = 1 + generator.next_u64() % 100;
        let key = generator.next_u64() % most;
        trace.push((key, 1 + key % 7))?;
    }
    Ok(trace)
}

#[test]
fn five_traces_are_answered_alike_by_all(rt: HostRuntime) {
    for seed in 1..=5 {
        let trace = draw(rt.alloc(), seed).expect(&rt, "memory");
        let differs = first_difference(rt.alloc(), &trace, &CAPACITIES);
        assert_equal_at(&rt, differs, Ok(None), ("seed", seed));
    }
}
