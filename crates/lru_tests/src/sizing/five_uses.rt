//! Every trace of five uses of three keys, at every capacity up to one more than that of all keys.

use crate::assertions::assert_equal_at;
use crate::sizing::model::{first_difference, weight_by_definition};
use lru_sizing::reuse_weights::reuse_weights;
use std::alloc::Global;
use std::process::Abort;

// The charges of the three keys.
const CHARGES: [u64; 3] = [1, 2, 4];

const CAPACITIES: [u64; 9] = [0, 1, 2, 3, 4, 5, 6, 7, 8];

// Returns one of the 243 traces.
fn five_uses(mut number: u64) -> [(u64, u64); 5] {
    let mut uses = [(0, 0); 5];
    for used in &mut uses {
        let key = number % 3;
        *used = (key, CHARGES[key as usize]);
        number /= 3;
    }
    uses
}

// Compares the reuse weights of a trace with those by definition.
fn has_weights(rt: &impl Abort, alloc: Global, trace: &[(u64, u64)]) {
    let weights = reuse_weights(alloc, trace).expect(rt, "no refusal");
    for (place, weight) in weights.iter().enumerate() {
        let wanted = weight_by_definition(alloc, trace, place).expect(rt, "memory");
        assert_equal_at(rt, *weight, wanted, (trace, place));
    }
}

#[test]
fn five_uses_are_answered_alike_by_all(rt: HostRuntime) {
    for number in 0..243 {
        let trace = five_uses(number);
        has_weights(&rt, rt.alloc(), &trace);
        let differs = first_difference(rt.alloc(), &trace, &CAPACITIES);
        assert_equal_at(&rt, differs, Ok(None), trace);
    }
}
