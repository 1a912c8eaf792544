//! Traces that are refused, and the text of each refusal.

use crate::assertions::{assert_equal, assert_equal_at};
use lru_sizing::curve::Curve;
use lru_sizing::refusal::Refusal;
use lru_sizing::replay::{has_charges, replay};
use lru_sizing::reuse_weights::reuse_weights;
use std::alloc::Global;

// Returns the curve of a trace, or its refusal.
fn curve_of(alloc: Global, trace: &[(u64, u64)]) -> Result<Curve, Refusal> {
    let weights = reuse_weights(alloc, trace)?;
    if weights.len() != trace.len() {
        return Err(Refusal::Overflow(usize::MAX));
    }
    Ok(Curve::new(alloc, trace, &weights)?)
}

// Returns how the replay of a trace at a capacity is refused, if it is.
fn refusal_of_replay(alloc: Global, trace: &[(u64, u64)], capacity: u64) -> Option<Refusal> {
    if has_charges(trace) {
        replay(alloc, trace, capacity).err()
    } else {
        None
    }
}

// A replay is refused for a sum only if the cache would hold the keys whose charges pass the end.
#[test]
fn refusals_name_the_uses(rt: HostRuntime) {
    let past_the_end = [(1, u64::MAX), (1, u64::MAX), (2, 1)];
    let two_charges = [(1, 2), (2, 5), (1, 2), (2, 5), (1, 3)];
    let cases = [
        (&past_the_end[..], Refusal::Overflow(2)),
        (&two_charges[..], Refusal::TwoCharges(2, 4)),
    ];
    for (trace, refusal) in cases {
        let of_curve = curve_of(rt.alloc(), trace).err();
        assert_equal_at(&rt, of_curve, Some(refusal), trace);
        let of_replay = refusal_of_replay(rt.alloc(), trace, u64::MAX);
        assert_equal_at(&rt, of_replay, Some(refusal), trace);
    }
    assert_equal(&rt, refusal_of_replay(rt.alloc(), &past_the_end, 7), None);
}

#[test]
fn refusals_are_told_in_words(rt: HostRuntime) {
    let cases = [
        (Refusal::Memory, "there is no memory"),
        (
            Refusal::Overflow(4),
            "the charges of the keys up to use 4 pass u64::MAX",
        ),
        (
            Refusal::TwoCharges(2, 4),
            "uses 2 and 4 of one key have two charges",
        ),
    ];
    for (refusal, text) in cases {
        let told = format!(in rt.alloc(); "{refusal}").expect(&rt, "memory");
        assert_equal(&rt, told.as_str(), text);
    }
}
