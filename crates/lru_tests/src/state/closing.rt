//! A cache that is closed while there are still pins.

use crate::assertions::assert_equal;
use crate::state::makes::hold;
use concurrent_lru::lru_core::{Evicted, Refusal, State};
use std::alloc::{AllocError, Global};
use std::sync::Arc;

// Returns a cache whose keys 1 and 2 are idle, 2 the older, and whose keys 3 to 5 are held: 3 is
// ready, 4 is ready and detached, and 5 is being made. A key and its value are one above the stamp.
fn with_five(alloc: Global) -> Result<State<u64, u64>, Refusal> {
    let mut state = State::new(alloc, 100);
    for key in 1..=4 {
        hold(&mut state, &key, 1, Arc::new(alloc, key)?)?;
    }
    for stamp in [1, 0] {
        drop(state.release(stamp)?);
    }
    drop(state.invalidate(&4));
    drop(state.begin(&5, 1)?);
    Ok(state)
}

// Returns the stamp, the key and the value of each entry.
fn listed(alloc: Global, taken: Evicted<u64, u64>) -> Result<Vec<(u64, u64, u64)>, AllocError> {
    let mut all = Vec::new(alloc);
    for gone in taken {
        all.push((gone.stamp, gone.key, *gone.value))?;
    }
    Ok(all)
}

#[test]
fn every_value_is_taken_out(rt: HostRuntime) {
    let mut state = with_five(rt.alloc()).expect(&rt, "five entries");
    let mut taken = listed(rt.alloc(), state.take_all()).expect(&rt, "memory");
    let idle = [(1, 2, 2), (0, 1, 1)];
    assert_equal(&rt, taken.get(..2), Some(idle.as_slice()));
    // The order of the held ones is unspecified.
    taken.sort().expect(&rt, "memory");
    let all = [(0, 1, 1), (1, 2, 2), (2, 3, 3), (3, 4, 4)];
    assert_equal(&rt, taken.as_slice(), all.as_slice());
}
