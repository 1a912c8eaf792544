//! Many entries, and long chains of evicted ones: their drop frees each value once, and needs no
//! more stack than an ordinary thread has.

use crate::assertions::{assert_equal, assert_equal_at};
use crate::state::makes::{hold, make};
use concurrent_lru::lru_core::{Evicted, State};
use std::alloc::Global;
use std::cell::Cell;
use std::process::Abort;
use std::sync::Arc;

// More entries than the stack would hold if the drop were recursive.
const MANY: u64 = 100_000;

// A value with a position in the order of drops. Its drop is counted if those before it were
// dropped; otherwise nothing is counted any more.
struct InOrder<'a> {
    place: u64,
    dropped: &'a Cell<u64>,
}

impl Drop for InOrder<'_> {
    fn drop(self) {
        let Self { place, dropped } = self;
        if dropped.get() == place {
            dropped.set(place.wrapping_add(1));
        }
    }
}

// Makes all values, each at its position.
fn make_all<'a>(
    rt: &impl Abort,
    alloc: Global,
    state: &mut State<u64, InOrder<'a>>,
    dropped: &'a Cell<u64>,
) {
    for place in 0..MANY {
        let value = InOrder { place, dropped };
        let value = Arc::new(alloc, value).expect(rt, "memory for the value");
        assert_equal(rt, make(state, &place, 1, value), Ok(place));
    }
}

#[test]
fn a_long_chain_drops_its_values_oldest_first(rt: HostRuntime) {
    let dropped = Cell::new(0);
    let mut state: State<u64, InOrder<'_>> = State::new(rt.alloc(), MANY);
    make_all(&rt, rt.alloc(), &mut state, &dropped);
    let evicted = state.prune();
    assert_equal_at(&rt, dropped.get(), 0, "the chain has the values");
    drop(evicted);
    assert_equal(&rt, dropped.get(), MANY);
}

// How many entries are evicted before the cache is dropped.
const EVICTED: u64 = 300;

// Makes keys and releases them, and makes `MANY` further keys and keeps their pins, all with one
// value. The last ones evict the first ones.
fn fill(rt: &impl Abort, state: &mut State<u64, u64>, value: &Arc<u64>) {
    for key in 0..2 * MANY + EVICTED {
        let value = value.clone().expect(rt, "room for an owner");
        let made = if key < MANY + EVICTED {
            make(state, &key, 1, value)
        } else {
            hold(state, &key, 1, value)
        };
        assert!(rt; made.is_ok());
    }
}

#[test]
fn a_cache_drops_its_idle_and_held_entries(rt: HostRuntime) {
    let value = Arc::new(rt.alloc(), 7u64).expect(&rt, "memory");
    let mut state: State<u64, u64> = State::new(rt.alloc(), 2 * MANY);
    fill(&rt, &mut state, &value);
    assert_equal(&rt, Arc::strong_count(&value), 200_001);
    drop(state);
    assert_equal(&rt, Arc::strong_count(&value), 1);
}

// A chain may be sent to another thread, so that a caller can drop it there.
fn crosses<T: Send>(value: T) -> T {
    value
}

#[test]
fn a_chain_may_be_sent(rt: HostRuntime) {
    let chain: Evicted<u64, u64> = crosses(Evicted::none());
    assert!(rt; chain.is_empty());
}
