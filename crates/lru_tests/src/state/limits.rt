//! What no contract says of room, of size, and of a reader that is not needed.

use crate::assertions::assert_equal;
use crate::state::makes::hold;
use concurrent_lru::list::Node;
use concurrent_lru::lru_core::{Refusal, State};
use std::sync::Arc;
use std::test::Fail;

#[test]
fn room_is_reserved_unless_it_exceeds_all_memory(rt: HostRuntime) {
    let mut state: State<u64, u64> = State::new(rt.alloc(), 9);
    assert_equal(&rt, state.reserve(usize::MAX), Err(Refusal::Memory));
    assert_equal(&rt, state.reserve(100), Ok(()));
}

#[test]
fn a_node_takes_96_bytes(rt: HostRuntime) {
    assert_equal(&rt, size_of::<Node<u64, u64>>(), 96);
}

#[test]
fn a_refused_read_does_not_call_its_reader(rt: HostRuntime) -> Result<(), Fail> {
    let mut state: State<u64, u64> = State::with_limits(rt.alloc(), 3, 0, 1);
    hold(&mut state, &1, 1, Arc::new(rt.alloc(), 10)?)?;
    let mut is_called = false;
    let read = state.read(&1, |_| {
        is_called = true;
    });
    assert_equal(&rt, read, Err(Refusal::Overflow));
    assert!(rt; !is_called);
    Ok(())
}
