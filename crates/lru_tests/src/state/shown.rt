//! What a cache shows of its entries: in a walk, by stamp, and as text.

use crate::assertions::assert_equal;
use crate::state::makes::hold;
use crate::state::plain::Seen;
use concurrent_lru::lru_core::{EntryRef, Refusal, State};
use concurrent_lru::sharded::Shards;
use lru_support::hashers::ByOwnNumber;
use lru_support::tables::says;
use std::alloc::{AllocError, Global};
use std::sync::Arc;
use std::test::Fail;

fn shown(entry: &EntryRef<'_, u64, u64>) -> Seen {
    (
        entry.stamp,
        *entry.key,
        entry.charge,
        entry.pins,
        entry.is_detached,
        *entry.value,
    )
}

/// Returns what a walk shows, in the order of the stamps. Returns `AllocError` if memory is
/// refused.
pub(crate) fn seen_in(alloc: Global, state: &State<u64, u64>) -> Result<Vec<Seen>, AllocError> {
    let mut seen = Vec::new(alloc);
    for entry in state.entries() {
        seen.push(shown(&entry))?;
    }
    seen.sort()?;
    Ok(seen)
}

/// Returns what is shown of the entry with a stamp.
pub(crate) fn seen_at(state: &State<u64, u64>, stamp: u64) -> Option<Seen> {
    match state.entry(stamp) {
        Some(entry) => Some(shown(&entry)),
        None => None,
    }
}

// Inserts a key. Returns the hint that the call returns, and the one that is shown of the entry.
fn hints_of(
    alloc: Global,
    state: &mut State<u64, u64>,
    key: u64,
) -> Result<[(u64, usize); 2], Refusal> {
    let value = Arc::new(alloc, key)?;
    let (inserted, given) = match state.insert_at(&key, 1, value) {
        Ok(told) => told,
        Err((refusal, _value)) => return Err(refusal),
    };
    let Some(entry) = state.entry(inserted.stamp) else {
        return Err(Refusal::Stale);
    };
    Ok([given, entry.hint].map(|hint| (hint.hash, hint.place.number())))
}

#[test]
fn hints_lead_to_the_entries(rt: HostRuntime) {
    let mut state = State::new(rt.alloc(), 10);
    for key in [3, 1, 2] {
        let [given, shown] = hints_of(rt.alloc(), &mut state, key).expect(&rt, "inserted");
        assert_equal(&rt, shown, given);
    }
}

#[test]
fn a_new_entry_takes_a_place_that_was_given_back(rt: HostRuntime) {
    let mut state = State::new(rt.alloc(), 10);
    let [(_, first), _] = hints_of(rt.alloc(), &mut state, 1).expect(&rt, "inserted");
    drop(state.release_and_evict(0).expect(&rt, "held"));
    let [(_, second), _] = hints_of(rt.alloc(), &mut state, 2).expect(&rt, "inserted");
    assert_equal(&rt, second, first);
}

// An entry is printed if its key finds it and its value is ready.
#[test]
fn what_keys_find_is_printed(rt: HostRuntime) -> Result<(), Fail> {
    let alloc = rt.alloc();
    let mut state: State<u64, u64> = State::new(alloc, 10);
    says(alloc, &state, "{}")?;
    drop(state.begin(&1, 1)?);
    says(alloc, &state, "{}")?;
    assert!(rt; state.ready(0, Arc::new(alloc, 10)?).is_ok());
    says(alloc, &state, "{1: 10}")?;
    hold(&mut state, &2, 1, Arc::new(alloc, 20)?)?;
    drop(state.invalidate(&1));
    says(alloc, &state, "{2: 20}")
}

#[test]
fn shards_are_printed_as_a_list(rt: HostRuntime) -> Result<(), Fail> {
    let alloc = rt.alloc();
    let mut shards: Shards<u64, u64, ByOwnNumber> = Shards::new(alloc, 4, 2, ByOwnNumber)?;
    drop(shards.insert(&3, 1, Arc::new(alloc, 30)?));
    says(alloc, &shards, "[{}, {3: 30}]")
}
