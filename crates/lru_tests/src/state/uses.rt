//! Whole runs of uses, each key released at once, and of removals between them, compared with plain
//! functions.
ghost use Rattle.std.specs.Prelude.{◌<◌};

use crate::assertions::assert_equal_at;
use crate::state::makes::make;
use concurrent_lru::lru_core::{Evicted, State};
use std::alloc::Global;
use std::process::Abort;
use std::sync::Arc;

// Returns the charge of each of the keys 1, 2 and 3.
fn charge_of(key: u64) -> u64
    ensures { 0 < result }
{
    match key {
        1 => 1,
        2 => 2,
        _ => 3,
    }
}

// Returns one of the lists of five numbers from 1 to `kinds`, of which there are `kinds` to the
// fifth.
fn list_of_five(mut list: u64, kinds: u64) -> [u64; 5]
    requires { 0 < kinds }
{
    let mut numbers = [0; 5];
    for number in &mut numbers {
        *number = (list % kinds).saturating_add(1);
        list /= kinds;
    }
    numbers
}

// Returns the used keys by their last uses, from the newest back as far as their charges fit,
// newest first, padded with 0.
fn longest_tail(uses: &[u64; 5], capacity: u64) -> [u64; 3] {
    let mut tail = [0; 3];
    let mut count = 0;
    let mut room = capacity;
    for key in uses.iter().rev() {
        if tail.contains(key) {
            continue;
        }
        let charge = charge_of(*key);
        if charge > room {
            break;
        }
        room -= charge;
        if let Some(place) = tail.get_mut(count) {
            *place = *key;
            count = count.saturating_add(1);
        }
    }
    tail
}

// Returns the keys of up to three evicted entries, newest first, as `longest_tail` does.
fn keys_of(rt: &impl Abort, mut evicted: Evicted<u64, u64>) -> [u64; 3] {
    let mut keys = [0; 3];
    for _ in 0..3 {
        if let Some(gone) = evicted.pop() {
            keys = [gone.key, keys[0], keys[1]];
        }
    }
    assert!(rt; evicted.is_empty());
    keys
}

// Takes a step: 1, 2 and 3 are uses of these keys, 4 and 5 remove the keys 2 and 1, and 6 prunes.
fn take(rt: &impl Abort, alloc: Global, state: &mut State<u64, u64>, step: u64) {
    match step {
        4 => {
            let _evicted = state.advice_evict(&2);
        }
        5 => {
            let _evicted = state.invalidate(&1);
        }
        6 => {
            let _evicted = state.prune();
        }
        key => {
            let value = Arc::new(alloc, key).expect(rt, "memory for the value");
            assert!(rt; make(state, &key, charge_of(key), value).is_ok());
        }
    }
}

// Takes the steps on an empty cache. Returns the keys that are idle then, as `keys_of` does.
fn held_after(rt: &impl Abort, alloc: Global, steps: &[u64; 5], capacity: u64) -> [u64; 3] {
    let mut state = State::new(alloc, capacity);
    for step in steps {
        take(rt, alloc, &mut state, *step);
    }
    keys_of(rt, state.prune())
}

#[test]
fn holds_the_longest_tail_that_fits(rt: HostRuntime) {
    for number in 0..243 {
        let uses = list_of_five(number, 3);
        for capacity in 0..=7 {
            let held = held_after(&rt, rt.alloc(), &uses, capacity);
            let tail = longest_tail(&uses, capacity);
            assert_equal_at(&rt, held, tail, (uses, "at capacity", capacity));
        }
    }
}

// Returns whether a step removes a key.
fn removes(step: u64, key: u64) -> bool {
    match step {
        4 => key == 2,
        5 => key == 1,
        6 => true,
        _ => false,
    }
}

// Returns the index of the last use of a key, unless a later step removes the key.
fn last_use(steps: &[u64], key: u64) -> Option<usize> {
    let mut last = None;
    for (place, step) in steps.iter().enumerate() {
        if *step == key {
            last = Some(place);
        } else if removes(*step, key) {
            last = None;
        }
    }
    last
}

// Returns the sum of the charges of the keys whose last use, which was not forgotten, has this
// index or a higher one.
fn weight(steps: &[u64], since: usize) -> u64 {
    let mut weight: u64 = 0;
    for key in 1..=3 {
        if matches!(last_use(steps, key), Some(place) if place >= since) {
            weight = weight.saturating_add(charge_of(key));
        }
    }
    weight
}

// Returns whether the weight since the use with this index was at most the capacity after each step
// from that use on.
fn always_fitted(steps: &[u64; 5], since: usize, capacity: u64) -> bool {
    for end in since..steps.len() {
        if weight(&steps[..end + 1], since) > capacity {
            return false;
        }
    }
    true
}

// Returns the keys that these steps leave idle, newest first, padded with 0.
fn idle_after(steps: &[u64; 5], capacity: u64) -> [u64; 3] {
    let mut idle = [0; 3];
    for (place, key) in steps.iter().enumerate() {
        if *key <= 3
            && last_use(&steps[..], *key) == Some(place)
            && always_fitted(steps, place, capacity)
        {
            idle = [*key, idle[0], idle[1]];
        }
    }
    idle
}

#[test]
fn holds_what_always_fitted_of_the_uses_that_remain(rt: HostRuntime) {
    for number in 0..7776 {
        let steps = list_of_five(number, 6);
        for capacity in 0..=6 {
            let held = held_after(&rt, rt.alloc(), &steps, capacity);
            let idle = idle_after(&steps, capacity);
            assert_equal_at(&rt, held, idle, (steps, "at capacity", capacity));
        }
    }
}
