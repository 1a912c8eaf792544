//! What is a use of an entry of the clock, and keeps it past its trial, and what is none.
ghost use Rattle.std.specs.Prelude.{◌<◌};

use crate::assertions::assert_equal_at;
use crate::caches::{Clock, clock_with_shards};
use std::alloc::Global;
use std::sync::Wait;

// A call that concerns the entry of key 1.
#[derive(Clone, Copy, Debug)]
enum Call {
    // `contains` with its key.
    Contains,
    // `for_each`, which shows it.
    Visit,
    // `try_clone` of its handle.
    Clone,
    // `find` with its key.
    Find,
    // `read` with its key.
    Read,
    // `get_or_init` with its key.
    Init,
}

// Makes a call. The entry is there, so no value is made.
fn calls<R: Wait>(cache: &Clock<u64, R>, call: Call) {
    match call {
        Call::Contains => {
            let _ = cache.contains(&1);
        }
        Call::Visit => cache.for_each(|_, _, _, _| {}),
        Call::Clone => {}
        Call::Find => drop(cache.find(&1)),
        Call::Read => drop(cache.read(&1, |value| *value)),
        Call::Init => drop(cache.get_or_init(1, 1, |_| 6)),
    }
}

// Inserts key 1, and makes a call. Then inserts as many other keys as the cache has room for.
// Returns whether key 1 is still there.
fn stays<R: Wait>(cache: &Clock<u64, R>, call: Call) -> Option<bool> {
    let first = cache.insert(&1, 1, 5).ok()?;
    if matches!(call, Call::Clone) {
        drop(first.try_clone().ok()?);
    }
    drop(first);
    calls(cache, call);
    for key in 2..10u64 {
        drop(cache.insert(&key, 1, 5));
    }
    Some(cache.contains(&1))
}

// Does this in a new cache.
fn stays_in_new<R: Wait + Drop>(alloc: Global, rt: R, call: Call) -> Option<bool> {
    let cache: Clock<u64, R> = clock_with_shards(alloc, rt, 8, 1)?;
    stays(&cache, call)
}

// The entry that came first leaves first, unless it was used.
#[test]
fn an_entry_stays_if_it_was_used(rt: HostRuntime) {
    for call in [Call::Contains, Call::Visit, Call::Clone] {
        assert_equal_at(&rt, stays_in_new(rt.alloc(), &rt, call), Some(false), call);
    }
    for call in [Call::Find, Call::Read, Call::Init] {
        assert_equal_at(&rt, stays_in_new(rt.alloc(), &rt, call), Some(true), call);
    }
}
