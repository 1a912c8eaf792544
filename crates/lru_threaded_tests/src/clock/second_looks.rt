//! A find that misses an entry without the lock, while the index is written, and finds it under the
//! lock.
ghost use Rattle.std.specs.Prelude.{◌≡◌, ◌<◌};

use crate::assertions::assert_equal;
use crate::flags::{meets, raise};
use lru_clock::clock::{Cache, Refusal};
use lru_support::hashers::ByOwnNumber;
use std::alloc::{AllocError, Global};
use std::sync::Wait;
use std::sync::atomic::AtomicU64;
use std::sync::atomic::Ordering::SeqCst;
use std::thread;
use std::thread::Threads;

// Where one comparison of keys waits until another thread has written the index.
#[derive(Drop)]
struct Gate {
    // 1 if the next comparison is to wait.
    is_closed: AtomicU64,
    comparing: AtomicU64,
    written: AtomicU64,
}

impl Gate {
    fn new() -> Gate {
        Gate {
            is_closed: AtomicU64::new(0),
            comparing: AtomicU64::new(0),
            written: AtomicU64::new(0),
        }
    }

    fn pass(&self) {
        if self.is_closed.swap(0, SeqCst) == 1 {
            raise(&self.comparing);
            let _ = meets(&self.written);
        }
    }
}

// A number whose comparisons pass a gate.
#[derive(Drop)]
#[derive_where(Hash)]
struct Gated<'g> {
    number: u64,
    #[derive_where(skip(Hash))]
    gate: &'g Gate,
}

impl PartialEq for Gated<'_> {
    ghost use Rattle.std.specs.Prelude.{◌==◌};
    ghost use Rattle.std.proofs.Common.{rules};
    ghost use Rattle.std.specs.Cmp.Rules.{comparing};

    ghost eq = { λ a b. a.number == b.number };

    ghost laws = { Prim.search (comparing, rules) };

    fn eq(&self, other: &Self) -> bool {
        self.gate.pass();
        self.number == other.number
    }
}

impl Eq for Gated<'_> {
    ghost use Rattle.std.proofs.Common.{rules};
    ghost use Rattle.std.specs.Cmp.Rules.{comparing};

    ghost laws = { Prim.search (comparing, rules) };
}

impl<'g> Clone for Gated<'g> {
    ghost is_clone = { λ x y. y ≡ x };

    fn clone(&self) -> Result<Gated<'g>, AllocError> {
        Ok(Gated {
            number: self.number,
            gate: self.gate,
        })
    }
}

type Numbers<'g, R> = Cache<Gated<'g>, u64, R, ByOwnNumber>;

// Finds key 2. The keys have one tag, so the search without the lock compares key 1 first.
fn finds<'g, R: Wait>(cache: &Numbers<'g, R>, gate: &'g Gate) -> Result<Option<u64>, Refusal> {
    gate.is_closed.store(1, SeqCst);
    match cache.find(&Gated { number: 2, gate })? {
        Some(handle) => Ok(Some(*handle)),
        None => Ok(None),
    }
}

// Invalidates key 1 while it is compared. The word of key 2 then moves back to where that of key 1
// was, which the search has passed.
fn moves<'g, R: Wait>(cache: &Numbers<'g, R>, gate: &'g Gate) -> bool {
    let met = meets(&gate.comparing);
    cache.invalidate(&Gated { number: 1, gate });
    raise(&gate.written);
    met
}

// Finds key 2 in one thread while another one invalidates key 1. Returns what the search finds, and
// whether it was met.
fn finds_and_moves<'g, T: Threads, R: Wait + Sync>(
    rt: &T,
    cache: &Numbers<'g, R>,
    gate: &'g Gate,
) -> (Result<Option<u64>, Refusal>, bool) {
    thread::join(rt, move || finds(cache, gate), move || moves(cache, gate))
}

// Does this in a new cache in which key 2 is held.
fn finds_in_new<'g, T: Threads, R: Wait + Drop + Send + Sync>(
    rt: &T,
    alloc: Global,
    own: R,
    gate: &'g Gate,
) -> Option<(Result<Option<u64>, Refusal>, bool)> {
    let made = Cache::with_shards_hasher(alloc, own, 10, 1, ByOwnNumber);
    let cache: Numbers<'g, R> = made.ok()?;
    drop(cache.insert(&Gated { number: 1, gate }, 1, 5));
    let held = cache.insert(&Gated { number: 2, gate }, 1, 6);
    let told = finds_and_moves(rt, &cache, gate);
    drop(held);
    Some(told)
}

#[test]
fn a_held_entry_is_found_while_the_index_is_written(rt: HostRuntime) {
    let gate = Gate::new();
    let told = finds_in_new(&rt, rt.alloc(), &rt, &gate);
    assert_equal(&rt, told, Some((Ok(Some(6)), true)));
}
