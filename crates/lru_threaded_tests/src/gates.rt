//! Tests that a cache drops what it evicts without its lock: a value that is dropped waits for
//! another thread, which uses the cache meanwhile, or gives up.
ghost use Rattle.std.specs.Prelude.{◌<◌};

use crate::assertions::assert_equal_at;
use crate::caches::{Clock, OneLock, Shards, clock_with_shards, with_shards};
use crate::flags::{is_raised, meets, raise};
use crate::removals::Removing;
use crate::threaded::{make_value, try_make_value};
use lru_support::cached::Cached;
use std::alloc::{AllocError, Global};
use std::sync::atomic::AtomicU64;
use std::sync::{Arc, Wait};
use std::thread;
use std::thread::Threads;

// The progress of the thread that drops a value and of the one that uses the cache.
#[derive(Drop)]
struct Gate {
    dropping: AtomicU64,
    entered: AtomicU64,
    missed: AtomicU64,
}

impl Gate {
    // Creates a gate that neither has reached.
    fn new() -> Gate {
        Gate {
            dropping: AtomicU64::new(0),
            entered: AtomicU64::new(0),
            missed: AtomicU64::new(0),
        }
    }

    // Returns the total that the other thread read while a value was dropped, or `None` if it read
    // none or the lock was not free then.
    fn checked_total(&self, total: Option<u128>) -> Option<u128> {
        if is_raised(&self.missed) {
            return None;
        }
        total
    }

    // Drops a value: waits until the other thread has used the cache.
    fn drop_value(&self) {
        raise(&self.dropping);
        if !meets(&self.entered) {
            raise(&self.missed);
        }
    }
}

// A value whose drop waits at a gate.
struct Slow {
    gate: Arc<Gate>,
}

impl Slow {
    // Creates a value for this gate. Returns `AllocError` if a copy of the gate's `Arc` is refused.
    fn at(gate: &Arc<Gate>) -> Result<Slow, AllocError> {
        Ok(Slow {
            gate: Arc::try_clone(gate)?,
        })
    }
}

impl Drop for Slow {
    fn drop(self) {
        let Self { gate } = self;
        gate.drop_value();
    }
}

// What evicts a value.
#[derive(Clone, Copy, Debug)]
enum Cause {
    // Another value, which needs room.
    Begin,
    // Another value, whose `init` fails after room was made for it.
    Failure,
    // The drop of its last handle, at a capacity of 0.
    Release,
    // `advice_evict`.
    Advice,
    // `invalidate`.
    Invalidation,
    // `prune`.
    Prune,
    // A smaller capacity.
    Capacity,
}

// Each cause of an eviction, with the capacity of the cache or of each shard before it and the
// total while the value is dropped.
const CAUSES: [(Cause, u64, u128); 7] = [
    (Cause::Begin, 1, 1),
    (Cause::Failure, 1, 1),
    (Cause::Release, 0, 0),
    (Cause::Advice, 1, 0),
    (Cause::Invalidation, 1, 0),
    (Cause::Prune, 1, 0),
    (Cause::Capacity, 1, 0),
];

// A cache whose values drop slowly. It has no associated type, since the checker supports no
// closure of a thread over a type that has one.
trait GateCache {
    // Makes a value of key 1 with the charge 1 in a cache that has no other entry, evicts it by
    // this cause, and returns whether it could be made.
    fn evict(&self, gate: &Arc<Gate>, cause: Cause) -> bool;

    // Returns the total while a value is dropped, or `None` if no value was. Also makes calls that
    // take the lock of each shard.
    fn total_meanwhile(&self, gate: &Gate) -> Option<u128>;
}

impl<C: Cached<Slow>> GateCache for C {
    fn evict(&self, gate: &Arc<Gate>, cause: Cause) -> bool {
        let Ok(value) = Slow::at(gate) else {
            return false;
        };
        let Ok(handle) = make_value(*self, 1, 1, value, &mut None) else {
            return false;
        };
        // At a capacity of 0 this evicts it.
        drop(handle);
        evict_idle(*self, gate, cause);
        true
    }

    fn total_meanwhile(&self, gate: &Gate) -> Option<u128> {
        if !meets(&gate.dropping) {
            return None;
        }
        let total = self.total_charge();
        drop(self.get(1));
        drop(self.get(2));
        self.advice_evict(1);
        self.prune();
        raise(&gate.entered);
        Some(total)
    }
}

// Evicts the idle value of key 1.
fn evict_idle<C: Cached<Slow>>(cache: C, gate: &Arc<Gate>, cause: Cause) {
    match cause {
        Cause::Begin => {
            if let Ok(value) = Slow::at(gate) {
                drop(make_value(cache, 5, 1, value, &mut None));
            }
        }
        Cause::Failure => drop(try_make_value(cache, 5, 1, None, &mut None)),
        Cause::Release => {}
        Cause::Advice => cache.advice_evict(1),
        Cause::Invalidation => cache.invalidate(1),
        Cause::Prune => cache.prune(),
        Cause::Capacity => cache.set_capacity(0),
    }
}

// The same for a cache from which entries are removed without naming their keys.
trait RemovalGate {
    // Makes a value of key 1 as `GateCache::evict` does, and removes it by `clear` or by `retain`.
    // Returns whether it could be made.
    fn remove(&self, gate: &Arc<Gate>, is_clear: bool) -> bool;
}

impl<C: Removing<Slow>> RemovalGate for C {
    fn remove(&self, gate: &Arc<Gate>, is_clear: bool) -> bool {
        let Ok(value) = Slow::at(gate) else {
            return false;
        };
        let Ok(handle) = make_value(*self, 1, 1, value, &mut None) else {
            return false;
        };
        drop(handle);
        if is_clear {
            self.clear();
        } else {
            self.retain_none();
        }
        true
    }
}

// Returns the total while a cache that has room for a value of charge 1 drops it when it is
// removed, or `None` as `total_in_drop` does.
fn total_in_removal<T: Threads, C: GateCache + RemovalGate + Sync>(
    rt: &T,
    alloc: Global,
    cache: &C,
    is_clear: bool,
) -> Option<u128> {
    let gate = Arc::new(alloc, Gate::new()).ok()?;
    let met = &gate;
    let (made, total) = thread::join(
        rt,
        move || cache.remove(met, is_clear),
        move || cache.total_meanwhile(&**met),
    );
    if made {
        gate.checked_total(total)
    } else {
        None
    }
}

// Returns this total of a new cache behind one lock.
fn removal_in_one_lock<R: Wait + Threads + Clone + Drop + Sync + Send>(
    rt: &R,
    alloc: Global,
    is_clear: bool,
) -> Option<u128> {
    let cache: OneLock<Slow, R> = OneLock::new(alloc, rt.clone().ok()?, 1);
    total_in_removal(rt, alloc, &&cache, is_clear)
}

// Returns this total of a new cache of two shards.
fn removal_in_two_shards<R: Wait + Threads + Clone + Drop + Sync + Send>(
    rt: &R,
    alloc: Global,
    is_clear: bool,
) -> Option<u128> {
    let own = rt.clone().ok()?;
    let cache: Shards<Slow, R> = with_shards(alloc, own, 2, 2)?;
    total_in_removal(rt, alloc, &&cache, is_clear)
}

// Returns this total of a new clock of two shards.
fn removal_in_two_shards_of_a_clock<R: Wait + Threads + Clone + Drop + Sync + Send>(
    rt: &R,
    alloc: Global,
    is_clear: bool,
) -> Option<u128> {
    let own = rt.clone().ok()?;
    let cache: Clock<Slow, R> = clock_with_shards(alloc, own, 2, 2)?;
    total_in_removal(rt, alloc, &&cache, is_clear)
}

// Returns the total while an empty cache drops a value that this cause evicts, or `None` if the
// value could not be made or was not dropped, or if a lock was not free then.
fn total_in_drop<T: Threads, C: GateCache + Sync>(
    rt: &T,
    alloc: Global,
    cache: &C,
    cause: Cause,
) -> Option<u128> {
    let gate = Arc::new(alloc, Gate::new()).ok()?;
    let met = &gate;
    let (made, total) = thread::join(
        rt,
        move || cache.evict(met, cause),
        move || cache.total_meanwhile(&**met),
    );
    if made {
        gate.checked_total(total)
    } else {
        None
    }
}

// Returns this total of a new cache of this capacity behind one lock.
fn in_one_lock<R: Wait + Threads + Clone + Drop + Sync + Send>(
    rt: &R,
    alloc: Global,
    cause: Cause,
    capacity: u64,
) -> Option<u128> {
    let cache: OneLock<Slow, R> = OneLock::new(alloc, rt.clone().ok()?, capacity);
    total_in_drop(rt, alloc, &&cache, cause)
}

// Returns this total of a new cache of two shards, each of this capacity.
fn in_two_shards<R: Wait + Threads + Clone + Drop + Sync + Send>(
    rt: &R,
    alloc: Global,
    cause: Cause,
    share: u64,
) -> Option<u128> {
    let own = rt.clone().ok()?;
    let cache: Shards<Slow, R> = with_shards(alloc, own, share.saturating_mul(2), 2)?;
    total_in_drop(rt, alloc, &&cache, cause)
}

// Returns this total of a new clock of two shards, each of this capacity.
fn in_two_shards_of_a_clock<R: Wait + Threads + Clone + Drop + Sync + Send>(
    rt: &R,
    alloc: Global,
    cause: Cause,
    share: u64,
) -> Option<u128> {
    let own = rt.clone().ok()?;
    let cache: Clock<Slow, R> = clock_with_shards(alloc, own, share.saturating_mul(2), 2)?;
    total_in_drop(rt, alloc, &&cache, cause)
}

#[test]
fn drops_run_without_a_lock(rt: HostRuntime) {
    for (cause, share, total) in CAUSES {
        let told = [
            in_one_lock(&rt, rt.alloc(), cause, share),
            in_two_shards(&rt, rt.alloc(), cause, share),
        ];
        assert_equal_at(&rt, told, [Some(total); 2], cause);
    }
}

#[test]
fn drops_run_without_a_lock_of_the_clock(rt: HostRuntime) {
    for (cause, share, total) in CAUSES {
        // A making that fails evicts nothing: the clock makes room for a value that there is.
        if matches!(cause, Cause::Failure) {
            continue;
        }
        let told = in_two_shards_of_a_clock(&rt, rt.alloc(), cause, share);
        assert_equal_at(&rt, told, Some(total), cause);
    }
}

#[test]
fn clear_and_retain_drop_without_a_lock(rt: HostRuntime) {
    for is_clear in [true, false] {
        let told = [
            removal_in_one_lock(&rt, rt.alloc(), is_clear),
            removal_in_two_shards(&rt, rt.alloc(), is_clear),
            removal_in_two_shards_of_a_clock(&rt, rt.alloc(), is_clear),
        ];
        assert_equal_at(&rt, told, [Some(0); 3], ("clear", is_clear));
    }
}
