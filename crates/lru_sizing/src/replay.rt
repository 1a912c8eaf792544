//! A trace, replayed through the cache for a single owner.
ghost use Rattle.std.specs.Prelude.{◌≡◌, ◌<◌, ◌≤◌, ◌+◌, [], IfOk, IfErr, OnOk, IsFalse, IsTrue, map};
ghost use Rattle.std.specs.List.{AllByRecursion};
ghost use Rattle.std.specs.FinMap as finmap;
ghost use Rattle.std.specs.Arc.{arc_value};
ghost use Rattle.concurrent_lru.specs.Cache.{Held, making, ready, CopiesAreEqual};
ghost use Rattle.concurrent_lru.specs.Reply as say;
ghost use Rattle.concurrent_lru.specs.Request as ask;
ghost use Rattle.concurrent_lru.specs.Runs.{Refuses};
ghost use Rattle.concurrent_lru.specs.Steps.{Holds, Step};
ghost use Rattle.concurrent_lru.specs.Uses.{HaveOneCharge};
ghost use Rattle.lru_sizing.specs.HitsByWeight.{fits};
ghost use Rattle.lru_sizing.specs.RefusedTraces.{IsRefusedFor};
ghost use Rattle.lru_sizing.specs.Replays.{IsUsedOnce};
ghost use Rattle.lru_sizing.specs.ReuseWeights.{reuse_weights};

use crate::refusal::Refusal;
use concurrent_lru::lru_core::{self, Begun, Evicted, State};
use std::alloc::Global;
use std::collections::HashMap;
use std::hash::Hash;
use std::sync::Arc;

/// Returns whether each use of a trace hits in a cache of this capacity that starts empty: the uses
/// are begun in a `State` one after another, and each is released before the next. The results are
/// those that the reuse weights imply.
///
/// Each charge is above 0, as `State` requires; `has_charges` tests this. Returns `TwoCharges` if
/// two uses of one key have different charges, `Overflow` if the charges of the distinct keys up to
/// a use sum to more than `u64::MAX`, so that the cache refuses that use, and `Memory` if the
/// allocator refuses.
pub fn replay<K: Hash + Eq + Clone + Drop>(
    alloc: Global,
    trace: &[(K, u64)],
    capacity: u64,
) -> Result<Vec<bool>, Refusal>
    requires charged { AllByRecursion (λ u. 0 < u.1) trace.now }
    requires copies { CopiesAreEqual K.is_clone K.eq }
    ensures hits { IfOk result (λ hits. hits.items
        ≡ map (fits capacity) (reuse_weights K.eq trace.now)) }
    ensures charged { OnOk result (HaveOneCharge K.eq trace.now) }
    ensures err { IfErr result (λ e. IsRefusedFor K.eq trace.now e) }
{
    check_charges(alloc, trace)?;
    let value = Arc::new(alloc, ())?;
    let mut cache = State::new(alloc, capacity);
    let mut hits = Vec::new(alloc);
    for (place, (key, charge)) in trace.iter().enumerate() {
        match use_once(&mut cache, key, *charge, value.clone()?) {
            Ok(hit) => hits.push(hit)?,
            Err(lru_core::Refusal::Memory) => return Err(Refusal::Memory),
            Err(lru_core::Refusal::Overflow) => return Err(Refusal::Overflow(place)),
            Err(lru_core::Refusal::Stale | lru_core::Refusal::Full) => unreachable!(),
        }
    }
    Ok(hits)
}

/// Returns whether each charge of a trace is above 0, as `replay` requires.
pub fn has_charges<K>(trace: &[(K, u64)]) -> bool
    ensures yes { IsTrue result → AllByRecursion (λ u. 0 < u.1) trace.now }
    ensures no { IsFalse result → ¬ (AllByRecursion (λ u. 0 < u.1) trace.now) }
{
    for (_, charge) in trace {
        if *charge == 0 {
            return false;
        }
    }
    true
}

// Refuses a trace in which two uses of one key have different charges.
fn check_charges<K: Hash + Eq>(alloc: Global, trace: &[(K, u64)]) -> Result<(), Refusal>
    ensures ok { OnOk result (HaveOneCharge K.eq trace.now) }
    ensures err { IfErr result (λ e. IsRefusedFor K.eq trace.now e) }
{
    let mut last_places: HashMap<&K, usize> = HashMap::new(alloc);
    for (place, (key, charge)) in trace.iter().enumerate() {
        if let Some(&last) = last_places.get(&key) {
            if trace[last].1 != *charge {
                return Err(Refusal::TwoCharges(last, place));
            }
        }
        last_places.insert(key, place)?;
    }
    Ok(())
}

// Uses a key in a cache that holds nothing: begins, makes the value if there is none, and releases.
// Returns whether it hit.
fn use_once<K: Hash + Eq + Clone + Drop>(
    cache: &mut State<K, ()>,
    key: &K,
    charge: u64,
    value: Arc<()>,
) -> Result<bool, lru_core::Refusal>
    requires charged { 0 < charge }
    requires none_held { cache.old.cache.held ≡ finmap.empty }
    ensures used { IfOk result (λ hit. IsUsedOnce K.eq cache.old.cache key.now charge hit
        cache.new.cache) }
    ensures stamps { cache.new.cache.next ≤ cache.old.cache.next + 1 }
    ensures err { IfErr result (λ e. Refuses K.eq cache.old.cache (ask.begin key.now charge) e) }
{
    let (begun, _evicted) = cache.begin(key, charge)?;
    match begun {
        Begun::Hit(stamp, _value) => {
            let _evicted = release(cache, stamp);
            Ok(true)
        }
        Begun::Make(stamp) => {
            give(cache, stamp, value);
            let _evicted = release(cache, stamp);
            Ok(false)
        }
        Begun::Wait(_) => unreachable!(),
    }
}

// Stores the value of an entry that is being made.
fn give<K: Hash + Eq + Clone + Drop>(cache: &mut State<K, ()>, stamp: u64, value: Arc<()>)
    requires { (e : Held K (Unit {0})) × Holds cache.old.cache stamp e making }
    ensures { Step K.eq cache.old.cache (ask.ready stamp (arc_value value)) say.done []
        cache.new.cache }
{
    match cache.ready(stamp, value) {
        Ok(()) => {}
        Err(_) => unreachable!(),
    }
}

// Releases a pin of a ready entry.
fn release<K: Hash + Eq + Clone + Drop>(cache: &mut State<K, ()>, stamp: u64) -> Evicted<K, ()>
    requires { (e : Held K (Unit {0})) × (v : Unit {0}) × Holds cache.old.cache stamp e (ready v) }
    ensures { Step K.eq cache.old.cache (ask.release stamp) say.done result cache.new.cache }
{
    match cache.release(stamp) {
        Ok(evicted) => evicted,
        Err(_) => unreachable!(),
    }
}
