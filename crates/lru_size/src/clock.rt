//! The hits of the clock cache, by a replay in the cache itself.
ghost use Rattle.std.specs.Prelude.{◌<◌, ◌≤◌, IfOk, vec_len};

use crate::failure::Failure;
use crate::trace::Trace;
use lru_clock::clock::{Cache, Refusal};
use std::alloc::Global;
use std::hash::{BuildHasherDefault, FoldHasher};
use std::sync::Wait;

// The hasher has no seed, so that each run has the same hits.
type ClockCache<'a, W> = Cache<u64, (), &'a W, BuildHasherDefault<FoldHasher>>;

/// Returns how many uses of a trace hit in a clock cache of this capacity, with one shard, that
/// starts empty. Each use makes the value if it misses, and is released before the next one.
///
/// # Errors
///
/// `OutOfMemory` if memory runs out, and `Overflow` if the charges of the keys add up to more than
/// `u64::MAX`.
pub fn hits<W: Wait>(alloc: Global, wait: &W, trace: &Trace, capacity: u64) -> Result<u64, Failure>
    ensures { IfOk result (λ hits. hits ≤ vec_len trace.now.uses) }
{
    let hasher: BuildHasherDefault<FoldHasher> = BuildHasherDefault::new();
    let cache: ClockCache<'_, W> = match Cache::with_shards_hasher(
        alloc, wait, capacity, 1, hasher,
    ) {
        Ok(cache) => cache,
        Err(refusal) => return Err(failure_of(refusal, 0)),
    };
    for (place, (key, charge)) in trace.uses.iter().enumerate() {
        if let Err(refusal) = use_once(&cache, key, *charge) {
            return Err(failure_of(refusal, place));
        }
    }
    // Each use that misses makes a value.
    let misses = cache.counts().makings;
    Ok((trace.uses.len() as u64).saturating_sub(misses))
}

// Uses a key, and makes its value if there is none.
fn use_once<W: Wait>(cache: &ClockCache<'_, W>, key: &u64, charge: u64) -> Result<(), Refusal>
    requires { 0 < charge }
{
    let _handle = cache.get_or_init_by(key, charge, |_| ())?;
    Ok(())
}

// Converts the refusal of a use. Only those calls that no use makes return `Full` and `Stale`.
fn failure_of(refusal: Refusal, place: usize) -> Failure {
    match refusal {
        Refusal::Overflow => Failure::overflow_at(place),
        Refusal::Memory | Refusal::Full | Refusal::Stale => Failure::OutOfMemory,
    }
}
