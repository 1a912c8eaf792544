//! What a reuse weight implies for every cache.
//!
//! Each function does nothing: its contract is the law.
ghost use Rattle.lru_sizing.specs.HitsByWeight.{EveryUseHitsByWeight, HitsAreCounted};

use std::hash::Hash;

/// For every run of `lru_core::State` from an empty cache of any capacity, in which each use is
/// made or hit and released at once, and no step is a `get` or is refused: the i-th use hits if and
/// only if its reuse weight in the trace is at most the capacity (`each`). So the number of hits is
/// the number of reuse weights that are at most the capacity (`counted`).
pub fn hits_by_weight<K: Hash + Eq + Clone, V: Drop>()
    ensures each { EveryUseHitsByWeight K V K.eq }
    ensures counted { HitsAreCounted K V K.eq }
{}
