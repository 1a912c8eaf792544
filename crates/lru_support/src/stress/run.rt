//! The parts of a stress run: a cache behind one lock, a cache with shards, a twin, and a clock if
//! the plan has one.

use crate::stress::checked::{Cache, CheckedCache, Clock, Finish, KeyHasher, Shards};
use crate::stress::outcome::{Counts, Trouble};
use crate::stress::plan::Plan;
use crate::stress::workers::StressTarget;
use crate::stress::{twin, workers};
use concurrent_lru::sharded::capacity_per_shard;
use lru_journal::journal::Opening;
use std::alloc::Global;
use std::hash::BuildHasherDefault;
use std::marker::Brand;
use std::sync::Wait;
use std::thread::Threads;

// A part of a run.
#[derive(Clone, Copy)]
enum Part {
    OneLock,
    Shards,
    Twin,
    Clock,
}

// Those in which no clock cache takes part.
const EXACT: [Part; 3] = [Part::OneLock, Part::Shards, Part::Twin];

const ALL: [Part; 4] = [Part::OneLock, Part::Shards, Part::Twin, Part::Clock];

impl Part {
    fn run<R: Threads + Wait + Clone + Drop + Send + Sync>(
        self,
        rt: &R,
        alloc: Global,
        plan: &Plan,
    ) -> Result<Counts, Trouble> {
        let (wait, allowed) = (rt.clone()?, allowed_in_shards(plan));
        let (capacity, shards) = (plan.shards_capacity, plan.shards);
        let hasher: KeyHasher = BuildHasherDefault::new();
        match self {
            Part::OneLock => {
                let cache: Cache<R> = Cache::new(alloc, wait, plan.lock_capacity);
                let checked = CheckedCache::of(alloc, plan, &cache)?;
                share(rt, alloc, plan, &checked, u128::from(plan.lock_capacity))
            }
            Part::Shards => {
                let cache = Shards::<R>::with_shards_hasher(alloc, wait, capacity, shards, hasher)?;
                let checked = CheckedCache::of(alloc, plan, &cache)?;
                share(rt, alloc, plan, &checked, allowed)
            }
            Part::Clock => {
                let cache = Clock::<R>::with_shards_hasher(alloc, wait, capacity, shards, hasher)?;
                let checked = CheckedCache::of(alloc, plan, &cache)?;
                share(rt, alloc, plan, &checked, allowed)
            }
            Part::Twin => on_a_twin(rt, alloc, plan),
        }
    }
}

/// Runs the parts, each with new workers, and returns the sum of their counts.
///
/// Returns `Refused` if memory or a thread was refused in any part, whatever was checked, and
/// otherwise the first check that failed.
pub fn run<R: Threads + Wait + Clone + Drop + Send + Sync>(
    rt: &R,
    alloc: Global,
    plan: &Plan,
) -> Result<Counts, Trouble> {
    let mut counts = Counts::none();
    let mut trouble = None;
    let parts: &[Part] = if plan.has_clock { &ALL } else { &EXACT };
    for part in parts {
        match part.run(rt, alloc, plan) {
            Ok(counted) => counts = counts.and(counted),
            Err(Trouble::Refused) => return Err(Trouble::Refused),
            Err(failed) => trouble = Trouble::worse(trouble, Some(failed)),
        }
    }
    match trouble {
        Some(trouble) => Err(trouble),
        None => Ok(counts),
    }
}

// Has the workers share a cache, checks it, and returns what was counted.
fn share<R: Threads + Sync, C: StressTarget + Finish + Sync>(
    rt: &R,
    alloc: Global,
    plan: &Plan,
    cache: &C,
    allowed: u128,
) -> Result<Counts, Trouble> {
    let noted = workers::share(rt, alloc, plan, cache)?;
    cache.finish(noted, allowed)
}

// Returns the sum of the shards' capacities: each share is rounded up.
fn allowed_in_shards(plan: &Plan) -> u128 {
    let share = capacity_per_shard(plan.shards_capacity, plan.shards);
    u128::from(share).saturating_mul(plan.shards as u128)
}

fn on_a_twin<R: Threads + Wait + Clone + Drop + Send + Sync>(
    rt: &R,
    alloc: Global,
    plan: &Plan,
) -> Result<Counts, Trouble> {
    let opening = Opening::<u64>::new(alloc, plan.lock_capacity)?;
    twin::share::<Brand, R>(rt, alloc, plan, opening)
}
