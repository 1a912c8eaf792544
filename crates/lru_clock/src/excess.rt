//! Whether entries have to be evicted, for those who release pins without the lock.
//!
//! A pinned entry is not evicted, so pins may hold the total above the capacity. The release of the
//! last of them then has to evict, which takes the lock. This flag tells whether it has to.
ghost use Rattle.std.specs.Prelude.{IsTrue};
ghost use Rattle.lru_clock.specs.Evictions.{is_above};

use crate::shard_state::ShardState;
use crossbeam_utils::CachePadded;
use std::sync::atomic::AtomicBool;
use std::sync::atomic::Ordering::SeqCst;

/// Whether the total of a shard was above its capacity at the end of the last call under its lock.
///
/// Any thread may read it. Only who has the lock writes it, as a write takes what the lock
/// protects. It has cache lines of its own, which no lookup reads, and only a change is written.
#[derive(Drop)]
pub struct ExcessFlag {
    is_above: CachePadded<AtomicBool>,
}

impl ExcessFlag {
    /// Creates the flag of a shard without entries.
    pub fn new() -> ExcessFlag {
        ExcessFlag {
            is_above: CachePadded::new(AtomicBool::new(false)),
        }
    }

    /// Returns whether the total was above the capacity at the last update.
    #[inline(always)]
    pub fn is_set(&self) -> bool {
        self.is_above.load(SeqCst)
    }

    /// Sets the flag if the total is above the capacity, and clears it otherwise. Returns whether
    /// the total has risen above the capacity since the last update: pins that were released in
    /// between have evicted nothing.
    pub fn update<K: Eq + Drop>(&self, state: &ShardState<K>) -> bool
        ensures { IsTrue result → IsTrue (is_above state.now.capacity state.now.seats 0) }
    {
        let is_above = state.is_above(0);
        let was_above = self.is_set();
        if was_above != is_above {
            self.is_above.store(is_above, SeqCst);
        }
        is_above && !was_above
    }
}
