//! Calls on all shards, one after another.
ghost use Rattle.std.specs.Prelude.{◌≡◌, IfErr, vec_len};
ghost use Rattle.concurrent_lru.specs.Visits.{CanJudge, CanVisit, VisitsShards};

use crate::counts::Counts;
use crate::fit::Fit;
use crate::lru_core::Refusal;
use crate::sharded::LruCache;
use crate::shards::capacity_per_shard;
use std::hash::{BuildHasher, Hash};
use std::sync::Wait;

impl<K: Hash + Eq + Clone + Drop, V: Drop, R: Wait, S: BuildHasher, F: Fit<K, V>> LruCache<
    K,
    V,
    R,
    S,
    F,
> {
    /// Reserves room in each shard for its share of `entries` entries, one shard after another. The
    /// share is the quotient by the number of shards, rounded up. A hasher may give a shard more
    /// keys than its share, and that shard then grows as needed.
    ///
    /// Returns `Memory` if the allocator refuses. No entry changes in either case, though some room
    /// may have been reserved.
    pub fn reserve(&self, entries: usize) -> Result<(), Refusal>
        ensures { IfErr result (λ e. e ≡ Refusal.Memory) }
    {
        let share = entries.div_ceil(self.routes.shards.len());
        for shard in &self.routes.shards {
            shard.reserve(share)?;
        }
        Ok(())
    }

    /// Evicts every idle entry, one shard after another, so the call is not atomic. Takes no
    /// memory.
    pub fn prune(&self) {
        for shard in &self.routes.shards {
            shard.prune();
        }
    }

    /// Invalidates every key, one shard after another, as the unsharded cache's `clear` does: no
    /// later call finds what a key had when the call began. An entry that other callers add
    /// meanwhile may stay or leave. Takes no memory.
    pub fn clear(&self) {
        for shard in &self.routes.shards {
            shard.clear();
        }
    }

    /// Invalidates the key of each entry for which `keep` returns `false`, one shard after another,
    /// as the unsharded cache's `retain` does. `keep` runs under a lock. It should be short, and
    /// must not use this cache, since such a call could deadlock. Takes no memory.
    pub fn retain<G>(&self, mut keep: G)
    where
        G: FnMut(&K, &V, u64) -> bool + Drop,
        requires { CanJudge F.fits G.FnMut keep }
    {
        for shard in &self.routes.shards {
            shard.retain_by(&mut keep);
        }
    }

    /// Sets the capacity of each shard to its share, `capacity_per_shard`, one shard after another,
    /// so the call is not atomic. Each shard then evicts down to its share. Takes no memory.
    pub fn set_capacity(&self, capacity: u64) {
        let share = capacity_per_shard(capacity, self.routes.shards.len());
        for shard in &self.routes.shards {
            shard.set_capacity(share);
        }
    }

    /// Sets whether the capacity of each shard is a strict limit, as the unsharded cache's
    /// `set_strict_limit` does, one shard after another, so the call is not atomic. The limit of a
    /// new entry is then that of its key's shard. Takes no memory.
    pub fn set_strict_limit(&self, strict: bool) {
        for shard in &self.routes.shards {
            shard.set_strict_limit(strict);
        }
    }

    /// Returns whether the capacity of every shard is a strict limit, read one after another, so it
    /// is no snapshot. Takes no memory.
    pub fn is_limit_strict(&self) -> bool {
        for shard in &self.routes.shards {
            if !shard.is_limit_strict() {
                return false;
            }
        }
        true
    }

    /// Returns the sum of the shards' capacities, read one after another. Each share is rounded up,
    /// so the sum may be above the capacity that was set. Takes no memory.
    pub fn capacity(&self) -> u128 {
        let mut capacity = 0;
        for shard in &self.routes.shards {
            let guard = shard.door.lock();
            capacity += u128::from(guard.state().capacity());
        }
        capacity
    }

    /// Returns the sum of the shards' totals, read one after another, so it is no snapshot. Takes
    /// no memory.
    pub fn total_charge(&self) -> u128 {
        let mut total = 0;
        for shard in &self.routes.shards {
            let guard = shard.door.lock();
            total += u128::from(guard.state().total());
        }
        total
    }

    /// Returns the sum of the shards' pinned charges, read one after another, so it is no snapshot.
    /// Takes no memory.
    pub fn pinned_charge(&self) -> u128 {
        let mut pinned = 0;
        for shard in &self.routes.shards {
            let guard = shard.door.lock();
            pinned += u128::from(guard.state().pinned_charge());
        }
        pinned
    }

    /// Returns the number of entries, including those held after an `invalidate`. The shards are
    /// read one after another, so the cache need not have had that many at any one moment. Takes no
    /// memory.
    pub fn len(&self) -> usize {
        let mut len: usize = 0;
        for shard in &self.routes.shards {
            let guard = shard.door.lock();
            len = len.saturating_add(guard.state().len());
        }
        len
    }

    /// Returns whether `len` is 0: no shard had an entry when its lock was acquired. Takes no
    /// memory.
    pub fn is_empty(&self) -> bool {
        self.len() == 0
    }

    /// Calls `f` with the key, the value, the charge and the number of pins of each entry that its
    /// key finds and that has a value, in an unspecified order, as the unsharded cache's `for_each`
    /// does. Takes no memory.
    ///
    /// The shards are visited one after another, each under its lock, so the entries need not all
    /// have been there at any one moment; those of one shard were, and `f` sees each once
    /// (`visits`). It should be short, and must not use this cache, since such a call could
    /// deadlock.
    pub fn for_each<G>(&self, mut f: G)
    where
        G: FnMut(&K, &V, u64, u32) + Drop,
        requires callable { CanVisit F.fits G.FnMut f }
        ensures visits { (last : G)
            × VisitsShards K.eq F.fits G.FnMut (vec_len self.now.routes.shards) f last }
    {
        for shard in &self.routes.shards {
            shard.for_each_by(&mut f);
        }
    }

    /// Returns the sum of the shards' counts, read one after another. It is no snapshot, so the
    /// counts need not add up while other threads use the cache. A sum saturates at the maximum of
    /// its type. Takes no memory.
    pub fn counts(&self) -> Counts {
        let mut counts = Counts::default();
        for shard in &self.routes.shards {
            counts = counts.saturating_add(shard.counts());
        }
        counts
    }

    /// Resets the counts, one shard after another, and returns the sum of what each shard's
    /// `reset_counts` returned. Takes no memory.
    pub fn reset_counts(&self) -> Counts {
        let mut counts = Counts::default();
        for shard in &self.routes.shards {
            counts = counts.saturating_add(shard.reset_counts());
        }
        counts
    }
}
