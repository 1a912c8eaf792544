//! What the shards hold together.
ghost use Rattle.std.specs.Prelude.{◌≡◌};

use crate::clock::{Cache, Counts};
use concurrent_lru::fit::Fit;
use std::hash::{BuildHasher, Hash};
use std::sync::Wait;

impl<K: Hash + Eq + Clone + Drop, V: Drop, R: Wait, S: BuildHasher, F: Fit<K, V>> Cache<
    K,
    V,
    R,
    S,
    F,
> {
    /// Returns the sum of the shards' capacities, read one after another. Each share is rounded up,
    /// so the sum may be above the capacity that was set. Takes no memory.
    pub fn capacity(&self) -> u128 {
        let mut capacity = 0;
        for shard in &self.shards {
            capacity += u128::from(shard.numbers(&self.rt).capacity);
        }
        capacity
    }

    /// Returns the sum of the charges of all entries. The shards are read one after another, so it
    /// is not a snapshot. Takes no memory.
    pub fn total_charge(&self) -> u128 {
        let mut total = 0;
        for shard in &self.shards {
            total += u128::from(shard.numbers(&self.rt).total);
        }
        total
    }

    /// Returns the sum of the charges of the pinned entries. The shards are read one after another,
    /// and hits pin entries meanwhile, so it is not a snapshot. Visits every slot. Takes no memory.
    pub fn pinned_charge(&self) -> u128 {
        let mut pinned = 0;
        for shard in &self.shards {
            pinned += u128::from(shard.pinned_charge(&self.rt));
        }
        pinned
    }

    /// Returns the number of entries, including those still pinned after an `invalidate`, but not
    /// values that are being made. The shards are read one after another, so it is not a snapshot.
    /// Takes no memory.
    pub fn len(&self) -> usize {
        let mut len = 0usize;
        for shard in &self.shards {
            len = len.saturating_add(shard.numbers(&self.rt).entries);
        }
        len
    }

    /// Returns whether `len` is 0. Takes no memory.
    pub fn is_empty(&self) -> bool {
        self.len() == 0
    }

    /// Calls `f` with the key, the value, the charge and the number of pins of each entry that its
    /// key finds, in an unspecified order. An idle entry has no pins. Values that are being made
    /// and entries that were invalidated are left out. Does not count as a use of an entry. Takes
    /// no memory.
    ///
    /// The shards are visited one after another, each under its lock, so the entries need not all
    /// have been there at any one moment. While `f` looks at an entry, the entry has one pin more,
    /// which does not count in the number of pins. `f` should be short, and must neither use this
    /// cache nor drop a handle of it, since that could deadlock. After the visit of a shard whose
    /// total exceeds its share of the capacity, entries that nobody has pinned are evicted until it
    /// fits.
    pub fn for_each<G>(&self, mut f: G)
    where
        G: FnMut(&K, &V, u64, u32) + Drop,
        requires callable { (state : G) (k : _) (v : _) (charge pins : _)
            → F.fits k.now v.now → G.pre state k v charge pins }
    {
        for shard in &self.shards {
            shard.for_each(&self.rt, &mut f);
        }
    }

    /// Returns the sum of the shards' counts, read one after another, so it is not a snapshot.
    /// Takes no memory.
    pub fn counts(&self) -> Counts {
        let mut counts = Counts::default();
        for shard in &self.shards {
            counts = counts.wrapping_add(shard.numbers(&self.rt).counts);
        }
        counts
    }

    /// Resets the counts, one shard after another, and returns the sum of what they were. Whatever
    /// a call adds to the counts is returned by exactly one reset. Takes no memory.
    pub fn reset_counts(&self) -> Counts {
        let mut counts = Counts::default();
        for shard in &self.shards {
            counts = counts.wrapping_add(shard.reset_counts(&self.rt));
        }
        counts
    }
}
