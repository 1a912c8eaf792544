//! The hashes of keys.
ghost use Rattle.std.specs.Prelude.{◌≡◌};
ghost use Rattle.concurrent_lru.specs.KeyHashes.{key_hash, IsHashOf};

use crate::as_key::AsKey;
use crate::table::word_hasher::WordHasher;
use std::hash::{BuildHasher, FoldHasher, Hash, Hasher};

/// The hash of a key under a seed.
///
/// A key is hashed once in a call, and its hash is passed on from function to function. A table
/// uses it only if it was made with the table's seed, so the hash of another table does no harm.
#[derive(Clone, Copy)]
pub struct KeyHash {
    pub(crate) number: u64,
    seed: u64,
}

impl KeyHash {
    /// Hashes a key by a hasher that is fed the seed before the key: without the seed, nobody can
    /// tell which keys have hashes in common.
    // A table probes by the lowest bits of a hash, which begin at bit 24 of the hasher's number: a
    // shard is chosen by the lowest bits of such a number, so all entries of a shard may share
    // those.
    #[inline(always)]
    pub fn of<K: Hash + Eq, Q: AsKey<K>>(seed: u64, key: Q) -> KeyHash
        ensures hash { IsHashOf K.hash_input result (Q.owned key) }
        ensures seed { result.seed ≡ seed }
    {
        let mut hasher = WordHasher {
            inner: FoldHasher::default(),
        };
        hasher.write_u64(seed);
        key.feed(&mut hasher);
        KeyHash {
            number: hasher.inner.finish().rotate_left(40),
            seed,
        }
    }

    /// Returns the hash of the same key under a seed. The key is hashed again if this hash was made
    /// with another one.
    #[inline(always)]
    pub fn under<K: Hash + Eq>(self, seed: u64, key: &K) -> u64
        requires { IsHashOf K.hash_input self key.now }
        ensures { result ≡ key_hash seed K.hash_input key.now }
    {
        if self.seed == seed {
            return self.number;
        }
        KeyHash::of::<K, &K>(seed, key).number
    }
}

/// Returns the seed for the table of a shard. Without the hasher that chooses the shards of keys,
/// nobody can tell it.
pub fn seed_of_shard<S: BuildHasher>(hasher: &S, shard: usize) -> u64 {
    hasher.hash_one(&shard)
}
