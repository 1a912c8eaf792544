//! Laws of sharded caches. Each function does nothing: its contract is the law, for any keys,
//! values and hashers.
ghost use Rattle.concurrent_lru.specs.Sharded.{key_number};
ghost use Rattle.concurrent_lru.specs.ShardLaws.{OneShard, RefusalsChangeNothing};

use std::hash::{BuildHasher, Hash};

/// Equal keys have the same shard, whatever the hasher.
pub fn one_shard<K: Hash + Eq, V: Drop, S: BuildHasher>()
    ensures law { OneShard K V S K.eq (key_number S.BuildHasher S.Hasher.Hasher K.hash_input) }
{}

/// A step that a shard refuses, or that names no shard, changes no shard.
pub fn refusals_change_nothing<K: Hash + Eq + Clone, V: Drop, S: BuildHasher>()
    ensures law { RefusalsChangeNothing K V S K.eq }
{}
