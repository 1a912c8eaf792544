//! Long runs of calls drawn from seeds, by one thread, whose answers and evictions are compared
//! with those of a plain cache.
ghost use Rattle.std.specs.Prelude.{◌<◌};

use crate::clock::plain::Plain;
use crate::seeded::agree;
use crate::seeded::player::Player;
use crate::seeded::view::Viewed;
use lru_clock::clock::Cache;
use lru_support::drops::{DropLog, Logged};
use lru_support::hashers::ByOwnNumber;
use lru_support::tables::text_of;
use std::alloc::{AllocError, Global};
use std::hash::{BuildHasher, BuildHasherDefault, FoldHasher};
use std::sync::Wait;
use std::test::Fail;

impl<'a, R: Wait + Drop, S: BuildHasher> Viewed<Logged<R>> for &'a Cache<u64, Logged<R>, R, S> {
    fn view(self, alloc: Global) -> Result<String, AllocError> {
        let (is_empty, pinned, counts) = (self.is_empty(), self.pinned_charge(), self.counts());
        let is_strict = self.is_limit_strict();
        format!(in alloc;
            "{self:?}, empty {is_empty}, strict {is_strict}, pinned {pinned}, {counts:?}"
        )
    }

    fn reset(self, alloc: Global) -> Result<String, AllocError> {
        text_of(alloc, &self.reset_counts())
    }

    fn set_strict(self, is_strict: bool) {
        self.set_strict_limit(is_strict);
    }
}

// Makes a seed's calls on a cache of one shard, whose hasher is given twice.
fn agrees<R: Wait + Clone + Drop, S: BuildHasher + Drop>(
    rt: &R,
    alloc: Global,
    seed: u64,
    hasher: S,
    same: S,
) -> Result<(), Fail> {
    let capacity = seed.saturating_mul(5);
    let log = DropLog::new(alloc, rt)?;
    let cache: Cache<u64, Logged<R>, R, S> = Cache::with_shards_hasher(
        alloc,
        rt.clone()?,
        capacity,
        1,
        hasher,
    )?;
    let mut player = Player::new(alloc, &cache, &log)?;
    let mut plain = Plain::new(alloc, capacity, same);
    agree(alloc, seed, false, &mut player, &mut plain)
}

#[test]
fn one_thread_is_answered_as_by_a_plain_clock(rt: HostRuntime) -> Result<(), Fail> {
    for seed in 0..5u64 {
        let hasher: BuildHasherDefault<FoldHasher> = BuildHasherDefault::new();
        agrees(&rt, rt.alloc(), seed, hasher, BuildHasherDefault::new())?;
    }
    Ok(())
}

// The tags of all keys have the same upper 30 bits, so each ghost may be found by another key.
#[test]
fn ghosts_of_other_keys_change_no_answer(rt: HostRuntime) -> Result<(), Fail> {
    for seed in 5..10u64 {
        agrees(&rt, rt.alloc(), seed, ByOwnNumber, ByOwnNumber)?;
    }
    Ok(())
}
