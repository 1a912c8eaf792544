//! Fills a cache with keys that were chosen to have equal hashes under a known seed, for tools that
//! count what a program does.

use crate::failure::Failure;
use crate::keys::Keys;
use crate::request::number;
use concurrent_lru::lru_core::Refusal;
use concurrent_lru::{sharded, unsharded};
use std::alloc::Global;
use std::hash::{BuildHasher, RandomState};
use std::num::NonZeroU64;
use std::random::RandomSource;
use std::sync::Wait;

// The initial state of the kit's fast hasher, and its multiplier for a word of 8 bytes.
const INITIAL: u64 = 0x243f_6a88_85a3_08d3;

const MULTIPLIER: u64 = 0x9e37_79b9_7f4a_7c15 ^ 16;

// A key of two words.
type Pair = (u64, u64);

/// Where keys come from.
#[derive(Clone, Copy)]
enum Origin {
    /// They are chosen: under the seed 0 all have the same hash.
    Chosen,
    /// They are drawn at random.
    Drawn,
}

/// Which cache takes the keys.
#[derive(Clone, Copy)]
enum Target {
    /// A cache on one lock, with the seed 0.
    Known,
    /// A cache on one lock, with a random seed.
    Seeded,
    /// A cache in shards, with a random hasher.
    Shards,
}

/// A number of keys, and the cache that they are put into.
#[derive(Clone, Copy)]
pub struct Attack {
    origin: Origin,
    target: Target,
    count: NonZeroU64,
}

impl Attack {
    /// Parses `chosen` or `drawn`, then `known`, `seeded` or `shards`, and the number of keys.
    ///
    /// Returns `Usage` at any other words.
    pub fn of_words(origin: &str, target: &str, count: &str) -> Result<Attack, Failure> {
        let origin = match origin {
            "chosen" => Origin::Chosen,
            "drawn" => Origin::Drawn,
            _ => return Err(Failure::Usage),
        };
        let target = match target {
            "known" => Target::Known,
            "seeded" => Target::Seeded,
            "shards" => Target::Shards,
            _ => return Err(Failure::Usage),
        };
        Ok(Attack {
            origin,
            target,
            count: number(count).ok_or(Failure::Usage)?,
        })
    }

    /// Creates the cache and makes a value for each key. Returns the number of entries that the
    /// cache then has.
    pub fn run<W: Wait + Clone + Drop, R: RandomSource>(
        self,
        rt: &R,
        alloc: Global,
        wait: W,
    ) -> Result<usize, Failure> {
        let room = self.count.get();
        let hasher = RandomState::new(rt)?;
        match self.target {
            Target::Known | Target::Seeded => {
                let seed = match self.target {
                    Target::Known => 0,
                    _ => hasher.hash_one(&0),
                };
                let cache: unsharded::LruCache<Pair, u64, W> = unsharded::LruCache::with_seed(
                    alloc, wait, room, seed,
                );
                self.fill(&cache)?;
                Ok(cache.len())
            }
            Target::Shards => {
                let cache: sharded::LruCache<Pair, u64, W> = sharded::LruCache::new(
                    alloc,
                    wait,
                    room.saturating_mul(2),
                    hasher,
                )?;
                self.fill(&cache)?;
                Ok(cache.len())
            }
        }
    }

    // Makes a value for each key.
    fn fill<C: Cache>(self, cache: &C) -> Result<(), Failure> {
        let mut draws = Keys::of_worker(NonZeroU64::MAX, 0);
        for number in 0..self.count.get() {
            let key = match self.origin {
                Origin::Chosen => chosen(number),
                Origin::Drawn => (draws.draw(), draws.draw()),
            };
            cache.make(key)?;
        }
        Ok(())
    }
}

/// A cache whose keys are two words.
trait Cache {
    /// Makes a value for a key, unless it has one.
    fn make(&self, key: Pair) -> Result<(), Refusal>;
}

impl<R: Wait + Drop> Cache for unsharded::LruCache<Pair, u64, R> {
    fn make(&self, key: Pair) -> Result<(), Refusal> {
        let _handle = self.get_or_init(key, 1, |_| 0)?;
        Ok(())
    }
}

impl<R: Wait + Drop> Cache for sharded::LruCache<Pair, u64, R> {
    fn make(&self, key: Pair) -> Result<(), Refusal> {
        let _handle = self.get_or_init(key, 1, |_| 0)?;
        Ok(())
    }
}

// Returns the key with this first word whose second word cancels the effect of the first on the
// hasher's state.
fn chosen(first: u64) -> Pair {
    let seeded = folded(INITIAL, MULTIPLIER);
    (first, folded(seeded ^ first, MULTIPLIER))
}

// Multiplies two words and combines the halves of the product, as the hasher does.
fn folded(a: u64, b: u64) -> u64 {
    let product = u128::from(a) * u128::from(b);
    (product & 0xffff_ffff_ffff_ffff) as u64 ^ (product >> 64) as u64
}
