//! The types of the core for values of one word, which are copied for each pin.
use concurrent_lru::share::ByCopy;
use concurrent_lru::{eviction, lru_core, step};

/// A cache of words.
pub type State<K> = lru_core::State<K, u64, ByCopy>;

/// The result of `begin` and `poll`.
pub type Begun = step::Begun<u64>;

/// What a step evicted.
pub type Evicted<K> = lru_core::Evicted<K, u64, ByCopy>;

/// An entry that left the cache.
pub type Gone<K> = eviction::Gone<K, u64>;
