//! What can be read of a cache between two calls, as text.

use concurrent_lru::counts::Counts;
use concurrent_lru::{sharded, unsharded};
use lru_support::cached::Cached;
use lru_support::drops::Logged;
use lru_support::tables::text_of;
use std::alloc::{AllocError, Global};
use std::hash::BuildHasher;
use std::sync::Wait;

/// How many entries a walk shows, and the sums of what it tells of each. The products of keys and
/// values tell which value is shown with which key.
#[derive(Clone, Copy, Debug)]
pub(crate) struct Walk {
    entries: u64,
    keys: u64,
    values: u64,
    products: u64,
    charges: u64,
    pins: u64,
}

impl Walk {
    /// Creates the sums of no entries.
    pub(crate) fn new() -> Walk {
        Walk {
            entries: 0,
            keys: 0,
            values: 0,
            products: 0,
            charges: 0,
            pins: 0,
        }
    }

    /// Adds an entry.
    pub(crate) fn add(&mut self, key: u64, value: u64, charge: u64, pins: u32) {
        self.entries = self.entries.wrapping_add(1);
        self.keys = self.keys.wrapping_add(key);
        self.values = self.values.wrapping_add(value);
        self.products = self.products.wrapping_add(key.wrapping_mul(value));
        self.charges = self.charges.wrapping_add(charge);
        self.pins = self.pins.wrapping_add(u64::from(pins));
    }
}

/// What a cache with locks says of its contents, its limits and its counts.
#[derive(Clone, Copy, Debug)]
pub(crate) struct View {
    pub(crate) len: usize,
    pub(crate) is_empty: bool,
    pub(crate) total: u128,
    pub(crate) pinned: u128,
    pub(crate) capacity: u128,
    pub(crate) is_strict: bool,
    pub(crate) walk: Walk,
    pub(crate) counts: Counts,
}

/// A reference to a cache whose contents can be read.
pub(crate) trait Viewed<V>: Cached<V> {
    /// Returns the text of what the cache says of itself.
    fn view(self, alloc: Global) -> Result<String, AllocError>;

    /// Calls `reset_counts`, and returns the text of what it returns.
    fn reset(self, alloc: Global) -> Result<String, AllocError>;

    /// Calls `set_strict_limit`, if the cache has it.
    fn set_strict(self, is_strict: bool);
}

impl<'a, R: Wait + Drop> Viewed<Logged<R>> for &'a unsharded::LruCache<u64, Logged<R>, R> {
    fn view(self, alloc: Global) -> Result<String, AllocError> {
        let mut walk = Walk::new();
        self.for_each(|key, value, charge, pins| walk.add(*key, value.number(), charge, pins));
        let view = View {
            len: self.len(),
            is_empty: self.is_empty(),
            total: u128::from(unsharded::LruCache::total_charge(self)),
            pinned: u128::from(self.pinned_charge()),
            capacity: u128::from(unsharded::LruCache::capacity(self)),
            is_strict: self.is_limit_strict(),
            walk,
            counts: self.counts(),
        };
        text_of(alloc, &view)
    }

    fn reset(self, alloc: Global) -> Result<String, AllocError> {
        text_of(alloc, &self.reset_counts())
    }

    fn set_strict(self, is_strict: bool) {
        self.set_strict_limit(is_strict);
    }
}

impl<'a, R: Wait + Drop, S: BuildHasher> Viewed<Logged<R>>
    for &'a sharded::LruCache<u64, Logged<R>, R, S> {
    fn view(self, alloc: Global) -> Result<String, AllocError> {
        let mut walk = Walk::new();
        self.for_each(|key, value, charge, pins| walk.add(*key, value.number(), charge, pins));
        let view = View {
            len: self.len(),
            is_empty: self.is_empty(),
            total: sharded::LruCache::total_charge(self),
            pinned: self.pinned_charge(),
            capacity: sharded::LruCache::capacity(self),
            is_strict: self.is_limit_strict(),
            walk,
            counts: self.counts(),
        };
        text_of(alloc, &view)
    }

    fn reset(self, alloc: Global) -> Result<String, AllocError> {
        text_of(alloc, &self.reset_counts())
    }

    fn set_strict(self, is_strict: bool) {
        self.set_strict_limit(is_strict);
    }
}
