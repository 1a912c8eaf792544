//! Creating a cache.
ghost use Rattle.std.specs.Prelude.{◌≡◌, ◌<◌};
ghost use Rattle.concurrent_lru.specs.Cache.{empty_cache, most_pins_by_default, CopiesAreEqual};

use crate::lru_core::State;
use crate::share::Sharing;
use crate::table::{Hint, Table};
use std::alloc::Global;
use std::hash::Hash;

impl<K: Hash + Eq + Clone, V: Drop, M: Sharing<V>> State<K, V, M>
where
    M::Share: Drop,
{
    /// Creates an empty cache. It keeps idle entries while the sum of all charges is at most
    /// `capacity`. Takes no memory.
    ///
    /// It hashes keys with the seed 0: where keys come from outside, use `with_seed`.
    pub fn new(alloc: Global, capacity: u64) -> State<K, V, M>
        requires { CopiesAreEqual K.is_clone K.eq }
        ensures empty { result.cache ≡ empty_cache capacity most_pins_by_default 0 }
        ensures work { result.work ≡ 0 }
    {
        State::with_seed(alloc, capacity, 0)
    }

    /// Creates an empty cache as `new` does, which hashes keys with a seed. Takes no memory.
    ///
    /// Whoever knows the seed can choose keys that have one hash, so that each lookup of one visits
    /// them all. Where keys come from outside, take a random seed for each cache, as a
    /// [`RandomState`](std::hash::RandomState) gives one: `RandomState::new(&rt)?.hash_one(&0)`.
    /// No answer depends on the seed.
    pub fn with_seed(alloc: Global, capacity: u64, seed: u64) -> State<K, V, M>
        requires { CopiesAreEqual K.is_clone K.eq }
        ensures empty { result.cache ≡ empty_cache capacity most_pins_by_default 0 }
        ensures work { result.work ≡ 0 }
    {
        State::with_limits_and_seed(alloc, capacity, 0, u32::MAX, seed)
    }

    /// Creates an empty cache whose first entry gets the stamp `first_stamp`, and whose entries
    /// have at most `most_pins` pins each. Takes no memory.
    pub fn with_limits(
        alloc: Global,
        capacity: u64,
        first_stamp: u64,
        most_pins: u32,
    ) -> State<K, V, M>
        requires pinned { 0 < most_pins }
        requires copies { CopiesAreEqual K.is_clone K.eq }
        ensures empty { result.cache ≡ empty_cache capacity most_pins first_stamp }
        ensures work { result.work ≡ 0 }
    {
        State::with_limits_and_seed(alloc, capacity, first_stamp, most_pins, 0)
    }

    /// Creates an empty cache as `with_limits` does, which hashes keys with a seed, as a cache made
    /// by `with_seed` does. Takes no memory.
    pub fn with_limits_and_seed(
        alloc: Global,
        capacity: u64,
        first_stamp: u64,
        most_pins: u32,
        seed: u64,
    ) -> State<K, V, M>
        requires pinned { 0 < most_pins }
        requires copies { CopiesAreEqual K.is_clone K.eq }
        ensures empty { result.cache ≡ empty_cache capacity most_pins first_stamp }
        ensures work { result.work ≡ 0 }
    {
        State {
            alloc,
            capacity,
            most_pins,
            next: first_stamp,
            last: Hint::first(),
            table: Table::new(alloc, seed),
        }
    }

    /// Creates an empty cache as `with_limits_and_seed` does, which keeps no map by stamp. Takes no
    /// memory.
    ///
    /// It is for a caller that keeps the hint of each entry that it pins, and finds the entry by a
    /// [`Spot`]. An insert and a removal then write one map less. A step whose hint leads to
    /// another entry, and a step by stamp alone for any entry but the one pinned last, visit every
    /// entry.
    pub fn without_stamp_map(
        alloc: Global,
        capacity: u64,
        first_stamp: u64,
        most_pins: u32,
        seed: u64,
    ) -> State<K, V, M>
        requires pinned { 0 < most_pins }
        requires copies { CopiesAreEqual K.is_clone K.eq }
        ensures empty { result.cache ≡ empty_cache capacity most_pins first_stamp }
        ensures work { result.work ≡ 0 }
    {
        State {
            alloc,
            capacity,
            most_pins,
            next: first_stamp,
            last: Hint::first(),
            table: Table::without_stamp_map(alloc, seed),
        }
    }
}
