//! Items by hash in one array of buckets, with linear probing.
//!
//! The table compares no keys: a walk yields the items of one hash, and the caller compares what
//! they lead to. A removal moves back what follows it, so no bucket is ever marked as deleted, and
//! removals take no memory.
//!
//! A bucket is a hash and an item, 16 bytes where an item has 8. At most half of the buckets are
//! filled: among random hashes a lookup then reads at most 1.5 buckets on average if it finds its
//! item, and 2.5 if it does not, which mostly lie in one cache line. If seven buckets in eight were
//! filled, it would read 4.5 and 32.5.
//!
//! The lowest bits of a hash choose the bucket at which its walk begins. A caller that has already
//! divided items by some bits of their hashes, as among shards, must have used others.
ghost use Rattle.std.specs.Prelude.{◌≡◌, ◌≢◌, ℕ, ◌+◌, ◌<◌, ◌≤◌, [], ◌∷◌, Contains, OnOk, OnErr};
ghost use Rattle.concurrent_lru.specs.Probing.Probes.{mark_at, marks_of};
ghost use Rattle.concurrent_lru.specs.Probing.Entries.{count, entry, Has, Holds, IsSame, Adds, Removes};
ghost use Rattle.concurrent_lru.specs.Probing.OpenTable.{mark_of as mark_for, capacity, IsFilled, HasMark, walk};

use crate::linear_probing::{home_of, next_of};
use crate::node_table::probes::{
    Bucket, Cursor, FILLED, Step, copy_all, empty_buckets, find_mark, put, take_out,
};
use std::alloc::{AllocError, Global};
use std::marker::Model;

/// Items by hash. No item may be in it twice.
#[derive(Drop)]
pub(super) struct OpenTable<T: Copy> {
    buckets: Vec<Bucket<T>>,
    len: usize,
    // What empty buckets hold.
    filler: T,
}

impl<T: Copy> Model for OpenTable<T> {
    ghost use Rattle.std.specs.Prelude.{List};
    ghost use Rattle.std.specs.Coded.{coded_list};
    ghost use Rattle.concurrent_lru.specs.declared.node_table.probes.Bucket.{Bucket as Bucket_};
    ghost use Rattle.concurrent_lru.specs.Probing.OpenTable.{bucket_code, IsTable};

    ghost Value = { List (Bucket_ T) };

    ghost coded = { coded_list (bucket_code T.code) };

    ghost view = { λ a. a.buckets.items };

    ghost invariant = { λ a. IsTable a.buckets.items a.len };
}

impl<T: Copy> OpenTable<T> {
    /// Creates a table with no items and no room. Takes no memory.
    ///
    /// `filler` is what empty buckets hold; it is never returned.
    pub(super) fn new(alloc: Global, filler: T) -> OpenTable<T>
        ensures { result ≡ [] }
    {
        OpenTable {
            buckets: Vec::new(alloc),
            len: 0,
            filler,
        }
    }

    /// Returns the number of items.
    pub(super) fn len(&self) -> usize
        ensures { result ≡ count self.now }
    {
        self.len
    }

    /// Reserves room for a total of `entries` items. The number of buckets grows to the smallest
    /// power of two that is at least `2 * entries`, and each takes 16 bytes where an item has 8. No
    /// other call takes memory.
    ///
    /// Returns an error if there is no memory, or no such power of two; then nothing changes.
    pub(super) fn reserve(&mut self, entries: usize) -> Result<(), AllocError>
        ensures room { OnOk result (entries ≤ capacity self.new) }
        ensures stays { capacity self.old ≤ capacity self.new }
        ensures same { IsSame self.old self.new }
        ensures count { count self.new ≡ count self.old }
        ensures err { OnErr result (self.new ≡ self.old) }
    {
        if entries <= self.buckets.len() / 2 {
            return Ok(());
        }
        let Some(half) = entries.checked_next_power_of_two() else {
            return Err(AllocError);
        };
        let Some(count) = half.checked_mul(2) else {
            return Err(AllocError);
        };
        let mut buckets = empty_buckets(*self.buckets.allocator(), count, self.filler)?;
        copy_all(&self.buckets, &mut buckets);
        self.buckets = buckets;
        Ok(())
    }

    /// Begins a walk along the items with this hash: returns the first one, if there is any.
    #[inline(always)]
    pub(super) fn first(&self, hash: u64) -> Step
        ensures mark { HasMark self.now (mark_for hash) result }
        ensures all { (k : ℕ) → mark_at (marks_of self.now) k ≡ mark_for hash
            → Contains (walk self.now result) k }
    {
        let count = self.buckets.len();
        if count == 0 {
            return Step::End;
        }
        let mark = hash | FILLED;
        let home = home_of(count, mark);
        find_mark(&self.buckets, mark, home)
    }

    /// Continues a walk: returns the next item with the same hash, if there is any.
    #[inline(always)]
    pub(super) fn next(&self, cursor: Cursor) -> Step
        requires { IsFilled self.now cursor }
        ensures mark { HasMark self.now (mark_at (marks_of self.now) cursor) result }
        ensures rest { walk self.now (Step.Item cursor) ≡ cursor ∷ walk self.now result }
    {
        let mark = self.buckets[cursor.bucket].mark;
        let next = next_of(self.buckets.len(), cursor.bucket);
        find_mark(&self.buckets, mark, next)
    }

    /// Returns the item at a cursor.
    #[inline(always)]
    pub(super) fn item(&self, cursor: Cursor) -> T
        requires { IsFilled self.now cursor }
        ensures { Holds self.now cursor (entry (mark_at (marks_of self.now) cursor) result) }
    {
        self.buckets[cursor.bucket].item
    }

    /// Adds an item. There must be room for it. Takes no memory.
    pub(super) fn insert(&mut self, hash: u64, item: T)
        requires room { count self.old < capacity self.old }
        requires absent { (s : _) → Has self.old s → s.item ≢ item }
        ensures adds { Adds self.old self.new (entry (mark_for hash) item) }
        ensures count { count self.new ≡ count self.old + 1 }
        ensures capacity { capacity self.new ≡ capacity self.old }
    {
        put(&mut self.buckets, hash | FILLED, item);
        self.len += 1;
    }

    /// Removes the item at a cursor. Takes no memory.
    pub(super) fn remove(&mut self, cursor: Cursor) -> T
        requires { IsFilled self.old cursor }
        ensures item { (s : _) → Holds self.old cursor s → result ≡ s.item }
        ensures removes { Removes self.old self.new result }
        ensures count { count self.new + 1 ≡ count self.old }
        ensures capacity { capacity self.new ≡ capacity self.old }
    {
        let item = take_out(&mut self.buckets, cursor.bucket);
        self.len -= 1;
        item
    }
}
