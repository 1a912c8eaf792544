//! Open addressing with linear probing: a search for a mark visits one bucket after another, from
//! the home of the mark to the first empty bucket.
ghost use Rattle.std.specs.Prelude.{◌≡◌, ◌≢◌, ℕ, ◌+◌, ◌<◌, length, IfOk, vec_len};
ghost use Rattle.concurrent_lru.specs.Probing.Cycle.{next_of as next_in};
ghost use Rattle.concurrent_lru.specs.Probing.Probes.{marks_of, mark_at, end_at, HasEmpty, IsEmptyAt, IsFilledAt, Finds, IsReached};
ghost use Rattle.concurrent_lru.specs.Probing.Entries.{count, entry, AreApart, Has, IsSame, Adds, Removes, Holds};
ghost use Rattle.concurrent_lru.specs.Probing.Gaps.{IsGap};

use crate::linear_probing::{home_of, next_of, steps_between};
use std::alloc::{AllocError, Global};
use std::marker::Model;

/// The bit that is set in every mark, so that 0 can mean an empty bucket and a bucket needs no
/// other word. It is the highest bit, since only the lowest bits choose a home. Hashes that differ
/// in it alone have the same mark; the caller tells their items apart as it does those of equal
/// hashes.
pub(super) const FILLED: u64 = 0x8000_0000_0000_0000;

/// A bucket of a table: an item and its mark. The mark of an empty bucket is 0.
// An empty bucket stores some item too, which is never read.
#[derive(Clone, Copy)]
pub(super) struct Bucket<T> {
    /// The hash of the item with its highest bit set, or 0.
    pub mark: u64,
    /// The item.
    pub item: T,
}

/// Where an item lies. It becomes stale with the next insertion, removal or growth.
#[derive(Clone, Copy)]
pub(super) struct Cursor {
    pub(super) bucket: usize,
}

impl Model for Cursor {
    ghost use Rattle.std.specs.Prelude.{ℕ};

    ghost Value = { ℕ };

    ghost view = { λ a. a.bucket };

    ghost inverse = { λ n. record { bucket = n } };
}

/// One step of a walk along the items with a mark.
#[derive(Clone, Copy)]
pub(super) enum Step {
    /// An item with the mark.
    Item(Cursor),
    /// The end of the walk.
    End,
}

/// Returns the mark in a bucket.
#[inline(always)]
pub(super) fn mark_in<T: Copy>(buckets: &[Bucket<T>], at: usize) -> u64
    requires { at < length buckets.now }
    ensures { result ≡ mark_at (marks_of buckets.now) at }
{
    buckets[at].mark
}

/// Searches for a mark, beginning at a bucket. Returns the first item with the mark, or `End` if an
/// empty bucket comes before it.
#[inline(always)]
pub(super) fn find_mark<T: Copy>(buckets: &[Bucket<T>], mark: u64, from: usize) -> Step
    requires within { from < length buckets.now }
    requires ends { HasEmpty (marks_of buckets.now) }
    requires filled { mark ≢ 0 }
    ensures { Finds (marks_of buckets.now) mark from result }
{
    let mut at = from;
    loop {
        let found = buckets[at].mark;
        if found == mark {
            return Step::Item(Cursor { bucket: at });
        }
        if found == 0 {
            return Step::End;
        }
        at = next_of(buckets.len(), at);
    }
}

/// Searches for an empty bucket, beginning at a bucket. Returns the first one.
pub(super) fn find_empty<T: Copy>(buckets: &[Bucket<T>], from: usize) -> usize
    requires within { from < length buckets.now }
    requires ends { HasEmpty (marks_of buckets.now) }
    ensures end { result ≡ end_at (marks_of buckets.now) from }
    ensures within { result < length buckets.now }
{
    let mut at = from;
    while buckets[at].mark != 0 {
        at = next_of(buckets.len(), at);
    }
    at
}

/// Moves the entry in a bucket back to the hole, unless it would then lie before its home. Returns
/// the bucket that is the hole afterwards.
fn close_hole<T: Copy>(buckets: &mut [Bucket<T>], hole: usize, at: usize) -> usize
    requires hole { hole < length buckets.old }
    requires at { at < length buckets.old }
    requires gap { (start : ℕ) × IsGap (length buckets.old) (marks_of buckets.old) start hole at }
    requires filled { IsFilledAt (marks_of buckets.old) at }
    ensures hole { result < length buckets.old }
    ensures gap { (start : ℕ) → IsGap (length buckets.old) (marks_of buckets.old) start hole at
        → IsGap (length buckets.old) (marks_of buckets.new) start result
        (next_in (length buckets.old) at) }
    ensures same { IsSame buckets.old buckets.new }
    ensures apart { AreApart buckets.old → AreApart buckets.new }
    ensures count { count buckets.new ≡ count buckets.old }
{
    let bucket = buckets[at];
    let home = home_of(buckets.len(), bucket.mark);
    if steps_between(buckets.len(), home, at) < steps_between(buckets.len(), hole, at) {
        return hole;
    }
    buckets[hole] = bucket;
    buckets[at] = Bucket {
        mark: 0,
        item: bucket.item,
    };
    at
}

/// Moves back the entries that follow a bucket that was emptied.
fn close_gap<T: Copy>(buckets: &mut [Bucket<T>], from: usize)
    requires from { from < length buckets.old }
    requires gap { IsGap (length buckets.old) (marks_of buckets.old) from from
        (next_in (length buckets.old) from) }
    ensures reached { IsReached (marks_of buckets.new) }
    ensures same { IsSame buckets.old buckets.new }
    ensures apart { AreApart buckets.old → AreApart buckets.new }
    ensures count { count buckets.new ≡ count buckets.old }
{
    let mut hole = from;
    let mut at = next_of(buckets.len(), from);
    while mark_in(buckets, at) != 0 {
        hole = close_hole(buckets, hole, at);
        at = next_of(buckets.len(), at);
    }
}

/// Empties a bucket, moves back the entries that follow it, and returns its item.
pub(super) fn take_out<T: Copy>(buckets: &mut [Bucket<T>], at: usize) -> T
    requires within { at < length buckets.old }
    requires filled { IsFilledAt (marks_of buckets.old) at }
    requires ends { HasEmpty (marks_of buckets.old) }
    requires reached { IsReached (marks_of buckets.old) }
    requires apart { AreApart buckets.old }
    ensures reached { IsReached (marks_of buckets.new) }
    ensures apart { AreApart buckets.new }
    ensures item { (s : _) → Holds buckets.old at s → result ≡ s.item }
    ensures removes { Removes buckets.old buckets.new result }
    ensures count { count buckets.new + 1 ≡ count buckets.old }
{
    let item = buckets[at].item;
    buckets[at] = Bucket { mark: 0, item };
    close_gap(buckets, at);
    item
}

/// Adds an entry in the empty bucket at which the search for its mark ends. There must be one.
pub(super) fn put<T: Copy>(buckets: &mut [Bucket<T>], mark: u64, item: T)
    requires filled { mark ≢ 0 }
    requires room { count buckets.old < length buckets.old }
    requires reached { IsReached (marks_of buckets.old) }
    requires apart { AreApart buckets.old }
    requires absent { (s : _) → Has buckets.old s → s.item ≢ item }
    ensures reached { IsReached (marks_of buckets.new) }
    ensures apart { AreApart buckets.new }
    ensures adds { Adds buckets.old buckets.new (entry mark item) }
    ensures count { count buckets.new ≡ count buckets.old + 1 }
{
    let home = home_of(buckets.len(), mark);
    let at = find_empty(buckets, home);
    buckets[at] = Bucket { mark, item };
}

/// Copies all entries to other buckets, all of which are empty.
pub(super) fn copy_all<T: Copy>(from: &[Bucket<T>], to: &mut [Bucket<T>])
    requires apart { AreApart from.now }
    requires vacant { (k : ℕ) → IsEmptyAt (marks_of to.old) k }
    requires room { count from.now < length to.old }
    ensures reached { IsReached (marks_of to.new) }
    ensures apart { AreApart to.new }
    ensures same { IsSame from.now to.new }
    ensures count { count to.new ≡ count from.now }
{
    for bucket in from {
        if bucket.mark != 0 {
            put(to, bucket.mark, bucket.item);
        }
    }
}

/// Makes `count` empty buckets, which hold the filler as their item.
pub(super) fn empty_buckets<T: Copy>(
    alloc: Global,
    count: usize,
    filler: T,
) -> Result<Vec<Bucket<T>>, AllocError>
    ensures len { IfOk result (λ v. vec_len v ≡ count) }
    ensures vacant { IfOk result (λ v. (k : ℕ) → IsEmptyAt (marks_of v.items) k) }
{
    let mut buckets = Vec::with_capacity(alloc, count)?;
    for _i in 0..count {
        buckets.push(Bucket {
            mark: 0,
            item: filler,
        })?;
    }
    Ok(buckets)
}
