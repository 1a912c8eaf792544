//! Keys that are texts, and keys that count their copies: only a call that adds an entry copies
//! one.
ghost use Rattle.std.specs.Prelude.{◌<◌};

use crate::assertions::assert_equal;
use concurrent_lru::as_key::AsKey;
use concurrent_lru::{sharded, unsharded};
use lru_support::hashers::ByOwnNumber;
use std::alloc::{AllocError, Global};
use std::hash::{BuildHasherDefault, FoldHasher};
use std::sync::Wait;
use std::sync::atomic::{AtomicU64, Ordering};

// A number, and how many copies were made of it and of all that share this count.
#[derive(Drop)]
#[derive_where(PartialEq, Eq, Hash)]
struct Counted<'c> {
    number: u64,
    #[derive_where(skip)]
    copies: &'c AtomicU64,
}

impl<'c> Clone for Counted<'c> {
    ghost use Rattle.std.specs.Prelude.{◌≡◌};

    ghost is_clone = { λ x y. y ≡ x };

    fn clone(&self) -> Result<Counted<'c>, AllocError> {
        self.copies.fetch_add(1, Ordering::SeqCst);
        Ok(Counted {
            number: self.number,
            copies: self.copies,
        })
    }
}

type Cache<'c, R> = sharded::LruCache<Counted<'c>, u64, R, ByOwnNumber>;

// Adds two entries, one of which is held. Returns the number of copies then, and after each other
// call was made for a held key, an idle one and an absent one.
fn copies_of_calls<'c, R: Wait>(cache: &Cache<'c, R>, copies: &'c AtomicU64) -> [u64; 2] {
    let keys = [0, 1, 2].map(|number| Counted { number, copies });
    let held = cache.insert(&keys[0], 1, 5);
    drop(cache.get_or_init_by(&keys[1], 1, |_| 5));
    let before = copies.load(Ordering::SeqCst);
    drop(cache.get_or_init_by(&keys[0], 1, |_| 6));
    for key in &keys {
        drop(cache.find(key));
        drop(cache.read(key, |value| *value));
        let _ = cache.contains(key);
        cache.advise(key);
        cache.invalidate(key);
    }
    drop(held);
    [before, copies.load(Ordering::SeqCst)]
}

// Returns these numbers of a new cache. Its shards take the keys by reference, as it does.
fn copies_in_new<'c, R: Wait + Clone + Drop>(
    alloc: Global,
    rt: R,
    copies: &'c AtomicU64,
) -> Option<[u64; 2]> {
    let made = sharded::LruCache::with_shards_hasher(alloc, rt, 10, 3, ByOwnNumber);
    let cache: Cache<'c, R> = made.ok()?;
    Some(copies_of_calls(&cache, copies))
}

#[test]
fn only_a_new_entry_copies_its_key(rt: HostRuntime) {
    let copies = AtomicU64::new(0);
    assert_equal(&rt, copies_in_new(rt.alloc(), &rt, &copies), Some([2, 2]));
}

type Texts<R> = unsharded::LruCache<String, u64, R>;

type Hasher = BuildHasherDefault<FoldHasher>;

type TextsInShards<R> = sharded::LruCache<String, u64, R, Hasher>;

// Returns the value of a text, if it has one.
fn found<R: Wait, Q: AsKey<String>>(cache: &Texts<R>, key: Q) -> Option<u64> {
    match cache.read(key, |value| *value) {
        Ok(found) => found,
        Err(_) => None,
    }
}

// Returns the value of a text that was made in a new cache, and of one that was not: by a key, and
// by a text of which no key was made.
fn found_in_new<R: Wait + Drop>(alloc: Global, rt: R) -> Option<[Option<u64>; 4]> {
    let key = String::from_str(alloc, "foo").ok()?;
    let other = String::from_str(alloc, "bar").ok()?;
    let cache: Texts<R> = unsharded::LruCache::with_seed(alloc, rt, 10, 77);
    drop(cache.get_or_init_by(&key, 1, |_| 7));
    let by_key = [found(&cache, &key), found(&cache, &other)];
    Some([
        by_key[0],
        by_key[1],
        found(&cache, "foo"),
        found(&cache, "bar"),
    ])
}

#[test]
fn a_text_is_a_key(rt: HostRuntime) {
    assert_equal(
        &rt,
        found_in_new(rt.alloc(), &rt),
        Some([Some(7), None, Some(7), None]),
    );
}

// Returns whether a sharded cache of two texts has each: at first, after one of them was advised
// away by its text, and after the other was invalidated by its own.
fn left_in_new<R: Wait + Clone + Drop>(alloc: Global, rt: R) -> Option<[bool; 6]> {
    let cache: TextsInShards<R> = sharded::LruCache::with_shards_hasher(
        alloc,
        rt,
        100,
        4,
        Hasher::new(),
    ).ok()?;
    drop(cache.get_or_init_by(&String::from_str(alloc, "foo").ok()?, 1, |_| 7));
    drop(cache.get_or_init_by(&String::from_str(alloc, "bar").ok()?, 1, |_| 8));
    let all = [cache.contains("foo"), cache.contains("bar")];
    cache.advise("foo");
    let one = [cache.contains("foo"), cache.contains("bar")];
    cache.invalidate("bar");
    let none = [cache.contains("foo"), cache.contains("bar")];
    Some([all[0], all[1], one[0], one[1], none[0], none[1]])
}

#[test]
fn a_text_is_advised_and_invalidated(rt: HostRuntime) {
    let left = left_in_new(rt.alloc(), &rt);
    assert_equal(&rt, left, Some([true, true, false, true, false, false]));
}
