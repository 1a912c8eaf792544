//! Pages of a reader over memory: which blocks are read, which pages are found, and what a fault
//! leaves.

use crate::assertions::assert_equal;
use crate::pages::fours::{Fault, Fours};
use concurrent_lru::unsharded::{Counts, GetError};
use lru_pages::PageCache;
use lru_support::tables::says;
use std::process::Abort;
use std::sync::Wait;
use std::test::Fail;

// A step of a run, and its result. Each handle is dropped at once.
#[derive(Clone, Copy, Debug)]
enum Step {
    // The page of the number has the bytes of its block.
    Gives(u64),
    // The page of the number is in the cache, and has the bytes of its block.
    Shows(u64),
    // The page of the number is not in the cache.
    Hides(u64),
    // There is no such block.
    Lacks(u64),
    // There are this many pages.
    Holds(u64),
    // The page of the number is invalidated.
    Invalidate(u64),
    // All pages that are not held are evicted.
    Prune,
    // At most this many stay.
    SetCapacity(u64),
}

// Returns whether a step has its result.
fn goes<R: Wait>(pages: &PageCache<'_, Fours<R>, R>, step: Step) -> bool {
    match step {
        Step::Gives(number) => {
            let page = pages.page(number);
            matches!(&page, Ok(page) if page.value().bytes() == four(number).as_slice())
        }
        Step::Shows(number) => shown(pages, number) == Some(true),
        Step::Hides(number) => shown(pages, number).is_none(),
        Step::Lacks(number) => { matches!(pages.page(number), Err(GetError::Init(Fault::Absent))) }
        Step::Holds(count) => pages.total_charge() == count,
        Step::Invalidate(number) => {
            pages.invalidate(number);
            true
        }
        Step::Prune => {
            pages.prune();
            true
        }
        Step::SetCapacity(capacity) => {
            pages.set_capacity(capacity);
            pages.capacity() == capacity
        }
    }
}

// Returns the bytes of a block.
fn four(number: u64) -> [u8; 4] {
    [(number % 256) as u8; 4]
}

// Returns whether the page of a number has the bytes of its block, if it is in the cache.
fn shown<R: Wait>(pages: &PageCache<'_, Fours<R>, R>, number: u64) -> Option<bool> {
    pages
        .read(number, |bytes| bytes == four(number).as_slice())
        .unwrap_or(None)
}

// Makes these steps. The first that has another result ends the test.
fn goes_all<R: Abort, Q: Wait>(rt: &R, pages: &PageCache<'_, Fours<Q>, Q>, steps: &[Step]) {
    for step in steps {
        assert!(rt; goes(pages, *step), "at {step:?}");
    }
}

#[test]
fn a_block_is_read_once_while_its_page_is_there(rt: HostRuntime) {
    let reader = Fours::new(rt.alloc(), &rt);
    let pages = PageCache::new(rt.alloc(), &rt, &reader, 2);
    let steps = [
        Step::Gives(1),
        Step::Gives(2),
        Step::Gives(1),
        Step::Gives(3),
        Step::Gives(2),
        // Room was made for it.
        Step::Lacks(9),
        Step::Holds(1),
        Step::Gives(2),
        Step::Gives(3),
        Step::Holds(2),
        // It counts as a use, so the other page is evicted.
        Step::Shows(2),
        Step::Gives(4),
        Step::Hides(3),
        Step::Shows(2),
        // It leaves no handle.
        Step::Prune,
        Step::Holds(0),
        Step::Hides(2),
    ];
    goes_all(&rt, &pages, &steps);
    assert!(rt; reader.was_asked(&[1, 2, 3, 2, 9, 3, 4]));
}

// Returns hits, misses, waits, makings, failures, insertions, evictions and removals.
fn numbers(counts: &Counts) -> [u64; 8] {
    [
        counts.hits,
        counts.misses,
        counts.waits,
        counts.makings,
        counts.failures,
        counts.insertions,
        counts.evictions,
        counts.removals,
    ]
}

#[test]
fn reads_and_finds_are_counted(rt: HostRuntime) {
    let reader = Fours::new(rt.alloc(), &rt);
    let pages = PageCache::new(rt.alloc(), &rt, &reader, 2);
    let steps = [
        Step::Gives(1),
        Step::Gives(1),
        Step::Shows(1),
        Step::Hides(2),
        Step::Gives(2),
        Step::Lacks(9),
        Step::Gives(3),
    ];
    goes_all(&rt, &pages, &steps);
    // Each block that the reader was asked for is a making; a read that finds no page is not.
    assert!(rt; reader.was_asked(&[1, 2, 9, 3]));
    let wanted = [2, 5, 0, 4, 1, 4, 1, 1];
    assert_equal(&rt, numbers(&pages.counts()), wanted);
    assert_equal(&rt, numbers(&pages.reset_counts()), wanted);
    assert_equal(&rt, numbers(&pages.counts()), [0; 8]);
}

#[test]
fn a_capacity_of_pages_is_set(rt: HostRuntime) {
    let reader = Fours::new(rt.alloc(), &rt);
    let pages = PageCache::with_seed(rt.alloc(), &rt, &reader, 3, 77);
    let steps = [
        Step::Gives(1),
        Step::Gives(2),
        Step::Gives(3),
        Step::SetCapacity(1),
        Step::Holds(1),
        Step::Gives(3),
        Step::SetCapacity(2),
        Step::Gives(2),
        Step::Holds(2),
        Step::Prune,
        Step::Holds(0),
        // A prune leaves the capacity.
        Step::Gives(1),
        Step::Gives(2),
        Step::Gives(3),
        Step::Holds(2),
    ];
    goes_all(&rt, &pages, &steps);
    assert!(rt; reader.was_asked(&[1, 2, 3, 2, 1, 2, 3]));
}

#[test]
fn an_invalidated_page_is_read_again(rt: HostRuntime) {
    let reader = Fours::new(rt.alloc(), &rt);
    let pages = PageCache::new(rt.alloc(), &rt, &reader, 4);
    let held = pages.page(2).expect(&rt, "block 2 is there");
    let steps = [
        Step::Gives(1),
        Step::Invalidate(1),
        Step::Hides(1),
        Step::Gives(1),
        // A held page is no longer found, and counts until it is released.
        Step::Invalidate(2),
        Step::Hides(2),
        Step::Holds(2),
        Step::Gives(2),
        Step::Holds(3),
    ];
    goes_all(&rt, &pages, &steps);
    assert!(rt; held.value().bytes() == four(2).as_slice());
    assert!(rt; held.value().reader().was_asked(&[2, 1, 1, 2]));
    drop(held);
    assert!(rt; goes(&pages, Step::Holds(2)));
}

#[test]
fn pages_are_printed_by_their_numbers(rt: HostRuntime) -> Result<(), Fail> {
    let reader = Fours::new(rt.alloc(), &rt);
    let pages = PageCache::new(rt.alloc(), &rt, &reader, 2);
    says(rt.alloc(), &pages, "{}")?;
    assert!(rt; goes(&pages, Step::Gives(5)));
    says(rt.alloc(), &pages, "{5: Page { number: 5, len: 4 }}")
}
