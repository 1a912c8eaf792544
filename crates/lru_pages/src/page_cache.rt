//! A cache of pages that threads share: a block is read only if its page is not in the cache.
//!
//! It is an unsharded cache with the mark `Numbered`, in which every page has the charge 1.
ghost use Rattle.std.specs.Prelude.{◌≡◌, Some, IfOk, IfErr, IfSome};
ghost use Rattle.std.specs.Fn.{FnOnceReturnsAt, FnOnceTakesAt};
ghost use Rattle.concurrent_lru.specs.ThreadedCalls.{IfInit};
ghost use Rattle.lru_pages.specs.Pages.{PageOf};

use crate::blocks::Blocks;
use crate::page::{Numbered, Page};
use concurrent_lru::unsharded::{CacheHandle, Counts, GetError, LruCache, Refusal};
use std::alloc::Global;
use std::fmt;
use std::sync::Wait;

/// A cache of the pages of a reader, for any number of threads. `R` is the right to wait, passed in
/// at creation.
#[derive(Drop)]
pub struct PageCache<'a, B: Blocks, R: Wait> {
    reader: &'a B,
    pages: LruCache<u64, Page<'a, B>, R, Numbered>,
}

impl<'a, B: Blocks, R: Wait> PageCache<'a, B, R> {
    /// Creates an empty cache that keeps unused pages while there are at most `capacity` pages in
    /// all. Takes no memory.
    ///
    /// It hashes page numbers with the seed 0: where they come from outside, use `with_seed`.
    pub fn new(alloc: Global, rt: R, reader: &'a B, capacity: u64) -> Self {
        PageCache {
            reader,
            pages: LruCache::marked(alloc, rt, capacity),
        }
    }

    /// Creates an empty cache as `new` does, which hashes page numbers with a seed. Takes no
    /// memory. `unsharded::LruCache::with_seed` says which seed to take.
    pub fn with_seed(alloc: Global, rt: R, reader: &'a B, capacity: u64, seed: u64) -> Self {
        PageCache {
            reader,
            pages: LruCache::marked_with_seed(alloc, rt, capacity, seed),
        }
    }

    /// Returns a handle of a page. If the page is not in the cache, one caller reads its block, at
    /// the charge 1 and without the lock, and other callers that ask for it wait.
    ///
    /// Returns `Init` with the reader's fault if the block could not be read, and `Memory` if the
    /// page's shared copies are refused after that. What was evicted for the page then stays
    /// evicted. Returns `Memory` if room for the page is refused, and `Overflow` if the page has
    /// the maximum number of handles, if the total is at its maximum, or if there are no stamps
    /// left: then no page changed.
    pub fn page(
        &self,
        number: u64,
    ) -> Result<CacheHandle<'_, u64, Page<'a, B>, R, Numbered>, GetError<B::Fault>>
        ensures key { IfOk result (λ h. h.key ≡ number) }
        ensures charge { IfOk result (λ h. h.charge ≡ Some 1) }
        ensures number { IfOk result (λ h. h.value.number ≡ number) }
        ensures block { IfOk result (λ h. B.is_block h.value.reader number h.value.bytes) }
        ensures fault { IfErr result (λ e. IfInit e
            (λ x. B.is_fault self.now.reader.now number x)) }
    {
        let reader = self.reader;
        self.pages
            .get_or_try_init(number, 1, |number| Page::read(reader, *number))
    }

    /// Calls `visit` with the bytes of a page, if it is in the cache, and returns its result.
    /// Returns `None` if the page is not there or is still being read; `visit` is then dropped
    /// without being called. It reads no block, makes no handle and takes no memory.
    ///
    /// It counts as a `page` whose handle is dropped at once: an unused page becomes the last to be
    /// evicted. `visit` runs, or is dropped, under the lock. It should be short, and must not use
    /// this cache, since such a call would deadlock.
    ///
    /// Returns `Overflow` if the page has the maximum number of handles.
    pub fn read<T, G>(&self, number: u64, visit: G) -> Result<Option<T>, Refusal>
    where
        G: FnOnce(&[u8]) -> T + Drop,
        requires callable { (p : PageOf B) → p.number ≡ number
            → B.is_block p.reader number p.bytes → FnOnceTakesAt G.FnOnce visit p.bytes }
        ensures page { IfOk result (λ found. IfSome found (λ t. (p : PageOf B) × (p.number ≡ number)
            × B.is_block p.reader number p.bytes × FnOnceReturnsAt G.FnOnce visit p.bytes t)) }
        ensures refused { IfErr result (λ e. e ≡ Refusal.Overflow) }
    {
        self.pages.read(
            &number,
            move |page| -> T
                requires { FnOnceTakesAt G.FnOnce visit page.now.bytes }
                ensures { FnOnceReturnsAt G.FnOnce visit page.now.bytes result }
            { visit(page.bytes()) },
        )
    }

    /// Invalidates a page, for a block that was written again: whoever asks for it after this call
    /// gets a page that is read after it. An unused page is evicted. A held page keeps its bytes
    /// for its holders, and counts until its last handle is dropped; so does one that is still
    /// being read, for the callers that wait for it. Takes no memory.
    pub fn invalidate(&self, number: u64) {
        self.pages.invalidate(&number);
    }

    /// Evicts every unused page. Takes no memory.
    pub fn prune(&self) {
        self.pages.prune();
    }

    /// Returns the number of pages, including those that are held, being read, or invalidated while
    /// they were held. Takes no memory.
    pub fn total_charge(&self) -> u64 {
        self.pages.total_charge()
    }

    /// Returns the counts of this cache's calls since it was created or last reset. `makings` is
    /// how often the reader was asked for a block, and `failures` how often it returned none, or
    /// there was no memory for the page. A `read` that finds no page counts as a miss, though it
    /// reads no block. Takes no memory.
    pub fn counts(&self) -> Counts {
        self.pages.counts()
    }

    /// Returns what `counts` returns and resets all counts to 0; the counting starts again from the
    /// pages that are present. Takes no memory.
    pub fn reset_counts(&self) -> Counts {
        self.pages.reset_counts()
    }

    /// Returns the capacity in pages. Takes no memory.
    pub fn capacity(&self) -> u64 {
        self.pages.capacity()
    }

    /// Sets the capacity in pages, and evicts unused pages, least recently released first, while
    /// there are more. Takes no memory.
    pub fn set_capacity(&self, capacity: u64) {
        self.pages.set_capacity(capacity);
    }
}

// Prints the pages by number, under the lock.
impl<B: Blocks, R: Wait> fmt::Debug for PageCache<'_, B, R> {
    fn fmt<W: fmt::Write>(&self, f: &mut fmt::Formatter<W>) -> fmt::Result {
        self.pages.fmt(f)
    }
}
