//! A cursor that owns its pin of the page that it reads, so that it borrows nothing.

use concurrent_lru::lru_core::Refusal;
use concurrent_lru::unsharded::{LruCache, OwnedHandle};
use std::sync::{Arc, Wait};
use std::test::Fail;

/// The rows of a page.
#[derive(Drop)]
struct Page {
    rows: [u64; 4],
}

// Stands for a read from a disk.
fn load(number: &u64) -> Page {
    Page { rows: [*number; 4] }
}

/// Reads the rows of a page, which stays in the cache as long as the cursor exists. It borrows
/// nothing, so it can be stored and returned.
#[derive(Drop)]
struct Cursor<R: Wait + Drop> {
    page: OwnedHandle<u64, Page, R>,
    row: usize,
}

impl<R: Wait + Drop> Cursor<R> {
    // `get_or_init_owned` is an associated function, as it takes the `Arc` and not the cache.
    fn open(pages: &Arc<LruCache<u64, Page, R>>, number: u64) -> Result<Cursor<R>, Refusal> {
        let page = LruCache::get_or_init_owned(pages, &number, 1, load)?;
        Ok(Cursor { page, row: 0 })
    }

    // Returns the next row, or `None` at the end of the page.
    fn next(&mut self) -> Option<u64> {
        let row = *self.page.rows.get(self.row)?;
        self.row += 1;
        Some(row)
    }
}

#[test]
fn a_cursor_keeps_its_page(rt: HostRuntime) -> Result<(), Fail> {
    // A cache that keeps no page unless a cursor is on it.
    let pages = Arc::new(rt.alloc(), LruCache::new(rt.alloc(), rt.clone()?, 0))?;
    let mut cursor = Cursor::open(&pages, 7)?;
    assert_eq!(rt; cursor.next(), Some(7));
    assert!(rt; pages.contains(&7));
    assert!(rt; LruCache::get_owned(&pages, &8)?.is_none());

    // The cursor keeps the cache alive too.
    drop(pages);
    assert_eq!(rt; cursor.next(), Some(7));
    Ok(())
}
