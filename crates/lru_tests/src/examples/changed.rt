//! A value that has changed is invalidated, and a value that was already made is inserted.

use concurrent_lru::unsharded::LruCache;
use std::test::Fail;

#[test]
fn a_changed_value_is_not_handed_out(rt: HostRuntime) -> Result<(), Fail> {
    let cache = LruCache::new(rt.alloc(), &rt, 100);
    let old = cache.get_or_init(1, 1, |_| 10)?;

    // Later calls do not get the value that `old` still reads.
    cache.invalidate(&1);
    assert!(rt; cache.get(1)?.is_none());
    assert_eq!(rt; *old, 10);
    assert_eq!(rt; *cache.get_or_init(1, 1, |_| 11)?, 11);

    // An inserted value replaces the present one. The old one counts until its handle is dropped.
    let new = cache.insert(&1, 2, 12)?;
    assert_eq!(rt; *new, 12);
    assert_eq!(rt; cache.total_charge(), 3);
    Ok(())
}
