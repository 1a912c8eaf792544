//! The README's first example.

use concurrent_lru::unsharded::LruCache;
use std::test::Fail;

#[test]
fn a_value_is_made_once(rt: HostRuntime) -> Result<(), Fail> {
    let cache = LruCache::new(rt.alloc(), &rt, 100);
    let first = cache.get_or_init(7, 1, |key| *key * 2)?;
    let second = cache.get_or_init(7, 1, |_| 0)?;
    assert_eq!(rt; (*first, *second), (14, 14));
    drop((first, second));
    assert_eq!(rt; cache.read(&7, |value| *value)?, Some(14));
    Ok(())
}
