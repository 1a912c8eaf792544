//! Rows on a cache behind its lock, and on its handles.
//!
//! All of them make values by one call, since each closure passed to a cache needs a proof.
ghost use Rattle.std.specs.Prelude.{◌<◌};

use crate::rows::line::Line;
use concurrent_lru::lru_core::Refusal;
use concurrent_lru::unsharded::{CacheHandle, GetError, LruCache};
use std::alloc::Global;
use std::sync::Wait;

/// A present key keeps its value, whatever its later makers would return; after an eviction it is
/// made again. A charge of 0 counts as 1.
pub fn makes_values<R: Wait>(
    rt: &R,
    alloc: Global,
    capacity: u64,
    charge: u64,
    line: &mut Line,
) -> Result<(), Refusal> {
    let cache = LruCache::new(alloc, rt, capacity);
    for (key, value) in [(1, 1), (2, 2), (1, 3)] {
        show_value(&cache, key, charge, value, line)?;
    }
    Ok(())
}

/// Advice evicts an entry that is not pinned, and does nothing to a pinned one.
pub fn evicts_on_advice<R: Wait>(rt: &R, alloc: Global, line: &mut Line) -> Result<(), Refusal> {
    let cache = LruCache::new(alloc, rt, 5);
    advise(&cache, line)
}

/// A making that fails leaves no entry, and the next one may succeed.
pub fn keeps_no_failed_making<R: Wait>(
    rt: &R,
    alloc: Global,
    line: &mut Line,
) -> Result<(), Refusal> {
    let cache = LruCache::new(alloc, rt, 10);
    for key in [1, 2] {
        make(&cache, key, key)?;
        show_found_value(&cache, key, line)?;
    }
    for value in [None, Some(3)] {
        let is_made = handle(&cache, 3, 1, value)?.is_some();
        line.show_made(is_made)?;
        show_found_value(&cache, 3, line)?;
    }
    Ok(())
}

/// Makes a key's value, if there is none, and drops the handle.
pub fn make<R: Wait>(cache: &LruCache<u64, u64, R>, key: u64, value: u64) -> Result<(), Refusal> {
    drop(handle(cache, key, 1, Some(value))?);
    Ok(())
}

/// Shows what a lookup finds.
pub fn show_found_value<R: Wait>(
    cache: &LruCache<u64, u64, R>,
    key: u64,
    line: &mut Line,
) -> Result<(), Refusal> {
    match cache.get(key)? {
        Some(handle) => line.show(format_args!("some {}", handle.value())),
        None => line.show_found(false),
    }
}

fn show_value<R: Wait>(
    cache: &LruCache<u64, u64, R>,
    key: u64,
    charge: u64,
    value: u64,
    line: &mut Line,
) -> Result<(), Refusal> {
    match handle(cache, key, charge, Some(value))? {
        Some(handle) => line.show(*handle.value()),
        None => Ok(()),
    }
}

// Returns early only where no handle exists: other paths are expensive to prove.
fn advise<R: Wait>(cache: &LruCache<u64, u64, R>, line: &mut Line) -> Result<(), Refusal> {
    let pinned = handle(cache, 1, 3, Some(1))?;
    let while_pinned = is_found_after_advice(cache, 1);
    drop(pinned);
    line.show_found(while_pinned?)?;
    line.show_found(is_found_after_advice(cache, 1)?)
}

fn is_found_after_advice<R: Wait>(
    cache: &LruCache<u64, u64, R>,
    key: u64,
) -> Result<bool, Refusal> {
    cache.advice_evict(key);
    Ok(cache.get(key)?.is_some())
}

// Returns a handle of a key's value, making the value if there is none. Returns `None` if the
// making fails, as it does if `value` is `None`. A charge of 0 counts as 1.
fn handle<'a, R: Wait>(
    cache: &'a LruCache<u64, u64, R>,
    key: u64,
    charge: u64,
    value: Option<u64>,
) -> Result<Option<CacheHandle<'a, u64, u64, R>>, Refusal> {
    match cache.get_or_try_init(key, charge.max(1), |_| value.ok_or(())) {
        Ok(handle) => Ok(Some(handle)),
        Err(GetError::Init(())) => Ok(None),
        Err(GetError::Memory) => Err(Refusal::Memory),
        Err(GetError::Overflow) => Err(Refusal::Overflow),
        Err(GetError::Full) => Err(Refusal::Full),
    }
}
