//! The row on a cache that two threads share.

use crate::rows::line::Line;
use crate::rows::locked;
use concurrent_lru::lru_core::Refusal;
use concurrent_lru::unsharded::LruCache;
use std::alloc::Global;
use std::sync::Wait;
use std::thread;
use std::thread::Threads;

/// A thread finds the value that another thread made.
///
/// Returns `Memory` if a thread cannot be started.
pub fn finds_what_another_thread_made<R: Threads + Wait + Sync>(
    rt: &R,
    alloc: Global,
    line: &mut Line,
) -> Result<(), Refusal> {
    let cache: LruCache<u64, u64, &R> = LruCache::new(alloc, rt, 10);
    let shared = &cache;
    thread::scope(thread::scope_env(), rt, |scope| -> Result<(), Refusal> {
        let Ok(maker) = scope.spawn(move || locked::make(shared, 1, 7)) else {
            return Err(Refusal::Memory);
        };
        maker.join(rt)?;
        let Ok(finder) = scope.spawn(move || locked::show_found_value(shared, 1, line)) else {
            return Err(Refusal::Memory);
        };
        finder.join(rt)
    })
}
