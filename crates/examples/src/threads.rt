//! Four threads share a cache: each value is made once, by whichever thread asks first.

use concurrent_lru::unsharded::LruCache;
use std::alloc::Global;
use std::io::Write;
use std::sync::Wait;
use std::sync::atomic::{AtomicU64, Ordering};
use std::thread::Threads;
use std::{io, thread};

/// Asks a cache from four threads, and writes how many values were made.
pub fn run<R: Threads + Wait + Send + Sync, O: Write>(
    rt: &R,
    alloc: Global,
    out: &mut O,
) -> io::Result<()> {
    let cache = LruCache::new(alloc, rt, 1_000);
    let made = AtomicU64::new(0);
    ask_from_four_threads(rt, &cache, &made);
    let made = made.load(Ordering::SeqCst);
    writeln!(
        out,
        "{made} values were made for 400 calls, and {} are kept",
        cache.len()
    )
}

// Each thread asks for the same 100 keys.
fn ask_from_four_threads<R: Threads + Wait + Send + Sync, W: Wait + Send + Sync>(
    rt: &R,
    cache: &LruCache<u64, u64, W>,
    made: &AtomicU64,
) {
    thread::scope(thread::scope_env(), rt, |scope| {
        for _ in 0..4u32 {
            let _started = scope.spawn(move || ask(cache, made));
        }
    });
}

// Asks for 100 keys, and counts the values that this thread had to make.
fn ask<W: Wait>(cache: &LruCache<u64, u64, W>, made: &AtomicU64) {
    for key in 0..100u64 {
        let handle = cache.get_or_init(key, 1, |key| {
            made.fetch_add(1, Ordering::SeqCst);
            *key * 2
        });
        // Refused only if there is no memory, and then nothing is kept.
        drop(handle);
    }
}
