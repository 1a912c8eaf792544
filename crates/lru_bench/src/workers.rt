//! Workers that make one operation on the keys of a workload, each on keys of its own.

use crate::draws::Draws;
use crate::keys::{Ascending, FIRST_ABSENT, Keys, Source};
use crate::operation::{Found, Operation};
use concurrent_lru::lru_core::Refusal;
use std::num::NonZeroU64;
use std::sync::Wait;
use std::sync::atomic::{AtomicU64, Ordering};
use std::thread;
use std::thread::Threads;

/// The keys of a workload.
#[derive(Clone, Copy)]
pub enum WorkloadKeys<'a> {
    /// Drawn evenly from those below a number, all of which are present.
    Present(NonZeroU64),
    /// Absent ones, each asked for once.
    Absent,
    /// Those that were drawn before.
    Drawn(&'a Draws),
}

/// The sum of the values that operations read, and how many of them hit.
#[derive(Clone, Copy)]
pub struct Totals {
    /// The sum of the values that were read.
    pub sum: u64,
    /// The number of operations that found their value.
    pub hits: u64,
}

impl Totals {
    #[inline(always)]
    fn add(&mut self, found: Found) {
        self.sum = self.sum.wrapping_add(found.value);
        self.hits = self.hits.wrapping_add(u64::from(found.is_hit));
    }
}

/// Makes this many operations in each of the threads. A single thread is the caller's.
///
/// Returns `Memory` if a thread cannot be started or a call is refused.
pub fn run<R: Threads + Wait + Sync, U: Operation + Sync>(
    rt: &R,
    operation: &U,
    asked: WorkloadKeys<'_>,
    threads: u16,
    operations: u32,
) -> Result<Totals, Refusal> {
    if threads == 1 {
        work(operation, asked, 0, operations)
    } else {
        share(rt, operation, asked, threads, operations)
    }
}

/// Makes this many operations in each of the threads, none of which is the caller's, as `run` does.
pub fn share<R: Threads + Wait + Sync, U: Operation + Sync>(
    rt: &R,
    operation: &U,
    asked: WorkloadKeys<'_>,
    threads: u16,
    operations: u32,
) -> Result<Totals, Refusal> {
    let (sum, hits, ended) = (AtomicU64::new(0), AtomicU64::new(0), AtomicU64::new(0));
    let (all, there, done) = (&sum, &hits, &ended);
    thread::scope(thread::scope_env(), rt, |scope| {
        for worker in 0..threads {
            let _started = scope.spawn(move || {
                if let Ok(told) = work(operation, asked, worker, operations) {
                    all.fetch_add(told.sum, Ordering::SeqCst);
                    there.fetch_add(told.hits, Ordering::SeqCst);
                    done.fetch_add(1, Ordering::SeqCst);
                }
            });
        }
    });
    if ended.load(Ordering::SeqCst) == u64::from(threads) {
        Ok(Totals {
            sum: sum.load(Ordering::SeqCst),
            hits: hits.load(Ordering::SeqCst),
        })
    } else {
        Err(Refusal::Memory)
    }
}

/// Makes the operations of one worker.
pub fn work<U: Operation>(
    operation: &U,
    asked: WorkloadKeys<'_>,
    worker: u16,
    operations: u32,
) -> Result<Totals, Refusal> {
    let count = u64::from(operations);
    match asked {
        WorkloadKeys::Present(entries) => operate(
            operation,
            Keys::of_worker(entries, worker),
            count,
        ),
        WorkloadKeys::Absent => {
            let before = u64::from(worker).wrapping_mul(count);
            let first = FIRST_ABSENT.wrapping_add(before);
            operate(operation, Ascending { next: first }, count)
        }
        WorkloadKeys::Drawn(draws) => operate(operation, draws.of_worker(worker), count),
    }
}

/// Makes the operation once on each key from 0 up to `entries`.
pub fn fill<U: Operation>(operation: &U, entries: NonZeroU64) -> Result<Totals, Refusal> {
    operate(operation, Ascending { next: 0 }, entries.get())
}

/// Makes the operation once on each of these keys, in their order.
pub fn ask_all<U: Operation>(operation: &U, draws: &Draws) -> Result<Totals, Refusal> {
    operate(operation, draws.of_worker(0), draws.len())
}

// Makes this many operations.
fn operate<U: Operation, S: Source + Drop>(
    operation: &U,
    mut source: S,
    count: u64,
) -> Result<Totals, Refusal> {
    let mut told = Totals { sum: 0, hits: 0 };
    for _ in 0..count {
        told.add(operation.run(source.next_key())?);
    }
    Ok(told)
}
