//! What the workloads need of the system.

use std::random::RandomSource;
use std::rt::Clock;
use std::sync::Wait;
use std::thread::Threads;

/// Threads, the right to wait, the clock and random numbers.
pub trait Host: Threads + Wait + Clock + RandomSource + Sync {}

impl<R: Threads + Wait + Clock + RandomSource + Sync> Host for R {}

/// A right to wait, of which each cache has a copy.
pub trait Waiter: Wait + Clone + Drop + Sync {}

impl<W: Wait + Clone + Drop + Sync> Waiter for W {}
