//! The stress workload: workers that share a cache or a twin, and the checks and counts of what
//! they did. Programs and tests run it with their own numbers, and a benchmark has the workers
//! share its own caches.

mod checked;
mod counted;
pub mod outcome;
pub mod plan;
pub mod run;
pub mod seed;
mod start;
mod twin;
pub mod workers;
