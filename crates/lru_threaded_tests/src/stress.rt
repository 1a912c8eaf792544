//! Tests of the stress workload: the calls that its workers make, what it counts of them, and how a
//! failed round is reported.

mod calls;
mod counts;
mod failures;
