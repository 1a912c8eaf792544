//! Tests of the clock alone: its handles, those that keep their cache alive, its makers, the limits
//! of its numbers, each of its shards, its strict limit, a seeded run beside a plain cache, a storm
//! of threads, callers with a past, visits to all entries, what it counts, what keeps an entry, and
//! what an invalidation leaves.

mod counts;
mod crossings;
mod handles;
mod invalidations;
mod limits;
mod makers;
mod owned;
mod pasts;
mod plain;
mod records;
mod second_looks;
mod seeded;
mod storm;
mod strict;
mod uses;
mod visits;
mod wakeups;
