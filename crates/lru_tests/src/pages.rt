//! Tests of page caches, over a reader in memory and over files, and of a pool of open files.

mod files;
mod fours;
mod in_memory;
mod pool;
mod scratch;
