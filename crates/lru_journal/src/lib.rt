//! A cache that keeps a record of each accepted call: a journal for a single owner, and a twin of
//! the shared cache for threads, whose callers hold receipts of their own calls.
//!
//! A journal's records are one legal history from the empty cache to the present one. Whoever joins
//! all receipts of a twin gets its journal, and the records are exactly these receipts.
#![tactic(auto)]

mod door;
pub mod journal;
mod pin;
mod record;
mod tally;
mod twin;
mod twin_state;
