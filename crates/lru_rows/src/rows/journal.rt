//! The row on a cache that records each accepted step.

use crate::rows::line::Line;
use concurrent_lru::lru_core::{Evicted, Refusal};
use lru_journal::journal::Journal;
use std::alloc::Global;
use std::sync::Arc;

/// Accepted steps are recorded, even if nothing was found; refused ones are not.
pub fn records_accepted_steps(alloc: Global, line: &mut Line) -> Result<(), Refusal> {
    let mut journal = Journal::new(alloc, 1);
    make(alloc, &mut journal)?;
    evict(alloc, &mut journal, line)?;
    // The pin of the evicted entry is stale.
    match journal.release(0) {
        Ok(evicted) => show_stamps(alloc, evicted, line)?,
        Err(refusal) => line.show_refusal(refusal)?,
    }
    line.show(journal.records().len())?;
    for record in journal.records() {
        line.show_below(record)?;
    }
    Ok(())
}

// Makes a value and releases its pin.
fn make(alloc: Global, journal: &mut Journal<u64, u64>) -> Result<(), Refusal> {
    journal.begin(&1, 1)?;
    if let Err((refusal, _)) = journal.ready(0, Arc::new(alloc, 1)?) {
        return Err(refusal);
    }
    journal.release(0)?;
    Ok(())
}

// Begins on another key, and looks up the evicted one.
fn evict(alloc: Global, journal: &mut Journal<u64, u64>, line: &mut Line) -> Result<(), Refusal> {
    let (_, evicted) = journal.begin(&2, 1)?;
    show_stamps(alloc, evicted, line)?;
    journal.get(&1)?;
    Ok(())
}

fn show_stamps(alloc: Global, evicted: Evicted<u64, u64>, line: &mut Line) -> Result<(), Refusal> {
    let stamps: Vec<u64> = evicted.into_iter().map(|gone| gone.stamp).collect(alloc)?;
    line.show_numbers(&stamps)
}
