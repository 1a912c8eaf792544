//! The program, over streams that the caller provides.

use crate::failure::Failure;
use crate::rows::ROWS;
use crate::rows::line::Line;
use lru_support::stress::outcome::RoundFailure;
use lru_support::stress::plan::Plan;
use lru_support::stress::{run as stress, seed};
use std::alloc::Global;
use std::io::Write;
use std::sync::Wait;
use std::thread::Threads;

/// Runs the program on its arguments.
///
/// `rows` writes the worked rows to `out`. `stress SEED`, with a `u64` in decimal digits, runs the
/// stress workload from this seed and writes `stress ok` to `out`. What was written before a
/// failure stays written.
///
/// Returns `Usage` for any other arguments, `Stress` with the seed if a check of the stress
/// workload fails, or it is refused memory or a thread, `Refused` if a call is refused though no
/// row expects it, or the thread of a row cannot be started, and `Write` with the system's error if
/// a write to `out` fails.
pub fn program<R: Threads + Wait + Clone + Drop + Send + Sync, O: Write>(
    rt: &R,
    alloc: Global,
    words: &[String],
    out: &mut O,
) -> Result<(), Failure> {
    match words {
        [word] if word.as_str() == "rows" => write_rows(rt, alloc, out),
        [word, seed] if word.as_str() == "stress" => write_stress(rt, alloc, seed.as_str(), out),
        _ => Err(Failure::Usage),
    }
}

// Runs the stress workload and writes that it succeeded.
fn write_stress<R: Threads + Wait + Clone + Drop + Send + Sync, O: Write>(
    rt: &R,
    alloc: Global,
    word: &str,
    out: &mut O,
) -> Result<(), Failure> {
    let Some(seed) = seed::number(word) else {
        return Err(Failure::Usage);
    };
    if let Err(trouble) = stress::run(rt, alloc, &Plan::new(seed)) {
        return Err(Failure::Stress(RoundFailure { seed, trouble }));
    }
    writeln!(out, "stress ok")?;
    Ok(())
}

// Writes every row, with its number. What was written before a failure stays written.
fn write_rows<R: Threads + Wait + Sync, O: Write>(
    rt: &R,
    alloc: Global,
    out: &mut O,
) -> Result<(), Failure> {
    for (number, row) in (1u32..).zip(ROWS) {
        let mut line = Line::new(alloc);
        row.run(rt, alloc, &mut line).map_err(Failure::Refused)?;
        writeln!(out, "row {number}: {line}")?;
    }
    Ok(())
}
