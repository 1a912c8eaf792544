//! The program, over streams and files that the caller provides.

use crate::csv::write_csv;
use crate::failure::Failure;
use crate::hit_curve::HitCurve;
use crate::options::{Options, Request};
use crate::order::Replays;
use crate::plot::Plot;
use crate::progress::Progress;
use crate::results::{Results, rows};
use crate::sample;
use crate::table::write_table;
use crate::trace::Trace;
use lru_sizing::curve::Curve;
use lru_sizing::estimate::{Estimate, Sample};
use lru_sizing::refusal::Refusal;
use lru_sizing::replay::replay;
use lru_sizing::reuse_weights::reuse_weights;
use lru_support::lines::Lines;
use std::alloc::Global;
use std::fs::{self, File, Files};
use std::io::{BufRead, BufReader, Write};
use std::sync::Wait;

/// The streams of a run.
#[derive(Drop)]
pub struct Streams<'a, I, O, E> {
    /// The trace, unless the arguments name a file that has it.
    pub input: I,
    /// Where the results go.
    pub out: &'a mut O,
    /// Where error messages go.
    pub err: &'a mut E,
    /// Whether `err` is a terminal, which then shows how many lines have been read so far.
    pub err_is_terminal: bool,
}

/// Runs the program with the arguments after its name, and returns its exit status.
///
/// The trace is read to its end. The plot and the CSV file then go where the arguments say, and the
/// table goes to `out`, unless one of the two takes its place there.
///
/// The exit status is 0 on success. It is 2 if the arguments are invalid, if the trace is empty, if
/// a line of it is not a use, if a key has two charges, or if the sample is too small. It is 1 if
/// reading or writing fails, if memory runs out, if the charges of the keys add up to more than
/// `u64::MAX`, or if a replay contradicts the curve. On failure, a message that starts with the
/// program's name goes to `err`, and nothing to `out` except what was written before a write
/// failed.
pub fn program<R: Files<File = File> + Wait, I: BufRead + Drop, O: Write, E: Write>(
    alloc: Global,
    rt: &R,
    args: &[String],
    streams: Streams<'_, I, O, E>,
) -> u8 {
    let Streams {
        input,
        out,
        err,
        err_is_terminal,
    } = streams;
    let mut progress = Progress::new(err, err_is_terminal);
    let ended = run(alloc, rt, args, input, out, &mut progress);
    match ended {
        Ok(()) => 0,
        Err(failure) => failure.report(err),
    }
}

fn run<R: Files<File = File> + Wait, I: BufRead + Drop, O: Write, E: Write>(
    alloc: Global,
    rt: &R,
    args: &[String],
    input: I,
    out: &mut O,
    progress: &mut Progress<'_, E>,
) -> Result<(), Failure> {
    match Request::parse(alloc, args)? {
        Request::Text(text) => out.write_all(text.as_bytes())?,
        Request::Size(options) => {
            let trace = read(alloc, rt, &options, input, progress)?;
            let mut table = Vec::new(alloc);
            let results = size(alloc, rt, &options, &trace, &mut table)?;
            write_table(&results, &mut table)?;
            if !options.replace_table() {
                out.write_all(&table)?;
                out.flush()?;
            }
            write_files(alloc, rt, &options, &results, out)?;
        }
    }
    out.flush()?;
    Ok(())
}

// Reads the trace from the file that the options name, or else from `input`.
fn read<F: Files<File = File>, I: BufRead + Drop, E: Write>(
    alloc: Global,
    files: &F,
    options: &Options<'_>,
    input: I,
    progress: &mut Progress<'_, E>,
) -> Result<Trace, Failure> {
    let sample = Sample::one_in(options.sample.unwrap_or(1));
    let Some(path) = options.trace else {
        return Trace::read(alloc, sample, &mut Lines::new(alloc, input), progress);
    };
    let read = File::open(files, path)
        .map_err(Failure::Read)
        .and_then(|file| Ok(Lines::new(alloc, BufReader::new(alloc, file)?)))
        .and_then(|mut lines| Trace::read(alloc, sample, &mut lines, progress));
    read.map_err(|failure| failure.of_trace(alloc, path))
}

// Writes the lines about the trace to `out`, and counts the hits. Fails with `NoUses` if the trace
// is empty.
fn size<W: Wait, O: Write>(
    alloc: Global,
    wait: &W,
    options: &Options<'_>,
    trace: &Trace,
    out: &mut O,
) -> Result<Results, Failure> {
    let curve = curve(alloc, options, trace, out)?;
    let replays = Replays::new(alloc, wait, trace, &options.orders)?;
    let rows = rows(alloc, &curve, &replays, &options.capacities)?;
    let results = Results {
        curve,
        orders: options.orders.clone()?,
        rows,
        has_one_charge: trace.has_one_charge(),
    };
    if results.ignore_charges() {
        writeln!(
            out,
            "the optimum ignores charges, which differ: other orders may hit more often"
        )?;
    }
    Ok(results)
}

// Writes the lines about the trace and the curve to `out`, and computes the curve. Fails with
// `NoUses` if the trace is empty.
fn curve<O: Write>(
    alloc: Global,
    options: &Options<'_>,
    trace: &Trace,
    out: &mut O,
) -> Result<HitCurve, Failure> {
    if trace.total_uses == 0 {
        return Err(Failure::NoUses);
    }
    if options.sample.is_some() {
        writeln!(
            out,
            "{} uses, {} keys in the sample",
            trace.total_uses,
            trace.keys()
        )?;
        if let Some(points) = sample::measured_error(trace) {
            writeln!(
                out,
                "estimated hit ratios, which in measurements were wrong by up to {points} \
                    percentage points"
            )?;
        }
        return estimate(alloc, trace);
    }
    writeln!(out, "{} uses of {} keys", trace.total_uses, trace.keys())?;
    let weights = reuse_weights(alloc, &trace.uses)?;
    if let Some(capacity) = options.check {
        check(alloc, trace, &weights, capacity)?;
        writeln!(
            out,
            "{} uses replayed at capacity {capacity}: 0 differences",
            trace.total_uses
        )?;
    }
    Ok(HitCurve::Exact(Curve::new(alloc, &trace.uses, &weights)?))
}

// Estimates the curve from the sampled uses.
fn estimate(alloc: Global, trace: &Trace) -> Result<HitCurve, Failure> {
    sample::check(trace)?;
    match Estimate::new(alloc, trace.sample, &trace.uses, trace.total_uses) {
        Ok(estimate) => Ok(HitCurve::Estimated(estimate)),
        // The place is one among the sampled uses, so it is not a line.
        Err(Refusal::Overflow(_)) => Err(Failure::SampleOverflow),
        Err(refusal) => Err(Failure::from(refusal)),
    }
}

// Replays the trace at a capacity. Fails with `Mismatch` at the first use that does not hit or miss
// as its reuse weight says.
fn check(
    alloc: Global,
    trace: &Trace,
    weights: &[Option<u64>],
    capacity: u64,
) -> Result<(), Failure> {
    let hits = replay(alloc, &trace.uses, capacity)?;
    for (place, (hit, weight)) in hits.iter().zip(weights).enumerate() {
        let fits = matches!(weight, Some(weight) if *weight <= capacity);
        if *hit != fits {
            return Err(Failure::Mismatch {
                line: (place as u64).saturating_add(1),
            });
        }
    }
    Ok(())
}

// Writes the files that the options name.
fn write_files<F: Files<File = File>, O: Write>(
    alloc: Global,
    files: &F,
    options: &Options<'_>,
    results: &Results,
    out: &mut O,
) -> Result<(), Failure> {
    if let Some(path) = options.svg {
        let mut svg = Vec::new(alloc);
        Plot::new(results).write_svg(alloc, &mut svg)?;
        write_file(alloc, files, path, &svg, out)?;
    }
    if let Some(path) = options.csv {
        let mut csv = Vec::new(alloc);
        write_csv(alloc, results, &mut csv)?;
        write_file(alloc, files, path, &csv, out)?;
    }
    Ok(())
}

// Writes a file, or `out` if the path is `-`.
fn write_file<F: Files<File = File>, O: Write>(
    alloc: Global,
    files: &F,
    path: &str,
    bytes: &[u8],
    out: &mut O,
) -> Result<(), Failure> {
    if path == "-" {
        out.write_all(bytes)?;
        return Ok(());
    }
    match fs::write(files, path, bytes) {
        Ok(()) => Ok(()),
        Err(error) => Err(Failure::from_file_error(alloc, path, error)),
    }
}
