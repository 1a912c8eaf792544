//! The program, over streams that the caller provides.

use crate::attack::Attack;
use crate::draws::Draws;
use crate::failure::Failure;
use crate::plan::{Mostly, Plan};
use crate::request::{Request, number};
use crate::single::Single;
use crate::soak::Soak;
use crate::{bench, refused};
use std::alloc::Global;
use std::fs::Files;
use std::io::Write;
use std::num::NonZeroU64;
use std::random::RandomSource;
use std::rt::Clock;
use std::sync::Wait;
use std::thread;
use std::thread::Threads;

// The word that precedes the path of a file of keys.
const READ_MOSTLY: &str = "read_mostly";

/// Runs the program on the words after its name, and returns the exit status.
///
/// - `check` runs each workload small, and writes a line for each to `out` with the sum of the
///   values that it read, which is always the same. Status 0.
/// - `time` runs workloads long enough to be timed, and writes how many nanoseconds a call took to
///   `out`, and the number of processors to `err`. The words after it say which workloads, on how
///   many entries, and whether in more threads than one, as `Request::of_words` parses them. The
///   last ones may be `read_mostly`, the path of a file of keys and perhaps the capacity, for reads
///   that mostly hit, whose hit ratios are written to `err`. Status 0, or 2 after a line on `err`
///   for an unknown word, and then nothing runs.
/// - `plan` writes to `out` what `time` would run with the same words, and runs nothing. Status 0.
/// - `run`, `lock` or `clock`, a workload of hits or misses, a number of entries and a number of
///   calls make these calls in one thread, on a cache on one lock or on a clock of one shard, and
///   write the sum of the values that they read to `out`. Status 0.
/// - `attack`, `chosen` or `drawn`, `known`, `seeded` or `shards`, and a number put this many keys
///   into a cache, and write the number of its entries to `out`. Status 0.
/// - `soak`, a seed and a number of minutes run rounds of the stress workload from this seed, the
///   one after it, and so on, until the minutes are over, and write a line for each round and the
///   number of rounds to `out`. A round that was started is completed. Status 0.
/// - `refused` and the name of a script, or `refused` alone for all scripts, make the calls of the
///   script, and each call that is refused for lack of memory once more. The answers are written to
///   `out`, and the refused calls to `err`. Status 0.
/// - Any other words write the usage line to `err`. Status 2.
///
/// Each failure writes a line to `err` and has status 1: `refused` and the number of the refusal if
/// a call is refused, `stress failed` if a call of the stress workload returns no value or that of
/// another key, the seed of a round that failed and why, and a line of its own if the system fails,
/// for example at a write.
pub fn program<R, O: Write, E: Write>(
    rt: &R,
    alloc: Global,
    words: &[String],
    out: &mut O,
    err: &mut E,
) -> u8
where
    R: Threads + Wait + Clock + RandomSource + Files + Clone + Drop + Send + Sync,
{
    match run(rt, alloc, words, out, err) {
        Ok(()) => 0,
        Err(failure) => failure.report(err),
    }
}

fn run<R, O: Write, E: Write>(
    rt: &R,
    alloc: Global,
    words: &[String],
    out: &mut O,
    err: &mut E,
) -> Result<(), Failure>
where
    R: Threads + Wait + Clock + RandomSource + Files + Clone + Drop + Send + Sync,
{
    match words {
        [word] if word.as_str() == "check" => {
            bench::run(rt, alloc, &Plan::check(alloc)?, out, err)
        }
        [word, asked @ ..] if word.as_str() == "time" => {
            let plan = timed(rt, alloc, asked)?;
            tell_machine(rt, err)?;
            bench::run(rt, alloc, &plan, out, err)
        }
        [word, asked @ ..] if word.as_str() == "plan" => {
            writeln!(out, "{}", timed(rt, alloc, asked)?)?;
            Ok(())
        }
        [word, target, workload, entries, calls] if word.as_str() == "run" => {
            let single = Single::of_words(
                target.as_str(),
                workload.as_str(),
                entries.as_str(),
                calls.as_str(),
            )?;
            writeln!(out, "{}", single.run(alloc, rt)?)?;
            Ok(())
        }
        [word, origin, target, count] if word.as_str() == "attack" => {
            let attack = Attack::of_words(origin.as_str(), target.as_str(), count.as_str())?;
            writeln!(out, "{}", attack.run(rt, alloc, rt)?)?;
            Ok(())
        }
        [word, seed, minutes] if word.as_str() == "soak" => {
            Soak::of_words(seed.as_str(), minutes.as_str())?.run(rt, alloc, out)
        }
        [word] if word.as_str() == "refused" => refused::run(rt, alloc, None, out, err),
        [word, script] if word.as_str() == "refused" => {
            refused::run(rt, alloc, Some(script.as_str()), out, err)
        }
        _ => Err(Failure::Usage),
    }
}

// Parses the words after `plan` or `time`.
fn timed<R: Files>(rt: &R, alloc: Global, words: &[String]) -> Result<Plan, Failure> {
    match words {
        [rest @ .., word, path] if word.as_str() == READ_MOSTLY => {
            timed_mostly(rt, alloc, rest, path.as_str(), None)
        }
        [rest @ .., word, path, capacity] if word.as_str() == READ_MOSTLY => {
            let capacity = number(capacity.as_str()).ok_or(Failure::Word)?;
            timed_mostly(rt, alloc, rest, path.as_str(), Some(capacity))
        }
        _ => Ok(Plan::time(Request::of_words(alloc, words, false)?, None)),
    }
}

// Parses words to which reads that mostly hit are added.
fn timed_mostly<R: Files>(
    rt: &R,
    alloc: Global,
    words: &[String],
    path: &str,
    capacity: Option<NonZeroU64>,
) -> Result<Plan, Failure> {
    let request = Request::of_words(alloc, words, true)?;
    let draws = Draws::of_file(rt, alloc, path)?;
    Ok(Plan::time(request, Some(Mostly::time(draws, capacity))))
}

// Writes the number of processors, if the system reports it.
fn tell_machine<R: Threads, E: Write>(rt: &R, err: &mut E) -> Result<(), Failure> {
    if let Ok(processors) = thread::available_parallelism(rt) {
        writeln!(err, "processors {processors}")?;
    }
    Ok(())
}
