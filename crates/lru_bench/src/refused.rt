//! Scripts of calls on caches that are empty at first. A call that is refused for lack of memory is
//! made once more, so that a run in which a request was refused prints what a run with enough
//! memory prints.

mod meeting;
mod report;
mod scripts;
mod threaded;
mod twin;

use crate::failure::Failure;
use concurrent_lru::lru_core::Refusal;
use report::Report;
use scripts::Script;
use std::alloc::Global;
use std::fmt::Debug;
use std::io::Write;
use std::sync::Wait;
use std::thread::Threads;

/// Runs the script of this name, or all of them. Each writes its name and its answers to `out`, and
/// each call that was refused for lack of memory to `err`.
///
/// Returns `Usage` if there is no such script, and `Refused` if a request of a script's own is
/// refused.
pub fn run<R: Threads + Wait + Sync + Send, O: Write, E: Write>(
    rt: &R,
    alloc: Global,
    wanted: Option<&str>,
    out: &mut O,
    err: &mut E,
) -> Result<(), Failure> {
    let mut report = Report::new(out, err);
    let mut ran = false;
    for list in scripts::lists() {
        ran |= run_list(rt, alloc, wanted, list, &mut report)?;
    }
    if ran { Ok(()) } else { Err(Failure::Usage) }
}

// Returns whether one of the scripts was run.
fn run_list<R: Threads + Wait + Sync + Send, O: Write, E: Write>(
    rt: &R,
    alloc: Global,
    wanted: Option<&str>,
    list: &[(&str, Script)],
    report: &mut Report<'_, O, E>,
) -> Result<bool, Failure> {
    let mut ran = false;
    for (name, script) in list {
        if wanted.unwrap_or(*name) == *name {
            report.begin(*name)?;
            run_script(rt, alloc, *script, report)?;
            ran = true;
        }
    }
    Ok(ran)
}

fn run_script<R: Threads + Wait + Sync + Send, O: Write, E: Write>(
    rt: &R,
    alloc: Global,
    script: Script,
    report: &mut Report<'_, O, E>,
) -> Result<(), Failure> {
    match script {
        Script::Threaded(kind, capacity, calls) => {
            threaded::play(rt, alloc, kind, capacity, calls, report)
        }
        Script::Twin(capacity, first, second) => {
            twin::play(rt, alloc, capacity, first, second, report)
        }
        Script::OverTwo => threaded::play_over_two(rt, alloc, report),
        Script::Meeting => meeting::play(rt, alloc, report),
    }
}

/// The answer of a call.
#[derive(Clone, Copy, Debug)]
enum Answer {
    /// Nothing, or that nothing was found.
    Nothing,
    /// A value.
    Value(u64),
    /// A pin of an entry with this stamp and this value.
    Pin(u64, u64),
    /// The caller is to make the value of the entry with this stamp.
    Make(u64),
    /// The caller is to wait for the entry with this stamp.
    Wait(u64),
    /// Whether a key is present.
    Contains(bool),
    /// The sum of the charges.
    Total(u128),
}

impl Answer {
    // Returns the answer of a call that looked for a value.
    fn of(value: Option<u64>) -> Answer {
        value.map_or(Answer::Nothing, |value| Answer::Value(value))
    }
}

/// What calls are made on. `C` is the type of a call.
trait Target<C> {
    /// Makes a call. Returns `Failure` if a request of the script's own is refused.
    fn make(&mut self, alloc: Global, call: C) -> Result<Result<Answer, Refusal>, Failure>;
}

// Makes calls in order, and once more each that was refused for lack of memory.
fn play<C: Copy + Debug + Drop, T: Target<C>, O: Write, E: Write>(
    alloc: Global,
    target: &mut T,
    calls: &[&[C]],
    report: &mut Report<'_, O, E>,
) -> Result<(), Failure> {
    for call in calls.iter().flat_map(|line| line.iter()) {
        let mut answer = target.make(alloc, *call)?;
        if let Err(Refusal::Memory) = answer {
            report.memory(call)?;
            answer = target.make(alloc, *call)?;
        }
        report.line(call, &answer)?;
    }
    Ok(())
}
