//! Workers that share a twin, each with a part of the tally and keys of its own.
ghost use Rattle.std.specs.Prelude.{◌≡◌, ◌<◌, ◌+◌, IfOk};
ghost use denote.Param.Send.{IsSync, IsSend};

use crate::calls::{Calls, WorkerCall};
use crate::stress::outcome::{Check, Counts, Trouble};
use crate::stress::plan::{KEYS, Plan};
use crate::stress::start::Start;
use lru_journal::journal::{Identity, Journal, Opening, Pin, Started, Tally, Twin};
use std::alloc::Global;
use std::sync::{Arc, Wait};
use std::thread;
use std::thread::Threads;

// What every worker has: an allocator, the plan, and the barrier.
#[derive(Drop)]
struct Shift<'a> {
    alloc: Global,
    plan: &'a Plan,
    start: &'a Start,
}

// What a worker counts of its own calls.
#[derive(Clone, Copy)]
struct Accepted {
    calls: u64,
    makings: u64,
    hits: u64,
}

impl Accepted {
    fn none() -> Accepted {
        Accepted {
            calls: 0,
            makings: 0,
            hits: 0,
        }
    }

    // Returns the counts of a making of this many calls.
    fn of_making(calls: u64) -> Accepted {
        Accepted {
            calls,
            makings: 1,
            hits: 0,
        }
    }

    // Returns the counts of a hit, whose pin was released.
    fn of_hit() -> Accepted {
        Accepted {
            calls: 2,
            makings: 0,
            hits: 1,
        }
    }

    fn and(self, other: Accepted) -> Accepted {
        Accepted {
            calls: self.calls.wrapping_add(other.calls),
            makings: self.makings.wrapping_add(other.makings),
            hits: self.hits.wrapping_add(other.hits),
        }
    }
}

/// Makes all workers' calls on a new twin, and returns what was counted. Its journal is opened once
/// all have ended.
///
/// Returns `Refused` if memory was refused to a call or a worker had no thread, and otherwise the
/// first check that failed.
pub fn share<I: Identity + Send + Sync, R: Threads + Wait + Clone + Drop + Send + Sync>(
    rt: &R,
    alloc: Global,
    plan: &Plan,
    opening: Opening<u64>,
) -> Result<Counts, Trouble>
    requires { opening ≡ I.name }
{
    let start = Start::of(plan.workers);
    let shift = Shift {
        alloc,
        plan,
        start: &start,
    };
    let (cache, whole) = Twin::<u64, u64, R, I>::new(alloc, rt.clone()?, opening);
    let (whole, accepted) = work_from(rt, &cache, &shift, whole, 0, plan.workers)?;
    let mut journal = cache.into_journal(whole);
    check(&mut journal, plan, accepted.calls)?;
    Ok(Counts {
        makings: accepted.makings,
        hits: accepted.hits,
        ..Counts::none()
    })
}

// Makes the calls of this many workers, the first of which is `worker`. All but the last get a
// thread of their own and one part of the tally.
fn work_from<I: Identity + Send + Sync, R: Threads + Wait + Drop + Send + Sync>(
    rt: &R,
    cache: &Twin<u64, u64, R, I>,
    shift: &Shift<'_>,
    mut tally: Tally<u64, I>,
    worker: usize,
    workers: u16,
) -> Result<(Tally<u64, I>, Accepted), Trouble>
    requires { workers < tally.parts }
    ensures { IfOk result (λ done. done.0.parts ≡ tally.parts) }
{
    if workers <= 1 {
        return work(cache, shift, tally, worker);
    }
    let one = tally.split(cache);
    let (first, others) = thread::join(
        rt,
        move || -> Result<(Tally<u64, I>, Accepted), Trouble>
            ensures { IfOk result (λ done. done.0.parts ≡ one.parts) }
        { work(cache, shift, one, worker) },
        move || -> Result<(Tally<u64, I>, Accepted), Trouble>
            requires { IsSync R.row × IsSend R.row × IsSync I.row × IsSend I.row × (1 < workers)
                × (workers < tally.parts + 1) }
            ensures { IfOk result (λ done. done.0.parts ≡ tally.parts) }
        { work_from(rt, cache, shift, tally, worker.wrapping_add(1), workers - 1) },
    );
    let (mut all, accepted) = others?;
    let (one, more) = first?;
    all.join(cache, one);
    Ok((all, accepted.and(more)))
}

// Makes a worker's calls.
fn work<I: Identity, R: Wait + Drop>(
    cache: &Twin<u64, u64, R, I>,
    shift: &Shift<'_>,
    mut tally: Tally<u64, I>,
    worker: usize,
) -> Result<(Tally<u64, I>, Accepted), Trouble>
    ensures { IfOk result (λ done. done.0.parts ≡ tally.parts) }
{
    if !shift.start.meets_all() {
        return Err(Trouble::Refused);
    }
    let mut accepted = Accepted::none();
    let mut calls = Calls::of_worker(shift.plan.seed, worker as u64);
    let first = (worker as u64).wrapping_mul(KEYS);
    for number in 0..shift.plan.calls {
        let mut call = calls.draw(KEYS);
        call.key = first.wrapping_add(call.key);
        accepted = accepted.and(use_key(cache, shift.alloc, &mut tally, &call)?);
        if shift.plan.rests && number % 1_000 == 999 {
            thread::yield_now();
        }
    }
    Ok((tally, accepted))
}

// Begins on a key, and then does what the answer asks for: gives up the making, makes the value, or
// releases the pin of a hit.
fn use_key<I: Identity, R: Wait + Drop>(
    cache: &Twin<u64, u64, R, I>,
    alloc: Global,
    tally: &mut Tally<u64, I>,
    call: &WorkerCall,
) -> Result<Accepted, Trouble>
    ensures { tally.new.parts ≡ tally.old.parts }
{
    match cache.begin(tally, &call.key, call.charge)? {
        Started::Make(stamp) if call.fails => {
            let _failed = cache.fail(tally, stamp)?;
            Ok(Accepted::of_making(2))
        }
        Started::Make(stamp) => {
            make(cache, alloc, tally, stamp, call.key)?;
            Ok(Accepted::of_making(3))
        }
        Started::Hit(pin) => {
            give_back(cache, tally, pin)?;
            Ok(Accepted::of_hit())
        }
        Started::Wait(_) => Err(Trouble::Failed(Check::TwinAnswers)),
    }
}

// Makes the value, which is the key, and releases its pin.
fn make<I: Identity, R: Wait + Drop>(
    cache: &Twin<u64, u64, R, I>,
    alloc: Global,
    tally: &mut Tally<u64, I>,
    stamp: u64,
    key: u64,
) -> Result<(), Trouble>
    ensures { tally.new.parts ≡ tally.old.parts }
{
    let value = Arc::new(alloc, key)?;
    let own = Arc::try_clone(&value)?;
    if let Err((refusal, _)) = cache.ready(tally, stamp, value) {
        return Err(Trouble::from(refusal));
    }
    give_back(cache, tally, Pin::new(stamp, own))
}

// Releases a pin.
fn give_back<I: Identity, R: Wait + Drop>(
    cache: &Twin<u64, u64, R, I>,
    tally: &mut Tally<u64, I>,
    pin: Pin<u64>,
) -> Result<(), Trouble>
    ensures { tally.new.parts ≡ tally.old.parts }
{
    match cache.release(tally, pin) {
        Ok(_) => Ok(()),
        Err((refusal, _)) => Err(Trouble::from(refusal)),
    }
}

// Checks the journal of all workers, which made this many accepted calls.
fn check(journal: &mut Journal<u64, u64>, plan: &Plan, calls: u64) -> Result<(), Trouble> {
    if journal.records().len() as u64 != calls {
        return Err(Trouble::Failed(Check::TwinRecords));
    }
    if journal.total()? > plan.lock_capacity {
        return Err(Trouble::Failed(Check::TwinTotal));
    }
    drop(journal.prune()?);
    if journal.total()? != 0 {
        return Err(Trouble::Failed(Check::TwinTotal));
    }
    Ok(())
}
