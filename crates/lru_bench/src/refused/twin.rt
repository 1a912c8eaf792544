//! Calls of a twin, whose keys are texts, and then its records. A charge of 0 counts as 1.
ghost use Rattle.std.specs.Prelude.{◌≡◌, ◌<◌};

use crate::failure::Failure;
use crate::refused::report::Report;
use crate::refused::{self, Answer, Target};
use concurrent_lru::lru_core::Refusal;
use lru_journal::journal::{Identity, Opening, Pin, Started, Tally, Twin};
use std::alloc::Global;
use std::io::Write;
use std::marker::Brand;
use std::sync::{Arc, Wait};

/// A call. A key comes first, then a charge and a value; others name an entry by its stamp.
#[derive(Clone, Copy, Debug)]
pub enum Call {
    Begin(&'static str, u64),
    Poll(u64),
    Ready(u64, u64),
    Fail(u64),
    Release(u64),
    Insert(&'static str, u64, u64),
    Get(&'static str),
    Read(&'static str),
    AdviceEvict(&'static str),
    Invalidate(&'static str),
    Prune,
    SetCapacity(u64),
    Total,
}

/// Makes calls of a twin that is empty at first, some by one caller and then some by another, and
/// prints its records. Each caller has a part of the tally.
pub fn play<R: Wait, O: Write, E: Write>(
    rt: &R,
    alloc: Global,
    capacity: u64,
    first: &[&[Call]],
    second: &[&[Call]],
    report: &mut Report<'_, O, E>,
) -> Result<(), Failure> {
    let mut opening = Opening::new(alloc, capacity);
    if opening.is_err() {
        report.memory(&"Opening")?;
        opening = Opening::new(alloc, capacity);
    }
    play_twin::<Brand, R, O, E>(rt, alloc, opening?, first, second, report)
}

fn play_twin<I: Identity, R: Wait, O: Write, E: Write>(
    rt: &R,
    alloc: Global,
    opening: Opening<String>,
    first: &[&[Call]],
    second: &[&[Call]],
    report: &mut Report<'_, O, E>,
) -> Result<(), Failure>
    requires { opening ≡ I.name }
{
    let (cache, mut whole) = Twin::<String, u64, &R, I>::new(alloc, rt, opening);
    let one = whole.split(&cache);
    let two = whole.split(&cache);
    let (one, ended) = play_calls(alloc, &cache, one, Ok(()), first, report);
    let (two, ended) = play_calls(alloc, &cache, two, ended, second, report);
    whole.join(&cache, one);
    whole.join(&cache, two);
    let journal = cache.into_journal(whole);
    ended?;
    for record in journal.records() {
        report.line(&"record", &format_args!("{record}"))?;
    }
    Ok(())
}

// Makes calls with one part of the tally, which it gives back; none where those before were ended
// by a failure.
fn play_calls<R: Wait + Drop, I: Identity, O: Write, E: Write>(
    alloc: Global,
    cache: &Twin<String, u64, R, I>,
    tally: Tally<String, I>,
    before: Result<(), Failure>,
    calls: &[&[Call]],
    report: &mut Report<'_, O, E>,
) -> (Tally<String, I>, Result<(), Failure>)
    requires { tally.parts ≡ 1 }
    ensures { result.0.parts ≡ 1 }
{
    let mut caller = Caller { cache, tally };
    let ended = match before {
        Ok(()) => refused::play(alloc, &mut caller, calls, report),
        Err(failure) => Err(failure),
    };
    let Caller { cache: _, tally } = caller;
    (tally, ended)
}

// A caller of a twin, with one part of its tally.
struct Caller<'c, R: Wait, I: Identity> {
    cache: &'c Twin<String, u64, R, I>,
    tally: Tally<String, I>,
    ghost one_part: { tally.parts ≡ 1 },
}

impl<'c, R: Wait + Drop, I: Identity> Target<Call> for Caller<'c, R, I> {
    fn make(&mut self, alloc: Global, call: Call) -> Result<Result<Answer, Refusal>, Failure> {
        match call {
            Call::Begin(key, _)
            | Call::Get(key)
            | Call::Read(key)
            | Call::AdviceEvict(key)
            | Call::Invalidate(key) => Ok(self.make_by_key(call, &String::from_str(alloc, key)?)),
            Call::Insert(key, charge, value) => {
                let (key, value) = (String::from_str(alloc, key)?, Arc::new(alloc, value)?);
                let inserted = self
                    .cache
                    .insert(&mut self.tally, &key, charge.max(1), value);
                Ok(
                    inserted
                        .map(|pin| of_pin(&pin))
                        .map_err(|(refusal, _)| refusal),
                )
            }
            Call::Ready(stamp, value) => {
                let value = Arc::new(alloc, value)?;
                let done = self.cache.ready(&mut self.tally, stamp, value);
                Ok(
                    done.map(|_| Answer::Nothing)
                        .map_err(|(refusal, _)| refusal),
                )
            }
            Call::Release(stamp) => {
                let pin = Pin::new(stamp, Arc::new(alloc, stamp)?);
                let done = self.cache.release(&mut self.tally, pin);
                Ok(
                    done.map(|_| Answer::Nothing)
                        .map_err(|(refusal, _)| refusal),
                )
            }
            _ => Ok(self.make_plain(call)),
        }
    }
}

impl<'c, R: Wait + Drop, I: Identity> Caller<'c, R, I> {
    // Makes a call that has this key, and passes no value.
    fn make_by_key(&mut self, call: Call, key: &String) -> Result<Answer, Refusal> {
        let (cache, tally) = (self.cache, &mut self.tally);
        match call {
            Call::Begin(_, charge) => Ok(of_started(cache.begin(tally, key, charge.max(1))?)),
            Call::Get(_) => match cache.get(tally, key)? {
                Some(pin) => Ok(of_pin(&pin)),
                None => Ok(Answer::Nothing),
            },
            Call::Read(_) => match cache.read(tally, key, |value| *value)? {
                Some((stamp, value)) => Ok(Answer::Pin(stamp, value)),
                None => Ok(Answer::Nothing),
            },
            Call::AdviceEvict(_) => done(cache.advice_evict(tally, key)?),
            _ => done(cache.invalidate(tally, key)?),
        }
    }

    // Makes a call that has no key, and passes no value.
    fn make_plain(&mut self, call: Call) -> Result<Answer, Refusal> {
        let (cache, tally) = (self.cache, &mut self.tally);
        match call {
            Call::Poll(stamp) => Ok(of_started(cache.poll(tally, stamp)?)),
            Call::Fail(stamp) => {
                cache.fail(tally, stamp)?;
                Ok(Answer::Nothing)
            }
            Call::SetCapacity(capacity) => done(cache.set_capacity(tally, capacity)?),
            Call::Total => Ok(Answer::Total(u128::from(cache.total(tally)?))),
            _ => done(cache.prune(tally)?),
        }
    }
}

fn done(_nothing: ()) -> Result<Answer, Refusal> {
    Ok(Answer::Nothing)
}

fn of_pin(pin: &Pin<u64>) -> Answer {
    Answer::Pin(pin.stamp(), *pin.value())
}

fn of_started(started: Started<u64>) -> Answer {
    match started {
        Started::Make(stamp) => Answer::Make(stamp),
        Started::Wait(stamp) => Answer::Wait(stamp),
        Started::Hit(pin) => of_pin(&pin),
    }
}
