//! Replays the steps of an input, one on each line, on one cache after another.

mod words;

use crate::failure::Failure;
use concurrent_lru::lru_core::Refusal;
use concurrent_lru::unsharded::{CacheHandle, GetError, LruCache};
use lru_support::drops::{DropLog, Logged};
use lru_support::lines::Lines;
use std::alloc::Global;
use std::io::{BufRead, Write};
use std::mem;
use std::num::NonZeroU64;
use std::sync::Wait;
use words::{STEP, Wrong, capacity, charge, fate, number, slot};

// The maximum number of bytes of a line, not counting its end.
const MOST_BYTES: u64 = 1_000;

/// Runs every step and writes each with its answer and the numbers of the values that it dropped,
/// one on each line, before it reads the next one.
///
/// Returns `Line` if a line is not a step or the first step creates no cache, `Input` or `Write` if
/// the input or the output fails, and `Step` if a call is refused.
pub fn replay<'f, R: Wait + Clone + Drop, I: BufRead + Drop, O: Write>(
    rt: &R,
    alloc: Global,
    input: I,
    out: &mut O,
) -> Result<(), Failure<'f>> {
    let mut lines = Lines::new(alloc, input);
    let mut is_step = read(&mut lines)?;
    for _ in 0..u64::MAX {
        if !is_step {
            return Ok(());
        }
        let first = capacity(text(&lines).unwrap_or(""));
        let capacity = first.map_err(|wrong| failure(alloc, lines.number(), wrong))?;
        let session = Session {
            log: DropLog::new(alloc, rt)?,
            cache: LruCache::new(alloc, rt.clone()?, capacity),
        };
        is_step = replay_session(alloc, &session, &mut lines, out)?;
    }
    Err(Failure::Refused(Refusal::Overflow))
}

// Writes the step that created the cache, which has the number 0, and runs the ones after it.
// Returns whether there is another step that creates a cache.
fn replay_session<'f, 'a, R: Wait + Clone + Drop, I: BufRead, O: Write>(
    alloc: Global,
    session: &'a Session<R>,
    lines: &mut Lines<I>,
    out: &mut O,
) -> Result<bool, Failure<'f>> {
    let mut slots: Slots<'a, R> = vec![in alloc; None, None, None, None]?;
    let mut answer = done(());
    for number in 1..=u64::MAX {
        session.tell(text(lines).unwrap_or(""), answer, out)?;
        if !read(lines)? {
            return Ok(false);
        }
        let line = text(lines).unwrap_or("");
        let words: Vec<&str> = line.split(' ').collect(alloc)?;
        if let ["new", _] = *words.as_slice() {
            return Ok(true);
        }
        let ran = session.run(&mut slots, number, line, &words);
        answer = ran.map_err(|wrong| failure(alloc, lines.number(), wrong))?;
    }
    Err(Failure::Refused(Refusal::Overflow))
}

// Reads the next line. Returns false at the end of the input.
fn read<'f, I: BufRead>(lines: &mut Lines<I>) -> Result<bool, Failure<'f>> {
    // A line with its end, or as much of it as shows that it is too long.
    let is_read = lines
        .read(MOST_BYTES + 1)
        .map_err(|error| Failure::of_input(&error))?;
    if text(lines).is_none() {
        return Err(Failure::Line(lines.number(), "text of at most 1000 bytes", None));
    }
    Ok(is_read)
}

// Returns the line without its end, or `None` if it is too long or not text.
fn text<I: BufRead>(lines: &Lines<I>) -> Option<&str> {
    let line = match lines.line() {
        [line @ .., b'\n'] => line,
        line => line,
    };
    if line.len() as u64 > MOST_BYTES {
        return None;
    }
    str::from_utf8(line).ok()
}

// Returns the failure of the line with this number.
fn failure<'f>(alloc: Global, number: u64, wrong: Wrong<'_>) -> Failure<'f> {
    let (expected, found) = match wrong {
        Wrong::Found(expected, found) => (expected, found),
        Wrong::Refused(refusal) => return Failure::Step(number, refusal),
    };
    Failure::Line(number, expected, String::from_str(alloc, found).ok())
}

// A cache whose values record their drops.
#[derive(Drop)]
struct Session<R: Wait> {
    log: DropLog<R>,
    cache: LruCache<u64, Logged<R>, R>,
}

// The slots, each of which can keep a handle.
type Slots<'a, R> = Vec<Option<CacheHandle<'a, u64, Logged<R>, R>>>;

// The word of an answer, and the handle that the step got.
type Gotten<'a, R> = (&'static str, Option<CacheHandle<'a, u64, Logged<R>, R>>);

// The answer to a step: a word, and the number of a value or the sum of the charges.
#[derive(Clone, Copy)]
struct Answer(&'static str, Option<u64>);

impl<R: Wait + Clone + Drop> Session<R> {
    // Writes a line with its answer and the numbers of the values that were dropped since the last
    // one.
    fn tell<'f, O: Write>(
        &self,
        line: &str,
        answer: Answer,
        out: &mut O,
    ) -> Result<(), Failure<'f>> {
        let drops = self.log.numbers()?;
        self.log.clear();
        match answer {
            Answer(word, Some(number)) => writeln!(out, "{line} => {word} {number} {drops:?}")?,
            Answer(word, None) => writeln!(out, "{line} => {word} {drops:?}")?,
        }
        Ok(())
    }

    // Runs the step of a line, which has these words. A value that it makes gets the number of the
    // step. If the call or the value's memory is refused, the slots stay as they were.
    fn run<'a, 'l>(
        &'a self,
        slots: &mut Slots<'a, R>,
        step: u64,
        line: &'l str,
        words: &[&'l str],
    ) -> Result<Answer, Wrong<'l>> {
        match *words {
            ["init", key, size, outcome @ ("ok" | "fail"), ref rest @ ..] => {
                let (key, size, kept) = (number(key)?, charge(size)?, fate(line, rest)?);
                let made = self.init(step, key, size, outcome == "ok")?;
                Ok(settle(slots, made, kept))
            }
            ["insert", key, size, ref rest @ ..] => {
                let (key, size, kept) = (number(key)?, charge(size)?, fate(line, rest)?);
                Ok(settle(slots, self.insert(step, key, size)?, kept))
            }
            ["get", key, ref rest @ ..] => {
                let (key, kept) = (number(key)?, fate(line, rest)?);
                let handle = self.cache.get(key)?;
                let word = if handle.is_some() { "some" } else { "none" };
                Ok(settle(slots, (word, handle), kept))
            }
            ["read", key] => {
                let value = self.cache.read(&number(key)?, |value| value.number())?;
                Ok(Answer(if value.is_some() { "read" } else { "none" }, value))
            }
            ["total"] => Ok(Answer("total", Some(self.cache.total_charge()))),
            ["release", place] => Ok(done(replace(slots, slot(place)?, None))),
            ["advice", key] => Ok(done(self.cache.advice_evict(number(key)?))),
            ["invalidate", key] => Ok(done(self.cache.invalidate(&number(key)?))),
            ["prune"] => Ok(done(self.cache.prune())),
            _ => Err(Wrong::Found(STEP, line)),
        }
    }

    fn init<'a>(
        &'a self,
        step: u64,
        key: u64,
        charge: NonZeroU64,
        succeeds: bool,
    ) -> Result<Gotten<'a, R>, Refusal> {
        // The error is whether memory for the value was refused.
        let (cache, log) = (&self.cache, &self.log);
        let made = cache.get_or_try_init(key, charge.get(), |_| match succeeds {
            true => log.value(step).map_err(|_| true),
            false => Err(false),
        });
        match made {
            Ok(handle) if handle.value().number() == step => Ok(("made", Some(handle))),
            Ok(handle) => Ok(("hit", Some(handle))),
            Err(GetError::Init(false)) => Ok(("err", None)),
            Err(GetError::Init(true) | GetError::Memory) => Err(Refusal::Memory),
            Err(GetError::Overflow) => Err(Refusal::Overflow),
            Err(GetError::Full) => Err(Refusal::Full),
        }
    }

    fn insert<'a>(
        &'a self,
        step: u64,
        key: u64,
        charge: NonZeroU64,
    ) -> Result<Gotten<'a, R>, Refusal> {
        let value = self.log.value(step)?;
        let handle = self.cache.insert(&key, charge.get(), value)?;
        Ok(("inserted", Some(handle)))
    }
}

// Returns the answer of a step that returns nothing.
fn done(_nothing: ()) -> Answer {
    Answer("done", None)
}

// Returns the answer of a step that got a handle, and keeps that in a slot or drops it.
fn settle<'a, R: Wait + Drop>(
    slots: &mut Slots<'a, R>,
    (word, handle): Gotten<'a, R>,
    kept: Option<usize>,
) -> Answer {
    let answer = Answer(word, handle.as_ref().map(|handle| handle.value().number()));
    if let (Some(slot), Some(_)) = (kept, &handle) {
        replace(slots, slot, handle);
    }
    answer
}

// Puts a handle, or nothing, in a slot, whose previous content is dropped.
fn replace<T: Drop>(slots: &mut [Option<T>], slot: usize, handle: Option<T>) {
    if let Some(place) = slots.get_mut(slot) {
        drop(mem::replace(place, handle));
    }
}
