//! Calls on a twin by a caller with a tally.
ghost use Rattle.std.specs.Prelude.{◌≡◌, ◌<◌};

use crate::journal::answer::Answer;
use concurrent_lru::lru_core::Refusal;
use lru_journal::journal::{Identity, Pin, Started, Tally, Told, Twin};
use lru_support::tables::Call;
use std::alloc::{AllocError, Global};
use std::sync::{Arc, Wait};

/// Makes a call on the twin. Returns `None` for a call that twins do not have, or at the charge 0,
/// and `AllocError` if a value's memory is refused.
pub(crate) fn ask<R: Wait + Drop, I: Identity>(
    alloc: Global,
    cache: &Twin<u64, u64, R, I>,
    tally: &mut Tally<u64, I>,
    call: Call,
) -> Result<Option<Answer>, AllocError>
    ensures { tally.new.parts ≡ tally.old.parts }
{
    let answer = match call {
        Call::Ready(stamp, value) => {
            let value = Arc::new(alloc, value)?;
            Answer::ready(cache.ready(tally, stamp, value))
        }
        Call::Release(stamp) => {
            let pin = pin(alloc, stamp)?;
            released(cache.release(tally, pin))
        }
        Call::ReleaseAndEvict(stamp) => {
            let pin = pin(alloc, stamp)?;
            released(cache.release_and_evict(tally, pin))
        }
        Call::Insert(key, charge, value) if charge > 0 => {
            let value = Arc::new(alloc, value)?;
            inserted(cache.insert(tally, &key, charge, value))
        }
        Call::InsertStrictly(key, charge, value) if charge > 0 => {
            let value = Arc::new(alloc, value)?;
            inserted(cache.insert_strictly(tally, &key, charge, value))
        }
        other => return Ok(ask_with_numbers(cache, tally, other)),
    };
    Ok(Some(answer))
}

// Makes a call whose arguments are plain numbers.
fn ask_with_numbers<R: Wait + Drop, I: Identity>(
    cache: &Twin<u64, u64, R, I>,
    tally: &mut Tally<u64, I>,
    call: Call,
) -> Option<Answer>
    ensures { tally.new.parts ≡ tally.old.parts }
{
    let answer = match call {
        Call::Begin(key, charge) if charge > 0 => started(cache.begin(tally, &key, charge)),
        Call::BeginStrictly(key, charge) if charge > 0 => {
            started(cache.begin_strictly(tally, &key, charge))
        }
        Call::Poll(stamp) => started(cache.poll(tally, stamp)),
        Call::Fail(stamp) => Answer::failed(cache.fail(tally, stamp)),
        Call::Get(key) => found(cache.get(tally, &key)),
        Call::Read(key) => Answer::read(cache.read(tally, &key, |value| *value)),
        Call::Repin(stamp) => repinned(cache.repin(tally, stamp)),
        Call::AdviceEvict(key) => Answer::done(cache.advice_evict(tally, &key)),
        Call::Invalidate(key) => Answer::done(cache.invalidate(tally, &key)),
        Call::Prune => Answer::done(cache.prune(tally)),
        Call::SetCapacity(capacity) => Answer::done(cache.set_capacity(tally, capacity)),
        Call::Total => Answer::total(cache.total(tally)),
        _ => return None,
    };
    Some(answer)
}

// Returns a pin for a release, which uses its stamp alone.
fn pin(alloc: Global, stamp: u64) -> Result<Pin<u64>, AllocError> {
    Ok(Pin::new(stamp, Arc::new(alloc, 0)?))
}

fn started(told: Result<Started<u64>, Refusal>) -> Answer {
    match told {
        Ok(Started::Make(stamp)) => Answer::says(Told::Make(stamp)),
        Ok(Started::Wait(stamp)) => Answer::says(Told::Wait(stamp)),
        Ok(Started::Hit(pin)) => Answer::gives(Told::Hit(pin.stamp()), *pin.value()),
        Err(refusal) => Answer::refused(refusal),
    }
}

fn found(told: Result<Option<Pin<u64>>, Refusal>) -> Answer {
    match told {
        Ok(Some(pin)) => Answer::gives(Told::Found(pin.stamp()), *pin.value()),
        Ok(None) => Answer::says(Told::Missed),
        Err(refusal) => Answer::refused(refusal),
    }
}

fn repinned(told: Result<Pin<u64>, Refusal>) -> Answer {
    match told {
        Ok(pin) => Answer::gives(Told::Done, *pin.value()),
        Err(refusal) => Answer::refused(refusal),
    }
}

fn released(told: Result<(), (Refusal, Pin<u64>)>) -> Answer {
    match told {
        Ok(()) => Answer::says(Told::Done),
        Err((refusal, _pin)) => Answer::refused(refusal),
    }
}

fn inserted(told: Result<Pin<u64>, (Refusal, Arc<u64>)>) -> Answer {
    match told {
        Ok(pin) => Answer::gives(Told::Inserted(pin.stamp()), *pin.value()),
        Err((refusal, value)) => Answer::returned(refusal, *value),
    }
}
