//! Calls on a journal for a single owner.
ghost use Rattle.std.specs.Prelude.{◌<◌};

use crate::journal::answer::Answer;
use concurrent_lru::lru_core::{Begun, Evicted, Inserted, Refusal};
use lru_journal::journal::{Journal, Told};
use lru_support::tables::Call;
use std::alloc::{AllocError, Global};
use std::sync::Arc;

/// Makes a call on the journal. Returns `None` for a call that journals do not have, or at the
/// charge 0, and `AllocError` if a value's memory is refused.
pub(crate) fn ask(
    alloc: Global,
    journal: &mut Journal<u64, u64>,
    call: Call,
) -> Result<Option<Answer>, AllocError> {
    let answer = match call {
        Call::Begin(key, charge) if charge > 0 => begun(journal.begin(&key, charge)),
        Call::BeginStrictly(key, charge) if charge > 0 => {
            begun(journal.begin_strictly(&key, charge))
        }
        Call::Insert(key, charge, value) if charge > 0 => {
            inserted(journal.insert(&key, charge, Arc::new(alloc, value)?), value)
        }
        Call::InsertStrictly(key, charge, value) if charge > 0 => {
            let told = journal.insert_strictly(&key, charge, Arc::new(alloc, value)?);
            inserted(told, value)
        }
        Call::Ready(stamp, value) => {
            Answer::ready(journal.ready(stamp, Arc::new(alloc, value)?))
        }
        other => return Ok(ask_with_numbers(journal, other)),
    };
    Ok(Some(answer))
}

// Makes a call whose arguments are plain numbers, at no charge.
fn ask_with_numbers(journal: &mut Journal<u64, u64>, call: Call) -> Option<Answer> {
    let answer = match call {
        Call::Poll(stamp) => polled(journal.poll(stamp)),
        Call::Fail(stamp) => Answer::failed(journal.fail(stamp)),
        Call::Get(key) => found(journal.get(&key)),
        Call::Read(key) => Answer::read(journal.read(&key, |value| *value)),
        Call::Release(stamp) => Answer::done(journal.release(stamp)),
        Call::ReleaseAndEvict(stamp) => Answer::done(journal.release_and_evict(stamp)),
        Call::Repin(stamp) => repinned(journal.repin(stamp)),
        Call::AdviceEvict(key) => Answer::done(journal.advice_evict(&key)),
        Call::Invalidate(key) => Answer::done(journal.invalidate(&key)),
        Call::Prune => Answer::done(journal.prune()),
        Call::SetCapacity(capacity) => Answer::done(journal.set_capacity(capacity)),
        Call::Total => Answer::total(journal.total()),
        _ => return None,
    };
    Some(answer)
}

fn begun(told: Result<(Begun<u64>, Evicted<u64, u64>), Refusal>) -> Answer {
    match told {
        Ok((begun, _evicted)) => polled(Ok(begun)),
        Err(refusal) => Answer::refused(refusal),
    }
}

fn polled(told: Result<Begun<u64>, Refusal>) -> Answer {
    match told {
        Ok(Begun::Make(stamp)) => Answer::says(Told::Make(stamp)),
        Ok(Begun::Wait(stamp)) => Answer::says(Told::Wait(stamp)),
        Ok(Begun::Hit(stamp, value)) => Answer::gives(Told::Hit(stamp), *value),
        Err(refusal) => Answer::refused(refusal),
    }
}

fn found(told: Result<Option<(u64, Arc<u64>)>, Refusal>) -> Answer {
    match told {
        Ok(Some((stamp, value))) => Answer::gives(Told::Found(stamp), *value),
        Ok(None) => Answer::says(Told::Missed),
        Err(refusal) => Answer::refused(refusal),
    }
}

fn repinned(told: Result<Arc<u64>, Refusal>) -> Answer {
    match told {
        Ok(value) => Answer::gives(Told::Done, *value),
        Err(refusal) => Answer::refused(refusal),
    }
}

// The new entry's value is the one that was passed in.
fn inserted(told: Result<Inserted<u64, u64>, (Refusal, Arc<u64>)>, value: u64) -> Answer {
    match told {
        Ok(inserted) => Answer::gives(Told::Inserted(inserted.stamp), value),
        Err((refusal, value)) => Answer::returned(refusal, *value),
    }
}
