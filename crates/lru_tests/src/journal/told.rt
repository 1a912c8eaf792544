//! Charges that values come with, in a journal and in its twin: the same calls, with the same
//! records. A refused charge leaves the making as it was, and is not recorded.
ghost use Rattle.std.specs.Prelude.{◌≡◌};

use crate::assertions::assert_equal;
use crate::journal::records::lines;
use lru_journal::journal::{Identity, Journal, Opening, Pin, Twin};
use lru_support::tables::says;
use std::alloc::Global;
use std::marker::Brand;
use std::process::Abort;
use std::sync::{Arc, Wait};
use std::test::Fail;

const CAPACITY: u64 = 4;

// What both record. The second and the third charge that are taken evict the entry before.
const RECORDS: &str = "begin 1 1 -> make 0\n\
    ready_with 0 2 -> done\n\
    release 0 -> done\n\
    begin 2 1 -> make 1\n\
    total -> total 3\n\
    fail 1 -> removed\n\
    begin 2 1 -> make 2\n\
    ready_with_strictly 2 3 -> done\n\
    read 1 -> none\n\
    total -> total 3\n\
    release 2 -> done\n\
    begin 3 1 -> make 3\n\
    ready_with 3 5 -> done\n\
    read 2 -> none\n\
    total -> total 5\n";

#[test]
fn a_journal_takes_the_charges_that_values_come_with(rt: HostRuntime) -> Result<(), Fail> {
    let alloc = rt.alloc();
    let mut journal: Journal<u64, u64> = Journal::new(alloc, CAPACITY);
    drop(journal.begin(&1, 1)?);
    says(
        alloc,
        &journal.ready_with(0, Arc::new(alloc, 10)?, 2),
        "Ok([])",
    )?;
    says(alloc, &journal.release(0), "Ok([])")?;
    drop(journal.begin(&2, 1)?);
    let large = journal.ready_with(1, Arc::new(alloc, 20)?, u64::MAX);
    says(alloc, &large, "Err((Overflow, 20))")?;
    let full = journal.ready_with_strictly(1, Arc::new(alloc, 21)?, 5);
    says(alloc, &full, "Err((Full, 21))")?;
    let stale = journal.ready_with(0, Arc::new(alloc, 22)?, 1);
    says(alloc, &stale, "Err((Stale, 22))")?;
    says(alloc, &journal.total(), "Ok(3)")?;
    says(alloc, &journal.fail(1), "Ok(Removed(2))")?;
    drop(journal.begin(&2, 1)?);
    says(
        alloc,
        &journal.ready_with_strictly(2, Arc::new(alloc, 23)?, 3),
        "Ok([Gone { stamp: 0, key: 1, charge: 2, value: 10 }])",
    )?;
    says(alloc, &journal.read(&1, |value| *value), "Ok(None)")?;
    says(alloc, &journal.total(), "Ok(3)")?;
    says(alloc, &journal.release(2), "Ok([])")?;
    drop(journal.begin(&3, 1)?);
    says(
        alloc,
        &journal.ready_with(3, Arc::new(alloc, 30)?, 5),
        "Ok([Gone { stamp: 2, key: 2, charge: 3, value: 23 }])",
    )?;
    says(alloc, &journal.read(&2, |value| *value), "Ok(None)")?;
    says(alloc, &journal.total(), "Ok(5)")?;
    let text = lines(alloc, journal.records())?;
    assert_equal(&rt, text.as_str(), RECORDS);
    Ok(())
}

#[test]
fn a_twin_takes_the_charges_that_values_come_with(rt: HostRuntime) -> Result<(), Fail> {
    let opening = Opening::<u64>::new(rt.alloc(), CAPACITY)?;
    tells_charges::<Brand, HostRuntime>(&rt, rt.alloc(), opening)
}

fn tells_charges<I: Identity, R: Wait + Abort>(
    rt: &R,
    alloc: Global,
    opening: Opening<u64>,
) -> Result<(), Fail>
    requires { opening ≡ I.name }
{
    let (cache, mut tally) = Twin::<u64, u64, &R, I>::new(alloc, rt, opening);
    drop(cache.begin(&mut tally, &1, 1)?);
    let first = Arc::new(alloc, 10)?;
    let pin = Pin::new(0, first.clone()?);
    says(alloc, &cache.ready_with(&mut tally, 0, first, 2), "Ok(())")?;
    assert!(rt; cache.release(&mut tally, pin).is_ok());
    drop(cache.begin(&mut tally, &2, 1)?);
    let large = cache.ready_with(&mut tally, 1, Arc::new(alloc, 20)?, u64::MAX);
    says(alloc, &large, "Err((Overflow, 20))")?;
    let full = cache.ready_with_strictly(&mut tally, 1, Arc::new(alloc, 21)?, 5);
    says(alloc, &full, "Err((Full, 21))")?;
    let stale = cache.ready_with(&mut tally, 0, Arc::new(alloc, 22)?, 1);
    says(alloc, &stale, "Err((Stale, 22))")?;
    says(alloc, &cache.total(&mut tally), "Ok(3)")?;
    says(alloc, &cache.fail(&mut tally, 1), "Ok(Removed(2))")?;
    drop(cache.begin(&mut tally, &2, 1)?);
    let second = Arc::new(alloc, 23)?;
    let pin = Pin::new(2, second.clone()?);
    let told = cache.ready_with_strictly(&mut tally, 2, second, 3);
    says(alloc, &told, "Ok(())")?;
    says(
        alloc,
        &cache.read(&mut tally, &1, |value| *value),
        "Ok(None)",
    )?;
    says(alloc, &cache.total(&mut tally), "Ok(3)")?;
    assert!(rt; cache.release(&mut tally, pin).is_ok());
    drop(cache.begin(&mut tally, &3, 1)?);
    let told = cache.ready_with(&mut tally, 3, Arc::new(alloc, 30)?, 5);
    says(alloc, &told, "Ok(())")?;
    says(
        alloc,
        &cache.read(&mut tally, &2, |value| *value),
        "Ok(None)",
    )?;
    says(alloc, &cache.total(&mut tally), "Ok(5)")?;
    let journal = cache.into_journal(tally);
    let text = lines(alloc, journal.records())?;
    assert_equal(rt, text.as_str(), RECORDS);
    Ok(())
}
