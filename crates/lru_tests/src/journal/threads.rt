//! The twin under two callers, each with a part of the tally.
ghost use Rattle.std.specs.Prelude.{◌≡◌, IfOk};

use crate::assertions::assert_equal;
use concurrent_lru::lru_core::Refusal;
use lru_journal::journal::{Identity, Opening, Pin, Started, Tally, Twin};
use std::alloc::Global;
use std::marker::Brand;
use std::process::Abort;
use std::sync::{Arc, Wait};
use std::thread::{Threads, join};

const CAPACITY: u64 = 4;

#[test]
fn two_callers_make_one_history(rt: HostRuntime) {
    let opening = Opening::<u64>::new(rt.alloc(), CAPACITY).expect(&rt, "an opening");
    use_twenty_keys::<Brand, HostRuntime>(&rt, rt.alloc(), opening);
}

// Makes the value of a key that no other caller asks for, asks for it twice more while it is
// pinned, and releases the three pins.
fn use_key<I: Identity, R: Wait + Drop>(
    alloc: Global,
    cache: &Twin<u64, u64, R, I>,
    tally: &mut Tally<u64, I>,
    key: u64,
) -> Result<(), Refusal>
    ensures { tally.new.parts ≡ tally.old.parts }
{
    let Started::Make(stamp) = cache.begin(tally, &key, 1)? else {
        return Err(Refusal::Stale);
    };
    let value = Arc::new(alloc, key)?;
    let first = Pin::new(stamp, value.clone()?);
    if let Err((refusal, _value)) = cache.ready(tally, stamp, value) {
        return Err(refusal);
    }
    let Started::Hit(second) = cache.begin(tally, &key, 1)? else {
        return Err(Refusal::Stale);
    };
    let third = cache.get(tally, &key)?.ok_or(Refusal::Stale)?;
    for pin in [first, second, third] {
        if let Err((refusal, _pin)) = cache.release(tally, pin) {
            return Err(refusal);
        }
    }
    Ok(())
}

// Uses ten keys from this one on, one after another.
fn use_ten_keys<I: Identity, R: Wait + Drop>(
    cache: &Twin<u64, u64, R, I>,
    alloc: Global,
    mut tally: Tally<u64, I>,
    first: u8,
) -> Result<Tally<u64, I>, Refusal>
    ensures { IfOk result (λ t. t.parts ≡ tally.parts) }
{
    for next in 0..10u64 {
        use_key(alloc, cache, &mut tally, u64::from(first) + next)?;
    }
    Ok(tally)
}

// Runs the two callers, each on a thread of its own.
fn use_on_two_threads<I: Identity + Send + Sync, R: Threads + Wait + Sync>(
    rt: &R,
    cache: &Twin<u64, u64, &R, I>,
    alloc: Global,
    one: Tally<u64, I>,
    two: Tally<u64, I>,
) -> (
    Result<Tally<u64, I>, Refusal>,
    Result<Tally<u64, I>, Refusal>,
)
    ensures one { IfOk result.0 (λ t. t.parts ≡ one.parts) }
    ensures two { IfOk result.1 (λ t. t.parts ≡ two.parts) }
{
    join(
        rt,
        move || -> Result<Tally<u64, I>, Refusal>
            ensures { IfOk result (λ t. t.parts ≡ one.parts) }
        { use_ten_keys(cache, alloc, one, 0) },
        move || -> Result<Tally<u64, I>, Refusal>
            ensures { IfOk result (λ t. t.parts ≡ two.parts) }
        { use_ten_keys(cache, alloc, two, 10) },
    )
}

fn use_twenty_keys<I: Identity + Send + Sync, R: Threads + Wait + Abort + Sync>(
    rt: &R,
    alloc: Global,
    opening: Opening<u64>,
)
    requires { opening ≡ I.name }
{
    let (cache, mut whole) = Twin::<u64, u64, &R, I>::new(alloc, rt, opening);
    let one = whole.split(&cache);
    let two = whole.split(&cache);
    let (one, two) = use_on_two_threads(rt, &cache, alloc, one, two);
    whole.join(&cache, one.expect(rt, "the first caller's answers"));
    whole.join(&cache, two.expect(rt, "the second caller's answers"));
    let mut journal = cache.into_journal(whole);
    assert_equal(rt, journal.records().len(), 140);
    assert_equal(rt, journal.total(), Ok(CAPACITY));
}
