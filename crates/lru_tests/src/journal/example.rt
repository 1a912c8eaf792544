//! All that a user writes to open a twin: a function that is generic in the twin's identity, and
//! one line that names it (proofs/example/opens_a_twin/Invariants.antt).
ghost use Rattle.std.specs.Prelude.{◌≡◌};

use lru_journal::journal::{Identity, Opening, Started, Twin};
use std::alloc::Global;
use std::marker::Brand;
use std::process::Abort;
use std::sync::Wait;
use std::test::Fail;

#[test]
fn opens_a_twin(rt: HostRuntime) -> Result<(), Fail> {
    let opening = Opening::<u64>::new(rt.alloc(), 10)?;
    asks_once::<Brand, HostRuntime>(&rt, rt.alloc(), opening)
}

fn asks_once<I: Identity, R: Wait + Abort>(
    rt: &R,
    alloc: Global,
    opening: Opening<u64>,
) -> Result<(), Fail>
    requires { opening ≡ I.name }
{
    let (cache, mut tally) = Twin::<u64, u64, &R, I>::new(alloc, rt, opening);
    let started = cache.begin(&mut tally, &1, 1)?;
    assert!(rt; matches!(&started, Started::Make(0)));
    let journal = cache.into_journal(tally);
    assert_eq!(rt; journal.records().len(), 1);
    Ok(())
}
