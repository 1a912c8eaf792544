//! What words a slot has, and which values it gives back: no clause says that.
ghost use Rattle.std.specs.Prelude.{◌≡◌, ◌≤◌};

use crate::{Counted, FREE, Fits, MARKED, ONE_READER, PRESENT, TAKEN};
use std::test::Fail;

#[derive(Clone, Copy, PartialEq, Eq, Debug)]
struct Small(u64);

impl Fits for Small {
    type Tag = u64;

    ghost fits = { λ most small. small.0 ≤ most };
}

// Puts 7 into a free slot with a reader. Returns the value that was there, the word, the value that
// the reader reads, and the word when it leaves.
fn put_pinned(slot: &Counted<Small>) -> Option<(Small, u64, Small, u64)>
    requires { slot.now ≡ 9 }
{
    let (found, claim) = slot.turn(FREE, TAKEN);
    if found != FREE {
        claim.done();
        return None;
    }
    let (old, claim) = claim.put_pinned(Small(7), PRESENT + ONE_READER);
    let word = slot.load();
    let read = *claim.get();
    Some((old, word, read, claim.leave()))
}

// Takes the value out of a slot that nobody reads, and leaves 2 in its place, marked.
fn take(slot: &Counted<Small>) -> Option<Small>
    requires { slot.now ≡ 9 }
{
    let (found, claim) = slot.turn(PRESENT, TAKEN);
    if found != PRESENT {
        claim.done();
        return None;
    }
    Some(claim.put(Small(2), MARKED))
}

// Reads the value of a slot that nobody else reads.
fn read(slot: &Counted<Small>) -> Option<Small> {
    let (found, claim) = slot.turn(PRESENT, PRESENT + ONE_READER);
    if found != PRESENT {
        claim.done();
        return None;
    }
    let value = *claim.get();
    claim.leave();
    Some(value)
}

#[test]
fn a_value_is_put_with_its_reader(rt: HostRuntime) -> Result<(), Fail> {
    let slot = Counted::new(Small(1), &9);
    assert_eq!(rt; read(&slot), None);
    assert_eq!(rt; put_pinned(&slot), Some((Small(1), 5, Small(7), 5)));
    assert_eq!(rt; (put_pinned(&slot), slot.load()), (None, 1));
    assert_eq!(rt; (read(&slot), slot.load()), (Some(Small(7)), 1));
    assert_eq!(rt; (take(&slot), slot.load()), (Some(Small(7)), 2));
    assert_eq!(rt; (take(&slot), slot.load()), (None, 2));
    assert_eq!(rt; slot.into_inner(), Small(2));
    Ok(())
}
