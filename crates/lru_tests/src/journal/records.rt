//! Records as text.

use crate::assertions::assert_equal;
use lru_journal::journal::{Record, Recorded, Told};
use std::alloc::{AllocError, Global};

/// Returns the texts of the records, each followed by a line feed.
pub(crate) fn lines(alloc: Global, records: &[Record<u64>]) -> Result<String, AllocError> {
    let mut text = String::new(alloc);
    for record in records {
        text.push_str(&format!(in alloc; "{record}\n")?)?;
    }
    Ok(text)
}

fn record(step: Recorded<u64>, reply: Told) -> Record<u64> {
    Record { step, reply }
}

// Returns a record of each kind.
fn kinds(alloc: Global) -> Result<Vec<Record<u64>>, AllocError> {
    Ok(vec![in alloc;
        record(Recorded::Begin(7, 3), Told::Make(0)),
        record(Recorded::Begin(7, 3), Told::Wait(1)),
        record(Recorded::BeginStrictly(7, 3), Told::Make(2)),
        record(Recorded::Poll(1), Told::Hit(1)),
        record(Recorded::Ready(2), Told::Done),
        record(Recorded::ReadyWith(2, 18446744073709551615), Told::Done),
        record(Recorded::ReadyWithStrictly(5, 2), Told::Done),
        record(Recorded::Fail(3), Told::Left),
        record(Recorded::Fail(4), Told::Removed),
        record(Recorded::Get(8), Told::Found(5)),
        record(Recorded::Get(9), Told::Missed),
        record(Recorded::Release(6), Told::Done),
        record(Recorded::ReleaseAndEvict(6), Told::Done),
        record(Recorded::Repin(6), Told::Done),
        record(Recorded::AdviceEvict(8), Told::Done),
        record(Recorded::Invalidate(8), Told::Done),
        record(Recorded::Insert(8, 18446744073709551615), Told::Inserted(7)),
        record(Recorded::InsertStrictly(8, 2), Told::Inserted(8)),
        record(Recorded::Read(8), Told::Found(7)),
        record(Recorded::Read(9), Told::Missed),
        record(Recorded::Prune, Told::Done),
        record(Recorded::SetCapacity(18446744073709551615), Told::Done),
        record(Recorded::Total, Told::Total(18446744073709551615)),
    ]?)
}

#[test]
fn each_kind_of_record_has_its_text(rt: HostRuntime) {
    let expected = "begin 7 3 -> make 0\n\
        begin 7 3 -> wait 1\n\
        begin_strictly 7 3 -> make 2\n\
        poll 1 -> hit 1\n\
        ready 2 -> done\n\
        ready_with 2 18446744073709551615 -> done\n\
        ready_with_strictly 5 2 -> done\n\
        fail 3 -> left\n\
        fail 4 -> removed\n\
        get 8 -> some 5\n\
        get 9 -> none\n\
        release 6 -> done\n\
        release_and_evict 6 -> done\n\
        repin 6 -> done\n\
        advice 8 -> done\n\
        invalidate 8 -> done\n\
        insert 8 18446744073709551615 -> inserted 7\n\
        insert_strictly 8 2 -> inserted 8\n\
        read 8 -> some 7\n\
        read 9 -> none\n\
        prune -> done\n\
        capacity 18446744073709551615 -> done\n\
        total -> total 18446744073709551615\n";
    let records = kinds(rt.alloc()).expect(&rt, "memory");
    let text = lines(rt.alloc(), &records).expect(&rt, "memory");
    assert_equal(&rt, text.as_str(), expected);
}
