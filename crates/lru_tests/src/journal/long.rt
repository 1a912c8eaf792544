//! The drop of a journal of many records, and of its entries, idle and held.

use crate::assertions::assert_equal;
use lru_journal::journal::Journal;
use std::process::Abort;
use std::sync::Arc;

// Half of the keys are released. An idle key leaves three records and a held one two, so there are
// more records than the stack would hold if the drop were recursive.
const KEYS: u64 = 40_000;

// Makes a key's value and keeps the pin. The key is also the stamp.
fn hold(rt: &impl Abort, journal: &mut Journal<u64, u64>, key: u64, value: &Arc<u64>) {
    let value = value.clone().expect(rt, "room for an owner");
    assert!(rt; journal.begin(&key, 1).is_ok());
    assert!(rt; journal.ready(key, value).is_ok());
}

// Makes all keys, and releases every second one.
fn hold_all(rt: &impl Abort, journal: &mut Journal<u64, u64>, value: &Arc<u64>) {
    for key in 0..KEYS {
        hold(rt, journal, key, value);
        if key % 2 == 0 {
            assert!(rt; journal.release(key).is_ok());
        }
    }
}

#[test]
fn ends_with_a_hundred_thousand_records(rt: HostRuntime) {
    let value = Arc::new(rt.alloc(), 7u64).expect(&rt, "memory");
    let mut journal: Journal<u64, u64> = Journal::new(rt.alloc(), KEYS);
    hold_all(&rt, &mut journal, &value);
    assert_equal(&rt, journal.records().len(), 100_000);
    assert_equal(&rt, Arc::strong_count(&value), 40_001);
    drop(journal);
    assert_equal(&rt, Arc::strong_count(&value), 1);
}
