//! The scripts of caches that threads share.

use crate::refused::scripts::{Named, Script};
use crate::refused::threaded::Call::{
    self, Contains, Get, Init, InitEach, Insert, Invalidate, Prune, Read, Reserve, SetCapacity,
    Total, TryInit,
};
use crate::refused::threaded::Kind::{Clock, Sharded, Unsharded};

/// Returns these scripts.
pub fn all() -> &'static [Named] {
    ALL
}

const ALL: &[Named] = &[
    ("unsharded-values", Script::Threaded(Unsharded, 10, VALUES)),
    (
        "unsharded-evicts",
        Script::Threaded(Unsharded, 5, LARGE_VALUES),
    ),
    ("unsharded-fails", Script::Threaded(Unsharded, 10, FAILED)),
    (
        "unsharded-reads",
        Script::Threaded(Unsharded, 2, READ_VALUES),
    ),
    (
        "unsharded-taken-back",
        Script::Threaded(Unsharded, 10, TAKEN_VALUES),
    ),
    (
        "unsharded-put-in",
        Script::Threaded(Unsharded, 3, PUT_VALUES),
    ),
    ("unsharded-room", Script::Threaded(Unsharded, 10, ROOM)),
    (
        "unsharded-much-room",
        Script::Threaded(Unsharded, 40, MUCH_ROOM),
    ),
    ("unsharded-over-two", Script::OverTwo),
    ("unsharded-two-threads", Script::Meeting),
    ("sharded-values", Script::Threaded(Sharded(1), 10, VALUES)),
    (
        "sharded-evicts",
        Script::Threaded(Sharded(1), 5, LARGE_VALUES),
    ),
    ("sharded-fails", Script::Threaded(Sharded(1), 10, FAILED)),
    (
        "sharded-reads",
        Script::Threaded(Sharded(1), 2, READ_VALUES),
    ),
    (
        "sharded-taken-back",
        Script::Threaded(Sharded(16), 160, TAKEN_VALUES),
    ),
    (
        "sharded-put-in",
        Script::Threaded(Sharded(1), 3, PUT_VALUES),
    ),
    ("sharded-room", Script::Threaded(Sharded(4), 40, ROOM)),
    (
        "sharded-much-room",
        Script::Threaded(Sharded(2), 80, MUCH_ROOM),
    ),
    ("sharded-many", Script::Threaded(Sharded(16), 160, VALUES)),
    ("clock-values", Script::Threaded(Clock(1), 10, VALUES)),
    ("clock-evicts", Script::Threaded(Clock(1), 5, LARGE_VALUES)),
    ("clock-fails", Script::Threaded(Clock(1), 10, FAILED)),
    ("clock-reads", Script::Threaded(Clock(1), 2, READ_VALUES)),
    (
        "clock-taken-back",
        Script::Threaded(Clock(16), 160, TAKEN_VALUES),
    ),
    ("clock-put-in", Script::Threaded(Clock(1), 3, PUT_VALUES)),
    ("clock-room", Script::Threaded(Clock(4), 40, ROOM)),
    ("clock-much-room", Script::Threaded(Clock(2), 80, MUCH_ROOM)),
    ("clock-grows", Script::Threaded(Clock(1), 70, GROWS)),
];

// A present key keeps its value.
const VALUES: &[&[Call]] = &[&[Init(1, 1, 1), Init(2, 1, 2), Init(1, 1, 3), Total]];

// After an eviction the value is made again.
const LARGE_VALUES: &[&[Call]] = &[&[Init(1, 3, 1), Init(2, 3, 2), Init(1, 3, 3), Total]];

// A making that fails leaves no entry, and the next one may succeed.
const FAILED: &[&[Call]] = &[
    &[Init(1, 1, 1), Get(1), Init(2, 1, 2), Get(2)],
    &[TryInit(3, 1, None), Get(3), TryInit(3, 1, Some(3))],
    &[Get(3), Total],
];

// A read makes its entry the newest, and leaves no pin.
const READ_VALUES: &[&[Call]] = &[
    &[Read(1), Init(1, 1, 10), Init(2, 1, 20), Read(1)],
    &[Init(3, 1, 30), Read(2), Read(1), Read(3), Contains(1)],
    &[Contains(2), Total, Prune, Read(1), Total],
];

// The value of an invalidated key is no longer found, and is made again.
const TAKEN_VALUES: &[&[Call]] = &[
    &[Invalidate(1), Init(1, 1, 10), Init(2, 2, 20)],
    &[Invalidate(1), Get(1), Get(2), Total, Init(1, 3, 11)],
    &[Get(1), Total],
];

// An inserted value replaces that of the key, whose charge does not count together with its own.
// One that is refused leaves everything as it was.
const PUT_VALUES: &[&[Call]] = &[
    &[Insert(1, 1, 10), Insert(1, 2, 11), Get(1)],
    &[Insert(2, 2, 20), Get(1), Get(2)],
    &[Insert(2, u64::MAX, 21), Get(2), Total, Init(1, 1, 12)],
    &[Insert(2, u64::MAX, 22), Get(1), Total],
];

// Room reserved ahead, and then a smaller capacity.
const ROOM: &[&[Call]] = &[
    &[Reserve(9), Init(1, 1, 1), TryInit(2, 1, Some(2))],
    &[SetCapacity(4), Init(3, 1, 3), Total, Prune, Get(1)],
    &[Total],
];

// Room for as many entries as a map of 32 places holds, or two of 16: one more makes it grow.
const MUCH_ROOM: &[&[Call]] = &[&[Reserve(28), InitEach(30), Total]];

// The first slots of a clock are for 64 entries.
const GROWS: &[&[Call]] = &[&[InitEach(70), Total]];
