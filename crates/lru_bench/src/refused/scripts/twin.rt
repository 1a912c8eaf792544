//! The scripts of a twin. Together they make each call once when its record needs new room: there
//! is none at first, then room for four records, and then for eight.

use crate::refused::scripts::{Named, Script};
use crate::refused::twin::Call::{
    self, AdviceEvict, Begin, Fail, Get, Insert, Invalidate, Poll, Prune, Read, Ready, Release,
    SetCapacity, Total,
};

/// Returns these scripts.
pub fn all() -> &'static [Named] {
    ALL
}

const ALL: &[Named] = &[
    ("twin-hits", Script::Twin(10, HITS, &[])),
    ("twin-evicts", Script::Twin(1, EVICTS, &[])),
    ("twin-polls", Script::Twin(10, POLLS, &[])),
    ("twin-stores", Script::Twin(10, STORES, &[])),
    ("twin-fails", Script::Twin(10, FAILS, &[])),
    ("twin-reads", Script::Twin(2, READS, &[])),
    ("twin-taken-back", Script::Twin(10, TAKEN_BACK, &[])),
    ("twin-put-in", Script::Twin(3, PUT_IN, &[])),
    ("twin-tallies", Script::Twin(10, FIRST, SECOND)),
];

// A present key is found without a making.
const HITS: &[&[Call]] = &[
    &[Begin("1", 1), Ready(0, 7), Release(0), Get("1")],
    &[Begin("1", 1), Release(0), Release(0), Total],
];

// A new entry evicts an idle one.
const EVICTS: &[&[Call]] = &[
    &[Begin("1", 1), Ready(0, 1), Release(0), Begin("2", 1)],
    &[Get("1"), Release(0)],
];

// A caller that waits is given what the other made.
const POLLS: &[&[Call]] = &[
    &[Get("1"), Begin("1", 1), Begin("1", 1), Total, Poll(0)],
    &[Ready(0, 1), Poll(0), Get("1"), Release(0), Release(0)],
    &[Release(0)],
];

// A value is stored and taken by a caller that waits, and evicted in the end.
const STORES: &[&[Call]] = &[
    &[SetCapacity(2), Begin("1", 1), Begin("1", 1), Total],
    &[Ready(0, 7), Poll(0), Release(0), Release(0), Prune],
    &[Total],
];

// A making that fails is left to the caller that waits, and removed where that fails too.
const FAILS: &[&[Call]] = &[
    &[AdviceEvict("1"), Begin("1", 1), Begin("1", 1), Total],
    &[Fail(0), Poll(0), Fail(0), Total, Begin("1", 1)],
];

// A read finds what is ready, makes it the newest, and leaves no pin.
const READS: &[&[Call]] = &[
    &[Read("1"), Begin("1", 1), Read("1"), Ready(0, 10)],
    &[Read("1"), Release(0), Begin("2", 1), Ready(1, 20)],
    &[Release(1), Read("1"), Begin("3", 1), Read("2")],
    &[Read("1"), Total],
];

// An entry whose key is taken back while a caller waits for it is made for that caller, beside the
// new one of the key.
const TAKEN_BACK: &[&[Call]] = &[
    &[Invalidate("1"), Begin("1", 1), Begin("1", 1), Fail(0)],
    &[Invalidate("1"), Get("1"), Begin("1", 2), Poll(0)],
    &[Ready(0, 10), Ready(1, 20), Total, Release(0), Read("1")],
    &[Release(1), Invalidate("1"), Total],
];

// The old value is detached or evicted before the new one is there. The charge of an idle one does
// not count beside that of the new one; that of a held one does.
const PUT_IN: &[&[Call]] = &[
    &[Insert("1", 1, 10), Insert("1", 2, 11), Read("1")],
    &[Release(0), Release(1), Insert("1", 3, 12), Release(2)],
    &[Insert("2", 1, 20), Release(3)],
    &[Insert("2", u64::MAX, 21), Insert("3", 1, 30)],
    &[Insert("2", 1, 22), Get("2"), Release(4), Release(4)],
    &[Begin("3", 1), Insert("3", 1, 31), Ready(5, 32)],
    &[Release(5), Read("3"), Release(6), Total],
];

// The calls of the first caller. The second one finds what they made.
const FIRST: &[&[Call]] = &[
    &[Begin("1", 1), Ready(0, 7), Release(0), Total, Get("1")],
    &[Release(0)],
];

// The calls of the second caller.
const SECOND: &[&[Call]] = &[
    &[Begin("1", 1), Begin("2", 1), Ready(1, 2), Release(1)],
    &[Release(0), Total, Prune],
];
