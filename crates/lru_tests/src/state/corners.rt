//! Capacities, charges and stamps at the limits of their numbers, in all combinations: one list of
//! calls, whose answers are compared with those of a plain cache.
ghost use Rattle.std.specs.Prelude.{◌<◌};

use crate::state::both::Both;
use lru_support::tables::Call;
use lru_support::tables::Call::{
    AdviceEvict, Begin, Capacity, Fail, Get, KeyOf, Poll, Prune, Ready, Release, SetCapacity, Total,
};
use std::alloc::Global;
use std::process::Abort;

const ENDS: [u64; 4] = [0, 1, u64::MAX - 1, u64::MAX];

// A charge is above 0.
const CHARGES: [u64; 3] = [1, u64::MAX - 1, u64::MAX];

// The number of corners: four limits for each of three numbers, and three for each of two charges.
const CORNERS: u32 = 4 * 4 * 4 * 3 * 3;

// The numbers of a run.
#[derive(Clone, Copy, Debug)]
struct Corner {
    capacity: u64,
    first_stamp: u64,
    charges: (u64, u64),
    // The capacity that is set later.
    changed: u64,
}

impl Corner {
    // Each number below `CORNERS` has a corner of its own; larger ones repeat them.
    fn of(number: u32) -> Corner {
        let charge = |which: u32| CHARGES[(which % 3) as usize];
        let end = |which: u32| ENDS[(which % 4) as usize];
        Corner {
            capacity: end(number),
            first_stamp: end(number / 4),
            changed: end(number / 16),
            charges: (charge(number / 64), charge(number / 192)),
        }
    }

    // Two keys are asked for, made, released and asked for again, if the numbers allow it; each
    // stamp is tried in every call, whether or not an entry has it.
    fn calls(self) -> [Call; 40] {
        let (one, two) = self.charges;
        let first = self.first_stamp;
        let second = first.saturating_add(1);
        let third = first.saturating_add(2);
        let fourth = first.saturating_add(3);
        [
            Capacity,
            Begin(1, one),
            Begin(2, two),
            Total,
            Begin(1, two),
            KeyOf(second),
            KeyOf(third),
            Ready(first, 10),
            Get(1),
            Release(first),
            Release(first),
            Release(first),
            Total,
            Ready(second, 20),
            Poll(second),
            Release(second),
            Begin(3, 1),
            Fail(third),
            Fail(second),
            Begin(3, two),
            Total,
            Get(2),
            Release(first),
            Release(second),
            SetCapacity(self.changed),
            Capacity,
            Total,
            Ready(third, 30),
            Release(third),
            Begin(1, one),
            Release(first),
            Ready(fourth, 40),
            Release(fourth),
            SetCapacity(self.capacity),
            Total,
            Begin(2, one),
            AdviceEvict(2),
            Poll(fourth),
            Fail(fourth),
            Prune,
        ]
    }
}

// Makes the calls of a corner on empty caches.
fn take_all(rt: &impl Abort, alloc: Global, corner: Corner, most_pins: u32)
    requires { 0 < most_pins }
{
    let mut both = Both::with_limits(alloc, corner.capacity, corner.first_stamp, most_pins);
    for call in corner.calls() {
        both.take(rt, &(corner, most_pins), call);
    }
}

#[test]
fn answers_at_every_corner_as_a_plain_cache_does(rt: HostRuntime) {
    for number in 0..2 * CORNERS {
        // An entry takes one or two pins.
        take_all(&rt, rt.alloc(), Corner::of(number), 1 + number / CORNERS);
    }
}
