//! Long runs of calls drawn from seeds, whose answers are compared with those of a plain cache.

use crate::state::both::Both;
use crate::state::plain::KEYS;
use lru_support::tables::Call;
use rand_core::{Rng, SeedableRng};
use rand_xoshiro::Xoshiro256PlusPlus;
use std::alloc::Global;
use std::process::Abort;

// Draws the next call. Its stamp is among the last that were given out; `next` is the one after
// them.
fn draw(generator: &mut Xoshiro256PlusPlus, next: u64) -> Call {
    let a = generator.next_u64();
    let b = generator.next_u64();
    let c = generator.next_u64();
    let key = b % KEYS as u64;
    let stamp = next.saturating_sub(1 + c % 16);
    match a % 18 {
        0 => Call::Begin(key, 1 + c % 4),
        1 => Call::Poll(stamp),
        2 => Call::Ready(stamp, b),
        3 => Call::Fail(stamp),
        4 => Call::Get(key),
        5 => Call::Release(stamp),
        6 => Call::AdviceEvict(key),
        7 => Call::Prune,
        8 => Call::Total,
        9 => Call::KeyOf(stamp),
        10 => Call::Invalidate(key),
        11 => Call::Insert(key, 1 + c % 4, b),
        12 => Call::Read(key),
        13 => Call::SetCapacity(8 + c % 5),
        14 => Call::ReleaseAndEvict(stamp),
        15 => Call::Repin(stamp),
        16 => Call::BeginStrictly(key, 1 + c % 4),
        _ => Call::InsertStrictly(key, 1 + c % 4, b),
    }
}

// Where a run is: its seed and the number of its call, with words for them.
type Place = (&'static str, u64, &'static str, u32);

fn place_of(seed: u64, number: u32) -> Place {
    ("seed", seed, "call", number)
}

// Creates two empty caches at capacity 10, whose entries have at most three pins.
fn both_of_ten(alloc: Global) -> Both {
    Both::with_limits(alloc, 10, 0, 3)
}

// Few pins are ever released here, so entries reach the maximum number of pins more often than they
// are idle.
fn answer_from(rt: &impl Abort, alloc: Global, seed: u64) {
    let mut both = both_of_ten(alloc);
    let mut generator = Xoshiro256PlusPlus::seed_from_u64(seed);
    for number in 0..2_000u32 {
        let call = draw(&mut generator, both.plain.next);
        both.take(rt, &place_of(seed, number), call);
    }
}

#[test]
fn answers_as_a_plain_cache_does(rt: HostRuntime) {
    for seed in 1..=10u64 {
        answer_from(&rt, rt.alloc(), seed);
    }
}

// The stamps of up to two pins, the oldest first.
type Held = (Option<u64>, Option<u64>);

// Releases the pin of a stamp.
fn give_back(rt: &impl Abort, both: &mut Both, place: &Place, stamp: u64) {
    for call in [
        Call::Poll(stamp),
        Call::Ready(stamp, stamp),
        Call::Release(stamp),
    ] {
        both.take(rt, place, call);
    }
}

// Releases the oldest pin if the last call took a third one. Returns the pins that are held then.
fn hold_two(rt: &impl Abort, both: &mut Both, place: &Place, held: Held) -> Held {
    let Some(pinned) = both.plain.pinned else {
        return held;
    };
    if let Some(oldest) = held.0 {
        give_back(rt, both, place, oldest);
    }
    (held.1, Some(pinned))
}

// Once three pins are held, the oldest is released, so that there are idle entries to choose from.
fn give_back_from(rt: &impl Abort, alloc: Global, seed: u64) {
    let mut both = both_of_ten(alloc);
    let mut generator = Xoshiro256PlusPlus::seed_from_u64(seed);
    let mut held = (None, None);
    for number in 0..1_000u32 {
        let place = place_of(seed, number);
        let call = draw(&mut generator, both.plain.next);
        both.take(rt, &place, call);
        held = hold_two(rt, &mut both, &place, held);
        both.look(rt, &place);
    }
}

#[test]
fn holds_what_a_plain_cache_does_where_pins_are_given_back(rt: HostRuntime) {
    for seed in 1..=10u64 {
        give_back_from(&rt, rt.alloc(), seed);
    }
}
