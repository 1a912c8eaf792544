//! Long runs of calls drawn from seeds, whose answers, with what the cache says of itself after
//! each call, are compared with those of a model.
ghost use Rattle.std.specs.Prelude.{◌<◌};

mod model;
pub(crate) mod player;
pub(crate) mod said;
pub(crate) mod view;

use crate::seeded::model::Model;
use crate::seeded::player::Player;
use crate::threaded::{Then, ThreadedCall};
use concurrent_lru::{sharded, unsharded};
use lru_support::drops::{DropLog, Logged};
use lru_support::hashers::ByOwnNumber;
use lru_support::tables::Answers;
use rand_core::{Rng, SeedableRng};
use rand_xoshiro::Xoshiro256PlusPlus;
use std::alloc::{AllocError, Global};
use std::sync::Wait;
use std::test::Fail;

// The number of calls of a run.
const CALLS: u64 = 2_000;

// Draws the calls of a seed.
#[derive(Drop)]
struct Calls {
    generator: Xoshiro256PlusPlus,
    // Whether a few charges, and a few numbers of entries to reserve, are the maximum.
    has_maxima: bool,
}

impl Calls {
    // Returns the next call, whose value is its number. The 16 keys differ in their high half only,
    // in their low half only, or in both.
    fn draw(&mut self, number: u64) -> ThreadedCall {
        let generator = &mut self.generator;
        let kind = generator.next_u64() % 38;
        let key = generator.next_u64() % 4 * 4_294_967_296 + generator.next_u64() % 4;
        let small = 1 + generator.next_u64() % 9;
        let limit = generator.next_u64() % 48;
        let is_greatest = generator.next_u64() % 64 == 0 && self.has_maxima;
        let charge = if is_greatest { u64::MAX } else { small };
        let entries = if is_greatest {
            usize::MAX
        } else {
            limit as usize
        };
        let then = then_of(generator.next_u64() % 200);
        match kind {
            0..5 => ThreadedCall::Get(key, then),
            5..10 => ThreadedCall::Init(key, charge, number, then),
            10..14 => ThreadedCall::TryInit(key, charge, number, then),
            14..17 => ThreadedCall::Fail(key, charge, then),
            17..20 => ThreadedCall::LetGo((limit % 4) as usize),
            20..22 => ThreadedCall::AdviceEvict(key),
            22 => ThreadedCall::Prune,
            23 => ThreadedCall::SetCapacity(limit),
            24 => ThreadedCall::Reserve(entries),
            25..27 => ThreadedCall::Invalidate(key),
            27..30 => ThreadedCall::Insert(key, charge, number, then),
            30..33 => ThreadedCall::Read(key),
            33..35 => ThreadedCall::Contains(key),
            35..37 => ThreadedCall::SetStrict(limit % 2 == 0),
            _ => ThreadedCall::ResetCounts,
        }
    }
}

// Half of the handles are kept. Few are forgotten, since their entries stay for good.
fn then_of(drawn: u64) -> Then {
    if drawn == 0 {
        Then::Forget
    } else if drawn % 2 == 0 {
        Then::Keep((drawn % 8 / 2) as usize)
    } else {
        Then::AtOnce
    }
}

/// Makes the calls that a seed determines on two empty caches. Fails if they say different things
/// of themselves before the first call, and at the first call where their answers differ, or what
/// they say of themselves after it; the failure tells the seed, the call, the answer and the
/// expected answer.
pub(crate) fn agree<C: Answers<ThreadedCall>, M: Answers<ThreadedCall>>(
    alloc: Global,
    seed: u64,
    has_maxima: bool,
    cache: &mut C,
    model: &mut M,
) -> Result<(), Fail> {
    let mut calls = Calls {
        generator: Xoshiro256PlusPlus::seed_from_u64(seed),
        has_maxima,
    };
    if let Some((answered, wanted)) = difference(alloc, cache, model, ThreadedCall::View)? {
        return Err(Fail::new(format_args!(
            "before the first call of seed {seed}\n  answered: {answered}\n    wanted: {wanted}"
        )));
    }
    for number in 0..CALLS {
        let call = calls.draw(number);
        if let Some((answered, wanted)) = difference(alloc, cache, model, call)? {
            return Err(Fail::new(format_args!(
                "at call {number} of seed {seed}, {call:?}\n  answered: {answered}\n    wanted: {wanted}"
            )));
        }
    }
    Ok(())
}

// Makes one call on both. Returns their answers, or what they say of themselves after it, if these
// differ.
fn difference<C: Answers<ThreadedCall>, M: Answers<ThreadedCall>>(
    alloc: Global,
    cache: &mut C,
    model: &mut M,
    call: ThreadedCall,
) -> Result<Option<(String, String)>, AllocError> {
    for call in [call, ThreadedCall::View] {
        let answers = (cache.answer(alloc, call)?, model.answer(alloc, call)?);
        if answers.0.as_str() != answers.1.as_str() {
            return Ok(Some(answers));
        }
    }
    Ok(None)
}

const SEEDS: u64 = 10;

const CAPACITIES: [u64; 5] = [0, 1, 10, 37, u64::MAX];

fn capacity_of(seed: u64) -> u64 {
    CAPACITIES[(seed % 5) as usize]
}

// Makes a seed's calls on a cache behind one lock.
fn agrees_in_one_lock<R: Wait + Clone + Drop>(
    rt: &R,
    alloc: Global,
    seed: u64,
) -> Result<(), Fail> {
    let capacity = capacity_of(seed);
    let log = DropLog::new(alloc, rt)?;
    let cache: unsharded::LruCache<u64, Logged<R>, R> = unsharded::LruCache::new(
        alloc,
        rt.clone()?,
        capacity,
    );
    let mut player = Player::new(alloc, &cache, &log)?;
    let mut model = Model::new(alloc, capacity, 1)?;
    agree(alloc, seed, true, &mut player, &mut model)
}

#[test]
fn one_thread_is_answered_as_one_owner(rt: HostRuntime) -> Result<(), Fail> {
    for seed in 0..SEEDS {
        agrees_in_one_lock(&rt, rt.alloc(), seed)?;
    }
    Ok(())
}

// Makes a seed's calls on a cache with two to four shards. The sum of the shares of two, of a
// capacity of `u64::MAX`, passes the maximum of a `u64`.
fn agrees_in_shards<R: Wait + Clone + Drop>(rt: &R, alloc: Global, seed: u64) -> Result<(), Fail> {
    let capacity = capacity_of(seed);
    let shards = (2 + seed % 3) as usize;
    let log = DropLog::new(alloc, rt)?;
    let cache: sharded::LruCache<u64, Logged<R>, R, ByOwnNumber> =
        sharded::LruCache::with_shards_hasher(alloc, rt.clone()?, capacity, shards, ByOwnNumber)?;
    let mut player = Player::new(alloc, &cache, &log)?;
    let mut model = Model::new(alloc, capacity, shards)?;
    agree(alloc, seed, true, &mut player, &mut model)
}

#[test]
fn one_thread_is_answered_as_the_owner_of_shards(rt: HostRuntime) -> Result<(), Fail> {
    for seed in 0..SEEDS {
        agrees_in_shards(&rt, rt.alloc(), seed)?;
    }
    Ok(())
}
