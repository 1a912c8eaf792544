//! Long runs of calls drawn from seeds, made on a twin and on a journal for a single owner.
//!
//! The twin's answers are the journal's, and so are its records.
ghost use Rattle.std.specs.Prelude.{◌≡◌};

use crate::assertions::assert_equal_at;
use crate::journal::answer::Answer;
use crate::journal::records::lines;
use crate::journal::{caller, owner};
use concurrent_lru::lru_core::Refusal;
use lru_journal::journal::{Identity, Journal, Opening, Tally, Told, Twin};
use lru_support::tables::Call;
use rand_core::{Rng, SeedableRng};
use rand_xoshiro::Xoshiro256PlusPlus;
use std::alloc::Global;
use std::marker::Brand;
use std::process::Abort;
use std::sync::Wait;
use std::test::Fail;

const CAPACITY: u64 = 8;

// The state that determines the next call: a generator, the stamps of the last pins, and the calls
// that remain to be made to release the pin before these.
#[derive(Drop)]
struct Draws {
    generator: Xoshiro256PlusPlus,
    pins: [u64; 4],
    due: Option<Call>,
}

impl Draws {
    // No entry ever has the stamps that stand for no pin.
    fn from_seed(seed: u64) -> Draws {
        Draws {
            generator: Xoshiro256PlusPlus::seed_from_u64(seed),
            pins: [u64::MAX; 4],
            due: None,
        }
    }

    fn next(&mut self) -> Call {
        match self.due {
            Some(call) => {
                self.due = next_due(call);
                call
            }
            None => self.draw(),
        }
    }

    // Returns a call on one of six keys or of the last pins.
    fn draw(&mut self) -> Call {
        let key = self.generator.next_u64() % 6;
        let number = self.generator.next_u64() % 8;
        let stamp = self.pins[(self.generator.next_u64() % 4) as usize];
        let charge = 1 + number % 3;
        match self.generator.next_u64() % 24 {
            0..=4 => Call::Begin(key, charge),
            5 => Call::BeginStrictly(key, charge),
            6 => Call::Poll(stamp),
            7 => Call::Ready(stamp, number),
            8 => Call::Fail(stamp),
            9 | 10 => Call::Get(key),
            11 | 12 => Call::Read(key),
            13 => Call::Release(stamp),
            14 => Call::ReleaseAndEvict(stamp),
            15 => Call::Repin(stamp),
            16 => Call::AdviceEvict(key),
            17 => Call::Invalidate(key),
            18 => Call::Insert(key, charge, number),
            // Refused, unless nothing stays beside it.
            19 => Call::Insert(key, u64::MAX, number),
            20 => Call::InsertStrictly(key, charge, number),
            21 => Call::Prune,
            22 => Call::SetCapacity(4 + number),
            _ => Call::Total,
        }
    }

    // Keeps the stamp if the call returned a pin, and has the oldest pin released.
    fn note(&mut self, call: Call, answer: Answer) {
        if let Some(stamp) = pinned(call, answer) {
            let [oldest, one, two, three] = self.pins;
            self.pins = [one, two, three, stamp];
            self.due = Some(Call::Poll(oldest));
        }
    }
}

// Returns the stamp of the entry that a call pinned, if it pinned one.
fn pinned(call: Call, answer: Answer) -> Option<u64> {
    match (call, answer.told) {
        (Call::Poll(_) | Call::Read(_), _) => None,
        (Call::Repin(stamp), Ok(_)) => Some(stamp),
        (
            _,
            Ok(
                Told::Make(stamp)
                | Told::Wait(stamp)
                | Told::Hit(stamp)
                | Told::Found(stamp)
                | Told::Inserted(stamp),
            ),
        ) => Some(stamp),
        _ => None,
    }
}

// A pin is released after a poll, which takes over a failed making, and a ready.
fn next_due(call: Call) -> Option<Call> {
    match call {
        Call::Poll(stamp) => Some(Call::Ready(stamp, stamp)),
        Call::Ready(stamp, _) => Some(Call::Release(stamp)),
        _ => None,
    }
}

#[test]
fn a_twin_answers_and_records_as_a_journal_does(rt: HostRuntime) -> Result<(), Fail> {
    for seed in 1..=20u64 {
        let opening = Opening::<u64>::new(rt.alloc(), CAPACITY)?;
        compare::<Brand, HostRuntime>(&rt, rt.alloc(), opening, seed)?;
    }
    Ok(())
}

fn compare<I: Identity, R: Wait + Abort>(
    rt: &R,
    alloc: Global,
    opening: Opening<u64>,
    seed: u64,
) -> Result<(), Fail>
    requires { opening ≡ I.name }
{
    let mut journal = Journal::new(alloc, CAPACITY);
    let (cache, mut tally) = Twin::<u64, u64, &R, I>::new(alloc, rt, opening);
    answer_alike(rt, alloc, &cache, &mut tally, &mut journal, seed);
    let recorded = lines(alloc, cache.into_journal(tally).records())?;
    let wanted = lines(alloc, journal.records())?;
    assert_equal_at(rt, &recorded, &wanted, ("the records of seed", seed));
    Ok(())
}

// Makes 300 calls on a twin and on a journal, and compares the answers.
fn answer_alike<I: Identity, R: Wait + Abort>(
    rt: &R,
    alloc: Global,
    cache: &Twin<u64, u64, &R, I>,
    tally: &mut Tally<u64, I>,
    journal: &mut Journal<u64, u64>,
    seed: u64,
)
    ensures { tally.new.parts ≡ tally.old.parts }
{
    let mut draws = Draws::from_seed(seed);
    for number in 0..300u32 {
        let call = draws.next();
        let place = ("call", number, "of seed", seed, call);
        let answer = caller::ask(alloc, cache, tally, call).expect(rt, "memory");
        let wanted = owner::ask(alloc, journal, call).expect(rt, "memory");
        assert_equal_at(rt, answer, wanted, place);
        let answer = answer.expect(rt, "a call that both have");
        assert!(rt; answer.told != Err(Refusal::Memory), "at {place:?}");
        draws.note(call, answer);
    }
}
