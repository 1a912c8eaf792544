//! Callers that wait for one making, which may be given up before there is a value.
//!
//! If a caller is never woken, a limit ends the test.
ghost use Rattle.std.specs.Prelude.{◌<◌};

use crate::assertions::assert_equal_at;
use crate::caches::{Clock, OneLock, clock_with_shards};
use crate::flags::{reaches, yield_times};
use concurrent_lru::counts::Counts;
use lru_support::cached::Cached;
use std::alloc::Global;
use std::process::Abort;
use std::sync::Wait;
use std::sync::atomic::{AtomicU64, Ordering};
use std::thread;
use std::thread::Threads;

const ROUNDS: u64 = 150;

// The numbers of callers and of failures of the rounds.
const CASES: [(u64, u64); 4] = [(4, 0), (8, 0), (4, 2), (8, 2)];

// A round: this many callers ask for one value at the same time, one of which makes it, and the
// first makings fail. The number determines how often each yields.
#[derive(Clone, Copy, Debug)]
struct Round {
    number: u64,
    callers: u64,
    failures: u64,
}

impl Round {
    // How often a caller yields before it comes, and before the value that it makes is ready.
    fn yields_of(&self, caller: u64) -> u64 {
        self.number
            .wrapping_mul(37)
            .wrapping_add(caller.wrapping_mul(11))
            % 13
    }
}

// The number of callers that have come, got the value and ended, how often they asked, and how
// often `init` ran.
#[derive(Drop)]
struct Tally {
    came: AtomicU64,
    asked: AtomicU64,
    got: AtomicU64,
    ended: AtomicU64,
    ran: AtomicU64,
}

impl Tally {
    fn new() -> Tally {
        Tally {
            came: AtomicU64::new(0),
            asked: AtomicU64::new(0),
            got: AtomicU64::new(0),
            ended: AtomicU64::new(0),
            ran: AtomicU64::new(0),
        }
    }
}

fn number(count: &AtomicU64) -> u64 {
    count.load(Ordering::SeqCst)
}

// Asks for the value once, and returns whether it got it. The making goes on until all callers have
// come and some yields are over.
fn gets<C: Cached<u64>>(cache: C, tally: &Tally, round: Round, yields: u64) -> bool {
    tally.asked.fetch_add(1, Ordering::SeqCst);
    let made = cache.get_or_try_init(1, 1, |_| -> Result<u64, u64> {
        let before = tally.ran.fetch_add(1, Ordering::SeqCst);
        let all_came = reaches(&tally.came, round.callers);
        yield_times(yields);
        if all_came && before >= round.failures {
            Ok(5)
        } else {
            Err(before)
        }
    });
    matches!(&made, Ok(handle) if *C::value_of(handle) == 5)
}

// A cache of numbers as the callers ask it. It has no associated type, since the checker supports
// no closure of a thread over a type that has one.
trait AskedCache {
    // Asks for the value until it gets it.
    fn ask(&self, tally: &Tally, round: Round, yields: u64);
}

impl<C: Cached<u64>> AskedCache for C {
    fn ask(&self, tally: &Tally, round: Round, yields: u64) {
        yield_times(yields);
        tally.came.fetch_add(1, Ordering::SeqCst);
        for _ in 0..round.callers {
            if gets(*self, tally, round, yields) {
                tally.got.fetch_add(1, Ordering::SeqCst);
                break;
            }
        }
        tally.ended.fetch_add(1, Ordering::SeqCst);
    }
}

// Has all callers ask at the same time, each with yields of its own.
fn asks_at_once<R: Wait + Threads + Abort + Sync, C: AskedCache + Sync>(
    rt: &R,
    cache: &C,
    tally: &Tally,
    round: Round,
) {
    thread::scope(thread::scope_env(), rt, |scope| {
        for caller in 0..round.callers {
            let yields = round.yields_of(caller);
            let _started = scope.spawn(move || cache.ask(tally, round, yields));
        }
        assert!(rt;
            reaches(&tally.ended, round.callers),
            "a caller is never woken"
        );
    });
}

// Returns the number of calls that asked for a value.
fn lookups(counts: &Counts) -> u64 {
    counts
        .hits
        .wrapping_add(counts.misses)
        .wrapping_add(counts.waits)
}

// What a round shows: how often `init` ran, how many callers got the value, and whether the counts
// of the cache say what the callers did.
#[derive(Clone, Copy, Debug, PartialEq, Eq)]
struct Played {
    ran: u64,
    got: u64,
    is_counted: bool,
}

// Plays a round in a new cache behind one lock.
fn plays_in_one_lock<R: Wait + Threads + Abort + Clone + Drop + Send + Sync>(
    rt: &R,
    alloc: Global,
    round: Round,
) -> Option<Played> {
    let cache: OneLock<u64, R> = OneLock::new(alloc, rt.clone().ok()?, 10);
    let tally = Tally::new();
    asks_at_once(rt, &&cache, &tally, round);
    let (counts, ran) = (cache.counts(), number(&tally.ran));
    Some(Played {
        ran,
        got: number(&tally.got),
        is_counted: lookups(&counts) == number(&tally.asked)
            && counts.makings == ran
            && counts.failures == round.failures,
    })
}

// Plays a round in a new clock, which counts a making only if it ends with a value.
fn plays_in_clock<R: Wait + Threads + Abort + Clone + Drop + Send + Sync>(
    rt: &R,
    alloc: Global,
    round: Round,
) -> Option<Played> {
    let cache: Clock<u64, R> = clock_with_shards(alloc, rt.clone().ok()?, 10, 1)?;
    let tally = Tally::new();
    asks_at_once(rt, &&cache, &tally, round);
    let counts = cache.counts();
    Some(Played {
        ran: number(&tally.ran),
        got: number(&tally.got),
        is_counted: counts.makings == 1 && counts.failures == round.failures,
    })
}

#[test]
fn callers_wait_for_a_value(rt: HostRuntime) {
    for (callers, failures) in CASES {
        for number in 0..ROUNDS {
            let round = Round {
                number,
                callers,
                failures,
            };
            let wanted = Some(Played {
                ran: failures.wrapping_add(1),
                got: callers,
                is_counted: true,
            });
            let played = plays_in_one_lock(&rt, rt.alloc(), round);
            assert_equal_at(&rt, played, wanted, round);
            let played = plays_in_clock(&rt, rt.alloc(), round);
            assert_equal_at(&rt, played, wanted, round);
        }
    }
}
