//! Two callers of one value: the second comes while the first makes it, and waits.
ghost use Rattle.std.specs.Prelude.{◌<◌};

use crate::assertions::assert_equal_at;
use crate::caches::{Clock, OneLock, clock_with_shards};
use crate::flags::{meets, pause, raise};
use crate::threaded::make_value;
use concurrent_lru::counts::Counts;
use lru_clock::clock;
use lru_support::cached::Cached;
use std::alloc::Global;
use std::sync::Wait;
use std::sync::atomic::AtomicU64;
use std::thread;
use std::thread::Threads;

// What the first caller does.
#[derive(Clone, Copy, Debug)]
enum First {
    // It makes the value.
    Makes,
    // Its `init` fails.
    Fails,
    // It invalidates the key, and then makes the value.
    Invalidates,
}

// The progress of the two callers.
#[derive(Drop)]
struct Meeting {
    // Raised once the first makes the value.
    started: AtomicU64,
    // Raised before the second asks for it.
    coming: AtomicU64,
}

// A cache of numbers as the two callers ask it. It has no associated type, since the checker
// supports no closure of a thread over a type that has one.
trait MeetingCache {
    // Asks for key 1 with the charge 3, and makes it as 5 or fails once the other caller comes.
    // Returns whether it ended as it was told.
    fn come_first(&self, meeting: &Meeting, first: First) -> bool;

    // Asks for key 1 with the charge 7 while the first makes it. Returns its value, which this
    // caller makes as 6 if it has to.
    fn come_second(&self, meeting: &Meeting) -> Option<u64>;
}

// A cache of numbers. The trait has no parameter, since the checker supports no closure over a type
// whose bound has one.
trait NumberCache: Cached<u64> {}

impl<C: Cached<u64>> NumberCache for C {}

impl<C: NumberCache> MeetingCache for C {
    fn come_first(&self, meeting: &Meeting, first: First) -> bool {
        let mut met = false;
        let made = self.get_or_try_init(1, 3, |key| -> Result<u64, u64> {
            raise(&meeting.started);
            met = meets(&meeting.coming);
            pause();
            match first {
                First::Makes => Ok(5),
                First::Fails => Err(9),
                First::Invalidates => {
                    self.invalidate(*key);
                    Ok(5)
                }
            }
        });
        let has_made = matches!(&made, Ok(handle) if *C::value_of(handle) == 5);
        met && has_made != matches!(first, First::Fails)
    }

    fn come_second(&self, meeting: &Meeting) -> Option<u64> {
        if !meets(&meeting.started) {
            return None;
        }
        raise(&meeting.coming);
        match make_value(*self, 1, 7, 6, &mut None) {
            Ok(handle) => Some(*C::value_of(&handle)),
            Err(_) => None,
        }
    }
}

// Returns the value that the second caller gets, or `None` if the first did not end as it was told.
fn value_of_second<T: Threads, C: MeetingCache + Sync>(
    rt: &T,
    cache: &C,
    first: First,
) -> Option<u64> {
    let meeting = Meeting {
        started: AtomicU64::new(0),
        coming: AtomicU64::new(0),
    };
    let met = &meeting;
    let (ended, value) = thread::join(
        rt,
        move || cache.come_first(met, first),
        move || cache.come_second(met),
    );
    if ended { value } else { None }
}

// The value that the second caller gets, the total once both have dropped their handles, and the
// counts.
type Outcome<N> = (Option<u64>, u128, N);

// Returns what a meeting in a new cache leaves.
fn meet_in_one_lock<R: Wait + Threads + Clone + Drop + Send + Sync>(
    rt: &R,
    alloc: Global,
    first: First,
) -> Option<Outcome<Counts>> {
    let cache: OneLock<u64, R> = OneLock::new(alloc, rt.clone().ok()?, 10);
    let value = value_of_second(rt, &&cache, first);
    Some((value, u128::from(cache.total_charge()), cache.counts()))
}

// Returns what a meeting in a new clock leaves.
fn meet_in_clock<R: Wait + Threads + Clone + Drop + Send + Sync>(
    rt: &R,
    alloc: Global,
    first: First,
) -> Option<Outcome<clock::Counts>> {
    let cache: Clock<u64, R> = clock_with_shards(alloc, rt.clone().ok()?, 10, 1)?;
    let value = value_of_second(rt, &&cache, first);
    Some((value, cache.total_charge(), cache.counts()))
}

// How often, at most, two callers meet again because the second came too late to wait.
const MEETINGS: u32 = 50;

// Who takes over a failed making keeps the entry, and its charge with it, so the entry is neither
// removed nor inserted again. A caller that waits for a value that is invalidated gets it.
#[test]
fn one_caller_waits_for_another(rt: HostRuntime) {
    let made = Counts {
        misses: 1,
        waits: 1,
        makings: 1,
        insertions: 1,
        inserted_charge: 3,
        ..Counts::default()
    };
    let taken_over = Counts {
        makings: 2,
        failures: 1,
        ..made
    };
    let invalidated = Counts {
        evictions: 1,
        evicted_charge: 3,
        ..made
    };
    let cases = [
        (First::Makes, (Some(5), 3, made)),
        (First::Fails, (Some(6), 3, taken_over)),
        (First::Invalidates, (Some(5), 0, invalidated)),
    ];
    for (first, wanted) in cases {
        let mut told = meet_in_one_lock(&rt, rt.alloc(), first);
        for _ in 0..MEETINGS {
            if !matches!(&told, Some((_, _, counts)) if counts.waits == 1) {
                told = meet_in_one_lock(&rt, rt.alloc(), first);
            }
        }
        assert_equal_at(&rt, told, Some(wanted), first);
    }
}

// Who takes over a failed making makes an entry of its own, as does a caller that waits for a value
// that is invalidated.
#[test]
fn one_caller_of_the_clock_waits_for_another(rt: HostRuntime) {
    let made = clock::Counts {
        makings: 1,
        waits: 1,
        ..clock::Counts::default()
    };
    let taken_over = clock::Counts {
        failures: 1,
        ..made
    };
    let invalidated = clock::Counts {
        makings: 2,
        evictions: 1,
        ..made
    };
    let cases = [
        (First::Makes, (Some(5), 3, made)),
        (First::Fails, (Some(6), 7, taken_over)),
        (First::Invalidates, (Some(6), 7, invalidated)),
    ];
    for (first, wanted) in cases {
        let mut told = meet_in_clock(&rt, rt.alloc(), first);
        for _ in 0..MEETINGS {
            if !matches!(&told, Some((_, _, counts)) if counts.waits == 1) {
                told = meet_in_clock(&rt, rt.alloc(), first);
            }
        }
        assert_equal_at(&rt, told, Some(wanted), first);
    }
}
