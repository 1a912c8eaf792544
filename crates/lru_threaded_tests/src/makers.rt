//! Tests of what runs without the lock of a cache: making values, and reading a handle while the
//! cache is printed. Two threads have to meet in each; if one held the lock, a limit ends the wait.
ghost use Rattle.std.specs.Prelude.{◌<◌};

use crate::assertions::assert_equal;
use crate::caches::{
    Clock, OneLock, Shards, clock_with_shards, in_one_lock, in_shards, with_shards,
};
use crate::flags::{is_raised, meets, raise};
use lru_support::cached::Cached;
use std::alloc::{AllocError, Global};
use std::sync::atomic::AtomicU64;
use std::sync::{Arc, Wait};
use std::thread::Threads;
use std::{fmt, thread};

// A cache as makers ask it. It has no associated type, since the checker supports no closure of a
// thread over a type that has one.
trait MakingCache {
    // Makes a key, and returns whether its `init` met the other maker's.
    fn meet_in_making(&self, key: u64, mine: &AtomicU64, other: &AtomicU64) -> bool;
}

impl<C: Cached<u64>> MakingCache for C {
    fn meet_in_making(&self, key: u64, mine: &AtomicU64, other: &AtomicU64) -> bool {
        let mut met = false;
        let made = self.get_or_init(key, 1, |key| {
            raise(mine);
            met = meets(other);
            *key
        });
        made.is_ok() && met
    }
}

// Returns whether each of two makers of these keys met the other.
fn makers_meet<T: Threads, C: MakingCache + Sync>(
    rt: &T,
    cache: &C,
    keys: (u64, u64),
) -> (bool, bool) {
    let (first, second) = (AtomicU64::new(0), AtomicU64::new(0));
    let (one, other) = (&first, &second);
    thread::join(
        rt,
        move || cache.meet_in_making(keys.0, one, other),
        move || cache.meet_in_making(keys.1, other, one),
    )
}

#[test]
fn makers_run_without_a_lock(rt: HostRuntime) {
    let met = in_one_lock(
        rt.alloc(),
        &rt,
        10,
        |cache| makers_meet(&rt, &cache, (1, 2)),
    );
    assert_equal(&rt, met, (true, true));
}

// Keys of one of two shards, and of both.
const KEYS: [(u64, u64); 2] = [(1, 3), (5, 6)];

#[test]
fn makers_run_without_the_lock_of_their_shard(rt: HostRuntime) {
    let met = in_shards(rt.alloc(), &rt, 20, 2, |cache| {
        KEYS.map(|keys| makers_meet(&rt, &cache, keys))
    });
    assert_equal(&rt, met, Some([(true, true); 2]));
}

// Does this in a new clock of two shards.
fn makers_meet_in_clock<T: Threads, R: Wait + Drop + Send + Sync>(
    rt: &T,
    alloc: Global,
    own: R,
) -> Option<[(bool, bool); 2]> {
    let cache: Clock<u64, R> = clock_with_shards(alloc, own, 20, 2)?;
    let shared = &cache;
    Some([
        makers_meet(rt, &shared, KEYS[0]),
        makers_meet(rt, &shared, KEYS[1]),
    ])
}

#[test]
fn makers_run_without_a_lock_of_the_clock(rt: HostRuntime) {
    let met = makers_meet_in_clock(&rt, rt.alloc(), &rt);
    assert_equal(&rt, met, Some([(true, true); 2]));
}

// The progress of the thread that prints a cache and of the one that reads a handle.
#[derive(Drop)]
struct Print {
    started: AtomicU64,
    read: AtomicU64,
    met: AtomicU64,
}

impl Print {
    // Creates a meeting that neither has reached.
    fn new() -> Print {
        Print {
            started: AtomicU64::new(0),
            read: AtomicU64::new(0),
            met: AtomicU64::new(0),
        }
    }
}

// A value whose `Debug` waits until the other thread has read it.
#[derive(Drop)]
struct Shown {
    print: Arc<Print>,
    number: u64,
}

impl Shown {
    // Creates a value with a number. Returns `AllocError` if a copy of the meeting's `Arc` is
    // refused.
    fn new(print: &Arc<Print>, number: u64) -> Result<Shown, AllocError> {
        Ok(Shown {
            print: Arc::try_clone(print)?,
            number,
        })
    }
}

impl fmt::Debug for Shown {
    fn fmt<W: fmt::Write>(&self, f: &mut fmt::Formatter<W>) -> fmt::Result {
        raise(&self.print.started);
        if meets(&self.print.read) {
            raise(&self.print.met);
        }
        self.number.fmt(f)
    }
}

// Returns the text of a cache, and the number of a handle's value as another thread reads it
// meanwhile. Returns `None` if memory for the text is refused or no value is printed.
fn text_and_number<T: Threads, H: Drop + Sync, C: Cached<Shown, Handle = H> + fmt::Debug + Sync>(
    rt: &T,
    alloc: Global,
    cache: C,
    handle: &H,
    print: &Print,
) -> (Option<String>, Option<u64>) {
    thread::join(
        rt,
        || format!(in alloc; "{cache:?}").ok(),
        || number_meanwhile::<C>(handle, print),
    )
}

fn number_meanwhile<C: Cached<Shown>>(handle: &C::Handle, print: &Print) -> Option<u64> {
    if !meets(&print.started) {
        return None;
    }
    let number = C::value_of(handle).number;
    raise(&print.read);
    Some(number)
}

// Returns the text of an empty cache once key 1 has a value, whose number is 7, and that number as
// another thread reads it through a handle while the cache is printed. Returns `None` if the two
// did not meet or memory is refused.
fn text_while_read<T: Threads, H: Drop + Sync, C: Cached<Shown, Handle = H> + fmt::Debug + Sync>(
    rt: &T,
    alloc: Global,
    cache: C,
) -> Option<(String, u64)> {
    let print = Arc::new(alloc, Print::new()).ok()?;
    let shown = Shown::new(&print, 7).ok()?;
    let handle = cache.get_or_init(1, 1, move |_| shown).ok()?;
    let (text, number) = text_and_number(rt, alloc, cache, &handle, &*print);
    match (text, number) {
        (Some(text), Some(number)) if is_raised(&print.met) => Some((text, number)),
        _ => None,
    }
}

// Returns this text and this number of a new cache behind one lock.
fn text_of_one_lock<R: Wait + Threads + Clone + Drop + Sync + Send>(
    rt: &R,
    alloc: Global,
) -> Option<(String, u64)> {
    let cache: OneLock<Shown, R> = OneLock::new(alloc, rt.clone().ok()?, 10);
    text_while_read(rt, alloc, &cache)
}

// Returns this text and this number of a new cache of two shards.
fn text_of_two_shards<R: Wait + Threads + Clone + Drop + Sync + Send>(
    rt: &R,
    alloc: Global,
) -> Option<(String, u64)> {
    let cache: Shards<Shown, R> = with_shards(alloc, rt.clone().ok()?, 20, 2)?;
    text_while_read(rt, alloc, &cache)
}

#[test]
fn a_handle_is_read_without_a_lock(rt: HostRuntime) {
    let (text, number) = text_of_one_lock(&rt, rt.alloc()).expect(&rt, "a meeting");
    assert_equal(&rt, (text.as_str(), number), ("{1: 7}", 7));
    let (text, number) = text_of_two_shards(&rt, rt.alloc()).expect(&rt, "a meeting");
    assert_equal(&rt, (text.as_str(), number), ("[{}, {1: 7}]", 7));
}
