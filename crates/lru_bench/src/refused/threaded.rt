//! Calls of a cache that threads share, as one thread makes them. Each handle is dropped at once,
//! and a charge of 0 counts as 1.
ghost use Rattle.std.specs.Prelude.{◌<◌};

use crate::failure::Failure;
use crate::refused::report::Report;
use crate::refused::{self, Answer, Target};
use concurrent_lru::lru_core::Refusal;
use concurrent_lru::unsharded::GetError;
use concurrent_lru::{sharded, unsharded};
use lru_clock::clock;
use lru_support::cached::Cached;
use std::alloc::Global;
use std::hash::{BuildHasherDefault, FoldHasher};
use std::io::Write;
use std::sync::Wait;

/// A call. A key comes first, then a charge and a value.
#[derive(Clone, Copy, Debug)]
pub enum Call {
    Init(u64, u64, u64),
    /// `get_or_init` of each key from 1 to this one. The value of a key is the key.
    InitEach(u64),
    /// The `init` returns this value or fails.
    TryInit(u64, u64, Option<u64>),
    Insert(u64, u64, u64),
    Get(u64),
    Read(u64),
    Contains(u64),
    Invalidate(u64),
    Reserve(usize),
    SetCapacity(u64),
    Prune,
    Total,
}

/// A kind of cache that threads share, and the number of its shards, of which 0 counts as 1.
#[derive(Clone, Copy)]
pub enum Kind {
    /// With one lock.
    Unsharded,
    /// With a lock for each shard.
    Sharded(usize),
    /// The clock cache.
    Clock(usize),
}

type Hasher = BuildHasherDefault<FoldHasher>;

// A cache of any kind.
#[derive(Drop)]
enum Cache<R: Wait> {
    Unsharded(unsharded::LruCache<u64, u64, R>),
    Sharded(sharded::LruCache<u64, u64, R, Hasher>),
    Clock(clock::Cache<u64, u64, R, Hasher>),
}

impl<R: Wait + Clone + Drop> Cache<R> {
    fn new(rt: R, alloc: Global, kind: Kind, capacity: u64) -> Result<Cache<R>, Refusal> {
        let hasher: Hasher = BuildHasherDefault::new();
        match kind {
            Kind::Unsharded => {
                Ok(Cache::Unsharded(unsharded::LruCache::new(alloc, rt, capacity)))
            }
            Kind::Sharded(count) => {
                let count = count.max(1);
                let made = sharded::LruCache::with_shards_hasher(
                    alloc, rt, capacity, count, hasher,
                );
                Ok(Cache::Sharded(made?))
            }
            Kind::Clock(count) => {
                let count = count.max(1);
                let made = clock::Cache::with_shards_hasher(alloc, rt, capacity, count, hasher);
                Ok(Cache::Clock(made?))
            }
        }
    }
}

/// Makes calls on a new cache, whose creation is tried again if it is refused.
pub fn play<R: Wait + Copy + Drop, O: Write, E: Write>(
    rt: R,
    alloc: Global,
    kind: Kind,
    capacity: u64,
    calls: &[&[Call]],
    report: &mut Report<'_, O, E>,
) -> Result<(), Failure> {
    let mut made = Cache::new(rt, alloc, kind, capacity);
    if made.is_err() {
        report.memory(&"with_shards_hasher")?;
        made = Cache::new(rt, alloc, kind, capacity);
    }
    match &made? {
        Cache::Unsharded(cache) => refused::play(alloc, &mut CacheRef(cache), calls, report),
        Cache::Sharded(cache) => refused::play(alloc, &mut CacheRef(cache), calls, report),
        Cache::Clock(cache) => refused::play(alloc, &mut CacheRef(cache), calls, report),
    }
}

/// Makes two idle entries and one that takes the room of both. If that is refused for lack of
/// memory, either its `init` ran and nothing is left, or it did not and both are as they were;
/// otherwise a line shows what is left. Then it is made again.
pub fn play_over_two<R: Wait + Drop, O: Write, E: Write>(
    rt: R,
    alloc: Global,
    report: &mut Report<'_, O, E>,
) -> Result<(), Failure> {
    let cache: unsharded::LruCache<u64, u64, R> = unsharded::LruCache::new(alloc, rt, 2);
    let (mut target, both) = (CacheRef(&cache), [Call::Init(1, 1, 1), Call::Init(2, 1, 2)]);
    refused::play(alloc, &mut target, &[&both], report)?;
    let mut ran = false;
    let made = init(&cache, 3, 2, 3, &mut ran);
    if let Err(Refusal::Memory) = made {
        let left = (
            value_found(&cache, 1),
            value_found(&cache, 2),
            cache.total_charge(),
        );
        let wanted = if ran {
            (Ok(None), Ok(None), 0)
        } else {
            (Ok(Some(1)), Ok(Some(2)), 2)
        };
        let place = if ran { "after" } else { "before" };
        report.memory(&format_args!("get_or_init, {place} its init"))?;
        if left != wanted {
            report.line(&"left", &left)?;
        }
    }
    let again = [Call::Init(3, 2, 3), Call::Get(1), Call::Get(2), Call::Total];
    refused::play(alloc, &mut target, &[&again], report)
}

/// Returns the value that a `get` finds.
pub fn value_found<C: Cached<u64>>(cache: C, key: u64) -> Result<Option<u64>, Refusal> {
    Ok(cache.get(key)?.map(|handle| *C::value_of(&handle)))
}

// Calls `get_or_init`, whose `init` returns a value and sets `ran`.
fn init<C: Cached<u64>>(
    cache: C,
    key: u64,
    charge: u64,
    value: u64,
    ran: &mut bool,
) -> Result<u64, Refusal> {
    let handle = cache.get_or_init(key, charge.max(1), |_| {
        *ran = true;
        value
    })?;
    Ok(*C::value_of(&handle))
}

// Calls `get_or_try_init`, whose `init` returns a value or fails.
fn try_init<C: Cached<u64>>(
    cache: C,
    key: u64,
    charge: u64,
    value: Option<u64>,
) -> Result<Answer, Refusal> {
    match cache.get_or_try_init(key, charge.max(1), |_| value.ok_or(())) {
        Ok(handle) => Ok(Answer::Value(*C::value_of(&handle))),
        Err(GetError::Init(())) => Ok(Answer::Nothing),
        Err(GetError::Memory) => Err(Refusal::Memory),
        Err(GetError::Overflow) => Err(Refusal::Overflow),
        Err(GetError::Full) => Err(Refusal::Full),
    }
}

// A reference to a cache.
#[derive(Drop)]
struct CacheRef<C>(C);

impl<C: Cached<u64>> Target<Call> for CacheRef<C> {
    fn make(&mut self, _alloc: Global, call: Call) -> Result<Result<Answer, Refusal>, Failure> {
        Ok(make(self.0, call))
    }
}

fn make<C: Cached<u64>>(cache: C, call: Call) -> Result<Answer, Refusal> {
    match call {
        Call::Init(key, charge, value) => {
            Ok(Answer::Value(init(cache, key, charge, value, &mut false)?))
        }
        Call::InitEach(last) => {
            for key in 1..=last {
                init(cache, key, 1, key, &mut false)?;
            }
            Ok(Answer::Nothing)
        }
        Call::TryInit(key, charge, value) => try_init(cache, key, charge, value),
        Call::Insert(key, charge, value) => {
            let handle = cache.insert(key, charge.max(1), value)?;
            Ok(Answer::Value(*C::value_of(&handle)))
        }
        Call::Get(key) => Ok(Answer::of(value_found(cache, key)?)),
        Call::Read(key) => Ok(Answer::of(cache.read(key, |value| *value)?)),
        Call::Reserve(entries) => {
            cache.reserve(entries)?;
            Ok(Answer::Nothing)
        }
        _ => Ok(make_unrefused(cache, call)),
    }
}

// Makes a call that is never refused.
fn make_unrefused<C: Cached<u64>>(cache: C, call: Call) -> Answer {
    match call {
        Call::Contains(key) => return Answer::Contains(cache.contains(key)),
        Call::Total => return Answer::Total(cache.total_charge()),
        Call::Invalidate(key) => cache.invalidate(key),
        Call::SetCapacity(capacity) => cache.set_capacity(capacity),
        _ => cache.prune(),
    }
    Answer::Nothing
}
