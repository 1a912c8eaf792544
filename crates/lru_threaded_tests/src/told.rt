//! Charges that loaders and makers tell with their values, in a cache of one lock and in one with
//! shards.
ghost use Rattle.std.specs.Prelude.{◌<◌};

use crate::assertions::assert_equal_at;
use crate::caches::{OneLock, Shards, in_one_lock, in_shards};
use concurrent_lru::unsharded::{Begun, GetError, Refusal};
use concurrent_lru::{sharded, unsharded};
use lru_support::cached::Cached;
use std::sync::Wait;

// A reference to a cache of numbers whose charges are told with the values.
trait Telling: Cached<u64> {
    // Calls `get_or_init_with` with a loader that tells this value and this charge.
    fn load(self, key: u64, value: u64, charge: u64) -> Result<Self::Handle, Refusal>
        requires { 0 < charge };

    // Calls `get_or_try_init_with` with such a loader.
    fn try_to_load(self, key: u64, value: u64, charge: u64) -> Result<Self::Handle, GetError<u64>>
        requires { 0 < charge };

    // Calls `get_or_try_init_with` with a loader that fails with its key.
    fn fail_to_load(self, key: u64) -> Result<Self::Handle, GetError<u64>>;

    // Begins the making of a key with the charge 1, and ends it by `ready_with`. Returns `None` if
    // the value is there or is being made.
    fn make(self, key: u64, value: u64, charge: u64) -> Option<Result<Self::Handle, Refusal>>
        requires { 0 < charge };

    // Makes the capacity a strict limit.
    fn limit_strictly(self);

    // Calls `len`.
    fn len(self) -> usize;
}

impl<'a, R: Wait> Telling for &'a OneLock<u64, R> {
    fn load(self, key: u64, value: u64, charge: u64) -> Result<Self::Handle, Refusal>
        requires { 0 < charge }
    {
        self.get_or_init_with(&key, |_| (value, charge))
    }

    fn try_to_load(self, key: u64, value: u64, charge: u64) -> Result<Self::Handle, GetError<u64>>
        requires { 0 < charge }
    {
        self.get_or_try_init_with(&key, |_| Ok((value, charge)))
    }

    fn fail_to_load(self, key: u64) -> Result<Self::Handle, GetError<u64>> {
        self.get_or_try_init_with(&key, |key| Err(*key))
    }

    fn make(self, key: u64, value: u64, charge: u64) -> Option<Result<Self::Handle, Refusal>>
        requires { 0 < charge }
    {
        let Some(Begun::Make(maker)) = self.try_begin(key, 1).ok()? else {
            return None;
        };
        Some(maker.ready_with(value, charge))
    }

    fn limit_strictly(self) {
        self.set_strict_limit(true);
    }

    fn len(self) -> usize {
        unsharded::LruCache::len(self)
    }
}

impl<'a, R: Wait> Telling for &'a Shards<u64, R> {
    fn load(self, key: u64, value: u64, charge: u64) -> Result<Self::Handle, Refusal>
        requires { 0 < charge }
    {
        self.get_or_init_with(&key, |_| (value, charge))
    }

    fn try_to_load(self, key: u64, value: u64, charge: u64) -> Result<Self::Handle, GetError<u64>>
        requires { 0 < charge }
    {
        self.get_or_try_init_with(&key, |_| Ok((value, charge)))
    }

    fn fail_to_load(self, key: u64) -> Result<Self::Handle, GetError<u64>> {
        self.get_or_try_init_with(&key, |key| Err(*key))
    }

    fn make(self, key: u64, value: u64, charge: u64) -> Option<Result<Self::Handle, Refusal>>
        requires { 0 < charge }
    {
        let Some(Begun::Make(maker)) = self.try_begin(key, 1).ok()? else {
            return None;
        };
        Some(maker.ready_with(value, charge))
    }

    fn limit_strictly(self) {
        self.set_strict_limit(true);
    }

    fn len(self) -> usize {
        sharded::LruCache::len(self)
    }
}

// What is read of a cache: the values of the keys 1, 3, 5 and 7, the number of entries and the
// total.
type Contents = ([Option<u64>; 4], usize, u128);

fn contents<C: Telling>(cache: C) -> Contents {
    let values = [1, 3, 5, 7].map(|key| match cache.read(key, |value| *value) {
        Ok(found) => found,
        Err(_) => None,
    });
    (values, cache.len(), cache.total_charge())
}

// What is observed of a cache whose key 1, of the charge 4, is held.
#[derive(Clone, Copy, Debug, PartialEq, Eq)]
struct Told {
    // The value of key 1: as its loader told it, and as the next call found it.
    values: [u64; 2],
    // Whether a loader that failed left its error, what refuses a charge that no total can have,
    // and what is there then.
    has_failed: bool,
    too_large: Option<Refusal>,
    after_failures: Contents,
    // The value of a loader that may fail. Its entry is evicted for the charge that a maker tells.
    tried: u64,
    made: u64,
    after_maker: Contents,
    // Whether a strict limit refuses a charge for which the held entry leaves no room: that of a
    // loader, of one that may fail, and of a maker; and what is there then.
    is_full: [bool; 3],
    after_full: Contents,
    // The value whose charge takes all the room that the held entry leaves.
    fitting: u64,
    at_last: Contents,
}

// Tells charges in a cache in which these keys have a capacity of 10.
fn tells_charges<C: Telling>(cache: C) -> Option<Told> {
    let held = cache.load(1, 11, 4).ok()?;
    let found = cache.load(1, 0, 9).ok()?;
    let has_failed = matches!(cache.fail_to_load(3), Err(GetError::Init(3)));
    let too_large = cache.load(5, 0, u64::MAX).err();
    let after_failures = contents(cache);
    let tried = *C::value_of(&cache.try_to_load(3, 33, 2).ok()?);
    let maker_value = cache.make(5, 55, 5)?.ok()?;
    let made = *C::value_of(&maker_value);
    let after_maker = contents(cache);
    drop(maker_value);
    cache.limit_strictly();
    let is_full = [
        matches!(cache.load(7, 0, 7), Err(Refusal::Full)),
        matches!(cache.try_to_load(7, 0, 7), Err(GetError::Full)),
        matches!(cache.make(7, 0, 7), Some(Err(Refusal::Full))),
    ];
    let after_full = contents(cache);
    let last = cache.load(7, 77, 6).ok()?;
    Some(Told {
        values: [*C::value_of(&held), *C::value_of(&found)],
        has_failed,
        too_large,
        after_failures,
        tried,
        made,
        after_maker,
        is_full,
        after_full,
        fitting: *C::value_of(&last),
        at_last: contents(cache),
    })
}

// A refused charge leaves no entry of its key, and evicts nothing.
#[test]
fn a_charge_is_told_with_the_value(rt: HostRuntime) {
    let with_maker = ([Some(11), None, Some(55), None], 2, 9);
    let wanted = Told {
        values: [11, 11],
        has_failed: true,
        too_large: Some(Refusal::Overflow),
        after_failures: ([Some(11), None, None, None], 1, 4),
        tried: 33,
        made: 55,
        after_maker: with_maker,
        is_full: [true; 3],
        after_full: with_maker,
        fitting: 77,
        at_last: ([Some(11), None, None, Some(77)], 2, 10),
    };
    let told = in_one_lock(rt.alloc(), &rt, 10, |cache| tells_charges(cache));
    assert_equal_at(&rt, told, Some(wanted), "one lock");
    // The keys are of one of two shards.
    let told = in_shards(rt.alloc(), &rt, 20, 2, |cache| tells_charges(cache));
    assert_equal_at(&rt, told, Some(Some(wanted)), "shards");
}
