//! The operations of the workloads. Each drops its handle at once.

use concurrent_lru::lru_core::Refusal;
use lru_support::cached::Cached;

/// The result of an operation: the value, and whether it was present.
#[derive(Clone, Copy)]
pub struct Found {
    /// The value; 0 where there was none.
    pub value: u64,
    /// Whether the key was present.
    pub is_hit: bool,
}

impl Found {
    /// Returns what was found: this value, or none.
    #[inline(always)]
    pub fn of(value: Option<u64>) -> Found {
        Found {
            value: value.unwrap_or(0),
            is_hit: value.is_some(),
        }
    }
}

/// An operation on a key. The trait has no associated type, since the checker does not support a
/// thread's closure over a type that has one.
pub trait Operation {
    /// Makes the operation.
    fn run(&self, key: u64) -> Result<Found, Refusal>;
}

/// Returns the operations of the workloads of hits and misses, on a cache.
pub fn operations<C: Cached<u64>>(cache: C) -> (Make<C>, Get<C>, Read<C>, Init<C>) {
    (Make(cache), Get(cache), Read(cache), Init(cache))
}

/// `get`.
#[derive(Drop)]
pub struct Get<C>(pub C);

impl<C: Cached<u64>> Operation for Get<C> {
    #[inline(always)]
    fn run(&self, key: u64) -> Result<Found, Refusal> {
        match self.0.get(key)? {
            Some(handle) => Ok(Found::of(Some(*C::value_of(&handle)))),
            None => Ok(Found::of(None)),
        }
    }
}

/// `read`.
#[derive(Drop)]
pub struct Read<C>(pub C);

impl<C: Cached<u64>> Operation for Read<C> {
    #[inline(always)]
    fn run(&self, key: u64) -> Result<Found, Refusal> {
        Ok(Found::of(self.0.read(key, |value| *value)?))
    }
}

/// `get_or_init` of a present key. A value that had to be made is 0.
#[derive(Drop)]
pub struct Init<C>(pub C);

impl<C: Cached<u64>> Operation for Init<C> {
    #[inline(always)]
    fn run(&self, key: u64) -> Result<Found, Refusal> {
        let handle = self.0.get_or_init(key, 1, |_| 0)?;
        Ok(Found::of(Some(*C::value_of(&handle))))
    }
}

/// `get_or_init`, whose `init` returns the key as the value.
#[derive(Drop)]
pub struct Make<C>(pub C);

impl<C: Cached<u64>> Operation for Make<C> {
    #[inline(always)]
    fn run(&self, key: u64) -> Result<Found, Refusal> {
        find_or_make(self.0, key)
    }
}

/// `read`, and then `get_or_init` if nothing was found.
#[derive(Drop)]
pub struct ReadOrMake<C>(pub C);

impl<C: Cached<u64>> Operation for ReadOrMake<C> {
    #[inline(always)]
    fn run(&self, key: u64) -> Result<Found, Refusal> {
        match self.0.read(key, |value| *value)? {
            Some(value) => Ok(Found::of(Some(value))),
            None => find_or_make(self.0, key),
        }
    }
}

#[inline(always)]
fn find_or_make<C: Cached<u64>>(cache: C, key: u64) -> Result<Found, Refusal> {
    let mut is_hit = true;
    let handle = cache.get_or_init(key, 1, |key| {
        is_hit = false;
        *key
    })?;
    let value = *C::value_of(&handle);
    Ok(Found { value, is_hit })
}
