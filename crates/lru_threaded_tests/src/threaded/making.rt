//! The makings of a cache that threads share, requested by one thread.
//!
//! An `init` records the key that it ran with.
ghost use Rattle.std.specs.Prelude.{◌<◌};

use concurrent_lru::lru_core::Refusal;
use concurrent_lru::unsharded::GetError;
use lru_support::cached::Cached;

/// Why a call returned no handle.
#[derive(Drop)]
pub enum NoHandle {
    /// The cache refused it.
    Refused(Refusal),
    /// `init` failed with this key.
    Failed(u64),
}

impl From<Refusal> for NoHandle {
    fn from(refusal: Refusal) -> NoHandle {
        NoHandle::Refused(refusal)
    }
}

impl From<GetError<u64>> for NoHandle {
    fn from(error: GetError<u64>) -> NoHandle {
        match error {
            GetError::Memory => NoHandle::Refused(Refusal::Memory),
            GetError::Overflow => NoHandle::Refused(Refusal::Overflow),
            GetError::Full => NoHandle::Refused(Refusal::Full),
            GetError::Init(key) => NoHandle::Failed(key),
        }
    }
}

/// Calls `get_or_init` with an `init` that records its key in `ran` and returns the value.
pub fn make_value<V: Drop, C: Cached<V>>(
    cache: C,
    key: u64,
    charge: u64,
    value: V,
    ran: &mut Option<u64>,
) -> Result<C::Handle, NoHandle>
    requires { 0 < charge }
{
    let handle = cache.get_or_init(key, charge, |key| {
        *ran = Some(*key);
        value
    })?;
    Ok(handle)
}

/// Calls `get_or_try_init` with an `init` that records its key in `ran`, and returns the value or,
/// if there is none, its key as the error.
pub fn try_make_value<V: Drop, C: Cached<V>>(
    cache: C,
    key: u64,
    charge: u64,
    value: Option<V>,
    ran: &mut Option<u64>,
) -> Result<C::Handle, NoHandle>
    requires { 0 < charge }
{
    let handle = cache.get_or_try_init(key, charge, |key| {
        *ran = Some(*key);
        value.ok_or(*key)
    })?;
    Ok(handle)
}
