//! Making an entry in one call, for a cache for a single owner.
ghost use Rattle.std.specs.Prelude.{◌<◌};

use concurrent_lru::lru_core::{Begun, Refusal, State};
use std::hash::Hash;
use std::sync::Arc;

/// Asks for a key, and stores the value if the caller is to make it; otherwise the value is
/// dropped. Returns the stamp of the entry, which the caller has pinned. What was evicted is
/// dropped.
///
/// Returns the errors of `begin`, and `Stale` if the cache does not take the value that it asked
/// for.
pub(crate) fn hold<K: Hash + Eq + Clone, V: Drop>(
    state: &mut State<K, V>,
    key: &K,
    charge: u64,
    value: Arc<V>,
) -> Result<u64, Refusal>
    requires { 0 < charge }
{
    let (begun, _evicted) = state.begin(key, charge)?;
    match begun {
        Begun::Make(stamp) => match state.ready(stamp, value) {
            Ok(()) => Ok(stamp),
            Err(_) => Err(Refusal::Stale),
        },
        Begun::Wait(stamp) | Begun::Hit(stamp, _) => Ok(stamp),
    }
}

/// Does what `hold` does, and releases the pin. What that evicts is dropped.
///
/// Returns the errors of `hold`, and `Stale` if another caller is making the value.
pub(crate) fn make<K: Hash + Eq + Clone, V: Drop>(
    state: &mut State<K, V>,
    key: &K,
    charge: u64,
    value: Arc<V>,
) -> Result<u64, Refusal>
    requires { 0 < charge }
{
    let stamp = hold(state, key, charge, value)?;
    let _evicted = state.release(stamp)?;
    Ok(stamp)
}
