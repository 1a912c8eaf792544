//! Makings that their callers begin and end by calls of their own, without a closure.
ghost use Rattle.std.specs.Prelude.{◌≡◌, ◌≢◌, ◌<◌, Some, IfErr, IfOk, IfSome};
ghost use Rattle.concurrent_lru.specs.Beginnings.{IfMaking, IfReady};

use crate::fit::Fit;
use crate::lru_core::Refusal;
use crate::maker::Begun;
use crate::sharded::LruCache;
use std::hash::{BuildHasher, Hash};
use std::sync::Wait;

impl<K: Hash + Eq + Clone + Drop, V: Drop, R: Wait, S: BuildHasher, F: Fit<K, V>> LruCache<
    K,
    V,
    R,
    S,
    F,
> {
    /// Returns a handle of the key's value if it is ready, and otherwise begins the making of the
    /// value. Waits while another caller makes it; if that making fails, this call may take it
    /// over.
    ///
    /// Charges, evictions and the errors `Overflow`, `Full` and `Memory` are those of
    /// `unsharded::LruCache`, within the key's shard.
    pub fn begin(&self, key: K, charge: u64) -> Result<Begun<'_, K, V, R, F>, Refusal>
        requires charged { 0 < charge }
        ensures found { IfOk result (λ begun. IfReady begun
            (λ h. (h.key ≡ key) × (h.charge ≡ Some charge) × F.fits key h.value)) }
        ensures making { IfOk result (λ begun. IfMaking begun
            (λ m. (m.key ≡ key) × (m.charge ≡ charge))) }
        ensures never_stale { IfErr result (λ e. e ≢ Refusal.Stale) }
    {
        self.routes.of(&key).begin(key, charge)
    }

    /// `begin`, but never waits: returns `None` if another caller is making the value. Nothing is
    /// pinned then, and it counts as a miss, as a `get` does that finds no value.
    ///
    /// Returns `Overflow`, `Full` and `Memory` as `begin` does.
    pub fn try_begin(&self, key: K, charge: u64) -> Result<Option<Begun<'_, K, V, R, F>>, Refusal>
        requires charged { 0 < charge }
        ensures found { IfOk result (λ begun. IfSome begun (λ begun. IfReady begun
            (λ h. (h.key ≡ key) × (h.charge ≡ Some charge) × F.fits key h.value))) }
        ensures making { IfOk result (λ begun. IfSome begun (λ begun. IfMaking begun
            (λ m. (m.key ≡ key) × (m.charge ≡ charge)))) }
        ensures never_stale { IfErr result (λ e. e ≢ Refusal.Stale) }
    {
        self.routes.of(&key).try_begin(key, charge)
    }
}
