//! The strict limit of a shard: which new entries it refuses.
ghost use Rattle.std.specs.Prelude.{◌≡◌, true, Some, IfSome};
ghost use Rattle.lru_clock.specs.Evictions.{refuses};

use crate::clock_core::Core;
use crate::shard_state::ShardState;
use crate::store::{Left, Looks};
use concurrent_lru::fit::Fit;

impl<K: Eq + Clone + Drop, V: Drop, F: Fit<K, V>> Core<K, V, F> {
    /// Returns whether the limit is strict and has no room for a new entry of this charge, even
    /// once every entry that nobody has pinned has left. Visits slots until enough of the entries
    /// there are idle.
    #[inline(always)]
    pub fn is_full_for(&self, state: &ShardState<K>, charge: u64, is_strict: bool) -> bool
        ensures { result ≡ true
            → refuses is_strict state.now.capacity state.now.seats charge ≡ true }
    {
        state.refuses(charge, is_strict) && self.lacks_idle(state, charge)
    }

    // Returns whether the total, with a new entry of this charge, would exceed the capacity even
    // without the charges of the entries that nobody has pinned.
    #[inline(never)]
    fn lacks_idle(&self, state: &ShardState<K>, charge: u64) -> bool {
        let total = state.seats.total().saturating_add(charge);
        let excess = total.saturating_sub(state.capacity);
        let mut idle = 0u64;
        for place in 0..state.seats.places() {
            if idle >= excess {
                return false;
            }
            if let Some(slot) = self.store.slot(place) {
                if !slot.is_pinned() {
                    idle = idle.saturating_add(state.seats.charge_at(place));
                }
            }
        }
        idle < excess
    }

    /// Evicts one entry if a new entry of this charge needs the room, but none for an entry that
    /// the limit refuses in any case.
    pub fn make_room_for(&self, state: &mut ShardState<K>, charge: u64) -> Option<Left<'_, K, V, F>>
        ensures book { IfSome result (λ l. l ≡ Some self.now.store.chronicle.first.book) }
    {
        if self.is_full_for(state, charge, state.is_strict) {
            return None;
        }
        self.make_room(state, charge, &mut Looks::new())
    }
}
