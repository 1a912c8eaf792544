//! Which entry leaves when room is needed, and the looks that find it.
ghost use Rattle.std.specs.Prelude.{◌≡◌, ◌*◌, Some, IfSome};
ghost use Rattle.lru_clock.specs.Evictions.{Runs, MakesRoom, is_above, evict, by_second};
ghost use Rattle.lru_clock.specs.Evictions.{by_hand, places_of};

use crate::clock_core::Core;
use crate::order::{Cost, Second};
use crate::shard_state::ShardState;
use crate::store::{Left, Looks};
use concurrent_lru::fit::Fit;

impl<K: Eq + Clone + Drop, V: Drop, F: Fit<K, V>> Core<K, V, F> {
    /// Evicts one entry if another charge would take the total above the capacity.
    pub fn make_room(
        &self,
        state: &mut ShardState<K>,
        charge: u64,
        looks: &mut Looks,
    ) -> Option<Left<'_, K, V, F>>
        ensures book { IfSome result (λ l. l ≡ Some self.now.store.chronicle.first.book) }
        ensures room { MakesRoom (is_above state.old.capacity state.old.seats charge)
            state.old.seats state.new.seats state.old.order state.new.order
            looks.old.made looks.new.made result }
    {
        if state.is_above(charge) {
            self.evict(state, looks)
        } else {
            None
        }
    }

    // Evicts an entry: one on trial, if the trial part has to give one up, or else one of the main
    // part. If nobody on trial leaves and all of the main part is pinned, evicts any entry.
    fn evict(&self, state: &mut ShardState<K>, looks: &mut Looks) -> Option<Left<'_, K, V, F>>
        ensures book { IfSome result (λ l. l ≡ Some self.now.store.chronicle.first.book) }
        ensures run { Runs (evict state.old.seats)
            state.old.seats state.new.seats state.old.order state.new.order
            looks.old.made looks.new.made result }
    {
        if let Some(left) = self.evict_by_second(state, looks) {
            return Some(left);
        }
        if let Some(left) = self.evict_by_hand(state, true, looks) {
            return Some(left);
        }
        self.evict_by_hand(state, false, looks)
    }

    // Moves the second hand until it evicts an entry, as long as the trial part has to give one up.
    // An entry that was used, or that somebody has pinned, passes its trial instead.
    fn evict_by_second(
        &self,
        state: &mut ShardState<K>,
        looks: &mut Looks,
    ) -> Option<Left<'_, K, V, F>>
        ensures book { IfSome result (λ l. l ≡ Some self.now.store.chronicle.first.book) }
        ensures run { Runs (by_second state.old.seats (2 * places_of state.old.seats))
            state.old.seats state.new.seats state.old.order state.new.order
            looks.old.made looks.new.made result }
    {
        let rounds = 2 * state.seats.places() as u64;
        for _ in 0..rounds {
            if !state.order.is_due() {
                return None;
            }
            match state.order.move_second() {
                Second::Nowhere => return None,
                Second::Young => {}
                Second::Old(place) => {
                    if let Some(taken) = self.store.look(place, Cost::AllChances, looks) {
                        return Some(state.vacate(taken, true));
                    }
                    state.end_trial(place);
                }
            }
        }
        None
    }

    // Moves the hand until it evicts an entry. In four rounds it takes the up to three chances of
    // an entry that nobody pins or uses meanwhile, and then evicts the entry. Skips entries on
    // trial if it is for the main part.
    fn evict_by_hand(
        &self,
        state: &mut ShardState<K>,
        is_main: bool,
        looks: &mut Looks,
    ) -> Option<Left<'_, K, V, F>>
        ensures book { IfSome result (λ l. l ≡ Some self.now.store.chronicle.first.book) }
        ensures run { Runs (by_hand state.old.seats is_main (4 * places_of state.old.seats))
            state.old.seats state.new.seats state.old.order state.new.order
            looks.old.made looks.new.made result }
    {
        let places = state.seats.places();
        let rounds = 4 * places as u64;
        for _ in 0..rounds {
            let is_skipped = state.order.skips(is_main);
            let place = state.order.move_hand(places);
            if !is_skipped {
                if let Some(taken) = self.store.look(place, Cost::OneChance, looks) {
                    return Some(state.vacate(taken, true));
                }
            }
        }
        None
    }
}
