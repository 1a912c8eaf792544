//! A shard without its lock: the slots with their index and their history, which any thread may
//! read at any time, and the calls that change them.
//!
//! Each of these calls takes the state that the lock of the shard protects, so its caller has the
//! lock. It removes at most one entry, which it returns to be dropped once the lock is released.
//! So no list of removed entries is needed.
ghost use Rattle.std.specs.Prelude.{◌≡◌, ◌<◌, [], IfErr, IfOk, IfSome};
ghost use Rattle.concurrent_lru.specs.Cache.{CopiesAreEqual};
ghost use Rattle.lru_clock.specs.Hits.{Sees};
ghost use Rattle.lru_clock.specs.Places.{place_of};

mod changes;
mod evictions;
mod holds;
mod invalidations;
mod limits;
mod makings;
mod replacements;

pub use crate::clock_core::holds::HeldOver;
pub use crate::clock_core::invalidations::Invalidated;
pub use crate::clock_core::makings::Begun;
pub use crate::clock_core::replacements::Way;
pub use crate::excess::ExcessFlag;
use crate::history::past::Past;
pub use crate::shard_state::ShardState;
pub use crate::store::{HoldAt, Left, Looks, MOST_PINS, PinAt, Released};
use crate::store::{Slot, Store};
use concurrent_lru::fit::Fit;
use concurrent_lru::sharded::Refusal;
use std::alloc::{AllocError, Global};

/// The slots of a shard, with their index and their history.
#[derive(Drop)]
pub struct Core<K: Eq + Clone, V, F: Fit<K, V>> {
    pub store: Store<K, V, F>,
    /// The maximum number of pins of an entry.
    pub most_pins: u64,
    alloc: Global,
    pub ghost within: { most_pins < 1073741823 },
    ghost copies: { CopiesAreEqual K.is_clone K.eq },
}

impl<K: Eq + Clone + Drop, V: Drop, F: Fit<K, V>> Core<K, V, F> {
    /// Creates a core without entries, and the state for its lock.
    ///
    /// Returns `AllocError` if the allocator refuses.
    pub fn new(
        alloc: Global,
        capacity: u64,
        most_pins: u64,
    ) -> Result<(Self, ShardState<K>), AllocError>
        requires within { most_pins < 1073741823 }
        requires copies { CopiesAreEqual K.is_clone K.eq }
        ensures { IfOk result
            (λ made. (made.1.capacity ≡ capacity) × (made.1.seats ≡ [])) }
    {
        let state = ShardState::new(alloc, capacity)?;
        let index = state.seats.share_index()?;
        let core = Core {
            store: Store::new(alloc, index)?,
            most_pins,
            alloc,
        };
        Ok((core, state))
    }

    /// Pins the entry that the index has for a key, gives it another chance, and returns the pin
    /// with the entry's place.
    ///
    /// Returns `Overflow` if the entry has the maximum number of pins.
    pub fn find_listed(
        &self,
        state: &mut ShardState<K>,
        tag: u32,
        key: &K,
        past: &Option<Past<K, V>>,
    ) -> Result<Option<PinAt<'_, K, V, F>>, Refusal>
        requires book { IfSome past.now
            (λ past. past.book ≡ self.now.store.chronicle.first.book) }
        ensures pin { IfOk result (λ found. IfSome found
            (λ f. (f.pin.key ≡ key.now) × F.fits key.now f.pin.value)) }
        ensures book { IfOk result (λ found. IfSome found
            (λ f. f.pin.book ≡ self.now.store.chronicle.first.book)) }
        ensures since { IfSome past.now (λ past. IfOk result (λ found. IfSome found
            (λ f. Sees K.eq past key.now f.pin.value f.pin.book f.pin.log))) }
        ensures refused { IfErr result (λ e. e ≡ Refusal.Overflow) }
    {
        let Some((place, slot)) = self.listed(state, tag, key) else {
            return Ok(None);
        };
        match slot.pin(key, self.most_pins, past)? {
            Some(pin) => Ok(Some(PinAt { place, pin })),
            None => Ok(None),
        }
    }

    // Returns the place and the slot of the entry that the index has for a key.
    fn listed(&self, state: &mut ShardState<K>, tag: u32, key: &K) -> Option<(u32, &Slot<K, V, F>)>
        ensures same { state.new ≡ state.old }
        ensures place { IfSome result (λ found. place_of found.1.now.spot.value ≡ found.0) }
        ensures book { IfSome result (λ found.
            found.1.now.track.word.book ≡ self.now.store.chronicle.first.book) }
    {
        let place = state.seats.find(tag, key)?;
        Some((place, self.store.slot(place)?))
    }

    /// Calls `f` with each entry that its key finds. Visits every slot.
    pub fn for_each<G>(&self, state: &ShardState<K>, f: &mut G)
    where
        G: FnMut(&K, &V, u64, u32),
        requires callable { (state : G) (k : _) (v : _) (charge pins : _)
            → F.fits k.now v.now → G.pre state k v charge pins }
    {
        for place in 0..state.seats.places() {
            if let Some(slot) = self.store.slot(place) {
                slot.visit(self.most_pins, state.seats.charge_at(place), f);
            }
        }
    }

    /// Returns the sum of the charges of the entries that somebody has pinned. Visits every slot.
    pub fn pinned_charge(&self, state: &ShardState<K>) -> u64 {
        let mut pinned = 0u64;
        for place in 0..state.seats.places() {
            if let Some(slot) = self.store.slot(place) {
                if slot.is_pinned() {
                    pinned = pinned.saturating_add(state.seats.charge_at(place));
                }
            }
        }
        pinned
    }
}
