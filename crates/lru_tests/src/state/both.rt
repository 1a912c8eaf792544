//! The cache beside the plain one: each call is made on both, whose answers are compared.
ghost use Rattle.std.specs.Prelude.{◌<◌};

use crate::assertions::assert_equal_at;
use crate::state::plain::{KEYS, Plain};
use crate::state::shown::{seen_at, seen_in};
use concurrent_lru::lru_core::State;
use lru_support::tables::{Call, text_of};
use std::alloc::{AllocError, Global};
use std::fmt::Debug;
use std::process::Abort;
use std::sync::Arc;

// The seed of the cache. No answer depends on it.
const SEED: u64 = 0x0123_4567_89ab_cdef;

/// The cache and the one that it is compared with.
#[derive(Drop)]
pub(crate) struct Both {
    alloc: Global,
    state: State<u64, u64>,
    /// The plain one, which also has its next stamp and its last pin.
    pub(crate) plain: Plain,
}

impl Both {
    /// Creates two empty caches with the same limits.
    pub(crate) fn with_limits(
        alloc: Global,
        capacity: u64,
        first_stamp: u64,
        most_pins: u32,
    ) -> Both
        requires { 0 < most_pins }
    {
        Both {
            alloc,
            state: State::with_limits_and_seed(alloc, capacity, first_stamp, most_pins, SEED),
            plain: Plain::with_limits(alloc, capacity, first_stamp, most_pins),
        }
    }

    /// Makes the call on both. If the answers differ, the test ends with both of them, the call,
    /// and its place.
    pub(crate) fn take(&mut self, rt: &impl Abort, place: &impl Debug, call: Call) {
        let told = answer(self.alloc, &mut self.state, call).expect(rt, "memory");
        let wanted = self.plain.answer(self.alloc, call).expect(rt, "memory");
        assert_equal_at(rt, &told, &wanted, (place, call));
    }

    /// Compares what a walk over the entries shows, what is shown of each of them by its stamp, the
    /// sums of the charges, and which keys find a value.
    pub(crate) fn look(&self, rt: &impl Abort, place: &impl Debug) {
        let wanted = self.plain.seen(self.alloc).expect(rt, "memory");
        let seen = seen_in(self.alloc, &self.state).expect(rt, "memory");
        assert_equal_at(rt, &seen, &wanted, place);
        for it in &wanted {
            assert_equal_at(rt, seen_at(&self.state, it.0), Some(*it), place);
        }
        let state = &self.state;
        let sums = (state.len(), state.total(), state.pinned_charge());
        assert_equal_at(rt, sums, self.plain.sums(), ("the sums", place));
        for key in 0..KEYS as u64 {
            let finds = (state.contains(&key), self.plain.contains(key));
            assert_equal_at(rt, finds.0, finds.1, ("of key", key, place));
        }
    }
}

// Makes a call. Returns the text of its answer, or `AllocError` if memory for the value or for the
// text is refused.
fn answer(alloc: Global, state: &mut State<u64, u64>, call: Call) -> Result<String, AllocError> {
    match call {
        Call::Begin(key, charge) if charge > 0 => text_of(alloc, &state.begin(&key, charge)),
        Call::BeginStrictly(key, charge) if charge > 0 => {
            text_of(alloc, &state.begin_strictly(&key, charge))
        }
        Call::Insert(key, charge, value) if charge > 0 => {
            let value = Arc::new(alloc, value)?;
            text_of(alloc, &state.insert(&key, charge, value))
        }
        Call::InsertStrictly(key, charge, value) if charge > 0 => {
            let value = Arc::new(alloc, value)?;
            text_of(alloc, &state.insert_strictly(&key, charge, value))
        }
        Call::Poll(stamp) => text_of(alloc, &state.poll(stamp)),
        Call::Ready(stamp, value) => {
            let value = Arc::new(alloc, value)?;
            text_of(alloc, &state.ready(stamp, value))
        }
        Call::Fail(stamp) => text_of(alloc, &state.fail(stamp)),
        Call::Get(key) => text_of(alloc, &state.get(&key)),
        Call::Release(stamp) => text_of(alloc, &state.release(stamp)),
        Call::ReleaseAndEvict(stamp) => text_of(alloc, &state.release_and_evict(stamp)),
        Call::Repin(stamp) => text_of(alloc, &state.repin(stamp)),
        Call::KeyOf(stamp) => text_of(alloc, &state.key_of(stamp)),
        Call::Read(key) => text_of(alloc, &state.read(&key, |value| *value)),
        Call::AdviceEvict(key) => text_of(alloc, &state.advice_evict(&key)),
        Call::Invalidate(key) => text_of(alloc, &state.invalidate(&key)),
        Call::Prune => text_of(alloc, &state.prune()),
        Call::SetCapacity(capacity) => text_of(alloc, &state.set_capacity(capacity)),
        Call::Total => text_of(alloc, &state.total()),
        Call::Capacity => text_of(alloc, &state.capacity()),
        Call::Begin(..) | Call::BeginStrictly(..) | Call::Insert(..) | Call::InsertStrictly(..) => {
            String::from_str(alloc, "a charge is above 0")
        }
    }
}
