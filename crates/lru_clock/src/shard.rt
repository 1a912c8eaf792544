//! A shard: its core, and the lock that callers hold while they change it.
//!
//! At most one entry is removed each time the lock is held, and it is dropped after the lock is
//! released. So a call that evicts several entries takes the lock once for each of them.
ghost use Rattle.std.specs.Prelude.{◌≡◌, ◌<◌, Some, IfSome};
ghost use Rattle.concurrent_lru.specs.Cache.{CopiesAreEqual};

mod changes;
mod looks;

use crate::clock_core::Core;
use crate::excess::ExcessFlag;
use crate::history::past::Past;
use crate::makings::Ticket;
use crate::shard_state::ShardState;
use crate::store::{Left, Looks, PinAt};
use concurrent_lru::fit::Fit;
use crossbeam_utils::CachePadded;
use std::alloc::{AllocError, Global};
use std::hash::Hash;
use std::sync::atomic::AtomicBool;
use std::sync::atomic::Ordering::SeqCst;
use std::sync::{Condvar, Mutex, MutexGuard, Wait};

/// A shard of a cache.
#[derive(Drop)]
pub struct Shard<K: Hash + Eq + Clone, V, F: Fit<K, V>> {
    pub core: Core<K, V, F>,
    excess: ExcessFlag,
    // Whether a caller that wanted to evict found the lock taken, and left that to its holder.
    is_owed: AtomicBool,
    state: CachePadded<Mutex<ShardState<K>>>,
    // Wakes the callers that wait for a value that another caller is making.
    made: CachePadded<Condvar>,
}

/// What a caller that found no entry without the lock must do.
pub enum Turn<'a, K: Eq, V, F: Fit<K, V>> {
    /// Make the value, under this ticket.
    Make(Ticket<K, V>),
    /// Nothing: the key has an entry, which was pinned.
    Hit(PinAt<'a, K, V, F>),
}

impl<K: Hash + Eq + Clone + Drop, V: Drop, F: Fit<K, V>> Shard<K, V, F> {
    /// Creates a shard without entries.
    ///
    /// Returns `AllocError` if the allocator refuses.
    pub fn new(alloc: Global, capacity: u64, most_pins: u64) -> Result<Self, AllocError>
        requires within { most_pins < 1073741823 }
        requires copies { CopiesAreEqual K.is_clone K.eq }
    {
        let (core, state) = Core::new(alloc, capacity, most_pins)?;
        Ok(Shard {
            core,
            excess: ExcessFlag::new(),
            is_owed: AtomicBool::new(false),
            state: CachePadded::new(Mutex::new(state)),
            made: CachePadded::new(Condvar::new()),
        })
    }

    /// Returns a past that has seen the history up to this call. Its `since` is the beginning, so
    /// that every making begins after it.
    pub fn past(&self) -> Past<K, V>
        ensures book { result.book ≡ self.now.core.store.chronicle.first.book }
    {
        self.core.store.past()
    }

    fn lock<R: Wait>(&self, rt: &R) -> MutexGuard<'_, ShardState<K>> {
        match self.state.try_lock() {
            Some(guard) => guard,
            None => self.state.lock(rt),
        }
    }

    // Releases the lock, drops the entry that was removed under it, and evicts the entries that
    // other callers have meanwhile left to this one.
    fn unlock<'a>(&'a self, guard: MutexGuard<'a, ShardState<K>>, left: Option<Left<'a, K, V, F>>) {
        if self.close(guard, left) {
            self.settle();
        }
    }

    // Releases the lock, and then drops the entry that was removed under it. Returns whether more
    // entries may have to be evicted: a handle evicts nothing if it was dropped before `excess` was
    // set, or while another caller had the lock.
    fn close<'a>(
        &'a self,
        guard: MutexGuard<'a, ShardState<K>>,
        left: Option<Left<'a, K, V, F>>,
    ) -> bool {
        let has_risen = self.excess.update(&guard);
        match left {
            Some(left) => left.open(guard),
            None => drop(guard),
        }
        has_risen || self.is_owed.load(SeqCst)
    }

    /// Evicts down to the capacity. If another caller has the lock, leaves that to it.
    #[inline(never)]
    pub fn settle(&self) {
        for _ in 0..u64::MAX {
            self.is_owed.store(true, SeqCst);
            let Some(mut guard) = self.state.try_lock() else {
                return;
            };
            self.is_owed.store(false, SeqCst);
            let left = self.core.make_room(&mut guard, 0, &mut Looks::new());
            let is_done = left.is_none() || !guard.is_above(0);
            if !self.close(guard, left) && is_done {
                return;
            }
        }
    }

    /// Evicts down to the capacity, if the total was above it when the lock was last released.
    #[inline(always)]
    pub fn settle_if_above(&self) {
        if self.excess.is_set() {
            self.settle();
        }
    }

    // Wakes the callers that wait for a value.
    fn wake(&self, state: &ShardState<K>) {
        if state.makings.has_waiting() {
            self.made.notify_all();
        }
    }

    // Acquires the lock once there is room for a new entry of this charge, or no entry left that
    // can be evicted, or the limit refuses the new entry in any case.
    #[inline(always)]
    fn lock_with_room<R: Wait>(
        &self,
        rt: &R,
        charge: u64,
    ) -> (MutexGuard<'_, ShardState<K>>, Option<Left<'_, K, V, F>>)
        ensures { IfSome result.1
            (λ l. l ≡ Some self.now.core.store.chronicle.first.book) }
    {
        for _ in rt.forever() {
            let mut guard = self.lock(rt);
            let left = self.core.make_room_for(&mut guard, charge);
            if left.is_none() || !guard.is_above(charge) {
                return (guard, left);
            }
            self.unlock(guard, left);
        }
        unreachable!()
    }
}
