//! The lock of a cache, and the callers that wait at it.
//!
//! Each call acquires the lock once, and again after each wait. What it took out is dropped after
//! the lock is released, and whoever waits for what it did is woken.
ghost use Rattle.std.specs.Prelude.{◌≡◌, ◌≢◌, ◌<◌, Some, IfOk, IfErr, IfSome};
ghost use Rattle.std.specs.Arc.{arc_value};
ghost use Rattle.std.specs.Sync.Mutex.{mutex_guard_value};
ghost use Rattle.concurrent_lru.specs.Cache.{CopiesAreEqual};
ghost use Rattle.concurrent_lru.specs.Debts.{AsksOnEntry, IfEntered};
ghost use Rattle.concurrent_lru.specs.Doors.{IsLookupFor};
ghost use Rattle.concurrent_lru.specs.Pins.{IsHandleFor};

use crate::fit::Fit;
use crate::handle::CacheHandle;
use crate::locked::{Entered, HeldPin, Locked, Making, Polled, Waiting};
use crate::lru_core::Refusal;
use std::alloc::Global;
use std::hash::Hash;
use std::hint;
use std::marker::Model;
use std::sync::{Arc, Condvar, Mutex, MutexGuard, Wait};

// How often a call tries a lock that is held before it sleeps: after 64, 128 .. 4,096 pauses, each
// of some tens of nanoseconds. A try takes the lock's cache line from the holder, so the first
// pause is as long as several calls, and waiters leave the lock to a thread that makes many calls
// in a row.
const SPINS: u32 = 7;

const FIRST_PAUSES: u32 = 64;

/// The lock, its condition variable, the right to wait, and the allocator of values.
#[derive(Drop)]
pub struct Door<K: Hash + Eq + Clone, V, R: Wait, F: Fit<K, V>> {
    alloc: Global,
    rt: R,
    locked: Mutex<Locked<K, V, F>>,
    woken: Condvar,
}

/// A debt: the caller is to make a value, and stores it, or gives it up, at the door where it was
/// asked for.
///
/// Clauses see the stamp of the entry, and the key and the charge that were asked for.
pub struct Maker<'a, K: Hash + Eq + Clone, V, R: Wait, F: Fit<K, V>> {
    door: &'a Door<K, V, R, F>,
    making: Making<K>,
}

impl<'a, K: Hash + Eq + Clone, V, R: Wait, F: Fit<K, V>> Model for Maker<'a, K, V, R, F> {
    ghost use Rattle.concurrent_lru.specs.Pins.{AskOf};

    ghost Value = { AskOf K };

    ghost view = { λ m. m.making };
}

/// The result of `begin`.
pub enum Lookup<'a, K: Hash + Eq + Clone, V, R: Wait, F: Fit<K, V>> {
    /// The caller is to make the value.
    Make(Maker<'a, K, V, R, F>),
    /// The value is ready.
    Hit(CacheHandle<'a, K, V, R, F>),
}

impl<K: Hash + Eq + Clone + Drop, V: Drop, R: Wait, F: Fit<K, V>> Door<K, V, R, F> {
    /// Creates the lock of an empty cache.
    pub fn new(alloc: Global, rt: R, capacity: u64, seed: u64) -> Self
        requires copies { CopiesAreEqual K.is_clone K.eq }
    {
        Door {
            alloc,
            rt,
            locked: Mutex::new(Locked::new(alloc, capacity, seed)),
            woken: Condvar::new(),
        }
    }

    /// Acquires the lock. Each call acquires it here first. What holds of every state that a call
    /// meets is the invariant of `Locked`, which `Locked::state` states.
    #[inline(always)]
    pub fn lock(&self) -> MutexGuard<'_, Locked<K, V, F>> {
        match self.locked.try_lock() {
            Some(guard) => guard,
            None => self.lock_slow(),
        }
    }

    // Acquires a lock that another call holds. Calls are shorter than a sleep and a wakeup, so this
    // tries for a while, less and less often, before it sleeps.
    #[cold]
    fn lock_slow(&self) -> MutexGuard<'_, Locked<K, V, F>> {
        for spin in 0..SPINS {
            pause(FIRST_PAUSES << spin);
            if let Some(guard) = self.locked.try_lock() {
                return guard;
            }
        }
        self.locked.lock(&self.rt)
    }

    /// `Locked::begin`. What it evicts is dropped without the lock. Waits while another caller
    /// makes the value.
    ///
    /// Returns `Memory` also if the value that it waited for is ready and its copy is refused; the
    /// pin is then released.
    #[inline(always)]
    pub fn begin(&self, key: &K, charge: u64) -> Result<Lookup<'_, K, V, R, F>, Refusal>
        requires charged { 0 < charge }
        ensures lookup { IfOk result (λ lookup. IsLookupFor F.fits lookup key.now charge) }
        ensures never_stale { IfErr result (λ e. e ≢ Refusal.Stale) }
    {
        let mut guard = self.lock();
        match guard.begin(key, charge)? {
            Entered::Make(making, evicted) => {
                drop(evicted.open(guard));
                Ok(Lookup::Make(Maker { door: self, making }))
            }
            // If the result were returned as it is, every hit would set up the stack that a wait
            // needs.
            Entered::Wait(waiting) => Ok(self.wait(guard, waiting, key, charge)?),
            Entered::Hit(pin) => Ok(Lookup::Hit(CacheHandle { door: self, pin })),
        }
    }

    /// `begin`, but never waits: returns `None` if another caller is making the value.
    ///
    /// Returns `Overflow`, `Full` and `Memory` as `begin` does.
    pub fn try_begin(&self, key: &K, charge: u64) -> Result<Option<Lookup<'_, K, V, R, F>>, Refusal>
        requires charged { 0 < charge }
        ensures lookup { IfOk result (λ found. IfSome found
            (λ lookup. IsLookupFor F.fits lookup key.now charge)) }
        ensures never_stale { IfErr result (λ e. e ≢ Refusal.Stale) }
    {
        let mut guard = self.lock();
        match guard.try_begin(key, charge)? {
            None => Ok(None),
            Some(Entered::Make(making, evicted)) => {
                drop(evicted.open(guard));
                Ok(Some(Lookup::Make(Maker { door: self, making })))
            }
            Some(Entered::Wait(_waiting)) => unreachable!(),
            Some(Entered::Hit(pin)) => Ok(Some(Lookup::Hit(CacheHandle { door: self, pin }))),
        }
    }

    // Waits while another caller makes the value.
    #[cold]
    fn wait<'a>(
        &'a self,
        guard: MutexGuard<'a, Locked<K, V, F>>,
        waiting: Waiting<K, V, F>,
        key: &K,
        charge: u64,
    ) -> Result<Lookup<'a, K, V, R, F>, Refusal>
        requires charged { 0 < charge }
        requires asked { waiting.key ≡ key.now }
        requires charge { waiting.charge ≡ charge }
        requires awake { mutex_guard_value guard ≡ waiting.left }
        ensures lookup { IfOk result (λ lookup. IsLookupFor F.fits lookup key.now charge) }
        ensures never_stale { IfErr result (λ e. e ≢ Refusal.Stale) }
    {
        let mut asleep = (guard, waiting);
        for _ in self.rt.forever() {
            let (guard, waiting) = asleep;
            let (guard, entered) = self.sleep(guard, waiting, key, charge)?;
            asleep = match entered {
                Entered::Make(making, gone) => {
                    drop(gone.open(guard));
                    return Ok(Lookup::Make(Maker { door: self, making }));
                }
                Entered::Wait(waiting) => (guard, waiting),
                Entered::Hit(pin) => return Ok(Lookup::Hit(CacheHandle { door: self, pin })),
            };
        }
        unreachable!()
    }

    // Sleeps until it is woken, and then calls `Locked::poll`. A caller that finds its pin gone
    // begins again.
    //
    // Returns `Memory` if the value is ready and its copy is refused; the pin is then released.
    fn sleep<'a>(
        &'a self,
        guard: MutexGuard<'a, Locked<K, V, F>>,
        waiting: Waiting<K, V, F>,
        key: &K,
        charge: u64,
    ) -> Result<(MutexGuard<'a, Locked<K, V, F>>, Entered<K, V, F>), Refusal>
        requires charged { 0 < charge }
        requires asked { waiting.key ≡ key.now }
        requires charge { waiting.charge ≡ charge }
        requires awake { mutex_guard_value guard ≡ waiting.left }
        ensures asked { IfOk result (λ r. AsksOnEntry r.1 key.now charge (mutex_guard_value r.0)) }
        ensures hit { IfOk result (λ r. IfEntered r.1 (F.fits key.now)) }
        ensures never_stale { IfErr result (λ e. e ≢ Refusal.Stale) }
    {
        let (mut guard, woken) = waiting.sleep(&self.rt, &self.woken, guard);
        match guard.poll(woken, key) {
            Polled::Entered(entered) => Ok((guard, entered)),
            Polled::Refused(unread) => {
                let given_up = guard.give_up(unread);
                // If it is refused as `Stale`, there is no pin to release.
                drop(given_up.open(guard));
                Err(Refusal::Memory)
            }
            Polled::NoPin => {
                let entered = guard.begin(key, charge)?;
                Ok((guard, entered))
            }
        }
    }

    /// Makes the `Arc` of a value that its entry stores, and another that its handle reads.
    ///
    /// Returns `Memory` if either is refused. The value is then dropped.
    #[inline(always)]
    pub fn share(&self, value: V) -> Result<(Arc<V>, Arc<V>), Refusal>
        ensures stored { IfOk result (λ shares. arc_value shares.0 ≡ value) }
        ensures read { IfOk result (λ shares. arc_value shares.1 ≡ value) }
        ensures refused { IfErr result (λ e. e ≡ Refusal.Memory) }
    {
        let stored = Arc::new(self.alloc, value)?;
        let read = Arc::try_clone(&stored)?;
        Ok((stored, read))
    }

    /// `Locked::release`. The pin's `Arc`, and then what was evicted, are dropped without the lock.
    #[inline(always)]
    pub fn release(&self, pin: HeldPin<K, V, F>) {
        let mut guard = self.lock();
        let released = guard.release(pin);
        // If it is refused as `Stale`, there is no pin to release and nothing was evicted.
        drop(released.open(guard));
    }

    /// `Locked::repin`. The pin that it returns holds another `Arc` of the value, which is made
    /// before the lock is acquired. What else was made is dropped without the lock.
    ///
    /// Returns `Memory` if a copy of the `Arc` is refused, and `Overflow` as there.
    pub fn repin(&self, pin: &HeldPin<K, V, F>) -> Result<HeldPin<K, V, F>, Refusal>
        ensures pin { IfOk result (λ another. another ≡ pin.now) }
        ensures fits { IfOk result (λ another. F.fits another.key another.value) }
        ensures never_stale { IfErr result (λ e. e ≢ Refusal.Stale) }
    {
        let read = pin.share()?;
        let mut guard = self.lock();
        match guard.repin(pin, read) {
            Ok((another, shared)) => {
                drop(shared.open(guard));
                Ok(another)
            }
            Err((refusal, read)) => {
                drop(read.open(guard));
                Err(refusal)
            }
        }
    }
}

// Pauses the processor `turns` times.
fn pause(turns: u32) {
    for _ in 0..turns {
        hint::spin_loop();
    }
}

impl<'a, K: Hash + Eq + Clone + Drop, V: Drop, R: Wait, F: Fit<K, V>> Maker<'a, K, V, R, F> {
    /// `Locked::ready`. Wakes the callers that wait for the value.
    ///
    /// Returns `Memory` if an `Arc` of the value is refused: then the making has failed.
    #[inline(always)]
    pub fn ready(self, key: &K, value: V) -> Result<CacheHandle<'a, K, V, R, F>, Refusal>
        requires asked { self.key ≡ key.now }
        requires fits { F.fits key.now value }
        ensures handle { IfOk result
            (λ h. IsHandleFor F.fits h key.now (Some self.entry.charge)) }
        ensures value { IfOk result (λ h. h.value ≡ value) }
        ensures refused { IfErr result (λ e. e ≡ Refusal.Memory) }
    {
        let Ok((stored, read)) = self.door.share(value) else {
            self.fail(key);
            return Err(Refusal::Memory);
        };
        let Self { door, making } = self;
        let mut guard = door.lock();
        let (pin, back, waiters) = guard.ready(making, key, stored, read);
        waiters.wake(&door.woken);
        // If the `Arc` comes back, no entry takes the value, and the handle reads the other `Arc`.
        let _ = back.open(guard);
        Ok(CacheHandle { door, pin })
    }

    /// `Locked::ready_with`. Wakes the callers that wait for the value. What the charge evicted is
    /// dropped without the lock.
    ///
    /// Returns `Memory` as `ready` does, and `Overflow` and `Full` as `Locked` does: then the value
    /// is dropped without the lock, and the making has failed.
    pub fn ready_with(
        self,
        key: &K,
        value: V,
        charge: u64,
    ) -> Result<CacheHandle<'a, K, V, R, F>, Refusal>
        requires charged { 0 < charge }
        requires asked { self.key ≡ key.now }
        requires fits { F.fits key.now value }
        ensures handle { IfOk result (λ h. IsHandleFor F.fits h key.now (Some charge)) }
        ensures value { IfOk result (λ h. h.value ≡ value) }
        ensures never_stale { IfErr result (λ e. e ≢ Refusal.Stale) }
    {
        let Ok((stored, read)) = self.door.share(value) else {
            self.fail(key);
            return Err(Refusal::Memory);
        };
        let Self { door, making } = self;
        let mut guard = door.lock();
        match guard.ready_with(making, key, stored, read, charge) {
            Ok((pin, evicted, waiters)) => {
                waiters.wake(&door.woken);
                // If the `Arc` comes back, no entry takes the value, and the handle reads the other
                // `Arc`.
                let _ = evicted.open(guard);
                Ok(CacheHandle { door, pin })
            }
            Err((refusal, values, making)) => {
                drop(values.open(guard));
                Maker { door, making }.fail(key);
                Err(refusal)
            }
        }
    }

    /// `Locked::fail`. Wakes the callers that wait, since the next of them takes over the making.
    pub fn fail(self, key: &K)
        requires { self.key ≡ key.now }
    {
        let Self { door, making } = self;
        let mut guard = door.lock();
        let (failed, waiters) = guard.fail(making, key);
        waiters.wake(&door.woken);
        // If it is refused as `Stale`, there is no making to give up.
        drop(failed.open(guard));
    }
}
