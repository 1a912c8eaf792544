//! The twin: a journal that threads share, each with a tally of its own calls.
//!
//! A call acquires the lock once, for one call of the journal, and drops what it evicted after
//! releasing it.
ghost use Rattle.std.specs.Prelude.{◌≡◌, ◌≢◌, ◌-◌, ◌<◌, [], true, IfErr, IfOk, IfSome};
ghost use Rattle.std.specs.Arc.{arc_value};
ghost use Rattle.std.specs.Fn.{FnOnceReturnsAt, FnOnceTakesAt};
ghost use Rattle.concurrent_lru.specs.Cache.{CopiesAreEqual};
ghost use Rattle.lru_journal.specs.Calls.{told_of_started, told_of_pin};
ghost use Rattle.lru_journal.specs.Journals.{IsHistory};
ghost use Rattle.lru_journal.specs.Records.{record_of};
ghost use Rattle.lru_journal.specs.Replay.{told_of_failed, told_of_found, IsOfCopy};
ghost use Rattle.concurrent_lru.specs.Request as ask;
ghost use Rattle.lru_journal.specs.Tallies.{hand, hand_with_hand, all_parts, AreExactly, IsTallied};

use crate::door::Door;
use crate::journal::Journal;
use crate::pin::{Pin, Started, pin_of};
use crate::record::Told;
use crate::tally::{Identity, OnePart, Opening, Tally, add_tally, take_tally};
use crate::twin_state::TwinState;
use concurrent_lru::lru_core::{Failed, Refusal};
use std::alloc::Global;
use std::hash::Hash;
use std::marker::PhantomData;
use std::sync::{Arc, Wait};

// Makes one call of the journal under the lock, notes its record, and returns its answer once the
// lock is released. It is a macro, since no closure can be over a journal.
macro_rules! call {
    ($twin:ident, $tally:ident, $($call:tt)+) => {{
        let mut guard = $twin.door.lock();
        let state = &mut *guard.state;
        let answer = state.journal.$($call)+;
        let sealed = $twin
            .door
            .note($tally, &state.journal, &mut state.records_pass, answer);
        guard.unlock(sealed)
    }};
}

/// A journaled cache that threads share.
///
/// Each call takes the caller's tally. An accepted call adds one receipt to it, the record of its
/// own step and reply, at a position past all that the tally had; a refused one leaves the tally as
/// it was. Any call returns `Memory` if there is no room for its record or for the record's copy of
/// the key. This check precedes `Overflow` and `Stale`.
#[derive(Drop)]
pub struct Twin<K: Hash + Eq + Clone, V, R, I: Identity> {
    door: Door<K, V, R, I>,
}

impl<K: Hash + Eq + Clone + Send + Sync, V: Drop + Send + Sync, R: Wait + Drop, I: Identity> Twin<
    K,
    V,
    R,
    I,
> {
    /// Creates an empty twin with the opening's capacity, and its first tally, which has all parts.
    /// Takes no memory.
    ///
    /// It hashes keys with the seed 0, so whoever picks the keys can make it slow.
    pub fn new(alloc: Global, rt: R, opening: Opening<K>) -> (Twin<K, V, R, I>, Tally<K, I>)
        requires named { opening ≡ I.name }
        requires copies { CopiesAreEqual K.is_clone K.eq }
        ensures { result.1 ≡ hand all_parts [] }
    {
        let Opening {
            capacity,
            cell,
            mut first,
        } = opening;
        let pass = take_tally(&cell, &mut first);
        let state = TwinState {
            journal: Journal::new(alloc, capacity),
            records_pass: first,
            twin: PhantomData,
        };
        let tally = Tally {
            pass,
            twin: PhantomData,
        };
        let twin = Twin {
            door: Door::new(cell, state, rt),
        };
        (twin, tally)
    }

    /// Asks for the value of a key and pins its entry, inserting one if there is none.
    ///
    /// Returns `Overflow` as `Journal::begin` does.
    pub fn begin(
        &self,
        tally: &mut Tally<K, I>,
        key: &K,
        charge: u64,
    ) -> Result<Started<V>, Refusal>
        requires { 0 < charge }
        ensures tallied { IsTallied tally.old
            (λ started. IsOfCopy K.eq key.now
            (λ copy. record_of (ask.begin copy charge) (told_of_started started))) result
            tally.new }
        ensures parts { tally.new.parts ≡ tally.old.parts }
        ensures never_stale { IfErr result (λ e. e ≢ Refusal.Stale) }
    {
        let (begun, evicted) = call!(self, tally, begin(key, charge))?;
        drop(evicted);
        Ok(Started::of(begun))
    }

    /// Asks for the value of a key as `begin` does, but inserts no entry that would take the total
    /// above the capacity.
    ///
    /// Returns `Full` and `Overflow` as `Journal::begin_strictly` does.
    pub fn begin_strictly(
        &self,
        tally: &mut Tally<K, I>,
        key: &K,
        charge: u64,
    ) -> Result<Started<V>, Refusal>
        requires { 0 < charge }
        ensures tallied { IsTallied tally.old
            (λ started. IsOfCopy K.eq key.now
            (λ copy. record_of (ask.begin_strictly copy charge) (told_of_started started))) result
            tally.new }
        ensures parts { tally.new.parts ≡ tally.old.parts }
        ensures never_stale { IfErr result (λ e. e ≢ Refusal.Stale) }
    {
        let (begun, evicted) = call!(self, tally, begin_strictly(key, charge))?;
        drop(evicted);
        Ok(Started::of(begun))
    }

    /// Asks again for a value that was being made, by the stamp that `begin` returned.
    ///
    /// Returns `Stale` if no held entry has the stamp.
    pub fn poll(&self, tally: &mut Tally<K, I>, stamp: u64) -> Result<Started<V>, Refusal>
        ensures tallied { IsTallied tally.old
            (λ started r. r ≡ record_of (ask.poll stamp) (told_of_started started)) result
            tally.new }
        ensures parts { tally.new.parts ≡ tally.old.parts }
        ensures never_overflow { IfErr result (λ e. e ≢ Refusal.Overflow) }
    {
        let begun = call!(self, tally, poll(stamp))?;
        Ok(Started::of(begun))
    }

    /// Stores the value of an entry that is being made. A refusal returns the value.
    ///
    /// Returns `Stale` if no entry is being made under that stamp.
    pub fn ready(
        &self,
        tally: &mut Tally<K, I>,
        stamp: u64,
        value: Arc<V>,
    ) -> Result<(), (Refusal, Arc<V>)>
        ensures tallied { IsTallied tally.old (λ _ r. r ≡ record_of (ask.ready stamp tt) Told.Done)
            result tally.new }
        ensures parts { tally.new.parts ≡ tally.old.parts }
        ensures never_overflow { IfErr result (λ e. e.0 ≢ Refusal.Overflow) }
        ensures back { IfErr result (λ e. arc_value e.1 ≡ arc_value value) }
    {
        call!(self, tally, ready(stamp, value))
    }

    /// Stores the value of an entry that is being made with its charge, which may evict idle
    /// entries. A refusal returns the value.
    ///
    /// Returns `Overflow` and `Stale` as `Journal::ready_with` does.
    pub fn ready_with(
        &self,
        tally: &mut Tally<K, I>,
        stamp: u64,
        value: Arc<V>,
        charge: u64,
    ) -> Result<(), (Refusal, Arc<V>)>
        requires { 0 < charge }
        ensures tallied { IsTallied tally.old
            (λ _ r. r ≡ record_of (ask.ready_with stamp tt charge) Told.Done) result tally.new }
        ensures parts { tally.new.parts ≡ tally.old.parts }
        ensures back { IfErr result (λ e. arc_value e.1 ≡ arc_value value) }
    {
        let evicted = call!(self, tally, ready_with(stamp, value, charge))?;
        drop(evicted);
        Ok(())
    }

    /// Stores a value and its charge as `ready_with` does, but not if the charge would take the
    /// total above the capacity. A refusal returns the value.
    ///
    /// Returns `Full`, `Overflow` and `Stale` as `Journal::ready_with_strictly` does.
    pub fn ready_with_strictly(
        &self,
        tally: &mut Tally<K, I>,
        stamp: u64,
        value: Arc<V>,
        charge: u64,
    ) -> Result<(), (Refusal, Arc<V>)>
        requires { 0 < charge }
        ensures tallied { IsTallied tally.old
            (λ _ r. r ≡ record_of (ask.ready_with_strictly stamp tt charge) Told.Done) result
            tally.new }
        ensures parts { tally.new.parts ≡ tally.old.parts }
        ensures back { IfErr result (λ e. arc_value e.1 ≡ arc_value value) }
    {
        let evicted = call!(self, tally, ready_with_strictly(stamp, value, charge))?;
        drop(evicted);
        Ok(())
    }

    /// Gives up making a value, and releases the maker's pin.
    ///
    /// Returns `Stale` if no entry is being made under that stamp.
    pub fn fail(&self, tally: &mut Tally<K, I>, stamp: u64) -> Result<Failed<K>, Refusal>
        ensures tallied { IsTallied tally.old
            (λ failed r. r ≡ record_of (ask.fail stamp) (told_of_failed failed)) result tally.new }
        ensures parts { tally.new.parts ≡ tally.old.parts }
        ensures never_overflow { IfErr result (λ e. e ≢ Refusal.Overflow) }
    {
        call!(self, tally, fail(stamp))
    }

    /// Returns a pin of a key's value, or `None` if there is no ready value.
    ///
    /// Returns `Overflow` if the entry has the maximum number of pins.
    pub fn get(&self, tally: &mut Tally<K, I>, key: &K) -> Result<Option<Pin<V>>, Refusal>
        ensures tallied { IsTallied tally.old
            (λ found. IsOfCopy K.eq key.now (λ copy. record_of (ask.get copy) (told_of_pin found)))
            result tally.new }
        ensures parts { tally.new.parts ≡ tally.old.parts }
        ensures never_stale { IfErr result (λ e. e ≢ Refusal.Stale) }
    {
        let found = call!(self, tally, get(key))?;
        Ok(pin_of(found))
    }

    /// Calls `reader` with the value of a key, if it is ready, and returns its result with the
    /// entry's stamp. Returns `None` if the key has no entry or its value is still being made;
    /// `reader` is then dropped without being called. It copies no value.
    ///
    /// `reader` runs, or is dropped, under the lock. It should be short, and must not use this
    /// cache, since such a call would deadlock.
    ///
    /// Returns `Overflow` if the entry has the maximum number of pins.
    pub fn read<T, G>(
        &self,
        tally: &mut Tally<K, I>,
        key: &K,
        reader: G,
    ) -> Result<Option<(u64, T)>, Refusal>
    where
        G: FnOnce(&V) -> T + Drop,
        requires callable { (v : V) → FnOnceTakesAt G.FnOnce reader v }
        ensures tallied { IsTallied tally.old
            (λ found. IsOfCopy K.eq key.now (λ copy. record_of (ask.read copy)
            (told_of_found found))) result tally.new }
        ensures parts { tally.new.parts ≡ tally.old.parts }
        ensures answered { IfOk result (λ found. IfSome found
            (λ r. (v : V) × FnOnceReturnsAt G.FnOnce reader v r.1)) }
        ensures never_stale { IfErr result (λ e. e ≢ Refusal.Stale) }
    {
        call!(self, tally, read(key, reader))
    }

    /// Releases a pin. A refusal returns the pin.
    ///
    /// Returns `Stale` if no held and ready entry has its stamp.
    pub fn release(&self, tally: &mut Tally<K, I>, pin: Pin<V>) -> Result<(), (Refusal, Pin<V>)>
        ensures tallied { IsTallied tally.old
            (λ _ r. r ≡ record_of (ask.release pin.stamp) Told.Done) result tally.new }
        ensures parts { tally.new.parts ≡ tally.old.parts }
        ensures never_overflow { IfErr result (λ e. e.0 ≢ Refusal.Overflow) }
        ensures back { IfErr result (λ e. e.1 ≡ pin) }
    {
        match call!(self, tally, release(pin.stamp())) {
            Ok(evicted) => {
                drop(evicted);
                Ok(())
            }
            Err(refusal) => Err((refusal, pin)),
        }
    }

    /// Releases a pin as `release` does, and evicts the entry if that was its last pin. A refusal
    /// returns the pin.
    ///
    /// Returns `Stale` if no held and ready entry has its stamp.
    pub fn release_and_evict(
        &self,
        tally: &mut Tally<K, I>,
        pin: Pin<V>,
    ) -> Result<(), (Refusal, Pin<V>)>
        ensures tallied { IsTallied tally.old
            (λ _ r. r ≡ record_of (ask.release_and_evict pin.stamp) Told.Done) result tally.new }
        ensures parts { tally.new.parts ≡ tally.old.parts }
        ensures never_overflow { IfErr result (λ e. e.0 ≢ Refusal.Overflow) }
        ensures back { IfErr result (λ e. e.1 ≡ pin) }
    {
        match call!(self, tally, release_and_evict(pin.stamp())) {
            Ok(evicted) => {
                drop(evicted);
                Ok(())
            }
            Err(refusal) => Err((refusal, pin)),
        }
    }

    /// Returns another pin of the entry with this stamp, which has a ready value. Such an entry may
    /// be held, even if its key was invalidated since, or idle.
    ///
    /// Returns `Stale` if no ready entry has the stamp, `Overflow` if the entry has the maximum
    /// number of pins, and `Memory` also if a second owner of the value is refused.
    pub fn repin(&self, tally: &mut Tally<K, I>, stamp: u64) -> Result<Pin<V>, Refusal>
        ensures tallied { IsTallied tally.old
            (λ _ r. r ≡ record_of (ask.repin stamp) Told.Done) result tally.new }
        ensures parts { tally.new.parts ≡ tally.old.parts }
        ensures pin { IfOk result (λ pin. pin.stamp ≡ stamp) }
    {
        let value = call!(self, tally, repin(stamp))?;
        Ok(Pin::new(stamp, value))
    }

    /// Evicts the entry of a key if it is idle. Otherwise nothing happens.
    pub fn advice_evict(&self, tally: &mut Tally<K, I>, key: &K) -> Result<(), Refusal>
        ensures tallied { IsTallied tally.old
            (λ _. IsOfCopy K.eq key.now (λ copy. record_of (ask.advice_evict copy) Told.Done))
            result tally.new }
        ensures parts { tally.new.parts ≡ tally.old.parts }
        ensures memory { IfErr result (λ e. e ≡ Refusal.Memory) }
    {
        let evicted = call!(self, tally, advice_evict(key))?;
        drop(evicted);
        Ok(())
    }

    /// Invalidates a key: whoever asks for it after this call gets a value that is made after it.
    /// An idle entry is evicted; a held one is detached from its key and stays for its holders
    /// until the last pin is released.
    ///
    /// If the call is refused, the key keeps its value.
    pub fn invalidate(&self, tally: &mut Tally<K, I>, key: &K) -> Result<(), Refusal>
        ensures tallied { IsTallied tally.old
            (λ _. IsOfCopy K.eq key.now (λ copy. record_of (ask.invalidate copy) Told.Done)) result
            tally.new }
        ensures parts { tally.new.parts ≡ tally.old.parts }
        ensures memory { IfErr result (λ e. e ≡ Refusal.Memory) }
    {
        let evicted = call!(self, tally, invalidate(key))?;
        drop(evicted);
        Ok(())
    }

    /// Inserts a value, replacing what the key has, and returns a pin of the new entry. A refusal
    /// returns the value, and the key keeps what it has.
    ///
    /// An idle entry of the key is evicted; a held one is detached from its key and stays for its
    /// holders until the last pin is released.
    ///
    /// Returns `Overflow` as `Journal::insert` does, and `Memory` also if the allocator refuses the
    /// new entry or a second owner of the value.
    pub fn insert(
        &self,
        tally: &mut Tally<K, I>,
        key: &K,
        charge: u64,
        value: Arc<V>,
    ) -> Result<Pin<V>, (Refusal, Arc<V>)>
        requires { 0 < charge }
        ensures tallied { IsTallied tally.old
            (λ pin. IsOfCopy K.eq key.now (λ copy. record_of (ask.insert copy charge tt)
            (Told.Inserted pin.stamp))) result tally.new }
        ensures parts { tally.new.parts ≡ tally.old.parts }
        ensures value { IfOk result (λ pin. pin.value ≡ arc_value value) }
        ensures never_stale { IfErr result (λ e. e.0 ≢ Refusal.Stale) }
        ensures back { IfErr result (λ e. arc_value e.1 ≡ arc_value value) }
    {
        let Ok(pinned) = value.clone() else {
            return Err((Refusal::Memory, value));
        };
        let inserted = call!(self, tally, insert(key, charge, value))?;
        Ok(Pin::new(inserted.stamp, pinned))
    }

    /// Inserts a value as `insert` does, but not if its charge would take the total above the
    /// capacity. A refusal returns the value, and the key keeps what it has.
    ///
    /// Returns `Full` and `Overflow` as `Journal::insert_strictly` does, and `Memory` also if the
    /// allocator refuses the new entry or a second owner of the value.
    pub fn insert_strictly(
        &self,
        tally: &mut Tally<K, I>,
        key: &K,
        charge: u64,
        value: Arc<V>,
    ) -> Result<Pin<V>, (Refusal, Arc<V>)>
        requires { 0 < charge }
        ensures tallied { IsTallied tally.old
            (λ pin. IsOfCopy K.eq key.now (λ copy. record_of (ask.insert_strictly copy charge tt)
            (Told.Inserted pin.stamp))) result tally.new }
        ensures parts { tally.new.parts ≡ tally.old.parts }
        ensures value { IfOk result (λ pin. pin.value ≡ arc_value value) }
        ensures never_stale { IfErr result (λ e. e.0 ≢ Refusal.Stale) }
        ensures back { IfErr result (λ e. arc_value e.1 ≡ arc_value value) }
    {
        let Ok(pinned) = value.clone() else {
            return Err((Refusal::Memory, value));
        };
        let inserted = call!(self, tally, insert_strictly(key, charge, value))?;
        Ok(Pin::new(inserted.stamp, pinned))
    }

    /// Evicts every idle entry.
    pub fn prune(&self, tally: &mut Tally<K, I>) -> Result<(), Refusal>
        ensures tallied { IsTallied tally.old (λ _ r. r ≡ record_of ask.prune Told.Done) result
            tally.new }
        ensures parts { tally.new.parts ≡ tally.old.parts }
        ensures memory { IfErr result (λ e. e ≡ Refusal.Memory) }
    {
        let evicted = call!(self, tally, prune())?;
        drop(evicted);
        Ok(())
    }

    /// Sets the capacity, in the unit of the charges, and evicts idle entries, least recently
    /// released first, while the total is above it. Pinned entries stay.
    ///
    /// If the call is refused, the capacity stays as it was.
    pub fn set_capacity(&self, tally: &mut Tally<K, I>, capacity: u64) -> Result<(), Refusal>
        ensures tallied { IsTallied tally.old
            (λ _ r. r ≡ record_of (ask.set_capacity capacity) Told.Done) result tally.new }
        ensures parts { tally.new.parts ≡ tally.old.parts }
        ensures memory { IfErr result (λ e. e ≡ Refusal.Memory) }
    {
        let evicted = call!(self, tally, set_capacity(capacity))?;
        drop(evicted);
        Ok(())
    }

    /// Returns the sum of the charges of all entries, including those being made and detached ones.
    pub fn total(&self, tally: &mut Tally<K, I>) -> Result<u64, Refusal>
        ensures tallied { IsTallied tally.old
            (λ total r. r ≡ record_of ask.total (Told.Total total)) result tally.new }
        ensures parts { tally.new.parts ≡ tally.old.parts }
        ensures memory { IfErr result (λ e. e ≡ Refusal.Memory) }
    {
        call!(self, tally, total())
    }

    /// Returns the journal to whoever has the whole tally. Its records are one legal history from
    /// the empty cache with the opening's capacity, whatever was set since, and position by
    /// position they are exactly the tally's receipts: each accepted call occurs once.
    pub fn into_journal(self, tally: Tally<K, I>) -> Journal<K, V>
        requires { tally.parts ≡ all_parts }
        ensures exactly { AreExactly result.records tally.receipts }
        ensures history { IsHistory K.eq result }
        ensures began { result.began ≡ I.name.capacity }
    {
        let Twin { door } = self;
        let journal = door.close(tally);
        // `records` states the journal's invariant as a clause.
        let _records = journal.records();
        journal
    }
}

impl<K: Hash + Eq + Clone, I: Identity> Tally<K, I> {
    /// Splits off one part of a tally that has two or more, without receipts. Acquires no lock and
    /// takes no memory.
    pub fn split<V, R>(&mut self, cache: &Twin<K, V, R, I>) -> Tally<K, I>
        requires { 1 < self.old.parts }
        ensures given { result ≡ hand 1 [] }
        ensures kept { self.new ≡ hand (self.old.parts - 1) self.old.receipts }
    {
        let pass = cache.door.cell().split_pass::<OnePart>(&mut self.pass);
        Tally {
            pass,
            twin: PhantomData,
        }
    }

    /// Takes in another tally's parts and receipts. Acquires no lock and takes no memory.
    pub fn join<V, R>(&mut self, cache: &Twin<K, V, R, I>, other: Tally<K, I>)
        ensures { self.new ≡ hand_with_hand self.old other }
    {
        let Tally { mut pass, twin: _ } = other;
        let cell = cache.door.cell();
        let given = take_tally(cell, &mut pass);
        add_tally(cell, &mut self.pass, given);
    }
}
