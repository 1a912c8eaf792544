//! The calls of C on clocks and readers.
ghost use Rattle.std.specs.Prelude.{◌≡◌, ◌==◌, ⊤, None, MatchBool, MatchOption};
ghost use Rattle.lru_c.specs.Clocks.{bare_found, found, number_of, Adds, AreCounts, BeginsMaking};
ghost use Rattle.lru_c.specs.Clocks.{Erases, Fails, Frees, IsLookup, IsLookupAt, IsNewClock};
ghost use Rattle.lru_c.specs.Clocks.{IsRelease, LeavesAt, LeavesOne, OnClock, OnReader, Readies};
ghost use Rattle.lru_c.specs.Clocks.{ReleasesAt, Reserves, StoresOver, WritesLeft};
ghost use Rattle.lru_c.specs.Codes as codes;
ghost use Rattle.lru_c.specs.Opened.{Opens};
ghost use Rattle.lru_c.specs.WordsCalls.{words};

use crate::clock::handles::{LruClock, LruReader};
use crate::clock::locked::{Clock, ClockNumber};
use crate::clock::told::{LruClockCounts, LruFound, LruLeft};
use crate::code;
use crate::handle::{Handle, open_new, take};
use crate::words::key::Words;
use std::alloc::Global;

/// Opens an empty clock. Entries are evicted while the total of their charges is above the
/// capacity.
///
/// Returns `OPEN` if the handle is already open, and `MEMORY` if the allocator refuses. The handle
/// is unchanged then.
#[unsafe(no_mangle)]
pub extern "C" fn lru_clock_new(alloc: Global, capacity: u64, out: &mut LruClock) -> u32
    ensures { Opens (out.old.is_open == 1) out.old.clock.held (IsNewClock capacity) result
        out.new.clock.held }
{
    if out.is_open == 1 {
        return code::OPEN;
    }
    match Clock::new(alloc, capacity) {
        Ok(clock) => open_new(alloc, clock, false, out),
        Err(_) => code::MEMORY,
    }
}

/// Frees a clock that has no entries and for which no value is being made, and closes its handle.
/// What its readers share is freed with the last of them.
///
/// Returns `NOT_EMPTY` if the clock has entries, pinned or not, or a making has not ended, and
/// `CLOSED` if the handle is not open. Nothing changes then.
#[unsafe(no_mangle)]
pub extern "C" fn lru_clock_free(clock: &mut LruClock) -> u32
    ensures { Frees clock.old.clock.held result clock.new.clock.held }
{
    match clock.get_mut() {
        Some(locked) => {
            if locked.len() != 0 || !locked.has_no_makings() {
                return code::NOT_EMPTY;
            }
        }
        None => return code::CLOSED,
    }
    drop(take(clock));
    code::DONE
}

/// Opens a reader of a clock, for a thread.
///
/// Returns `OPEN` if the reader is already open, `CLOSED` if the clock is not open, and `MEMORY` if
/// the allocator refuses. The reader is unchanged then. The clock is unchanged in any case.
#[unsafe(no_mangle)]
pub extern "C" fn lru_reader_new(alloc: Global, clock: &mut LruClock, out: &mut LruReader) -> u32
    ensures same { clock.new.clock.held ≡ clock.old.clock.held }
    ensures code { MatchOption clock.old.clock.held (result ≡ codes.closed)
        (λ _. Opens (out.old.is_open == 1) out.old.reader.held (λ _. ⊤) result
        out.new.reader.held) }
{
    let Some(clock) = clock.get_mut() else {
        return code::CLOSED;
    };
    if out.is_open == 1 {
        return code::OPEN;
    }
    match clock.reader() {
        Ok(reader) => open_new(alloc, reader, false, out),
        Err(_) => code::MEMORY,
    }
}

/// Frees a reader, and closes its handle. No pin is given back.
///
/// Returns `CLOSED` if the handle is not open.
#[unsafe(no_mangle)]
pub extern "C" fn lru_reader_free(reader: &mut LruReader) -> u32
    ensures closed { reader.new.reader.held ≡ None }
    ensures code { MatchOption reader.old.reader.held (result ≡ codes.closed)
        (λ _. result ≡ codes.done) }
{
    match take(reader) {
        Some(taken) => {
            drop(taken);
            code::DONE
        }
        None => code::CLOSED,
    }
}

/// Pins the entry of a key, without the lock, and returns `HIT` with its value and its place, or
/// `MISSED`. It may miss an entry while another thread adds one.
///
/// Returns `OVERFLOW` if the entry has the maximum number of pins, and `CLOSED` if the handle is
/// not open.
#[unsafe(no_mangle)]
pub extern "C" fn lru_reader_pin(
    reader: &mut LruReader,
    hash: u64,
    first: u64,
    second: u64,
) -> LruFound
    ensures { OnReader reader.old.reader.held (result ≡ bare_found codes.closed)
        reader.new.reader.held (IsLookup result) }
{
    match reader.get_mut() {
        Some(reader) => reader.pin(hash, &Words { first, second }),
        None => LruFound::bare(code::CLOSED),
    }
}

/// Pins whatever entry is at a place, even an invalidated one, without the lock: for another pin of
/// an entry that is pinned, and to visit all entries. Returns `HIT` with its value and its place,
/// or `MISSED` if there is none.
///
/// Returns `OVERFLOW` if the entry has the maximum number of pins, and `CLOSED` if the handle is
/// not open.
#[unsafe(no_mangle)]
pub extern "C" fn lru_reader_pin_at(reader: &mut LruReader, place: u32) -> LruFound
    ensures { OnReader reader.old.reader.held (result ≡ bare_found codes.closed)
        reader.new.reader.held (IsLookupAt place result) }
{
    match reader.get_mut() {
        Some(reader) => reader.pin_at(place),
        None => LruFound::bare(code::CLOSED),
    }
}

/// Gives back a pin of the entry at a place, without the lock. If the entry has no other pin,
/// returns `LAST` if it was invalidated: it is to be collected under the lock. Returns `ABOVE` then
/// if it was not, and the total was above the capacity after the last call under the lock: room for
/// a charge of 0 is to be made there.
///
/// Returns `STALE` if no entry is at the place, or it has no pin, and `CLOSED` if the handle is not
/// open.
#[unsafe(no_mangle)]
pub extern "C" fn lru_reader_unpin(reader: &mut LruReader, place: u32) -> u32
    ensures { OnReader reader.old.reader.held (result ≡ codes.closed)
        reader.new.reader.held (IsRelease result) }
{
    match reader.get_mut() {
        Some(reader) => reader.unpin(place),
        None => code::CLOSED,
    }
}

/// Evicts one entry, if another charge would take the total above the capacity and there is an
/// entry that nobody has pinned. Returns `GONE` with the entry, or `DONE` if none left.
///
/// Returns `CLOSED` if the handle is not open.
#[unsafe(no_mangle)]
pub extern "C" fn lru_clock_make_room(clock: &mut LruClock, charge: u64, left: &mut LruLeft) -> u32
    ensures told { OnClock clock.old.clock.held result clock.new.clock.held
        (λ o n. LeavesOne o.seats result n.seats) }
    ensures kept { MatchBool (result == codes.gone) ⊤ (left.new ≡ left.old) }
{
    match clock.get_mut() {
        Some(clock) => clock.make_room(charge, left),
        None => code::CLOSED,
    }
}

/// Adds an entry and pins it, and returns `DONE` with its value and its place. If the key has an
/// entry, pins that instead, and returns `HIT` as a lookup does; the value is not taken then.
/// Evicts nothing: make room first. If another caller makes a value for the key, later callers wait
/// for that no more, and only its maker will get it.
///
/// Returns `NO_CHARGE` if the charge is 0, `FULL` if the call is strict and the charge would take
/// the total above the capacity, `MEMORY` if the allocator refuses, `OVERFLOW` if a number would
/// overflow, and `CLOSED` if the handle is not open. No entry has changed then, and the value is
/// not taken.
#[unsafe(no_mangle)]
pub extern "C" fn lru_clock_add(
    clock: &mut LruClock,
    hash: u64,
    first: u64,
    second: u64,
    charge: u64,
    value: u64,
    strict: bool,
) -> LruFound
    ensures { OnClock clock.old.clock.held result.code clock.new.clock.held
        (λ o n. Adds (words first second) charge value strict o result n) }
{
    match clock.get_mut() {
        Some(clock) => clock.add(hash, &Words { first, second }, charge, value, strict),
        None => LruFound::bare(code::CLOSED),
    }
}

/// Makes room for an entry, stores it in place of the key's, and pins it. Returns `DONE` with its
/// value and its place; or `REPLACED` with them, if another entry has left, which is written; or
/// `GONE` if one has left, and another has to leave first: nothing is stored then, so call again.
/// The key's entry leaves last. If it is pinned, it is invalidated instead, and to be collected
/// after its last pin. After `DONE` and `REPLACED`, a value that is being made for the key is for
/// its maker alone, and the total has grown by the charge, less that of the entry that left, if one
/// has. After a strict call it is within the capacity.
///
/// Returns `NO_CHARGE` if the charge is 0, `FULL` if the call is strict and evicting all that can
/// be evicted would leave too little room, `MEMORY` if the allocator refuses, `OVERFLOW` if a
/// number would overflow, and `CLOSED` if the handle is not open. No entry has changed then, and
/// the value is not taken.
#[unsafe(no_mangle)]
pub extern "C" fn lru_clock_insert(
    clock: &mut LruClock,
    hash: u64,
    first: u64,
    second: u64,
    charge: u64,
    value: u64,
    strict: bool,
    left: &mut LruLeft,
) -> LruFound
    ensures told { OnClock clock.old.clock.held result.code clock.new.clock.held
        (λ o n. StoresOver (words first second) charge value strict o result n) }
    ensures kept { WritesLeft result.code left.old left.new }
{
    match clock.get_mut() {
        Some(clock) => clock.insert(hash, &Words { first, second }, charge, value, strict, left),
        None => LruFound::bare(code::CLOSED),
    }
}

/// Pins the entry of a key, and returns `HIT` with its value and its place; or begins the making of
/// its value, and returns `MAKE` with the ticket as the value: the caller makes the value, and then
/// calls `ready` or `fail`. If another caller is making it, returns `WAIT`: call again after a
/// making of this clock has ended. Evicts nothing.
///
/// Returns `NO_CHARGE` if the charge is 0, `MEMORY` if the allocator refuses, `OVERFLOW` if a
/// number would overflow, and `CLOSED` if the handle is not open. Nothing changes then.
#[unsafe(no_mangle)]
pub extern "C" fn lru_clock_begin(
    clock: &mut LruClock,
    hash: u64,
    first: u64,
    second: u64,
    charge: u64,
) -> LruFound
    ensures { OnClock clock.old.clock.held result.code clock.new.clock.held
        (λ o n. BeginsMaking (words first second) charge o result n) }
{
    match clock.get_mut() {
        Some(clock) => clock.begin(hash, &Words { first, second }, charge),
        None => LruFound::bare(code::CLOSED),
    }
}

/// Ends a making, adds an entry of its key with this value and pins it, and returns `DONE` with the
/// value and the place. If the key was erased, added or inserted meanwhile, the entry is already
/// invalidated, and only this caller gets it. Evicts nothing.
///
/// Returns `NO_CHARGE` if the charge is 0, and `FULL` if the call is strict and the charge would
/// take the total above the capacity, whatever the ticket; a making goes on then. Returns `STALE`
/// if no making has the ticket, and `CLOSED` if the handle is not open. Returns `MEMORY` if the
/// allocator refuses, and `OVERFLOW` if a number would overflow; the making has then ended as
/// `fail` ends it. The value is taken with `DONE` only.
#[unsafe(no_mangle)]
pub extern "C" fn lru_clock_ready(
    clock: &mut LruClock,
    ticket: u64,
    hash: u64,
    charge: u64,
    value: u64,
    strict: bool,
) -> LruFound
    ensures { OnClock clock.old.clock.held result.code clock.new.clock.held
        (λ o n. Readies ticket charge value strict o result n) }
{
    match clock.get_mut() {
        Some(clock) => clock.ready(ticket, hash, charge, value, strict),
        None => LruFound::bare(code::CLOSED),
    }
}

/// Ends a making that failed, and returns `DONE`.
///
/// Returns `STALE` if no making has the ticket, and `CLOSED` if the handle is not open. Nothing
/// changes then.
#[unsafe(no_mangle)]
pub extern "C" fn lru_clock_fail(clock: &mut LruClock, ticket: u64) -> u32
    ensures { OnClock clock.old.clock.held result clock.new.clock.held
        (λ o n. Fails ticket o result n) }
{
    match clock.get_mut() {
        Some(clock) => clock.fail(ticket),
        None => code::CLOSED,
    }
}

/// Pins the entry of a key, as `lru_reader_pin` does, under the lock, where no entry is missed.
///
/// Returns `OVERFLOW` if the entry has the maximum number of pins, and `CLOSED` if the handle is
/// not open.
#[unsafe(no_mangle)]
pub extern "C" fn lru_clock_find(
    clock: &mut LruClock,
    hash: u64,
    first: u64,
    second: u64,
) -> LruFound
    ensures { OnClock clock.old.clock.held result.code clock.new.clock.held
        (λ o n. IsLookup result × (n ≡ o)) }
{
    match clock.get_mut() {
        Some(clock) => clock.find(hash, &Words { first, second }),
        None => LruFound::bare(code::CLOSED),
    }
}

/// Invalidates the entry of a key: no lookup that begins later finds it. If nobody has pinned it,
/// it leaves, and `GONE` is returned with it, otherwise `DONE`: it is then to be collected after
/// its last pin. No other entry leaves. A value that is being made for the key is then for its
/// maker alone.
///
/// Returns `CLOSED` if the handle is not open.
#[unsafe(no_mangle)]
pub extern "C" fn lru_clock_erase(
    clock: &mut LruClock,
    hash: u64,
    first: u64,
    second: u64,
    left: &mut LruLeft,
) -> u32
    ensures told { OnClock clock.old.clock.held result clock.new.clock.held
        (λ o n. Erases hash (words first second) o result n) }
    ensures kept { MatchBool (result == codes.gone) ⊤ (left.new ≡ left.old) }
{
    match clock.get_mut() {
        Some(clock) => clock.erase(hash, &Words { first, second }, left),
        None => code::CLOSED,
    }
}

/// Gives back a pin of the entry at a place, and takes out the entry if nobody else has pinned it.
/// Returns `GONE` with the entry, or `DONE` if others have pinned it.
///
/// Returns `STALE` if no entry is at the place, or it has no pin, and `CLOSED` if the handle is not
/// open. Nothing changes then.
#[unsafe(no_mangle)]
pub extern "C" fn lru_clock_release_and_evict(
    clock: &mut LruClock,
    place: u32,
    left: &mut LruLeft,
) -> u32
    ensures told { OnClock clock.old.clock.held result clock.new.clock.held
        (λ o n. ReleasesAt place o result n) }
    ensures kept { MatchBool (result == codes.gone) ⊤ (left.new ≡ left.old) }
{
    match clock.get_mut() {
        Some(clock) => clock.release_and_evict(place, left),
        None => code::CLOSED,
    }
}

/// Takes out the entry at a place, if it was invalidated and nobody has pinned it. Returns `GONE`
/// with the entry, or `DONE` if none left.
///
/// Returns `CLOSED` if the handle is not open.
#[unsafe(no_mangle)]
pub extern "C" fn lru_clock_collect(clock: &mut LruClock, place: u32, left: &mut LruLeft) -> u32
    ensures told { OnClock clock.old.clock.held result clock.new.clock.held
        (λ o n. LeavesAt place o result n) }
    ensures kept { MatchBool (result == codes.gone) ⊤ (left.new ≡ left.old) }
{
    match clock.get_mut() {
        Some(clock) => clock.collect(place, left),
        None => code::CLOSED,
    }
}

/// Evicts the first entry that nobody has pinned, from the place `next` on, and sets `next` to its
/// place. Returns `GONE` with the entry, or `DONE` if none left.
///
/// Returns `CLOSED` if the handle is not open.
#[unsafe(no_mangle)]
pub extern "C" fn lru_clock_prune(clock: &mut LruClock, next: &mut u32, left: &mut LruLeft) -> u32
    ensures told { OnClock clock.old.clock.held result clock.new.clock.held
        (λ o n. LeavesAt next.new o result n) }
    ensures kept { MatchBool (result == codes.gone) ⊤
        ((left.new ≡ left.old) × (next.new ≡ next.old)) }
{
    match clock.get_mut() {
        Some(clock) => clock.prune(next, left),
        None => code::CLOSED,
    }
}

/// Sets the capacity. Evicts nothing: make room for a charge of 0 then, until no entry leaves.
///
/// Returns `CLOSED` if the handle is not open.
#[unsafe(no_mangle)]
pub extern "C" fn lru_clock_set_capacity(clock: &mut LruClock, capacity: u64) -> u32
    ensures { OnClock clock.old.clock.held result clock.new.clock.held
        (λ o n. (result ≡ codes.done) × (n.capacity ≡ capacity) × (n.seats ≡ o.seats)) }
{
    match clock.get_mut() {
        Some(clock) => {
            clock.set_capacity(capacity);
            code::DONE
        }
        None => code::CLOSED,
    }
}

/// Adds places until there are as many as `entries`, so that no entry needs memory while the clock
/// has at most that many.
///
/// Returns `DONE`, or `MEMORY` if the allocator refuses, `OVERFLOW` if a clock cannot have as many
/// places, and `CLOSED` if the handle is not open. No entry changes in any case, but places that
/// were added stay.
#[unsafe(no_mangle)]
pub extern "C" fn lru_clock_reserve(clock: &mut LruClock, entries: usize) -> u32
    ensures { OnClock clock.old.clock.held result clock.new.clock.held
        (λ o n. Reserves o result n) }
{
    match clock.get_mut() {
        Some(clock) => clock.reserve(entries),
        None => code::CLOSED,
    }
}

/// Writes what has happened since the clock was opened, and what it holds, and returns `DONE`.
///
/// Returns `CLOSED` if the handle is not open. Nothing is written then.
#[unsafe(no_mangle)]
pub extern "C" fn lru_clock_stats(clock: &mut LruClock, out: &mut LruClockCounts) -> u32
    ensures told { OnClock clock.old.clock.held result clock.new.clock.held
        (λ o n. (result ≡ codes.done) × AreCounts o out.new × (n ≡ o)) }
    ensures kept { MatchBool (result == codes.done) ⊤ (out.new ≡ out.old) }
{
    let Some(clock) = clock.get_mut() else {
        return code::CLOSED;
    };
    *out = clock.counts();
    code::DONE
}

/// Returns the sum of the charges of all entries, or `CLOSED` if the handle is not open.
#[unsafe(no_mangle)]
pub extern "C" fn lru_clock_total(clock: &mut LruClock) -> LruFound
    ensures { OnClock clock.old.clock.held result.code clock.new.clock.held
        (λ o n. (result ≡ found codes.number (number_of ClockNumber.Total o) 0) × (n ≡ o)) }
{
    tell(clock, ClockNumber::Total)
}

/// Returns the capacity, or `CLOSED` if the handle is not open.
#[unsafe(no_mangle)]
pub extern "C" fn lru_clock_capacity(clock: &mut LruClock) -> LruFound
    ensures { OnClock clock.old.clock.held result.code clock.new.clock.held
        (λ o n. (result ≡ found codes.number (number_of ClockNumber.Capacity o) 0) × (n ≡ o)) }
{
    tell(clock, ClockNumber::Capacity)
}

/// Returns the number of places, or `CLOSED` if the handle is not open. Each entry is at a place
/// below it.
#[unsafe(no_mangle)]
pub extern "C" fn lru_clock_places(clock: &mut LruClock) -> LruFound
    ensures { OnClock clock.old.clock.held result.code clock.new.clock.held
        (λ o n. (result ≡ found codes.number (number_of ClockNumber.Places o) 0) × (n ≡ o)) }
{
    tell(clock, ClockNumber::Places)
}

fn tell(clock: &mut LruClock, which: ClockNumber) -> LruFound
    ensures { OnClock clock.old.clock.held result.code clock.new.clock.held
        (λ o n. (result ≡ found codes.number (number_of which o) 0) × (n ≡ o)) }
{
    match clock.get_mut() {
        Some(clock) => clock.tell(which),
        None => LruFound::bare(code::CLOSED),
    }
}

/// Returns the number of entries, or `CLOSED` if the handle is not open.
#[unsafe(no_mangle)]
pub extern "C" fn lru_clock_len(clock: &mut LruClock) -> LruFound
    ensures { OnClock clock.old.clock.held result.code clock.new.clock.held
        (λ o n. (result.code ≡ codes.number) × (n ≡ o)) }
{
    match clock.get_mut() {
        Some(clock) => LruFound::number(clock.len() as u64),
        None => LruFound::bare(code::CLOSED),
    }
}

/// Returns the sum of the charges of the pinned entries, or `CLOSED` if the handle is not open.
/// Visits every place.
#[unsafe(no_mangle)]
pub extern "C" fn lru_clock_pinned_charge(clock: &mut LruClock) -> LruFound
    ensures { OnClock clock.old.clock.held result.code clock.new.clock.held
        (λ o n. (result.code ≡ codes.number) × (n ≡ o)) }
{
    match clock.get_mut() {
        Some(clock) => LruFound::number(clock.pinned_charge()),
        None => LruFound::bare(code::CLOSED),
    }
}
