//! The entries of a cache that have a value, as C gets them.
ghost use Rattle.std.specs.Prelude.{◌≡◌, ◌==◌, ⊤, MatchBool};
ghost use Rattle.concurrent_lru.specs.ReadyEntries.{entry_of_ref};
ghost use Rattle.lru_c.specs.Codes as codes;
ghost use Rattle.lru_c.specs.Entries.{Shows, TellsEntry, TellsEntries};

use crate::code;
use crate::told::{LruPin, LruTold};
use crate::values::State;
use concurrent_lru::lru_core::EntryRef;
use std::hash::Hash;

/// An entry of a cache that has a value.
#[repr(C)]
#[derive(Clone, Copy, PartialEq, Eq)]
pub struct LruEntry {
    /// Names the entry.
    pub pin: LruPin,
    /// The value.
    pub value: u64,
    /// What the entry adds to the total.
    pub charge: u64,
    /// How many pins the entry has: 0 if it is idle.
    pub pins: u32,
    /// 1 if the entry is held and its key no longer finds it, otherwise 0.
    pub is_detached: u32,
}

impl LruEntry {
    fn of<K>(entry: &EntryRef<'_, K, u64>) -> LruEntry
        ensures { Shows (entry_of_ref entry.now) result }
    {
        LruEntry {
            pin: LruPin::of(entry.stamp, entry.hint),
            value: *entry.value,
            charge: entry.charge,
            pins: entry.pins,
            is_detached: if entry.is_detached { 1 } else { 0 },
        }
    }
}

// Writes the entry with the stamp of a pin, if there is one and it has a value.
pub(crate) fn write_entry<K: Hash + Eq + Clone>(
    state: &State<K>,
    pin: LruPin,
    out: &mut LruEntry,
) -> u32
    ensures told { TellsEntry state.now.cache pin.stamp result out.new }
    ensures kept { MatchBool (result == codes.done) ⊤ (out.new ≡ out.old) }
{
    match state.entry_at(&pin.spot()) {
        Some(entry) => {
            *out = LruEntry::of(&entry);
            code::DONE
        }
        None => code::STALE,
    }
}

// Writes all entries that have a value to the start of a buffer, if it has room for them.
pub(crate) fn write_entries<K: Hash + Eq + Clone>(state: &State<K>, out: &mut [LruEntry]) -> LruTold
    ensures { TellsEntries state.now.cache result out.old out.new }
{
    let mut written = 0;
    for entry in state.entries() {
        if written == out.len() {
            return LruTold::number(code::NO_ROOM, state.len() as u64);
        }
        out[written] = LruEntry::of(&entry);
        written += 1;
    }
    LruTold::number(code::NUMBER, written as u64)
}
