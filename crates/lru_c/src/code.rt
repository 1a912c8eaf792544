//! The codes that calls return to C, as `lru.h` lists them.

/// The caller makes the value; in a cache, its entry is pinned.
pub const MAKE: u32 = 0;
/// Another caller makes the value; in a cache, its entry is pinned.
pub const WAIT: u32 = 1;
/// Pinned; the value is returned.
pub const HIT: u32 = 2;
/// Done.
pub const DONE: u32 = 3;
/// A making was given up while others wait.
pub const LEFT: u32 = 4;
/// A making was given up and its entry removed.
pub const REMOVED: u32 = 5;
/// No ready entry has the key.
pub const MISSED: u32 = 6;
/// Refused: a number would overflow.
pub const OVERFLOW: u32 = 7;
/// Refused: the stamp, the place or the ticket names nothing that the call is for.
pub const STALE: u32 = 8;
/// Refused: the allocator refused memory.
pub const MEMORY: u32 = 9;
/// The number that was asked for is returned.
pub const NUMBER: u32 = 10;
/// Refused: a charge of 0.
pub const NO_CHARGE: u32 = 11;
/// Refused: a limit of 0 pins.
pub const NO_PINS: u32 = 12;
/// Refused: a handle that is not open.
pub const CLOSED: u32 = 14;
/// Refused: a handle that is open already.
pub const OPEN: u32 = 15;
/// Refused: a chain or a clock that still holds entries, or a clock with a making.
pub const NOT_EMPTY: u32 = 16;
/// Refused: a buffer that is too small.
pub const NO_ROOM: u32 = 17;
/// Pinned once more; the value is returned.
pub const PINNED: u32 = 18;
/// Refused: a key of bytes for a cache whose keys are two words, or the other way round.
pub const OTHER_KEYS: u32 = 19;
/// Refused: the held entries leave the capacity no room for the charge.
pub const FULL: u32 = 20;
/// Refused: a kind of keys that does not exist.
pub const NO_KIND: u32 = 21;
/// An entry has left the clock, and is returned; others may still have to leave.
pub const GONE: u32 = 22;
/// Done; the entry was invalidated, and this was its last pin, so it waits to be collected.
pub const LAST: u32 = 23;
/// Stored and pinned; another entry has left the clock for it, and is returned.
pub const REPLACED: u32 = 24;
/// Done; nobody else has pinned the entry, and the total is above the capacity.
pub const ABOVE: u32 = 25;
