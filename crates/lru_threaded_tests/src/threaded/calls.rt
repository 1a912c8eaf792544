//! Calls on a cache that threads share, as data.

/// What is done with the handle that a call returns.
#[derive(Clone, Copy, Debug)]
pub enum Then {
    /// It is dropped at once.
    AtOnce,
    /// It is kept in this slot, and the previous content of the slot is dropped.
    Keep(usize),
    /// It is forgotten, so its pin is never released.
    Forget,
}

/// A call. Keys come first, then charges, then the value that an `init` would return.
#[derive(Clone, Copy, Debug)]
pub enum ThreadedCall {
    /// `get` with a key.
    Get(u64, Then),
    /// `read` with a key, by a reader that copies the value.
    Read(u64),
    /// `contains` with a key.
    Contains(u64),
    /// `get_or_init` with a key, a charge, and an `init` that returns this value.
    Init(u64, u64, u64, Then),
    /// `get_or_try_init` with a key, a charge, and an `init` that returns this value.
    TryInit(u64, u64, u64, Then),
    /// `get_or_try_init` with a key, a charge, and an `init` that fails.
    Fail(u64, u64, Then),
    /// Drops what is in this slot.
    LetGo(usize),
    /// `advice_evict` with a key.
    AdviceEvict(u64),
    /// `invalidate` with a key.
    Invalidate(u64),
    /// `insert` with a key, a charge and a value.
    Insert(u64, u64, u64, Then),
    /// `prune`.
    Prune,
    /// `set_capacity` with a capacity.
    SetCapacity(u64),
    /// `reserve` with a number of entries.
    Reserve(usize),
    /// `set_strict_limit`.
    SetStrict(bool),
    /// `total_charge`.
    Total,
    /// `reset_counts`.
    ResetCounts,
    /// Each call that returns what a cache says of itself.
    View,
}
