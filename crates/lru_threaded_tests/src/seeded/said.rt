//! The answers to calls. An answer shows whether an `init` ran, and with which key.

use concurrent_lru::lru_core::Refusal;

/// The answer to a call.
#[derive(Clone, Copy, Debug)]
pub(crate) enum Said {
    /// A handle, and `init` ran: its key, and the handle's value.
    Made(u64, u64),
    /// This value, without a handle.
    Read(u64),
    /// Whether the key has a value.
    Contains(bool),
    /// A handle of this value, and no `init` ran.
    Found(u64),
    /// A handle of this value, which was inserted.
    Put(u64),
    /// No handle and no value.
    Absent,
    /// `init` failed: its key.
    Failed(u64),
    /// A refusal.
    Refused(Refusal),
    /// The call has no answer.
    Done,
}
