//! What a caller of the twin holds of an entry: its stamp and its value.
//!
//! Only `release` and `release_and_evict` release a pin, since a release has to be recorded.
ghost use Rattle.std.specs.Prelude.{◌≡◌};
ghost use Rattle.std.specs.Arc.{arc_value};
ghost use Rattle.lru_journal.specs.Replay.{told_of_begun, told_of_found};
ghost use Rattle.lru_journal.specs.Calls.{twin_pin, told_of_started, told_of_pin};

use concurrent_lru::lru_core::Begun;
use std::marker::Model;
use std::sync::Arc;

/// A pin of an entry: its stamp, and its value. Dropping it releases nothing.
#[derive(Drop)]
pub struct Pin<V> {
    stamp: u64,
    value: Arc<V>,
}

impl<V> Model for Pin<V> {
    ghost use Rattle.lru_journal.specs.Pins.{TwinPin};
    ghost use Rattle.std.specs.Arc.{arc_value};

    ghost Value = { TwinPin V };

    ghost view = { λ p. record { stamp = p.stamp; value = arc_value p.value } };
}

impl<V> Pin<V> {
    /// Creates the pin of the entry with this stamp and this value.
    pub fn new(stamp: u64, value: Arc<V>) -> Pin<V>
        ensures { result ≡ twin_pin stamp (arc_value value) }
    {
        Pin { stamp, value }
    }

    /// Returns the stamp of the entry.
    pub fn stamp(&self) -> u64
        ensures { result ≡ self.now.stamp }
    {
        self.stamp
    }

    /// Returns the value. Acquires no lock.
    pub fn value(&self) -> &V
        ensures { result.now ≡ self.now.value }
    {
        &self.value
    }
}

/// The result of the twin's `begin` and `poll`.
#[derive(Drop)]
pub enum Started<V> {
    /// The caller is to make the value of the entry with this stamp, and then calls `ready` or
    /// `fail`.
    Make(u64),
    /// Another caller is making it; ask again by `poll`.
    Wait(u64),
    /// The value is ready.
    Hit(Pin<V>),
}

impl<V> Started<V> {
    pub(crate) fn of(begun: Begun<V>) -> Started<V>
        ensures { told_of_started result ≡ told_of_begun begun }
    {
        match begun {
            Begun::Make(stamp) => Started::Make(stamp),
            Begun::Wait(stamp) => Started::Wait(stamp),
            Begun::Hit(stamp, value) => Started::Hit(Pin::new(stamp, value)),
        }
    }
}

// Converts the result of `get` to a pin.
pub(crate) fn pin_of<V>(found: Option<(u64, Arc<V>)>) -> Option<Pin<V>>
    ensures { told_of_pin result ≡ told_of_found found }
{
    match found {
        Some((stamp, value)) => Some(Pin::new(stamp, value)),
        None => None,
    }
}
