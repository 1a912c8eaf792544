//! Scripts: calls on a cache without a lock, and what is shown of them.
//!
//! The value of a key is the key itself. A charge of 0 counts as 1, the minimum.
ghost use Rattle.std.specs.Prelude.{◌<◌};

use crate::rows::line::Line;
use concurrent_lru::lru_core::{Begun, Evicted, Failed, Refusal, State};
use std::alloc::Global;
use std::sync::Arc;

/// A new cache, and the acts on it, in lines.
#[derive(Clone, Copy)]
pub struct Script(pub Cache, pub &'static [&'static [Act]]);

/// A new, empty cache.
#[derive(Clone, Copy)]
pub enum Cache {
    /// One with this capacity.
    Of(u64),
    /// One of capacity 10 with no stamps left.
    AtLastStamp,
    /// One of capacity 10 whose entries have at most one pin each.
    OfOnePin,
}

/// An act on a cache. A refusal ends the script unless the act shows it.
#[derive(Clone, Copy)]
pub enum Act {
    /// Makes the value of a key at a charge, if there is none, and releases the pin.
    Make(u64, u64),
    /// The same, but keeps the pin.
    Hold(u64, u64),
    /// Releases a pin of the entry with this stamp.
    Release(u64),
    /// Sets the capacity.
    SetCapacity(u64),
    /// Begins to make the value of a key at a charge, and gives up the making. Shows the keys that
    /// were evicted so far, and whether the making succeeded.
    MakeInVain(u64, u64),
    /// Looks up a key and releases the pin, like a handle that is dropped at once. Shows whether it
    /// was found, or the refusal.
    Find(u64),
    /// Shows the keys that were evicted so far.
    Evicted,
    /// Evicts all idle entries, and shows only their keys.
    Prune,
    /// Shows the total.
    Total,
    /// Begins on a key at a charge. Shows the answer or the refusal.
    Begin(u64, u64),
    /// Asks again for the entry with this stamp. Shows the answer or the refusal.
    Poll(u64),
    /// Stores the value of the entry with this stamp. Shows whether it was returned.
    Ready(u64),
    /// Gives up the making of the entry with this stamp. Shows the answer or the refusal.
    Fail(u64),
    /// Releases a pin of the entry with this stamp. Shows the keys that this evicts, or the
    /// refusal.
    GiveBack(u64),
}

/// Runs scripts, one after another.
pub fn run(alloc: Global, scripts: &[Script], line: &mut Line) -> Result<(), Refusal> {
    for Script(cache, acts) in scripts {
        let mut stage = Stage {
            alloc,
            state: cache.new(alloc),
            evicted: Vec::new(alloc),
        };
        for act in acts.iter().flat_map(|line| line.iter()) {
            stage.act(*act, line)?;
        }
    }
    Ok(())
}

impl Cache {
    fn new(self, alloc: Global) -> State<u64, u64> {
        match self {
            Cache::Of(capacity) => State::new(alloc, capacity),
            Cache::AtLastStamp => State::with_limits(alloc, 10, u64::MAX, 5),
            Cache::OfOnePin => State::with_limits(alloc, 10, 0, 1),
        }
    }
}

// A cache, and the keys that it has evicted.
#[derive(Drop)]
struct Stage {
    alloc: Global,
    state: State<u64, u64>,
    evicted: Vec<u64>,
}

impl Stage {
    fn act(&mut self, act: Act, line: &mut Line) -> Result<(), Refusal> {
        match act {
            Act::Make(key, charge) => {
                let stamp = self.hold(key, charge)?;
                self.release(stamp)
            }
            Act::Hold(key, charge) => self.hold(key, charge).map(|_stamp| ()),
            Act::Release(stamp) => self.release(stamp),
            Act::SetCapacity(capacity) => {
                let evicted = self.state.set_capacity(capacity);
                push_keys(&mut self.evicted, evicted)
            }
            Act::MakeInVain(key, charge) => self.make_in_vain(key, charge, line),
            Act::Find(key) => self.find(key, line),
            Act::Evicted => line.show_numbers(&self.evicted),
            Act::Prune => {
                let evicted = self.state.prune();
                self.show_keys(evicted, line)
            }
            Act::Total => line.show(self.state.total()),
            Act::Begin(key, charge) => line.show_begun(self.begin(key, charge)),
            Act::Poll(stamp) => line.show_begun(self.state.poll(stamp)),
            Act::Ready(stamp) => match self.ready(stamp, stamp) {
                Ok(_) => line.show("done"),
                Err(Refusal::Stale) => line.show("back"),
                Err(refusal) => Err(refusal),
            },
            Act::Fail(stamp) => line.show_failed(self.state.fail(stamp)),
            Act::GiveBack(stamp) => match self.state.release(stamp) {
                Ok(evicted) => self.show_keys(evicted, line),
                Err(refusal) => line.show_refusal(refusal),
            },
        }
    }

    // Pins the entry of a key, making its value if there is none, and returns its stamp.
    fn hold(&mut self, key: u64, charge: u64) -> Result<u64, Refusal> {
        match self.begin(key, charge)? {
            Begun::Make(stamp) => self.ready(stamp, key),
            Begun::Wait(stamp) | Begun::Hit(stamp, _) => Ok(stamp),
        }
    }

    fn begin(&mut self, key: u64, charge: u64) -> Result<Begun<u64>, Refusal> {
        let (begun, evicted) = self.state.begin(&key, charge.max(1))?;
        push_keys(&mut self.evicted, evicted)?;
        Ok(begun)
    }

    fn ready(&mut self, stamp: u64, value: u64) -> Result<u64, Refusal> {
        let value = Arc::new(self.alloc, value)?;
        match self.state.ready(stamp, value) {
            Ok(()) => Ok(stamp),
            Err(_) => Err(Refusal::Stale),
        }
    }

    fn release(&mut self, stamp: u64) -> Result<(), Refusal> {
        let evicted = self.state.release(stamp)?;
        push_keys(&mut self.evicted, evicted)
    }

    fn make_in_vain(&mut self, key: u64, charge: u64, line: &mut Line) -> Result<(), Refusal> {
        let is_made = match self.begin(key, charge)? {
            Begun::Make(stamp) => !matches!(self.state.fail(stamp)?, Failed::Removed(_)),
            Begun::Wait(_) | Begun::Hit(..) => true,
        };
        line.show_numbers(&self.evicted)?;
        line.show_made(is_made)
    }

    fn find(&mut self, key: u64, line: &mut Line) -> Result<(), Refusal> {
        match self.state.get(&key) {
            Ok(Some((stamp, _))) => {
                line.show_found(true)?;
                self.release(stamp)
            }
            Ok(None) => line.show_found(false),
            Err(refusal) => line.show_refusal(refusal),
        }
    }

    fn show_keys(&self, evicted: Evicted<u64, u64>, line: &mut Line) -> Result<(), Refusal> {
        let mut keys = Vec::new(self.alloc);
        push_keys(&mut keys, evicted)?;
        line.show_numbers(&keys)
    }
}

/// Adds the keys of evicted entries to a list, oldest first.
///
/// Returns `Memory` if there is no room for one; the list may then have those before it.
pub fn push_keys(keys: &mut Vec<u64>, evicted: Evicted<u64, u64>) -> Result<(), Refusal> {
    for gone in evicted {
        keys.push(gone.key)?;
    }
    Ok(())
}
