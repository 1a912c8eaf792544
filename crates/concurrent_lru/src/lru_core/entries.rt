//! The entries of a cache that have a value: a walk over all of them, and each by its stamp.
ghost use Rattle.std.specs.Prelude.{◌≡◌, None, Some, IfSome, MatchOption};
ghost use Rattle.concurrent_lru.specs.NodeTable.{entry_of};
ghost use Rattle.concurrent_lru.specs.ReadyEntries.{ListsReady, entry_of_ref, ready_at, ready_in, ready_from_node};

use crate::lru_core::State;
use crate::node_table::{Node, Phase, Place};
use crate::share::{ByArc, Sharing, Stored};
use crate::table::{Hint, Spot, Table};
use std::hash::Hash;
use std::iter::FusedIterator;
use std::marker::Model;

/// An entry of a cache by reference. Its value is ready.
#[derive(Debug, Drop)]
pub struct EntryRef<'a, K, V> {
    /// The number that identifies the entry.
    pub stamp: u64,
    /// Where the entry is, for the calls that take a [`Spot`].
    pub hint: Hint,
    /// The cache's own copy of the key.
    pub key: &'a K,
    /// What the entry adds to the total.
    pub charge: u64,
    /// How many pins the entry has: 0 if it is idle.
    pub pins: u32,
    /// Whether the entry was invalidated while it was held, so that its key no longer finds it.
    pub is_detached: bool,
    /// The value.
    pub value: &'a V,
}

/// An iterator over the entries of a cache that have a value, in an unspecified order.
///
/// Clauses see the list of the entries that are left. [`State::entries`] makes one. Taking an entry
/// takes no memory and changes nothing in the cache.
#[derive(Drop)]
pub struct Entries<'a, K: Hash + Eq + Clone, V, M: Sharing<V> = ByArc> {
    table: &'a Table<K, Stored<V, M>>,
    // The number of the next place, and a number above those of all places that have an entry.
    next: usize,
    end: usize,
}

impl<'a, K: Hash + Eq + Clone, V, M: Sharing<V>> Model for Entries<'a, K, V, M> {
    ghost use Rattle.std.specs.Prelude.{List, ◌-◌};
    ghost use Rattle.concurrent_lru.specs.ReadyEntries.{ReadyEntry, ready_between};

    ghost Value = { List (ReadyEntry K V) };

    ghost view = { λ it. ready_between it.table.now it.next (it.end - it.next) };
}

impl<'a, K: Hash + Eq + Clone, V: Drop, M: Sharing<V>> Iterator for Entries<'a, K, V, M>
where
    M::Share: Drop,
{
    ghost use Rattle.std.specs.Iterator.{YieldsFirstBy, item_count};
    ghost use Rattle.concurrent_lru.specs.ReadyEntries.{entry_of_ref};

    type Item = EntryRef<'a, K, V>;

    ghost next_gives = { YieldsFirstBy entry_of_ref (λ rest. rest) };

    ghost remaining = { item_count (λ rest. rest) };

    fn next(&mut self) -> Option<EntryRef<'a, K, V>> {
        while self.next < self.end {
            let place = Place::at(self.next);
            self.next += 1;
            if let Some(entry) = ready_at_place(self.table, place) {
                return Some(entry);
            }
        }
        None
    }
}

impl<'a, K: Hash + Eq + Clone, V: Drop, M: Sharing<V>> FusedIterator for Entries<'a, K, V, M>
where
    M::Share: Drop,
{}

impl<K: Hash + Eq + Clone, V: Drop, M: Sharing<V>> State<K, V, M>
where
    M::Share: Drop,
{
    /// Returns an iterator over the entries that have a value, idle or held, in an unspecified
    /// order. Changes nothing: it pins no entry, and leaves the order of eviction as it is. Takes
    /// no memory.
    ///
    /// Entries whose value is still being made are left out. Entries that were invalidated while
    /// they were held are included, since their holders still use them, and are marked by
    /// `is_detached`; leave these out to see only the entries that keys find.
    ///
    /// An iteration to the end takes time proportional to the greatest number of entries that the
    /// cache ever had at one time.
    pub fn entries(&self) -> Entries<'_, K, V, M>
        ensures { ListsReady self.now.cache result }
    {
        Entries {
            table: &self.table,
            next: 0,
            end: self.table.end_of_places(),
        }
    }

    // Returns a number above those of all places that have an entry.
    pub(crate) fn end_of_places(&self) -> usize {
        self.table.end_of_places()
    }

    // Returns the spot of the entry at a place, if there is one, whether it has a value or not.
    pub(crate) fn spot_in(&self, place: Place) -> Option<Spot> {
        let node = self.table.node_at(place)?;
        let hint = Hint {
            hash: node.hash,
            place,
        };
        Some(Spot {
            stamp: node.stamp,
            hint,
        })
    }

    // Returns the entry at a place, if there is one and it has a value.
    pub(crate) fn entry_in(&self, place: Place) -> Option<EntryRef<'_, K, V>>
        ensures { IfSome result
            (λ entry. ready_at self.now.cache entry.stamp ≡ Some (entry_of_ref entry)) }
    {
        ready_at_place(&self.table, place)
    }

    /// Returns the entry with a stamp, if there is one and it has a value: idle or held, detached
    /// or not. Changes nothing, and takes no memory.
    pub fn entry(&self, stamp: u64) -> Option<EntryRef<'_, K, V>>
        ensures { MatchOption result (ready_at self.now.cache stamp ≡ None)
            (λ entry. ready_at self.now.cache stamp ≡ Some (entry_of_ref entry)) }
    {
        let hint = self.last;
        self.entry_at(&Spot { stamp, hint })
    }

    /// Does what `entry` does, by spot.
    pub fn entry_at(&self, spot: &Spot) -> Option<EntryRef<'_, K, V>>
        ensures { MatchOption result (ready_at self.now.cache spot.now.stamp ≡ None)
            (λ entry. ready_at self.now.cache spot.now.stamp ≡ Some (entry_of_ref entry)) }
    {
        match self.table.find_stamp(spot) {
            Some(found) => ready_at_place(&self.table, found.place),
            None => None,
        }
    }
}

// Returns the entry at a place, if there is one and it has a value.
fn ready_at_place<'a, K: Hash + Eq + Clone, V: Drop, M: Sharing<V>>(
    table: &'a Table<K, Stored<V, M>>,
    place: Place,
) -> Option<EntryRef<'a, K, V>>
where
    M::Share: Drop,
    ensures { MatchOption result (ready_in table.now place ≡ None)
        (λ entry. ready_in table.now place ≡ Some (entry_of_ref entry)) }
{
    match table.node_at(place) {
        Some(node) => shown(node, place),
        None => None,
    }
}

// Returns the entry of a node at a place, if it has a value.
fn shown<'a, K, V, M: Sharing<V>>(
    node: &'a Node<K, Stored<V, M>>,
    place: Place,
) -> Option<EntryRef<'a, K, V>>
    ensures { MatchOption result (ready_from_node (entry_of node.now) ≡ None)
        (λ entry. ready_from_node (entry_of node.now) ≡ Some (entry_of_ref entry)) }
{
    let Phase::Ready(value) = &node.phase else {
        return None;
    };
    Some(EntryRef {
        stamp: node.stamp,
        hint: Hint {
            hash: node.hash,
            place,
        },
        key: &node.key,
        charge: node.charge,
        pins: node.pins,
        is_detached: node.detached,
        value: value.value(),
    })
}
