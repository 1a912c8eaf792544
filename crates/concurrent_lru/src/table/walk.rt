//! The entries of a table by place, for a walk over all of them.
ghost use Rattle.std.specs.Prelude.{◌≡◌, None, MatchOption};
ghost use Rattle.concurrent_lru.specs.NodeTable.{entry_of};
ghost use Rattle.concurrent_lru.specs.Entries.{cache_of};
ghost use Rattle.concurrent_lru.specs.ReadyEntries.{ListsReady, ready_in, ready_between, ready_from_node};

use crate::node_table::{Node, Place};
use crate::table::Table;
use std::hash::Hash;

impl<K: Hash + Eq + Clone, V: Drop> Table<K, V> {
    /// Returns a number above those of all places that have an entry.
    pub fn end_of_places(&self) -> usize
        ensures { ListsReady (cache_of self.now) (ready_between self.now 0 result) }
    {
        self.nodes.end_of_places()
    }

    /// Returns the node at a place, or `None` if there is none. Any place will do.
    pub fn node_at(&self, place: Place) -> Option<&Node<K, V>>
        ensures { MatchOption result (ready_in self.now place ≡ None)
            (λ node. ready_in self.now place ≡ ready_from_node (entry_of node.now)) }
    {
        if self.nodes.contains(place) {
            return Some(self.nodes.node(place));
        }
        None
    }
}
