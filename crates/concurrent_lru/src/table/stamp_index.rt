//! Lookup of nodes by stamp: with a map of places, or without one by visiting the nodes.
//!
//! A table has one or the other, from its creation on.
ghost use Rattle.std.specs.Prelude.{◌≡◌, ℕ, true, false, Some, None, OnOk, MatchOption, cond, nat_eq};
ghost use Rattle.concurrent_lru.specs.NodeTable.{HasStampAt, IsNewStamp};
ghost use Rattle.concurrent_lru.specs.StampIndex.{keeps_map, mapped_place, HasRoomFor};

use crate::node_table::{Nodes, Place};
use std::alloc::AllocError;
use std::collections::HashMap;

// The places of nodes by their stamps.
pub(super) enum StampIndex {
    // Finds a node through a map; an insert and a removal write to it.
    Mapped(HashMap<u64, Place>),
    // Finds a node by visiting the nodes; an insert and a removal write nothing.
    Unmapped,
}

// Written out, so that it is proved once. Each crate that drops a cache would prove a derived drop
// again.
impl Drop for StampIndex {
    fn drop(self) {
        match self {
            StampIndex::Mapped(places) => drop(places),
            StampIndex::Unmapped => {}
        }
    }
}

impl StampIndex {
    // Reserves room for `more` inserts.
    pub(super) fn reserve(&mut self, more: usize) -> Result<(), AllocError>
        ensures room { OnOk result (HasRoomFor self.new more) }
        ensures keeps { keeps_map self.new ≡ keeps_map self.old }
        ensures places { (s : ℕ) → mapped_place self.new s ≡ mapped_place self.old s }
    {
        match self {
            StampIndex::Mapped(places) => places.reserve(more),
            StampIndex::Unmapped => Ok(()),
        }
    }

    // Records the place of a new node. There must be room for it.
    pub(super) fn insert(&mut self, stamp: u64, place: Place)
        requires { HasRoomFor self.old 1 }
        ensures keeps { keeps_map self.new ≡ keeps_map self.old }
        ensures places { keeps_map self.old ≡ true → (s : ℕ) → mapped_place self.new s
            ≡ cond (nat_eq stamp s) (Some place) (mapped_place self.old s) }
    {
        if let StampIndex::Mapped(places) = self {
            // Never refused, since there is room; no node had the stamp before.
            let _before = places.insert(stamp, place);
        }
    }

    // Removes the place of a node that was taken.
    pub(super) fn remove(&mut self, stamp: u64)
        ensures keeps { keeps_map self.new ≡ keeps_map self.old }
        ensures places { keeps_map self.old ≡ true → (s : ℕ) → mapped_place self.new s
            ≡ cond (nat_eq stamp s) None (mapped_place self.old s) }
        ensures room { HasRoomFor self.old 1 → HasRoomFor self.new 1 }
    {
        if let StampIndex::Mapped(places) = self {
            let _place = places.remove(&stamp);
        }
    }

    // Returns the place that the map has for the stamp, or else that of a node with the stamp.
    #[inline(never)]
    pub(super) fn find<K: Drop, V: Drop>(&self, nodes: &Nodes<K, V>, stamp: u64) -> Option<Place>
        ensures mapped { keeps_map self.now ≡ true → result ≡ mapped_place self.now stamp }
        ensures seen { keeps_map self.now ≡ false → MatchOption result (IsNewStamp nodes.now stamp)
            (λ p. HasStampAt nodes.now p stamp) }
    {
        match self {
            StampIndex::Mapped(places) => places.get(&stamp).copied(),
            StampIndex::Unmapped => nodes.find_stamp(stamp),
        }
    }
}
