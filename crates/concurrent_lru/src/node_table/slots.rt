//! The nodes in their slots: a slab of pointers, the memory that they point to, and a table that
//! leads to the nodes from the hashes of their keys.
//!
//! A node is reached for writing by its place, a lookup that is counted, or by a link: the one that
//! a lookup for reading found, or one in another node.
ghost use Rattle.std.specs.Prelude.{◌≡◌, ℕ, ◌+◌, ◌<◌, ◌≤◌, [], Some, None, IsTrue, IsFalse, OnOk, MatchOption};
ghost use Rattle.slab.specs.Slab.{HasRoomFor, slab_len};
ghost use Rattle.concurrent_lru.specs.Cells.{cell_at, ptr_in};
ghost use Rattle.concurrent_lru.specs.NodeTable.{entry_of, hash_of, chain_of};
ghost use Rattle.concurrent_lru.specs.SlotPointers.{IsTied, cells_of, HasNode, LeadsTo, IsNodeAt, KeepsOthers};
ghost use Rattle.concurrent_lru.specs.SlotTable.{entry_in, IsEnd};
ghost use Rattle.concurrent_lru.specs.Listing.{IsListed, IsListedBut, HoldsSlot, listing_at, hash_in, spare_of};

use crate::node_table::Node;
use crate::node_table::memory::{At, Memory};
use crate::node_table::open_table::OpenTable;
use crate::node_table::probes::{Cursor, Step};
use crate::work::Work;
use slab::Slab;
use std::alloc::{AllocError, Global};

// The nodes of a `Nodes`, and how often one was looked up to be written or taken.
pub(super) struct Slots<K, V> {
    pub(super) pointers: Slab<At<Node<K, V>>>,
    // The nodes that are not detached.
    pub(super) by_hash: OpenTable<At<Node<K, V>>>,
    pub(super) memory: Memory<Node<K, V>, Global>,
    looks: Work,
    alloc: Global,
}

impl<K: Drop, V: Drop> Slots<K, V> {
    pub(super) fn new(alloc: Global) -> Slots<K, V>
        ensures tied { IsTied result }
        ensures listed { IsListed result }
        ensures empty { cells_of result ≡ [] }
        ensures looks { result.looks.count ≡ 0 }
    {
        Slots {
            pointers: Slab::new(alloc),
            by_hash: OpenTable::new(alloc, At::nowhere()),
            memory: Memory::new(),
            looks: Work::new(),
            alloc,
        }
    }

    // Reserves room for `more` nodes besides those present.
    pub(super) fn reserve(&mut self, more: usize) -> Result<(), AllocError>
        requires tied { IsTied self.old }
        requires listed { IsListed self.old }
        ensures tied { IsTied self.new }
        ensures listed { IsListed self.new }
        ensures room { OnOk result (more ≤ spare_of self.new) }
        ensures memory { self.new.memory ≡ self.old.memory }
        ensures looks { self.new.looks ≡ self.old.looks }
    {
        self.pointers.reserve(more)?;
        let Some(entries) = self.by_hash.len().checked_add(more) else {
            return Err(AllocError);
        };
        self.by_hash.reserve(entries)
    }

    // Inserts a node in a slot that was free, and returns the slot.
    pub(super) fn insert(&mut self, node: Box<Node<K, V>>) -> usize
        requires tied { IsTied self.old }
        requires listed { IsListed self.old }
        requires room { 0 < spare_of self.old }
        ensures tied { IsTied self.new }
        ensures listed { IsListed self.new }
        ensures vacant { cell_at (cells_of self.old) result ≡ None }
        ensures entry { entry_in (cell_at (cells_of self.new) result) ≡ Some (entry_of node.value) }
        ensures hash { hash_in (cell_at (cells_of self.new) result) ≡ Some (hash_of node.value) }
        ensures end { chain_of node.value ≡ [] → IsEnd (cell_at (cells_of self.new) result) }
        ensures others { KeepsOthers self.old self.new result }
        ensures looks { self.new.looks ≡ self.old.looks }
        ensures spare { spare_of self.old ≤ spare_of self.new + 1 }
    {
        let hash = node.hash;
        let is_detached = node.detached;
        let (slot, at) = self.put(node);
        if is_detached {
            return slot;
        }
        self.by_hash.insert(hash, at);
        slot
    }

    // Inserts a node in a slot that was free, and leaves the table by hash as it is. Returns the
    // slot and the address of the node.
    fn put(&mut self, mut node: Box<Node<K, V>>) -> (usize, At<Node<K, V>>)
        requires tied { IsTied self.old }
        requires room { HasRoomFor self.old.pointers 1 }
        ensures tied { IsTied self.new }
        ensures vacant { cell_at (cells_of self.old) result.0 ≡ None }
        ensures at { ptr_in (cell_at (cells_of self.new) result.0) ≡ Some result.1.ptr }
        ensures entry { entry_in (cell_at (cells_of self.new) result.0)
            ≡ Some (entry_of node.value) }
        ensures hash { hash_in (cell_at (cells_of self.new) result.0) ≡ Some (hash_of node.value) }
        ensures end { chain_of node.value ≡ [] → IsEnd (cell_at (cells_of self.new) result.0) }
        ensures others { KeepsOthers self.old self.new result.0 }
        ensures by_hash { self.new.by_hash ≡ self.old.by_hash }
        ensures looks { self.new.looks ≡ self.old.looks }
        ensures len { slab_len self.new.pointers ≡ slab_len self.old.pointers + 1 }
        ensures capacity { self.new.pointers.capacity ≡ self.old.pointers.capacity }
    {
        let slot = self.pointers.vacant_key();
        node.set_slot(slot);
        let (at, _) = self.memory.put(node, slot);
        self.memory.apart();
        (self.pointers.insert_reserved(at), at)
    }

    // Takes out the node in a slot, and leaves the table by hash as it is. This counts as a lookup,
    // as a write does.
    pub(super) fn take_out(&mut self, slot: usize) -> Box<Node<K, V>>
        requires tied { IsTied self.old }
        requires present { HasNode self.old slot }
        ensures tied { IsTied self.new }
        ensures value { IsNodeAt self.old slot result.value }
        ensures vacant { cell_at (cells_of self.new) slot ≡ None }
        ensures others { KeepsOthers self.old self.new slot }
        ensures by_hash { self.new.by_hash ≡ self.old.by_hash }
        ensures spare { spare_of self.old ≤ spare_of self.new }
        ensures looks { self.new.looks.count ≡ self.old.looks.count + 1 }
    {
        let at = self.pointers.remove(slot);
        self.looks.tick();
        let node = self.memory.take(at, slot, self.alloc);
        self.memory.apart();
        node
    }

    // Removes the node in a slot from the table by hash, unless it is detached.
    pub(super) fn unlist(&mut self, slot: usize)
        requires tied { IsTied self.old }
        requires listed { IsListed self.old }
        requires present { HasNode self.old slot }
        ensures rest { self.new ≡ record self.old { by_hash = self.new.by_hash } }
        ensures others { IsListedBut self.new slot }
        ensures spare { spare_of self.old ≤ spare_of self.new }
    {
        match self.cursor_of(slot) {
            Some(cursor) => {
                let _at = self.by_hash.remove(cursor);
            }
            None => {}
        }
    }

    // Returns where the node in a slot lies in the table by hash, or `None` if it is detached.
    fn cursor_of(&self, slot: usize) -> Option<Cursor>
        requires tied { IsTied self.now }
        requires listed { IsListed self.now }
        requires present { HasNode self.now slot }
        ensures { MatchOption result (listing_at self.now slot ≡ None)
            (λ cursor. HoldsSlot self.now cursor slot) }
    {
        let node = self.node(slot);
        if node.detached {
            return None;
        }
        let hash = node.hash;
        let mut at = self.by_hash.first(hash);
        'walk: while let Step::Item(cursor) = at {
            if self.memory.get(self.by_hash.item(cursor)).slot == slot {
                return Some(cursor);
            }
            at = self.by_hash.next(cursor);
        }
        None
    }

    // Returns the node in a slot for reading.
    pub(super) fn node(&self, slot: usize) -> &Node<K, V>
        requires tied { IsTied self.now }
        requires present { HasNode self.now slot }
        ensures { IsNodeAt self.now slot result.now }
    {
        self.memory.get(self.pointers[slot])
    }

    // Returns whether there is a node in a slot. Any number will do.
    pub(super) fn contains(&self, slot: usize) -> bool
        requires { IsTied self.now }
        ensures yes { IsTrue result → HasNode self.now slot }
        ensures no { IsFalse result → cell_at (cells_of self.now) slot ≡ None }
    {
        self.pointers.contains(slot)
    }

    // Returns a number above the slots of all nodes.
    pub(super) fn end_of_slots(&self) -> usize
        requires { IsTied self.now }
        ensures { (slot : ℕ) → result ≤ slot → cell_at (cells_of self.now) slot ≡ None }
    {
        self.pointers.capacity()
    }

    // Returns a pointer to the node in a slot, for writing.
    pub(super) fn look(&mut self, slot: usize) -> *mut Node<K, V>
        requires tied { IsTied self.old }
        requires present { HasNode self.old slot }
        ensures tied { IsTied self.new }
        ensures link { LeadsTo self.old result slot }
        ensures rest { self.new ≡ record self.old { looks = self.new.looks } }
        ensures looks { self.new.looks.count ≡ self.old.looks.count + 1 }
    {
        self.looks.tick();
        self.pointers[slot].ptr
    }

    // Returns the address of the node in a slot, as a lookup does that finds it.
    pub(super) fn link(&self, slot: usize) -> At<Node<K, V>>
        requires tied { IsTied self.now }
        requires present { HasNode self.now slot }
        ensures { LeadsTo self.now result.ptr slot }
    {
        self.pointers[slot]
    }

    // Frees the node in a slot, if there is one.
    fn free(&mut self, slot: usize)
        requires { IsTied self.old }
        ensures tied { IsTied self.new }
        ensures vacant { cell_at (cells_of self.new) slot ≡ None }
        ensures others { KeepsOthers self.old self.new slot }
    {
        if self.contains(slot) {
            let _node = self.take_out(slot);
        }
    }

    // Frees every node, whether or not links lead to it.
    pub(super) fn end(mut self)
        requires { IsTied self }
    {
        for slot in 0..self.end_of_slots() {
            self.free(slot);
        }
        let Slots {
            pointers: _,
            by_hash: _,
            memory,
            looks: _,
            alloc: _,
        } = self;
        memory.end();
    }
}
