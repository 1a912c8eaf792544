//! Nodes by place and by hash, and the order of the idle ones: an intrusive list of raw nodes, with
//! a slab of pointers to them and a table from the hashes of their keys. No key is hashed and no
//! charge is added up here. What a node stores as its value is a parameter.
// What a hit calls is inlined, so that results stay in registers; rare paths are left as calls.
ghost use Rattle.std.specs.Prelude.{◌≡◌, ◌≢◌, ℕ, ◌+◌, ◌<◌, ◌≤◌, ◌^◌, ◌==◌, Some, None, [], ◌∷◌, ◌++◌, filter, not, OnOk, IfErr, IfSome, IsTrue, IsFalse, MatchOption, slice_get, nat_eq};
ghost use Rattle.std.specs.List.{IsDistinct};
ghost use Rattle.std.specs.FinMap as map;
ghost use Rattle.concurrent_lru.specs.NodeTable.{entry_of, hash_of, chain_of, update_at, entry_with_charge, entry_with_pins, entry_detached, entry_with_phase, new_entry, HasCharge, ContainsNode, ContainsIdle, LacksIdle, GetsNode, LeadsTo, HasStampAt, IsNewStamp, FindsStamp, HasKey, IsNewKey};

mod fields;
mod links;
mod memory;
mod open_table;
mod probes;
mod slots;

use crate::as_key::AsKey;
use crate::node_table::links::Order;
pub(crate) use crate::node_table::memory::At;
use crate::node_table::probes::Step;
pub use crate::refusal::Refusal;
use crate::work::Work;
use std::alloc::Global;
use std::hash::Hash;
use std::marker::{Model, Send, Sync};
use std::ptr;

/// The state of an entry's value.
#[derive(Drop)]
pub enum Phase<V> {
    /// A caller is making it.
    Making,
    /// Its maker failed, and no caller has taken over the making.
    Untaken,
    /// It is ready.
    Ready(V),
}

/// An entry of the cache as it is laid out in memory.
// What a hit reads and writes is adjacent, and of its neighbours in the idle order it writes a link
// and the mark beside it, so that it touches as few cache lines as possible.
#[derive(Drop)]
pub struct Node<K, V> {
    /// What the entry adds to the total.
    pub charge: u64,
    /// A copy of the key that the entry was inserted for.
    pub key: K,
    /// The state of its value.
    pub phase: Phase<V>,
    // The node after it in the idle order.
    after: *mut Node<K, V>,
    // Whether there is a node before it in the idle order, and one after it. A link leads nowhere
    // unless its mark is set. An `Option` of a pointer would take 16 bytes.
    has_before: bool,
    has_after: bool,
    /// Whether the entry is found by its stamp only, and no longer by its key.
    pub detached: bool,
    /// How many handles hold the entry.
    pub pins: u32,
    // The node before it in the idle order.
    before: *mut Node<K, V>,
    /// The number that identifies the entry; no two entries of a cache ever share one.
    pub stamp: u64,
    // The slot of the node.
    slot: usize,
    /// The hash of the key, under which the entry is found while it is not detached.
    pub hash: u64,
    /// The next node of a chain of evicted ones; `None` while the node is in a `Nodes`.
    pub next: Option<Box<Node<K, V>>>,
}

// A node owns its key and shares its value, as an `Arc` does; its links give no access to others.
unsafe impl<K: Send, V: Send + Sync> Send for Node<K, V> {}

unsafe impl<K: Sync, V: Send + Sync> Sync for Node<K, V> {}

impl<K, V> Node<K, V> {
    /// Creates a node with one pin, whose value is being made.
    pub fn new(stamp: u64, hash: u64, key: K, charge: u64) -> Node<K, V>
        ensures entry { entry_of result ≡ new_entry stamp key charge }
        ensures hash { hash_of result ≡ hash }
        ensures alone { chain_of result ≡ [] }
    {
        Node {
            charge,
            key,
            phase: Phase::Making,
            after: ptr::null_mut(),
            has_before: false,
            has_after: false,
            detached: false,
            pins: 1,
            before: ptr::null_mut(),
            stamp,
            slot: 0,
            hash,
            next: None,
        }
    }
}

/// Where a node is. It becomes stale when the node is taken, and may then be given out again.
#[derive(Clone, Copy, Debug, PartialEq, Eq)]
pub struct Place {
    slot: usize,
}

impl Place {
    // Returns some place, which may have no node.
    pub(crate) fn first() -> Place {
        Place { slot: 0 }
    }

    /// Returns the place with this number, which may have no node.
    pub fn at(number: usize) -> Place
        ensures { result ≡ number }
    {
        Place { slot: number }
    }

    /// Returns the number of this place.
    pub fn number(self) -> usize
        ensures { result ≡ self }
    {
        self.slot
    }
}

impl Model for Place {
    ghost use Rattle.std.specs.Prelude.{ℕ};

    ghost Value = { ℕ };

    ghost view = { λ a. a.slot };

    ghost inverse = { λ n. record { slot = n } };
}

// What a lookup found.
#[derive(Drop)]
pub(crate) struct Found<'a, K, V> {
    pub place: Place,
    // Leads to the node, for the calls that follow at once. A node keeps its address until it is
    // taken.
    pub link: At<Node<K, V>>,
    pub node: &'a Node<K, V>,
}

/// Nodes by place, and the places of the idle ones, oldest first.
///
/// Clauses see a map from places to entries, the hashes and the addresses of the nodes (`links`),
/// the list of idle places, the number of inserts that need no memory (`spare`), how often the
/// order was written (`work`), and how often a node was looked up by its place to be written or
/// taken (`looks`). An append or a removal looks up at most one node.
pub struct Nodes<K, V> {
    order: Order<K, V>,
    work: Work,
}

impl<K, V> Model for Nodes<K, V> {
    ghost use Rattle.concurrent_lru.specs.NodeTable.{NodeTable, node_table_code};

    ghost Value = { NodeTable K V };

    ghost coded = { node_table_code K.code V.code };

    ghost use base.Fml.{ftrue};
    ghost use Rattle.concurrent_lru.specs.SlotTable.{node_table_of, IsWhole};

    ghost view = { λ a. node_table_of a.order a.work.count };

    ghost invariant = { λ a. IsWhole a.order };

    // Nothing else is owned. With this, a user's proof that a cache may cross threads ends at the
    // `Send` and `Sync` below, and need not unfold a node, which refers to itself.
    ghost also_owns = { λ _. ftrue };

    ghost also_shares = { λ _ _ _. ftrue };
}

// The nodes own their keys, and share their values with handles, as an `Arc` does.
unsafe impl<K: Send, V: Send + Sync> Send for Nodes<K, V> {}

unsafe impl<K: Sync, V: Send + Sync> Sync for Nodes<K, V> {}

impl<K, V> Nodes<K, V> {
    ghost use Rattle.std.specs.Prelude.{◌≡◌};
    ghost use Rattle.concurrent_lru.specs.SlotTable.{node_table_of, IsWhole};

    // Builds a table from an order that is whole.
    fn of(order: Order<K, V>, work: Work) -> Nodes<K, V>
        requires { IsWhole order }
        ensures { result ≡ node_table_of order work.count }
    {
        Nodes { order, work }
    }
}

impl<K: Drop, V: Drop> Drop for Nodes<K, V> {
    fn drop(self) {
        let Nodes { order, work: _ } = self;
        order.end();
    }
}

impl<K: Drop, V: Drop> Nodes<K, V> {
    /// Creates a table with no nodes. Takes no memory.
    pub fn new(alloc: Global) -> Nodes<K, V>
        ensures nodes { result.nodes ≡ map.empty }
        ensures hashes { result.hashes ≡ map.empty }
        ensures links { result.links ≡ map.empty }
        ensures idle { result.idle ≡ [] }
        ensures work { result.work ≡ 0 }
    {
        Nodes::of(Order::new(alloc), Work::new())
    }

    /// Reserves room for `more` inserts and for all later calls on what they insert.
    ///
    /// Returns `Memory` if the allocator refuses; the nodes and their order stay as they were.
    pub fn reserve(&mut self, more: usize) -> Result<(), Refusal>
        ensures ok { OnOk result (more ≤ self.new.spare) }
        ensures err { IfErr result (λ e. e ≡ Refusal.Memory) }
        ensures nodes { self.new.nodes ≡ self.old.nodes }
        ensures hashes { self.new.hashes ≡ self.old.hashes }
        ensures links { self.new.links ≡ self.old.links }
        ensures idle { self.new.idle ≡ self.old.idle }
        ensures work { self.new.work ≡ self.old.work }
    {
        self.order.slots.reserve(more)?;
        Ok(())
    }

    /// Inserts a node at a free place, outside the idle order. There must be room for it.
    pub fn insert_reserved(&mut self, node: Box<Node<K, V>>) -> Place
        requires spare { 0 < self.old.spare }
        requires alone { chain_of node.value ≡ [] }
        requires fresh { IsNewStamp self.old (entry_of node.value).stamp }
        ensures free { map.get self.old.nodes result ≡ None }
        ensures nodes { self.new.nodes ≡ map.insert self.old.nodes result (entry_of node.value) }
        ensures hashes { self.new.hashes ≡ map.insert self.old.hashes result (hash_of node.value) }
        ensures idle { self.new.idle ≡ self.old.idle }
        ensures spare { self.old.spare ≤ self.new.spare + 1 }
        ensures work { self.new.work ≡ self.old.work }
    {
        Place {
            slot: self.order.slots.insert(node),
        }
    }

    /// Returns the number of nodes.
    pub fn len(&self) -> usize
        ensures { result ≡ map.len self.now.nodes }
    {
        self.order.slots.pointers.len()
    }

    // Returns whether there is a node at a place. Any place will do.
    pub(crate) fn contains(&self, place: Place) -> bool
        ensures yes { IsTrue result → ContainsNode self.now place }
        ensures no { IsFalse result → map.get self.now.nodes place ≡ None }
    {
        self.order.slots.contains(place.slot)
    }

    // Returns a number above those of all places that have a node.
    pub(crate) fn end_of_places(&self) -> usize
        ensures { (place : ℕ) → result ≤ place → map.get self.now.nodes place ≡ None }
    {
        self.order.slots.end_of_slots()
    }

    // Returns whether a node with this stamp is at a place. Any place will do.
    pub(crate) fn has_stamp(&self, place: Place, stamp: u64) -> bool
        ensures yes { IsTrue result → HasStampAt self.now place stamp }
        ensures no { IsFalse result → HasStampAt self.now place stamp → ⊥ }
    {
        self.order.slots.contains(place.slot) && self.order.slots.node(place.slot).stamp == stamp
    }

    // Returns the node with an equal key, among those with this hash that are not detached.
    #[inline(always)]
    pub(crate) fn find_key<Q>(&self, hash: u64, key: Q) -> Option<Found<'_, K, V>>
    where
        K: Hash + Eq,
        Q: AsKey<K>,
        ensures found { MatchOption result (IsNewKey K.eq self.now hash (Q.owned key))
            (λ found. HasKey K.eq found.node.now (Q.owned key)) }
        ensures node { IfSome result (λ found. GetsNode self.now found.place found.node.now) }
        ensures link { IfSome result (λ found. LeadsTo self.now found.link found.place) }
    {
        let slots = &self.order.slots;
        let mut at = slots.by_hash.first(hash);
        'walk: while let Step::Item(cursor) = at {
            let link = slots.by_hash.item(cursor);
            let node = slots.memory.get(link);
            if key.is_key(&node.key) {
                return Some(Found {
                    place: Place { slot: node.slot },
                    link,
                    node,
                });
            }
            at = slots.by_hash.next(cursor);
        }
        None
    }

    // Returns a node with this stamp, if it is among those with this hash that are not detached.
    #[inline(always)]
    pub(crate) fn find_stamp_by_hash(&self, hash: u64, stamp: u64) -> Option<Found<'_, K, V>>
        ensures found { IfSome result (λ found. (entry_of found.node.now).stamp ≡ stamp) }
        ensures node { IfSome result (λ found. GetsNode self.now found.place found.node.now) }
        ensures link { IfSome result (λ found. LeadsTo self.now found.link found.place) }
    {
        let slots = &self.order.slots;
        let mut at = slots.by_hash.first(hash);
        'walk: while let Step::Item(cursor) = at {
            let link = slots.by_hash.item(cursor);
            let node = slots.memory.get(link);
            if node.stamp == stamp {
                return Some(Found {
                    place: Place { slot: node.slot },
                    link,
                    node,
                });
            }
            at = slots.by_hash.next(cursor);
        }
        None
    }

    // Returns the node at a place as a lookup does.
    pub(crate) fn found(&self, place: Place) -> Found<'_, K, V>
        requires { ContainsNode self.now place }
        ensures place { result.place ≡ place }
        ensures node { GetsNode self.now result.place result.node.now }
        ensures link { LeadsTo self.now result.link result.place }
    {
        Found {
            place,
            link: self.order.slots.link(place.slot),
            node: self.node(place),
        }
    }

    // Returns the place of a node with this stamp, visiting the nodes one by one.
    pub(crate) fn find_stamp(&self, stamp: u64) -> Option<Place>
        ensures { FindsStamp self.now stamp result }
    {
        for slot in 0..self.order.slots.end_of_slots() {
            let place = Place { slot };
            if self.has_stamp(place, stamp) {
                return Some(place);
            }
        }
        None
    }

    /// Returns the node at a place.
    pub fn node(&self, place: Place) -> &Node<K, V>
        requires { ContainsNode self.now place }
        ensures entry { map.get self.now.nodes place ≡ Some (entry_of result.now) }
        ensures hash { map.get self.now.hashes place ≡ Some (hash_of result.now) }
        ensures alone { chain_of result.now ≡ [] }
    {
        self.order.slots.node(place.slot)
    }

    /// Sets the number of pins of a node. Takes no memory.
    pub fn set_pins(&mut self, place: Place, pins: u32)
        requires { ContainsNode self.old place }
        ensures nodes { self.new.nodes ≡ update_at (entry_with_pins pins) self.old.nodes place }
        ensures hashes { self.new.hashes ≡ self.old.hashes }
        ensures links { self.new.links ≡ self.old.links }
        ensures idle { self.new.idle ≡ self.old.idle }
        ensures spare { self.old.spare ≤ self.new.spare }
        ensures work { self.new.work ≡ self.old.work }
    {
        let link = self.found(place).link;
        self.write_pins(place, link, pins);
    }

    // Sets the number of pins of the node that a lookup found. Takes no memory.
    pub(crate) fn write_pins(&mut self, place: Place, link: At<Node<K, V>>, pins: u32)
        requires within { ContainsNode self.old place }
        requires link { LeadsTo self.old link place }
        ensures nodes { self.new.nodes ≡ update_at (entry_with_pins pins) self.old.nodes place }
        ensures hashes { self.new.hashes ≡ self.old.hashes }
        ensures links { self.new.links ≡ self.old.links }
        ensures idle { self.new.idle ≡ self.old.idle }
        ensures spare { self.old.spare ≤ self.new.spare }
        ensures work { self.new.work ≡ self.old.work }
    {
        // Only the contract uses it.
        let _ = place;
        self.order.slots.memory.lend(link).set_pins(pins);
    }

    /// Marks a node as detached from its key. Takes no memory.
    pub fn set_detached(&mut self, place: Place)
        requires { ContainsNode self.old place }
        ensures nodes { self.new.nodes ≡ update_at entry_detached self.old.nodes place }
        ensures hashes { self.new.hashes ≡ self.old.hashes }
        ensures links { self.new.links ≡ self.old.links }
        ensures idle { self.new.idle ≡ self.old.idle }
        ensures spare { self.old.spare ≤ self.new.spare }
        ensures work { self.new.work ≡ self.old.work }
    {
        self.order.slots.unlist(place.slot);
        let pointer = self.order.slots.look(place.slot);
        let node = self.order.slots.memory.lend(At { ptr: pointer });
        node.set_detached();
    }

    /// Sets the phase of a node. Takes no memory.
    pub fn set_phase(&mut self, place: Place, phase: Phase<V>)
        requires { ContainsNode self.old place }
        ensures nodes { self.new.nodes ≡ update_at (entry_with_phase phase) self.old.nodes place }
        ensures hashes { self.new.hashes ≡ self.old.hashes }
        ensures links { self.new.links ≡ self.old.links }
        ensures idle { self.new.idle ≡ self.old.idle }
        ensures spare { self.old.spare ≤ self.new.spare }
        ensures work { self.new.work ≡ self.old.work }
    {
        let link = self.found(place).link;
        self.write_phase(place, link, phase);
    }

    // Sets the phase of the node that a lookup found. Takes no memory.
    pub(crate) fn write_phase(&mut self, place: Place, link: At<Node<K, V>>, phase: Phase<V>)
        requires within { ContainsNode self.old place }
        requires link { LeadsTo self.old link place }
        ensures nodes { self.new.nodes ≡ update_at (entry_with_phase phase) self.old.nodes place }
        ensures hashes { self.new.hashes ≡ self.old.hashes }
        ensures links { self.new.links ≡ self.old.links }
        ensures idle { self.new.idle ≡ self.old.idle }
        ensures spare { self.old.spare ≤ self.new.spare }
        ensures work { self.new.work ≡ self.old.work }
    {
        // Only the contract uses it.
        let _ = place;
        self.order.slots.memory.lend(link).set_phase(phase);
    }

    // Sets the charge of the node that a lookup found, and returns the one that it had. Takes no
    // memory.
    pub(crate) fn write_charge(&mut self, place: Place, link: At<Node<K, V>>, charge: u64) -> u64
        requires within { ContainsNode self.old place }
        requires link { LeadsTo self.old link place }
        ensures charge { HasCharge (map.get self.old.nodes place) result }
        ensures nodes { self.new.nodes ≡ update_at (entry_with_charge charge) self.old.nodes place }
        ensures hashes { self.new.hashes ≡ self.old.hashes }
        ensures links { self.new.links ≡ self.old.links }
        ensures idle { self.new.idle ≡ self.old.idle }
        ensures spare { self.old.spare ≤ self.new.spare }
        ensures work { self.new.work ≡ self.old.work }
    {
        // Only the contract uses it.
        let _ = place;
        let node = self.order.slots.memory.lend(link);
        let was = node.charge;
        node.set_charge(charge);
        was
    }

    /// Makes a node the newest idle one. Takes no memory.
    pub fn append(&mut self, place: Place)
        requires within { ContainsNode self.old place }
        requires held { LacksIdle self.old place }
        ensures nodes { self.new.nodes ≡ self.old.nodes }
        ensures hashes { self.new.hashes ≡ self.old.hashes }
        ensures links { self.new.links ≡ self.old.links }
        ensures idle { self.new.idle ≡ self.old.idle ++ place ∷ [] }
        ensures spare { self.old.spare ≤ self.new.spare }
        ensures work { self.new.work ≡ self.old.work + 1 }
        ensures looks { self.new.looks ≤ self.old.looks + 1 }
    {
        let pointer = self.order.slots.look(place.slot);
        self.order.push(pointer, place.slot);
        self.work.tick();
    }

    // Adds a pin to the node that a lookup found, which has `pins` pins. An idle one leaves the
    // idle order. Returns its charge. Takes no memory.
    #[inline(always)]
    pub(crate) fn pin(&mut self, place: Place, link: At<Node<K, V>>, pins: u32) -> u64
        requires within { ContainsNode self.old place }
        requires link { LeadsTo self.old link place }
        requires idle { pins ≡ 0 → ContainsIdle self.old place }
        requires room { pins + 1 < 2 ^ 32 }
        ensures charge { HasCharge (map.get self.old.nodes place) result }
        ensures nodes { self.new.nodes
            ≡ update_at (entry_with_pins (pins + 1)) self.old.nodes place }
        ensures revived { pins ≡ 0
            → (self.new.idle ≡ filter (λ p. not (p == place)) self.old.idle)
            × (self.new.work ≡ self.old.work + 1) }
        ensures held { pins ≢ 0 → (self.new.idle ≡ self.old.idle)
            × (self.new.work ≡ self.old.work) }
        ensures hashes { self.new.hashes ≡ self.old.hashes }
        ensures links { self.new.links ≡ self.old.links }
        ensures spare { self.old.spare ≤ self.new.spare }
        ensures looks { self.new.looks ≡ self.old.looks }
    {
        // Only the contract uses it.
        let _ = place;
        let node = self.order.slots.memory.lend(link);
        let charge = node.charge;
        node.set_pins(pins + 1);
        if pins > 0 {
            return charge;
        }
        self.order.cut(link.ptr);
        self.work.tick();
        charge
    }

    // Removes the pins of the node that a lookup found and makes it the newest idle one. Returns
    // its charge. Takes no memory.
    #[inline(always)]
    pub(crate) fn make_idle(&mut self, place: Place, link: At<Node<K, V>>) -> u64
        requires within { ContainsNode self.old place }
        requires link { LeadsTo self.old link place }
        requires held { LacksIdle self.old place }
        ensures nodes { self.new.nodes ≡ update_at (entry_with_pins 0) self.old.nodes place }
        ensures hashes { self.new.hashes ≡ self.old.hashes }
        ensures links { self.new.links ≡ self.old.links }
        ensures idle { self.new.idle ≡ self.old.idle ++ place ∷ [] }
        ensures charge { HasCharge (map.get self.old.nodes place) result }
        ensures spare { self.old.spare ≤ self.new.spare }
        ensures work { self.new.work ≡ self.old.work + 1 }
        ensures looks { self.new.looks ≡ self.old.looks }
    {
        let slot = place.slot;
        let node = self.order.slots.memory.lend(link);
        let charge = node.charge;
        node.set_pins(0);
        self.order.push(link.ptr, slot);
        self.work.tick();
        charge
    }

    /// Removes a node from the idle order; it stays among the nodes. Takes no memory.
    pub fn remove(&mut self, place: Place)
        requires { ContainsIdle self.old place }
        ensures nodes { self.new.nodes ≡ self.old.nodes }
        ensures hashes { self.new.hashes ≡ self.old.hashes }
        ensures links { self.new.links ≡ self.old.links }
        ensures idle { self.new.idle ≡ filter (λ p. not (p == place)) self.old.idle }
        ensures spare { self.old.spare ≤ self.new.spare }
        ensures work { self.new.work ≡ self.old.work + 1 }
        ensures looks { self.new.looks ≤ self.old.looks + 1 }
    {
        let pointer = self.order.slots.look(place.slot);
        self.order.cut(pointer);
        self.work.tick();
    }

    // Makes the idle node that a lookup found the newest idle one. Takes no memory.
    pub(crate) fn renew(&mut self, place: Place, link: At<Node<K, V>>)
        requires idle { ContainsIdle self.old place }
        requires link { LeadsTo self.old link place }
        ensures nodes { self.new.nodes ≡ self.old.nodes }
        ensures hashes { self.new.hashes ≡ self.old.hashes }
        ensures links { self.new.links ≡ self.old.links }
        ensures idle { self.new.idle ≡ filter (λ p. not (p == place)) self.old.idle ++ place ∷ [] }
        ensures spare { self.old.spare ≤ self.new.spare }
        ensures work { self.new.work ≡ self.old.work + 2 }
        ensures looks { self.new.looks ≡ self.old.looks }
    {
        let slot = place.slot;
        self.order.cut(link.ptr);
        self.order.push(link.ptr, slot);
        self.work.tick();
        self.work.tick();
    }

    /// Returns the place of the oldest idle node, or `None` if nothing is idle.
    pub fn oldest(&self) -> Option<Place>
        ensures first { result ≡ slice_get self.now.idle 0 }

        // Facts of the invariant, for callers, which cannot see it.
        ensures within { (p : ℕ) → ContainsIdle self.now p → ContainsNode self.now p }
        ensures apart { IsDistinct nat_eq self.now.idle }
    {
        match self.order.oldest {
            Some(slot) => Some(Place { slot }),
            None => None,
        }
    }

    /// Takes a node out. Takes no memory; its place is free afterwards.
    pub fn take(&mut self, place: Place) -> Box<Node<K, V>>
        requires within { ContainsNode self.old place }
        requires held { LacksIdle self.old place }
        ensures entry { map.get self.old.nodes place ≡ Some (entry_of result.value) }
        ensures alone { chain_of result.value ≡ [] }
        ensures nodes { self.new.nodes ≡ map.remove self.old.nodes place }
        ensures hashes { self.new.hashes ≡ map.remove self.old.hashes place }
        ensures idle { self.new.idle ≡ self.old.idle }
        ensures spare { self.old.spare ≤ self.new.spare }
        ensures work { self.new.work ≡ self.old.work }
    {
        self.order.slots.unlist(place.slot);
        self.order.slots.take_out(place.slot)
    }
}
