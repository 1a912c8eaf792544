//! What leaves a table: held entries one by one or all at once, idle ones in their order.
ghost use Rattle.std.specs.Prelude.{◌≡◌, ◌≢◌, ◌+◌, Some, None, [], IsSome, IfSome, MatchOption, filter_map, length, ◌∷◌, ◌++◌};
ghost use Rattle.concurrent_lru.specs.Cache.{idle_at, IsFront};
ghost use Rattle.std.specs.FinMap as map;
ghost use Rattle.concurrent_lru.specs.NodeTable.{entry_of, chain_of};
ghost use Rattle.concurrent_lru.specs.Representation.{as_idle, held_entry};
ghost use Rattle.concurrent_lru.specs.Entries.{cache_of, charges_of, ContainsIdleAt, ContainsHeldAt, ContainsFoundAt, EvictsAt, Rewrites};
ghost use Rattle.concurrent_lru.specs.Steps.{held_detached, without};
ghost use Rattle.concurrent_lru.specs.TakeAll.{TakesHeld, TakesHeldAt};

use crate::eviction::{Evicted, reverse};
use crate::node_table::{Node, Place};
use crate::table::{Table, take_away};
use std::hash::Hash;

impl<K: Hash + Eq + Clone, V: Drop> Table<K, V> {
    /// Removes a held entry. Takes no memory.
    pub fn take_held(&mut self, place: Place) -> Box<Node<K, V>>
        requires { ContainsHeldAt self.old place }
        ensures at { map.get self.old.stamps place ≡ Some (entry_of result.value).stamp }
        ensures entry { map.get self.old.held (entry_of result.value).stamp
            ≡ Some (held_entry (entry_of result.value)) }
        ensures alone { chain_of result.value ≡ [] }
        ensures idle { self.new.idle ≡ self.old.idle }
        ensures held { self.new.held ≡ map.remove self.old.held (entry_of result.value).stamp }
        ensures stamps { self.new.stamps ≡ map.remove self.old.stamps place }
        ensures work { self.new.work ≡ self.old.work }
    {
        take_away(&mut self.nodes, &mut self.by_stamp, &mut self.total, place)
    }

    /// Removes an idle entry. Takes no memory.
    pub fn evict(&mut self, place: Place) -> Box<Node<K, V>>
        requires { ContainsIdleAt self.old place }
        ensures at { map.get self.old.stamps place ≡ Some (entry_of result.value).stamp }
        ensures ready { IsSome (as_idle (entry_of result.value)) }
        ensures entry { idle_at (cache_of self.old) (entry_of result.value).stamp
            ≡ as_idle (entry_of result.value) }
        ensures alone { chain_of result.value ≡ [] }
        ensures idle { self.new.idle ≡ without (entry_of result.value).stamp self.old.idle }
        ensures held { self.new.held ≡ self.old.held }
        ensures stamps { self.new.stamps ≡ map.remove self.old.stamps place }
        ensures work { self.new.work ≡ self.old.work + 1 }
    {
        self.nodes.remove(place);
        let node = take_away(&mut self.nodes, &mut self.by_stamp, &mut self.total, place);
        self.idle_charge -= node.charge;
        node
    }

    /// Takes an entry away from its key, which finds it: an idle one is evicted, and one with pins
    /// is detached. Takes no memory.
    pub fn invalidate(&mut self, place: Place, pins: u32) -> Evicted<K, V>
        requires idle { pins ≡ 0 → ContainsIdleAt self.old place }
        requires held { pins ≢ 0 → ContainsFoundAt self.old place }
        ensures evicted { pins ≡ 0 → EvictsAt self.old place result self.new }
        ensures detached { pins ≢ 0 → Rewrites held_detached self.old place self.new
            × (result ≡ []) }
        ensures work { self.new.work ≡ self.old.work + length result }
    {
        if pins > 0 {
            self.detach(place);
            return Evicted::none();
        }
        let node = self.evict(place);
        Evicted::one(node)
    }

    /// Removes every held entry, including detached ones, if no entry is idle. Returns those that
    /// have a value, in an unspecified order, and drops the others. Takes no memory.
    pub fn take_each_held(&mut self) -> Evicted<K, V>
        requires { self.old.idle ≡ [] }
        ensures taken { TakesHeld self.old.held result }
        ensures idle { self.new.idle ≡ [] }
        ensures held { self.new.held ≡ map.empty }
        ensures work { self.new.work ≡ self.old.work }
    {
        let mut taken = Evicted::none();
        for number in 0..self.nodes.end_of_places() {
            if let Some(node) = self.take_held_at(Place::at(number)) {
                taken.push_front(node);
            }
        }
        taken
    }

    // Removes the held entry at a place, if there is one. No entry is idle.
    fn take_held_at(&mut self, place: Place) -> Option<Box<Node<K, V>>>
        requires { self.old.idle ≡ [] }
        ensures taken { MatchOption result ((map.get self.old.stamps place ≡ None)
            × (self.new ≡ self.old)) (λ node. TakesHeldAt self.old place (entry_of node.value)
            self.new) }
        ensures alone { IfSome result (λ node. chain_of node.value ≡ []) }
    {
        if self.nodes.contains(place) {
            return Some(self.take_held(place));
        }
        None
    }

    // Removes the oldest idle entry, if there is one.
    fn evict_oldest(&mut self) -> Option<Box<Node<K, V>>>
        ensures held { self.new.held ≡ self.old.held }
        ensures idle { MatchOption result ((self.old.idle ≡ []) × (self.new.idle ≡ []))
            (λ node. self.old.idle ≡ filter_map as_idle (entry_of node.value ∷ [])
            ++ self.new.idle) }
        ensures ready { IfSome result (λ node. IsSome (as_idle (entry_of node.value))) }
        ensures alone { IfSome result (λ node. chain_of node.value ≡ []) }
        ensures work { MatchOption result (self.new.work ≡ self.old.work)
            (λ _. self.new.work ≡ self.old.work + 1) }
    {
        let place = self.nodes.oldest()?;
        Some(self.evict(place))
    }

    /// Evicts the oldest idle entries until the total is at most the capacity or none is left.
    #[inline(always)]
    pub fn settle(&mut self, capacity: u64) -> Evicted<K, V>
        ensures held { self.new.held ≡ self.old.held }
        ensures front { IsFront (charges_of self.old) capacity self.old.idle result self.new.idle }
        ensures work { self.new.work ≡ self.old.work + length result }
    {
        if self.total <= capacity {
            return Evicted::none();
        }
        self.evict_down_to(capacity)
    }

    // Evicts from a table whose total is above the capacity.
    #[inline(never)]
    fn evict_down_to(&mut self, capacity: u64) -> Evicted<K, V>
        ensures held { self.new.held ≡ self.old.held }
        ensures front { IsFront (charges_of self.old) capacity self.old.idle result self.new.idle }
        ensures work { self.new.work ≡ self.old.work + length result }
    {
        let mut newest_first = None;
        while self.total() > capacity {
            match self.evict_oldest() {
                None => break,
                Some(mut node) => {
                    node.next = newest_first;
                    newest_first = Some(node);
                }
            }
        }
        reverse(newest_first)
    }
}
