//! The idle order as links among nodes: each idle one points to its neighbours.
ghost use Rattle.std.specs.Prelude.{◌≡◌, ◌+◌, ◌<◌, ◌∷◌, [], ◌++◌};
ghost use Rattle.concurrent_lru.specs.SlotPointers.{IsTied, cells_of, LeadsTo};
ghost use Rattle.concurrent_lru.specs.SlotWrites.{OnlyWrites, OnlyLooksAndWrites};
ghost use Rattle.concurrent_lru.specs.Listing.{IsListed, KeepsListings};
ghost use Rattle.concurrent_lru.specs.SlotTable.{IsWellLinked, IsGood, Omits, ListsLink, LosesLink, JoinsLeft, JoinsRight, nodes_of, idle_of};

use crate::node_table::slots::Slots;
use crate::node_table::{At, Node};
use std::alloc::Global;

// The nodes, and the two ends of the order of the idle ones. It has no invariant, since a method
// may break the order for a moment.
pub(super) struct Order<K, V> {
    pub(super) slots: Slots<K, V>,
    pub(super) oldest: Option<usize>,
    pub(super) newest: Option<*mut Node<K, V>>,
}

impl<K: Drop, V: Drop> Order<K, V> {
    // Creates an order with no nodes.
    pub(super) fn new(alloc: Global) -> Order<K, V>
        ensures linked { IsWellLinked result }
        ensures listed { IsListed result.slots }
        ensures empty { cells_of result.slots ≡ [] }
        ensures idle { idle_of result ≡ [] }
    {
        Order {
            slots: Slots::new(alloc),
            oldest: None,
            newest: None,
        }
    }

    // Makes the node that the pointer leads to, in this slot, the newest idle one.
    #[inline(always)]
    pub(super) fn push(&mut self, pointer: *mut Node<K, V>, slot: usize)
        requires linked { IsWellLinked self.old }
        requires own { LeadsTo self.old.slots pointer slot }
        requires held { Omits self.old slot }
        ensures linked { IsWellLinked self.new }
        ensures nodes { nodes_of self.new ≡ nodes_of self.old }
        ensures idle { idle_of self.new ≡ idle_of self.old ++ slot ∷ [] }
        ensures rest { OnlyLooksAndWrites self.old.slots self.new.slots }
        ensures listings { KeepsListings (cells_of self.old.slots) (cells_of self.new.slots) }
        ensures looks { self.new.slots.looks ≡ self.old.slots.looks }
    {
        let newest = self.newest;
        let node = self.slots.memory.lend(At { ptr: pointer });
        node.set_before(newest);
        node.set_after(None);
        self.newest = Some(pointer);
        match newest {
            Some(last) => {
                let before = self.slots.memory.lend(At { ptr: last });
                before.set_after(Some(pointer));
            }
            None => self.oldest = Some(slot),
        }
    }

    // Joins the neighbours of a removed node at the side of the one before it: sets that one's
    // link, or the oldest end of the order.
    fn join_left(&mut self, before: Option<*mut Node<K, V>>, after: Option<*mut Node<K, V>>)
        requires tied { IsTied self.old.slots }
        requires before { IsGood (cells_of self.old.slots) before }
        requires after { IsGood (cells_of self.old.slots) after }
        ensures newest { self.new.newest ≡ self.old.newest }
        ensures rest { OnlyWrites self.old.slots self.new.slots }
        ensures joined { JoinsLeft self.old self.new before after }
    {
        match before {
            Some(link) => self.slots.memory.lend(At { ptr: link }).set_after(after),
            None => match after {
                // A node stores its slot.
                Some(link) => self.oldest = Some(self.slots.memory.get(At { ptr: link }).slot),
                None => self.oldest = None,
            },
        }
    }

    // Joins them at the side of the one after it: sets that one's link, or the newest end.
    fn join_right(&mut self, before: Option<*mut Node<K, V>>, after: Option<*mut Node<K, V>>)
        requires { IsGood (cells_of self.old.slots) after }
        ensures oldest { self.new.oldest ≡ self.old.oldest }
        ensures rest { OnlyWrites self.old.slots self.new.slots }
        ensures joined { JoinsRight self.old self.new before after }
    {
        match after {
            Some(link) => self.slots.memory.lend(At { ptr: link }).set_before(before),
            None => self.newest = before,
        }
    }

    // Removes the node that the pointer leads to from the idle order.
    #[inline(always)]
    pub(super) fn cut(&mut self, pointer: *mut Node<K, V>)
        requires linked { IsWellLinked self.old }
        requires idle { ListsLink self.old pointer }
        ensures linked { IsWellLinked self.new }
        ensures nodes { nodes_of self.new ≡ nodes_of self.old }
        ensures idle { LosesLink self.old self.new pointer }
        ensures rest { OnlyLooksAndWrites self.old.slots self.new.slots }
        ensures listings { KeepsListings (cells_of self.old.slots) (cells_of self.new.slots) }
        ensures looks { self.new.slots.looks ≡ self.old.slots.looks }
    {
        let node = self.slots.memory.lend(At { ptr: pointer });
        let (before, after) = node.links();
        node.set_before(None);
        node.set_after(None);
        self.join_left(before, after);
        self.join_right(before, after);
    }

    // Frees every node.
    pub(super) fn end(self)
        requires { IsTied self.slots }
    {
        let Order {
            slots,
            oldest: _,
            newest: _,
        } = self;
        slots.end();
    }
}
