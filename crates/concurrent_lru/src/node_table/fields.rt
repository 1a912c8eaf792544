//! The links of a node in the idle order, and the writes of a node's fields.
ghost use Rattle.std.specs.Prelude.{◌≡◌};
ghost use Rattle.concurrent_lru.specs.NodeTable.{entry_of, entry_with_charge, entry_with_pins, entry_detached, entry_with_phase};

use crate::node_table::{Node, Phase};

impl<K: Drop, V: Drop> Node<K, V> {
    ghost use Rattle.concurrent_lru.specs.Relinks.{IsPlaced, IsRelinked, IsRevalued, before_link, after_link};

    // Sets the slot of the node.
    pub(super) fn set_slot(&mut self, slot: usize)
        ensures { IsPlaced self.old self.new slot }
    {
        self.slot = slot;
    }

    // Returns the links to the nodes before and after this one in the idle order, if there are any.
    #[inline(always)]
    pub(super) fn links(&self) -> (Option<*mut Node<K, V>>, Option<*mut Node<K, V>>)
        ensures before { result.0 ≡ before_link self.now }
        ensures after { result.1 ≡ after_link self.now }
    {
        let before = if self.has_before {
            Some(self.before)
        } else {
            None
        };
        let after = if self.has_after {
            Some(self.after)
        } else {
            None
        };
        (before, after)
    }

    // Sets one link. The other is not read: a neighbour was often written last by another
    // processor, and reading it before the write moves its cache line twice.
    pub(super) fn set_before(&mut self, before: Option<*mut Node<K, V>>)
        ensures { IsRelinked self.old self.new before (after_link self.old) }
    {
        match before {
            Some(link) => {
                self.before = link;
                self.has_before = true;
            }
            None => self.has_before = false,
        }
    }

    pub(super) fn set_after(&mut self, after: Option<*mut Node<K, V>>)
        ensures { IsRelinked self.old self.new (before_link self.old) after }
    {
        match after {
            Some(link) => {
                self.after = link;
                self.has_after = true;
            }
            None => self.has_after = false,
        }
    }

    // The contract of each setter below says of the node itself that its chain and links stay.
    pub(super) fn set_pins(&mut self, pins: u32)
        ensures { IsRevalued self.old self.new (entry_with_pins pins (entry_of self.old)) }
    {
        self.pins = pins;
    }

    pub(super) fn set_charge(&mut self, charge: u64)
        ensures { IsRevalued self.old self.new (entry_with_charge charge (entry_of self.old)) }
    {
        self.charge = charge;
    }

    pub(super) fn set_detached(&mut self)
        ensures { IsRevalued self.old self.new (entry_detached (entry_of self.old)) }
    {
        self.detached = true;
    }

    pub(super) fn set_phase(&mut self, phase: Phase<V>)
        ensures { IsRevalued self.old self.new (entry_with_phase phase (entry_of self.old)) }
    {
        self.phase = phase;
    }
}
