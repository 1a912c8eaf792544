//! A list of numbers with sums of its suffixes. A write and a sum each walk one path of a tree.
ghost use Rattle.std.specs.Prelude.{◌≡◌, ◌+◌, ◌<◌, ◌≤◌, ◌^◌, IfOk, length, replicate, drop, slice_set, sum};
ghost use Rattle.lru_sizing.specs.SumTrees.{IsSumTree};

use std::alloc::{AllocError, Global};
use std::marker::Model;

/// A list of numbers whose sum fits a `u64`, with partial sums. Clauses see the list.
///
/// The numbers are the second half of `nodes`. Each node i of the first half, except node 0, is the
/// sum of the nodes 2i and 2i + 1. That works for any count, so nothing is rounded up to a power of
/// two.
#[derive(Drop)]
pub struct SumTree {
    count: usize,
    nodes: Vec<u64>,
}

impl Model for SumTree {
    ghost use Rattle.std.specs.Prelude.{ℕ, List, drop};

    ghost Value = { List ℕ };

    ghost use Rattle.lru_sizing.specs.SumTrees.{IsSumTree};

    ghost view = { λ t. drop t.count t.nodes.items };

    ghost invariant = { λ t. IsSumTree t.count t.nodes.items };
}

impl SumTree {
    /// Creates a list of `count` zeros. Returns `AllocError` if the allocator refuses memory for
    /// them.
    pub fn zeros(alloc: Global, count: usize) -> Result<SumTree, AllocError>
        ensures { IfOk result (λ tree. tree ≡ replicate count 0) }
    {
        let Some(nodes) = count.checked_mul(2) else {
            return Err(AllocError);
        };
        let nodes = vec![in alloc; 0; nodes]?;
        Ok(SumTree { count, nodes })
    }

    /// Sets the number at `place`.
    pub fn set(&mut self, place: usize, number: u64)
        requires within { place < length self.old }
        requires sum { sum (slice_set self.old place number) < 2 ^ 64 }
        ensures { self.new ≡ slice_set self.old place number }
    {
        write(&mut self.nodes, self.count, place, number);
    }

    /// Returns the sum of the numbers from `place` on.
    pub fn sum_from(&self, place: usize) -> u64
        requires { place ≤ length self.now }
        ensures { result ≡ sum (drop place self.now) }
    {
        sum_of_end(&self.nodes, self.count, place)
    }
}

// Writes the node of a place, and updates those above it.
fn write(nodes: &mut [u64], count: usize, place: usize, number: u64)
    requires within { place < count }
    requires tree { IsSumTree count nodes.old }
    requires sum { sum (slice_set (drop count nodes.old) place number) < 2 ^ 64 }
    ensures numbers { drop count nodes.new ≡ slice_set (drop count nodes.old) place number }
    ensures tree { IsSumTree count nodes.new }
{
    let mut node = count + place;
    nodes[node] = number;
    while node > 1 {
        node /= 2;
        nodes[node] = nodes[2 * node] + nodes[2 * node + 1];
    }
}

// Returns the sum of the numbers from `place` on. The nodes from `from` to `end` are left to sum:
// each turn adds the first and the last of them if their siblings are not among them, and goes on
// with the parents of the others.
fn sum_of_end(nodes: &[u64], count: usize, place: usize) -> u64
    requires within { place ≤ count }
    requires tree { IsSumTree count nodes.now }
    ensures { result ≡ sum (drop place (drop count nodes.now)) }
{
    let mut from = count + place;
    let mut end = nodes.len();
    let mut sum = 0;
    while from < end {
        if from % 2 == 1 {
            sum += nodes[from];
            from += 1;
        }
        if end % 2 == 1 {
            end -= 1;
            sum += nodes[end];
        }
        from /= 2;
        end /= 2;
    }
    sum
}
