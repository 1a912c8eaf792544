//! A reader over memory: its blocks are four equal bytes, and it records which were requested.
ghost use Rattle.std.specs.Prelude.{◌≡◌, ℕ, replicate};

use lru_pages::Blocks;
use std::alloc::Global;
use std::sync::{Mutex, Wait};

// The number of blocks.
const COUNT: u64 = 8;

/// Blocks of four bytes each, which are the block's number.
#[derive(Drop)]
pub(crate) struct Fours<R: Wait> {
    rt: R,
    alloc: Global,
    asked: Mutex<Vec<u64>>,
}

/// Why there is no block.
#[derive(Debug, Drop, PartialEq, Eq)]
pub(crate) enum Fault {
    /// There are fewer.
    Absent,
    /// There is no memory for it.
    Memory,
}

impl<R: Wait> Fours<R> {
    /// Creates a reader without requests.
    pub(crate) fn new(alloc: Global, rt: R) -> Fours<R> {
        Fours {
            rt,
            alloc,
            asked: Mutex::new(Vec::new(alloc)),
        }
    }

    /// Returns whether exactly these blocks were requested, in this order.
    pub(crate) fn was_asked(&self, numbers: &[u64]) -> bool {
        self.asked.lock(&self.rt).as_slice() == numbers
    }
}

impl<R: Wait> Blocks for Fours<R> {
    type Fault = Fault;

    ghost is_block = { λ _ number bytes. bytes ≡ replicate 4 number };

    fn block(&self, number: u64) -> Result<Vec<u8>, Fault> {
        let Ok(()) = self.asked.lock(&self.rt).push(number) else {
            return Err(Fault::Memory);
        };
        if number >= COUNT {
            return Err(Fault::Absent);
        }
        vec![in self.alloc; number as u8; 4].map_err(|_| Fault::Memory)
    }
}
