//! A reader that counts the blocks that were requested.

use lru_pages::Blocks;
use std::sync::atomic::{AtomicU64, Ordering};

/// A reader of blocks, and how many were requested.
#[derive(Drop)]
pub struct CountedBlocks<B> {
    blocks: B,
    asked: AtomicU64,
}

impl<B: Blocks> CountedBlocks<B> {
    /// Creates a reader with a count of 0.
    pub fn new(blocks: B) -> CountedBlocks<B> {
        CountedBlocks {
            blocks,
            asked: AtomicU64::new(0),
        }
    }

    /// Returns how many blocks were requested.
    pub fn requests(&self) -> u64 {
        self.asked.load(Ordering::SeqCst)
    }
}

impl<B: Blocks> Blocks for CountedBlocks<B> {
    type Fault = B::Fault;

    ghost is_block = { λ counted number bytes. B.is_block counted.blocks number bytes };

    ghost is_fault = { λ counted number fault. B.is_fault counted.blocks number fault };

    fn block(&self, number: u64) -> Result<Vec<u8>, B::Fault> {
        self.asked.fetch_add(1, Ordering::SeqCst);
        self.blocks.block(number)
    }
}
