//! One cache for the blocks of two column families of a storage engine. The charge is in bytes.

use concurrent_lru::unsharded::LruCache;
use std::sync::Wait;
use std::test::Fail;

/// A part of a database with files of its own.
#[derive(Clone, Copy, Debug, PartialEq, Eq, Hash)]
enum Family {
    Rows,
    Index,
}

/// The location of a block: its family, and its offset in the family's file.
#[derive(Clone, Copy, Debug, PartialEq, Eq, Hash)]
struct Block {
    family: Family,
    offset: u64,
}

const BLOCK_LEN: usize = 64;

// Stands for a read from a disk.
fn load(block: &Block) -> [u8; BLOCK_LEN] {
    let fill = match block.family {
        Family::Rows => b'r',
        Family::Index => b'i',
    };
    [fill; BLOCK_LEN]
}

// Returns the first byte of a block, which is loaded if it is not in the cache.
fn first_byte<R: Wait>(
    cache: &LruCache<Block, [u8; BLOCK_LEN], R>,
    block: Block,
) -> Result<u8, concurrent_lru::lru_core::Refusal> {
    let handle = cache.get_or_init(block, BLOCK_LEN as u64, load)?;
    Ok(handle.value()[0])
}

#[test]
fn two_families_share_a_capacity(rt: HostRuntime) -> Result<(), Fail> {
    // Room for two blocks of either family.
    let cache = LruCache::new(rt.alloc(), &rt, 2 * BLOCK_LEN as u64);
    let row = Block {
        family: Family::Rows,
        offset: 0,
    };
    let leaf = Block {
        family: Family::Index,
        offset: 0,
    };
    assert_eq!(rt; first_byte(&cache, row)?, b'r');
    assert_eq!(rt; first_byte(&cache, leaf)?, b'i');
    // A scan over the rows evicts the least recently used blocks of either family.
    let next = Block { offset: 64, ..row };
    assert_eq!(rt; first_byte(&cache, next)?, b'r');
    assert!(rt; !cache.contains(&row));
    assert!(rt; cache.contains(&leaf));
    assert_eq!(rt; cache.total_charge(), 2 * BLOCK_LEN as u64);
    Ok(())
}
