//! A page cache over memory: blocks are slices of one vector.
ghost use Rattle.std.specs.Prelude.{⊤};

use lru_pages::{Blocks, PageCache};
use std::alloc::Global;
use std::test::Fail;

const BLOCK_LEN: usize = 4;

/// Bytes that are read in blocks of four.
#[derive(Drop)]
struct Bytes<'a> {
    alloc: Global,
    bytes: &'a [u8],
}

/// Why a block was not read.
#[derive(Debug, Drop, PartialEq, Eq)]
enum Fault {
    PastTheEnd,
    Memory,
}

impl Blocks for Bytes<'_> {
    type Fault = Fault;

    // A contract may state more: which bytes are which block. Here any are.
    ghost is_block = { λ _ _ _. ⊤ };

    fn block(&self, number: u64) -> Result<Vec<u8>, Fault> {
        let Ok(number) = usize::try_from(number) else {
            return Err(Fault::PastTheEnd);
        };
        let Some(block) = self.bytes.chunks(BLOCK_LEN).nth(number) else {
            return Err(Fault::PastTheEnd);
        };
        Vec::from_slice(self.alloc, block).map_err(|_| Fault::Memory)
    }
}

#[test]
fn pages_are_read_once(rt: HostRuntime) -> Result<(), Fail> {
    let reader = Bytes {
        alloc: rt.alloc(),
        bytes: b"one, two, three",
    };
    let pages = PageCache::new(rt.alloc(), &rt, &reader, 2);
    let page = pages.page(1)?;
    assert_eq!(rt; page.bytes(), b" two".as_slice());
    // In the cache already: `read` passes its bytes to the closure, and reads no block.
    assert_eq!(rt; pages.read(1, |bytes| bytes.len())?, Some(4));
    assert!(rt; pages.page(4).is_err());
    Ok(())
}
