//! A cache of pages over any reader of blocks: a page with some number holds that block of its
//! reader, on any thread, whatever other threads do. `FileBlocks` is a reader of the blocks of a
//! file.
#![tactic(auto)]

mod blocks;
mod fault;
mod file_blocks;
mod open_error;
mod page;
mod page_cache;
mod read_at;

pub use blocks::Blocks;
pub use fault::Fault;
pub use file_blocks::FileBlocks;
pub use open_error::OpenError;
pub use page::{Numbered, Page};
pub use page_cache::PageCache;
pub use read_at::ReadAt;
