//! Prints a file piece by piece. Each piece asks for its page, so a page in the cache serves
//! several.

use crate::counted::CountedBlocks;
use crate::failure::Failure;
use concurrent_lru::unsharded::GetError;
use lru_pages::{Fault, FileBlocks, PageCache};
use std::alloc::Global;
use std::fs::{File, Files};
use std::io::Write;
use std::os::unix::fs::FileExt;
use std::sync::Wait;

// The number of bytes of each block except the last.
const BLOCK: u64 = 512;

// The number of bytes of each piece except the last.
const PIECE: usize = 128;

// The number of pieces of a block.
const PIECES: u64 = 4;

// The counts of printing a file.
#[derive(Clone, Copy)]
struct Counts {
    // The number of blocks that were read from the file.
    read: u64,
    // The number of times that a page was found in the cache.
    found: u64,
}

/// Prints the file at a path to `out`, through a cache of `pages` pages, and the counts to `err`. A
/// file that has no length is printed without the cache, to its end.
pub fn cat<'a, R: Wait + Files<File = File>, O: Write, E: Write>(
    rt: &R,
    alloc: Global,
    path: &'a str,
    pages: u64,
    out: &mut O,
    err: &mut E,
) -> Result<(), Failure<'a>> {
    let Counts { read, found } = print_file(rt, alloc, path, pages, out)?;
    writeln!(err, "{read} blocks read, {found} answers from memory")?;
    Ok(())
}

fn print_file<'a, R: Wait + Files<File = File>, O: Write>(
    rt: &R,
    alloc: Global,
    path: &'a str,
    pages: u64,
    out: &mut O,
) -> Result<Counts, Failure<'a>> {
    let blocks = match FileBlocks::open(alloc, rt, path, BLOCK) {
        Ok(blocks) => blocks,
        Err(error) => return Err(Failure::Open(path, error)),
    };
    if blocks.is_empty() {
        return print_to_the_end(path, blocks.source(), out);
    }
    print_pages(rt, alloc, path, blocks, pages, out)
}

// Prints a file that has blocks, through a cache of `pages` pages.
fn print_pages<'a, R: Wait, O: Write>(
    rt: &R,
    alloc: Global,
    path: &'a str,
    blocks: FileBlocks,
    pages: u64,
    out: &mut O,
) -> Result<Counts, Failure<'a>> {
    let count = blocks.len().div_ceil(PIECE as u64);
    let reader = CountedBlocks::new(blocks);
    let pages = PageCache::new(alloc, rt, &reader, pages);
    for piece in 0..count {
        print(path, &pages, piece, out)?;
    }
    let read = reader.requests();
    Ok(Counts {
        read,
        found: count.saturating_sub(read),
    })
}

// Prints a file whose length is 0: one that is empty, or one of the system's own, such as those of
// /proc, which do have bytes. Each read counts as a block.
fn print_to_the_end<'a, O: Write>(
    path: &'a str,
    file: &File,
    out: &mut O,
) -> Result<Counts, Failure<'a>> {
    let mut bytes = [0u8; BLOCK as usize];
    let mut offset = 0u64;
    for read in 0..u64::MAX {
        let count = match file.read_at(&mut bytes, offset) {
            Ok(0) => return Ok(Counts { read, found: 0 }),
            Ok(count) => count,
            Err(error) => return Err(Failure::Read(path, GetError::Init(Fault::Read(error)))),
        };
        out.write_all(&bytes[..count])?;
        offset = offset.saturating_add(count as u64);
    }
    Err(Failure::Read(path, GetError::Overflow))
}

// Prints a piece of the file.
fn print<'a, R: Wait, O: Write>(
    path: &'a str,
    pages: &PageCache<'_, CountedBlocks<FileBlocks>, R>,
    piece: u64,
    out: &mut O,
) -> Result<(), Failure<'a>> {
    let page = match pages.page(piece / PIECES) {
        Ok(page) => page,
        Err(error) => return Err(Failure::Read(path, error)),
    };
    let place = (piece % PIECES) as usize;
    if let Some(bytes) = page.value().bytes().chunks(PIECE).nth(place) {
        out.write_all(bytes)?;
    }
    Ok(())
}
