//! Files as blocks: the last one, the end, files that change or fail, and threads that read one.

use crate::assertions::{assert_equal, assert_equal_at};
use crate::pages::scratch;
use concurrent_lru::unsharded::GetError;
use lru_pages::{Fault, FileBlocks, OpenError, PageCache, ReadAt};
use std::alloc::{AllocError, Global};
use std::fs::{File, Files, OpenOptions};
use std::io::ErrorKind;
use std::path::AsPath;
use std::process::Abort;
use std::sync::Wait;
use std::sync::atomic::{AtomicU64, Ordering};
use std::thread::Threads;
use std::{env, fs, io, thread};

// The number of bytes of a block.
const SIZE: usize = 32;

// How often a thread reads all blocks.
const ROUNDS: u32 = 20;

// Returns this many bytes; the first 251 blocks all differ.
fn bytes(alloc: Global, count: u32) -> Result<Vec<u8>, AllocError> {
    (0..count).map(|at| (at % 251) as u8).collect(alloc)
}

// Returns whether each page has the bytes of its block of the whole file.
fn are_right<R: Wait>(pages: &PageCache<'_, FileBlocks, R>, whole: &[u8]) -> bool {
    for (number, block) in whole.chunks(SIZE).enumerate() {
        match pages.page(number as u64) {
            Ok(page) if page.value().bytes() == block => {}
            _ => return false,
        }
    }
    true
}

// Returns whether they have, every time.
fn stay_right<R: Wait>(pages: &PageCache<'_, FileBlocks, R>, whole: &[u8]) -> bool {
    for _ in 0..ROUNDS {
        if !are_right(pages, whole) {
            return false;
        }
    }
    true
}

// Reads all blocks of a reader on four threads, which share a cache of three pages.
fn read_on_four_threads<R: Threads + Wait + Abort + Send + Sync>(
    rt: &R,
    alloc: Global,
    reader: &FileBlocks,
    whole: &[u8],
) {
    let pages = PageCache::new(alloc, rt, reader, 3);
    let right = thread::map_indices(rt, alloc, 4, &|_| stay_right(&pages, whole));
    let right = right.expect(rt, "four threads");
    assert_equal(rt, right.as_slice(), [true; 4].as_slice());
    assert!(rt; pages.total_charge() <= 3);
}

#[test]
fn four_threads_read_a_file(rt: HostRuntime) {
    let whole = bytes(rt.alloc(), 63 * 32 + 5).expect(&rt, "memory");
    let path = scratch::file(&rt, "lru_tests_four", &whole).expect(&rt, "a file");
    let reader = FileBlocks::open(rt.alloc(), &rt, path.as_path(), 32).expect(&rt, "blocks");
    read_on_four_threads(&rt, rt.alloc(), &reader, &whole);
    fs::remove_file(&rt, path.as_path()).expect(&rt, "the file is there");
}

// The answer to a request for a page.
#[derive(Clone, Copy, Debug, PartialEq, Eq)]
enum Told {
    // This many bytes, the last of which is this one.
    Bytes(usize, Option<u8>),
    PastEnd,
    Short,
    Failed(ErrorKind),
    // There is no memory for the bytes.
    NoMemory,
    // The cache refuses it.
    Refused,
}

impl Told {
    // Requests a page, whose handle is dropped at once.
    fn of<S: ReadAt, R: Wait>(pages: &PageCache<'_, FileBlocks<S>, R>, number: u64) -> Told {
        match pages.page(number) {
            Ok(page) => Told::bytes(page.value().bytes()),
            Err(GetError::Init(fault)) => Told::fault(fault),
            Err(_) => Told::Refused,
        }
    }

    fn bytes(bytes: &[u8]) -> Told {
        Told::Bytes(bytes.len(), bytes.last().copied())
    }

    fn fault(fault: Fault) -> Told {
        match fault {
            Fault::PastEnd => Told::PastEnd,
            Fault::Memory => Told::NoMemory,
            Fault::Short => Told::Short,
            Fault::Read(error) => Told::Failed(error.kind()),
        }
    }
}

// Requests the page of block 1 once the file has this many bytes. Returns the answer and the number
// of pages then.
fn told_at<R: Wait>(file: &File, pages: &PageCache<'_, FileBlocks, R>, len: u64) -> (Told, u64) {
    match file.set_len(len) {
        Ok(()) => (Told::of(pages, 1), pages.total_charge()),
        Err(error) => (Told::Failed(error.kind()), 0),
    }
}

// The lengths of a file of zeros, in order: for each, the answer and the number of pages then.
const CUTS: [(u64, Told, u64); 3] = [
    (40, Told::Short, 0),
    (64, Told::Bytes(32, Some(0)), 1),
    // The page is still in the cache.
    (40, Told::Bytes(32, Some(0)), 1),
];

// Cuts the file of a reader as `CUTS` says.
fn cut<R: Wait + Abort>(rt: &R, alloc: Global, reader: &FileBlocks, file: &File) {
    let pages = PageCache::new(alloc, rt, reader, 3);
    for (len, told, total) in CUTS {
        assert_equal_at(
            rt,
            told_at(file, &pages, len),
            (told, total),
            (len, "bytes"),
        );
    }
}

#[test]
fn a_file_that_was_cut_short_gives_no_page(rt: HostRuntime) {
    let zeros = [0u8; 64];
    let path = scratch::file(&rt, "lru_tests_cut", &zeros).expect(&rt, "a file");
    let reader = FileBlocks::open(rt.alloc(), &rt, path.as_path(), 32).expect(&rt, "blocks");
    let file = OpenOptions::new()
        .write(true)
        .open(&rt, path.as_path())
        .expect(&rt, "the file again");
    cut(&rt, rt.alloc(), &reader, &file);
    let _removed = fs::remove_file(&rt, path.as_path());
}

// A source whose first read fails, and whose second finds that it is short.
#[derive(Drop)]
struct Worn {
    reads: AtomicU64,
}

impl ReadAt for Worn {
    fn fill(&self, buf: &mut [u8], _offset: u64) -> io::Result<()> {
        match self.reads.fetch_add(1, Ordering::SeqCst) {
            0 => Err(io::Error::from(ErrorKind::TimedOut)),
            1 => Err(io::Error::from(ErrorKind::UnexpectedEof)),
            _ => {
                buf.fill(7);
                Ok(())
            }
        }
    }
}

fn make_worn() -> Worn {
    Worn {
        reads: AtomicU64::new(0),
    }
}

// Requests these pages of a reader, and compares the answers, and the number of pages after each.
fn tells<R: Wait + Abort>(
    rt: &R,
    alloc: Global,
    reader: &FileBlocks<Worn>,
    rows: &[(u64, Told, u64)],
) {
    let pages = PageCache::new(alloc, rt, reader, 3);
    for (number, told, total) in rows {
        assert_equal_at(rt, Told::of(&pages, *number), *told, ("page", number));
        assert_equal_at(rt, pages.total_charge(), *total, ("pages after", number));
    }
}

#[test]
fn a_fault_leaves_no_page(rt: HostRuntime) {
    let reader = FileBlocks::new(rt.alloc(), make_worn(), 6, 4);
    let rows = [
        (2, Told::PastEnd, 0),
        (0, Told::Failed(ErrorKind::TimedOut), 0),
        (0, Told::Short, 0),
        (0, Told::Bytes(4, Some(7)), 1),
        (1, Told::Bytes(2, Some(7)), 2),
    ];
    tells(&rt, rt.alloc(), &reader, &rows);
    let reader = FileBlocks::new(rt.alloc(), make_worn(), u64::MAX, u64::MAX);
    tells(&rt, rt.alloc(), &reader, &[(0, Told::NoMemory, 0)]);
}

// Returns why a path is not opened, or `None` if it is.
fn open_error<F: Files<File = File>, P: AsPath + Copy>(
    alloc: Global,
    files: &F,
    path: P,
) -> Option<OpenError> {
    FileBlocks::open(alloc, files, path, 32).err()
}

#[test]
fn what_is_no_file_is_not_opened(rt: HostRuntime) {
    let folder = env::temp_dir(&rt).expect(&rt, "a folder");
    let error = open_error(rt.alloc(), &rt, folder.as_path());
    assert!(rt; matches!(error, Some(OpenError::Folder)));
    let error = open_error(rt.alloc(), &rt, "/dev/null");
    assert!(rt; matches!(error, Some(OpenError::Special)));
    let missing = match open_error(rt.alloc(), &rt, "no_such_file") {
        Some(OpenError::System(error)) => Some(error.kind()),
        _ => None,
    };
    assert_equal(&rt, missing, Some(ErrorKind::NotFound));
}

#[test]
fn a_fault_has_a_text(rt: HostRuntime) {
    let faults = [
        (Fault::PastEnd, "the block is past the end"),
        (Fault::Memory, "there is no memory for the block"),
        (Fault::Short, "the file ends before its length"),
        (
            Fault::Read(io::Error::from(ErrorKind::TimedOut)),
            "timed out",
        ),
    ];
    for (fault, text) in faults {
        let told = format!(in rt.alloc(); "{fault}").expect(&rt, "memory");
        assert_equal(&rt, told.as_str(), text);
    }
}
