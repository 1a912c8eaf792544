//! An example of a loader that returns the system's errors: a pool of open files by path.

use crate::assertions::assert_equal;
use crate::pages::scratch;
use concurrent_lru::unsharded::{CacheHandle, GetError, LruCache};
use std::alloc::{AllocError, Global};
use std::fs::{File, Files};
use std::io::ErrorKind;
use std::os::unix::fs::FileExt;
use std::path::Path;
use std::process::Abort;
use std::sync::Wait;
use std::{fs, io};

/// Open files by path: one that is being read stays open, and an unused one does while at most
/// `capacity` are open in all.
#[derive(Drop)]
struct Pool<'a, F: Files<File = File>, R: Wait> {
    alloc: Global,
    files: &'a F,
    open: LruCache<String, File, R>,
}

impl<'a, F: Files<File = File>, R: Wait> Pool<'a, F, R> {
    fn new(alloc: Global, rt: R, files: &'a F, capacity: u64) -> Self {
        Pool {
            alloc,
            files,
            open: LruCache::new(alloc, rt, capacity),
        }
    }

    // Returns a handle of the file at a path, which is opened if it is not open. Returns the
    // system's error if it cannot be opened; nothing of it stays then.
    fn file(
        &self,
        path: Path<'_>,
    ) -> Result<CacheHandle<'_, String, File, R>, GetError<io::Error>> {
        let Ok(key) = String::from_str(self.alloc, path.as_str()) else {
            return Err(GetError::Memory);
        };
        let files = self.files;
        self.open
            .get_or_try_init(key, 1, |path| File::open(files, path.as_str()))
    }

    // Returns the first byte of the file at a path, if it can be opened and read.
    fn first(&self, path: Path<'_>) -> Option<u8> {
        match self.file(path) {
            Ok(file) => first(file.value()),
            Err(_) => None,
        }
    }

    // Another file has this path now: closes the one that had it, unless it is being read.
    fn forget(&self, path: Path<'_>) -> Result<(), AllocError> {
        self.open
            .advice_evict(String::from_str(self.alloc, path.as_str())?);
        Ok(())
    }
}

// Returns the first byte of a file, if it can be read.
fn first(file: &File) -> Option<u8> {
    let mut byte = [0];
    match file.read_exact_at(&mut byte, 0) {
        Ok(()) => Some(byte[0]),
        Err(_) => None,
    }
}

// Reads two files by a pool that keeps one of them open.
fn read_two<R: Abort + Files<File = File> + Wait>(
    rt: &R,
    pool: &Pool<'_, R, &R>,
    fruit: Path<'_>,
    roots: Path<'_>,
) {
    let held = pool.file(fruit).expect(rt, "the file is there");
    assert_equal(rt, pool.first(roots), Some(b'c'));
    // The other was closed when it was released; the held one is there for the next read.
    assert_equal(rt, pool.open.total_charge(), 1);
    assert_equal(rt, first(held.value()), Some(b'a'));
    drop(held);
    // A renamed file: the pool has the one that had the path before, until it is invalidated.
    fs::rename(pool.files, roots, fruit).expect(rt, "both are there");
    assert_equal(rt, pool.first(fruit), Some(b'a'));
    pool.forget(fruit).expect(rt, "memory");
    assert_equal(rt, pool.first(fruit), Some(b'c'));
    // Room was made before the open that fails, so nothing is open then.
    let missing = pool.file(roots).err();
    assert!(rt; matches!(&missing, Some(GetError::Init(e)) if e.kind() == ErrorKind::NotFound));
    assert_equal(rt, pool.open.total_charge(), 0);
}

#[test]
fn a_pool_of_open_files(rt: HostRuntime) {
    let fruit = scratch::file(&rt, "lru_tests_fruit", b"apples and pears").expect(&rt, "a file");
    let roots = scratch::file(&rt, "lru_tests_roots", b"carrots").expect(&rt, "a file");
    let pool = Pool::new(rt.alloc(), &rt, &rt, 1);
    read_two(&rt, &pool, fruit.as_path(), roots.as_path());
    fs::remove_file(&rt, fruit.as_path()).expect(&rt, "the file is there");
}
