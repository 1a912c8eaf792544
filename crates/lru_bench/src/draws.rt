//! Keys drawn before the timing starts, which each worker reads from a position of its own.
ghost use Rattle.std.specs.Prelude.{◌<◌, vec_len};

use crate::failure::Failure;
use crate::keys::{Keys, Source};
use std::alloc::Global;
use std::fmt;
use std::fs::{File, Files};
use std::io::Read;
use std::num::NonZeroU64;

// The distance between the first draws of two successive workers.
const APART: usize = 131_072;

/// Keys that were drawn, at least one. They are read in order, and the first follows the last.
#[derive(Drop)]
pub struct Draws {
    keys: Vec<u64>,
    ghost some: { 0 < vec_len keys },
}

impl Draws {
    // Returns these keys as draws, or `Keys` if there are none.
    fn of(keys: Vec<u64>) -> Result<Draws, Failure> {
        if keys.is_empty() {
            return Err(Failure::Keys);
        }
        Ok(Draws { keys })
    }

    /// Draws `count` keys uniformly from those below `entries`. Returns `Keys` if `count` is 0.
    pub fn even(alloc: Global, entries: NonZeroU64, count: u32) -> Result<Draws, Failure> {
        let mut drawn = Keys::of_worker(entries, 0);
        let mut keys = Vec::new(alloc);
        for _ in 0..count {
            keys.push(drawn.draw())?;
        }
        Draws::of(keys)
    }

    /// Reads the keys of a file: 4-byte little-endian numbers.
    ///
    /// Returns `Keys` if there are none or the last is incomplete, and `System` if the file cannot
    /// be read.
    pub fn of_file<R: Files>(rt: &R, alloc: Global, path: &str) -> Result<Draws, Failure> {
        let mut file = File::open(rt, path)?;
        let mut bytes = Vec::new(alloc);
        file.read_to_end(&mut bytes)?;
        Draws::of_bytes(alloc, &bytes)
    }

    // Parses the keys in these bytes.
    fn of_bytes(alloc: Global, bytes: &[u8]) -> Result<Draws, Failure> {
        if bytes.len() % 4 != 0 {
            return Err(Failure::Keys);
        }
        let mut keys = Vec::new(alloc);
        for number in bytes.chunks(4) {
            if let [a, b, c, d] = number {
                keys.push(u64::from(u32::from_le_bytes([*a, *b, *c, *d])))?;
            }
        }
        Draws::of(keys)
    }

    // Returns the least and the greatest of the keys.
    fn bounds(&self) -> (u64, u64) {
        let first = self.keys[0];
        let least = self.keys.iter().copied().min();
        let greatest = self.keys.iter().copied().max();
        (least.unwrap_or(first), greatest.unwrap_or(first))
    }

    /// Returns the number of keys.
    pub fn len(&self) -> u64 {
        self.keys.len() as u64
    }

    /// Returns the keys from a worker's own position on.
    pub fn of_worker(&self, worker: u16) -> Drawing<'_> {
        let place = usize::from(worker).wrapping_mul(APART);
        Drawing {
            draws: self,
            place: place % self.keys.len(),
        }
    }
}

impl fmt::Display for Draws {
    fn fmt<W: fmt::Write>(&self, f: &mut fmt::Formatter<W>) -> fmt::Result {
        let (least, greatest) = self.bounds();
        write!(f, "{} keys from {least} to {greatest}", self.len())
    }
}

/// The keys from a worker's position on.
#[derive(Drop)]
pub struct Drawing<'a> {
    draws: &'a Draws,
    place: usize,
}

impl Source for Drawing<'_> {
    #[inline(always)]
    fn next_key(&mut self) -> u64 {
        if self.place >= self.draws.keys.len() {
            self.place = 0;
        }
        let key = self.draws.keys[self.place];
        self.place = self.place.wrapping_add(1);
        key
    }
}
