//! The handles by which C holds clocks and readers.
ghost use Rattle.std.specs.Borrow.{sem};
ghost use Rattle.std.specs.Prelude.{◌≡◌, ◌==◌, Option, Some, is_some, true};
ghost use Rattle.lru_c.specs.ClockPointers.{HeldClock, HeldReader, clock_coded, clock_owns, reader_coded, reader_owns};

use crate::at::At;
use crate::clock::locked::Clock;
use crate::clock::reader::Reader;
use crate::handle::Handle;
use std::alloc::Global;
use std::marker::{Model, Send};

/// A pointer of C. If `held` is some, it owns that clock as a box does; otherwise it owns nothing.
#[repr(C)]
#[derive(Drop)]
pub struct ClockAt {
    at: *mut u8,
    alloc: Global,
    pub ghost held: { Option HeldClock } by { clock_coded },
}

impl Model for ClockAt {
    ghost also_owns = { λ c. clock_owns c.alloc c.at c.held };
}

// C makes one call at a time on a handle, from any thread.
unsafe impl Send for ClockAt {}

impl ClockAt {
    ghost use Rattle.lru_c.specs.ClockLends.{lends_clock};

    fn of(parts: At<Clock, Global>) -> ClockAt
        ensures { result.held ≡ parts.held }
    {
        let At { ptr, alloc } = parts;
        ClockAt {
            at: ptr as *mut u8,
            alloc,
        }
    }

    fn into_parts(self) -> At<Clock, Global>
        ensures { result.held ≡ self.held }
    {
        let ClockAt { at, alloc } = self;
        At {
            ptr: at as *mut Clock,
            alloc,
        }
    }

    // Borrows the clock that the pointer leads to.
    fn lend(&mut self) -> &mut Clock
        requires { is_some self.old.held ≡ true }
        ensures* writes_back { sem 𝓛 (lends_clock self.entry result) }
        ensures value { self.old.held ≡ Some result.now }
    {
        unsafe { &mut *(self.at as *mut Clock) }
    }
}

/// A clock as C holds it: a pointer, and a word by which a call can tell whether it is open. A
/// handle of all zeros is not open.
#[repr(C)]
#[derive(Drop)]
pub struct LruClock {
    /// The pointer, with what it owns.
    pub clock: ClockAt,
    /// 1 if the pointer owns a clock, otherwise 0. It is a word because a `bool` would be followed
    /// by padding, which is copied with the struct.
    pub is_open: u64,
    pub ghost agrees: { is_some clock.held ≡ (is_open == 1) },
}

impl Handle for LruClock {
    type To = Clock;

    ghost held = { λ h. h.clock.held };

    fn of_parts(at: At<Clock, Global>, is_open: bool) -> LruClock
        requires { is_some at.held ≡ is_open }
        ensures { result.clock.held ≡ at.held }
    {
        LruClock {
            clock: ClockAt::of(at),
            is_open: if is_open { 1 } else { 0 },
        }
    }

    fn into_parts(self) -> (At<Clock, Global>, bool)
        ensures held { result.0.held ≡ self.clock.held }
        ensures is_open { is_some result.0.held ≡ result.1 }
    {
        let LruClock { clock, is_open } = self;
        (clock.into_parts(), is_open == 1)
    }

    fn get_mut(&mut self) -> Option<&mut Clock> {
        if self.is_open == 1 {
            Some(self.clock.lend())
        } else {
            None
        }
    }
}

/// A pointer of C. If `held` is some, it owns that reader as a box does; otherwise it owns nothing.
#[repr(C)]
#[derive(Drop)]
pub struct ReaderAt {
    at: *mut u8,
    alloc: Global,
    pub ghost held: { Option HeldReader } by { reader_coded },
}

impl Model for ReaderAt {
    ghost also_owns = { λ c. reader_owns c.alloc c.at c.held };
}

// C makes one call at a time on a handle, from any thread.
unsafe impl Send for ReaderAt {}

impl ReaderAt {
    ghost use Rattle.lru_c.specs.ClockLends.{lends_reader};

    fn of(parts: At<Reader, Global>) -> ReaderAt
        ensures { result.held ≡ parts.held }
    {
        let At { ptr, alloc } = parts;
        ReaderAt {
            at: ptr as *mut u8,
            alloc,
        }
    }

    fn into_parts(self) -> At<Reader, Global>
        ensures { result.held ≡ self.held }
    {
        let ReaderAt { at, alloc } = self;
        At {
            ptr: at as *mut Reader,
            alloc,
        }
    }

    // Borrows the reader that the pointer leads to.
    fn lend(&mut self) -> &mut Reader
        requires { is_some self.old.held ≡ true }
        ensures* writes_back { sem 𝓛 (lends_reader self.entry result) }
        ensures value { self.old.held ≡ Some result.now }
    {
        unsafe { &mut *(self.at as *mut Reader) }
    }
}

/// A reader as C holds it: a pointer, and a word by which a call can tell whether it is open. A
/// handle of all zeros is not open.
#[repr(C)]
#[derive(Drop)]
pub struct LruReader {
    /// The pointer, with what it owns.
    pub reader: ReaderAt,
    /// 1 if the pointer owns a reader, otherwise 0. It is a word because a `bool` would be followed
    /// by padding, which is copied with the struct.
    pub is_open: u64,
    pub ghost agrees: { is_some reader.held ≡ (is_open == 1) },
}

impl Handle for LruReader {
    type To = Reader;

    ghost held = { λ h. h.reader.held };

    fn of_parts(at: At<Reader, Global>, is_open: bool) -> LruReader
        requires { is_some at.held ≡ is_open }
        ensures { result.reader.held ≡ at.held }
    {
        LruReader {
            reader: ReaderAt::of(at),
            is_open: if is_open { 1 } else { 0 },
        }
    }

    fn into_parts(self) -> (At<Reader, Global>, bool)
        ensures held { result.0.held ≡ self.reader.held }
        ensures is_open { is_some result.0.held ≡ result.1 }
    {
        let LruReader { reader, is_open } = self;
        (reader.into_parts(), is_open == 1)
    }

    fn get_mut(&mut self) -> Option<&mut Reader> {
        if self.is_open == 1 {
            Some(self.reader.lend())
        } else {
            None
        }
    }
}
