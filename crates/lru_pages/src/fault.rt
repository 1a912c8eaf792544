//! Why a block was not read.
ghost use Rattle.std.specs.Prelude.{◌≢◌};

use std::io::ErrorKind;
use std::{fmt, io};

/// Why a block was not read.
#[derive(Clone, Copy, Debug)]
pub enum Fault {
    /// It begins past the end of the blocks.
    PastEnd,
    /// There is no memory for its bytes.
    Memory,
    /// The file ended before the block did: it is shorter than when it was opened, or it never had
    /// the length that the system reported, as some of the system's own files do not.
    Short,
    /// The read failed, with the system's error.
    Read(io::Error),
}

impl Fault {
    // Converts the error of a read.
    pub(crate) fn of_read(error: io::Error) -> Fault
        ensures { result ≢ Fault.PastEnd }
    {
        match error.kind() {
            ErrorKind::UnexpectedEof => Fault::Short,
            _ => Fault::Read(error),
        }
    }
}

impl fmt::Display for Fault {
    fn fmt<W: fmt::Write>(&self, f: &mut fmt::Formatter<W>) -> fmt::Result {
        match self {
            Fault::PastEnd => write!(f, "the block is past the end"),
            Fault::Memory => write!(f, "there is no memory for the block"),
            Fault::Short => write!(f, "the file ends before its length"),
            Fault::Read(error) => write!(f, "{error}"),
        }
    }
}
