//! Why a file was not opened as blocks.

use std::{fmt, io};

/// Why a file was not opened.
#[derive(Clone, Copy, Debug)]
pub enum OpenError {
    /// The path is that of a directory.
    Folder,
    /// It is neither a regular file nor a directory but a device, a pipe or a socket, which has no
    /// length.
    Special,
    /// The system's error: `NotFound` if there is no file, `PermissionDenied` if it may not be
    /// read.
    System(io::Error),
}

impl From<io::Error> for OpenError {
    fn from(error: io::Error) -> OpenError {
        OpenError::System(error)
    }
}

impl fmt::Display for OpenError {
    fn fmt<W: fmt::Write>(&self, f: &mut fmt::Formatter<W>) -> fmt::Result {
        match self {
            OpenError::Folder => write!(f, "it is a directory"),
            OpenError::Special => write!(f, "it is not a regular file"),
            OpenError::System(error) => write!(f, "{error}"),
        }
    }
}
