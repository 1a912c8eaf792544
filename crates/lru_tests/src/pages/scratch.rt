//! Files of the tests, in the system's temporary directory, each with a name of its own.

use std::fs::Files;
use std::path::PathBuf;
use std::rt::Env;
use std::{env, fs, io};

/// Writes a file of a test, and returns its path.
pub(crate) fn file<R: Env + Files + AllocGlobal>(
    rt: &R,
    name: &str,
    bytes: &[u8],
) -> io::Result<PathBuf> {
    let mut path = env::temp_dir(rt)?;
    path.push(name)?;
    fs::write(rt, path.as_path(), bytes)?;
    Ok(path)
}
