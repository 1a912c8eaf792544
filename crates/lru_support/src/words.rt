//! The arguments of a command line.

use std::alloc::AllocError;
use std::io::ErrorKind;
use std::rt::Env;
use std::{env, io};

/// Returns the words after the program's name. Returns `not_text` if one of them is not UTF-8, and
/// the program's failure for lack of memory if memory for them is refused.
pub fn after_name<R: Env + AllocGlobal, F: From<AllocError> + Drop>(
    rt: &R,
    not_text: F,
) -> Result<Vec<String>, F> {
    match read_after_name(rt) {
        Ok(words) => Ok(words),
        Err(error) => Err(failure_of(&error, not_text)),
    }
}

fn read_after_name<R: Env + AllocGlobal>(rt: &R) -> io::Result<Vec<String>> {
    Ok(env::args(rt)?.skip(1).collect(rt.alloc())?)
}

// Converts the error of reading the words to the program's failure: its own for lack of memory, or
// the one for a word that is not text.
fn failure_of<F: From<AllocError> + Drop>(error: &io::Error, not_text: F) -> F {
    match error.kind() {
        ErrorKind::OutOfMemory => F::from(AllocError),
        _ => not_text,
    }
}
