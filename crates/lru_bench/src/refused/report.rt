//! The output of a run: the answers on one writer, and each call that was refused for lack of
//! memory on another. Writing does not allocate.

use crate::failure::Failure;
use std::fmt::Debug;
use std::io::Write;

/// The two writers.
#[derive(Drop)]
pub struct Report<'a, O, E> {
    out: &'a mut O,
    err: &'a mut E,
}

impl<'a, O: Write, E: Write> Report<'a, O, E> {
    /// Creates an output to which nothing was written yet.
    pub fn new(out: &'a mut O, err: &'a mut E) -> Report<'a, O, E> {
        Report { out, err }
    }

    /// Begins a script with a line that names it.
    pub fn begin(&mut self, script: &str) -> Result<(), Failure> {
        writeln!(self.out, "script {script}")?;
        Ok(())
    }

    /// Writes a call and what it returned.
    pub fn line<C: Debug, T: Debug>(&mut self, call: &C, returned: &T) -> Result<(), Failure> {
        writeln!(self.out, "{call:?}: {returned:?}")?;
        Ok(())
    }

    /// Writes that a call was refused for lack of memory.
    pub fn memory<C: Debug>(&mut self, call: &C) -> Result<(), Failure> {
        writeln!(self.err, "memory {call:?}")?;
        Ok(())
    }
}
