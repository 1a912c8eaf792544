//! Progress of a long read, for somebody who waits at a terminal.

use std::io::Write;

// The number of lines between two updates.
const INTERVAL: u64 = 1 << 20;

/// Shows how many lines have been read.
#[derive(Drop)]
pub struct Progress<'a, E> {
    terminal: &'a mut E,
    is_shown: bool,
}

impl<'a, E: Write> Progress<'a, E> {
    /// Creates a display on `terminal` that is updated every 1,048,576 lines, or never unless
    /// `is_shown`.
    pub fn new(terminal: &'a mut E, is_shown: bool) -> Progress<'a, E> {
        Progress { terminal, is_shown }
    }

    /// Notes that `lines` lines have been read, and shows the number if an update is due.
    pub fn update(&mut self, lines: u64) {
        if self.is_shown && lines % INTERVAL == 0 {
            // The next output replaces this line. Failing to write it is no reason to stop.
            let _ = write!(self.terminal, "{lines} lines read\r");
        }
    }
}
