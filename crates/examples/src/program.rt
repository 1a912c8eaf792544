//! The program, over streams that the caller provides.

use crate::cat::cat;
use crate::failure::Failure;
use crate::replay::replay;
use crate::threads;
use std::alloc::Global;
use std::fs::{File, Files};
use std::io::{BufReader, LineWriter, Read, Write};
use std::sync::Wait;
use std::thread::Threads;

// The default number of pages.
const PAGES: u64 = 16;

// What `--help` writes.
const HELP: &str = "usage: examples [cat FILE [PAGES] | replay < STEPS]

Without arguments, four threads ask one cache for the same keys, and the program prints how many
values were made.

cat prints a file through a cache of its pages. The file is read in blocks of 512 bytes, and printed
in pieces of 128 bytes, each of which asks the cache for its block. Standard error tells how many
blocks were read and how many pieces were answered from memory.

  FILE    a file
  PAGES   how many blocks the cache holds, in digits: 16 unless it is given

replay runs the steps on standard input on a cache, and prints each with its answer and the values
that it dropped. docs/REPLAY.md describes the steps and the answers.
";

/// Runs the program on its arguments and returns the exit status.
///
/// `cat` and a path write the file to `out`, through a cache of 16 pages, or of the number given
/// after the path in digits. How many blocks were read and how many pages came from the cache is
/// then written to `err`. `replay` runs the steps of `input`, and writes each to `out` before it
/// reads the next one. `--help` writes to `out` what the arguments mean. The status is 0, or 2,
/// after a line on `err`, for any other arguments, or 1, after a line on `err`, if the program
/// fails; what was written to `out` before stays.
pub fn program<R, I, O, E>(
    rt: &R,
    alloc: Global,
    words: &[String],
    input: I,
    out: &mut O,
    err: &mut E,
) -> u8
where
    R: Threads + Wait + Files<File = File> + Clone + Drop + Send + Sync,
    I: Read + Drop,
    O: Write,
    E: Write,
{
    match run(rt, alloc, words, input, out, err) {
        Ok(()) => 0,
        Err(failure) => failure.report(err),
    }
}

fn run<'a, R, I, O, E>(
    rt: &R,
    alloc: Global,
    words: &'a [String],
    input: I,
    out: &mut O,
    err: &mut E,
) -> Result<(), Failure<'a>>
where
    R: Threads + Wait + Files<File = File> + Clone + Drop + Send + Sync,
    I: Read + Drop,
    O: Write,
    E: Write,
{
    match words {
        [] => Ok(threads::run(rt, alloc, out)?),
        [word] if word.as_str() == "--help" => Ok(out.write_all(HELP.as_bytes())?),
        [word] if word.as_str() == "replay" => {
            let input = BufReader::new(alloc, input).map_err(|error| Failure::of_input(&error))?;
            replay(rt, alloc, input, &mut LineWriter::new(alloc, out)?)
        }
        [word, path] if word.as_str() == "cat" => { cat(rt, alloc, path.as_str(), PAGES, out, err) }
        [word, path, pages] if word.as_str() == "cat" => {
            cat(rt, alloc, path.as_str(), number(pages.as_str())?, out, err)
        }
        _ => Err(Failure::Usage),
    }
}

// Parses a number of pages. A sign is not a digit, though `parse` accepts one.
fn number<'a>(text: &str) -> Result<u64, Failure<'a>> {
    if text.starts_with('+') {
        return Err(Failure::Usage);
    }
    text.parse().map_err(|_| Failure::Usage)
}
