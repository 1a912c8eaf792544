//! The trace, with the keys as numbers.
ghost use Rattle.std.specs.Prelude.{◌<◌};
ghost use Rattle.std.specs.List.{AllByRecursion};
ghost use Rattle.std.proofs.Props.{props};

use crate::failure::Failure;
use crate::lines::{Line, Use, advance};
use crate::progress::Progress;
use lru_sizing::estimate::Sample;
use lru_support::lines::Lines;
use std::alloc::Global;
use std::collections::HashMap;
use std::io::{BufRead, Write};

/// The uses of the sampled keys of a trace.
#[derive(Drop)]
pub struct Trace {
    alloc: Global,
    /// Which keys are sampled.
    pub sample: Sample,
    keys: HashMap<String, FirstUse>,
    /// The uses in order: for each the number of its key, and its charge, which is at least 1. The
    /// keys are numbered from 0 in the order of their first uses.
    pub uses: Vec<(u64, u64)>,
    /// The number of uses of all keys, whether sampled or not.
    pub total_uses: u64,
    ghost charged: { AllByRecursion (λ u. 0 < u.1) uses.items } by { Prim.hlevel props },
}

// The first use of a key: the number that the key gets, its charge and its line.
#[derive(Clone, Copy)]
struct FirstUse {
    number: u64,
    charge: u64,
    line: u64,
}

impl Trace {
    /// Reads a trace to its end, and keeps the uses of the sampled keys.
    ///
    /// # Errors
    ///
    /// `Line` if a line is not a use, `TwoCharges` if a sampled key has two charges, `Read` if
    /// the input cannot be read, and `OutOfMemory` if memory runs out.
    pub fn read<I: BufRead, E: Write>(
        alloc: Global,
        sample: Sample,
        lines: &mut Lines<I>,
        progress: &mut Progress<'_, E>,
    ) -> Result<Trace, Failure> {
        let mut trace = Trace {
            alloc,
            sample,
            keys: HashMap::new(alloc),
            uses: Vec::new(alloc),
            total_uses: 0,
        };
        // The loop needs a bound, and no input has that many lines.
        for _ in 0..u64::MAX {
            if !advance(lines)? {
                break;
            }
            let line = Line::last(alloc, lines);
            trace.add(line.number, line.parse()?)?;
            progress.update(trace.total_uses);
        }
        Ok(trace)
    }

    /// Returns the number of sampled keys.
    pub fn keys(&self) -> usize {
        self.keys.len()
    }

    /// Returns whether all uses have the same charge.
    pub fn has_one_charge(&self) -> bool {
        let Some((_, first)) = self.uses.first() else {
            return true;
        };
        self.uses.iter().all(|(_, charge)| charge == first)
    }

    // Adds the use on a line.
    fn add(&mut self, line: u64, used: Use<'_>) -> Result<(), Failure> {
        self.total_uses = line;
        if !self.sample.takes(&used.key) {
            return Ok(());
        }
        let number = self.number(line, used)?;
        self.uses.push((number, used.charge))?;
        Ok(())
    }

    // Returns the number of the key that a line uses. A new key gets the next number.
    fn number(&mut self, line: u64, used: Use<'_>) -> Result<u64, Failure> {
        if let Some(first) = self.keys.get(used.key) {
            if first.charge != used.charge {
                return Err(Failure::TwoCharges {
                    first: first.line,
                    second: line,
                });
            }
            return Ok(first.number);
        }
        let number = self.keys.len() as u64;
        let first = FirstUse {
            number,
            charge: used.charge,
            line,
        };
        self.keys
            .insert(String::from_str(self.alloc, used.key)?, first)?;
        Ok(number)
    }
}
