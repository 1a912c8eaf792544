//! The workloads, with the names that stand for them on the command line and in the output.

use std::fmt;

/// A workload.
#[derive(Clone, Copy, PartialEq, Eq)]
pub enum Workload {
    /// `get` of present keys.
    HitGet,
    /// `read` of present keys.
    HitRead,
    /// `get_or_init` of present keys.
    HitInit,
    /// `get_or_init` of absent keys on a full cache.
    MissEvict,
    /// The calls of the stress workload.
    Stress,
    /// Reads that mostly hit.
    ReadMostly,
}

/// The workloads in the order in which they run, without `ReadMostly`, whose keys are drawn first.
pub const ALL: [Workload; 5] = [
    Workload::HitGet,
    Workload::HitRead,
    Workload::HitInit,
    Workload::MissEvict,
    Workload::Stress,
];

impl Workload {
    /// Returns the workload of this name, if it is one of `ALL`.
    pub fn named(name: &str) -> Option<Workload> {
        ALL.iter().find(|workload| workload.name() == name).copied()
    }

    fn name(self) -> &'static str {
        match self {
            Workload::HitGet => "hit_get",
            Workload::HitRead => "hit_read",
            Workload::HitInit => "hit_init",
            Workload::MissEvict => "miss_evict",
            Workload::Stress => "stress",
            Workload::ReadMostly => "read_mostly",
        }
    }
}

impl fmt::Display for Workload {
    fn fmt<W: fmt::Write>(&self, f: &mut fmt::Formatter<W>) -> fmt::Result {
        f.write_str(self.name())
    }
}
