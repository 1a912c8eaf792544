//! An entry's stamp with a hint of where it is.
use crate::node_table::Place;

/// Where a lookup of an entry begins: among the entries with this hash, and then at this place.
///
/// An entry that is found by its key has the hash of that key until it is removed, and each entry
/// stays at its place. Both are only hints: any hash and any place will do, and no clause says
/// anything of them.
#[derive(Clone, Copy, Debug)]
pub struct Hint {
    /// The hash of the key.
    pub hash: u64,
    /// Where the entry was.
    pub place: Place,
}

impl Hint {
    // Returns some hint, which may lead to no entry.
    pub(crate) fn first() -> Hint {
        Hint {
            hash: 0,
            place: Place::first(),
        }
    }
}

/// The stamp of an entry, and the hint with which a lookup of it begins.
#[derive(Clone, Copy, Debug)]
pub struct Spot {
    /// The number that identifies the entry.
    pub stamp: u64,
    /// Where the entry was.
    pub hint: Hint,
}
