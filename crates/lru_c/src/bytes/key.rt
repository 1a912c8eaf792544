//! Keys of bytes.
ghost use Rattle.std.specs.Hash as fed;
ghost use Rattle.std.specs.Prelude.{◌≡◌, []};
ghost use Rattle.std.specs.Cmp.Rules.{hashing};
ghost use Rattle.std.proofs.Common.{rules};

use std::alloc::Global;
use std::hash::{Hash, Hasher};

/// A key of bytes, with the hash that the caller passed with it. Two keys are equal if they have
/// the same hash and the same bytes.
#[derive(Clone, PartialEq, Eq, Drop)]
pub struct Bytes {
    /// The hash. It is compared first, since it differs for most keys that differ.
    pub hash: u64,
    /// The bytes.
    pub bytes: Vec<u8>,
}

impl Bytes {
    // Creates a key of no bytes.
    pub(crate) fn new(alloc: Global) -> Bytes
        ensures { result.bytes.items ≡ [] }
    {
        Bytes {
            hash: 0,
            bytes: Vec::new(alloc),
        }
    }
}

// The caller hashed the bytes before it took its lock. The cache mixes this word with its seed, as
// it does any other, so a poor hash only makes lookups slow.
impl Hash for Bytes {
    ghost hash_input = { λ key. fed.u64 key.hash };

    ghost respects_eq = { Prim.search (hashing, rules) };

    fn hash<H: Hasher>(&self, state: &mut H) {
        state.write_u64(self.hash);
    }
}
