//! The reuse weights of a trace, from one pass over it.
ghost use Rattle.std.specs.Prelude.{◌≡◌, IfOk, IfErr, OnOk, length, vec_len};
ghost use Rattle.concurrent_lru.specs.Uses.{HaveOneCharge};
ghost use Rattle.lru_sizing.specs.ReuseWeights.{reuse_weights};
ghost use Rattle.lru_sizing.specs.RefusedTraces.{IsRefusedFor};

use crate::refusal::Refusal;
use crate::sum_tree::SumTree;
use std::alloc::Global;
use std::collections::HashMap;
use std::hash::Hash;

/// Returns the reuse weight of each use of a trace, in order, with `None` for the first use of a
/// key. A use is a key and its charge.
///
/// Takes memory for each use. Returns `TwoCharges` if two uses of one key have different charges,
/// `Overflow` if the charges of the distinct keys sum to more than `u64::MAX`, and `Memory` if the
/// allocator refuses.
pub fn reuse_weights<K: Hash + Eq>(
    alloc: Global,
    trace: &[(K, u64)],
) -> Result<Vec<Option<u64>>, Refusal>
    ensures weights { IfOk result (λ weights. weights.items ≡ reuse_weights K.eq trace.now) }
    ensures len { IfOk result (λ weights. vec_len weights ≡ length trace.now) }
    ensures charged { OnOk result (HaveOneCharge K.eq trace.now) }
    ensures err { IfErr result (λ e. IsRefusedFor K.eq trace.now e) }
{
    // The charge of each key at the index of its last use so far, and 0 elsewhere.
    let mut charges = SumTree::zeros(alloc, trace.len())?;
    let mut last_places: HashMap<&K, usize> = HashMap::new(alloc);
    let mut total = 0;
    let mut weights = Vec::new(alloc);
    for (place, (key, charge)) in trace.iter().enumerate() {
        let weight = match last_places.get(&key) {
            Some(&last) => {
                if trace[last].1 != *charge {
                    return Err(Refusal::TwoCharges(last, place));
                }
                let weight = charges.sum_from(last);
                charges.set(last, 0);
                Some(weight)
            }
            None => {
                if *charge > u64::MAX - total {
                    return Err(Refusal::Overflow(place));
                }
                total += *charge;
                None
            }
        };
        charges.set(place, *charge);
        last_places.insert(key, place)?;
        weights.push(weight)?;
    }
    Ok(weights)
}
