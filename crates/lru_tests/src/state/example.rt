//! An example of a cache for a single owner: two values are made, and the second leaves no room for
//! the first.

use concurrent_lru::lru_core::{Begun, State};
use std::sync::Arc;
use std::test::Fail;

#[test]
fn one_owner_makes_two_values(rt: HostRuntime) -> Result<(), Fail> {
    let mut state: State<u64, u64> = State::new(rt.alloc(), 1);
    for key in [1, 2] {
        // What the begin evicts is returned, and dropped where the caller chooses.
        let (begun, _evicted) = state.begin(&key, 1)?;
        if let Begun::Make(stamp) = begun {
            assert!(rt; state.ready(stamp, Arc::new(rt.alloc(), key * 10)?).is_ok());
            let _evicted = state.release(stamp)?;
        }
    }
    assert!(rt; state.get(&1)?.is_none());
    let (_stamp, value) = state.get(&2)?.ok_or("the second is there")?;
    assert_eq!(rt; *value, 20);
    Ok(())
}
