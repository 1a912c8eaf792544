//! The scripts of the rows on a cache without a lock.

use crate::rows::script::Act::{
    Begin, Evicted, Fail, Find, GiveBack, Hold, Make, MakeInVain, Poll, Prune, Ready, Release,
    SetCapacity, Total,
};
use crate::rows::script::{Act, Cache, Script};

/// A third entry in a cache for two evicts the first.
pub const EVICTS_THE_OLDEST: &[Script] = &[Script(
    Cache::Of(2),
    &[&[Make(1, 1), Make(2, 1), Make(3, 1), Evicted]],
)];

/// A pinned entry stays, whatever is inserted, and becomes the newest idle one when it is released.
pub const KEEPS_WHAT_IS_PINNED: &[Script] = &[Script(
    Cache::Of(2),
    &[
        &[Make(1, 1), Make(2, 1), Make(3, 1), Evicted, Hold(4, 1)],
        &[Evicted, Make(5, 1), Make(6, 1), Evicted, Release(3)],
        &[Evicted, Make(7, 1), Make(8, 1), Evicted],
    ],
)];

/// The charge counts from the start of a making, so one that fails has evicted others.
pub const EVICTS_BEFORE_A_FAILED_MAKING: &[Script] = &[Script(
    Cache::Of(2),
    &[
        &[Make(1, 1), Make(2, 1), MakeInVain(3, 2), Find(1)],
        &[Find(2), Total],
    ],
)];

/// An entry larger than the capacity stays while it is pinned.
pub const KEEPS_A_LARGE_ENTRY_WHILE_PINNED: &[Script] = &[Script(
    Cache::Of(5),
    &[&[Hold(1, 9), Total, Release(0), Find(1), Total]],
)];

/// A present entry keeps the charge that it was made with.
pub const KEEPS_THE_FIRST_CHARGE: &[Script] = &[Script(
    Cache::Of(10),
    &[&[Make(1, 3), Make(1, 7), Total]],
)];

/// Of two entries that were pinned together, the one that was released first is evicted first.
pub const EVICTS_BY_LAST_RELEASE: &[Script] = &[Script(
    Cache::Of(2),
    &[
        &[Hold(1, 1), Hold(2, 1), Release(1), Release(0)],
        &[Make(3, 1), Evicted],
    ],
)];

/// What stays is the longest list of newest entries whose charges fit.
pub const HOLDS_WHAT_FITS: &[Script] = &[
    Script(Cache::Of(5), THREE_AND_A_PRUNE),
    Script(Cache::Of(9), THREE_AND_A_PRUNE),
];

const THREE_AND_A_PRUNE: &[&[Act]] = &[&[Make(1, 3), Make(2, 2), Make(3, 4), Prune]];

/// A lookup makes an entry the newest, if it is still there.
pub const HOLDS_WHAT_WAS_LOOKED_UP: &[Script] = &[
    Script(Cache::Of(3), A_LOOK_UP_BETWEEN),
    Script(Cache::Of(4), A_LOOK_UP_BETWEEN),
];

const A_LOOK_UP_BETWEEN: &[&[Act]] = &[&[Make(1, 2), Make(2, 2), Find(1), Make(3, 1), Prune]];

/// A charge that would take the total past its maximum is refused before anything is evicted.
pub const REFUSES_PAST_THE_GREATEST_TOTAL: &[Script] = &[Script(
    Cache::Of(u64::MAX),
    &[&[Make(1, u64::MAX), Begin(2, 1), Find(1), Total]],
)];

/// A maker that fails leaves the making to the next caller that polls; stamps of entries that have
/// left are stale.
pub const HANDS_A_MAKING_OVER: &[Script] = &[Script(
    Cache::Of(10),
    &[
        &[Begin(1, 3), Find(1), Begin(1, 7), Fail(0), Poll(0)],
        &[Ready(0), Ready(0), Total, GiveBack(0), GiveBack(0)],
    ],
)];

/// At capacity 0 an entry is evicted when it is released.
pub const HOLDS_NOTHING_WITHOUT_CAPACITY: &[Script] = &[Script(
    Cache::Of(0),
    &[&[Make(1, 1), Evicted, Find(1)]],
)];

/// The last stamp is never given out, and an entry takes no more pins than the cache allows.
pub const REFUSES_PAST_THE_LAST_STAMP_AND_PIN: &[Script] = &[
    Script(Cache::AtLastStamp, &[&[Begin(1, 1)]]),
    Script(
        Cache::OfOnePin,
        &[&[Hold(1, 1), Find(1), Release(0), Find(1)]],
    ),
];

/// A smaller capacity evicts the oldest entries at once, and a larger one brings none of them back.
pub const SETTLES_TO_A_NEW_CAPACITY: &[Script] = &[Script(
    Cache::Of(9),
    &[
        &[Make(1, 3), Make(2, 2), Make(3, 4), SetCapacity(5)],
        &[Evicted, SetCapacity(9), Find(1), Prune],
    ],
)];
