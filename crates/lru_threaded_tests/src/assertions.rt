//! Assertions whose proofs stand once. That of an `assert_eq!` is made again at each use, and takes
//! a second or more.

use std::fmt::Debug;
use std::process::Abort;

/// Ends the test, and prints both values, unless they are equal.
pub(crate) fn assert_equal<R: Abort, T: PartialEq + Debug + Drop>(rt: &R, left: T, right: T) {
    assert_eq!(rt; left, right);
}

/// Ends the test, and prints both values and where they were compared, unless they are equal.
pub(crate) fn assert_equal_at<R, T, P>(rt: &R, left: T, right: T, place: P)
where
    R: Abort,
    T: PartialEq + Debug + Drop,
    P: Debug + Drop,
{
    assert_eq!(rt; left, right, "at {place:?}");
}
