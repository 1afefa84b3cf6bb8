//! Comparing what was found with what is wanted. `assert_eq!` is long where it is proved, so it
//! stands here once, and the tests call it.

use std::fmt::Debug;
use std::process::Abort;

/// In a row of a test, what was found is what is wanted.
pub fn expect<A: Abort, R: Debug + Copy, T: PartialEq + Debug>(
    rt: &A,
    row: R,
    found: &T,
    wanted: &T,
) {
    assert_eq!(rt; found, wanted, "at {row:?}");
}
