//! The assertion of the tests.

use std::fmt::Debug;
use std::process::Abort;

/// Fails the test if a value isn't the expected one. The assert is in a function of its own, because it is proved again wherever it occurs. A number in the
/// values says which case it is: a text with a number takes longer to prove.
pub(crate) fn must_be<T: PartialEq + Debug + Drop>(rt: &impl Abort, found: T, want: T, what: &str) {
    assert_eq!(rt; found, want, "{what}");
}
