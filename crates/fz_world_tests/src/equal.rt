//! What tests assert.

use std::fmt::Debug;
use std::process::Abort;

/// Fails the test if a value isn't the expected one. The assert is in a function of its own, because it is proved again wherever it occurs.
pub(crate) fn must_be<T: PartialEq + Debug + Drop>(rt: &impl Abort, found: T, want: T, what: &str) {
    assert_eq!(rt; found, want, "{what}");
}

/// The member of a list at this place. There has to be one.
pub(crate) fn at<T: Copy>(rt: &impl Abort, list: &[T], place: usize) -> T {
    list.get(place).copied().expect(rt, "a member")
}

/// Appends an element. There has to be memory for it.
pub(crate) fn push<T: Drop>(rt: &impl Abort, list: &mut Vec<T>, element: T) {
    list.push(element).expect(rt, "memory");
}

/// Records a number, which has to have an index in `seen` and may occur only once.
pub(crate) fn note_once(rt: &impl Abort, seen: &mut [bool], number: u64) {
    match seen.get_mut(number as usize) {
        Some(is_seen) => {
            must_be(rt, *is_seen, false, "a number that comes once");
            *is_seen = true;
        }
        None => panic!(rt; "{number} is outside"),
    }
}
