//! An object's size and kind, which decide where it lies.

use crate::ObjKind;

/// The size and kind of an object. Objects share a block only with objects of the same size and kind.
#[derive(Clone, Copy, Debug, PartialEq, Eq)]
pub struct Extent {
    /// In words.
    pub size: u64,
    /// Whether its words are scanned.
    pub kind: ObjKind,
}
