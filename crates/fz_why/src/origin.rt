//! How a search came to an object.

use crate::reason::RootOf;
use fz_model::Addr;

/// How a search came to an object.
#[derive(Clone, Copy, Debug, PartialEq, Eq)]
pub(crate) enum Origin {
    /// The root points to it.
    Root(RootOf),
    /// The search begins with it.
    Itself,
    /// It is a first step of this registered object.
    First(Addr),
    /// It is a child of the object at this index of the trail.
    After(usize),
}
