//! Bitmaps: sets of numbers with one bit for each.
#![tactic(auto)]

mod flags;
mod members;
mod small_flags;
mod sparse_flags;
mod word_flags;

pub use flags::Flags;
pub use members::Members;
pub use small_flags::SmallFlags;
pub use sparse_flags::SparseFlags;
