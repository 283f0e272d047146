//! The reference heap with its marks, as the host of a pass.
#![tactic(auto)]

mod children;
mod marked;
mod pass;
mod reclaiming;

pub use marked::Marked;
pub use pass::decide;
