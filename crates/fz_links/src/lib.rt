//! Tables of disappearing links.
#![tactic(auto)]

mod anew;
mod links;

pub use links::Links;
