//! The finalization pass, over any heap.
#![tactic(auto)]

mod all;
mod clearing;
mod dropping;
mod ephemerons;
mod gathered;
mod host;
mod law;
mod leading;
mod listing;
mod pass;
mod picking;
mod plain;
mod radix;
mod ready_list;
mod settling;
mod terms;
mod whole;

pub use all::{Nothing, queue_all};
pub use ephemerons::Ephemerons;
pub use host::{Host, Values};
pub use law::{
    decisions_pass, keys_hold_nothing, late_decisions_decide, passes_are_safe,
    passes_without_ephemerons, whole_passes_are_safe,
};
pub use pass::decide;
pub use plain::Plain;
pub use ready_list::ReadyList;
pub use terms::Terms;
pub use whole::decide_whole;
