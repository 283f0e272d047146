//! The plain types of the finalization service. `specs/` defines what every other crate does.
//!
//! Words, addresses and numbers are `u64`. An address counts words, not bytes. The heap begins at address 65,536.
#![tactic(auto)]

mod answers;
mod call;
mod extent;
mod finalizer;
mod headline;
mod kinds;
mod laws;
mod limits;
mod places;
mod refusal;

pub use answers::{
    Entry, LinkAnswer, MoveAnswer, Old, Passed, Pick, Progress, RegAnswer, Registration,
};
pub use call::{Call, Reply};
pub use extent::Extent;
pub use finalizer::Finalizer;
pub use headline::every_run;
pub use kinds::{LinkKind, ObjKind, RegKind};
pub use laws::every_call;
pub use limits::{
    BLOCK_WORDS, COUNT_LIMIT, HEAP_START, MAX_BLOCKS, MAX_FRAMES, MAX_OBJECT_WORDS, MAX_WORKERS,
    SLOTS, TABLE_LIMIT,
};
pub use places::{Place, Slot};
pub use refusal::Refusal;

/// The address of a word of the heap.
pub type Addr = u64;

/// The content of a word of memory: any value. It is an address if it lies within an object.
pub type Word = u64;
