//! Why an object isn't finalized: what retains it, which other objects with finalizers it waits for, or on which ring it is; and which objects wait for a
//! ring. Values of ephemerons count as a pass counts them.
#![tactic(auto)]

mod asking;
mod law;
mod origin;
mod paths;
mod reaching;
mod reason;
mod room;
mod rooting;
mod searching;
mod snapshot;
mod stuck_objects;
mod trail;
mod valuing;
mod waiting;

pub use asking::why;
pub use law::{answers, rings, without_ephemerons};
pub use paths::{Paths, Pointer};
pub use reason::{Reason, RootOf};
pub use room::NoMemory;
pub use snapshot::{Cell, Listed, Snapshot, why_of};
pub use stuck_objects::{stuck, stuck_of};
