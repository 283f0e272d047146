//! Finalizers for a host with a heap of its own: registrations, links, and a queue of entries.
#![tactic(auto)]

mod adding;
mod cleaning;
mod cleanups;
mod data;
mod entries;
mod ephemerons;
mod finalizers;
mod kinds;
mod law;
mod linking;
mod links;
mod passes;
mod past;
mod queue;
mod ready;
mod refused;
mod registering;
mod registrations;
mod roots;
mod shrinking;
mod stepwise;
mod stored;
mod unfinished;
mod walks;
mod whole;

pub use cleanups::{Attached, Cleanup};
pub use finalizers::Finalizers;
pub use fz_model::{Addr, Entry, LinkAnswer, LinkKind, MoveAnswer, Old};
pub use fz_table::{Registrations, Stored};
pub use kinds::{Finalizer, Kind};
pub use law::every_sequence;
pub use passes::Passed;
pub use refused::Refused;
pub use roots::{Root, Roots};
pub use unfinished::Entries;
