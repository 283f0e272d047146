//! The table of registrations: at most one for each object.
#![tactic(auto)]

mod hasher;
mod limits;
mod pairs;
mod registrations;
mod stored;
mod table;

pub use hasher::AddressHasher;
pub use limits::MOST_ENTRIES;
pub use pairs::Pairs;
pub use registrations::Registrations;
pub use stored::Stored;
pub use table::Table;
