//! Running threads files: mutators and a collector, each on a thread of its own, with workers; and the summary of what became of their objects.

mod actors;
mod draft;
mod holds;
mod limits;
mod plan;
mod procedures;
mod reading;
mod run;
mod section;
mod stage;
mod summary;
mod tally;

pub use procedures::{Keep, Nothing};
pub use run::{drive_sections, drive_threads};
