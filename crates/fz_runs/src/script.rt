//! Running scripts: one world with its workers, step by step, and a report of what each step returns.

mod answer;
mod machine;
mod reply;
mod run;

pub use run::{Summary, drive};
