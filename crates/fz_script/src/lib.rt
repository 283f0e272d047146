//! Parsing the lines of scripts and of threads files.
//!
//! A script drives the finalization service step by step: each line is one step, such as `new 0 0 2 scanned` or `collect`. `step_of` parses a line. It is the
//! exact inverse of the spelling that specs/Spelling.antt defines. A threads file says what several threads do; `job_of` parses its lines, and
//! specs/Jobs.antt defines their spelling.
#![tactic(auto)]

mod fields;
mod job;
mod reading;
mod step;
mod words;

pub use job::{Job, MAX_COLLECTIONS, MAX_TURNS, job_of};
pub use reading::step_of;
pub use step::Step;
