//! Finalizers whose pass asks questions, for a host that answers them: one in Rattle that has no contract, or one in C.
#![tactic(auto)]

mod abandoning;
mod answers;
mod asking;
mod calls;
mod going_on;
mod item;
mod law;
mod listing;
mod machine;
mod marks;
mod over;
mod pass;
mod phase;
mod question;
mod refused;
mod regions;
mod reserving;
mod responding;
mod rows;
mod tables;
mod telling;
mod walk;

pub use item::Item;
pub use law::{
    marked_items_cost_no_answers, passes_are_calls, passes_end, questions_may_be_asked,
    region_questions_end, runs_make_the_pass, runs_make_the_plain_pass, young_passes_are_passes,
};
pub use machine::{By, Machine};
pub use pass::{Next, Step};
pub use phase::{Moment, Phase, Sweep};
pub use question::{Ask, BATCH, Question};
pub use refused::Refused;
pub use responding::{respond, respond_marks, respond_with_values};
pub use walk::Walk;
