//! The ready line is a queue with one producer and several consumers. The owner publishes entries; seats take them in order, each entry once, lock-free and
//! without waiting.
//!
//! `line` makes a line with its seats (consumers). A seat that takes an entry becomes a `Duty`, and `done` or `forfeit` turns that into a seat again.
//! `PlainLine` is the same order for a single thread: it counts how many entries of a queue were taken.
#![tactic(auto)]

mod drain;
mod duty;
mod opening;
mod owner;
mod plain_line;
mod protocol;
mod seat;
mod taker;

pub use crossbeam_deque::Steal;
pub use duty::Duty;
pub use opening::{line, retire_all};
pub use owner::{Owner, Shortage};
pub use plain_line::PlainLine;
pub use seat::{Seat, Take};
pub use taker::{Deque, Front, Taker};
