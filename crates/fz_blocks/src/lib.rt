//! Cells in blocks: where a new object goes, and which cell a word lies in.
#![tactic(auto)]

mod block;
mod block_map;
mod block_set;
mod blocks;
mod claims;
mod class;
mod starts;

pub use block_map::BlockMap;
pub use starts::Starts;
