//! Why records aren't finalized: worked rows.

mod rows;
mod steps;
