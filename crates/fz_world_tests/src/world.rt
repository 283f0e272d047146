//! Tests of a world.

mod cache;
mod collecting;
mod limits;
mod steps;
mod tests;
