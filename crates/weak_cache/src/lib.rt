//! A weak cache over a world, single-threaded. `fz_world_tests` has its tests, which show how it is called.
#![tactic(auto)]

mod cache;

pub use cache::Cache;
