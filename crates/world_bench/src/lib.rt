//! Benchmarks of a world's calls, and of finalizers over a heap of records, called by C programs that time them.
//!
//! One export carries out a plan: it opens a world of its own, makes the calls, and drops the world. So the time of a call is the difference between the
//! times of two plans, one with the call and one without.
#![tactic(auto)]

mod host;
mod links;
mod plan;
mod run;
mod stores;

pub use host::{HostOutcome, HostPlan, host_bench_run};
pub use plan::{Outcome, Plan};
pub use run::world_bench_run;
