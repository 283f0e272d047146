//! The finalization service: a world under one lock, a lock-free ready line, and the workers that take from it.
//!
//! `Service::prepare` allocates what a service needs. `Service::open`, with a type that names this one opening, returns the service and its seats. `enter`
//! takes the lock and lends `Locked`, which has the calls of a world.
#![tactic(auto)]

mod bell;
mod beside;
mod calls;
mod diary;
mod ending;
mod event;
mod held;
mod holds;
mod law;
mod locked;
mod opening;
mod prepared;
mod room;
mod seat;
mod service;
mod shortages;
mod turn;
mod worker_threads;
mod workers;

pub use beside::{Program, with_service};
pub use ending::Final;
pub use law::every_hold;
pub use locked::Locked;
pub use opening::{Finishes, Opening};
pub use prepared::Prepared;
pub use room::ServiceError;
pub use seat::{Duty, Seat, Take, retire_all};
pub use service::{Guard, Service};
pub use workers::{Gate, OpenGate, Proc};
