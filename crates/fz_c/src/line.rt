//! The ready line for C: an owner's end that publishes entries, and seats (consumers) that take them, each through a handle.
//! `c/include/derrimas.h` declares the exports.

mod codes;
mod handle;
mod line_session;
mod lines;
mod seat_session;
mod seats;

pub use crate::entry::Entry;
pub use codes::Code;
pub use handle::{LineHandle, SeatHandle};
pub use line_session::LineSession;
pub use lines::{fz_line_destroy, fz_line_open, fz_line_publish, fz_line_seat};
pub use seat_session::SeatSession;
pub use seats::{fz_seat_destroy, fz_seat_done, fz_seat_take};
