//! The calls and readers of a world as C exports, which `c/include/derrimas.h` declares. A code is 0, the number of the world's refusal, or one of the C
//! interface itself.

mod by_address;
mod codes;
mod collections;
mod entries;
mod finalizers;
mod handle;
mod links;
mod objects;
mod samples;
mod session;
mod shown;
mod slots;
mod worlds;

pub use crate::entry::Entry;
pub use crate::old::Old;
pub use by_address::{fz_link_at, fz_move_link_at, fz_register_at, fz_unlink_at, fz_unregister_at};
pub use codes::Code;
pub use collections::{Passed, fz_begin, fz_collect, fz_mark, fz_pause};
pub use entries::{
    fz_finish, fz_finish_and_take, fz_forget, fz_hold, fz_outstanding, fz_take, fz_waiting,
};
pub use finalizers::{
    Registered, fz_register, fz_register_ignore_self, fz_register_no_order, fz_unregister,
};
pub use handle::WorldHandle;
pub use links::{fz_link, fz_move_link, fz_unlink};
pub use objects::{Made, fz_alloc, fz_load, fz_read, fz_store};
pub use samples::{Samples, fz_sample};
pub use session::WorldSession;
pub use shown::{
    Counts, Linked, Object, Registration, fz_base, fz_count, fz_forgotten, fz_next_held,
    fz_next_link, fz_next_object, fz_next_registration, fz_queued,
};
pub use slots::{CSlot, fz_copy, fz_get, fz_set};
pub use worlds::{fz_close, fz_destroy, fz_open};
