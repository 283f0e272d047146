//! Finalizers whose pass asks questions, for C, through a handle.
//! `c/include/derrimas_finalizers.h` declares what C calls; it is implemented over these exports.

mod adding;
mod asking;
mod codes;
mod entries;
mod handle;
mod keying;
mod linking;
mod opening;
mod passing;
mod registering;
mod session;
mod shown;
mod snapshot;
mod stuck;
mod walks;

pub use crate::old::Old;
pub use adding::{fz_machine_add_cleanup, fz_machine_cancel};
pub use asking::{Told, fz_machine_why};
pub use codes::Code;
pub use entries::{
    HostEntry, fz_machine_finish, fz_machine_take, fz_machine_take_finished, fz_machine_unfinished,
};
pub use handle::MachineHandle;
pub use keying::{
    fz_machine_end_ephemeron, fz_machine_ephemeron, fz_machine_key_marked,
    fz_machine_move_ephemeron,
};
pub use linking::{fz_machine_link, fz_machine_move_link, fz_machine_unlink};
pub use opening::{fz_machine_destroy, fz_machine_open, fz_machine_reserve, fz_machine_shrink};
pub use passing::{
    Passed, Question, fz_machine_abandon, fz_machine_begin, fz_machine_next, fz_machine_queue_all,
    fz_machine_queue_cleanups,
};
pub use registering::{Registered, fz_machine_register, fz_machine_unregister};
pub use session::MachineSession;
pub use shown::{
    CleanupAt, Counts, KeyAt, RegistrationAt, Words, fz_machine_cleanup, fz_machine_count,
    fz_machine_key, fz_machine_registration, fz_machine_roots, fz_machine_target,
};
pub use snapshot::{
    SnapshotHandle, SnapshotSession, fz_snapshot_destroy, fz_snapshot_holder, fz_snapshot_object,
    fz_snapshot_open, fz_snapshot_root, fz_snapshot_step, fz_snapshot_word,
};
pub use stuck::fz_machine_stuck;
pub use walks::{
    Cleanups, Linked, Links, Registrations, fz_machine_cleanups, fz_machine_ephemerons,
    fz_machine_links, fz_machine_registrations,
};
