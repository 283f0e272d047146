//! The steps of a script.

use fz_model::{Call, Slot};

/// One step of a script, with the fields of its line in order.
///
/// Workers are numbered from 0. The fields are as spelled: the step's call checks whether what a number names exists.
#[derive(Clone, Copy, Debug, PartialEq, Eq)]
pub enum Step {
    /// Opens a world with this many blocks of 64 words, frames of 16 slots, and workers. It is the first step of a script and occurs only once.
    Open {
        blocks: u64,
        frames: u64,
        workers: u64,
    },
    /// A call to the world.
    Call(Call),
    /// The worker takes the next entry of the queue.
    Take {
        worker: u64,
    },
    /// Stores the address of the object of the worker's entry in the slot.
    Hold {
        worker: u64,
        slot: Slot,
    },
    /// The worker finishes its entry, which then no longer retains its object.
    Finish {
        worker: u64,
    },
    /// The worker abandons its entry, which retains its object for ever.
    Forfeit {
        worker: u64,
    },
}
