//! The calls of a world as values, and their replies.

use crate::answers::{LinkAnswer, MoveAnswer, Old, Passed, Progress, RegAnswer};
use crate::finalizer::Finalizer;
use crate::kinds::{LinkKind, ObjKind};
use crate::places::{Place, Slot};
use crate::{Addr, Word};

/// A call of a world. Only workers finish entries and hold their objects, so no call here names an entry.
#[derive(Clone, Copy, Debug, PartialEq, Eq)]
pub enum Call {
    /// Allocates an object and stores its address in the slot.
    Alloc {
        slot: Slot,
        /// In words.
        size: u64,
        kind: ObjKind,
    },
    /// Copies the slot's word into another slot.
    Copy {
        slot: Slot,
        to: Slot,
    },
    /// Loads a word of an object into a slot.
    Load {
        place: Place,
        to: Slot,
    },
    /// Stores a slot's word into an object.
    Store {
        place: Place,
        from: Slot,
    },
    /// Stores the word in the slot.
    Set {
        slot: Slot,
        word: Word,
    },
    /// Registers a finalizer for the object at the slot's word (`GC_register_finalizer` and its variants).
    Register {
        slot: Slot,
        finalizer: Finalizer,
    },
    /// Removes the registration of the object at the slot's word.
    Unregister(Slot),
    /// Registers a disappearing link at the place. Its target is the object at the slot's word.
    Link {
        which: LinkKind,
        place: Place,
        target: Slot,
    },
    /// Removes the link at the place.
    Unlink {
        which: LinkKind,
        place: Place,
    },
    /// Moves the link from one place to another (`GC_move_disappearing_link`, `GC_move_long_link`).
    Move {
        which: LinkKind,
        place: Place,
        to: Place,
    },
    /// Opens a collection cycle.
    Begin,
    /// Scans at most this many marked objects.
    Mark(u64),
    /// Ends the cycle with a remark and a pass, while mutators are stopped.
    Pause,
    /// A whole collection in one step (`GC_gcollect`).
    Collect,
    /// Closes the world: no later pass queues anything.
    Close,
    /// Counts the held entries: those that were queued and aren't finished.
    Outstanding,
}

/// What an accepted call returns.
#[derive(Clone, Copy, Debug, PartialEq, Eq)]
pub enum Reply {
    /// The call was carried out and has no result.
    Done,
    /// The address of the new object, and its birth.
    Allocated { address: Addr, birth: u64 },
    /// The word that was read.
    Word(Word),
    /// The result of registering a finalizer.
    Registered(RegAnswer),
    /// The procedure and data that were removed, if there was a registration.
    Unregistered(Option<Old>),
    /// The result of registering a link.
    Linked(LinkAnswer),
    /// Whether there was a link.
    Unlinked(bool),
    /// The result of moving a link.
    Moved(MoveAnswer),
    /// Whether marking is complete.
    Marked(Progress),
    /// What the pass has done.
    Passed(Passed),
    /// The number of held entries.
    Outstanding(u64),
}
