//! The items that the phases of a pass process.

ghost use Rattle.std.specs.Prelude.{◌≡◌};
ghost use Rattle.fz_machine.specs.Items.{of_cleanup, of_link, of_stored};

use fz_finalizers::{Attached, Kind, Stored};
use fz_model::Addr;

/// A link, an ephemeron, a registration or a cleanup, as a phase processes it.
#[derive(Clone, Copy, Debug, PartialEq, Eq)]
pub struct Item {
    /// The registered object, the target of the link, the key of the ephemeron, or the object of the cleanup.
    pub object: Addr,
    /// The word of the link or of the ephemeron, or the number of the cleanup; 0 for a registration.
    pub word: u64,
    /// The kind of the registration; `Normal` for a link, an ephemeron or a cleanup.
    pub kind: Kind,
    /// The position in queue order: the rank of the registration or the cleanup, plus 256 for the kind `Unreachable`; 0 for a link or an ephemeron.
    pub turn: u16,
    /// Whether what a phase would ask about it is known to be false, from what was told of its region.
    pub known: bool,
}

impl Item {
    /// A link from the word to the target, or an ephemeron with its key.
    pub(crate) fn of_link(word: Addr, target: Addr, known: bool) -> Item
        ensures { result ≡ of_link known (word, target) }
    {
        Item {
            object: target,
            word,
            kind: Kind::Normal,
            turn: 0,
            known,
        }
    }

    /// A cleanup with its number.
    pub(crate) fn of_cleanup(number: u64, attached: &Attached, known: bool) -> Item
        ensures { result ≡ of_cleanup known (number, attached.now) }
    {
        Item {
            object: attached.object,
            word: number,
            kind: Kind::Normal,
            turn: u16::from(attached.cleanup.rank),
            known,
        }
    }

    /// An object's registration.
    pub(crate) fn of_stored(object: Addr, stored: &Stored, known: bool) -> Item
        ensures { result ≡ of_stored known (object, stored.now) }
    {
        let registration = stored.registration();
        let rank = u16::from(registration.rank);
        Item {
            object,
            word: 0,
            kind: Kind::of_table(stored.unreachable, registration.kind),
            turn: if stored.unreachable { 256 + rank } else { rank },
            known,
        }
    }
}
