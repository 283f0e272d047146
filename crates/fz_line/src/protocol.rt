//! The invariant of the line: which entries wait in it, and what its owner and its seats know.

use crossbeam_deque::protocol::{Join, Outcome, Protocol, Split};
use crossbeam_deque::{Pass, Stealer, Worker};
use fz_model::Entry;
use std::alloc::Global;
use std::collections::LinkedList;

/// What a pass (a token of the deque's protocol) knows. It exists only in proofs: no value of it is made at run time.
pub(crate) struct View {
    /// Whether the pass belongs to the owner.
    pub(crate) owner: bool,
    /// All entries that were sent, in order. Only the owner knows them.
    pub(crate) sent: LinkedList<Entry>,
    /// The entries that the owner took out of the line itself.
    pub(crate) popped: LinkedList<Entry>,
    /// The lists of entries that seats took. A seat has its own list; the owner has those of seats that weren't opened.
    pub(crate) lists: LinkedList<LinkedList<Entry>>,
}

pub(crate) struct LineRule;

impl Protocol<Entry, View> for LineRule {
    ghost use Rattle.fz_line.specs.Views.{first_view, blank};
    ghost use Rattle.fz_line.specs.Rule.{IsLine};

    ghost holds = { IsLine };

    ghost first = { first_view };

    ghost guest = { blank };
}

/// The owner sends an entry.
pub(crate) struct Sending;

impl Outcome<Entry, View> for Sending {
    ghost use Rattle.fz_line.specs.Rule.{GainsSent};

    ghost then = { GainsSent };
}

/// A seat takes an entry.
pub(crate) struct Taking;

impl Outcome<Entry, View> for Taking {
    ghost use Rattle.fz_line.specs.Rule.{GainsTaken};

    ghost then = { GainsTaken };
}

/// The owner, which has the lists of all seats, takes an entry out of the line itself.
pub(crate) struct Popping;

impl Outcome<Entry, View> for Popping {
    ghost use Rattle.fz_line.specs.Rule.{GainsPopped, KnowsAll};

    ghost then = { GainsPopped };

    ghost empty = { KnowsAll };
}

/// The owner gives the first of its lists to a seat, or takes a seat's list back.
pub(crate) struct SeatList;

impl Split<View> for SeatList {
    ghost use Rattle.fz_line.specs.Views.{without_first, first_as_seat};

    ghost left = { without_first };

    ghost right = { first_as_seat };
}

impl Join<View> for SeatList {
    ghost use Rattle.fz_line.specs.Views.{with_lists_of, blank};

    ghost both = { with_lists_of };

    ghost spent = { blank };
}

/// A pass that knows nothing. It replaces a seat's pass while the owner has that seat's list.
pub(crate) struct Blank;

impl Split<View> for Blank {
    ghost use Rattle.fz_line.specs.Views.{blank};

    ghost left = { λ view. view };

    ghost right = { λ _. blank };
}

pub(crate) type LineWorker = Worker<Entry, Global, View, LineRule>;

pub(crate) type LineStealer = Stealer<Entry, Global, View, LineRule>;

pub(crate) type LinePass = Pass<Entry, View>;
