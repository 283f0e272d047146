//! What a seat and a duty have in common, and the front of the line from which they take.

ghost use Rattle.std.specs.Prelude.{⊤};
ghost use Rattle.crossbeam_deque.specs.declared.steal.Steal.{Steal};
ghost use Rattle.fz_model.specs.declared.answers.Entry as answers;
ghost use Rattle.fz_line.specs.Takes.{Gives};

use crate::protocol::{LinePass, LineStealer, Taking};
use crossbeam_deque::Steal;
use fz_model::Entry;
use std::marker::Model;

/// A seat's end of the line: its stealer, the pass that carries the list of what it took, and its counts. It doesn't count the entries that it took: that is
/// what it finished and forfeited, and one more for a duty. Its model is that of the seat.
pub struct Taker {
    pub(crate) stealer: LineStealer,
    pub(crate) pass: LinePass,
    pub(crate) index: usize,
    pub(crate) finished: u64,
    pub(crate) forfeited: u64,
}

impl Model for Taker {
    ghost use Rattle.crossbeam_deque.specs.Handles.{stealer_deque};
    ghost use Rattle.fz_line.specs.Passes.{took_by, IsSeatPass};
    ghost use Rattle.fz_line.specs.States.{SeatState, seat_state};

    ghost Value = { SeatState };

    ghost view = { λ t. seat_state (stealer_deque t.stealer).0 t.index (took_by t.pass) t.finished t.forfeited };

    ghost invariant = { λ t. IsSeatPass (stealer_deque t.stealer) t.pass };
}

/// The front of a line, from which a take steals. In the product it is `Deque`. A test substitutes one that returns what the test chooses, since no test can
/// force a deque to return `Retry`.
pub trait Front {
    /// What a steal may return, and the state in which it may leave the front.
    ghost replies: { Self → Steal answers.Entry → Self → Type 0 };

    /// One attempt to take the first entry of the line.
    fn steal(&mut self, taker: &mut Taker) -> Steal<Entry>
        ensures given { Gives result taker.old taker.new }
        ensures reply { replies self.old result self.new };
}

/// The front of the line itself: one steal from its deque, lock-free and without waiting.
#[derive(Clone, Copy)]
pub struct Deque;

// Contracts know nothing about which of its results a deque's steal returns.
impl Front for Deque {
    ghost replies = { λ _ _ _. ⊤ };

    fn steal(&mut self, taker: &mut Taker) -> Steal<Entry> {
        taker.stealer.steal_as::<Taking>(&mut taker.pass)
    }
}
