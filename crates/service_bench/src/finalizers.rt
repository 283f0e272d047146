//! The work of the workers.

use fz_model::Entry;
use fz_service::Proc;

/// The procedures.
#[derive(Clone, Copy)]
pub(crate) enum Procedure {
    Nothing,
    Busy,
}

/// A procedure that does nothing.
#[derive(Drop)]
pub(crate) struct Nothing;

impl Proc for Nothing {
    fn has_work(&self) -> bool {
        false
    }
}

/// How many turns a busy procedure makes. They take about 2 microseconds at 3 GHz, since a turn is six dependent instructions.
const TURNS: u64 = 1_000;

/// A procedure that works for about 2 microseconds, as the one in `bench/bdwgc.c` does. No compiler can remove the work: each entry's work begins with the
/// result of the one before, and a worker calls the procedure indirectly.
#[derive(Drop)]
pub(crate) struct Busy {
    pub(crate) word: u64,
}

impl Proc for Busy {
    fn work(&mut self, _entry: &Entry) {
        let mut word = self.word;
        for _ in 0..TURNS {
            word ^= word << 13;
            word ^= word >> 7;
            word ^= word << 17;
        }
        self.word = word;
    }
}
