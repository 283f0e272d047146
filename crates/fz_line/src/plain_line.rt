//! The ready line for a single thread.

ghost use Rattle.std.specs.Prelude.{◌≡◌, ℕ, ◌+◌, slice_get, is_some, if◌then◌else◌};

use fz_model::Entry;
use std::marker::Model;

/// The single-threaded line: a queue that the caller keeps, and how many of its entries were taken. It returns the entries of the queue one after another.
/// Its model is the number of entries taken.
#[derive(Drop)]
pub struct PlainLine {
    next: usize,
}

impl Model for PlainLine {
    ghost Value = { ℕ };

    ghost view = { λ line. line.next };
}

impl PlainLine {
    /// A line from which nothing was taken yet.
    pub fn new() -> PlainLine
        ensures { result ≡ 0 }
    {
        PlainLine { next: 0 }
    }

    /// The number of entries taken.
    pub fn taken(&self) -> usize
        ensures { result ≡ self.now }
    {
        self.next
    }

    /// The next entry of the queue, if there is one. Each call has to pass the same queue, which may have grown at its end.
    pub fn take(&mut self, queue: &[Entry]) -> Option<Entry>
        ensures entry { result ≡ slice_get queue.now self.old }
        ensures counted { self.new ≡ self.old + (if is_some result then 1 else 0) }
    {
        let entry = queue.get(self.next).copied()?;
        self.next += 1;
        Some(entry)
    }
}
