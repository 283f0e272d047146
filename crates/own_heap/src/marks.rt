//! Mark bits and a mark stack.

ghost use Rattle.std.specs.Prelude.{◌+◌, ◌≤◌, count_by, length, not, vec_capacity};

use fz_model::Addr;

/// Which records are marked, by index, and which of them wait to be scanned. The mark stack has room for all records, so it can't overflow.
#[derive(Drop)]
pub(crate) struct Marks {
    pub(crate) marked: Vec<bool>,
    pub(crate) waiting: Vec<Addr>,
    pub(crate) ghost counted: { length waiting.items + count_by not marked.items ≤ length marked.items },
    pub(crate) ghost room: { length marked.items ≤ vec_capacity waiting },
}
