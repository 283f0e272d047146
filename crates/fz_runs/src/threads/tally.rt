//! The totals of a run of a threads file.

/// The totals of a run of a threads file.
#[derive(Clone, Copy, Debug, PartialEq, Eq)]
pub(crate) struct Tally {
    /// The entries that passes queued.
    pub(crate) enqueued: u64,
    /// The entries that workers finished.
    pub(crate) finished: u64,
    /// The entries that workers abandoned.
    pub(crate) forfeited: u64,
    /// The entries that no worker took.
    pub(crate) left: u64,
    /// The number of passes.
    pub(crate) passes: u64,
    /// The objects that passes reclaimed.
    pub(crate) reclaimed: u64,
    /// The refused calls of all sections.
    pub(crate) refused: u64,
}
