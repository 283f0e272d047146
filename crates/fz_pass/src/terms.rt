//! The parameters of a pass beside the host and the tables.

/// The numbers of a pass, and whether it has tiers.
#[derive(Clone, Copy, Debug, PartialEq, Eq)]
pub struct Terms {
    /// The number of the pass.
    pub pass: u64,
    /// The number of its first entry.
    pub first: u64,
    /// Whether registrations of the kind unreachable form a second tier. If not, they count as normal ones, as in the model, which has no such kind.
    pub tiers: bool,
}
