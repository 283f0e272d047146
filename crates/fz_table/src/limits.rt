//! The largest size of a table.

/// The largest number of registrations in a table, and of links of one kind. A world stops at fewer (`TABLE_LIMIT`).
pub const MOST_ENTRIES: u64 = 1 << 32;
