//! The limits of a threads file.

use fz_script::MAX_TURNS;

/// The largest number of lines.
pub(crate) const MAX_LINES: u64 = 4_096;

/// The largest number of mutators' sections.
pub(crate) const MAX_MUTATORS: u64 = 8;

/// The largest number of refused calls of one line: two for each turn, since a refused `new` skips the others.
pub(crate) const MAX_REFUSED_OF_LINE: u64 = 2 * MAX_TURNS;

/// The largest number of refused calls of a section.
pub(crate) const MAX_REFUSED: u64 = MAX_REFUSED_OF_LINE * MAX_LINES;
