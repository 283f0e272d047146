//! Why running a file ended early.

use fz_model::Refusal;
use thiserror::Error;

/// Why a run ended early, and at which line.
///
/// `BadLine`: the line is malformed, or the input ended without an opening (then the line is one past the last). `BadCount` and `NoMemory`: the opening was
/// refused. `Output`: the output for this line, or for the end of the report (one past the last line), wasn't written completely. `Input`: reading failed in
/// this line.
#[derive(Clone, Copy, Debug, PartialEq, Eq, Error)]
#[error("line {line}: {refusal:?}")]
pub struct DriveFault {
    pub refusal: Refusal,
    /// Lines are counted from 1.
    pub line: u64,
}
