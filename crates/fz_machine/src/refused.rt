//! The errors that calls return.

use thiserror::Error;

/// Why a call of a machine was refused. A refused call changes no registration, link, ephemeron, cleanup or entry, and no open pass. It may have reserved
/// room, or moved entries in memory, which ends an iteration over roots.
#[derive(Clone, Copy, Debug, PartialEq, Eq, Error)]
pub enum Refused {
    /// A pass is open. Until it ends only answers, keys that are told, takes and finishes are accepted.
    #[error("a pass is open")]
    PassOpen,
    /// No pass is open.
    #[error("no pass is open")]
    NoPass,
    /// The finalizers refused the call.
    #[error("{0}")]
    Finalizers(#[from] fz_finalizers::Refused),
}
