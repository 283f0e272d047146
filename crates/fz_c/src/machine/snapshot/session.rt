//! What a handle points to.

use fz_why::Snapshot;

/// A copy of a host's heap, and the path of the last result.
pub struct SnapshotSession {
    pub(crate) snapshot: Snapshot,
    pub(crate) path: Vec<u64>,
}

impl Drop for SnapshotSession {
    fn drop(self) {
        let SnapshotSession {
            snapshot: _,
            path: _,
        } = self;
    }
}
