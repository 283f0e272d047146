//! The answers to why an object isn't finalized.

use fz_finalizers::{Addr, Entry};

/// What a root is.
#[derive(Clone, Copy, Debug, PartialEq, Eq)]
pub enum RootOf {
    /// A root of the host, by its index.
    Host(usize),
    /// The client data of the registration with this number.
    RegisteredData(u64),
    /// The client data of the cleanup with this number.
    CleanupData(u64),
    /// The object of the entry with this number, which waits or is held.
    HeldObject(u64),
    /// The client data of the entry with this number, which waits or is held.
    HeldData(u64),
}

/// Why an object isn't finalized, or that it is ready. Each object of a path is a child of the one before, or the value of an ephemeron. In that case the
/// object before is the ephemeron's key, or the object that contains its word, and the other of these two is retained by the same roots or objects.
#[derive(Debug, Drop)]
pub enum Reason {
    /// It has no finalizer and no entry, and if it has cleanups, no root reaches it.
    Unregistered,
    /// Its entry waits or is held.
    Queued(Entry),
    /// It is reachable, and has a finalizer, or no entry and cleanups alone. The path begins at the object to which the root points, and ends at the object.
    Found(RootOf, Vec<Addr>),
    /// It is unreachable, and a path leads from the object back to itself. The path begins and ends with the object, and its first step is one that the
    /// object's kind counts. Keys on which the path depends are reachable, or reached by the object's first steps.
    Ring(Vec<Addr>),
    /// It is unreachable and on no ring. The path leads to it from another unreachable object with a finalizer, by a first step that counts. Keys on which the
    /// path depends are retained, possibly by further such objects.
    Waits(Vec<Addr>),
    /// A pass queues it.
    Ready,
}
