//! What a worker's diary has.

/// Something that a worker did.
#[derive(Clone, Copy)]
pub(crate) enum Event {
    /// It read `stop` as true.
    Told,
    /// It read `stop` as false.
    NotTold,
    /// It read how often the bell was rung.
    Listened,
    /// A take of its seat found the line empty.
    FoundEmpty,
    /// It called `run` of the procedure with this number in its list, for the entry with this sequence number.
    Ran(u64, u64),
}
