//! How a mutator names a word: a slot of a root frame, or a place in the heap.

/// A slot of a root frame, which contains one word.
#[derive(Clone, Copy, Debug, PartialEq, Eq)]
pub struct Slot {
    /// The index of the frame, counted from 0.
    pub frame: u64,
    /// The index of the slot within its frame, counted from 0.
    pub slot: u64,
}

/// A word of the heap, named by a slot and an offset.
#[derive(Clone, Copy, Debug, PartialEq, Eq)]
pub struct Place {
    /// The slot whose word is the base address.
    pub slot: Slot,
    /// In words, added to the slot's word.
    pub offset: u64,
}
