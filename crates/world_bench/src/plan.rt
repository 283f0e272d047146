//! What a run does, and what it returns to C.

use fz_model::Word;

/// What a run does with its world, in this order.
#[repr(C)]
#[derive(Clone, Copy)]
pub struct Plan {
    /// The blocks of the world, from 1 to 4,096.
    pub blocks: u64,
    /// The frames of the world, from 1 to 8: one for each 16 holders, and frame 0.
    pub frames: u64,
    /// How many scanned objects it allocates.
    pub objects: u64,
    /// The size of each in words: a divisor of 64, so that their words are adjacent from the heap's first word on.
    pub size: u64,
    /// How many rounds come first. Each allocates and registers the objects, drops them, finishes their entries and forgets these.
    pub rounds: u64,
    /// How many of the objects it registers, from the first on, without client data.
    pub registered: u64,
    /// Whether these registrations are of the kind no-order. They are normal otherwise.
    pub no_order: bool,
    /// Whether they have the ranks 0 to 255 in turn. All have rank 0 otherwise.
    pub ranked: bool,
    /// How many holders it allocates: pointer-free objects of 1,024 words, each in a slot of its own, whose words have links.
    pub holders: u64,
    /// How many short links it registers, each from the next word of the holders to the next object.
    pub linked: u64,
    /// The word of the only slot of frame 0 that isn't zero while it collects.
    pub root: Word,
    /// How many times it collects.
    pub collections: u64,
    /// How many links it moves, each to the next word, beginning with the last.
    pub moved: u64,
    /// In how many words of the holders it removes a link, from the first on.
    pub unlinked: u64,
    /// Whether it opens a cycle.
    pub begun: bool,
    /// Of how many objects it loads the last word, from the first object on.
    pub loaded: u64,
    /// Whether it first stores the first object's address in each word of these objects.
    pub stored: bool,
    /// How many entries of the queue it reads and finishes, from the first on.
    pub finished: u64,
}

/// What the calls of a run returned, so that C can check that they did what the plan says.
#[repr(C)]
#[derive(Clone, Copy)]
pub struct Outcome {
    /// The sum of the objects' addresses.
    pub addresses: u64,
    /// The sum of the registrations' numbers.
    pub numbers: u64,
    /// How many links were new.
    pub linked: u64,
    /// How many entries the collections queued.
    pub queued: u64,
    /// How many objects the collections reclaimed.
    pub reclaimed: u64,
    /// How many links were moved.
    pub moved: u64,
    /// How many links were removed.
    pub unlinked: u64,
    /// The sum of the words that were loaded.
    pub loaded: u64,
    /// How many pages were dirty.
    pub noted: u64,
    /// The sum of the addresses in the finished entries.
    pub finished: u64,
    /// Whether every call succeeded. If not, the other fields have no meaning.
    pub done: bool,
}
