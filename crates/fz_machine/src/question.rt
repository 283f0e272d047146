//! The questions of a pass.

ghost use Rattle.std.specs.Prelude.{◌≡◌};
ghost use Rattle.fz_machine.specs.Asks.{number_of};

use fz_model::Addr;

/// The largest number of objects, words or regions of one question.
pub const BATCH: usize = 64;

/// What is asked about each object or word of a question.
#[derive(Clone, Copy, Debug, PartialEq, Eq)]
pub enum Ask {
    /// Is the object marked?
    IsMarked,
    /// Mark the object's children, and everything that they reach.
    MarkChildren,
    /// The same, but ignore words that point to the object itself.
    MarkOthers,
    /// Mark the object and everything that it reaches. It will be queued.
    Mark,
    /// Mark the object; everything else that it reaches is marked already. It will be queued.
    MarkAlone,
    /// Set the word to zero: its link is removed.
    Clear,
    /// Is the object that contains the word marked? True if the word is none of an object, as a weak word outside the heap; false if it lies in an object that
    /// was reclaimed.
    IsHolderMarked,
    /// Which objects of a region are marked? The region is named by its first address, and has 64 places, 16 bytes apart from there on. The answer is a word:
    /// its bit `i`, counted from the lowest, says whether the object that begins at place `i` is marked. If none begins there, the bit may have any value.
    Marks,
    /// Which places of a region lie in marked objects, or in none? The answer is a word, as for `Marks`: its bit `i` says what `IsHolderMarked` would be
    /// answered about the word at place `i`, if a link has it.
    Live,
    /// Mark the object to which the word of an ephemeron points, if any, and everything that it reaches. The answer says whether something may have been marked
    /// that wasn't: true is always safe, and costs another round of questions about the ephemerons that still wait.
    MarkValue,
}

impl Ask {
    /// The number of the question in C.
    pub fn number(self) -> u8
        ensures { result ≡ number_of self }
    {
        match self {
            Ask::IsMarked => 1,
            Ask::MarkChildren => 2,
            Ask::MarkOthers => 3,
            Ask::Mark => 4,
            Ask::MarkAlone => 5,
            Ask::Clear => 6,
            Ask::IsHolderMarked => 7,
            Ask::Marks => 8,
            Ask::Live => 9,
            Ask::MarkValue => 10,
        }
    }
}

/// A question about the first `count` of these objects, words or regions. They are answered or carried out one after another.
#[derive(Clone, Copy, Debug, PartialEq, Eq)]
pub struct Question {
    /// What is asked.
    pub ask: Ask,
    /// The objects, the words, or the first addresses of the regions.
    pub about: [Addr; BATCH],
    /// How many there are: at least one.
    pub count: usize,
}
