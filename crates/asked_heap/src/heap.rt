//! A heap of a few objects with one word each, and a weak word outside of it.

use fz_machine::{Ask, BATCH, Question};

/// The number of objects. They are numbered from 1 on; 0 is no object.
const OBJECTS: usize = 4;

/// The number of the weak word. The word of an object has the object's number.
const WEAK: u64 = 1_000;

/// Objects, their marks, a root, and the weak word.
#[derive(Drop)]
pub(crate) struct Heap {
    words: [u64; OBJECTS],
    marked: [bool; OBJECTS],
    is_live: [bool; OBJECTS],
    root: u64,
    weak: u64,
}

/// The index of an object in the arrays. For 0 it lies outside of them.
fn place(object: u64) -> usize {
    object.wrapping_sub(1) as usize
}

impl Heap {
    /// All objects exist, and point to nothing.
    pub(crate) fn new() -> Heap {
        Heap {
            words: [0; OBJECTS],
            marked: [false; OBJECTS],
            is_live: [true; OBJECTS],
            root: 0,
            weak: 0,
        }
    }

    pub(crate) fn set_root(&mut self, object: u64) {
        self.root = object;
    }

    /// Stores a number in the word of an object.
    pub(crate) fn set(&mut self, object: u64, word: u64) {
        if let Some(stored) = self.words.get_mut(place(object)) {
            *stored = word;
        }
    }

    /// Stores a number in the weak word, and returns the number of that word.
    pub(crate) fn set_weak(&mut self, word: u64) -> u64 {
        self.weak = word;
        WEAK
    }

    pub(crate) fn weak(&self) -> u64 {
        self.weak
    }

    /// How many objects there are.
    pub(crate) fn live(&self) -> usize {
        self.is_live.iter().filter(|live| **live).count()
    }

    fn word(&self, object: u64) -> u64 {
        self.words.get(place(object)).copied().unwrap_or(0)
    }

    fn is_marked(&self, object: u64) -> bool {
        self.marked.get(place(object)).copied().unwrap_or(false)
    }

    fn mark_alone(&mut self, object: u64) {
        if let Some(marked) = self.marked.get_mut(place(object)) {
            *marked = true;
        }
    }

    /// Marks an object and everything that it reaches. Each object has one word, so a path has no more objects than there are.
    pub(crate) fn mark(&mut self, object: u64) {
        let mut object = object;
        for _ in 0..OBJECTS {
            self.mark_alone(object);
            object = self.word(object);
        }
    }

    /// Begins a collection: marks what the root reaches, and nothing else.
    pub(crate) fn mark_roots(&mut self) {
        self.marked = [false; OBJECTS];
        self.mark(self.root);
    }

    /// Reclaims what isn't marked.
    pub(crate) fn sweep(&mut self) {
        self.is_live = self.marked;
    }

    /// Writes zero to a word.
    fn clear(&mut self, word: u64) {
        if word == WEAK {
            self.weak = 0;
        } else {
            self.set(word, 0);
        }
    }

    /// Answers a question about one object or word, or carries out a command.
    fn answer(&mut self, ask: Ask, about: u64) -> bool {
        match ask {
            Ask::IsMarked => return self.is_marked(about),
            Ask::IsHolderMarked => return about == WEAK || self.is_marked(about),
            Ask::MarkChildren => self.mark(self.word(about)),
            Ask::MarkOthers => {
                if self.word(about) != about {
                    self.mark(self.word(about));
                }
            }
            Ask::Mark => self.mark(about),
            Ask::MarkAlone => self.mark_alone(about),
            Ask::Clear => self.clear(about),
            // Only finalizers with regions ask the first two, and only those with ephemerons the third.
            Ask::Marks | Ask::Live | Ask::MarkValue => {}
        }
        false
    }

    /// The answers to a question, one after another.
    pub(crate) fn answers(&mut self, question: &Question) -> [bool; BATCH] {
        let mut answers = [false; BATCH];
        for (answer, about) in answers
            .iter_mut()
            .zip(question.about.iter())
            .take(question.count)
        {
            *answer = self.answer(question.ask, *about);
        }
        answers
    }
}
