//! A host that can list its roots and the words of its objects.

ghost use Rattle.std.specs.Prelude.{◌≡◌, ◌+◌, ◌^◌, ◌<◌, ℕ, List, Option, slice_get, IsSome};
ghost use Rattle.fz_model.specs.Memory.{points};
ghost use Rattle.fz_model.specs.State.{Map, Object};
ghost use Rattle.fz_why.specs.declared.paths.Pointer.{Pointer};
ghost use Rattle.fz_why.specs.Paths.{ArePointers, AreLinks, AreValues};

use fz_model::{Addr, Word};

/// A word of an object that may point to another.
#[derive(Clone, Copy, Debug, PartialEq, Eq)]
pub struct Pointer {
    /// The address of the word.
    pub word: Addr,
    /// What the word contains.
    pub value: Word,
}

/// A host that can list its roots, and the words of its objects that point to others. It need not have marks, and may be a copy of a heap.
///
/// A host without ephemerons has no values: its `value` returns `None`.
///
/// It also defines six ghost members, and proves three facts: the words listed of an object are the object's own, with each that points to an object among
/// them; a link's number is found by the word that it denotes; and an ephemeron has no value once its word is cleared.
pub trait Paths {
    /// Its objects, by address.
    ghost objects: { Self → Map Object };
    /// The words of an object that may point to others.
    ghost pointers: { Self → ℕ → List Pointer };
    /// The words from which it marks, but for those of the finalizers.
    ghost roots: { Self → List ℕ };
    /// Which word of an object a link or an ephemeron denotes, if any.
    ghost place: { Self → ℕ → Option ℕ };
    /// The object to which the word of an ephemeron points, if any, as a function of the host's objects.
    ghost value: { Self → Map Object → ℕ → Option ℕ };
    /// The number of the link that denotes a word, if one does.
    ghost link: { Self → ℕ → Option ℕ };

    /// A word of an object by its index, counted from 0. `None` after the last.
    fn pointer(&self, object: Addr, index: usize) -> Option<Pointer>
        ensures pointer { result ≡ slice_get (pointers self.now object) index }
        ensures few { IsSome result → index + 2 < 2 ^ 64 };

    /// A root by its index, counted from 0: a word from which the host marks. `None` after the last.
    fn root(&self, index: usize) -> Option<Word>
        ensures root { result ≡ slice_get (roots self.now) index }
        ensures few { IsSome result → index < 2 ^ 63 };

    /// The number of the link that denotes a word of an object, whether or not it is registered. `None` if no number does.
    fn link_at(&self, word: Addr) -> Option<Addr>
        ensures { result ≡ link self.now word };

    /// The word of an object that a link or an ephemeron denotes, if any.
    fn word_of(&self, number: Addr) -> Option<Addr>
        ensures { result ≡ place self.now number };

    /// The object to which the word of an ephemeron points, if any: the word by which the host doesn't mark.
    fn value(&self, number: Addr) -> Option<Addr>
        ensures { result ≡ value self.now (objects self.now) number };

    /// The object to which a word points.
    fn target(&self, word: Word) -> Option<Addr>
        ensures { result ≡ points (objects self.now) word };

    /// The words that are listed of an object are those of the model's object.
    ghost are_pointers: { (h : Self) (a : ℕ) → ArePointers (objects h) a (pointers h a) };

    /// Numbers of links are found by the words that they denote.
    ghost are_links: { (h : Self) → AreLinks (place h) (link h) };

    /// An ephemeron whose word is cleared has no value, and other values stay.
    ghost are_values: { (h : Self) → AreValues (place h) (value h) };
}
