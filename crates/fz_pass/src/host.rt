//! A host's heap at the moment of a pass, after its marking is complete.

ghost use Rattle.std.specs.Prelude.{◌≡◌, ℕ, Bool, IsTrue, IsFalse, Option, Some};
ghost use Rattle.std.specs.FinMap.{get, contains_key};
ghost use Rattle.fz_model.specs.State.{Map, Object};
ghost use Rattle.fz_model.specs.Reachability.{Leads};
ghost use Rattle.fz_pass.specs.Holds.{IsOfValue};
ghost use Rattle.fz_pass.specs.Marks.{IsClosed, Marks, IsLeadingBut, IsLastToMark};
ghost use Rattle.fz_pass.specs.Places.{StandApart, written_at, is_held};

use fz_model::Addr;

/// A heap with marks, as a pass uses it. Marking must be complete.
///
/// Objects and words are numbers that a pass only compares and passes back. The host knows what they mean. The contracts of these methods refer to the host's
/// objects as the model defines them, by address: which words point to which objects, and in which object a word lies. So no two objects have an address in
/// common. A link has a number of its own, which is named `word` here: `place` says which word of an object it denotes, if any.
///
/// A host also defines five ghost members, and proves that `is_same` is reflexive and transitive, and that no two links denote one word. A host whose marking
/// is exact defines `is_exact` as `Unit {0}`, and one that may mark more as `⊥`. The heap of records in `own_heap/src/host.rt` is an example.
pub trait Host {
    /// Its objects, by address.
    ghost objects: { Self → Map Object };
    /// Which objects are marked.
    ghost marked: { Self → ℕ → Bool };
    /// Whether marking is exact: it marks what it is asked to mark, and nothing else. A host that scans conservatively may mark more.
    ghost is_exact: { Type 0 };
    /// Which word of an object a link denotes, if any.
    ghost place: { ℕ → Option ℕ };
    /// Whether everything else in the host is unchanged.
    ghost is_same: { Self → Self → Type 0 };

    /// Whether the object is marked.
    fn is_marked(&self, object: Addr) -> bool
        ensures { result ≡ marked self.now object };

    /// Whether the object that contains the word of a link is marked. True if the link denotes no word, and false if its word lies outside every object.
    fn is_holder_marked(&self, word: Addr) -> bool
        ensures { result ≡ is_held place (objects self.now) (marked self.now) word };

    /// The birth of an object, which distinguishes it from earlier objects at the same address. A host without births returns 0, and so do its objects.
    fn birth(&self, object: Addr) -> u64
        ensures { (o : Object) → get (objects self.now) object ≡ Some o → result ≡ o.birth };

    /// Marks an object and everything that it reaches. Requires that everything marked objects reach is marked. The next two methods require the same.
    fn mark(&mut self, object: Addr)
        requires object { IsTrue (contains_key (objects self.old) object) }
        requires closed { IsClosed (objects self.old) (marked self.old) }
        ensures objects { objects self.new ≡ objects self.old }
        ensures marked { Marks is_exact (objects self.old) (marked self.old) (marked self.new) (Leads (objects self.old) object) }
        ensures same { is_same self.old self.new };

    /// Marks one object, and nothing that it reaches: everything else that it reaches is marked already.
    fn mark_alone(&mut self, object: Addr)
        requires object { IsTrue (contains_key (objects self.old) object) }
        requires closed { IsClosed (objects self.old) (marked self.old) }
        requires last { IsLastToMark (objects self.old) (marked self.old) object }
        ensures objects { objects self.new ≡ objects self.old }
        ensures marked { Marks is_exact (objects self.old) (marked self.old) (marked self.new) (λ a. a ≡ object) }
        ensures same { is_same self.old self.new };

    /// Marks an object's children, or with `but_itself` its children other than itself, and everything that they reach.
    fn mark_children(&mut self, object: Addr, but_itself: bool)
        requires object { IsTrue (contains_key (objects self.old) object) }
        requires closed { IsClosed (objects self.old) (marked self.old) }
        ensures objects { objects self.new ≡ objects self.old }
        ensures marked { Marks is_exact (objects self.old) (marked self.old) (marked self.new) (IsLeadingBut (objects self.old) but_itself object) }
        ensures same { is_same self.old self.new };

    /// Clears the word of a link, that is, sets it to zero. A link that denotes no word of an object may have one elsewhere.
    fn clear(&mut self, word: Addr)
        ensures objects { objects self.new ≡ written_at place word (objects self.old) }
        ensures marked { marked self.new ≡ marked self.old }
        ensures same { is_same self.old self.new };

    /// Nothing changes from a host to itself.
    ghost reflexive: { (h : Self) → is_same h h };

    /// What doesn't change in two steps doesn't change in both together.
    ghost transitive: { (f g h : Self) → is_same f g → is_same g h → is_same f h };

    /// No two links denote one word.
    ghost apart: { StandApart place };
}

/// A heap with marks that also has ephemerons: words whose values are marked only if their holders and their keys are marked.
///
/// The host doesn't scan the word of an ephemeron with the object in which it lies. If it does, the value is marked with that object, whatever the key.
pub trait Values: Host {
    /// The object to which the word of an ephemeron points, if any, as a function of the host's objects.
    ghost value: { Map Object → ℕ → Option ℕ };

    /// Marks the object to which the word of an ephemeron points, and everything that it reaches. Returns whether this may have marked anything: after true the
    /// pass looks at the remaining ephemerons again. Requires that everything marked objects reach is marked.
    fn mark_value(&mut self, word: Addr) -> bool
        requires closed { IsClosed (Self.objects self.old) (Self.marked self.old) }
        ensures objects { Self.objects self.new ≡ Self.objects self.old }
        ensures marked { Marks Self.is_exact (Self.objects self.old) (Self.marked self.old) (Self.marked self.new) (IsOfValue value (Self.objects self.old) word) }
        ensures nothing { IsFalse result → (a : ℕ) → IsTrue (Self.marked self.new a) → IsTrue (Self.marked self.old a) }
        ensures same { Self.is_same self.old self.new };
}
