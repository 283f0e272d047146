//! Marking what records reach.

ghost use Rattle.std.specs.Prelude.{◌≡◌, ◌+◌, ◌↔◌, ◌⊎◌, [], ℕ, cond, count_by, length, not, IsTrue};
ghost use Rattle.own_heap.specs.Records.{objects_of};
ghost use Rattle.own_heap.specs.Marking.{is_marked, Gains, IsAmong, IsChildBut, IsTargetBut, IsTracing};

use crate::marks::Marks;
use crate::record::{Field, place_of};
use crate::records::Records;
use fz_model::Addr;

impl Marks {
    /// Whether the record is marked.
    pub(crate) fn contains(&self, object: Addr) -> bool
        ensures { result ≡ is_marked self.now object }
    {
        let Some(place) = place_of(object) else {
            return false;
        };
        self.marked.get(place).copied().unwrap_or(false)
    }

    /// Marks a record without pushing it. Returns whether the mark is new.
    pub(crate) fn insert(&mut self, object: Addr) -> bool
        requires { IsAmong (length self.old.marked.items) object }
        ensures new { result ≡ not (is_marked self.old object) }
        ensures marked { (a : ℕ) → IsTrue (is_marked self.new a) ↔ (IsTrue (is_marked self.old a) ⊎ (a ≡ object)) }
        ensures size { length self.new.marked.items ≡ length self.old.marked.items }
        ensures count { count_by not self.new.marked.items + cond result 1 0 ≡ count_by not self.old.marked.items }
        ensures waiting { self.new.waiting ≡ self.old.waiting }
    {
        let Some(place) = place_of(object) else {
            return false;
        };
        let new = !self.marked[place];
        self.marked[place] = true;
        new
    }

    /// Marks a record. A newly marked record is pushed onto the mark stack.
    pub(crate) fn add(&mut self, object: Addr)
        requires { IsAmong (length self.old.marked.items) object }
        ensures { Gains self.old self.new (λ a. a ≡ object) }
    {
        if self.insert(object) {
            let _ = self.waiting.push(object);
        }
    }
}

impl Records {
    /// Marks the record to which a field of an object refers. With `but_itself` a reference to the object itself is skipped.
    fn add_target(&self, marks: &mut Marks, field: Field, object: Addr, but_itself: bool)
        requires { length marks.old.marked.items ≡ length self.now.slots.items }
        ensures { Gains marks.old marks.new (IsTargetBut (objects_of self.now.slots.items) but_itself object field) }
    {
        let Some(target) = self.holder(field.word()) else {
            return;
        };
        if !(but_itself && target == object) {
            marks.add(target);
        }
    }

    /// Marks the records to which an object refers. With `but_itself` the object itself is skipped.
    pub(crate) fn add_children(&self, marks: &mut Marks, object: Addr, but_itself: bool)
        requires { length marks.old.marked.items ≡ length self.now.slots.items }
        ensures { Gains marks.old marks.new (IsChildBut (objects_of self.now.slots.items) but_itself object) }
    {
        let Some(read) = self.at(object) else {
            return;
        };
        for field in read.fields.iter() {
            self.add_target(marks, *field, object, but_itself);
        }
    }

    /// Scans the records on the mark stack until it is empty.
    pub(crate) fn close(&self, marks: &mut Marks)
        requires size { length marks.old.marked.items ≡ length self.now.slots.items }
        requires traced { IsTracing (objects_of self.now.slots.items) marks.old marks.old }
        ensures traced { IsTracing (objects_of self.now.slots.items) marks.old marks.new }
        ensures idle { marks.new.waiting.items ≡ [] }
    {
        while let Some(object) = marks.waiting.pop() {
            self.add_children(marks, object, false);
        }
    }
}
