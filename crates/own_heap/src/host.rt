//! The heap as the host of a pass.

ghost use Rattle.std.specs.Prelude.{◌≡◌, length, refl};
ghost use Rattle.std.proofs.Common.{◌∙◌};
ghost use Rattle.own_heap.specs.Outside.{place_of_link, links_apart};
ghost use Rattle.own_heap.specs.Records.{objects_of, value_of, AreFieldsKept};
ghost use Rattle.own_heap.specs.Marking.{is_marked};
ghost use Rattle.own_heap.specs.Kept.{kept_itself, kept_on};

use crate::heap::Heap;
use crate::record::place_of_link;
use fz_model::Addr;
use fz_pass::{Host, Values};

impl Host for Heap {
    ghost objects = { λ h. objects_of h.records.slots.items };

    ghost marked = { λ h. is_marked h.marks };

    ghost is_exact = { Unit {0} };

    ghost place = { place_of_link };

    ghost is_same = { λ g h. (h.roots ≡ g.roots) × (h.cursor ≡ g.cursor) × AreFieldsKept g.records.slots.items h.records.slots.items × (length h.records.slots.items ≡ length g.records.slots.items) };

    fn is_marked(&self, object: Addr) -> bool {
        self.marks.contains(object)
    }

    fn is_holder_marked(&self, word: Addr) -> bool {
        let Some(field) = place_of_link(word) else {
            return true;
        };
        match self.records.holder(field) {
            Some(object) => self.marks.contains(object),
            None => false,
        }
    }

    fn birth(&self, _object: Addr) -> u64 {
        0
    }

    fn mark(&mut self, object: Addr) {
        self.marks.add(object);
        self.records.close(&mut self.marks);
    }

    fn mark_alone(&mut self, object: Addr) {
        let _ = self.marks.insert(object);
    }

    fn mark_children(&mut self, object: Addr, but_itself: bool) {
        self.records
            .add_children(&mut self.marks, object, but_itself);
        self.records.close(&mut self.marks);
    }

    fn clear(&mut self, word: Addr) {
        if let Some(field) = place_of_link(word) {
            self.records.clear(field);
        }
    }

    ghost reflexive = { λ h. (refl, refl, kept_itself h.records.slots.items, refl) };

    ghost transitive = { λ f g h p q. (q.0 ∙ p.0, q.1 ∙ p.1, kept_on f.records.slots.items g.records.slots.items h.records.slots.items p.2 q.2, q.3 ∙ p.3) };

    ghost apart = { links_apart };
}

// The marker doesn't follow a hidden reference.
impl Values for Heap {
    ghost value = { value_of };

    fn mark_value(&mut self, word: Addr) -> bool {
        let Some(object) = self.records.value(word) else {
            return false;
        };
        if self.marks.contains(object) {
            return false;
        }
        self.mark(object);
        true
    }
}
