//! The heap as a host that lists its roots and words.

ghost use Rattle.own_heap.specs.Records.{addresses_of, objects_of, value_of};
ghost use Rattle.own_heap.specs.Outside.{place_of_link};
ghost use Rattle.own_heap.specs.Pointing.{links_found, records_point, values_stay, words_listed};

use crate::heap::Heap;
use crate::record::place_of_link;
use fz_model::{Addr, Word};
use fz_why::{Paths, Pointer};

impl Paths for Heap {
    ghost objects = { λ h. objects_of h.records.slots.items };

    ghost pointers = { λ h a. words_listed (objects_of h.records.slots.items) a };

    ghost roots = { λ h. addresses_of h.roots.items };

    ghost place = { λ h. place_of_link };

    ghost value = { λ h. value_of };

    ghost link = { λ h. place_of_link };

    fn pointer(&self, object: Addr, index: usize) -> Option<Pointer> {
        let field = self.records.at(object)?.fields.get(index)?;
        Some(Pointer {
            word: object + index as u64,
            value: field.word(),
        })
    }

    fn root(&self, index: usize) -> Option<Word> {
        Some(self.roots.get(index)?.address())
    }

    fn link_at(&self, word: Addr) -> Option<Addr> {
        place_of_link(word)
    }

    fn word_of(&self, number: Addr) -> Option<Addr> {
        place_of_link(number)
    }

    fn value(&self, number: Addr) -> Option<Addr> {
        self.records.value(number)
    }

    fn target(&self, word: Word) -> Option<Addr> {
        self.records.holder(word)
    }

    ghost are_pointers = { λ h a. records_point (objects_of h.records.slots.items) a };

    ghost are_links = { λ h. links_found };

    ghost are_values = { λ h. values_stay };
}
