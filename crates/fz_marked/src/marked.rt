//! The heap with its marks, as a host.

ghost use Rattle.std.specs.Prelude.{◌≡◌, ◌+◌, ◌*◌, ◌||◌, ℕ, Some, None};
ghost use Rattle.std.proofs.Common.{◌∙◌, sym};
ghost use Rattle.std.proofs.lemmas.Option.{same_Some};
ghost use Rattle.std.specs.FinSet.{contains};
ghost use Rattle.std.specs.FinSet as sets;
ghost use Rattle.std.specs.FinMap.{len, retain_keys};
ghost use Rattle.fz_model.specs.declared.limits.TheConstants.{BLOCK_WORDS};
ghost use Rattle.fz_model.specs.Memory.{points};
ghost use Rattle.fz_model.specs.Pass.{is_outside};
ghost use Rattle.fz_marked.specs.Same.{IsSame, same_itself, same_then};
ghost use Rattle.fz_marked.specs.Traces.{value_at};

use crate::children::{trace_children, trace_value};
use crate::reclaiming::condemn_outside;
use fz_heap::Heap;
use fz_marker::Marker;
use fz_model::Addr;
use fz_pass::{Host, Values};

/// A heap and its marker, whose second set has the marks that a pass adds.
#[derive(Drop)]
pub struct Marked {
    pub heap: Heap,
    pub marker: Marker,
    pub ghost size: { marker.size ≡ BLOCK_WORDS * heap.blocks },
}

impl Host for Marked {
    ghost objects = { λ m. m.heap.objects };

    ghost marked = { λ m. contains m.marker.traced };

    ghost is_exact = { Unit {0} };

    ghost place = { Some };

    ghost is_same = { λ old new. IsSame old.heap new.heap old.marker new.marker };

    fn is_marked(&self, object: Addr) -> bool {
        self.marker.traced(object)
    }

    fn is_holder_marked(&self, word: Addr) -> bool {
        match self.heap.resolve(word) {
            Some(start) => self.marker.traced(start),
            None => false,
        }
    }

    fn birth(&self, object: Addr) -> u64 {
        match self.heap.facts(object) {
            Some((_, _, birth)) => birth,
            None => 0,
        }
    }

    fn mark(&mut self, object: Addr) {
        // An object that has facts lies in the heap.
        if self.heap.facts(object).is_some() {
            self.marker.trace(&self.heap, object);
        }
    }

    fn mark_alone(&mut self, object: Addr) {
        if self.heap.facts(object).is_some() {
            self.marker.trace_alone(object);
        }
    }

    fn mark_children(&mut self, object: Addr, but_itself: bool) {
        trace_children(&self.heap, &mut self.marker, object, but_itself);
    }

    fn clear(&mut self, word: Addr) {
        // A word outside every object isn't written.
        let _ = self.heap.write(word, 0, 0);
    }

    ghost reflexive = { λ m. same_itself m.heap m.marker };

    ghost transitive = { λ old mid new first then. same_then old.heap mid.heap new.heap old.marker mid.marker new.marker first then };

    ghost apart = { λ v w a p q. same_Some v a p ∙ sym (same_Some w a q) };
}

// The words of an object that isn't scanned may be ephemerons. In a scanned one they are children, too.
impl Values for Marked {
    ghost value = { value_at };

    fn mark_value(&mut self, word: Addr) -> bool {
        trace_value(&self.heap, &mut self.marker, word)
    }
}

impl Marked {
    /// Begins a pass: what the cycle marked is marked for the pass, too.
    pub fn trace_found(&mut self)
        ensures heap { self.new.heap ≡ self.old.heap }
        ensures marker { self.new.marker ≡ record self.old.marker { traced = self.old.marker.marked } }
        // A cleared word points to nothing.
        ensures zero { points self.new.heap.objects 0 ≡ None }
    {
        // Only its contract is needed: the objects lie in the heap, so none lies at zero.
        let _ = self.heap.condemned();
        self.marker.trace_found();
    }

    /// Ends a pass: reclaims the objects that it didn't mark, and returns their number. Their cells become dead and wait to be swept. Takes time proportional
    /// to the heap.
    pub fn reclaim(&mut self) -> u64
        ensures objects { self.new.heap.objects ≡ retain_keys self.old.heap.objects (contains self.old.marker.traced) }
        ensures condemned { (a : ℕ) → contains self.new.heap.condemned a ≡ (is_outside self.old.heap.objects (contains self.old.marker.traced) a || contains self.old.heap.condemned a) }
        ensures count { sets.len self.new.heap.condemned ≡ sets.len self.old.heap.condemned + result }
        ensures reclaimed { len self.new.heap.objects + result ≡ len self.old.heap.objects }
        // Everything else is unchanged.
        ensures heap { self.new.heap ≡ record self.old.heap { objects = self.new.heap.objects; condemned = self.new.heap.condemned } }
        ensures marker { self.new.marker ≡ self.old.marker }
    {
        let before = self.heap.condemned();
        condemn_outside(&mut self.heap, self.marker.kept());
        self.heap.condemned() - before
    }
}
