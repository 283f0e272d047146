//! Tracing from an object's children.

ghost use Rattle.std.specs.Prelude.{◌≡◌, ◌*◌, IsFalse};
ghost use Rattle.fz_model.specs.declared.limits.TheConstants.{BLOCK_WORDS};
ghost use Rattle.fz_marker.specs.Marking.{IsClosed};
ghost use Rattle.fz_pass.specs.Marks.{IsLeadingBut};
ghost use Rattle.fz_model.specs.Memory.{word_at};
ghost use Rattle.fz_pass.specs.Holds.{IsOfValue};
ghost use Rattle.fz_marked.specs.Traces.{Traces, IsTargetBut, value_at};

use fz_heap::Heap;
use fz_marker::Marker;
use fz_model::{Addr, Word};

/// Traces from the object to which a word of `object` points. With `but_itself` a pointer to `object` itself is skipped.
fn trace_target(heap: &Heap, marker: &mut Marker, word: Word, object: Addr, but_itself: bool)
    requires size { marker.old.size ≡ BLOCK_WORDS * heap.now.blocks }
    requires closed { IsClosed heap.now.objects marker.old.traced }
    ensures { Traces heap.now.objects marker.old marker.new (IsTargetBut heap.now.objects but_itself object word) }
{
    let Some(child) = heap.resolve(word) else {
        return;
    };
    if but_itself && child == object {
        return;
    }
    marker.trace(heap, child);
}

/// Traces from the children of an object. With `but_itself` the object itself is skipped.
pub(crate) fn trace_children(heap: &Heap, marker: &mut Marker, object: Addr, but_itself: bool)
    requires size { marker.old.size ≡ BLOCK_WORDS * heap.now.blocks }
    requires closed { IsClosed heap.now.objects marker.old.traced }
    ensures { Traces heap.now.objects marker.old marker.new (IsLeadingBut heap.now.objects but_itself object) }
{
    for word in heap.pointers(object) {
        trace_target(heap, marker, *word, object, but_itself);
    }
}

/// The word at an address, or 0 if it lies in no object.
fn word_at(heap: &Heap, address: Addr) -> Word
    ensures { result ≡ word_at heap.now.objects address }
{
    match heap.read(address, 0) {
        Ok(word) => word,
        Err(_) => 0,
    }
}

/// Traces from the object to which the word at an address points, and returns whether it wasn't traced before.
pub(crate) fn trace_value(heap: &Heap, marker: &mut Marker, address: Addr) -> bool
    requires size { marker.old.size ≡ BLOCK_WORDS * heap.now.blocks }
    requires closed { IsClosed heap.now.objects marker.old.traced }
    ensures traces { Traces heap.now.objects marker.old marker.new (IsOfValue value_at heap.now.objects address) }
    ensures nothing { IsFalse result → marker.new.traced ≡ marker.old.traced }
{
    let Some(object) = heap.resolve(word_at(heap, address)) else {
        return false;
    };
    if marker.traced(object) {
        return false;
    }
    marker.trace(heap, object);
    true
}
