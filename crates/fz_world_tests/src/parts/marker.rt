//! Cycles over chains and over an object of several pages: how many scans they need. No clause gives a lower bound.

ghost use Rattle.std.specs.Prelude.{◌≡◌, ◌≤◌, ◌<◌, ◌*◌, All, IfOk};
ghost use Rattle.std.specs.FinSet.{len};
ghost use Rattle.fz_model.specs.declared.limits.TheConstants.{BLOCK_WORDS};

use crate::equal::must_be;
use fz_dirty::Dirty;
use fz_heap::Heap;
use fz_marker::Marker;
use fz_model::ObjKind::{Atomic, Scanned};
use fz_model::Progress::{Done, More};
use fz_model::{Addr, BLOCK_WORDS, HEAP_START, MAX_BLOCKS, Progress};
use std::alloc::Global;
use std::test::Fail;

/// Allocates one-word objects, each pointing to the next.
fn make_chain(heap: &mut Heap, count: u64) -> Result<(), Fail>
    ensures { IfOk result (λ _. heap.new.blocks ≡ heap.old.blocks) }
{
    let mut last = heap.alloc(1, Scanned)?.0;
    for _ in 1..count {
        let next = heap.alloc(1, Scanned)?.0;
        heap.write(last, 0, next)?;
        last = next;
    }
    Ok(())
}

/// Begins a cycle with one root, and scans at most `budget` objects.
fn begin_with(marker: &mut Marker, heap: &Heap, root: Addr, budget: u64) -> Progress
    requires { marker.old.size ≡ BLOCK_WORDS * heap.now.blocks }
    ensures size { marker.new.size ≡ marker.old.size }
    ensures unfinished { marker.new.scans ≤ len marker.new.scanned }
{
    marker.begin();
    marker.root(heap, root);
    marker.step(heap, budget)
}

#[test]
fn a_chain_is_scanned_once(rt: HostRuntime) -> Result<(), Fail> {
    let mut heap = Heap::new(rt.alloc(), 2)?;
    make_chain(&mut heap, 100)?;
    let mut marker = Marker::new(rt.alloc(), 2)?;
    let mut dirty = Dirty::new(rt.alloc(), 2)?;
    let progress = begin_with(&mut marker, &heap, HEAP_START, 100);
    must_be(&rt, progress, Done, "as many scans as objects");
    must_be(&rt, marker.scans(), 100, "each object once");
    marker.finish(&heap, &dirty);
    must_be(&rt, marker.scans(), 100, "and none again");

    dirty.mark(1);
    let progress = begin_with(&mut marker, &heap, HEAP_START, 100);
    must_be(&rt, progress, Done, "a second cycle");
    marker.finish(&heap, &dirty);
    must_be(&rt, marker.scans(), 136, "those of the second page again");
    Ok(())
}

#[test]
fn a_step_stops_at_its_budget(rt: HostRuntime) -> Result<(), Fail> {
    let mut heap = Heap::new(rt.alloc(), 2)?;
    make_chain(&mut heap, 100)?;
    let mut marker = Marker::new(rt.alloc(), 2)?;
    let progress = begin_with(&mut marker, &heap, HEAP_START, 99);
    must_be(&rt, progress, More, "one scan too few");
    must_be(&rt, marker.scans(), 99, "all but one");
    let is_marked = marker.is_marked(HEAP_START + 99);
    must_be(&rt, is_marked, true, "the one that is left");
    must_be(&rt, marker.step(&heap, 0), More, "no more scans");
    must_be(&rt, marker.step(&heap, 1), Done, "one more scan");
    must_be(&rt, marker.scans(), 100, "each object once");
    Ok(())
}

/// A heap of five blocks: an object of three pages, and a small one behind it.
fn large_and_small(alloc: Global) -> Result<Heap, Fail>
    ensures { IfOk result (λ heap. heap.blocks ≡ 5) }
{
    let mut heap = Heap::new(alloc, 5)?;
    heap.alloc(3 * BLOCK_WORDS, Scanned)?;
    heap.alloc(1, Atomic)?;
    Ok(heap)
}

/// The address of the small object.
const SMALL: Addr = HEAP_START + 3 * BLOCK_WORDS;

/// How many scans a cycle makes that begins with the large object and ends with one to three dirty pages.
fn scans_with(alloc: Global, heap: &Heap, noted: &[u64]) -> Result<u64, Fail>
    requires blocks { heap.now.blocks ≡ 5 }
    requires pages { All (λ page. page < 5) noted.now }
{
    let mut marker = Marker::new(alloc, 5)?;
    let mut dirty = Dirty::new(alloc, 5)?;
    for page in noted {
        dirty.mark(*page);
    }
    begin_with(&mut marker, heap, HEAP_START, 1);
    marker.finish(heap, &dirty);
    Ok(marker.scans())
}

#[test]
fn a_store_to_a_later_page_is_found(rt: HostRuntime) -> Result<(), Fail> {
    let mut heap = large_and_small(rt.alloc())?;
    let mut marker = Marker::new(rt.alloc(), 5)?;
    let mut dirty = Dirty::new(rt.alloc(), 5)?;
    begin_with(&mut marker, &heap, HEAP_START, 1);
    heap.write(HEAP_START, 3 * BLOCK_WORDS - 1, SMALL)?;
    dirty.mark(2);
    marker.finish(&heap, &dirty);
    must_be(&rt, marker.is_marked(SMALL), true, "the small object");
    must_be(&rt, marker.scans(), 2, "the large object twice");
    Ok(())
}

#[test]
fn a_large_object_is_scanned_again_once(rt: HostRuntime) -> Result<(), Fail> {
    let heap = large_and_small(rt.alloc())?;
    let scans = scans_with(rt.alloc(), &heap, &[1])?;
    must_be(&rt, scans, 2, "one page of it");
    let scans = scans_with(rt.alloc(), &heap, &[0, 1, 2])?;
    must_be(&rt, scans, 2, "all its pages");
    let scans = scans_with(rt.alloc(), &heap, &[3, 4])?;
    must_be(&rt, scans, 1, "other pages");
    Ok(())
}

#[test]
fn the_largest_heap_is_marked(rt: HostRuntime) -> Result<(), Fail> {
    let count = BLOCK_WORDS * MAX_BLOCKS;
    let mut heap = Heap::new(rt.alloc(), MAX_BLOCKS)?;
    make_chain(&mut heap, count)?;
    let mut marker = Marker::new(rt.alloc(), MAX_BLOCKS)?;
    let dirty = Dirty::new(rt.alloc(), MAX_BLOCKS)?;
    let progress = begin_with(&mut marker, &heap, HEAP_START, count - 1);
    must_be(&rt, progress, More, "one scan too few");
    marker.finish(&heap, &dirty);
    must_be(&rt, marker.scans(), count, "each object once");
    let is_marked = marker.is_marked(HEAP_START + count - 1);
    must_be(&rt, is_marked, true, "the last object");
    Ok(())
}
