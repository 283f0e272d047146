//! A set of objects with a mark stack: the members that wait to be scanned.

ghost use Rattle.std.specs.Prelude.{◌∷◌, [], ◌++◌, ◌≡◌, ◌≤◌, ◌<◌, ◌+◌, ◌*◌, ◌↔◌, ◌⊎◌, not, ℕ, length, vec_capacity, Some, IsTrue, IsFalse, IfOk, IfErr, IsSome, IfSome, MatchOption};
ghost use Rattle.std.specs.FinSet.{contains, insert, empty, len};
ghost use Rattle.fz_model.specs.declared.limits.TheConstants.{HEAP_START, BLOCK_WORDS, MAX_BLOCKS};
ghost use Rattle.fz_model.specs.Reachability.{Child, Leads};
ghost use Rattle.fz_model.specs.Allocation.{block_of};
ghost use Rattle.fz_bits.specs.Flags.{IsNext};
ghost use Rattle.fz_marker.specs.Frontiers.{Gains, IsAmong, IsPointedAt, IsTracing};
ghost use Rattle.fz_marker.specs.Marking.{IsClosed};

use fz_bits::Flags;
use fz_heap::Heap;
use fz_model::{Addr, BLOCK_WORDS, HEAP_START, Refusal, Word};
use std::alloc::Global;
use std::marker::Model;

/// A set of objects by address, and a mark stack of members. The mark stack has room for every object, so it can't overflow.
#[derive(Drop)]
pub(crate) struct Frontier {
    set: Flags<HEAP_START>,
    work: Vec<Addr>,
}

impl Model for Frontier {
    ghost use Rattle.std.specs.Prelude.{vec_capacity};
    ghost use Rattle.fz_marker.specs.Frontiers.{Frontier, frontier_code, HasRoom};

    ghost Value = { Frontier };

    ghost coded = { frontier_code };

    ghost view = { λ f. record { size = f.set.size; members = f.set.members; waiting = f.work.items } };

    ghost invariant = { λ f. HasRoom f.set f.work.items (vec_capacity f.work) };
}

/// An empty mark stack with room for `room` objects.
fn work_list(alloc: Global, room: u64) -> Result<Vec<Addr>, Refusal>
    ensures refused { IfErr result (λ r. r ≡ Refusal.NoMemory) }
    ensures empty { IfOk result (λ work. work.items ≡ []) }
    ensures room { IfOk result (λ work. vec_capacity work ≡ room) }
{
    Vec::with_capacity(alloc, room as usize).map_err(|_| Refusal::NoMemory)
}

/// Pushes an object onto a mark stack that has room, so the push doesn't allocate and can't fail.
fn put_last(work: &mut Vec<Addr>, start: Addr)
    requires room { length work.old.items < vec_capacity work.old }
    ensures items { work.new.items ≡ work.old.items ++ start ∷ [] }
    ensures capacity { vec_capacity work.old ≤ vec_capacity work.new }
{
    let _ = work.push(start);
}

impl Frontier {
    /// An empty set of objects of a heap of `blocks` blocks. Fails with `NoMemory` if an allocation fails.
    pub(crate) fn new(alloc: Global, blocks: u64) -> Result<Frontier, Refusal>
        requires { blocks ≤ MAX_BLOCKS }
        ensures refused { IfErr result (λ r. r ≡ Refusal.NoMemory) }
        ensures made { IfOk result (λ f. f ≡ record { size = BLOCK_WORDS * blocks; members = empty; waiting = [] }) }
    {
        let set = Flags::new(alloc, blocks)?;
        let work = work_list(alloc, BLOCK_WORDS * blocks)?;
        Ok(Frontier { set, work })
    }

    /// Whether the object is a member.
    pub(crate) fn contains(&self, start: Addr) -> bool
        ensures { result ≡ contains self.now.members start }
    {
        self.set.contains(start)
    }

    /// Makes the object a member. A new member waits to be scanned.
    pub(crate) fn add(&mut self, start: Addr)
        requires { IsAmong self.old.size start }
        ensures gains { Gains self.old self.new (λ a. a ≡ start) }
    {
        if self.set.insert(start) {
            put_last(&mut self.work, start);
        }
    }

    /// Adds all objects to which the words point.
    // Inlined: each scan runs this, usually for few words, and a call would take as long as one of them.
    #[inline(always)]
    pub(crate) fn add_targets(&mut self, heap: &Heap, words: &[Word])
        requires size { self.old.size ≡ BLOCK_WORDS * heap.now.blocks }
        requires room { len self.old.members ≤ self.old.size }
        ensures gains { Gains self.old self.new (IsPointedAt heap.now.objects words.now) }
    {
        for word in words {
            if let Some(start) = heap.resolve(*word) {
                self.add(start);
            }
        }
    }

    /// Pops a waiting object.
    pub(crate) fn pop(&mut self) -> Option<Addr>
        ensures set { (self.new.size ≡ self.old.size) × (self.new.members ≡ self.old.members) }
        ensures waiting { MatchOption result ((self.old.waiting ≡ []) × (self.new.waiting ≡ [])) (λ start. self.old.waiting ≡ self.new.waiting ++ start ∷ []) }
        ensures within { IfSome result (IsAmong self.old.size) }
        ensures room { IsSome result → length self.new.waiting < len self.new.members }
    {
        self.work.pop()
    }

    /// The lowest member, from an address on, in the same block.
    pub(crate) fn next_in_block(&self, from: Addr) -> Option<Addr>
        ensures next { MatchOption result ((a : ℕ) → from ≤ a → block_of a ≡ block_of from → IsFalse (contains self.now.members a)) (λ next. IsNext self.now.members from next) }
        ensures within { IfSome result (IsAmong self.now.size) }
        ensures near { IfSome result (λ next. block_of next ≡ block_of from) }
    {
        self.set.next_in_word(from)
    }

    /// Pushes a popped object back.
    pub(crate) fn put_back(&mut self, start: Addr)
        requires room { length self.old.waiting < len self.old.members }
        requires among { IsAmong self.old.size start }
        ensures { self.new ≡ record self.old { waiting = self.old.waiting ++ start ∷ [] } }
    {
        put_last(&mut self.work, start);
    }

    /// Makes it equal to another set. Requires an empty mark stack.
    pub(crate) fn copy(&mut self, other: &Frontier)
        requires size { self.old.size ≡ other.now.size }
        requires idle { self.old.waiting ≡ [] }
        ensures { self.new ≡ record self.old { members = other.now.members } }
    {
        self.set.copy_from(&other.set);
    }

    /// The members.
    pub(crate) fn members(&self) -> &Flags<HEAP_START>
        ensures { result.now ≡ record { size = self.now.size; members = self.now.members } }
    {
        &self.set
    }

    /// Empties the set.
    pub(crate) fn clear(&mut self)
        ensures { self.new ≡ record self.old { members = empty; waiting = [] } }
    {
        self.set.clear();
        self.work.clear();
    }

    /// Adds the children of the object at an address.
    #[inline(always)]
    fn add_children(&mut self, heap: &Heap, start: Addr)
        requires size { self.old.size ≡ BLOCK_WORDS * heap.now.blocks }
        requires room { len self.old.members ≤ self.old.size }
        ensures gains { Gains self.old self.new (Child heap.now.objects start) }
    {
        self.add_targets(heap, heap.pointers(start));
    }

    /// Makes the object a member without pushing it. Returns whether it is new.
    pub(crate) fn enter(&mut self, object: Addr) -> bool
        requires { IsAmong self.old.size object }
        ensures new { result ≡ not (contains self.old.members object) }
        ensures entered { self.new ≡ record self.old { members = insert self.old.members object } }
        ensures room { len self.new.members ≤ self.new.size }
    {
        self.set.insert(object)
    }

    /// Adds the object and everything that it reaches. Requires an empty mark stack, and that the set is closed under children.
    // The object itself isn't pushed: most objects of a pass reach nothing new.
    pub(crate) fn add_closed(&mut self, heap: &Heap, object: Addr)
        requires size { self.old.size ≡ BLOCK_WORDS * heap.now.blocks }
        requires among { IsAmong self.old.size object }
        requires few { len self.old.members ≤ self.old.size }
        requires idle { self.old.waiting ≡ [] }
        requires closed { IsClosed heap.now.objects self.old.members }
        ensures size { self.new.size ≡ self.old.size }
        ensures few { len self.new.members ≤ self.new.size }
        ensures idle { self.new.waiting ≡ [] }
        ensures members { (a : ℕ) → IsTrue (contains self.new.members a) ↔ (IsTrue (contains self.old.members a) ⊎ Leads heap.now.objects object a) }
    {
        if self.enter(object) {
            self.add_children(heap, object);
            self.close(heap);
        }
    }

    /// Adds everything that the waiting objects reach.
    fn close(&mut self, heap: &Heap)
        requires size { self.old.size ≡ BLOCK_WORDS * heap.now.blocks }
        requires traced { IsTracing heap.now.objects self.old self.old }
        ensures traced { IsTracing heap.now.objects self.old self.new }
        ensures idle { self.new.waiting ≡ [] }
    {
        while let Some(start) = self.pop() {
            self.add_children(heap, start);
        }
    }
}
