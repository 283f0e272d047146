//! The heap: its objects, their words and their births.

ghost use Rattle.std.specs.Prelude.{◌^◌, ◌∷◌, [], ◌≡◌, ◌≤◌, ◌<◌, ◌+◌, ◌*◌, ℕ, not, ◌&&◌, ◌||◌, All, IsTrue, IsSome, IfSome, IfOk, OnOk, OnErr, option_map, length, replicate};
ghost use Rattle.std.specs.FinMap.{get, insert, remove, retain_keys, contains_key, keys, len, empty};
ghost use Rattle.std.specs.FinSet as sets;
ghost use Rattle.fz_model.specs.declared.limits.TheConstants.{BLOCK_WORDS, HEAP_START, MAX_BLOCKS};
ghost use Rattle.fz_model.specs.Extents.{IsInHeap, extents, AreApart};
ghost use Rattle.fz_model.specs.Memory.{points, word_at, written};
ghost use Rattle.fz_model.specs.Allocation.{place_for, block_start};
ghost use Rattle.fz_model.specs.Condemned.{stands_at, swept};
ghost use Rattle.fz_model.specs.Bits.{has_bit};
ghost use Rattle.fz_heap.specs.Contents.{AreGone, pointers_of, with_made, words_of};
ghost use Rattle.fz_model.specs.Causes.{IsJudgedBy, IsJudgedOrLacks, bad_count, alloc_causes, place_causes};

use crate::places::{place_of, zero};
use fz_blocks::{BlockMap, Starts};
use fz_model::{
    Addr, BLOCK_WORDS, COUNT_LIMIT, HEAP_START, MAX_OBJECT_WORDS, ObjKind, Refusal, Word,
};
use std::alloc::{AllocError, Global};
use std::marker::Model;

/// A heap of up to `MAX_BLOCKS` blocks of `BLOCK_WORDS` words each, beginning at the address `HEAP_START`.
///
/// Only `new` allocates, and no call frees memory. Each word of the heap takes 16 bytes: eight for its content, and eight for the birth of an object that may
/// start there. Objects have no header. The map of the blocks takes additional memory (`fz_blocks::BlockMap`). The cost of a call doesn't depend on the
/// number of objects, with two exceptions: `alloc` clears the words of the new object, and `objects` walks over the heap.
pub struct Heap {
    map: BlockMap,
    /// The content of each word, from the heap's first address on. Words outside objects have no meaning.
    words: Vec<Word>,
    /// The births, likewise. Only the birth at the first word of an object has a meaning.
    births: Vec<u64>,
    next_birth: u64,
    /// The number of objects.
    live: u64,
    /// The number of their words.
    used: u64,
}

// Written by hand, so that the owner drops it by one proved call, not field by field at each exit of a function.
impl Drop for Heap {
    fn drop(self) {
        let Heap {
            map: _,
            words: _,
            births: _,
            next_birth: _,
            live: _,
            used: _,
        } = self;
    }
}

/// This many words, all of them zero.
fn zeros(alloc: Global, size: u64) -> Result<Vec<Word>, AllocError>
    ensures { IfOk result (λ words. words.items ≡ replicate size 0) }
{
    vec![in alloc; 0; size as usize]
}

impl Model for Heap {
    ghost use Rattle.fz_heap.specs.Contents.{Contents, contents_code};

    ghost Value = { Contents };

    ghost coded = { contents_code };

    ghost use Rattle.fz_heap.specs.Flat.{objects_of};
    ghost use Rattle.fz_heap.specs.Layout.{IsCounted};

    ghost view = { λ h. record { blocks = h.map.blocks; objects = objects_of h.map.extents h.words.items h.births.items; condemned = h.map.condemned; next_birth = h.next_birth } };

    ghost invariant = { λ h. IsCounted h.map h.words.items h.births.items h.live h.used };
}

impl Heap {
    /// A heap of 1 to `MAX_BLOCKS` blocks, without objects.
    ///
    /// Fails with `BadCount` for any other number of blocks, and with `NoMemory` if an allocation fails.
    pub fn new(alloc: Global, blocks: u64) -> Result<Heap, Refusal>
        ensures judged { IsJudgedOrLacks (bad_count MAX_BLOCKS blocks ∷ []) result }
        ensures opened { IfOk result (λ h. h ≡ record { blocks = blocks; objects = empty; condemned = sets.empty; next_birth = 0 }) }
    {
        let map = BlockMap::new(alloc, blocks)?;
        let words = zeros(alloc, BLOCK_WORDS * blocks)?;
        let births = zeros(alloc, BLOCK_WORDS * blocks)?;
        Ok(Heap {
            map,
            words,
            births,
            next_birth: 0,
            live: 0,
            used: 0,
        })
    }

    /// The number of blocks.
    pub fn blocks(&self) -> u64
        ensures blocks { result ≡ self.now.blocks }
        ensures some { 1 ≤ self.now.blocks }
        ensures few { self.now.blocks ≤ MAX_BLOCKS }
    {
        self.map.blocks()
    }

    /// Allocates an object of 1 to `MAX_OBJECT_WORDS` words, all of them zero. Returns its address and its birth; births count allocations from 0. An object
    /// of more than `BLOCK_WORDS` words takes whole neighbouring blocks, one for each `BLOCK_WORDS` words begun. The object's blocks are swept, and no
    /// others.
    ///
    /// Fails with `BadSize` for any other size, then with `Exhausted` once `COUNT_LIMIT` births are used up, then with `NoSpace` if the heap has no room for
    /// an object of this size and kind. A failed call changes nothing.
    pub fn alloc(&mut self, size: u64, kind: ObjKind) -> Result<(Addr, u64), Refusal>
        ensures judged { IsJudgedBy (alloc_causes self.old.objects self.old.blocks self.old.next_birth size kind) result }
        ensures unchanged { OnErr result (self.new ≡ self.old) }
        ensures place { IfOk result (λ made. (place_for self.old.objects self.old.blocks size kind ≡ Some made.0) × (made.1 ≡ self.old.next_birth)) }
        ensures made { IfOk result (λ made. self.new ≡ with_made self.old made.0 size kind) }
        ensures start { IfOk result (λ made. points self.new.objects made.0 ≡ Some made.0) }
        ensures within { IfOk result (λ made. IsInHeap self.old.blocks made.0) }
    {
        if size == 0 || size > MAX_OBJECT_WORDS {
            return Err(Refusal::BadSize);
        }
        if self.next_birth >= COUNT_LIMIT {
            return Err(Refusal::Exhausted);
        }
        let start = self.map.claim(size, kind)?;
        let birth = self.next_birth;
        let first = (start - HEAP_START) as usize;
        zero(&mut self.words, first, size as usize);
        self.births[first] = birth;
        self.next_birth += 1;
        self.live += 1;
        self.used += size;
        Ok((start, birth))
    }

    /// The address of the object to which the word points, if there is one. Interior pointers count.
    pub fn resolve(&self, word: Word) -> Option<Addr>
        ensures points { result ≡ points self.now.objects word }
        ensures within { IfSome result (λ start. IsInHeap self.now.blocks start × IsTrue (contains_key self.now.objects start)) }
        ensures itself { IsTrue (contains_key self.now.objects word) → points self.now.objects word ≡ Some word }
        ensures apart { AreApart (extents self.now.objects) }
    {
        let (start, _) = self.map.cell_of(word)?;
        Some(start)
    }

    /// The address at `offset` words after `word`, which has to lie in the object to which `word` points.
    ///
    /// Fails with `NotPointer` if `word` points to no object, and with `OutsideObject` if `word` plus `offset` lies outside the object to which `word`
    /// points.
    pub fn place(&self, word: Word, offset: u64) -> Result<Addr, Refusal>
        ensures judged { IsJudgedBy (place_causes self.now.objects word offset) result }
        ensures place { IfOk result (λ place. place ≡ word + offset) }
        ensures high { IfOk result (λ place. HEAP_START ≤ place) }
    {
        let place = place_of(&self.map, word, offset)?;
        Ok(HEAP_START + place as u64)
    }

    /// Reads the word at `offset` words after `word`, in the object to which `word` points.
    ///
    /// Fails with `NotPointer` if `word` points to no object, and with `OutsideObject` if `word` plus `offset` lies outside the object to which `word`
    /// points.
    pub fn read(&self, word: Word, offset: u64) -> Result<Word, Refusal>
        ensures judged { IsJudgedBy (place_causes self.now.objects word offset) result }
        ensures read { IfOk result (λ read. read ≡ word_at self.now.objects (word + offset)) }
    {
        let place = place_of(&self.map, word, offset)?;
        Ok(self.words[place])
    }

    /// Writes the value at `offset` words after `word`, in the object to which `word` points.
    ///
    /// Fails with `NotPointer` if `word` points to no object, and with `OutsideObject` if `word` plus `offset` lies outside the object to which `word`
    /// points. A failed write changes nothing.
    pub fn write(&mut self, word: Word, offset: u64, value: Word) -> Result<(), Refusal>
        ensures judged { IsJudgedBy (place_causes self.old.objects word offset) result }
        ensures unchanged { OnErr result (self.new ≡ self.old) }
        ensures written { OnOk result (self.new ≡ record self.old { objects = written (word + offset) value self.old.objects }) }
        ensures within { OnOk result (IsInHeap self.old.blocks (word + offset)) }
        ensures fits { OnOk result (word + offset < 2 ^ 64) }
    {
        let place = place_of(&self.map, word, offset)?;
        self.words[place] = value;
        Ok(())
    }

    /// Removes a dead object. Its cell waits to be swept; for an object of several blocks, the whole run does. Requires the address of an object.
    pub fn condemn(&mut self, start: Addr)
        requires { IsTrue (contains_key self.old.objects start) }
        ensures { self.new ≡ record self.old { objects = remove self.old.objects start; condemned = sets.insert self.old.condemned start } }
    {
        let size = self.map.size_in((start - HEAP_START) / BLOCK_WORDS);
        self.map.condemn(start);
        self.live -= 1;
        self.used -= size;
    }

    /// Removes each object that starts in the block at one of these words, given as bits; the lowest bit is the block's first word. Returns their number.
    /// Bits of words at which no object starts are ignored. Requires a block of the heap.
    pub fn condemn_in(&mut self, block: u64, places: u64) -> u64
        requires { block < self.old.blocks }
        ensures rest { self.new ≡ record self.old { objects = self.new.objects; condemned = self.new.condemned } }
        ensures objects { self.new.objects ≡ retain_keys self.old.objects (λ a. not (stands_at block places a)) }
        ensures condemned { (a : ℕ) → sets.contains self.new.condemned a ≡ (contains_key self.old.objects a && stands_at block places a || sets.contains self.old.condemned a) }
        ensures count { sets.len self.new.condemned ≡ sets.len self.old.condemned + result }
        ensures fewer { len self.new.objects + result ≡ len self.old.objects }
    {
        let size = self.map.size_in(block);
        let count = self.map.condemn_in(block, places);
        self.live -= count;
        self.used -= count * size;
        count
    }

    /// Frees the dead cells of a block, or the dead run that starts there. Requires a block of the heap.
    pub fn sweep(&mut self, block: u64)
        requires { block < self.old.blocks }
        ensures { self.new ≡ record self.old { condemned = swept self.old.condemned block 1 } }
    {
        self.map.sweep(block);
    }

    /// Frees all dead cells.
    pub fn sweep_all(&mut self)
        ensures { self.new ≡ record self.old { condemned = sets.empty } }
    {
        if self.condemned() == 0 {
            return;
        }
        for block in 0..self.blocks() {
            self.sweep(block);
        }
    }

    /// The number of dead, unswept cells. A run counts once.
    pub fn condemned(&self) -> u64
        ensures count { result ≡ sets.len self.now.condemned }
        ensures gone { AreGone self.now }
        ensures within { (a : ℕ) → IsTrue (sets.contains self.now.condemned a) → IsInHeap self.now.blocks a }
        ensures objects { All (IsInHeap self.now.blocks) (keys self.now.objects) }
    {
        self.map.condemned()
    }

    /// The words of a block at which objects start, as bits; the lowest bit is the block's first word. Requires a block of the heap.
    pub fn starts_in(&self, block: u64) -> u64
        requires { block < self.now.blocks }
        ensures { (place : ℕ) → place < BLOCK_WORDS → has_bit result place ≡ contains_key self.now.objects (block_start block + place) }
    {
        self.map.starts_in(block)
    }

    /// The number of objects ever allocated.
    pub fn births(&self) -> u64
        ensures { result ≡ self.now.next_birth }
    {
        self.next_birth
    }

    /// The number of objects.
    pub fn live(&self) -> u64
        ensures { result ≡ len self.now.objects }
    {
        self.live
    }

    /// The number of words that the objects have together.
    pub fn used(&self) -> u64
        ensures used { result ≡ words_of self.now.objects }
        ensures within { result ≤ BLOCK_WORDS * self.now.blocks }
    {
        self.used
    }

    /// The size in words, the kind and the birth of the object with this address, if there is one.
    pub fn facts(&self, start: Addr) -> Option<(u64, ObjKind, u64)>
        ensures facts { result ≡ option_map (λ o. (length o.words, o.kind, o.birth)) (get self.now.objects start) }
        ensures within { IsSome result → IsInHeap self.now.blocks start }
        ensures itself { IsSome result → points self.now.objects start ≡ Some start }
        ensures apart { AreApart (extents self.now.objects) }
    {
        let extent = self.map.extent_at(start)?;
        let birth = self.births[(start - HEAP_START) as usize];
        Some((extent.size, extent.kind, birth))
    }

    /// The words of the scanned object with this address. Empty if the object is pointer-free, or if there is none.
    pub fn pointers(&self, start: Addr) -> &[Word]
        ensures { result.now ≡ pointers_of self.now.objects start }
    {
        match self.map.extent_at(start) {
            Some(extent) => match extent.kind {
                ObjKind::Scanned => {
                    let first = (start - HEAP_START) as usize;
                    &self.words[first..first + extent.size as usize]
                }
                ObjKind::Atomic => &[],
            },
            None => &[],
        }
    }

    /// The addresses of all objects, in ascending order.
    pub fn objects(&self) -> Starts<'_>
        ensures starts { result ≡ keys self.now.objects }
        ensures within { All (IsInHeap self.now.blocks) (keys self.now.objects) }
        ensures themselves { All (λ start. points self.now.objects start ≡ Some start) (keys self.now.objects) }
    {
        self.map.starts()
    }
}
