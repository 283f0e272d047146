//! The map of a heap's blocks.

use crate::blocks::Blocks;
use crate::claims::{claim_place, condemn_at};
use crate::starts::Starts;
use fz_model::{
    Addr, BLOCK_WORDS, Extent, HEAP_START, MAX_BLOCKS, MAX_OBJECT_WORDS, ObjKind, Refusal, Word,
};
use std::alloc::Global;
use std::marker::Model;

/// The map of a heap of up to 4,096 blocks of 64 words, beginning at address 65,536, and the extents of its objects.
///
/// Only `new` allocates: 32 bytes for each block, and 129 sets for finding a free cell, each of 48 bytes and 8 more for every 64 blocks begun. So the map of
/// one block takes about 7 KB, and the map of 4,096 blocks 203 KB.
///
/// A condemned object is dead: it is no longer in the map. Its cell stays dead until it is swept or claimed again.
pub struct BlockMap {
    blocks: Blocks,
}

// Written by hand, so that the owner drops it by one proved call, not field by field at each exit of a function.
impl Drop for BlockMap {
    fn drop(self) {
        let BlockMap { blocks: _ } = self;
    }
}

impl Model for BlockMap {
    ghost use Rattle.std.specs.Prelude.{length};
    ghost use Rattle.fz_blocks.specs.Claimed.{Claimed, claimed_code};

    ghost Value = { Claimed };

    ghost coded = { claimed_code };

    ghost use Rattle.fz_blocks.specs.Layout.{extents_in, condemned_in, IsMap};

    ghost view = { λ m. record { blocks = length m.blocks; extents = extents_in m.blocks; condemned = condemned_in m.blocks } };

    ghost invariant = { λ m. IsMap m.blocks };
}

impl BlockMap {
    ghost use Rattle.std.specs.Prelude.{◌∷◌, [], ◌≡◌, ◌≤◌, ◌<◌, ◌+◌, None, Some, ℕ, MatchOption, not, ◌&&◌, ◌||◌, IsTrue, IfOk, OnOk, OnErr};
    ghost use Rattle.std.specs.FinMap.{get, keys, insert, remove, retain_keys, contains_key, empty, len};
    ghost use Rattle.std.specs.FinSet as sets;
    ghost use Rattle.fz_model.specs.declared.limits.TheConstants.{BLOCK_WORDS, MAX_BLOCKS};
    ghost use Rattle.fz_model.specs.declared.extent.Extent.{Extent};
    ghost use Rattle.fz_model.specs.Extents.{points_in, IsInHeap, AreApart, AreWithin};
    ghost use Rattle.fz_model.specs.Allocation.{block_start, block_of, blocks_for, place_in};
    ghost use Rattle.fz_model.specs.Causes.{IsJudgedBy, IsJudgedOrLacks, bad_count};
    ghost use Rattle.fz_model.specs.Bits.{has_bit};
    ghost use Rattle.fz_blocks.specs.Claimed.{claim_causes, stands_at, swept, AreGone};

    /// A map of 1 to 4,096 blocks without objects. It allocates all the memory that other calls need.
    ///
    /// Fails with `BadCount` for any other number of blocks, and with `NoMemory` if an allocation fails.
    pub fn new(alloc: Global, blocks: u64) -> Result<BlockMap, Refusal>
        ensures judged { IsJudgedOrLacks (bad_count MAX_BLOCKS blocks ∷ []) result }
        ensures opened { IfOk result (λ map. map ≡ record { blocks = blocks; extents = empty; condemned = sets.empty }) }
    {
        if blocks == 0 || blocks > MAX_BLOCKS {
            return Err(Refusal::BadCount);
        }
        let blocks = Blocks::new(alloc, blocks)?;
        Ok(BlockMap { blocks })
    }

    /// The number of blocks.
    pub fn blocks(&self) -> u64
        ensures blocks { result ≡ self.now.blocks }
        ensures few { (1 ≤ self.now.blocks) × (self.now.blocks ≤ MAX_BLOCKS) }
        ensures apart { AreApart self.now.extents }
        ensures within { AreWithin self.now.blocks self.now.extents }
    {
        self.blocks.as_slice().len() as u64
    }

    /// Claims the lowest free cell among the blocks of this size (1 to 1,024 words) and kind. If there is none, it claims the lowest run of empty blocks, one
    /// for each 64 words begun. Returns the address. The blocks of the new object are swept.
    ///
    /// Fails with `BadSize` for any other size, and with `NoSpace` if there is no such place. It allocates nothing, and a failed claim changes nothing.
    pub fn claim(&mut self, size: u64, kind: ObjKind) -> Result<Addr, Refusal>
        ensures judged { IsJudgedBy (claim_causes self.old size kind) result }
        ensures unchanged { OnErr result (self.new ≡ self.old) }
        ensures place { IfOk result (λ start. place_in self.old.extents self.old.blocks size kind ≡ Some start) }
        ensures claimed { IfOk result (λ start. self.new ≡ record self.old { extents = insert self.old.extents start (record { size = size; kind = kind }); condemned = swept self.old.condemned (block_of start) (blocks_for size) }) }
        ensures apart { OnOk result (AreApart self.new.extents) }
        ensures within { OnOk result (AreWithin self.new.blocks self.new.extents) }
    {
        if size == 0 || size > MAX_OBJECT_WORDS {
            return Err(Refusal::BadSize);
        }
        claim_place(&mut self.blocks, size, kind).ok_or(Refusal::NoSpace)
    }

    /// Removes a dead object from the map. Its cell or run waits to be swept. Requires the address of an object.
    pub fn condemn(&mut self, start: Addr)
        requires { IsTrue (contains_key self.old.extents start) }
        ensures { self.new ≡ record self.old { extents = remove self.old.extents start; condemned = sets.insert self.old.condemned start } }
    {
        let blocks = &mut self.blocks;
        let offset = start - HEAP_START;
        condemn_at(blocks, offset / BLOCK_WORDS, 1 << (offset % BLOCK_WORDS));
    }

    /// Removes each object that starts in the block at one of these words, given as bits; the lowest bit is the block's first word. Their cells wait to be
    /// swept. Returns their number. Requires a block of the heap.
    pub fn condemn_in(&mut self, block: u64, places: u64) -> u64
        requires { block < self.old.blocks }
        ensures blocks { self.new.blocks ≡ self.old.blocks }
        ensures extents { self.new.extents ≡ retain_keys self.old.extents (λ a. not (stands_at block places a)) }
        ensures condemned { (a : ℕ) → sets.contains self.new.condemned a ≡ (contains_key self.old.extents a && stands_at block places a || sets.contains self.old.condemned a) }
        ensures count { sets.len self.new.condemned ≡ sets.len self.old.condemned + result }
        ensures fewer { len self.new.extents + result ≡ len self.old.extents }
    {
        condemn_at(&mut self.blocks, block, places)
    }

    /// Frees the dead cells of a block, or the dead run that starts there. Requires a block of the heap.
    pub fn sweep(&mut self, block: u64)
        requires { block < self.old.blocks }
        ensures { self.new ≡ record self.old { condemned = swept self.old.condemned block 1 } }
    {
        let mut clean = self.blocks.get(block);
        clean.sweep();
        self.blocks.put_alike(block, clean);
    }

    /// The number of dead, unswept cells. A run counts once.
    pub fn condemned(&self) -> u64
        ensures count { result ≡ sets.len self.now.condemned }
        ensures gone { AreGone self.now }
        ensures within { (a : ℕ) → IsTrue (sets.contains self.now.condemned a) → IsInHeap self.now.blocks a }
    {
        self.blocks.condemned()
    }

    /// The address and the extent of the object in which the word lies, if there is one. Interior pointers count.
    pub fn cell_of(&self, word: Word) -> Option<(Addr, Extent)>
        ensures { MatchOption result (points_in self.now.extents word ≡ None) (λ found. (points_in self.now.extents word ≡ Some found.0) × (get self.now.extents found.0 ≡ Some found.1)) }
    {
        let all = self.blocks.as_slice();
        let offset = word.checked_sub(HEAP_START)?;
        let index = offset / BLOCK_WORDS;
        let block = all.get(index as usize)?;
        let place = offset % BLOCK_WORDS;
        // Most words that point into an object are its start.
        if block.starts_at(place) {
            return Some((word, block.extent()));
        }
        if let Some(start) = block.cell_start(place) {
            return Some((word - place + start, block.extent()));
        }
        if block.back == 0 {
            return None;
        }
        let back = u64::from(block.back);
        let first = all.get((index - back) as usize)?;
        let start = word - place - BLOCK_WORDS * back;
        if word - start >= u64::from(first.size) {
            return None;
        }
        Some((start, first.extent()))
    }

    /// The extent of the object with this address, if there is one.
    pub fn extent_at(&self, start: Word) -> Option<Extent>
        ensures { result ≡ get self.now.extents start }
    {
        let all = self.blocks.as_slice();
        let offset = start.checked_sub(HEAP_START)?;
        let block = all.get((offset / BLOCK_WORDS) as usize)?;
        if !block.starts_at(offset % BLOCK_WORDS) {
            return None;
        }
        Some(block.extent())
    }

    /// The words of a block at which objects start, as bits; the lowest bit is the block's first word. Requires a block of the heap.
    pub fn starts_in(&self, block: u64) -> u64
        requires { block < self.now.blocks }
        ensures { (place : ℕ) → place < BLOCK_WORDS → has_bit result place ≡ contains_key self.now.extents (block_start block + place) }
    {
        self.blocks.get(block).objects
    }

    /// The size, in words, of each object that starts in a block. Requires a block of the heap.
    pub fn size_in(&self, block: u64) -> u64
        requires { block < self.now.blocks }
        ensures { (a : ℕ) (x : Extent) → get self.now.extents a ≡ Some x → block_of a ≡ block → x.size ≡ result }
    {
        u64::from(self.blocks.block(block).size)
    }

    /// The addresses of all objects, in ascending order.
    pub fn starts(&self) -> Starts<'_>
        ensures { result ≡ keys self.now.extents }
    {
        Starts::of(self.blocks.as_slice())
    }
}
