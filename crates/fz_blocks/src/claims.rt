//! Claiming cells for new objects, and removing dead ones.

ghost use Rattle.std.specs.Prelude.{◌≡◌, ◌≤◌, ◌<◌, ◌+◌, ℕ, Some, None, slice_get, length, IsTrue, IsFalse, MatchOption};
ghost use Rattle.fz_model.specs.declared.limits.TheConstants.{BLOCK_WORDS, MAX_BLOCKS, MAX_OBJECT_WORDS};
ghost use Rattle.fz_model.specs.Allocation.{place_in, blocks_for};
ghost use Rattle.fz_blocks.specs.declared.block.Block.{Block};
ghost use Rattle.fz_blocks.specs.declared.block.TheConstants.{MAX_SPAN};
ghost use Rattle.fz_blocks.specs.Classes.{class_of};
ghost use Rattle.fz_blocks.specs.Layout.{extents_in, has_room, AreRuns, IsMap};
ghost use Rattle.fz_blocks.specs.Listed.{IsFirst};
ghost use Rattle.fz_blocks.specs.Claims.{IsClaimed, IsCondemned};
ghost use Rattle.fz_blocks.specs.Runs.{IsRun, IsFirstRun, WritesRun, FreesLater};

use crate::block::Block;
use crate::blocks::Blocks;
use fz_model::{Addr, BLOCK_WORDS, HEAP_START, ObjKind};

/// Claims the lowest free cell of the lowest block that has one.
fn claim_in_room(blocks: &mut Blocks, at: u64, size: u64, kind: ObjKind) -> Addr
    requires runs { AreRuns blocks.old }
    requires few { length blocks.old ≤ MAX_BLOCKS }
    requires sized { 1 ≤ size }
    requires small { size ≤ BLOCK_WORDS }
    requires first { IsFirst (has_room (class_of size kind)) blocks.old at }
    ensures { IsClaimed blocks.old blocks.new size kind result }
{
    if blocks.block(at).has_two_free() {
        return HEAP_START + BLOCK_WORDS * at + blocks.claim_alike(at);
    }
    let mut block = blocks.get(at);
    let place = block.claim_least();
    blocks.put(at, block);
    HEAP_START + BLOCK_WORDS * at + place
}

/// Writes a run of blocks for one object: the first block, and later ones that say how far back the first is.
fn write_run(blocks: &mut Blocks, at: u64, count: u64, first: Block)
    requires some { 1 ≤ count }
    requires few { count ≤ MAX_SPAN }
    requires low { length blocks.old ≤ MAX_BLOCKS }
    requires within { at + count ≤ length blocks.old }
    ensures { WritesRun blocks.old blocks.new at count first }
{
    blocks.put(at, first);
    let mut back = 1u64;
    while back < count {
        blocks.put(at + back, Block::later(back));
        back += 1;
    }
}

/// Claims the lowest run of empty blocks for an object that starts in the first of them.
fn claim_run(blocks: &mut Blocks, at: u64, size: u64, kind: ObjKind) -> Addr
    requires runs { AreRuns blocks.old }
    requires few { length blocks.old ≤ MAX_BLOCKS }
    requires sized { 1 ≤ size }
    requires small { size ≤ MAX_OBJECT_WORDS }
    requires no_room { size ≤ BLOCK_WORDS → (b : ℕ) (block : Block) → slice_get blocks.old b ≡ Some block → IsFalse (has_room (class_of size kind) block) }
    requires first { IsFirstRun blocks.old (blocks_for size) at }
    ensures { IsClaimed blocks.old blocks.new size kind result }
{
    let mut first = Block::of(size, kind);
    let _ = first.claim_least();
    write_run(blocks, at, first.span(), first);
    HEAP_START + BLOCK_WORDS * at
}

/// Claims the place for a new object.
pub(crate) fn claim_place(blocks: &mut Blocks, size: u64, kind: ObjKind) -> Option<Addr>
    requires runs { AreRuns blocks.old }
    requires few { length blocks.old ≤ MAX_BLOCKS }
    requires sized { 1 ≤ size }
    requires small { size ≤ MAX_OBJECT_WORDS }
    ensures { MatchOption result ((place_in (extents_in blocks.old) (length blocks.old) size kind ≡ None) × (blocks.new ≡ blocks.old)) (λ start. IsClaimed blocks.old blocks.new size kind start) }
{
    if let Some(at) = blocks.first_room(size, kind) {
        return Some(claim_in_room(blocks, at, size, kind));
    }
    let at = blocks.first_run((size - 1) / BLOCK_WORDS + 1)?;
    Some(claim_run(blocks, at, size, kind))
}

/// Takes all but the first of `count` blocks out of their run.
fn free_later(blocks: &mut Blocks, at: u64, count: u64)
    requires some { 1 ≤ count }
    requires low { length blocks.old ≤ MAX_BLOCKS }
    requires within { at + count ≤ length blocks.old }
    ensures { FreesLater blocks.old blocks.new at count }
{
    let mut back = 1u64;
    while back < count {
        let mut block = blocks.get(at + back);
        block.detach();
        blocks.put(at + back, block);
        back += 1;
    }
}

/// Removes each object that starts in the block at one of these words. Returns their number.
pub(crate) fn condemn_at(blocks: &mut Blocks, at: u64, places: u64) -> u64
    requires map { IsMap blocks.old }
    requires within { at < length blocks.old }
    ensures map { IsMap blocks.new }
    ensures condemned { IsCondemned blocks.old blocks.new at places result }
{
    if blocks.block(at).stays_alike_without(places) {
        return blocks.condemn_alike(at, places);
    }
    let mut left = blocks.get(at);
    let count = left.condemn(places);
    if count == 0 {
        return 0;
    }
    blocks.put(at, left);
    free_later(blocks, at, left.span());
    count
}
