//! A list of blocks, with sets for finding the lowest empty block and the lowest block with a free cell.

ghost use Rattle.std.specs.Prelude.{◌≡◌, ◌≤◌, ◌<◌, ◌*◌, ◌==◌, if◌then◌else◌, ℕ, true, false, nat_lt, length, All, IfOk, IfErr};
ghost use Rattle.std.specs.FinSet.{contains};
ghost use Rattle.std.specs.FinSet as sets;
ghost use Rattle.fz_model.specs.declared.limits.TheConstants.{MAX_BLOCKS};
ghost use Rattle.fz_blocks.specs.BlockSets.{members_at, room_at};
ghost use Rattle.fz_blocks.specs.Layout.{has_room};
ghost use Rattle.fz_blocks.specs.Listed.{Leaves, Joins, Changes};

use crate::block::Block;
use crate::block_set::BlockSet;
use crate::class::{CLASSES, class_of};
use fz_model::{BLOCK_WORDS, ObjKind, Refusal};
use std::alloc::Global;
use std::marker::Model;

/// Blocks, whose model is a list. The sets are updated with each change.
#[derive(Drop)]
pub(crate) struct Blocks {
    blocks: Vec<Block>,
    /// The empty blocks, in which no object has a word.
    bare: BlockSet,
    /// For each size and kind, the blocks that contain such objects and have a free cell.
    rooms: Vec<BlockSet>,
    /// The number of dead, unswept cells.
    condemned: u64,
}

/// The set of all blocks below a number.
fn all_blocks(alloc: Global, blocks: u64) -> Result<BlockSet, Refusal>
    requires { blocks ≤ MAX_BLOCKS }
    ensures refused { IfErr result (λ r. r ≡ Refusal.NoMemory) }
    ensures room { IfOk result (λ s. blocks ≤ s.size) }
    ensures made { IfOk result (λ s. (b : ℕ) → contains s.members b ≡ nat_lt b blocks) }
{
    let mut all = BlockSet::new(alloc, blocks)?;
    for block in 0..blocks {
        all.insert(block);
    }
    Ok(all)
}

/// An empty set for each class, with room for the blocks below this number.
fn no_rooms(alloc: Global, blocks: u64) -> Result<Vec<BlockSet>, Refusal>
    requires { blocks ≤ MAX_BLOCKS }
    ensures refused { IfErr result (λ r. r ≡ Refusal.NoMemory) }
    ensures long { IfOk result (λ rooms. length rooms.items ≡ CLASSES) }
    ensures made { IfOk result (λ rooms. All (λ s. (s.members ≡ sets.empty) × (blocks ≤ s.size)) rooms.items) }
{
    let mut rooms = Vec::with_capacity(alloc, CLASSES)?;
    while rooms.len() < CLASSES {
        let room = BlockSet::new(alloc, blocks)?;
        rooms.push(room)?;
    }
    Ok(rooms)
}

/// Removes a block from the set of its class, if it is in one.
fn leave(rooms: &mut [BlockSet], block: &Block, at: u64)
    requires classes { length rooms.old ≡ CLASSES }
    ensures { Leaves rooms.old rooms.new block.now at }
{
    if block.has_room() {
        rooms[class_of(u64::from(block.size), block.kind)].remove(at);
    }
}

/// Adds a block to the set of its class, if it has a free cell.
fn join(rooms: &mut [BlockSet], block: &Block, at: u64)
    requires classes { length rooms.old ≡ CLASSES }
    requires room { (class : ℕ) → class < CLASSES → at < room_at rooms.old class }
    ensures { Joins rooms.old rooms.new block.now at }
{
    if block.has_room() {
        rooms[class_of(u64::from(block.size), block.kind)].insert(at);
    }
}

/// Moves a block that changes from the set of its old class to that of its new class, if these differ.
fn change_room(rooms: &mut [BlockSet], old: &Block, block: &Block, at: u64)
    requires classes { length rooms.old ≡ CLASSES }
    requires room { (class : ℕ) → class < CLASSES → at < room_at rooms.old class }
    requires listed { (class : ℕ) → class < CLASSES → contains (members_at rooms.old class) at ≡ has_room class old.now }
    ensures { Changes rooms.old rooms.new block.now at }
{
    if old.has_same_room(block) {
        return;
    }
    leave(rooms, old, at);
    join(rooms, block, at);
}

/// Adds a block to the set of empty blocks or removes it, if that has changed.
fn change_bare(bare: &mut BlockSet, was: bool, is: bool, at: u64)
    requires room { at < bare.old.size }
    requires listed { contains bare.old.members at ≡ was }
    ensures room { bare.new.size ≡ bare.old.size }
    ensures members { (b : ℕ) → contains bare.new.members b ≡ (if b == at then is else contains bare.old.members b) }
{
    if was != is {
        bare.set(at, is);
    }
}

impl Model for Blocks {
    ghost use Rattle.std.specs.Prelude.{List};
    ghost use Rattle.fz_blocks.specs.declared.block.Block.{Block};

    ghost Value = { List Block };

    ghost use Rattle.fz_blocks.specs.Listed.{AreListed};

    ghost view = { λ t. t.blocks.items };

    ghost use Rattle.fz_blocks.specs.Layout.{waiting_in};
    ghost use Rattle.std.specs.Prelude.{◌≡◌};

    ghost invariant = { λ t. AreListed t.blocks.items t.bare t.rooms.items × (t.condemned ≡ waiting_in t.blocks.items) };
}

impl Blocks {
    ghost use Rattle.std.specs.Prelude.{Some, ℕ, slice_get, slice_set, MatchOption, IsTrue, IsFalse, ◌≤◌, IfOk, IfErr};
    ghost use Rattle.fz_blocks.specs.declared.block.Block.{Block};
    ghost use Rattle.fz_blocks.specs.declared.block.TheConstants.{MAX_SPAN};
    ghost use Rattle.fz_blocks.specs.Classes.{class_of};
    ghost use Rattle.fz_blocks.specs.Blocks.{is_full, Claims, CondemnsAll};
    ghost use Rattle.fz_blocks.specs.Claims.{ClaimsIn, CondemnsIn};
    ghost use Rattle.fz_blocks.specs.Layout.{waiting_in};
    ghost use Rattle.fz_blocks.specs.Runs.{IsRun, IsFirstRun};
    ghost use Rattle.fz_model.specs.declared.limits.TheConstants.{BLOCK_WORDS};
    ghost use Rattle.fz_blocks.specs.Listed.{IsFirst, IsListedAlike, AreNew, NonePasses};

    /// A list of this many empty blocks.
    pub(crate) fn new(alloc: Global, blocks: u64) -> Result<Blocks, Refusal>
        requires { blocks ≤ MAX_BLOCKS }
        ensures refused { IfErr result (λ r. r ≡ Refusal.NoMemory) }
        ensures made { IfOk result (λ made. AreNew made blocks) }
    {
        let bare = all_blocks(alloc, blocks)?;
        let rooms = no_rooms(alloc, blocks)?;
        let block = Block::of(BLOCK_WORDS, ObjKind::Scanned);
        let blocks = vec![in alloc; block; blocks as usize]?;
        Ok(Blocks {
            blocks,
            bare,
            rooms,
            condemned: 0,
        })
    }

    /// All blocks.
    pub(crate) fn as_slice(&self) -> &[Block]
        ensures { result.now ≡ self.now }
    {
        &self.blocks
    }

    /// The block at an index, in place.
    pub(crate) fn block(&self, at: u64) -> &Block
        requires { at < length self.now }
        ensures { slice_get self.now at ≡ Some result.now }
    {
        &self.blocks[at as usize]
    }

    /// A copy of the block at an index.
    pub(crate) fn get(&self, at: u64) -> Block
        requires { at < length self.now }
        ensures { slice_get self.now at ≡ Some result }
    {
        self.blocks[at as usize]
    }

    /// The number of dead, unswept cells.
    pub(crate) fn condemned(&self) -> u64
        ensures { result ≡ waiting_in self.now }
    {
        self.condemned
    }

    /// The first block of the lowest run of `count` empty blocks.
    pub(crate) fn first_run(&self, count: u64) -> Option<u64>
        requires some { 1 ≤ count }
        requires few { count ≤ MAX_SPAN }
        ensures { MatchOption result ((b : ℕ) → IsRun self.now count b → ⊥) (λ b. IsFirstRun self.now count b) }
    {
        self.bare.first_run(count)
    }

    /// The lowest block with objects of this size and kind and a free cell. There is none for objects larger than a block.
    pub(crate) fn first_room(&self, size: u64, kind: ObjKind) -> Option<u64>
        requires { 1 ≤ size }
        ensures { MatchOption result (size ≤ BLOCK_WORDS → NonePasses (has_room (class_of size kind)) self.now) (λ b. (size ≤ BLOCK_WORDS) × IsFirst (has_room (class_of size kind)) self.now b) }
    {
        if size > BLOCK_WORDS {
            return None;
        }
        self.rooms[class_of(size, kind)].first()
    }

    /// Replaces a block.
    pub(crate) fn put(&mut self, at: u64, block: Block)
        requires { at < length self.old }
        ensures { self.new ≡ slice_set self.old at block }
    {
        let old = self.blocks[at as usize];
        change_room(&mut self.rooms, &old, &block, at);
        change_bare(&mut self.bare, old.is_bare(), block.is_bare(), at);
        self.condemned = self.condemned + block.waiting() - old.waiting();
        self.blocks[at as usize] = block;
    }

    /// Replaces a block by one that belongs to the same sets.
    pub(crate) fn put_alike(&mut self, at: u64, block: Block)
        requires within { at < length self.old }
        requires alike { IsListedAlike self.old at block }
        ensures { self.new ≡ slice_set self.old at block }
    {
        let was = self.blocks[at as usize];
        self.condemned = self.condemned + block.waiting() - was.waiting();
        self.blocks[at as usize] = block;
    }

    /// Sweeps a block and claims its lowest free cell, in place. Returns the index of the cell's first word. Requires that the block stays in the same sets.
    pub(crate) fn claim_alike(&mut self, at: u64) -> u64
        requires within { at < length self.old }
        requires own { (was : Block) → slice_get self.old at ≡ Some was → was.back ≡ 0 }
        requires room { (was : Block) → slice_get self.old at ≡ Some was → IsFalse (is_full was) }
        requires alike { (was new : Block) (place : ℕ) → slice_get self.old at ≡ Some was → Claims was new place → IsListedAlike self.old at new }
        ensures { ClaimsIn self.old self.new at result }
    {
        let block = &mut self.blocks[at as usize];
        self.condemned -= block.waiting();
        block.claim_least()
    }

    /// Removes each object that starts in the block at one of these words, in place. Returns their number. Requires that the block stays in the same sets.
    pub(crate) fn condemn_alike(&mut self, at: u64, places: u64) -> u64
        requires within { at < length self.old }
        requires alike { (was left : Block) → slice_get self.old at ≡ Some was → CondemnsAll was left places → IsListedAlike self.old at left }
        ensures { CondemnsIn self.old self.new at places result }
    {
        let count = self.blocks[at as usize].condemn(places);
        self.condemned += count;
        count
    }
}
