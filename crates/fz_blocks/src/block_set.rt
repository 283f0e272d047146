//! A set of block numbers that caches its lowest member.

ghost use Rattle.std.specs.Prelude.{◌==◌, if◌then◌else◌, false, ◌≡◌, ◌<◌, ◌≤◌, ℕ, IfOk, IfErr, MatchOption};
ghost use Rattle.std.specs.Option.{option_map_or};
ghost use Rattle.std.specs.FinSet.{empty, insert, remove, contains};
ghost use Rattle.fz_model.specs.declared.limits.TheConstants.{MAX_BLOCKS};
ghost use Rattle.fz_blocks.specs.declared.block_set.TheConstants.{BITS};
ghost use Rattle.fz_blocks.specs.BlockSets.{lesser, IsLeast, AreRunsOf, HasRun, IsLeastRun};

use fz_bits::SmallFlags;
use fz_model::Refusal;
use std::alloc::Global;
use std::marker::Model;

/// The number of bits of a word.
const BITS: u64 = 64;

/// A set of block numbers.
#[derive(Drop)]
pub(crate) struct BlockSet {
    blocks: SmallFlags,
    /// The lowest member, which most claims ask for.
    least: Option<u64>,
}

/// The lower of a number that may be missing and another.
fn lesser(least: Option<u64>, block: u64) -> u64
    ensures { result ≡ lesser least block }
{
    match least {
        Some(least) if least <= block => least,
        _ => block,
    }
}

/// Whether the number exists and is this block.
fn is_it(least: Option<u64>, block: u64) -> bool
    ensures { result ≡ option_map_or (λ b. b == block) least false }
{
    match least {
        Some(least) => least == block,
        None => false,
    }
}

/// The bits of `word` at which `count` successive set bits begin. They may continue into `next`.
pub(crate) fn runs_of(word: u64, next: u64, count: u64) -> u64
    requires some { 1 ≤ count }
    requires few { count ≤ BITS }
    ensures { AreRunsOf result word next count }
{
    let mut runs = word;
    let mut shift = 1u64;
    while shift < count {
        runs &= word >> shift | next << (BITS - shift);
        shift += 1;
    }
    runs
}

impl Model for BlockSet {
    ghost use Rattle.fz_bits.specs.Flags.{Flagged, flagged_code};

    ghost Value = { Flagged };

    ghost coded = { flagged_code };

    ghost use Rattle.fz_blocks.specs.BlockSets.{IsLeastOf};

    ghost view = { λ s. s.blocks };

    ghost invariant = { λ s. IsLeastOf s.blocks.members s.least };
}

impl BlockSet {
    /// The empty set, with room for the blocks below this number.
    pub(crate) fn new(alloc: Global, blocks: u64) -> Result<BlockSet, Refusal>
        requires { blocks ≤ MAX_BLOCKS }
        ensures refused { IfErr result (λ r. r ≡ Refusal.NoMemory) }
        ensures made { IfOk result (λ s. (s.members ≡ empty) × (blocks ≤ s.size)) }
    {
        let blocks = SmallFlags::new(alloc, blocks.div_ceil(BITS))?;
        Ok(BlockSet {
            blocks,
            least: None,
        })
    }

    /// The lowest member.
    pub(crate) fn first(&self) -> Option<u64>
        ensures { MatchOption result (self.now.members ≡ empty) (λ b. IsLeast self.now.members b) }
    {
        self.least
    }

    /// The lowest number at which `count` successive members begin.
    pub(crate) fn first_run(&self, count: u64) -> Option<u64>
        requires some { 1 ≤ count }
        requires few { count ≤ BITS }
        ensures { MatchOption result ((b : ℕ) → HasRun self.now.members count b → ⊥) (λ b. IsLeastRun self.now.members count b) }
    {
        let mut row = self.blocks.next(0)? / BITS;
        while row < self.blocks.words() {
            let runs = runs_of(self.blocks.word(row), self.blocks.word(row + 1), count);
            if runs != 0 {
                return Some(BITS * row + u64::from(runs.trailing_zeros()));
            }
            row += 1;
        }
        None
    }

    /// Adds or removes a block.
    pub(crate) fn set(&mut self, block: u64, member: bool)
        requires { block < self.old.size }
        ensures size { self.new.size ≡ self.old.size }
        ensures members { (b : ℕ) → contains self.new.members b ≡ (if b == block then member else contains self.old.members b) }
    {
        if member {
            self.insert(block);
        } else {
            self.remove(block);
        }
    }

    /// Adds a block.
    pub(crate) fn insert(&mut self, block: u64)
        requires { block < self.old.size }
        ensures { self.new ≡ record self.old { members = insert self.old.members block } }
    {
        self.blocks.insert(block);
        self.least = Some(lesser(self.least, block));
    }

    /// Removes a block.
    pub(crate) fn remove(&mut self, block: u64)
        ensures { self.new ≡ record self.old { members = remove self.old.members block } }
    {
        self.blocks.remove(block);
        if is_it(self.least, block) {
            self.least = self.blocks.next(block);
        }
    }
}
