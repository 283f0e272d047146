//! One block, and at which of its cells objects start.

ghost use Rattle.std.specs.Prelude.{◌≡◌, ◌≤◌, ◌<◌, ◌+◌, ℕ, IsTrue, IsFalse, MatchOption};
ghost use Rattle.fz_model.specs.declared.limits.TheConstants.{BLOCK_WORDS, MAX_OBJECT_WORDS};
ghost use Rattle.fz_blocks.specs.declared.block.TheConstants.{MAX_SPAN};
ghost use Rattle.fz_blocks.specs.Cells.{AreCells, AreAmong, AreSeparate};

use fz_model::{BLOCK_WORDS, Extent, MAX_OBJECT_WORDS, ObjKind};

/// The largest number of blocks in which one object lies.
pub(crate) const MAX_SPAN: u64 = (MAX_OBJECT_WORDS - 1) / BLOCK_WORDS + 1;

/// A block of 64 words, divided into cells of one size and kind. While no object starts in it, its size and kind have no meaning.
#[derive(Clone, Copy)]
pub(crate) struct Block {
    /// A bit for each word at which an object starts.
    pub(crate) objects: u64,
    /// A bit for each word at which a dead, unswept cell starts.
    pub(crate) condemned: u64,
    /// A bit for each word at which a cell starts.
    pub(crate) cells: u64,
    /// The size of a cell, in words.
    pub(crate) size: u32,
    /// If an object from an earlier block continues into this one: how many blocks earlier it starts. Otherwise 0.
    pub(crate) back: u16,
    pub(crate) kind: ObjKind,
    pub(crate) ghost sized: { 1 ≤ size },
    pub(crate) ghost cells_are: { AreCells cells size },
    pub(crate) ghost objects_are: { AreAmong objects cells },
    pub(crate) ghost condemned_are: { AreAmong condemned cells },
    pub(crate) ghost separate: { AreSeparate objects condemned },
    pub(crate) ghost none_later: { 0 < back → objects ≡ 0 },
}

impl Block {
    ghost use Rattle.fz_blocks.specs.Starts.{IsFirstStart};
    ghost use Rattle.fz_blocks.specs.Blocks.{starts_at, is_bare, is_full, has_free_cell, has_same_room, extent_of, IsCellOf, IsAlike, Claims, CondemnsAll, Detaches};
    ghost use Rattle.fz_model.specs.Allocation.{blocks_for};
    ghost use Rattle.fz_model.specs.Bits.{has_bit};
    ghost use Rattle.std.specs.Int.Count.{ones};

    /// A block without objects, with cells of this size and kind.
    pub(crate) fn of(size: u64, kind: ObjKind) -> Block
        requires sized { 1 ≤ size }
        requires small { size ≤ MAX_OBJECT_WORDS }
        ensures bare { (result.objects ≡ 0) × (result.back ≡ 0) × (result.condemned ≡ 0) }
        ensures size { result.size ≡ size }
        ensures kind { result.kind ≡ kind }
    {
        let mut cells = 1u64;
        let mut place = size;
        while place + size <= BLOCK_WORDS {
            cells |= 1 << place;
            place += size;
        }
        Block {
            objects: 0,
            condemned: 0,
            cells,
            size: size as u32,
            back: 0,
            kind,
        }
    }

    /// A block into which an object continues that starts `back` blocks earlier.
    pub(crate) fn later(back: u64) -> Block
        requires some { 1 ≤ back }
        requires few { back < MAX_SPAN }
        ensures { (result.back ≡ back) × (result.condemned ≡ 0) }
    {
        let mut block = Block::of(BLOCK_WORDS, ObjKind::Scanned);
        block.back = back as u16;
        block
    }

    /// The size and kind of an object that starts in the block.
    pub(crate) fn extent(&self) -> Extent
        ensures { result ≡ extent_of self.now }
    {
        Extent {
            size: u64::from(self.size),
            kind: self.kind,
        }
    }

    /// Whether no object has a word in the block.
    pub(crate) fn is_bare(&self) -> bool
        ensures { result ≡ is_bare self.now }
    {
        self.objects == 0 && self.back == 0
    }

    /// Whether every cell contains an object.
    pub(crate) fn is_full(&self) -> bool
        ensures { result ≡ is_full self.now }
    {
        self.objects == self.cells
    }

    /// Whether objects start in the block and a cell is free.
    pub(crate) fn has_room(&self) -> bool
        ensures { result ≡ has_free_cell self.now }
    {
        self.objects != 0 && !self.is_full() && u64::from(self.size) <= BLOCK_WORDS
    }

    /// Whether both blocks belong to the same set of blocks with free cells, or neither belongs to any.
    pub(crate) fn has_same_room(&self, other: &Block) -> bool
        ensures { result ≡ has_same_room self.now other.now }
    {
        let room = self.has_room();
        room == other.has_room() && (!room || self.size == other.size && self.kind == other.kind)
    }

    /// Whether an object starts at this word of the block.
    pub(crate) fn starts_at(&self, place: u64) -> bool
        requires { place < BLOCK_WORDS }
        ensures { result ≡ starts_at self.now place }
    {
        self.objects >> place & 1 == 1
    }

    /// Whether at least two cells are free.
    pub(crate) fn has_two_free(&self) -> bool
        requires room { IsFalse (is_full self.now) }
        ensures { IsTrue result → (new : Block) (place : ℕ) → Claims self.now new place → IsFalse (is_full new) }
    {
        let least = (self.cells & !self.objects).trailing_zeros();
        self.objects | 1 << least != self.cells
    }

    /// Sweeps the block, claims the lowest cell without an object, and returns the index of its first word.
    pub(crate) fn claim_least(&mut self) -> u64
        requires own { self.old.back ≡ 0 }
        requires room { IsFalse (is_full self.old) }
        ensures { Claims self.old self.new result }
    {
        let place = (self.cells & !self.objects).trailing_zeros();
        self.condemned = 0;
        self.objects |= 1 << place;
        u64::from(place)
    }

    /// Whether the block isn't full, and objects start both at some of these words and elsewhere. If so, losing those objects changes none of the sets that
    /// the block is in.
    pub(crate) fn stays_alike_without(&self, places: u64) -> bool
        ensures unfull { IsTrue result → IsFalse (is_full self.now) }
        ensures gone { IsTrue result → (place : ℕ) × IsTrue (starts_at self.now place) × IsTrue (has_bit places place) }
        ensures left { IsTrue result → (place : ℕ) × IsTrue (starts_at self.now place) × IsFalse (has_bit places place) }
    {
        !self.is_full() && self.objects & places != 0 && self.objects & !places != 0
    }

    /// Makes the objects that start at these words dead, unswept cells. Returns their number.
    pub(crate) fn condemn(&mut self, places: u64) -> u64
        ensures condemns { CondemnsAll self.old self.new places }
        ensures count { ones self.new.condemned ≡ ones self.old.condemned + result }
        ensures none { result ≡ 0 → self.new.objects ≡ self.old.objects }
        ensures some { 0 < result → (place : ℕ) × IsTrue (starts_at self.old place) × IsFalse (starts_at self.new place) }
    {
        let gone = self.objects & places;
        self.objects &= !gone;
        self.condemned |= gone;
        u64::from(gone.count_ones())
    }

    /// How many blocks an object that starts here takes.
    pub(crate) fn span(&self) -> u64
        ensures { result ≡ blocks_for self.now.size }
    {
        (u64::from(self.size) - 1) / BLOCK_WORDS + 1
    }

    /// The number of dead, unswept cells.
    pub(crate) fn waiting(&self) -> u64
        ensures { result ≡ ones self.now.condemned }
    {
        u64::from(self.condemned.count_ones())
    }

    /// Takes the block out of a run.
    pub(crate) fn detach(&mut self)
        ensures { Detaches self.old self.new }
    {
        self.back = 0;
    }

    /// Frees the dead cells.
    pub(crate) fn sweep(&mut self)
        ensures alike { IsAlike self.old self.new }
        ensures objects { self.new.objects ≡ self.old.objects }
        ensures swept { self.new.condemned ≡ 0 }
    {
        self.condemned = 0;
    }

    /// The first word of the object that starts in this block and contains the given word, if there is one.
    pub(crate) fn cell_start(&self, place: u64) -> Option<u64>
        requires { place < BLOCK_WORDS }
        ensures { MatchOption result ((start : ℕ) → IsTrue (starts_at self.now start) → start ≤ place → start + self.now.size ≤ place) (λ start. IsCellOf self.now place start) }
    {
        let below = self.objects & (u64::MAX >> (63 - place));
        if below == 0 {
            return None;
        }
        let start = 63 - u64::from(below.leading_zeros());
        if place - start >= u64::from(self.size) {
            return None;
        }
        Some(start)
    }

    /// The lowest word, from this one on, at which an object starts.
    pub(crate) fn first_start(&self, place: u64) -> Option<u64>
        requires { place < BLOCK_WORDS }
        ensures { MatchOption result ((p : ℕ) → place ≤ p → p < BLOCK_WORDS → IsFalse (starts_at self.now p)) (λ first. IsFirstStart self.now place first) }
    {
        let rest = self.objects >> place;
        if rest == 0 {
            return None;
        }
        Some(place + u64::from(rest.trailing_zeros()))
    }
}
