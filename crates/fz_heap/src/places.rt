//! Where the words of objects lie in the heap's array of words.

ghost use Rattle.std.specs.Prelude.{◌≤◌, ◌<◌, ◌+◌, ◌*◌, IfOk, length};
ghost use Rattle.fz_model.specs.declared.limits.TheConstants.{BLOCK_WORDS, MAX_BLOCKS};
ghost use Rattle.fz_model.specs.Extents.{AreWithin};
ghost use Rattle.fz_model.specs.Causes.{IsJudgedBy, place_causes_in};
ghost use Rattle.fz_heap.specs.Flat.{IsPlace, IsZeroedAt};

use fz_blocks::BlockMap;
use fz_model::{HEAP_START, Refusal, Word};

/// The array index of the word at `offset` words after `word`, in the object to which `word` points.
pub(crate) fn place_of(map: &BlockMap, word: Word, offset: u64) -> Result<usize, Refusal>
    requires few { map.now.blocks ≤ MAX_BLOCKS }
    requires within { AreWithin map.now.blocks map.now.extents }
    ensures judged { IsJudgedBy (place_causes_in map.now.extents word offset) result }
    ensures found { IfOk result (λ place. IsPlace map.now.extents word offset place) }
    ensures in_heap { IfOk result (λ place. place < BLOCK_WORDS * map.now.blocks) }
{
    let (start, extent) = map.cell_of(word).ok_or(Refusal::NotPointer)?;
    let before = word - start;
    if offset >= extent.size - before {
        return Err(Refusal::OutsideObject);
    }
    Ok((word + offset - HEAP_START) as usize)
}

/// Sets `size` words to zero, from an index on.
pub(crate) fn zero(words: &mut [Word], first: usize, size: usize)
    requires { first + size ≤ length words.old }
    ensures { IsZeroedAt words.old words.new first size }
{
    words[first..first + size].fill(0);
}
