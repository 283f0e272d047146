//! The addresses of a map's objects, in ascending order.

ghost use Rattle.std.specs.Prelude.{◌≡◌};
ghost use Rattle.std.specs.Iterator.{YieldsFirst, item_count};

use crate::block::Block;
use fz_model::{Addr, BLOCK_WORDS, HEAP_START};
use std::marker::Model;

/// An iterator over the addresses of all objects, in ascending order. Its model is the list of the remaining addresses.
#[derive(Drop)]
pub struct Starts<'a> {
    blocks: &'a [Block],
    /// The address to look at next.
    next: Addr,
}

impl<'a> Model for Starts<'a> {
    ghost use Rattle.std.specs.Prelude.{List, ℕ, ◌+◌, ◌*◌, ◌≤◌, ◌<◌, length, IsTrue};

    ghost Value = { List ℕ };

    ghost use Rattle.fz_model.specs.declared.limits.TheConstants.{HEAP_START, MAX_BLOCKS};
    ghost use Rattle.fz_model.specs.Extents.{heap_end};
    ghost use Rattle.fz_blocks.specs.Starts.{starts_from};

    ghost view = { λ s. starts_from s.blocks.now s.next };

    ghost invariant = { λ s. (HEAP_START ≤ s.next) × (s.next ≤ heap_end (length s.blocks.now)) × (length s.blocks.now ≤ MAX_BLOCKS) };
}

impl<'a> Starts<'a> {
    ghost use Rattle.std.specs.Prelude.{◌≡◌, ◌≤◌, length};
    ghost use Rattle.fz_model.specs.declared.limits.TheConstants.{HEAP_START, MAX_BLOCKS};
    ghost use Rattle.fz_blocks.specs.Starts.{starts_from};

    /// The addresses of the objects in these blocks.
    pub(crate) fn of(blocks: &'a [Block]) -> Starts<'a>
        requires { length blocks.now ≤ MAX_BLOCKS }
        ensures { result ≡ starts_from blocks.now HEAP_START }
    {
        Starts {
            blocks,
            next: HEAP_START,
        }
    }
}

impl Iterator for Starts<'_> {
    type Item = Addr;

    ghost next_gives = { YieldsFirst (λ s. s) };

    ghost remaining = { item_count (λ s. s) };

    fn next(&mut self) -> Option<Addr> {
        while let Some(block) = self
            .blocks
            .get(((self.next - HEAP_START) / BLOCK_WORDS) as usize)
        {
            let place = (self.next - HEAP_START) % BLOCK_WORDS;
            if let Some(start) = block.first_start(place) {
                let address = self.next - place + start;
                self.next = address + 1;
                return Some(address);
            }
            self.next += BLOCK_WORDS - place;
        }
        None
    }
}
