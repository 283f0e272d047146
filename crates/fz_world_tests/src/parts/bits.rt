//! What no clause states: that bits can be allocated.

use fz_bits::{Flags, SmallFlags, SparseFlags};
use fz_dirty::Dirty;
use fz_model::{HEAP_START, MAX_BLOCKS};
use std::test::Fail;

/// The bits of the largest heap.
#[test]
fn a_heap_has_bits(rt: HostRuntime) -> Result<(), Fail> {
    Dirty::new(rt.alloc(), MAX_BLOCKS)?;
    Flags::<HEAP_START>::new(rt.alloc(), MAX_BLOCKS)?;
    SmallFlags::new(rt.alloc(), 64)?;
    Ok(())
}

/// Bits in several levels grow to those of 2^26 numbers.
#[test]
fn bits_grow(rt: HostRuntime) -> Result<(), Fail> {
    let mut flags = SparseFlags::new(rt.alloc(), 2)?;
    flags.extend_to(3)?;
    flags.extend_to(1 << 10)?;
    flags.extend_to(1 << 20)?;
    Ok(())
}
