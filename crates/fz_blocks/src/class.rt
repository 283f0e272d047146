//! The classes of cells: one for each size and kind.

ghost use Rattle.std.specs.Prelude.{◌≡◌, ◌≤◌};
ghost use Rattle.fz_model.specs.declared.limits.TheConstants.{BLOCK_WORDS};
ghost use Rattle.fz_blocks.specs.Classes.{class_of};

use fz_model::ObjKind;

/// The number of classes.
pub(crate) const CLASSES: usize = 128;

/// The index of a size and kind among the classes.
pub(crate) fn class_of(size: u64, kind: ObjKind) -> usize
    requires sized { 1 ≤ size }
    requires small { size ≤ BLOCK_WORDS }
    ensures { result ≡ class_of size kind }
{
    match kind {
        ObjKind::Scanned => size as usize - 1,
        ObjKind::Atomic => size as usize + 63,
    }
}
