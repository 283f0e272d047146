//! A collection of named files.

ghost use Rattle.std.specs.Prelude.{ℕ, List, Option, None, IfSome};
ghost use Rattle.std.specs.Io.KnownBytes.{Keeps};

use std::fs;
use std::io::Read;
use std::rt::Files;

/// Files by name.
pub(crate) trait Shelf {
    type File: Read + Drop;

    /// The content of the file with this name, if known.
    ghost holds: { Self → List ℕ → Option (List ℕ) };

    /// Opens the file with this name. Returns `None` if it can't be opened.
    fn open_named(&self, name: &str) -> Option<Self::File>
        ensures { IfSome result (λ file. Keeps (holds self.now name.now) (Self.File.remaining file)) };
}

// Contracts know nothing about the content of the system's files.
impl<R: Files> Shelf for R {
    type File = R::File;

    ghost holds = { λ _ _. None };

    fn open_named(&self, name: &str) -> Option<R::File> {
        fs::open(self, name).ok()
    }
}
