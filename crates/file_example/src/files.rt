//! The open files of the program, which live outside the heap.

use std::alloc::{AllocError, Global};
use std::fs::File;

/// Open files, by number.
///
/// A file leaves the table only once: `File` can't be copied, and `remove` leaves an empty place. It is closed when it is dropped.
#[derive(Drop)]
pub(crate) struct OpenFiles {
    places: Vec<Option<File>>,
}

impl OpenFiles {
    pub(crate) fn new(alloc: Global) -> OpenFiles {
        OpenFiles {
            places: Vec::new(alloc),
        }
    }

    /// Adds the file under the next number, and returns that number.
    pub(crate) fn insert(&mut self, file: File) -> Result<u64, AllocError> {
        let number = self.places.len() as u64;
        self.places.push(Some(file))?;
        Ok(number)
    }

    /// Removes the file with this number, if it exists.
    pub(crate) fn remove(&mut self, number: u64) -> Option<File> {
        self.places.get_mut(number as usize)?.take()
    }

    /// The file with this number, if it exists.
    pub(crate) fn get(&self, number: u64) -> Option<&File> {
        self.places.get(number as usize)?.as_ref()
    }

    /// How many files were removed.
    pub(crate) fn removed(&self) -> usize {
        self.places.iter().filter(|place| place.is_none()).count()
    }
}
