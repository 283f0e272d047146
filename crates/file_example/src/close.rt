//! The finalizer.

use crate::files::OpenFiles;
use crate::owners;
use fz_model::Entry;
use fz_service::Proc;
use fz_world::World;
use std::alloc::Global;
use std::sync::{Arc, Mutex, Wait};

/// The finalizer of objects that own a file. The file's number is the client data.
#[derive(Drop)]
pub(crate) struct CloseFile<R: Wait> {
    pub(crate) files: Arc<Mutex<OpenFiles>, Global>,
    pub(crate) rt: R,
}

impl<R: Wait + Drop> Proc for CloseFile<R> {
    /// Closes the file. This runs without the heap's lock.
    fn work(&mut self, entry: &Entry) {
        let file = self.files.lock(&self.rt).remove(entry.cd);
        drop(file);
    }

    /// Records in the heap that the file is closed.
    fn run(&mut self, entry: &Entry, world: &mut World) {
        owners::note_closed(world, entry.cd);
    }
}
