//! The finalizers of a host, and their parts.

ghost use Rattle.std.specs.Prelude.{◌≡◌, ◌≤◌, ◌<◌, ◌+◌, false, IfOk, IfErr, OnOk, OnErr};
ghost use Rattle.fz_finalizers.specs.States.{opening};

use crate::cleanups::Cleanups;
use crate::ready::Ready;
use crate::refused::Refused;
use fz_links::Links;
use fz_model::Addr;
use fz_pass::Ephemerons;
use fz_table::{AddressHasher, Table};
use std::alloc::Global;
use std::marker::Model;

/// The finalizers of a host with a heap of its own: registrations, links, ephemerons, cleanups, and the queue of entries.
///
/// Objects, words, procedures and client data are numbers that are only compared and passed back, never dereferenced. Zero is neither an object nor a word.
///
/// Its model is a state, the room that is reserved, and the order of iterators. If several refusals of a call apply, it returns the first in the documented
/// order. A refused call leaves the state unchanged.
///
/// These allocate: `new`, `reserve`, `shrink`, a new registration, a new link, an ephemeron that is new or changes its kind, and a cleanup. Of these `shrink`
/// can't fail. Room is reserved for the entry of each registration and cleanup, for the moves of each link, and for the moves of each ephemeron and a pass over
/// it. So a pass, a take and a move can't run out of memory. A registration or a cleanup without reserved room first reuses the memory of finished entries, and
/// so does a pass, except in finalizers that `whole` made.
pub struct Finalizers {
    pub(crate) table: Table,
    pub(crate) short: Links,
    pub(crate) long: Links,
    pub(crate) ephemerons: Ephemerons,
    pub(crate) cleanups: Cleanups,
    /// Empty, except while a link is moved: a move may put half of the links here temporarily.
    pub(crate) moves: Vec<(Addr, Addr)>,
    pub(crate) ready: Ready,
    pub(crate) passes: u64,
}

// Written by hand, so that the owner drops it by one proved call, not field by field at each exit of a function.
impl Drop for Finalizers {
    fn drop(self) {
        let Finalizers {
            table: _,
            short: _,
            long: _,
            ephemerons: _,
            cleanups: _,
            moves: _,
            ready: _,
            passes: _,
        } = self;
    }
}

impl Model for Finalizers {
    ghost use Rattle.std.specs.Prelude.{◌*◌, vec_capacity};
    ghost use Rattle.fz_finalizers.specs.States.{View, view_code};
    ghost use Rattle.fz_finalizers.specs.Fits.{Fits, HasMoves, state_of, rooms_of, order_of};

    ghost Value = { View };

    ghost coded = { view_code };

    ghost view = { λ f. record {
      state = state_of f.table.content f.short f.long f.ephemerons.ephemerons f.cleanups.cleanups f.ready f.passes;
      rooms = rooms_of f.table f.short f.long f.cleanups f.ready (2 * vec_capacity f.moves);
      order = order_of f.table f.short f.long f.cleanups.order f.ready;
      memory = f.ready.memory;
    } };

    ghost invariant = { λ f. Fits f.table.content f.cleanups.cleanups f.ready × HasMoves f.short f.long f.moves.items (2 * vec_capacity f.moves) };
}

impl Finalizers {
    /// Finalizers without registrations. Fails with `NoMemory` if an allocation fails.
    pub fn new(alloc: Global) -> Result<Finalizers, Refused>
        ensures refused { IfErr result (λ r. r ≡ Refused.NoMemory) }
        ensures opened { IfOk result (λ f. f.state ≡ opening) }
        ensures memory { IfOk result (λ f. f.memory ≡ record { whole = false; forgotten = 0; remembered = 0 }) }
    {
        let hasher = AddressHasher::new();
        Finalizers::with_hashers(alloc, hasher, hasher)
    }

    /// Finalizers without registrations, whose tables hash the addresses of registered objects by `objects`, and those of words by `words`. A hasher for
    /// multiples of 8 makes calls on large tables faster if most addresses are such. Fails with `NoMemory` if an allocation fails.
    pub fn with_hashers(
        alloc: Global,
        objects: AddressHasher,
        words: AddressHasher,
    ) -> Result<Finalizers, Refused>
        ensures refused { IfErr result (λ r. r ≡ Refused.NoMemory) }
        ensures opened { IfOk result (λ f. f.state ≡ opening) }
        ensures memory { IfOk result (λ f. f.memory ≡ record { whole = false; forgotten = 0; remembered = 0 }) }
    {
        let ready = Ready::new(alloc)?;
        Ok(Finalizers {
            table: Table::with_hasher(alloc, objects),
            short: Links::with_hasher(alloc, words),
            long: Links::with_hasher(alloc, words),
            ephemerons: Ephemerons::with_hasher(alloc, words),
            cleanups: Cleanups::new(alloc),
            moves: Vec::new(alloc),
            ready,
            passes: 0,
        })
    }
}
