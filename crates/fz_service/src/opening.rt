//! A type that names one opening of a service.

use std::marker::{Brand, PhantomData};
use std::sync::ledger::Ledger;

/// One opening of a service: its line, its workers, the name of its ledger, and the size of its world.
///
/// A function that opens a service is generic over this trait, and is called with std's `Brand`.
pub trait Opening {
    ghost use Rattle.fz_service.specs.States.{Origin};

    ghost origin: { Origin };
}

impl Opening for Brand {
    ghost origin = { record { line = (0, 0); workers = 0; finishes = 0; blocks = 0; frames = 0 } };
}

/// The ledger of an opening's finished duties. Each seat has one part of it.
pub struct Finishes<O> {
    of: PhantomData<O>,
}

impl<O: Opening> Ledger for Finishes<O> {
    ghost name = { O.origin.finishes };

    ghost parts = { O.origin.workers };
}
