//! What a service reserves, and why it can't be opened or ended.

ghost use Rattle.std.specs.Prelude.{◌≡◌, ◌≢◌, ◌≤◌, [], ◌∷◌, IfOk, vec_capacity};
ghost use Rattle.fz_model.specs.Causes.{IsJudgedOrLacks, bad_count};
ghost use Rattle.fz_model.specs.declared.limits.TheConstants.{MAX_WORKERS};
ghost use Rattle.fz_model.specs.declared.refusal.Refusal.TheVariants.{NoMemory};
ghost use Rattle.fz_model.specs.State.{opening};
ghost use Rattle.fz_line.specs.States.{owner_state, new_seats};
ghost use Rattle.fz_world.specs.Does.{StandsFor, open_causes};

use crate::bell::Bell;
use crate::opening::Opening;
use crate::seat::Seat;
use fz_line::{Owner, line};
use fz_model::{Entry, Refusal};
use fz_world::{Config, World};
use std::alloc::Global;
use std::error::Error;
use std::fmt;
use std::marker::Model;
use std::sync::Arc;

/// A reservation failed. Only the functions of this module make one.
#[derive(Debug, Drop)]
pub(crate) struct NoRoom(());

/// Why a service can't be opened or ended. It is `NoMemory` only with the reservation that failed.
///
/// Its model is the refusal.
#[derive(Debug, Drop)]
pub struct ServiceError {
    pub(crate) refusal: Refusal,
    pub(crate) no_room: Option<NoRoom>,
}

impl Model for ServiceError {
    ghost use Rattle.std.specs.Prelude.{◌≡◌, IsSome};
    ghost use Rattle.fz_model.specs.declared.refusal.Refusal.{Refusal};
    ghost use Rattle.fz_model.specs.declared.refusal.Refusal.TheVariants.{NoMemory};

    ghost Value = { Refusal };

    ghost view = { λ e. e.refusal };

    ghost invariant = { λ e. e.refusal ≡ NoMemory → IsSome e.no_room };
}

impl ServiceError {
    /// An error that isn't about memory.
    pub(crate) fn of(refusal: Refusal) -> ServiceError
        requires { refusal ≢ NoMemory }
        ensures { result ≡ refusal }
    {
        ServiceError {
            refusal,
            no_room: None,
        }
    }

    /// The refusal.
    pub fn refusal(&self) -> Refusal
        ensures { result ≡ self.now }
    {
        self.refusal
    }
}

impl From<ServiceError> for Refusal {
    ghost use Rattle.std.specs.Prelude.{◌≡◌};

    ghost from_gives = { λ error refusal. refusal ≡ error };

    fn from(error: ServiceError) -> Refusal {
        error.refusal
    }
}

impl From<NoRoom> for ServiceError {
    ghost use Rattle.std.specs.Prelude.{◌≡◌};
    ghost use Rattle.fz_model.specs.declared.refusal.Refusal.TheVariants.{NoMemory};

    ghost from_gives = { λ _ error. error ≡ NoMemory };

    fn from(no_room: NoRoom) -> ServiceError {
        ServiceError {
            refusal: Refusal::NoMemory,
            no_room: Some(no_room),
        }
    }
}

impl fmt::Display for ServiceError {
    fn fmt<W: fmt::Write>(&self, f: &mut fmt::Formatter<W>) -> fmt::Result {
        write!(f, "{}", self.refusal)
    }
}

impl Error for ServiceError {}

/// The error for the refusal of a line or a world that couldn't be opened.
fn of_opening(refusal: Refusal) -> ServiceError
    ensures { result ≡ refusal }
{
    if refusal == Refusal::NoMemory {
        NoRoom(()).into()
    } else {
        ServiceError::of(refusal)
    }
}

/// Opens a line as `fz_line::line` does.
pub(crate) fn open_line(
    alloc: Global,
    workers: u64,
    room: usize,
) -> Result<(Owner, Vec<fz_line::Seat>), ServiceError>
    ensures judged { IsJudgedOrLacks (bad_count MAX_WORKERS workers ∷ []) result }
    ensures owner { IfOk result (λ made. made.0 ≡ owner_state made.0.line workers room [] []) }
    ensures seats { IfOk result (λ made. made.1.items ≡ new_seats made.0.line workers) }
{
    match line(alloc, workers, room) {
        Ok(made) => Ok(made),
        Err(refusal) => Err(of_opening(refusal)),
    }
}

/// Opens a world as `World::open` does.
pub(crate) fn open_world(alloc: Global, config: Config) -> Result<World, ServiceError>
    ensures judged { IsJudgedOrLacks (open_causes config.blocks config.frames) result }
    ensures opened { IfOk result (λ world. StandsFor world (opening config.blocks config.frames)) }
    ensures forgotten { IfOk result (λ world. world.forgotten ≡ 0) }
{
    match World::open(alloc, config) {
        Ok(world) => Ok(world),
        Err(refusal) => Err(of_opening(refusal)),
    }
}

/// A bell, by two handles.
pub(crate) fn two_handles(alloc: Global) -> Result<(Arc<Bell, Global>, Arc<Bell, Global>), NoRoom> {
    let Ok(bell) = Arc::new(alloc, Bell::new()) else {
        return Err(NoRoom(()));
    };
    match Arc::try_clone(&bell) {
        Ok(other) => Ok((bell, other)),
        Err(_) => Err(NoRoom(())),
    }
}

/// Room for this number of seats.
pub(crate) fn room_for<O: Opening>(alloc: Global, seats: usize) -> Result<Vec<Seat<O>>, NoRoom>
    ensures { IfOk result (λ room. (room.items ≡ []) × (seats ≤ vec_capacity room)) }
{
    match Vec::with_capacity(alloc, seats) {
        Ok(room) => Ok(room),
        Err(_) => Err(NoRoom(())),
    }
}

/// Room for this number of entries and this number of seats.
pub(crate) fn reserve(
    alloc: Global,
    entries: usize,
    seats: usize,
) -> Result<(Vec<Entry>, Vec<fz_line::Seat>), NoRoom>
    ensures entries { IfOk result (λ room. (room.0.items ≡ []) × (entries ≤ vec_capacity room.0)) }
    ensures seats { IfOk result (λ room. (room.1.items ≡ []) × (seats ≤ vec_capacity room.1)) }
{
    let Ok(left) = Vec::with_capacity(alloc, entries) else {
        return Err(NoRoom(()));
    };
    match Vec::with_capacity(alloc, seats) {
        Ok(plain) => Ok((left, plain)),
        Err(_) => Err(NoRoom(())),
    }
}
