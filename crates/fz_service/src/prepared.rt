//! Everything that a service needs, before it is opened.

ghost use Rattle.std.specs.Prelude.{◌≡◌, ◌≤◌, [], length, vec_capacity};
ghost use Rattle.std.specs.List.{AllByRecursion};
ghost use Rattle.fz_line.specs.States.{new_seats};
ghost use Rattle.fz_service.specs.States.{IsNewAt};

use crate::bell::Bell;
use crate::locked::Locked;
use crate::opening::{Finishes, Opening};
use crate::seat::Seat;
use crate::service::Service;
use fz_line::{Owner, retire_all};
use fz_world::{Config, World};
use std::alloc::Global;
use std::marker::Model;
use std::sync::ledger::{Blank, Share};
use std::sync::{Arc, Mutex};

/// A world, a line with its seats, and a ledger, which don't belong to a named opening yet.
///
/// Its model is what will distinguish the service from every other.
pub struct Prepared {
    pub(crate) alloc: Global,
    pub(crate) config: Config,
    pub(crate) world: World,
    pub(crate) owner: Owner,
    pub(crate) seats: Vec<fz_line::Seat>,
    pub(crate) blank: Blank,
}

impl Model for Prepared {
    ghost use Rattle.std.specs.Prelude.{◌≡◌, []};
    ghost use Rattle.fz_model.specs.State.{opening};
    ghost use Rattle.fz_line.specs.States.{owner_state, new_seats};
    ghost use Rattle.fz_world.specs.Does.{StandsFor};
    ghost use Rattle.fz_service.specs.States.{Origin, line_room};

    ghost Value = { Origin };

    ghost view = { λ p. record { line = p.owner.line; workers = p.owner.seats; finishes = p.blank.name; blocks = p.config.blocks; frames = p.config.frames } };

    ghost invariant = { λ p. (p.owner ≡ owner_state p.owner.line p.owner.seats (line_room p.config.blocks) [] []) × (p.seats.items ≡ new_seats p.owner.line p.owner.seats) × (p.blank.parts ≡ p.owner.seats) × StandsFor p.world (opening p.config.blocks p.config.frames) × (p.world.forgotten ≡ 0) };
}

/// If it isn't opened, it is dropped, and its seats are retired.
impl Drop for Prepared {
    fn drop(self) {
        let Self {
            alloc: _,
            config: _,
            world,
            owner,
            seats,
            blank,
        } = self;
        drop(world);
        drop(owner);
        drop(blank);
        retire_all(seats);
    }
}

impl Prepared {
    /// The service and its seats. The caller provides room for the seats, and two handles of one bell.
    pub(crate) fn into_service<O: Opening>(
        self,
        room: Vec<Seat<O>>,
        bell: Arc<Bell, Global>,
        rung: Arc<Bell, Global>,
    ) -> (Service<O>, Vec<Seat<O>>)
        requires origin { self ≡ O.origin }
        requires room { (room.items ≡ []) × (self.workers ≤ vec_capacity room) }
        ensures { result.1.items ≡ new_seats O.origin.line O.origin.workers }
    {
        let Self {
            alloc,
            config: _,
            world,
            owner,
            seats,
            blank,
        } = self;
        let (book, all) = blank.open::<Finishes<O>>();
        let (seats, rest) = share_out(seats, room, all);
        let locked = Locked::new(alloc, world, owner, book, rest, rung);
        let service = Service {
            lock: Mutex::new(locked),
            bell,
        };
        (service, seats)
    }
}

/// Gives each seat its share of the ledger. The caller provides room for all seats.
fn share_out<O: Opening>(
    mut seats: Vec<fz_line::Seat>,
    mut shared: Vec<Seat<O>>,
    mut all: Share<Finishes<O>>,
) -> (Vec<Seat<O>>, Share<Finishes<O>>)
    requires seats { AllByRecursion (IsNewAt O.origin.line) seats.items }
    requires room { (shared.items ≡ []) × (length seats.items ≤ vec_capacity shared) }
    requires all { (all.parts ≡ length seats.items) × (all.amount ≡ 0) }
    ensures seats { result.0.items ≡ seats.items }
    ensures rest { (result.1.parts ≡ 0) × (result.1.amount ≡ 0) }
{
    while seats.len() > 0 {
        let seat = seats.remove(0);
        let share = all.split_off(1, 0);
        shared.push_reserved(Seat { seat, share });
    }
    seats.destroy_empty();
    (shared, all)
}
