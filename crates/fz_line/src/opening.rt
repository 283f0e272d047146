//! Opening a line, and retiring its seats.

ghost use Rattle.std.specs.Prelude.{◌≡◌, ◌+◌, ◌<◌, ◌≤◌, [], ◌∷◌, true, None, IfOk, IfErr, IfSome};
ghost use Rattle.crossbeam_deque.specs.Handles.{worker_deque, worker_view, worker_capacity};
ghost use Rattle.fz_model.specs.Causes.{IsJudgedOrLacks, bad_count};
ghost use Rattle.fz_model.specs.declared.limits.TheConstants.{MAX_WORKERS};
ghost use Rattle.fz_line.specs.Passes.{IsOwnerEnd};
ghost use Rattle.fz_line.specs.States.{owner_state, seat_state, new_seats};

use crate::owner::Owner;
use crate::protocol::{LineWorker, SeatList};
use crate::seat::Seat;
use crate::taker::Taker;
use fz_model::{MAX_WORKERS, Refusal};
use std::alloc::Global;

/// An empty line with 1 to 8 seats, which have the indices from 0 on. It has room for `room` entries from the start, at about 80 bytes each.
///
/// Fails with `BadCount` for any other number of seats, and with `NoMemory` if an allocation for the line or for its seats fails.
pub fn line(alloc: Global, workers: u64, room: usize) -> Result<(Owner, Vec<Seat>), Refusal>
    ensures judged { IsJudgedOrLacks (bad_count MAX_WORKERS workers ∷ []) result }
    ensures owner { IfOk result (λ made. made.0 ≡ owner_state made.0.line workers room [] []) }
    ensures seats { IfOk result (λ made. made.1.items ≡ new_seats made.0.line workers) }
{
    if workers == 0 || workers > MAX_WORKERS {
        return Err(Refusal::BadCount);
    }
    let count = workers as usize;
    let mut worker = LineWorker::fifo_as(alloc, room)?;
    let mut seats = Vec::with_capacity(alloc, count)?;
    for index in 0..count {
        match new_seat(&mut worker, index) {
            Some(seat) => seats.push_reserved(seat),
            None => {
                retire_all(seats);
                return Err(Refusal::NoMemory);
            }
        }
    }
    let owner = Owner {
        worker,
        seats: count,
        room,
    };
    Ok((owner, seats))
}

/// The seat with this index, for a line that has `index` seats so far. `None` if its end of the line can't be allocated.
fn new_seat(worker: &mut LineWorker, index: usize) -> Option<Seat>
    requires end { IsOwnerEnd index worker.old × (index < MAX_WORKERS) }
    ensures same { worker_deque worker.new ≡ worker_deque worker.old }
    ensures room { worker_capacity worker.old ≤ worker_capacity worker.new }
    ensures seat { IfSome result (λ seat. seat ≡ seat_state (worker_deque worker.old).0 index [] 0 0) }
    ensures end { IfSome result (λ _. IsOwnerEnd (index + 1) worker.new × ((worker_view worker.new).sent ≡ (worker_view worker.old).sent) × ((worker_view worker.new).popped ≡ (worker_view worker.old).popped)) }
{
    let Ok(stealer) = worker.stealer() else {
        return None;
    };
    let pass = worker.another::<SeatList>();
    let taker = Taker {
        stealer,
        pass,
        index,
        finished: 0,
        forfeited: 0,
    };
    Some(Seat { taker })
}

/// Retires all these seats.
pub fn retire_all(mut seats: Vec<Seat>) {
    while let Some(seat) = seats.pop() {
        seat.retire();
    }
    seats.destroy_empty();
}
