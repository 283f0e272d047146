//! Opening and freeing lines, and publishing entries.

ghost use Rattle.std.specs.Prelude.{◌≡◌, [], ◌∷◌, None, IfOk};
ghost use Rattle.fz_model.specs.Causes.{IsJudgedOrLacks, bad_count};
ghost use Rattle.fz_model.specs.declared.limits.TheConstants.{MAX_WORKERS};
ghost use Rattle.fz_c.specs.Values.{entry_of};
ghost use Rattle.fz_c.specs.Lines.{IsNewLine, Opened, Opens, PublishesBehind};
ghost use Rattle.fz_c.specs.Seats.{HandsNext, HandsOut};

use crate::entry::Entry;
use crate::handle::{behind, put, take};
use crate::line::codes::{Code, EMPTY, HAS_WORLD, NO_WORLD, OK};
use crate::line::handle::{LineHandle, SeatHandle};
use crate::line::line_session::{FIRST_ROOM, LineSession};
use crate::line::seat_session::SeatSession;
use fz_line::line;
use fz_model::Refusal;
use std::alloc::Global;

fn new_session(alloc: Global, seats: u64) -> Result<Box<LineSession, Global>, Refusal>
    ensures judged { IsJudgedOrLacks (bad_count MAX_WORKERS seats ∷ []) result }
    ensures opened { IfOk result (λ session. IsNewLine seats session.value) }
{
    let (owner, seats) = line(alloc, seats, FIRST_ROOM)?;
    Ok(Box::new(
        alloc,
        LineSession {
            owner,
            seats,
            sent: 0,
        },
    )?)
}

fn open_into(alloc: Global, line: &mut LineHandle, seats: u64) -> Code
    requires { line.old.value ≡ None }
    ensures { Opened seats line.new.value result }
{
    match new_session(alloc, seats) {
        Ok(session) => {
            put(line, session);
            OK
        }
        Err(refusal) => refusal.code(),
    }
}

/// Opens a line in a handle that has none.
#[unsafe(no_mangle)]
pub extern "C" fn fz_line_open(alloc: Global, line: &mut LineHandle, seats: u64) -> Code
    ensures { Opens line.old.value seats line.new.value result }
{
    match take(line, alloc) {
        Some(session) => {
            put(line, session);
            HAS_WORLD
        }
        None => open_into(alloc, line, seats),
    }
}

/// Frees the handle's line, if it has one, with the seats that C hasn't got.
#[unsafe(no_mangle)]
pub extern "C" fn fz_line_destroy(alloc: Global, line: &mut LineHandle)
    ensures { line.new.value ≡ None }
{
    drop(take(line, alloc));
}

/// `Owner::publish` for one entry.
#[unsafe(no_mangle)]
pub extern "C" fn fz_line_publish(alloc: Global, line: &mut LineHandle, entry: &Entry) -> Code
    ensures { PublishesBehind line.old.value (entry_of entry.now) line.new.value result }
{
    let code = behind!(alloc, line, NO_WORLD, |it| it.publish(entry.read()));
    code
}

fn next_seat(alloc: Global, session: &mut LineSession, seat: &mut SeatHandle) -> Code
    requires { seat.old.value ≡ None }
    ensures { HandsNext session.old session.new seat.new.value result }
{
    let Ok(mut held) = Box::new(alloc, SeatSession::Away) else {
        return Refusal::NoMemory.code();
    };
    match session.seats.pop() {
        Some(next) => {
            *held = SeatSession::Idle(next);
            put(seat, held);
            OK
        }
        None => EMPTY,
    }
}

/// Moves the last remaining seat of the line into an empty handle.
#[unsafe(no_mangle)]
pub extern "C" fn fz_line_seat(alloc: Global, line: &mut LineHandle, seat: &mut SeatHandle) -> Code
    ensures { HandsOut line.old.value seat.old.value line.new.value seat.new.value result }
{
    if let Some(held) = take(seat, alloc) {
        put(seat, held);
        return HAS_WORLD;
    }
    let code = behind!(alloc, line, NO_WORLD, |it| next_seat(alloc, &mut it, seat));
    code
}
