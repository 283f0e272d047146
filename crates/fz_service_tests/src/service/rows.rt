//! The worked example of two objects and two takes.

ghost use Rattle.std.specs.Prelude.{◌≡◌};

use super::wanted::{collects, count_seats, same};
use super::{ended, find_nothing, must_finish, must_take, opened, prepared};
use fz_model::ObjKind::Scanned;
use fz_model::RegKind::Normal;
use fz_model::{Entry, Refusal, RegAnswer};
use fz_service::{Duty, Locked, Opening, Prepared, Seat, Service};
use std::marker::Brand;
use std::process::Abort;
use std::sync::Wait;
use std::test::*;

const FIRST: Entry = Entry {
    seq: 0,
    pass: 1,
    reg: 1,
    obj: 65_664,
    birth: 2,
    proc: 2,
    cd: 0,
};

const SECOND: Entry = Entry {
    seq: 1,
    pass: 2,
    reg: 0,
    obj: 65_536,
    birth: 0,
    proc: 1,
    cd: 0,
};

/// Allocates an object, which has to have this address and this birth.
fn makes<O: Opening>(
    rt: &impl Abort,
    locked: &mut Locked<O>,
    slot: u64,
    words: u64,
    wanted: (u64, u64),
) {
    let made = locked.alloc(0, slot, words, Scanned);
    same(rt, "address and birth", made, Ok(wanted));
}

/// Registers the object of a slot. The registration has to get this number.
fn registers<O: Opening>(
    rt: &impl Abort,
    locked: &mut Locked<O>,
    slot: u64,
    proc: u64,
    number: u64,
) {
    let answer = locked.register(0, slot, Normal, proc, 0, 0);
    let wanted = RegAnswer::Number(number, None);
    same(rt, "registration", answer, Ok(wanted));
}

/// Allocates three objects and registers two of them. One pass for each finds it unreachable.
fn queue_two<O: Opening>(rt: &impl Abort, locked: &mut Locked<O>) {
    makes(rt, locked, 0, 1, (65_536, 0));
    makes(rt, locked, 1, 2, (65_600, 1));
    makes(rt, locked, 2, 3, (65_664, 2));
    registers(rt, locked, 0, 1, 0);
    registers(rt, locked, 2, 2, 1);
    same(rt, "set of slot 2", locked.set(0, 2, 0), Ok(()));
    collects(rt, locked, 1, 1, 0);
    same(rt, "set of slot 0", locked.set(0, 0, 0), Ok(()));
    collects(rt, locked, 2, 1, 0);
}

/// A held object keeps its cell until its entry is finished, and an entry is finished only once.
fn finish_two<O: Opening, R: Abort + Wait>(
    rt: &R,
    service: &Service<O>,
    first: Duty<O>,
    second: Duty<O>,
) -> (Seat<O>, Seat<O>) {
    same(rt, "the first entry", *first.entry(), FIRST);
    same(rt, "the second entry", *second.entry(), SECOND);
    makes(rt, &mut service.enter(rt), 3, 3, (65_667, 3));
    let first = must_finish(rt, service, first);
    let mut locked = service.enter(rt);
    collects(rt, &mut locked, 3, 0, 1);
    makes(rt, &mut locked, 4, 3, (65_664, 4));
    let finished = locked.hold(0, 5, &FIRST);
    same(rt, "a hold after a finish", finished, Err(Refusal::NotHeld));
    let held = locked.hold(0, 5, second.entry());
    same(rt, "a hold before a finish", held, Ok(()));
    drop(locked);
    let second = must_finish(rt, service, second);
    collects(rt, &mut service.enter(rt), 4, 0, 0);
    (first, second)
}

fn two_takes<O: Opening, R: Abort + Wait>(rt: &R, prepared: Prepared)
    requires { prepared ≡ O.origin }
{
    let (service, mut seats) = opened::<O>(rt, prepared);
    queue_two(rt, &mut service.enter(rt));
    count_seats(rt, seats.as_slice(), 2);
    let second = seats.remove(1);
    let first = must_take(rt, seats.remove(0));
    let second = must_take(rt, second);
    same(rt, "outstanding", service.enter(rt).outstanding(), 2);
    let (first, second) = finish_two(rt, &service, first, second);
    seats.push_reserved(find_nothing(rt, first));
    seats.push_reserved(second);
    let end = ended(rt, service, seats);
    let counts = (end.enqueued, end.finished, end.forfeited);
    same(rt, "the end's counts", counts, (2, 2, 0));
    let rest = (end.left.len(), end.passes, end.reclaimed);
    same(rt, "left, passes and reclaimed", rest, (0, 4, 1));
}

#[test]
fn held_until_finished(rt: HostRuntime) {
    let prepared = prepared(&rt, rt.alloc(), 2);
    two_takes::<Brand, HostRuntime>(&rt, prepared);
}
