//! Services whose line is full, from their opening to their end. A call that runs out of memory is repeated at once, and then everything is as if there had
//! been enough memory: `tests/refused-allocations` makes allocations of these tests fail, up to four in a row, and checks that a push is among them.

ghost use Rattle.std.specs.Prelude.{◌≡◌};

use super::wanted::{accepted, count_seats, put_back, same};
use super::{ended, must_finish, must_take};
use fz_model::ObjKind::Scanned;
use fz_model::RegKind::Normal;
use fz_model::{Entry, HEAP_START, Passed, Refusal, TABLE_LIMIT};
use fz_service::{Final, Locked, Opening, Prepared, Seat, Service, ServiceError};
use fz_world::Config;
use std::alloc::Global;
use std::marker::Brand;
use std::process::Abort;
use std::sync::Wait;
use std::test::*;

/// How many objects the first pass queues: as many as the line has room for when it is opened.
const FIRST: u64 = TABLE_LIMIT;

/// How many objects are registered and dropped. The second pass queues those beyond the first ones, for which the line has to grow.
const OBJECTS: u64 = FIRST + 1_000;

/// Room for the objects: one word each.
const CONFIG: Config = Config {
    blocks: 1_040,
    frames: 1,
};

/// The largest number of failed calls: no more allocations fail in a row.
const MOST_REFUSALS: u64 = 4;

/// What happens to the entries.
#[derive(Clone, Copy, PartialEq, Eq)]
enum Way {
    /// Two seats finish all entries, and the world is closed before the end.
    Serve,
    /// The service ends at once.
    Leave,
}

/// The entry at this index of the queue.
fn entry_at(place: u64) -> Entry {
    Entry {
        seq: place,
        pass: 1 + (place >= FIRST) as u64,
        reg: place,
        obj: place.wrapping_add(HEAP_START),
        birth: place,
        proc: place % 7,
        cd: 0,
    }
}

/// The entries end just before this index of the queue, are in order, and have this count.
fn are_before(rt: &impl Abort, entries: &[Entry], end: u64, count: u64) {
    same(rt, "entries", entries.len() as u64, count);
    let mut place = end.wrapping_sub(count);
    for entry in entries {
        same(rt, "an entry", *entry, entry_at(place));
        place = place.wrapping_add(1);
    }
}

/// Whether memory ran out.
fn lacks_memory(answer: &Result<Prepared, ServiceError>) -> bool {
    match answer {
        Ok(_) => false,
        Err(error) => error.refusal() == Refusal::NoMemory,
    }
}

fn prepared_again(rt: &impl Abort, alloc: Global, refusals: &mut u64) -> Prepared {
    for _ in 0..MOST_REFUSALS {
        let answer = Service::prepare(alloc, CONFIG, 2);
        if !lacks_memory(&answer) {
            return answer.expect(rt, "memory");
        }
        *refusals = refusals.saturating_add(1);
    }
    Service::prepare(alloc, CONFIG, 2).expect(rt, "memory")
}

/// Registers the current object with this procedure.
fn register_again<O: Opening>(
    rt: &impl Abort,
    locked: &mut Locked<O>,
    proc: u64,
    refusals: &mut u64,
) {
    for _ in 0..MOST_REFUSALS {
        match locked.register(0, 0, Normal, proc, 0, 0) {
            Err(Refusal::NoMemory) => *refusals = refusals.saturating_add(1),
            answer => return accepted(rt, "register", answer),
        }
    }
    accepted(rt, "register", locked.register(0, 0, Normal, proc, 0, 0));
}

/// Allocates, registers and drops the objects of a range of numbers, and collects. The entries that couldn't be sent are the rest of the queue.
fn queue_from<O: Opening>(
    rt: &impl Abort,
    locked: &mut Locked<O>,
    first: u64,
    end: u64,
    refusals: &mut u64,
) {
    for number in first..end {
        accepted(rt, "alloc", locked.alloc(0, 0, 1, Scanned));
        register_again(rt, locked, number % 7, refusals);
        accepted(rt, "set", locked.set(0, 0, 0));
    }
    let passed = Passed {
        pass: entry_at(first).pass,
        picked: end.wrapping_sub(first),
        reclaimed: 0,
    };
    same(rt, "collect", locked.collect(), Ok(passed));
    are_before(rt, locked.queue(), end, end);
}

/// Queues the objects of both passes. All entries of the first are sent at once, and of the second perhaps none.
fn queue_all<O: Opening, R: Abort + Print>(rt: &R, locked: &mut Locked<O>, refusals: &mut u64) {
    queue_from(rt, locked, 0, FIRST, refusals);
    same(rt, "not sent of the first", locked.outbox().len(), 0);
    queue_from(rt, locked, FIRST, OBJECTS, refusals);
    let waiting = locked.outbox().len() as u64;
    are_before(rt, locked.outbox(), OBJECTS, waiting);
    same(rt, "shortages", locked.shortages(), waiting.min(1));
    if waiting > 0 {
        *refusals = refusals.saturating_add(1);
        let _ = println!(rt; "a push is refused, and {waiting} entries wait");
    }
}

/// Sends the overflow queue.
fn send_all<O: Opening>(rt: &impl Abort, locked: &mut Locked<O>, refusals: &mut u64) {
    for _ in 0..MOST_REFUSALS {
        let waiting = locked.outbox().len() as u64;
        let sent = locked.publish() as u64;
        let left = waiting.wrapping_sub(sent);
        are_before(rt, locked.outbox(), OBJECTS, left);
        *refusals = refusals.saturating_add(left.min(1));
    }
    same(rt, "not sent", locked.outbox().len(), 0);
}

/// Both seats in turn finish all entries; then the world is closed.
fn serve_all<O: Opening, R: Abort + Wait>(rt: &R, service: &Service<O>, seats: &mut Vec<Seat<O>>) {
    for place in 0..OBJECTS {
        count_seats(rt, seats.as_slice(), 2);
        let duty = must_take(rt, seats.remove(0));
        same(rt, "the entry", *duty.entry(), entry_at(place));
        put_back(rt, seats, must_finish(rt, service, duty));
    }
    for seat in seats.as_slice() {
        same(rt, "finished", seat.finished(), OBJECTS / 2);
    }
    accepted(rt, "close", service.enter(rt).close());
}

/// Ends the service. A failed end leaves the world open or closed as it was.
fn ended_again<O: Opening, R: Abort + Wait>(
    rt: &R,
    service: Service<O>,
    seats: Vec<Seat<O>>,
    is_open: bool,
    refusals: &mut u64,
) -> Final {
    let (mut service, mut seats, mut is_open) = (service, seats, is_open);
    for _ in 0..MOST_REFUSALS {
        let shortages = service.enter(rt).shortages();
        match service.shutdown(seats) {
            Ok(end) => return end,
            Err((error, same_service, same_seats)) => {
                service = same_service;
                seats = same_seats;
                *refusals = refusals.saturating_add(1);
                same(rt, "the refusal", error.refusal(), Refusal::NoMemory);
                let counted = service.enter(rt).shortages();
                same(rt, "shortages", counted, shortages.wrapping_add(1));
                let was_open = service.enter(rt).close().is_ok();
                same(rt, "whether the world was open", was_open, is_open);
                is_open = false;
            }
        }
    }
    ended(rt, service, seats)
}

/// What the service returns at its end, in this case.
fn ends_so(rt: &impl Abort, way: Way, end: &Final) {
    let finished = if way == Way::Serve { OBJECTS } else { 0 };
    let counts = (end.enqueued, end.taken, end.finished, end.forfeited);
    let wanted = (OBJECTS, finished, finished, 0);
    same(rt, "the end's counts", counts, wanted);
    let passed = (end.passes, end.reclaimed);
    same(rt, "passes and reclaimed", passed, (2, 0));
    are_before(
        rt,
        end.left.as_slice(),
        OBJECTS,
        OBJECTS.wrapping_sub(finished),
    );
}

/// Runs a service from its opening to its end. Returns false if memory ran out at the opening.
fn is_opened<O: Opening, R: Abort + Wait + Print>(
    rt: &R,
    prepared: Prepared,
    way: Way,
    refusals: &mut u64,
) -> bool
    requires { prepared ≡ O.origin }
{
    let Ok((service, mut seats)) = Service::<O>::open(prepared) else {
        return false;
    };
    queue_all(rt, &mut service.enter(rt), refusals);
    if way == Way::Serve {
        send_all(rt, &mut service.enter(rt), refusals);
        serve_all(rt, &service, &mut seats);
    }
    let end = ended_again(rt, service, seats, way == Way::Leave, refusals);
    ends_so(rt, way, &end);
    true
}

/// Runs a service in this case, and again if it couldn't be opened. At most `MOST_REFUSALS` calls fail when allocations fail.
fn lives<R: Abort + Wait + Print + Alloc<A = Global>>(rt: &R, way: Way) {
    let mut refusals = 0;
    for _ in 0..=MOST_REFUSALS {
        let prepared = prepared_again(rt, rt.alloc(), &mut refusals);
        if is_opened::<Brand, R>(rt, prepared, way, &mut refusals) {
            break;
        }
        refusals = refusals.saturating_add(1);
    }
    same(
        rt,
        "too many refusals",
        refusals.saturating_sub(MOST_REFUSALS),
        0,
    );
}

/// The overflow queue is published, and two seats take everything.
#[test]
fn a_full_service_is_served(rt: HostRuntime) {
    lives(&rt, Way::Serve);
}

/// At the end, the overflow queue is returned after the entries that wait in the line.
#[test]
fn a_full_service_is_left(rt: HostRuntime) {
    lives(&rt, Way::Leave);
}
