//! What no clause states: that memory is allocated only when it is needed, that Empty depends on the line's content, and that Busy ends.

ghost use Rattle.std.specs.Prelude.{◌≡◌, ◌<◌, ◌≤◌, [], length, vec_len, IfOk};
ghost use Rattle.fz_line.specs.Numbers.{AreNumberedFrom};
ghost use Rattle.fz_line.specs.States.{owner_state, new_seats};

mod steals;

use crate::equal::{must_be, note_once};
use fz_line::{Duty, Owner, PlainLine, Seat, Take, line, retire_all};
use fz_model::{Entry, Refusal};
use std::alloc::{AllocError, Global};
use std::process::Abort;
use std::test::*;
use std::thread;
use std::thread::Threads;

/// The largest number of takes until a result other than Busy.
const TRIES: u32 = 1_000;

fn entry(seq: u64) -> Entry
    ensures { result.seq ≡ seq }
{
    Entry {
        seq,
        pass: 1,
        reg: seq,
        obj: 65_536,
        birth: seq,
        proc: 7,
        cd: 8,
    }
}

/// This many entries, numbered from 0.
fn entries(alloc: Global, count: u64) -> Result<Vec<Entry>, AllocError>
    ensures { IfOk result (λ all. AreNumberedFrom 0 all.items × (vec_len all ≡ count)) }
{
    let mut all = Vec::with_capacity(alloc, count as usize)?;
    for seq in 0..count {
        all.push_reserved(entry(seq));
    }
    Ok(all)
}

/// The first result other than Busy.
fn take_soon(mut seat: Seat) -> Take {
    for _ in 0..TRIES {
        match seat.take() {
            Take::Busy(same) => seat = same,
            answer => return answer,
        }
    }
    Take::Busy(seat)
}

/// A take that has to return an entry.
fn must_take(rt: &impl Abort, seat: Seat) -> Duty {
    match take_soon(seat) {
        Take::Taken(duty) => duty,
        Take::Empty(same) | Take::Busy(same) => {
            same.retire();
            panic!(rt; "no entry")
        }
    }
}

/// A take that has to find the line empty.
fn must_find_nothing(rt: &impl Abort, seat: Seat) -> Seat {
    match take_soon(seat) {
        Take::Empty(same) => same,
        Take::Taken(duty) => {
            duty.forfeit().retire();
            panic!(rt; "an entry")
        }
        Take::Busy(same) => {
            same.retire();
            panic!(rt; "busy")
        }
    }
}

/// How many entries a seat has taken, and how many of them it has finished and forfeited.
fn counts(seat: &Seat) -> (u64, u64, u64) {
    (seat.taken(), seat.finished(), seat.forfeited())
}

#[test]
fn takes_both_entries_and_then_finds_nothing(rt: HostRuntime) {
    let (mut owner, mut seats) = line(rt.alloc(), 1, 64).expect(&rt, "a line");
    let seat = seats.pop().expect(&rt, "a seat");
    let (sent, _) = owner.publish(&[entry(0), entry(1)]);
    must_be(&rt, sent, 2, "two entries are sent");

    let duty = must_take(&rt, seat);
    must_be(&rt, *duty.entry(), entry(0), "the first entry");
    let duty = must_take(&rt, duty.forfeit());
    must_be(&rt, *duty.entry(), entry(1), "the second entry");
    let seat = must_find_nothing(&rt, duty.forfeit());
    must_be(&rt, counts(&seat), (2, 0, 2), "both are forfeited");
    seat.retire();
    retire_all(seats);
}

#[test]
fn opens_with_one_to_eight_seats(rt: HostRuntime) {
    for workers in [0, 9, 10, u64::MAX] {
        match line(rt.alloc(), workers, 64) {
            Err(refusal) => must_be(&rt, refusal, Refusal::BadCount, "too few or many"),
            Ok((_, seats)) => {
                retire_all(seats);
                panic!(rt; "a line of {workers} seats")
            }
        }
    }
    for workers in 1..9u64 {
        let (mut owner, mut seats) = line(rt.alloc(), workers, 64).expect(&rt, "a line");
        must_be(&rt, owner.seats() as u64, workers, "a seat for each");
        must_be(&rt, owner.publish(&[entry(0)]).0, 1, "an entry is sent");
        let seat = seats.pop().expect(&rt, "a seat");
        must_be(&rt, seat.index() as u64, workers - 1, "the last seat");
        let seat = must_take(&rt, seat).done();
        must_be(&rt, counts(&seat), (1, 1, 0), "the entry is finished");
        seat.retire();
        retire_all(seats);
    }
}

/// A seat that is sent to a thread, and the numbers of the entries that it took. If a closure that owns it is dropped, the seat is retired.
struct Taker {
    seat: Seat,
    numbers: Vec<u64>,
}

impl Drop for Taker {
    fn drop(self) {
        let Self { seat, numbers } = self;
        drop(numbers);
        seat.retire();
    }
}

impl Taker {
    fn parts(self) -> (Seat, Vec<u64>) {
        let Self { seat, numbers } = self;
        (seat, numbers)
    }

    /// Takes this many times, and forfeits every entry.
    fn take(self, takes: u64) -> Taker {
        let (mut seat, mut numbers) = self.parts();
        for _ in 0..takes {
            match seat.take() {
                Take::Taken(duty) => {
                    let _ = numbers.push(duty.entry().seq);
                    seat = duty.forfeit();
                }
                Take::Empty(same) | Take::Busy(same) => seat = same,
            }
        }
        Taker { seat, numbers }
    }
}

/// An owner, and how many entries it has sent, numbered from 0.
#[derive(Drop)]
struct Publisher {
    owner: Owner,
    sent: u64,
    ghost counted: { length owner.sent ≡ sent },
}

impl Publisher {
    /// Publishes entries one by one, until `count` are sent or one is refused.
    fn publish(self, count: u64) -> Publisher {
        let Self {
            mut owner,
            mut sent,
        } = self;
        while sent < count && sent < 1 << 62 {
            if owner.publish(&[entry(sent)]).0 == 0 {
                break;
            }
            sent += 1;
        }
        Publisher { owner, sent }
    }
}

/// Publishes in one thread while two others take, and then lets the second take the rest.
fn publish_and_take<R: Threads + Sync>(
    rt: &R,
    publisher: Publisher,
    first: Taker,
    second: Taker,
    count: u64,
) -> (Publisher, Taker, Taker) {
    let (publisher, (first, second)) = thread::join(
        rt,
        move || publisher.publish(count),
        move || thread::join(
            rt,
            move || first.take(200_000),
            move || second.take(200_000),
        ),
    );
    (publisher, first, second.take(count))
}

/// A publisher of up to 10,000 entries, and takers with the line's two seats.
fn publisher_and_takers(rt: &impl Abort, alloc: Global) -> Result<(Publisher, Taker, Taker), Fail> {
    let one = Vec::with_capacity(alloc, 10_000)?;
    let two = Vec::with_capacity(alloc, 10_000)?;
    let (owner, mut seats) = line(alloc, 2, 64).expect(rt, "a line");
    let first = Taker {
        seat: seats.pop().expect(rt, "a seat"),
        numbers: one,
    };
    let second = Taker {
        seat: seats.pop().expect(rt, "a seat"),
        numbers: two,
    };
    retire_all(seats);
    Ok((Publisher { owner, sent: 0 }, first, second))
}

/// Records numbers, each of which has an index in `seen` and may occur only once.
fn note_numbers(rt: &impl Abort, seen: &mut [bool], numbers: &[u64]) {
    for number in numbers {
        note_once(rt, seen, *number);
    }
}

#[test]
fn takes_each_entry_once_in_two_threads(rt: HostRuntime) -> Result<(), Fail> {
    let mut seen = vec![in rt.alloc(); false; 10_000]?;
    let (publisher, first, second) = publisher_and_takers(&rt, rt.alloc())?;
    let (publisher, first, second) = publish_and_take(&rt, publisher, first, second, 10_000);
    must_be(&rt, publisher.sent, 10_000, "all entries are sent");
    note_numbers(&rt, &mut seen, &first.numbers);
    note_numbers(&rt, &mut seen, &second.numbers);
    let are_all_taken = seen.iter().all(|&taken| taken);
    must_be(&rt, are_all_taken, true, "all entries are taken");
    Ok(())
}

/// Opens a line, and again if memory ran out.
fn line_again(rt: &impl Abort, alloc: Global, workers: u64) -> (Owner, Vec<Seat>)
    requires { (0 < workers) × (workers ≤ 8) }
    ensures owner { result.0 ≡ owner_state result.0.line workers 64 [] [] }
    ensures seats { result.1.items ≡ new_seats result.0.line workers }
{
    match line(alloc, workers, 64) {
        Ok(made) => made,
        Err(refusal) => {
            must_be(rt, refusal, Refusal::NoMemory, "no line");
            line(alloc, workers, 64).expect(rt, "a line")
        }
    }
}

/// If an allocation fails, the entries that aren't sent are the rest of the slice in order, and publishing them again sends them.
#[test]
fn survives_a_refused_push(rt: HostRuntime) -> Result<(), Fail> {
    let all = match entries(rt.alloc(), 2_000) {
        Ok(all) => all,
        Err(_) => entries(rt.alloc(), 2_000)?,
    };
    let mut out = match Vec::with_capacity(rt.alloc(), 2_000) {
        Ok(out) => out,
        Err(_) => Vec::with_capacity(rt.alloc(), 2_000)?,
    };
    let (mut owner, mut seats) = line_again(&rt, rt.alloc(), 1);
    let (sent, _) = owner.publish(&all);
    let rest = &all[sent..];
    must_be(&rt, owner.publish(rest).0, rest.len(), "the rest is sent");
    owner.drain(seats.as_mut_slice(), &mut out);
    retire_all(seats);
    must_be(&rt, out == all, true, "all come out in order");
    Ok(())
}

#[test]
fn hands_a_queue_out_on_one_thread(rt: HostRuntime) {
    let mut plain = PlainLine::new();
    let queue = [entry(0), entry(1), entry(2)];
    let taken = plain.take(&queue[..1]);
    must_be(&rt, taken, Some(entry(0)), "the first entry");
    let taken = plain.take(&queue[..1]);
    must_be(&rt, taken, None, "no more than one entry");
    must_be(&rt, plain.take(&queue), Some(entry(1)), "the second");
    must_be(&rt, plain.taken(), 2, "two entries");
}
