//! Assertions that fail a test and say which result was wrong. An assertion is proved again wherever it occurs, so those that several tests need are here.

ghost use Rattle.std.specs.Prelude.{◌≡◌, length};

use fz_model::{Passed, Refusal};
use fz_service::{Locked, Opening, Seat};
use std::fmt::Debug;
use std::process::Abort;

/// Two equal values.
pub(crate) fn same<T: PartialEq + Debug + Drop>(rt: &impl Abort, what: &str, got: T, want: T) {
    assert_eq!(rt; got, want, "{what}");
}

/// The call has to succeed.
pub(crate) fn accepted<T: Drop>(rt: &impl Abort, what: &str, answer: Result<T, Refusal>) {
    assert!(rt; answer.is_ok(), "{what} is refused");
}

/// Puts a seat back to the others. There has to be room for it.
pub(crate) fn put_back<O: Opening>(rt: &impl Abort, seats: &mut Vec<Seat<O>>, seat: Seat<O>) {
    assert!(rt; seats.len() < seats.capacity());
    seats.push_reserved(seat);
}

/// There have to be this many seats.
pub(crate) fn count_seats<O: Opening>(rt: &impl Abort, seats: &[Seat<O>], count: usize)
    ensures { length seats.now ≡ count }
{
    same(rt, "seats", seats.len(), count);
    assert!(rt; seats.len() == count);
}

/// A collection has to carry out this pass, after which every entry is sent.
pub(crate) fn collects<O: Opening>(
    rt: &impl Abort,
    locked: &mut Locked<O>,
    pass: u64,
    picked: u64,
    reclaimed: u64,
) {
    let passed = Passed {
        pass,
        picked,
        reclaimed,
    };
    same(rt, "collect", locked.collect(), Ok(passed));
    same(rt, "not sent", locked.outbox().len(), 0);
}
