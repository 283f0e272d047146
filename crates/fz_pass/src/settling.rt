//! Marking the values of ephemerons whose holders and keys are marked, until no more are marked.

ghost use Rattle.std.specs.Prelude.{◌≡◌, ◌≤◌, ◌<◌, ◌+◌, ◌↔◌, ◌⊎◌, [], ℕ, Some, Contains, vec_len, vec_capacity, IsTrue};
ghost use Rattle.std.specs.FinMap.{get, len};
ghost use Rattle.fz_pass.specs.Holds.{Settles};
ghost use Rattle.fz_pass.specs.Marks.{IsClosed};
ghost use Rattle.fz_pass.specs.Settling.{IsListedOf, Rounds, SettlesOne};

use crate::host::Values;
use fz_links::Links;
use fz_model::Addr;
use std::mem;

/// Marks the value of an ephemeron, if its key and its holder are marked, and otherwise puts the ephemeron off. Returns whether something may have been marked.
fn settle_one<H: Values>(host: &mut H, word: Addr, key: Addr, rest: &mut Vec<(Addr, Addr)>) -> bool
    requires closed { IsClosed (H.objects host.old) (H.marked host.old) }
    requires room { vec_len rest.old < vec_capacity rest.old }
    ensures settled { SettlesOne H.is_exact H.place H.value (H.objects host.old) (word, key) (H.marked host.old) (H.marked host.new) rest.old.items rest.new.items result }
    ensures capacity { vec_capacity rest.old ≤ vec_capacity rest.new }
    ensures objects { H.objects host.new ≡ H.objects host.old }
    ensures same { H.is_same host.old host.new }
{
    if host.is_marked(key) && host.is_holder_marked(word) {
        return host.mark_value(word);
    }
    let _ = rest.push((word, key));
    false
}

/// Looks at each waiting ephemeron once, the last one first, and leaves those that wait in the opposite order. Returns whether something may have been marked.
fn settle_round<H: Values>(
    host: &mut H,
    waiting: &mut Vec<(Addr, Addr)>,
    rest: &mut Vec<(Addr, Addr)>,
) -> bool
    requires closed { IsClosed (H.objects host.old) (H.marked host.old) }
    requires empty { rest.old.items ≡ [] }
    requires room { vec_len waiting.old ≤ vec_capacity rest.old }
    ensures round { Rounds H.is_exact H.place H.value (H.objects host.old) waiting.old.items (H.marked host.old) [] waiting.new.items (H.marked host.new) result }
    ensures fewer { vec_len waiting.new ≤ vec_len waiting.old }
    ensures smaller { IsTrue result → vec_len waiting.new < vec_len waiting.old }
    ensures empty { rest.new.items ≡ [] }
    ensures capacity { (vec_capacity rest.old ≤ vec_capacity waiting.new) × (vec_capacity waiting.old ≤ vec_capacity rest.new) }
    ensures objects { H.objects host.new ≡ H.objects host.old }
    ensures same { H.is_same host.old host.new }
{
    let mut again = false;
    while let Some((word, key)) = waiting.pop() {
        let marked = settle_one(host, word, key, rest);
        again = again || marked;
    }
    mem::swap(waiting, rest);
    again
}

/// Marks the values of the waiting ephemerons whose holders and keys are marked, until no more are marked.
///
/// Each round but the last marks the value of at least one ephemeron. So there is at most one round more than there are ephemerons. A chain of ephemerons in
/// the order of the list, or in the opposite order, takes three rounds.
pub(crate) fn settle_waiting<H: Values>(
    host: &mut H,
    waiting: &mut Vec<(Addr, Addr)>,
    rest: &mut Vec<(Addr, Addr)>,
)
    requires closed { IsClosed (H.objects host.old) (H.marked host.old) }
    requires empty { rest.old.items ≡ [] }
    requires room { (vec_len waiting.old ≤ vec_capacity rest.old) }
    ensures settled { Settles H.place H.value (H.objects host.old) (IsListedOf waiting.old.items) H.is_exact (H.marked host.old) (H.marked host.new) }
    ensures empty { rest.new.items ≡ [] }
    ensures capacity { (n : ℕ) → n ≤ vec_capacity waiting.old → n ≤ vec_capacity rest.old → (n ≤ vec_capacity waiting.new) × (n ≤ vec_capacity rest.new) }
    ensures objects { H.objects host.new ≡ H.objects host.old }
    ensures same { H.is_same host.old host.new }
{
    while settle_round(host, waiting, rest) {}
}

/// Appends the ephemerons of one kind to the waiting ones, which have room for them.
pub(crate) fn list_ephemerons(links: &Links, waiting: &mut Vec<(Addr, Addr)>)
    requires room { vec_len waiting.old + len links.now.links ≤ vec_capacity waiting.old }
    ensures listed { (word key : ℕ) → Contains waiting.new.items (word, key) ↔ (Contains waiting.old.items (word, key) ⊎ (get links.now.links word ≡ Some key)) }
    ensures count { vec_len waiting.new ≡ vec_len waiting.old + len links.now.links }
    ensures capacity { vec_capacity waiting.old ≤ vec_capacity waiting.new }
{
    for entry in links.iter() {
        let _ = waiting.push(entry);
    }
}
