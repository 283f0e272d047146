//! The worked scripts with their reports, as `tests/scripts --write` wrote them from `crates/finalize/data`.

use super::Row;
use fz_model::Refusal;
use fz_runs::DriveFault;

/// A row of a script and its report. If the run ends early, its refusal and the line follow.
macro_rules! row {
    ($script:literal => $report:literal) => {
        Row {
            script: $script,
            report: $report,
            fault: None,
        }
    };
    ($script:literal => $report:literal, $refusal:ident in line $line:literal) => {
        Row {
            script: $script,
            report: $report,
            fault: Some(DriveFault {
                refusal: Refusal::$refusal,
                line: $line,
            }),
        }
    };
}

/// An object that is dropped inside a cycle is found by the next pass, or else by this cycle's own: that depends on the
/// order of marking.
pub(crate) const DROPPED_IN_A_CYCLE: Row =
    row!(b"open 4 1 1\nnew 0 0 1 scanned\nregister 0 0 normal 1 0\nbegin\nmark 10\nset 0 0 0\npause\ncollect\ntake 0\n" => b"ok\nnew 65536 0\nreg 0\nok\ndone\nok\npass 1 picked 0 reclaimed 0\npass 2 picked 1 reclaimed 0\nentry 0 2 0 65536 0 1 0\nend enqueued 1 finished 0 forfeited 0 in_hand 1 left 0\n");

/// The other report of the same script.
pub(crate) const DROPPED_IN_A_CYCLE_OTHERWISE: &[u8] =
    b"ok\nnew 65536 0\nreg 0\nok\ndone\nok\npass 1 picked 1 reclaimed 0\npass 2 picked 0 reclaimed 0\nentry 0 1 0 65536 0 1 0\nend enqueued 1 finished 0 forfeited 0 in_hand 1 left 0\n";

/// The life of one object: made, registered, dropped, queued by the first pass, finished by a worker, and
/// reclaimed by the next pass. Nothing is reclaimed in pass 1: the object is kept for its finalizer.
pub(crate) const ONE_OBJECT: Row =
    row!(b"open 4 1 1\nnew 0 0 2 scanned\nregister 0 0 normal 7 0\nset 0 0 0\ncollect\ntake 0\nfinish 0\ncollect\n" => b"ok\nnew 65536 0\nreg 0\nok\npass 1 picked 1 reclaimed 0\nentry 0 1 0 65536 0 7 0\nok\npass 2 picked 0 reclaimed 1\nend enqueued 1 finished 1 forfeited 0 in_hand 0 left 0\n");

/// The first object leads to the second, so the second waits. Pass 1 queues the first alone. Pass 2 queues
/// nothing, since the first is held. Once it is finished, pass 3 reclaims it and queues the second.
pub(crate) const TWO_IN_ORDER: Row =
    row!(b"open 4 1 1\nnew 0 0 1 scanned\nnew 0 1 1 scanned\nstore 0 0 0 0 1\nregister 0 0 normal 1 0\nregister 0 1 normal 2 0\nset 0 0 0\nset 0 1 0\ncollect\ncollect\ntake 0\nfinish 0\ncollect\ntake 0\n" => b"ok\nnew 65536 0\nnew 65537 1\nok\nreg 0\nreg 1\nok\nok\npass 1 picked 1 reclaimed 0\npass 2 picked 0 reclaimed 0\nentry 0 1 0 65536 0 1 0\nok\npass 3 picked 1 reclaimed 1\nentry 1 3 1 65537 1 2 0\nend enqueued 2 finished 1 forfeited 0 in_hand 1 left 0\n");

/// The first of those over small worlds.
pub(crate) const FIRST_SMALL: [Row; 18] = [
    // chain-in-order-ranked:
    // An object that leads to another is finalized first, whatever the ranks.
    row!(b"open 4 1 1\nnew 0 0 1 scanned\nnew 0 1 1 scanned\nstore 0 0 0 0 1\nregister 0 0 normal 1 0 255\nregister 0 1 normal 2 0 0\nset 0 0 0\nset 0 1 0\ncollect\ncollect\ntake 0\nfinish 0\ncollect\ntake 0\n" => b"ok\nnew 65536 0\nnew 65537 1\nok\nreg 0\nreg 1\nok\nok\npass 1 picked 1 reclaimed 0\npass 2 picked 0 reclaimed 0\nentry 0 1 0 65536 0 1 0\nok\npass 3 picked 1 reclaimed 1\nentry 1 3 1 65537 1 2 0\nend enqueued 2 finished 1 forfeited 0 in_hand 1 left 0\n"),
    // client-data-is-a-root:
    // The client data of each registration points to its own object. Client data is a root in every kind, so
    // nothing is ever queued.
    row!(b"open 4 1 1\nnew 0 0 1 scanned\nnew 0 1 1 scanned\nnew 0 2 1 scanned\nregister 0 0 normal 1 65536\nregister 0 1 ignore_self 1 65537\nregister 0 2 no_order 1 65538\nset 0 0 0\nset 0 1 0\nset 0 2 0\ncollect\n" => b"ok\nnew 65536 0\nnew 65537 1\nnew 65538 2\nreg 0\nreg 1\nreg 2\nok\nok\nok\npass 1 picked 0 reclaimed 0\nend enqueued 0 finished 0 forfeited 0 in_hand 0 left 0\n"),
    // closed-in-a-cycle:
    // The world closes while a cycle is open. The pass queues nothing, though the registered object is dropped.
    row!(b"open 4 1 1\nnew 0 0 1 atomic\nnew 0 1 1 scanned\nstore 0 0 0 0 1\nlink short 0 0 0 0 1\nregister 0 1 normal 1 0\nset 0 1 0\nbegin\nclose\npause\nload 0 0 0 0 2\nclose\ntake 0\n" => b"ok\nnew 65536 0\nnew 65600 1\nok\nsuccess\nreg 0\nok\nok\nok\npass 1 picked 0 reclaimed 0\nword 65600\nrefused 11 Closed\nempty\nend enqueued 0 finished 0 forfeited 0 in_hand 0 left 0\n"),
    // closed-world-keeps:
    // A closed world keeps a registered object until it is unregistered.
    row!(b"open 4 1 1\nnew 0 0 1 scanned\nregister 0 0 normal 1 0\nset 0 0 0\nclose\ncollect\nclose\nunregister 0 0\noutstanding\nset 0 0 65536\nunregister 0 0\nset 0 0 0\ncollect\n" => b"ok\nnew 65536 0\nreg 0\nok\nok\npass 1 picked 0 reclaimed 0\nrefused 11 Closed\nnone\noutstanding 0\nok\nold 1 0\nok\npass 2 picked 0 reclaimed 1\nend enqueued 0 finished 0 forfeited 0 in_hand 0 left 0\n"),
    // cycle-cut-by-short-link:
    // A short link on a cycle of two normal objects is cleared before the pass looks at what leads to what: its target is
    // finalized first, then the other.
    row!(b"open 4 1 1\nnew 0 0 1 scanned\nnew 0 1 1 scanned\nstore 0 0 0 0 1\nstore 0 1 0 0 0\nregister 0 0 normal 1 0\nregister 0 1 normal 2 0\nlink short 0 0 0 0 1\nset 0 0 0\nset 0 1 0\ncollect\ntake 0\nfinish 0\ncollect\ntake 0\n" => b"ok\nnew 65536 0\nnew 65537 1\nok\nok\nreg 0\nreg 1\nsuccess\nok\nok\npass 1 picked 1 reclaimed 0\nentry 0 1 1 65537 1 2 0\nok\npass 2 picked 1 reclaimed 1\nentry 1 2 0 65536 0 1 0\nend enqueued 2 finished 1 forfeited 0 in_hand 1 left 0\n"),
    // cycle-in-steps:
    // Two references change places while a cycle is open, one of them behind the marker. The stores note their
    // pages, so the pass finds both objects reachable.
    row!(b"open 4 1 1\nnew 0 0 2 scanned\nnew 0 1 2 scanned\nnew 0 2 1 scanned\nnew 0 3 1 scanned\nregister 0 2 normal 1 0\nregister 0 3 normal 1 0\nstore 0 1 0 0 2\nstore 0 0 0 0 3\nset 0 2 0\nset 0 3 0\nbegin\nmark 1\nload 0 1 0 0 2\nstore 0 0 1 0 2\nload 0 0 0 0 3\nstore 0 1 1 0 3\nset 0 2 0\nset 0 3 0\nstore 0 1 0 0 2\nstore 0 0 0 0 2\npause\n" => b"ok\nnew 65536 0\nnew 65538 1\nnew 65600 2\nnew 65601 3\nreg 0\nreg 1\nok\nok\nok\nok\nok\nmore\nword 65600\nok\nword 65601\nok\nok\nok\nok\nok\npass 1 picked 0 reclaimed 0\nend enqueued 0 finished 0 forfeited 0 in_hand 0 left 0\n"),
    // cycle-never-picked:
    // Two normal objects lead to one another. Each waits for the other: no pass queues or reclaims them.
    row!(b"open 4 1 1\nnew 0 0 1 scanned\nnew 0 1 1 scanned\nstore 0 0 0 0 1\nstore 0 1 0 0 0\nregister 0 0 normal 1 0\nregister 0 1 normal 2 0\nset 0 0 0\nset 0 1 0\ncollect\ncollect\ncollect\n" => b"ok\nnew 65536 0\nnew 65537 1\nok\nok\nreg 0\nreg 1\nok\nok\npass 1 picked 0 reclaimed 0\npass 2 picked 0 reclaimed 0\npass 3 picked 0 reclaimed 0\nend enqueued 0 finished 0 forfeited 0 in_hand 0 left 0\n"),
    // cycle-refusals:
    // Steps that are refused where no cycle is open, and where one is.
    row!(b"open 1 1 1\npause\nmark 1\nmark 0\nbegin\nbegin\ncollect\nmark 1\npause\ntake 1\n" => b"ok\nrefused 9 NoCycle\nrefused 9 NoCycle\nrefused 7 BadCount\nok\nrefused 8 CycleOpen\nrefused 8 CycleOpen\ndone\npass 1 picked 0 reclaimed 0\nrefused 16 SeatsMissing\nend enqueued 0 finished 0 forfeited 0 in_hand 0 left 0\n"),
    // dirty-second-page:
    // References change places behind the marker, on the second pages of two large objects: both objects stay.
    row!(b"open 8 1 1\nnew 0 0 66 scanned\nnew 0 1 66 scanned\nnew 0 2 1 scanned\nnew 0 3 1 scanned\nregister 0 2 normal 1 0\nregister 0 3 normal 1 0\nstore 0 1 64 0 2\nstore 0 0 64 0 3\nset 0 2 0\nset 0 3 0\nbegin\nmark 1\nload 0 1 64 0 2\nstore 0 0 65 0 2\nload 0 0 64 0 3\nstore 0 1 65 0 3\nset 0 2 0\nset 0 3 0\nstore 0 1 64 0 2\nstore 0 0 64 0 2\npause\n" => b"ok\nnew 65536 0\nnew 65664 1\nnew 65792 2\nnew 65793 3\nreg 0\nreg 1\nok\nok\nok\nok\nok\nmore\nword 65792\nok\nword 65793\nok\nok\nok\nok\nok\npass 1 picked 0 reclaimed 0\nend enqueued 0 finished 0 forfeited 0 in_hand 0 left 0\n"),
    // empty-file:
    row!(b"" => b"line 1 refused 15 BadLine\n", BadLine in line 1),
    // empty-heap:
    // A pass over nothing.
    row!(b"open 4 1 1\ncollect\ntake 0\n" => b"ok\npass 1 picked 0 reclaimed 0\nempty\nend enqueued 0 finished 0 forfeited 0 in_hand 0 left 0\n"),
    // forfeited-entry:
    // An entry that its worker gives up stays held for good.
    row!(b"open 4 1 1\nnew 0 0 1 scanned\nregister 0 0 no_order 1 0\nset 0 0 0\ncollect\ntake 0\ntake 0\nforfeit 0\nforfeit 0\ncollect\noutstanding\n" => b"ok\nnew 65536 0\nreg 0\nok\npass 1 picked 1 reclaimed 0\nentry 0 1 0 65536 0 1 0\nrefused 16 SeatsMissing\nok\nrefused 10 NotHeld\npass 2 picked 0 reclaimed 0\noutstanding 1\nend enqueued 1 finished 0 forfeited 1 in_hand 0 left 0\n"),
    // full-heap:
    // Sizes from 1 to 1,024 words, and a heap of one block that one object of 64 words fills. When the object is gone,
    // its block takes objects of another size and kind.
    row!(b"open 1 1 1\nnew 0 0 0 scanned\nnew 0 0 1025 scanned\nnew 0 0 64 scanned\nnew 0 1 1 scanned\nload 0 0 63 0 1\nload 0 0 64 0 1\nnew 0 16 1 scanned\ncollect\nset 0 0 0\ncollect\nnew 0 0 1 atomic\n" => b"ok\nrefused 4 BadSize\nrefused 4 BadSize\nnew 65536 0\nrefused 5 NoSpace\nword 0\nrefused 3 OutsideObject\nrefused 1 BadSlot\npass 1 picked 0 reclaimed 0\nok\npass 2 picked 0 reclaimed 1\nnew 65536 1\nend enqueued 0 finished 0 forfeited 0 in_hand 0 left 0\n"),
    // held-entries:
    // Two workers with an entry each. An object is kept until its entry is finished, and `hold` puts it into a slot.
    row!(b"open 4 1 2\nnew 0 0 1 scanned\nnew 0 1 2 scanned\nnew 0 2 3 scanned\nregister 0 0 normal 1 0\nregister 0 2 normal 2 0\nset 0 2 0\ncollect\nset 0 0 0\ncollect\ntake 0\ntake 1\noutstanding\nnew 0 3 3 scanned\nfinish 0\ncollect\nnew 0 4 3 scanned\nfinish 0\nhold 1 0 5\nfinish 1\ncollect\ntake 0\n" => b"ok\nnew 65536 0\nnew 65600 1\nnew 65664 2\nreg 0\nreg 1\nok\npass 1 picked 1 reclaimed 0\nok\npass 2 picked 1 reclaimed 0\nentry 0 1 1 65664 2 2 0\nentry 1 2 0 65536 0 1 0\noutstanding 2\nnew 65667 3\nok\npass 3 picked 0 reclaimed 1\nnew 65664 4\nrefused 10 NotHeld\nok\nok\npass 4 picked 0 reclaimed 0\nempty\nend enqueued 2 finished 2 forfeited 0 in_hand 0 left 0\n"),
    // interior-pointer:
    // A slot holds the address of the second word of an object. It keeps the object (pass 1), and offsets count
    // from that word, so offset 1 is past its end. One word further lies no object: pass 2 reclaims it.
    row!(b"open 4 1 1\nnew 0 0 2 scanned\nset 0 0 65537\ncollect\nload 0 0 0 0 1\nload 0 0 1 0 1\nset 0 0 65538\ncollect\n" => b"ok\nnew 65536 0\nok\npass 1 picked 0 reclaimed 0\nword 0\nrefused 3 OutsideObject\nok\npass 2 picked 0 reclaimed 1\nend enqueued 0 finished 0 forfeited 0 in_hand 0 left 0\n"),
    // large-objects:
    // Objects over 64 words take runs of whole blocks. A word in a later block of a run points to its object, and the rest
    // of the last block to nothing: the object stays while slot 5 holds 65600, its last word, and goes with 65601.
    row!(b"open 20 1 1\nnew 0 0 65 scanned\nnew 0 1 1 scanned\nnew 0 2 1024 atomic\nnew 0 3 65 scanned\nnew 0 3 1025 scanned\nnew 0 3 64 scanned\nload 0 2 1023 0 4\nload 0 2 1024 0 4\nset 0 5 65600\nset 0 0 0\ncollect\nset 0 5 65601\ncollect\nnew 0 0 65 atomic\n" => b"ok\nnew 65536 0\nnew 65664 1\nnew 65728 2\nrefused 5 NoSpace\nrefused 4 BadSize\nnew 66752 3\nword 0\nrefused 3 OutsideObject\nok\nok\npass 1 picked 0 reclaimed 0\nok\npass 2 picked 0 reclaimed 1\nnew 65536 4\nend enqueued 0 finished 0 forfeited 0 in_hand 0 left 0\n"),
    // large-size-and-full-heap:
    // A size that takes more blocks than there are is refused for lack of space, and so is an object in a heap that is full.
    row!(b"open 1 1 1\nnew 0 0 0 scanned\nnew 0 0 65 scanned\nnew 0 0 64 scanned\nnew 0 1 1 scanned\nload 0 0 63 0 1\nload 0 0 64 0 1\nnew 0 16 1 scanned\ncollect\nset 0 0 0\ncollect\nnew 0 0 1 atomic\n" => b"ok\nrefused 4 BadSize\nrefused 5 NoSpace\nnew 65536 0\nrefused 5 NoSpace\nword 0\nrefused 3 OutsideObject\nrefused 1 BadSlot\npass 1 picked 0 reclaimed 0\nok\npass 2 picked 0 reclaimed 1\nnew 65536 1\nend enqueued 0 finished 0 forfeited 0 in_hand 0 left 0\n"),
    // leading-zero:
    // A number has no leading zero.
    row!(b"open 1 1 1\nnew 0 0 01 scanned\n" => b"ok\nline 2 refused 15 BadLine\n", BadLine in line 2),
];

/// The others.
pub(crate) const LAST_SMALL: [Row; 16] = [
    // links:
    // Links are made, get a new target, move, and are removed. The pass sets the word of the link whose target is
    // dead to 0, and removes that link alone.
    row!(b"open 4 1 1\nnew 0 0 3 atomic\nnew 0 1 1 scanned\nnew 0 2 1 scanned\nlink short 0 0 0 0 1\nlink short 0 0 0 0 2\nlink short 0 0 1 0 1\nmove short 0 0 0 0 0 1\nmove short 0 0 0 0 0 0\nmove short 0 0 2 0 0 1\nmove short 0 0 0 0 0 2\nstore 0 0 2 0 2\nset 0 2 0\ncollect\nload 0 0 2 0 3\nunlink short 0 0 2\nunlink short 0 0 1\nunlink short 0 0 1\n" => b"ok\nnew 65536 0\nnew 65600 1\nnew 65601 2\nsuccess\nduplicate\nsuccess\nduplicate\nsuccess\nnotfound\nsuccess\nok\nok\npass 1 picked 0 reclaimed 1\nword 0\nfalse\ntrue\nfalse\nend enqueued 0 finished 0 forfeited 0 in_hand 0 left 0\n"),
    // no-blocks:
    // A world has a block.
    row!(b"open 0 1 1\n" => b"refused 7 BadCount\n", BadCount in line 1),
    // no-order-cycle:
    // Two no_order objects lead to one another. No order holds them up: one pass queues both, by address and
    // not in the order of their registrations, and two workers take them.
    row!(b"open 4 1 2\nnew 0 0 1 scanned\nnew 0 1 1 scanned\nstore 0 0 0 0 1\nstore 0 1 0 0 0\nregister 0 1 no_order 5 0\nregister 0 0 no_order 6 0\nset 0 0 0\nset 0 1 0\ncollect\ntake 0\ntake 1\n" => b"ok\nnew 65536 0\nnew 65537 1\nok\nok\nreg 0\nreg 1\nok\nok\npass 1 picked 2 reclaimed 0\nentry 0 1 1 65536 0 6 0\nentry 1 1 0 65537 1 5 0\nend enqueued 2 finished 0 forfeited 0 in_hand 2 left 0\n"),
    // no-order-leads-back:
    // As no-order-waits-for-normal, but the no_order object leads back. The normal object now leads to itself
    // on the way round: neither is ever queued.
    row!(b"open 4 1 1\nnew 0 0 1 scanned\nnew 0 1 1 scanned\nstore 0 0 0 0 1\nstore 0 1 0 0 0\nregister 0 0 normal 1 0\nregister 0 1 no_order 2 0\nset 0 0 0\nset 0 1 0\ncollect\ncollect\ntake 0\n" => b"ok\nnew 65536 0\nnew 65537 1\nok\nok\nreg 0\nreg 1\nok\nok\npass 1 picked 0 reclaimed 0\npass 2 picked 0 reclaimed 0\nempty\nend enqueued 0 finished 0 forfeited 0 in_hand 0 left 0\n"),
    // no-order-waits-for-normal:
    // A normal object leads to a no_order one. It needs what it leads to, so the no_order object waits.
    row!(b"open 4 1 1\nnew 0 0 1 scanned\nnew 0 1 1 scanned\nstore 0 0 0 0 1\nregister 0 0 normal 1 0\nregister 0 1 no_order 2 0\nset 0 0 0\nset 0 1 0\ncollect\ntake 0\n" => b"ok\nnew 65536 0\nnew 65537 1\nok\nreg 0\nreg 1\nok\nok\npass 1 picked 1 reclaimed 0\nentry 0 1 0 65536 0 1 0\nend enqueued 1 finished 0 forfeited 0 in_hand 1 left 0\n"),
    // numbers-at-the-limit:
    // The largest number, and the one after it.
    row!(b"open 4 1 1\nnew 0 0 1 scanned\nload 0 0 18446744073709551615 0 1\nstore 0 0 1 0 0\nset 0 1 18446744073709551615\ncopy 0 1 0 2\nregister 0 1 normal 1 0\nregister 18446744073709551615 0 normal 1 0\nbegin\nmark 18446744073709551615\npause\nset 0 0 18446744073709551616\n" => b"ok\nnew 65536 0\nrefused 3 OutsideObject\nrefused 3 OutsideObject\nok\nok\noutside\nrefused 1 BadSlot\nok\ndone\npass 1 picked 0 reclaimed 0\nline 12 refused 15 BadLine\n", BadLine in line 12),
    ONE_OBJECT,
    // rank-too-large:
    // The largest rank is 255.
    row!(b"open 4 1 1\nnew 0 0 1 scanned\nregister 0 0 normal 1 0 256\n" => b"ok\nnew 65536 0\nline 3 refused 15 BadLine\n", BadLine in line 3),
    // ranks:
    // Three dead objects, to which nothing leads: one pass queues all three, by rank, then address. The second has
    // no rank on its line, which means 0, and so it comes first. The other two share rank 9.
    row!(b"open 4 1 1\nnew 0 0 1 scanned\nnew 0 1 1 scanned\nnew 0 2 1 scanned\nregister 0 0 no_order 1 0 9\nregister 0 1 normal 2 0\nregister 0 2 normal 3 0 9\nset 0 0 0\nset 0 1 0\nset 0 2 0\ncollect\ntake 0\nfinish 0\ntake 0\nfinish 0\ntake 0\n" => b"ok\nnew 65536 0\nnew 65537 1\nnew 65538 2\nreg 0\nreg 1\nreg 2\nok\nok\nok\npass 1 picked 3 reclaimed 0\nentry 0 1 1 65537 1 2 0\nok\nentry 1 1 0 65536 0 1 0\nok\nentry 2 1 2 65538 2 3 0\nend enqueued 3 finished 2 forfeited 0 in_hand 1 left 0\n"),
    // replaced-registration:
    // A registration is replaced and removed, and both give back the old procedure and client data. Then words that
    // are no start of an object: 0 and the first word past the heap are outside, the second word of an object is
    // refused 6, a word of the heap where no object lies is refused 2.
    row!(b"open 4 1 1\nnew 0 0 2 scanned\nregister 0 0 normal 7 11\nregister 0 0 ignore_self 8 12\nunregister 0 0\nunregister 0 0\nregister 0 1 normal 9 0\nset 0 1 65537\nregister 0 1 normal 9 0\nset 0 1 65600\nregister 0 1 normal 9 0\nset 0 1 65792\nregister 0 1 normal 9 0\nregister 0 0 normal 9 0\nset 0 0 0\ncollect\ntake 0\n" => b"ok\nnew 65536 0\nreg 0\nreg 1 old 7 11\nold 8 12\nnone\noutside\nok\nrefused 6 NotStart\nok\nrefused 2 NotPointer\nok\noutside\nreg 2\nok\npass 1 picked 1 reclaimed 0\nentry 0 1 2 65536 0 9 0\nend enqueued 1 finished 0 forfeited 0 in_hand 1 left 0\n"),
    // resurrected:
    // A finalizer puts its object back into a slot by `hold`, and registers it again, which is a new registration. What the
    // pass did before stays: the short link is gone, and its word is 0. The long link has seen the object come back.
    row!(b"open 4 1 1\nnew 0 0 2 atomic\nnew 0 1 1 scanned\nstore 0 0 0 0 1\nstore 0 0 1 0 1\nlink short 0 0 0 0 1\nlink long 0 0 1 0 1\nregister 0 1 normal 1 0\nset 0 1 0\ncollect\ntake 0\nhold 0 0 1\nregister 0 1 normal 1 0\nfinish 0\ncollect\nload 0 0 0 0 2\nload 0 0 1 0 2\nset 0 2 0\nset 0 1 0\ncollect\ntake 0\nfinish 0\ncollect\nload 0 0 1 0 2\n" => b"ok\nnew 65536 0\nnew 65600 1\nok\nok\nsuccess\nsuccess\nreg 0\nok\npass 1 picked 1 reclaimed 0\nentry 0 1 0 65600 1 1 0\nok\nreg 1\nok\npass 2 picked 0 reclaimed 0\nword 0\nword 65600\nok\nok\npass 3 picked 1 reclaimed 0\nentry 1 3 1 65600 1 1 0\nok\npass 4 picked 0 reclaimed 1\nword 0\nend enqueued 2 finished 2 forfeited 0 in_hand 0 left 0\n"),
    // self-reference:
    // Four objects. The first leads to itself and is normal, so it waits for itself. The second leads to itself
    // and ignores that: pass 1 queues it. The last two lead to one another: ignore_self helps against a direct
    // reference alone, so the third waits.
    row!(b"open 4 1 1\nnew 0 0 1 scanned\nnew 0 1 1 scanned\nnew 0 2 1 scanned\nnew 0 3 1 scanned\nstore 0 0 0 0 0\nstore 0 1 0 0 1\nstore 0 2 0 0 3\nstore 0 3 0 0 2\nregister 0 0 normal 1 0\nregister 0 1 ignore_self 2 0\nregister 0 2 ignore_self 3 0\nset 0 0 0\nset 0 1 0\nset 0 2 0\nset 0 3 0\ncollect\ntake 0\nfinish 0\ncollect\n" => b"ok\nnew 65536 0\nnew 65537 1\nnew 65538 2\nnew 65539 3\nok\nok\nok\nok\nreg 0\nreg 1\nreg 2\nok\nok\nok\nok\npass 1 picked 1 reclaimed 0\nentry 0 1 1 65537 1 2 0\nok\npass 2 picked 0 reclaimed 1\nend enqueued 1 finished 1 forfeited 0 in_hand 0 left 0\n"),
    // short-and-long-links:
    // A short link is cleared once its target is unreachable, and a long one only when nothing keeps the target.
    row!(b"open 4 1 1\nnew 0 0 2 atomic\nnew 0 1 1 scanned\nstore 0 0 0 0 1\nstore 0 0 1 0 1\nlink short 0 0 0 0 1\nlink long 0 0 1 0 1\nregister 0 1 normal 1 0\nset 0 1 0\ncollect\nload 0 0 0 0 2\nload 0 0 1 0 1\ntake 0\nfinish 0\ncollect\nload 0 0 1 0 1\nset 0 1 0\ncollect\nload 0 0 1 0 1\nunlink long 0 0 1\n" => b"ok\nnew 65536 0\nnew 65600 1\nok\nok\nsuccess\nsuccess\nreg 0\nok\npass 1 picked 1 reclaimed 0\nword 0\nword 65600\nentry 0 1 0 65600 1 1 0\nok\npass 2 picked 0 reclaimed 0\nword 65600\nok\npass 3 picked 0 reclaimed 1\nword 0\nfalse\nend enqueued 1 finished 1 forfeited 0 in_hand 0 left 0\n"),
    // swept-cell-reused:
    // Nothing points to a reclaimed object any more, and its block takes objects of another size.
    row!(b"open 2 1 1\nnew 0 0 1 scanned\nnew 0 1 1 scanned\nstore 0 1 0 0 0\nset 0 0 0\nset 0 1 0\ncollect\nset 0 2 65537\nload 0 2 0 0 3\nregister 0 2 normal 1 0\nnew 0 0 64 atomic\nload 0 2 0 0 3\nnew 0 1 1 scanned\ncollect\n" => b"ok\nnew 65536 0\nnew 65537 1\nok\nok\nok\npass 1 picked 0 reclaimed 2\nok\nrefused 2 NotPointer\nrefused 2 NotPointer\nnew 65536 2\nword 0\nnew 65600 3\npass 2 picked 0 reclaimed 0\nend enqueued 0 finished 0 forfeited 0 in_hand 0 left 0\n"),
    TWO_IN_ORDER,
    // value-leads-to-its-key:
    // Two weak maps with an entry each, whose keys are short links in atomic objects. The first map has the value in an
    // object of its own, and the value leads to its key: neither is ever reclaimed. The second map's value is in the key:
    // both are lost with the last other reference to the key.
    row!(b"open 8 1 1\nnew 0 0 1 atomic\nnew 0 1 1 scanned\nnew 0 2 1 scanned\nnew 0 3 1 scanned\nstore 0 3 0 0 2\nstore 0 0 0 0 2\nlink short 0 0 0 0 2\nstore 0 1 0 0 3\nset 0 2 0\nset 0 3 0\ncollect\nload 0 0 0 0 5\nset 0 5 0\nnew 0 4 1 atomic\nnew 0 2 1 scanned\nnew 0 3 1 scanned\nstore 0 3 0 0 2\nstore 0 2 0 0 3\nstore 0 4 0 0 2\nlink short 0 4 0 0 2\nset 0 2 0\nset 0 3 0\ncollect\nload 0 4 0 0 5\n" => b"ok\nnew 65536 0\nnew 65600 1\nnew 65601 2\nnew 65602 3\nok\nok\nsuccess\nok\nok\nok\npass 1 picked 0 reclaimed 0\nword 65601\nok\nnew 65537 4\nnew 65603 5\nnew 65604 6\nok\nok\nok\nsuccess\nok\nok\npass 2 picked 0 reclaimed 2\nword 0\nend enqueued 0 finished 0 forfeited 0 in_hand 0 left 0\n"),
];

/// Those over the largest world.
pub(crate) const LARGE: [Row; 2] = [
    // eight-workers:
    // Eight frames and eight workers: twelve entries are queued, each worker takes one, and four are left.
    row!(b"open 4096 8 8\nnew 0 15 1 scanned\nregister 0 15 normal 100 0\nset 0 15 0\nnew 1 15 1 scanned\nregister 1 15 ignore_self 101 0\nset 1 15 0\nnew 2 15 1 scanned\nregister 2 15 no_order 102 0\nset 2 15 0\nnew 3 15 1 scanned\nregister 3 15 normal 103 0\nset 3 15 0\nnew 4 15 1 scanned\nregister 4 15 ignore_self 104 0\nset 4 15 0\nnew 5 15 1 scanned\nregister 5 15 no_order 105 0\nset 5 15 0\nnew 6 15 1 scanned\nregister 6 15 normal 106 0\nset 6 15 0\nnew 7 15 1 scanned\nregister 7 15 ignore_self 107 0\nset 7 15 0\nnew 0 14 1 scanned\nregister 0 14 no_order 108 0\nset 0 14 0\nnew 1 14 1 scanned\nregister 1 14 normal 109 0\nset 1 14 0\nnew 2 14 1 scanned\nregister 2 14 ignore_self 110 0\nset 2 14 0\nnew 3 14 1 scanned\nregister 3 14 no_order 111 0\nset 3 14 0\nnew 8 0 1 scanned\nnew 7 16 1 scanned\ncollect\ntake 0\ntake 1\ntake 2\ntake 3\ntake 4\ntake 5\ntake 6\ntake 7\ntake 7\ntake 8\ncollect\nfinish 7\nfinish 7\ncollect\n" => b"ok\nnew 65536 0\nreg 0\nok\nnew 65537 1\nreg 1\nok\nnew 65538 2\nreg 2\nok\nnew 65539 3\nreg 3\nok\nnew 65540 4\nreg 4\nok\nnew 65541 5\nreg 5\nok\nnew 65542 6\nreg 6\nok\nnew 65543 7\nreg 7\nok\nnew 65544 8\nreg 8\nok\nnew 65545 9\nreg 9\nok\nnew 65546 10\nreg 10\nok\nnew 65547 11\nreg 11\nok\nrefused 1 BadSlot\nrefused 1 BadSlot\npass 1 picked 12 reclaimed 0\nentry 0 1 0 65536 0 100 0\nentry 1 1 1 65537 1 101 0\nentry 2 1 2 65538 2 102 0\nentry 3 1 3 65539 3 103 0\nentry 4 1 4 65540 4 104 0\nentry 5 1 5 65541 5 105 0\nentry 6 1 6 65542 6 106 0\nentry 7 1 7 65543 7 107 0\nrefused 16 SeatsMissing\nrefused 16 SeatsMissing\npass 2 picked 0 reclaimed 0\nok\nrefused 10 NotHeld\npass 3 picked 0 reclaimed 1\nend enqueued 12 finished 1 forfeited 0 in_hand 7 left 4\n"),
    // last-frame-and-slot:
    // The last slot of the last frame, the largest object, and the last worker, in the largest world.
    row!(b"open 4096 8 8\nnew 7 15 64 scanned\nregister 7 15 ignore_self 18446744073709551615 1\nload 7 15 63 0 0\nload 7 15 64 0 0\ncopy 7 15 6 0\nset 7 15 0\ncollect\nset 6 0 0\ncollect\ntake 7\nfinish 7\ntake 7\ncollect\n" => b"ok\nnew 65536 0\nreg 0\nword 0\nrefused 3 OutsideObject\nok\nok\npass 1 picked 0 reclaimed 0\nok\npass 2 picked 1 reclaimed 0\nentry 0 2 0 65536 0 18446744073709551615 1\nok\nempty\npass 3 picked 0 reclaimed 1\nend enqueued 1 finished 1 forfeited 0 in_hand 0 left 0\n"),
];
