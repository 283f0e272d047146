//! Worked rows: why records aren't finalized, before and after collections.

use crate::hosts::why::steps::{Step, Told, carry_out, heap_of};
use fz_finalizers::{Kind, LinkKind};
use fz_why::RootOf;
use std::alloc::Global;
use std::process::Abort;
use std::test::*;

const NORMAL: Kind = Kind::Normal;

const A_CHILD_WAITS_FOR_ITS_PARENT: [Step; 14] = [
    Step::Refer(0, 0, 1),
    Step::Root(0),
    Step::Register(0, NORMAL, None),
    Step::Register(1, NORMAL, None),
    Step::Tells(1, Told::Found(RootOf::Host(0)), &[0, 1]),
    Step::Unroot,
    Step::Tells(0, Told::Ready, &[]),
    Step::Tells(1, Told::Waits, &[0, 1]),
    Step::Collect(1),
    Step::Tells(0, Told::Queued(0), &[]),
    Step::Tells(1, Told::Found(RootOf::HeldObject(0)), &[0, 1]),
    Step::Finish(0),
    Step::Tells(0, Told::Unregistered, &[]),
    Step::Tells(1, Told::Ready, &[]),
];

const A_RING_OF_ONE_MAY_BE_IGNORED: [Step; 12] = [
    Step::Refer(0, 0, 0),
    Step::Refer(0, 1, 1),
    Step::Register(1, Kind::NoOrder, None),
    Step::Stuck(&[]),
    Step::Register(0, NORMAL, None),
    Step::Tells(0, Told::Ring, &[0, 0]),
    Step::Stuck(&[1, 0]),
    Step::Collect(0),
    Step::Tells(0, Told::Ring, &[0, 0]),
    Step::Register(0, Kind::IgnoreSelf, None),
    Step::Tells(0, Told::Ready, &[]),
    Step::Collect(1),
];

const OWN_CLIENT_DATA_RETAINS: [Step; 4] = [
    Step::Refer(1, 0, 0),
    Step::Register(0, NORMAL, Some(1)),
    Step::Tells(0, Told::Found(RootOf::RegisteredData(0)), &[1, 0]),
    Step::Collect(0),
];

const THE_FIRST_STEPS_OF_A_NORMAL_ONE_COUNT: [Step; 9] = [
    Step::Refer(0, 0, 1),
    Step::Refer(1, 0, 0),
    Step::Register(0, NORMAL, None),
    Step::Register(1, Kind::NoOrder, None),
    Step::Tells(0, Told::Ring, &[0, 1, 0]),
    Step::Tells(1, Told::Waits, &[0, 1]),
    Step::Stuck(&[0, 1]),
    Step::Root(1),
    Step::Stuck(&[]),
];

const AN_UNREACHABLE_ONE_WAITS_FOR_ALL: [Step; 9] = [
    Step::Refer(0, 0, 1),
    Step::Register(0, Kind::NoOrder, None),
    Step::Register(1, NORMAL, None),
    Step::Tells(0, Told::Ready, &[]),
    Step::Tells(1, Told::Ready, &[]),
    Step::Register(1, Kind::Unreachable, None),
    Step::Tells(1, Told::Waits, &[0, 1]),
    Step::Stuck(&[]),
    Step::Collect(1),
];

const A_DEAD_SHORT_LINK_CUTS_A_RING: [Step; 8] = [
    Step::Refer(0, 0, 1),
    Step::Refer(1, 0, 0),
    Step::Register(0, NORMAL, None),
    Step::Register(1, NORMAL, None),
    Step::Link(0, 0, 1),
    Step::Tells(1, Told::Ready, &[]),
    Step::Tells(0, Told::Waits, &[1, 0]),
    Step::Collect(1),
];

const A_LINK_OUTSIDE_OF_THE_HEAP_CUTS_NO_RING: [Step; 8] = [
    Step::Refer(0, 0, 1),
    Step::Refer(1, 0, 0),
    Step::Register(0, NORMAL, None),
    Step::LinkOutside(0),
    Step::LinkOutside(1),
    Step::Tells(0, Told::Ring, &[0, 1, 0]),
    Step::Tells(1, Told::Unregistered, &[]),
    Step::Collect(0),
];

const A_VALUE_IS_RETAINED_BY_KEY_AND_HOLDER: [Step; 9] = [
    Step::Hide(0, 0, 2),
    Step::Keyed(LinkKind::Short, 0, 0, 1),
    Step::Register(2, NORMAL, None),
    Step::Root(0),
    Step::Root(1),
    Step::Tells(2, Told::Found(RootOf::Host(0)), &[0, 2]),
    Step::Unroot,
    Step::Tells(2, Told::Ready, &[]),
    Step::Collect(1),
];

const A_KEY_IS_NOT_RETAINED_BY_ITS_VALUE: [Step; 8] = [
    Step::Root(0),
    Step::Hide(0, 0, 2),
    Step::Keyed(LinkKind::Long, 0, 0, 1),
    Step::Refer(2, 0, 1),
    Step::Register(1, NORMAL, None),
    Step::Tells(1, Told::Ready, &[]),
    Step::Stuck(&[]),
    Step::Collect(1),
];

/// A value with a finalizer reaches its own key. The holder is reachable, and has the value of another row of this key.
const A_RING_GOES_THROUGH_A_VALUE: [Step; 14] = [
    Step::Root(0),
    Step::Hide(0, 0, 2),
    Step::Hide(0, 1, 3),
    Step::Keyed(LinkKind::Long, 0, 0, 1),
    Step::Keyed(LinkKind::Long, 0, 1, 1),
    Step::Refer(2, 0, 1),
    Step::Register(2, NORMAL, None),
    Step::Register(3, NORMAL, None),
    Step::Tells(2, Told::Ring, &[2, 1, 2]),
    Step::Tells(3, Told::Waits, &[2, 1, 3]),
    Step::Stuck(&[2, 3]),
    Step::Collect(0),
    Step::Keyed(LinkKind::Short, 0, 0, 1),
    Step::Collect(1),
];

/// One object reaches the key, and another the holder.
const TWO_HOLD_A_VALUE_BACK: [Step; 9] = [
    Step::Refer(0, 0, 2),
    Step::Refer(1, 0, 3),
    Step::Hide(3, 0, 4),
    Step::Keyed(LinkKind::Long, 3, 0, 2),
    Step::Register(0, NORMAL, None),
    Step::Register(4, NORMAL, None),
    Step::Tells(4, Told::Ready, &[]),
    Step::Register(1, NORMAL, None),
    Step::Tells(4, Told::Waits, &[1, 3, 4]),
];

/// The object reaches the holder itself: it is on no ring, since another one reaches the key.
const ANOTHER_REACHES_THE_KEY: [Step; 9] = [
    Step::Refer(4, 0, 3),
    Step::Refer(0, 0, 2),
    Step::Hide(3, 0, 4),
    Step::Keyed(LinkKind::Long, 3, 0, 2),
    Step::Register(4, NORMAL, None),
    Step::Register(0, NORMAL, None),
    Step::Tells(4, Told::Waits, &[0, 2, 4]),
    Step::Stuck(&[]),
    Step::Collect(1),
];

const AN_UNREACHABLE_ONE_WAITS_FOR_ITS_KEY: [Step; 8] = [
    Step::Root(0),
    Step::Hide(0, 0, 2),
    Step::Keyed(LinkKind::Long, 0, 0, 1),
    Step::Register(1, Kind::NoOrder, None),
    Step::Register(2, NORMAL, None),
    Step::Tells(2, Told::Ready, &[]),
    Step::Register(2, Kind::Unreachable, None),
    Step::Tells(2, Told::Waits, &[1, 2]),
];

/// The client data of a cleanup reaches the record that has it, and no finalizer.
const DATA_OF_A_CLEANUP_RETAINS: [Step; 8] = [
    Step::Refer(1, 0, 0),
    Step::Attach(0, LinkKind::Long, Some(1)),
    Step::Collect(0),
    Step::Tells(0, Told::Found(RootOf::CleanupData(0)), &[1, 0]),
    Step::Tells(1, Told::Unregistered, &[]),
    Step::Cancel(0),
    Step::Tells(0, Told::Unregistered, &[]),
    Step::Collect(0),
];

/// A record that has a cleanup is told as one that has nothing, unless it is reachable or has a finalizer.
const CLEANUPS_AND_A_FINALIZER: [Step; 9] = [
    Step::Attach(0, LinkKind::Short, None),
    Step::Tells(0, Told::Unregistered, &[]),
    Step::Root(0),
    Step::Tells(0, Told::Found(RootOf::Host(0)), &[0]),
    Step::Register(0, NORMAL, None),
    Step::Unroot,
    Step::Tells(0, Told::Ready, &[]),
    Step::Collect(2),
    Step::Tells(0, Told::Queued(1), &[]),
];

const ROWS: [&[Step]; 15] = [
    &A_CHILD_WAITS_FOR_ITS_PARENT,
    &A_RING_OF_ONE_MAY_BE_IGNORED,
    &OWN_CLIENT_DATA_RETAINS,
    &THE_FIRST_STEPS_OF_A_NORMAL_ONE_COUNT,
    &AN_UNREACHABLE_ONE_WAITS_FOR_ALL,
    &A_DEAD_SHORT_LINK_CUTS_A_RING,
    &A_LINK_OUTSIDE_OF_THE_HEAP_CUTS_NO_RING,
    &A_VALUE_IS_RETAINED_BY_KEY_AND_HOLDER,
    &A_KEY_IS_NOT_RETAINED_BY_ITS_VALUE,
    &A_RING_GOES_THROUGH_A_VALUE,
    &TWO_HOLD_A_VALUE_BACK,
    &ANOTHER_REACHES_THE_KEY,
    &AN_UNREACHABLE_ONE_WAITS_FOR_ITS_KEY,
    &DATA_OF_A_CLEANUP_RETAINS,
    &CLEANUPS_AND_A_FINALIZER,
];

/// The steps of a row are carried out in a new heap of five records.
fn carry_out_all(rt: &impl Abort, alloc: Global, steps: &[Step]) {
    let mut all = heap_of(rt, alloc, 5);
    for step in steps {
        carry_out(rt, &mut all, *step);
    }
}

#[test]
fn reasons_of_worked_rows(rt: HostRuntime) {
    for steps in ROWS {
        carry_out_all(&rt, rt.alloc(), steps);
    }
}
