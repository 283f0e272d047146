//! asked_heap: a small heap of its own, which a pass asks one question after another, and the finalizers of its objects.
#![tactic(auto)]

mod heap;

use crate::heap::Heap;
use anyhow::Result;
use fz_finalizers::{Finalizer, Kind, LinkKind, Passed, Root};
use fz_machine::{BATCH, Machine, Next, Refused};

/// Marks, makes a pass, and reclaims what isn't marked.
fn collect(heap: &mut Heap, machine: &mut Machine) -> Result<Passed, Refused> {
    heap.mark_roots();
    for sort in [Root::HeldObject, Root::HeldData, Root::RegisteredData].iter() {
        for object in machine.finalizers().roots(*sort) {
            heap.mark(object);
        }
    }
    machine.begin()?;
    let mut answers = [false; BATCH];
    // A host that answers reaches the end of the pass long before this bound.
    for _ in 0..u64::MAX {
        match machine.next(&answers)? {
            Next::Asks(question) => answers = heap.answers(&question),
            Next::Ended(passed) => {
                heap.sweep();
                return Ok(passed);
            }
        }
    }
    Err(Refused::NoPass)
}

/// A finalizer that gets no client data.
fn finalizer(procedure: u64) -> Finalizer {
    Finalizer {
        kind: Kind::Normal,
        procedure,
        client_data: 0,
        rank: 0,
    }
}

fn main(rt: HostRuntime) -> Result<()> {
    let mut heap = Heap::new();
    let mut machine = Machine::new(rt.alloc())?;
    // The root is object 1, which points to object 2. Both have a finalizer, and the weak word is a long link to object 2.
    heap.set_root(1);
    heap.set(1, 2);
    machine.register(1, finalizer(10))?;
    machine.register(2, finalizer(20))?;
    machine.link(LinkKind::Long, heap.set_weak(2), 2)?;
    for round in 0..4 {
        if round == 1 {
            heap.set_root(0);
        }
        let passed = collect(&mut heap, &mut machine)?;
        println!(rt;
            "pass {}: {} objects, weak word {}",
            passed.pass,
            heap.live(),
            heap.weak()
        )?;
        for _ in 0..machine.finalizers().waiting() {
            let Some(entry) = machine.take() else {
                break;
            };
            println!(rt; "procedure {} of object {}", entry.proc, entry.obj)?;
            machine.finish(&entry)?;
        }
    }
    Ok(())
}
