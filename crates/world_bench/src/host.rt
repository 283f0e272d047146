//! Benchmarks of finalizers over a heap of records, called by a C program that times them.

use fz_finalizers::{Finalizer, Kind, LinkKind, Refused};
use own_heap::{FIELDS, Field, RecordId, Runtime};
use std::alloc::Global;

/// What a run does with its heap, in this order.
#[repr(C)]
#[derive(Clone, Copy)]
pub struct HostPlan {
    /// How many records it makes.
    pub records: u32,
    /// Whether each record is a root.
    pub live: bool,
    /// How many finalizers it registers, for the records that `order` names.
    pub registered: u64,
    /// How many short links it registers, each from a field of the next record to the next record that `order` names.
    pub linked: u64,
    /// Whether it only looks these records up, and registers nothing.
    pub only_looks: bool,
    /// How many times it collects.
    pub collections: u64,
    /// How many entries it takes and finishes.
    pub finished: u64,
}

/// What the calls of a run returned, so that C can check that they did what the plan says.
#[repr(C)]
#[derive(Clone, Copy)]
pub struct HostOutcome {
    /// The sum of the registrations' numbers.
    pub numbers: u64,
    /// How many entries the collections queued.
    pub queued: u64,
    /// The sum of the objects in the finished entries.
    pub finished: u64,
    /// Whether every call succeeded. If not, the other fields have no meaning.
    pub done: bool,
}

/// Carries out the plan over a new heap, which it drops at the end. `order` names as many records, by index, as the plan registers or links.
#[unsafe(no_mangle)]
pub extern "C" fn host_bench_run(alloc: Global, plan: &HostPlan, order: &[u64]) -> HostOutcome {
    match run(alloc, plan, order) {
        Ok(outcome) => outcome,
        Err(_) => HostOutcome {
            numbers: 0,
            queued: 0,
            finished: 0,
            done: false,
        },
    }
}

fn run(alloc: Global, plan: &HostPlan, order: &[u64]) -> Result<HostOutcome, Refused> {
    let mut runtime = Runtime::new(alloc, plan.records)?;
    runtime.reserve(plan.records as usize, plan.records as usize, 0)?;
    let ids = make(alloc, &mut runtime, plan)?;
    let numbers = register(&mut runtime, plan, ids.as_slice(), order)?;
    link(&mut runtime, plan, ids.as_slice(), order)?;
    let queued = collect(&mut runtime, plan.collections);
    let finished = finish(&mut runtime, plan.finished)?;
    Ok(HostOutcome {
        numbers,
        queued,
        finished,
        done: true,
    })
}

/// Makes the records, and returns their names by index.
fn make(alloc: Global, runtime: &mut Runtime, plan: &HostPlan) -> Result<Vec<RecordId>, Refused> {
    let mut ids = Vec::new(alloc);
    for _ in 0..plan.records {
        let Some(id) = runtime.make([Field::Nothing; FIELDS]) else {
            return Err(Refused::Full);
        };
        if plan.live {
            runtime.add_root(id)?;
        }
        ids.push(id).map_err(|_| Refused::NoMemory)?;
    }
    Ok(ids)
}

/// The record at this position of `order`.
fn named(ids: &[RecordId], order: &[u64], place: u64) -> Result<RecordId, Refused> {
    let index = *order.get(place as usize).ok_or(Refused::Zero)?;
    ids.get(index as usize).copied().ok_or(Refused::Zero)
}

/// Registers finalizers. Returns the sum of the registration numbers.
fn register(
    runtime: &mut Runtime,
    plan: &HostPlan,
    ids: &[RecordId],
    order: &[u64],
) -> Result<u64, Refused> {
    let mut sum = 0u64;
    for place in 0..plan.registered {
        let finalizer = Finalizer {
            kind: Kind::Normal,
            procedure: place,
            client_data: 0,
            rank: 0,
        };
        let id = named(ids, order, place)?;
        if runtime.heap().get(id).is_some() && !plan.only_looks {
            let (number, _) = runtime.register(id, finalizer)?;
            sum = sum.wrapping_add(number);
        }
    }
    Ok(sum)
}

/// Registers links, each from the first field of the next record.
fn link(
    runtime: &mut Runtime,
    plan: &HostPlan,
    ids: &[RecordId],
    order: &[u64],
) -> Result<(), Refused> {
    for place in 0..plan.linked {
        let target = named(ids, order, place)?;
        let holder = *ids.get(place as usize).ok_or(Refused::Zero)?;
        if runtime.heap().get(target).is_some() && !plan.only_looks {
            runtime.link(LinkKind::Short, holder.word(0), target)?;
        }
    }
    Ok(())
}

/// Collects this many times. Returns how many entries were queued.
fn collect(runtime: &mut Runtime, collections: u64) -> u64 {
    let mut queued = 0u64;
    for _ in 0..collections {
        queued = queued.wrapping_add(runtime.collect().picked);
    }
    queued
}

/// Takes and finishes this many entries, or fewer if fewer wait. Returns the sum of their objects.
fn finish(runtime: &mut Runtime, count: u64) -> Result<u64, Refused> {
    let mut sum = 0u64;
    for _ in 0..count {
        let Some(entry) = runtime.take() else {
            break;
        };
        sum = sum.wrapping_add(entry.obj);
        runtime.finish(&entry)?;
    }
    Ok(sum)
}
