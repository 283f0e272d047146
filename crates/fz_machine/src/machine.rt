//! Finalizers whose pass asks questions, and their parts.

ghost use Rattle.std.specs.Prelude.{◌≡◌, ◌<◌, None, is_some, length, [], IsTrue, IsFalse, IfOk, IfErr};
ghost use Rattle.fz_finalizers.specs.States.{opening};
ghost use Rattle.fz_machine.specs.Going.{noted_by};
ghost use Rattle.fz_machine.specs.Machines.{by_none, none_tabled};

use crate::phase::Phase;
use crate::regions::Regions;
use crate::tables::{asks, tables};
use crate::walk::Walk;
use fz_finalizers::{Finalizers, Refused};
use fz_table::AddressHasher;
use std::alloc::Global;
use std::marker::Model;

/// Which questions about regions a pass asks.
#[derive(Clone, Copy, Debug, PartialEq, Eq)]
pub struct By {
    /// `Ask::Marks`, about registered objects, targets of links, and objects of cleanups.
    pub marks: bool,
    /// `Ask::Live`, about words of links.
    pub live: bool,
}

/// Finalizers whose pass asks one question after another: for a host that has no contract, as `asked_heap`, or that can't be called back, as one in C.
///
/// A pass is open from `begin` until `next` returns that it has ended. Meanwhile entries can be taken and finished, and keys told; every other change is
/// refused.
pub struct Machine {
    pub(crate) finalizers: Finalizers,
    pub(crate) walk: Walk,
    /// The regions of each sweep.
    pub(crate) tables: Vec<Regions>,
    /// Which sweeps ask about regions.
    pub(crate) by: By,
    pub(crate) phase: Option<Phase>,
    /// How many items the last question was about: none if it was about regions.
    pub(crate) asked: usize,
    /// How many entries had been queued when the pass began.
    pub(crate) before: u64,
    /// The least number of the registrations and cleanups that a pass looks at.
    pub(crate) from: u64,
}

// Written by hand, so that the owner drops it by one proved call, not field by field at each exit of a function.
impl Drop for Machine {
    fn drop(self) {
        let Machine {
            finalizers: _,
            walk: _,
            tables: _,
            by: _,
            phase: _,
            asked: _,
            before: _,
            from: _,
        } = self;
    }
}

impl Model for Machine {
    ghost use Rattle.std.specs.Prelude.{length, map, take};
    ghost use Rattle.fz_machine.specs.Machines.{Machine, machine_code};
    ghost use Rattle.fz_machine.specs.Going.{AsksNone, IsInOrder, Lacks, asked_in, left_in, told_in};
    ghost use Rattle.fz_machine.specs.Regions.{Regions};

    ghost Value = { Machine };

    ghost coded = { machine_code };

    ghost view = { λ m. record {
      finalizers = m.finalizers;
      walk = m.walk;
      phase = m.phase;
      asked = m.asked;
      before = m.before;
      from = m.from;
      told = told_in m.tables.items m.phase;
      remaining = length (left_in m.tables.items m.phase);
      regions = take (asked_in m.tables.items m.phase) (left_in m.tables.items m.phase);
      by = m.by;
      noted = map (λ (t : Regions). t.complete) m.tables.items;
      tabled = map (λ (t : Regions). length t.order) m.tables.items;
    } };

    ghost invariant = { λ m. IsInOrder m.finalizers.state m.walk m.tables.items m.phase × AsksNone m.phase m.asked × Lacks m.phase m.tables.items };
}

/// The hash of the addresses of objects, or of words. A host with marks by regions has addresses in memory, or other numbers that are far apart.
fn hasher_for(by_regions: bool) -> AddressHasher {
    if by_regions {
        AddressHasher::of_words()
    } else {
        AddressHasher::new()
    }
}

impl Machine {
    /// Finalizers without registrations, and without an open pass. Fails with `NoMemory` if an allocation fails.
    pub fn new(alloc: Global) -> Result<Machine, Refused>
        ensures refused { IfErr result (λ r. r ≡ Refused.NoMemory) }
        ensures finalizers { IfOk result (λ m. m.finalizers.state ≡ opening) }
        ensures phase { IfOk result (λ m. m.phase ≡ None) }
        ensures noted { IfOk result (λ m. (m.by ≡ by_none) × (m.noted ≡ noted_by by_none)) }
        ensures tabled { IfOk result (λ m. m.tabled ≡ none_tabled) }
    {
        Machine::with_regions(
            alloc,
            By {
                marks: false,
                live: false,
            },
        )
    }

    /// The same, but a pass asks about regions: by `Ask::Marks` before it asks about registered objects, targets of links or objects of cleanups, and by
    /// `Ask::Live` before it asks about words of links. It asks about nothing else of these: so it takes time for each of their regions, and for each of them
    /// that isn't marked; and if any isn't, a walk over the table of its kind. A registration, a link or a cleanup may take memory for its regions, too. If
    /// that can't be allocated, the call succeeds, and from then on passes ask about each of this kind, until `shrink` finds memory for the regions. Fails with
    /// `NoMemory` if an allocation fails.
    pub fn with_regions(alloc: Global, by: By) -> Result<Machine, Refused>
        ensures refused { IfErr result (λ r. r ≡ Refused.NoMemory) }
        ensures finalizers { IfOk result (λ m. m.finalizers.state ≡ opening) }
        ensures phase { IfOk result (λ m. m.phase ≡ None) }
        ensures noted { IfOk result (λ m. (m.by ≡ by) × (m.noted ≡ noted_by by)) }
        ensures tabled { IfOk result (λ m. m.tabled ≡ none_tabled) }
    {
        let finalizers = Finalizers::with_hashers(
            alloc,
            hasher_for(by.marks),
            hasher_for(by.live),
        )?;
        let tables = tables(alloc, by)?;
        Ok(Machine {
            finalizers,
            walk: Walk::new(alloc),
            tables,
            by,
            phase: None,
            asked: 0,
            before: 0,
            from: 0,
        })
    }

    /// The finalizers, which may be read while a pass is open.
    pub fn finalizers(&self) -> &Finalizers
        ensures { result.now ≡ self.now.finalizers }
    {
        &self.finalizers
    }

    /// Whether the last question was about regions: then only `next_marks` takes its answers, and else `next` or `next_bits` does.
    pub fn asks_marks(&self) -> bool
        ensures items { IsFalse result → self.now.regions ≡ [] }
        ensures regions { IsTrue result → (self.now.asked ≡ 0) × (0 < length self.now.regions) }
    {
        match self.phase {
            Some(Phase::Regions(sweep)) => asks(&self.tables, sweep),
            _ => false,
        }
    }

    /// Whether a pass is open.
    pub fn is_open(&self) -> bool
        ensures { result ≡ is_some self.now.phase }
    {
        self.phase.is_some()
    }
}
