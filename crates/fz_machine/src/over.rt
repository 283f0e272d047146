//! A pass over a host that can be called.

ghost use Rattle.std.specs.Prelude.{◌≡◌, ◌≤◌, ◌<◌, ◌+◌, [], ℕ, List, take, length, slice_index_or, None, Some, All, IfErr, IfOk, IsTrue, OnErr, OnOk};
ghost use Rattle.fz_finalizers.specs.Follows.{next_pass};
ghost use Rattle.fz_finalizers.specs.Passed.{PassesWhole};
ghost use Rattle.fz_finalizers.specs.Promises.{IsReached, Past};
ghost use Rattle.fz_pass.specs.Marks.{IsClosed};
ghost use Rattle.fz_machine.specs.declared.item.Item.{Item};
ghost use Rattle.fz_machine.specs.declared.pass.Next.{Next};
ghost use Rattle.fz_machine.specs.declared.phase.Phase.{Phase};
ghost use Rattle.fz_machine.specs.Causes.{IsJudgedBy};
ghost use Rattle.fz_machine.specs.Graph.{IsTrueWord, MayBegin, graph_of};
ghost use Rattle.fz_machine.specs.Machines.{KeepsNotes, Tells, next_of};
ghost use Rattle.fz_machine.specs.Responds.{AnswersHonestly, IsAbout, Responds};
ghost use Rattle.fz_machine.specs.Regions.{place_in};
ghost use Rattle.fz_machine.specs.Runs.{AreAskable};

use crate::machine::Machine;
use crate::pass::Step;
use crate::question::{Ask, BATCH};
use crate::refused::Refused;
use crate::regions::bit;
use crate::responding::{respond_marks, respond_with_values};
use fz_finalizers::{Addr, Passed};
use fz_pass::{Host, Values};

/// Answers a question about objects or words, one after another: bit `i` is the answer about the one at index `i`.
fn answers<H: Values>(host: &mut H, ask: Ask, about: &[Addr]) -> u64
    requires few { length about.now ≤ 64 }
    requires asked { (phase : Phase) × (items : List Item) × IsAbout H.is_exact H.place H.value phase ask about.now items (graph_of (H.objects host.old) (H.marked host.old)) }
    ensures honest { AnswersHonestly H.is_exact H.place H.value ask about.now result (graph_of (H.objects host.old) (H.marked host.old)) (graph_of (H.objects host.new) (H.marked host.new)) }
    ensures same { H.is_same host.old host.new }
{
    let mut bits = 0;
    for index in 0..about.len() {
        if respond_with_values(host, ask, about[index]) {
            bits |= bit(index as u64);
        }
    }
    bits
}

/// Answers a question about regions: the word at each index is about the region at that index.
fn words<H: Host>(host: &H, ask: Ask, about: &[Addr]) -> [u64; BATCH]
    requires few { length about.now ≤ 64 }
    requires begin { All (λ region. place_in region ≡ 0) about.now }
    ensures honest { (index : ℕ) → index < length about.now → IsTrueWord H.place ask (graph_of (H.objects host.now) (H.marked host.now)) (slice_index_or about.now index 0) (slice_index_or result index 0) }
{
    let mut words = [0; BATCH];
    for index in 0..about.len() {
        words[index] = respond_marks(host, ask, about[index]);
    }
    words
}

impl Machine {
    /// Answers the last question, and proceeds to the next one, or to the end.
    fn answer<H: Values>(
        &mut self,
        host: &mut H,
        ask: Ask,
        count: usize,
        about: &mut [Addr; BATCH],
    ) -> Result<Step, Refused>
        requires asked { Tells self.old (next_of (Step.Asks ask count) about.old) }
        requires askable { (phase : Phase) → self.old.phase ≡ Some phase → AreAskable H.is_exact H.place H.value phase self.old.walk.left (graph_of (H.objects host.old) (H.marked host.old)) }
        ensures never { IfErr result (λ _. ⊥) }
        ensures responds { IfOk result (λ step. Responds H.is_exact H.place H.value self.old (graph_of (H.objects host.old) (H.marked host.old)) self.new (next_of step about.new) (graph_of (H.objects host.new) (H.marked host.new))) }
        ensures same { H.is_same host.old host.new }
    {
        if self.asks_marks() {
            let words = words(host, ask, &about[..count]);
            return self.next_marks(&words, about);
        }
        let bits = answers(host, ask, &about[..count]);
        self.next_bits(bits, about)
    }

    /// Carries out a pass over a host that can be called: answers one question after another by the methods of the host, until the pass ends. So it does what
    /// `Finalizers::pass_with_ephemerons` does, and what `runs_make_the_pass` says of answers and words that are true. The host's marking has to be complete,
    /// its objects have no births, and registered objects, targets of links and keys have to be objects of the host (`MayBegin`). The caller also proves that
    /// calls led to the state of the finalizers (`reached`).
    ///
    /// Takes no memory. A machine with regions asks about the 64 places of each region one by one here; a host that has its marks in words of bits answers
    /// faster itself, by `next_marks`. Fails with `PassOpen`.
    pub fn pass_over<H: Values>(&mut self, host: &mut H) -> Result<Passed, Refused>
        requires begin { MayBegin H.place H.value self.old.finalizers.state (graph_of (H.objects host.old) (H.marked host.old)) }
        // Calls led to the finalizers, as to all that there are.
        requires reached { ∥ ((past : Past) × IsReached self.old.finalizers.state past) ∥₁ }
        ensures judged { IsJudgedBy self.old.phase [] result }
        ensures refused { OnErr result ((self.new ≡ self.old) × (host.new ≡ host.old)) }
        ensures passes { OnOk result (PassesWhole H.is_exact H.place H.value self.old.finalizers.state (H.objects host.old) (H.marked host.old) self.new.finalizers.state (H.objects host.new) (H.marked host.new)) }
        ensures idle { OnOk result (self.new.phase ≡ None) }
        ensures regions { OnOk result (KeepsNotes self.old self.new) }
        ensures pass { IfOk result (λ passed. passed.pass ≡ next_pass self.old.finalizers.passes) }
        ensures picked { IfOk result (λ passed. length self.new.finalizers.queue ≡ length self.old.finalizers.queue + passed.picked) }
        // Marked objects stay marked, and everything that they reach is marked.
        ensures marks { OnOk result ((a : ℕ) → IsTrue (H.marked host.old a) → IsTrue (H.marked host.new a)) }
        ensures closed { OnOk result (IsClosed (H.objects host.new) (H.marked host.new)) }
        // Everything else in the host is unchanged.
        ensures same { OnOk result (H.is_same host.old host.new) }
    {
        self.begin()?;
        let mut about = [0; BATCH];
        let mut step = self.next_bits(0, &mut about)?;
        loop {
            match step {
                Step::Asks { ask, count } => step = self.answer(host, ask, count, &mut about)?,
                Step::Ended(passed) => return Ok(passed),
            }
        }
    }
}
