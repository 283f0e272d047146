//! Passes by questions and answers.

ghost use Rattle.std.specs.Prelude.{◌≡◌, ◌+◌, [], take, None, Some, OnOk, OnErr, IfErr, IfOk};
ghost use Rattle.fz_finalizers.specs.Follows.{next_pass};
ghost use Rattle.fz_machine.specs.Asks.{bits_of};
ghost use Rattle.fz_machine.specs.Causes.{IsJudgedBy};
ghost use Rattle.fz_machine.specs.Machines.{Answers, IsBegun, IsBegunFrom, GoesTo, Writes, next_of};
ghost use Rattle.fz_machine.specs.declared.refused.Refused.TheVariants.{NoPass};

use crate::asking::{hear, hear_bits};
use crate::going_on::{go_on, question};
use crate::listing::begin;
use crate::machine::Machine;
use crate::phase::{Moment, Phase};
use crate::question::{Ask, BATCH, Question};
use crate::refused::Refused;
use crate::tables;
use fz_finalizers::{Addr, Passed};

/// What a pass returns next.
#[derive(Clone, Copy, Debug, PartialEq, Eq)]
pub enum Next {
    /// A question. Its answers are the argument of the next call of `Machine::next`.
    Asks(Question),
    /// The pass has ended.
    Ended(Passed),
}

/// What a pass returns next, where the objects or words of a question are written into an array.
#[derive(Clone, Copy, Debug, PartialEq, Eq)]
pub enum Step {
    /// A question about the first `count` of them.
    Asks { ask: Ask, count: usize },
    /// The pass has ended.
    Ended(Passed),
}

impl Machine {
    /// Opens a pass, and returns its number. The host's marking has to be complete. The first call of `next` ignores its answers.
    ///
    /// Fails with `PassOpen`.
    pub fn begin(&mut self) -> Result<u64, Refused>
        ensures judged { IsJudgedBy self.old.phase [] result }
        ensures refused { OnErr result (self.new ≡ self.old) }
        ensures number { IfOk result (λ number. number ≡ next_pass self.old.finalizers.passes) }
        ensures begun { OnOk result (IsBegun self.old self.new) }
    {
        self.begin_from(0)
    }

    /// Opens a pass that looks only at registrations and cleanups whose numbers are at least this, and returns its number. It is the same pass as one that
    /// `begin` opens if the objects of all others are marked: so a host with generations begins it from the number that the next registration had when its old
    /// objects were young. If such an object isn't marked, it isn't asked about, and stays registered, and so does a cleanup. Links and ephemerons are looked
    /// at as by any pass.
    ///
    /// Such a pass asks no items of old registrations and cleanups, but walks over their tables. Fails with `PassOpen`.
    pub fn begin_from(&mut self, from: u64) -> Result<u64, Refused>
        ensures judged { IsJudgedBy self.old.phase [] result }
        ensures refused { OnErr result (self.new ≡ self.old) }
        ensures number { IfOk result (λ number. number ≡ next_pass self.old.finalizers.passes) }
        ensures begun { OnOk result (IsBegunFrom from self.old self.new) }
    {
        if self.phase.is_some() {
            return Err(Refused::PassOpen);
        }
        let number = self.finalizers.begin_pass();
        self.before = self.finalizers.queued();
        self.walk.clear();
        self.walk.forget();
        let phase = Phase::Keys(Moment::First);
        begin(&self.finalizers, &mut self.walk, phase);
        self.phase = Some(phase);
        self.from = from;
        self.asked = 0;
        Ok(number)
    }

    /// Processes the answers to the last question, and proceeds to the next one, whose objects or words it writes, or to the end.
    fn proceed(&mut self, answers: &[bool], about: &mut [Addr; BATCH]) -> Result<Step, Refused>
        ensures refused { OnErr result ((self.old.phase ≡ None) × (self.new ≡ self.old) × (about.new ≡ about.old)) }
        ensures cause { IfErr result (λ r. r ≡ NoPass) }
        ensures goes { IfOk result (λ step. GoesTo self.old (Answers (take self.old.asked answers.now)) self.new (next_of step about.new)) }
        ensures written { IfOk result (λ step. Writes step about.old about.new) }
    {
        let Some(phase) = self.phase else {
            return Err(Refused::NoPass);
        };
        let heard = answers.len().min(self.asked);
        hear(
            &mut self.finalizers,
            &mut self.walk,
            phase,
            &answers[..heard],
        );
        Ok(self.ask(phase, about))
    }

    /// Proceeds to the next question, whose objects, words or regions it writes, or to the end.
    pub(crate) fn ask(&mut self, phase: Phase, about: &mut [Addr; BATCH]) -> Step
        requires { self.old.phase ≡ Some phase }
        ensures goes { GoesTo self.old (Answers []) self.new (next_of result about.new) }
        ensures written { Writes result about.old about.new }
    {
        self.phase = go_on(
            &mut self.finalizers,
            &mut self.walk,
            &mut self.tables,
            self.from,
            phase,
        );
        self.asked = 0;
        let Some(phase) = self.phase else {
            return Step::Ended(Passed {
                pass: self.finalizers.passes(),
                picked: self.finalizers.queued().saturating_sub(self.before),
            });
        };
        if let Phase::Regions(sweep) = phase {
            let count = tables::ask(&mut self.tables, sweep, about);
            return Step::Asks {
                ask: sweep.ask(),
                count,
            };
        }
        let (ask, count) = question(phase, self.walk.left(), about);
        self.asked = count;
        Step::Asks { ask, count }
    }

    /// Processes the answers to the last question, and returns what comes next: another question or the end. For `IsMarked` and `IsHolderMarked` the answers
    /// have to be what the host's marks say, and for `MarkValue` whether something may have been marked; other commands need an answer too, whose value is
    /// ignored. Items left unanswered are asked again. If the last question was about regions, it is repeated, whatever the answers: `next_marks` takes those.
    /// Takes time proportional to the question and its answers.
    ///
    /// Takes no memory. Fails with `NoPass` if no pass is open.
    pub fn next(&mut self, answers: &[bool]) -> Result<Next, Refused>
        ensures refused { OnErr result ((self.old.phase ≡ None) × (self.new ≡ self.old)) }
        ensures cause { IfErr result (λ r. r ≡ NoPass) }
        ensures goes { IfOk result (GoesTo self.old (Answers (take self.old.asked answers.now)) self.new) }
    {
        let mut about = [0; BATCH];
        match self.proceed(answers, &mut about) {
            Ok(Step::Asks { ask, count }) => Ok(Next::Asks(Question { ask, about, count })),
            Ok(Step::Ended(passed)) => Ok(Next::Ended(passed)),
            Err(refused) => Err(refused),
        }
    }

    /// `next` with the answers in a word, from its lowest bit on: as many as the last question has items. The objects or words of a question are written into
    /// the array, from its start; the rest of it is undefined. If the pass has ended, or the call fails, the array is unchanged.
    ///
    /// Takes no memory. Fails with `NoPass` if no pass is open.
    pub fn next_bits(&mut self, answers: u64, about: &mut [Addr; BATCH]) -> Result<Step, Refused>
        ensures refused { OnErr result ((self.old.phase ≡ None) × (self.new ≡ self.old) × (about.new ≡ about.old)) }
        ensures cause { IfErr result (λ r. r ≡ NoPass) }
        ensures goes { IfOk result (λ step. GoesTo self.old (Answers (take self.old.asked (bits_of answers))) self.new (next_of step about.new)) }
        ensures written { IfOk result (λ step. Writes step about.old about.new) }
    {
        let phase = match self.phase {
            Some(phase) => phase,
            None => return Err(Refused::NoPass),
        };
        let count = BATCH.min(self.asked);
        hear_bits(&mut self.finalizers, &mut self.walk, phase, answers, count);
        Ok(self.ask(phase, about))
    }
}
