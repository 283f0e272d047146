//! Passes by questions about regions.

ghost use Rattle.std.specs.Prelude.{◌≡◌, None, OnOk, OnErr, IfOk, IfErr};
ghost use Rattle.fz_machine.specs.Machines.{AsksRegions, GoesTo, PassesOver, Words, Writes, next_of};
ghost use Rattle.fz_machine.specs.declared.phase.Phase.{Phase};
ghost use Rattle.fz_machine.specs.declared.question.Question.{Question};
ghost use Rattle.fz_machine.specs.declared.refused.Refused.TheVariants.{NoPass};

use crate::machine::Machine;
use crate::pass::Step;
use crate::question::BATCH;
use crate::refused::Refused;
use crate::tables::hear;
use fz_model::Addr;

impl Machine {
    /// Processes the answers to a question about regions: the word at each index is about the region at that index of the question. Returns what comes
    /// next, and writes the objects, words or regions of a question, as `next_bits` does. If the last question wasn't about regions, it is repeated.
    ///
    /// Takes no memory. Fails with `NoPass` if no pass is open.
    pub fn next_marks(
        &mut self,
        words: &[u64; BATCH],
        about: &mut [Addr; BATCH],
    ) -> Result<Step, Refused>
        ensures refused { OnErr result ((self.old.phase ≡ None) × (self.new ≡ self.old) × (about.new ≡ about.old)) }
        ensures cause { IfErr result (λ r. r ≡ NoPass) }
        ensures goes { IfOk result (λ step. GoesTo self.old (Words words.now) self.new (next_of step about.new)) }
        ensures over { OnOk result ((phase : Phase) (question : Question) → AsksRegions self.old phase question → PassesOver self.old self.new) }
        ensures written { IfOk result (λ step. Writes step about.old about.new) }
    {
        let Some(phase) = self.phase else {
            return Err(Refused::NoPass);
        };
        hear(&mut self.tables, phase, words);
        Ok(self.ask(phase, about))
    }
}
