//! The result of a run of questions and answers.

ghost use Rattle.fz_machine.specs.Heard.{PassesAreCalls, PassesEnd, RegionQuestionsEnd};
ghost use Rattle.fz_machine.specs.Runs.{AsksBatches, AsksRightly, AsksYoungRightly, CostsUnmarked, RunsPass, RunsPlainPass, RunsYoungPass, RunsYoungPlainPass};

/// A run whose answers are true of a graph carries out the model's pass, as `Finalizers::pass_with_ephemerons` does. Entries that are taken and finished
/// between its questions might as well be taken and finished after the pass. What the host tells by `Machine::key_marked` need not be true.
///
/// Questions about regions are answered by words (`Machine::next_marks`). A word has to be true of the places of registered objects, of targets of links, of
/// objects of cleanups or of words of links, as its question is about these; of other places it may say anything.
///
/// An ephemeron whose key, holder and value are marked isn't asked about again. This requires that its value stays: while a pass is open, clearing a word may
/// take a value away, but gives no ephemeron another one (`KeepsValues`).
///
/// If the host marks exactly what it is asked to mark, the run queues and retains exactly what the model does. If it marks more, the run queues no more than
/// the model, and retains no less.
pub fn runs_make_the_pass()
    ensures exact { RunsPass (Unit {0}) }
    ensures more { RunsPass ⊥ }
{}

/// Without ephemerons this is the pass that `Finalizers::pass` carries out.
pub fn runs_make_the_plain_pass()
    ensures plain { RunsPlainPass (Unit {0}) }
    ensures plain_of_more { RunsPlainPass ⊥ }
{}

/// Whatever the host answers and tells, and whatever is taken and finished meanwhile, a pass processes at most six answers for each registration, three for
/// each link and one for each cleanup; and for `n` ephemerons `11 * n + n * (2 * n + 1)`. An ephemeron whose key, holder and value are marked is asked about
/// three times in a pass. The others are put off, and the later phases ask about these alone. A value is asked about once. At most two further rounds follow
/// each round in which a value is asked about: one over the ephemerons whose keys were told, and one over all that still wait.
///
/// This bounds answers, not calls: a call of `next` without answers repeats the question, so a host that never answers never reaches the end. Each question is
/// about at least one item, or about regions. So a host that answers at least one item of each question about items reaches the end after at most as many such
/// questions; `region_questions_end` bounds the others.
pub fn passes_end()
    ensures { PassesEnd }
{}

/// Whatever the host answers and tells, and whatever is taken and finished meanwhile, a pass of a machine with regions processes words for at most one question
/// for each 64 regions that each of its tables has when it begins, and one for the rest of each. A call without these words repeats the question.
pub fn region_questions_end()
    ensures { RegionQuestionsEnd }
{}

/// With regions the number of answers about items is bounded by what is unmarked when a pass begins, if words and answers are true of a graph, and all items of
/// the kinds are noted. Such a pass processes at most five answers for each registration whose object isn't marked, one for each link whose target isn't marked,
/// and none for cleanups. Ephemerons aren't noted: `passes_end` has the number of answers for them, and for a kind of which not all items are noted. The bound
/// also holds for each part of a run, from its begin on.
pub fn marked_items_cost_no_answers()
    ensures unmarked { CostsUnmarked (Unit {0}) }
    ensures unmarked_of_more { CostsUnmarked ⊥ }
{}

/// Most questions are full, because items about which the same is asked come together. A run whose questions are each answered whole has at most one question
/// about registrations, links and cleanups for each 64 answers, and 16 more. So with `marked_items_cost_no_answers` a machine with regions and without
/// ephemerons asks at most `u / 64 + 16` of them, where `u` is the bound on answers that it gives. A question about ephemerons is about at least one, and
/// `region_questions_end` bounds the questions about regions.
pub fn questions_are_about_64_items()
    ensures batched { AsksBatches (Unit {0}) }
    ensures batched_of_more { AsksBatches ⊥ }
{}

/// Whatever the host answers and tells, a pass consists of calls of the finalizers that take and finish nothing, even if it is abandoned. So what
/// `every_sequence` of `fz_finalizers` states holds after each question.
pub fn passes_are_calls()
    ensures { PassesAreCalls }
{}

/// A host that answers for a graph is asked only what it may be asked: to mark only objects of the graph and values, and only while everything that marked
/// objects reach is marked. This holds for each item of a question, if the answers about the items before it are those of the graph.
pub fn questions_may_be_asked()
    ensures asked { AsksRightly (Unit {0}) }
    ensures asked_of_more { AsksRightly ⊥ }
{}

/// A pass that looks only at registrations and cleanups from a number on, as `Machine::begin_from` opens it, is a pass over all of them if the objects of the
/// earlier ones are marked: all that the other functions here state of runs that answer for a graph holds of it, too.
pub fn young_passes_are_passes()
    ensures young { RunsYoungPass (Unit {0}) }
    ensures young_of_more { RunsYoungPass ⊥ }
    ensures plain_young { RunsYoungPlainPass (Unit {0}) }
    ensures plain_young_of_more { RunsYoungPlainPass ⊥ }
    ensures asked_young { AsksYoungRightly (Unit {0}) }
    ensures asked_young_of_more { AsksYoungRightly ⊥ }
{}
