//! The lines of a threads file.

ghost use Rattle.std.specs.Prelude.{◌≡◌, ◌↔◌, IsTrue, Some, IfSome, List, ℕ, Option};
ghost use Rattle.fz_script.specs.declared.job.Job.{Job};
ghost use Rattle.fz_script.specs.Jobs.{Fits, IsWithin, spelling};
ghost use Rattle.fz_script.specs.Reading.{words_of, words_left, with_rest, step_in};
ghost use Rattle.fz_script.specs.JobReading.{keyword_at, made_at, own_at, own_in, job_of_step, job_in};
ghost use Rattle.fz_script.specs.declared.job.Keyword.TheVariants.{Churn as ToChurn};

use crate::fields::Field;
use crate::reading::step_of;
use crate::step::Step;
use crate::words::Words;
use fz_model::{Call, ObjKind, RegKind, Slot};

/// The largest number of collections at the end of a threads file.
pub const MAX_COLLECTIONS: u64 = 100;

/// The largest number of objects that one `churn` line makes.
pub const MAX_TURNS: u64 = 10_000;

/// One line of a threads file, with its fields in order.
///
/// A threads file opens a world, gives the number of collections at the end, and then has sections, each of which runs on one thread. Slots, sizes, the
/// opening and calls are spelled as in a script.
#[derive(Clone, Copy, Debug, PartialEq, Eq)]
pub enum Job {
    /// The first line of a file.
    Open {
        blocks: u64,
        frames: u64,
        workers: u64,
    },
    /// The second line of a file: how the run ends.
    Settle {
        /// How many collections follow after all sections have ended: at most 100.
        collections: u64,
    },
    /// Begins a mutator's section.
    Mutator,
    /// Begins the collector's section.
    Collector,
    /// Allocates objects, registers a finalizer for each, and drops them.
    Churn {
        /// How many objects, from 1 to 10,000.
        count: u64,
        slot: Slot,
        size: u64,
        kind: ObjKind,
        /// The kind of each registration.
        finalizer_kind: RegKind,
        /// The number of the procedure that finalizes each object.
        procedure: u64,
    },
    /// One call to the world.
    Call(Call),
}

impl Job {
    /// Whether its count is within the limits.
    fn is_within(self) -> bool
        ensures { IsTrue result ↔ IsWithin self }
    {
        match self {
            Job::Settle { collections } => collections <= MAX_COLLECTIONS,
            Job::Churn { count, .. } => 1 <= count && count <= MAX_TURNS,
            _ => true,
        }
    }
}

/// Parses a line of a threads file. `None` if the line is no job.
///
/// The line is passed without its LF. It is spelled as the lines of a script are: see `step_of`. The caller checks whether the job may come at this point of
/// the file. Allocates nothing.
pub fn job_of(line: &[u8]) -> Option<Job>
    // If it returns a job, the line is exactly the spelling of that job.
    ensures found { IfSome result (λ job. Fits job × (line.now ≡ spelling job)) }
    // If the line is the spelling of a job, it returns that job. So a line spells at most one job.
    ensures only { (job : Job) → Fits job → line.now ≡ spelling job → result ≡ Some job }
{
    let job = read_job(line)?;
    if job.is_within() { Some(job) } else { None }
}

/// The job of a line, before its count is checked.
fn read_job(line: &[u8]) -> Option<Job>
    ensures { job_in (step_in (words_of line.now)) (words_of line.now) ≡ result }
{
    match step_of(line) {
        Some(step) => job_of_step(step),
        None => read_own(line),
    }
}

/// The job that a line spells, for a line that isn't a step of a script.
#[tactic(auto, unfolding(crate::specs::JobReading::own_in))]
fn read_own(line: &[u8]) -> Option<Job>
    ensures { own_in (words_of line.now) ≡ result }
{
    let mut words = Words::of(line);
    let job = next_job(&mut words)?;
    words.end()?;
    Some(job)
}

/// The job whose words come next.
#[tactic(auto, unfolding(crate::specs::JobReading::own_at))]
fn next_job(words: &mut Words<'_>) -> Option<Job>
    ensures { own_at (words_left words.old) ≡ with_rest result (words_left words.new) }
{
    let first: Keyword = words.read()?;
    first.fields(words)
}

/// A step as a job. `None` for a worker's step: in a threads file, workers are threads of their own.
fn job_of_step(step: Step) -> Option<Job>
    ensures { result ≡ job_of_step step }
{
    match step {
        Step::Open {
            blocks,
            frames,
            workers,
        } => Some(Job::Open {
            blocks,
            frames,
            workers,
        }),
        Step::Call(call) => Some(Job::Call(call)),
        Step::Take { .. } | Step::Hold { .. } | Step::Finish { .. } | Step::Forfeit { .. } => None,
    }
}

/// The first words of the lines that are no steps of a script.
#[derive(Clone, Copy)]
enum Keyword {
    Settle,
    Mutator,
    Collector,
    Churn,
}

impl Keyword {
    /// Reads the fields after the first word, and makes the job.
    fn fields(self, words: &mut Words<'_>) -> Option<Job>
        ensures { made_at self (words_left words.old) ≡ with_rest result (words_left words.new) }
    {
        match self {
            Keyword::Settle => Some(Job::Settle {
                collections: words.read()?,
            }),
            Keyword::Mutator => Some(Job::Mutator),
            Keyword::Collector => Some(Job::Collector),
            Keyword::Churn => read_churn(words),
        }
    }
}

fn read_churn(words: &mut Words<'_>) -> Option<Job>
    ensures { made_at ToChurn (words_left words.old) ≡ with_rest result (words_left words.new) }
{
    let ((count, slot), (size, kind), (finalizer_kind, procedure)) = words.read()?;
    Some(Job::Churn {
        count,
        slot,
        size,
        kind,
        finalizer_kind,
        procedure,
    })
}

impl Field for Keyword {
    ghost reads = { keyword_at };

    fn read(words: &mut Words<'_>) -> Option<Keyword> {
        match words.next()? {
            b"settle" => Some(Keyword::Settle),
            b"mutator" => Some(Keyword::Mutator),
            b"collector" => Some(Keyword::Collector),
            b"churn" => Some(Keyword::Churn),
            _ => None,
        }
    }
}
