//! Parsing a line as a step.

ghost use Rattle.std.specs.Prelude.{◌≡◌, Some, IfSome, codes};
ghost use Rattle.fz_script.specs.declared.step.Step.{Step};
ghost use Rattle.fz_script.specs.Spelling.{Fits, spelling};
ghost use Rattle.fz_script.specs.Reading.{words_of, words_left, with_rest, named_at, step_at, step_in};

use crate::step::Step;
use crate::words::Words;
use fz_model::{Call, Finalizer};

/// Parses a line as a step. `None` if the line is no step.
///
/// The line is passed without its LF. It is a verb and its fields, separated by single spaces. Numbers are decimal, without sign or leading zeros, and less
/// than 2^64. An empty line and a comment are no steps: the caller skips them. The caller also checks whether the step may come at this point. Allocates
/// nothing.
pub fn step_of(line: &[u8]) -> Option<Step>
    // If it returns a step, the line is exactly the spelling of that step.
    ensures found { IfSome result (λ step. Fits step × (line.now ≡ spelling step)) }
    // If the line is the spelling of a step, it returns that step. So a line spells at most one step.
    ensures only { (step : Step) → Fits step → line.now ≡ spelling step → result ≡ Some step }
{
    read_line(line)
}

// A function of its own, so that both clauses of `step_of` can use its equation.
#[tactic(auto, unfolding(crate::specs::Reading::step_in))]
fn read_line(line: &[u8]) -> Option<Step>
    ensures { step_in (words_of line.now) ≡ result }
{
    let mut words = Words::of(line);
    let step = next_step(&mut words)?;
    words.end()?;
    Some(step)
}

/// The step whose verb and fields are the next words.
#[tactic(auto, unfolding(crate::specs::Reading::named_at))]
fn next_step(words: &mut Words<'_>) -> Option<Step>
    ensures { step_at (words_left words.old) ≡ with_rest result (words_left words.new) }
{
    match words.verb()? {
        "open" => read_open(words),
        "new" => read_new(words),
        "set" => read_set(words),
        "copy" => read_copy(words),
        "load" => read_load(words),
        "store" => read_store(words),
        "register" => read_register(words),
        "unregister" => Some(Step::Call(Call::Unregister(words.read()?))),
        "link" => read_link(words),
        "unlink" => read_unlink(words),
        "move" => read_move(words),
        "begin" => Some(Step::Call(Call::Begin)),
        "mark" => Some(Step::Call(Call::Mark(words.read()?))),
        "pause" => Some(Step::Call(Call::Pause)),
        "collect" => Some(Step::Call(Call::Collect)),
        "take" => Some(Step::Take {
            worker: words.read()?,
        }),
        "hold" => read_hold(words),
        "finish" => Some(Step::Finish {
            worker: words.read()?,
        }),
        "forfeit" => Some(Step::Forfeit {
            worker: words.read()?,
        }),
        "close" => Some(Step::Call(Call::Close)),
        "outstanding" => Some(Step::Call(Call::Outstanding)),
        _ => None,
    }
}

// For each verb with several fields: reads the fields as one tuple and makes the step.

#[tactic(auto, unfolding(crate::specs::Reading::named_at))]
fn read_open(words: &mut Words<'_>) -> Option<Step>
    ensures { named_at (codes "open") (words_left words.old) ≡ with_rest result (words_left words.new) }
{
    let (blocks, frames, workers) = words.read()?;
    Some(Step::Open {
        blocks,
        frames,
        workers,
    })
}

#[tactic(auto, unfolding(crate::specs::Reading::named_at))]
fn read_new(words: &mut Words<'_>) -> Option<Step>
    ensures { named_at (codes "new") (words_left words.old) ≡ with_rest result (words_left words.new) }
{
    let (slot, size, kind) = words.read()?;
    Some(Step::Call(Call::Alloc { slot, size, kind }))
}

#[tactic(auto, unfolding(crate::specs::Reading::named_at))]
fn read_set(words: &mut Words<'_>) -> Option<Step>
    ensures { named_at (codes "set") (words_left words.old) ≡ with_rest result (words_left words.new) }
{
    let (slot, word) = words.read()?;
    Some(Step::Call(Call::Set { slot, word }))
}

#[tactic(auto, unfolding(crate::specs::Reading::named_at))]
fn read_copy(words: &mut Words<'_>) -> Option<Step>
    ensures { named_at (codes "copy") (words_left words.old) ≡ with_rest result (words_left words.new) }
{
    let (slot, to) = words.read()?;
    Some(Step::Call(Call::Copy { slot, to }))
}

#[tactic(auto, unfolding(crate::specs::Reading::named_at))]
fn read_load(words: &mut Words<'_>) -> Option<Step>
    ensures { named_at (codes "load") (words_left words.old) ≡ with_rest result (words_left words.new) }
{
    let (place, to) = words.read()?;
    Some(Step::Call(Call::Load { place, to }))
}

#[tactic(auto, unfolding(crate::specs::Reading::named_at))]
fn read_store(words: &mut Words<'_>) -> Option<Step>
    ensures { named_at (codes "store") (words_left words.old) ≡ with_rest result (words_left words.new) }
{
    let (place, from) = words.read()?;
    Some(Step::Call(Call::Store { place, from }))
}

#[tactic(auto, unfolding(crate::specs::Reading::named_at))]
fn read_register(words: &mut Words<'_>) -> Option<Step>
    ensures { named_at (codes "register") (words_left words.old) ≡ with_rest result (words_left words.new) }
{
    let (slot, kind, (procedure, client_data, rank)) = words.read()?;
    let finalizer = Finalizer {
        kind,
        procedure,
        client_data,
        rank,
    };
    Some(Step::Call(Call::Register { slot, finalizer }))
}

#[tactic(auto, unfolding(crate::specs::Reading::named_at))]
fn read_link(words: &mut Words<'_>) -> Option<Step>
    ensures { named_at (codes "link") (words_left words.old) ≡ with_rest result (words_left words.new) }
{
    let (which, place, target) = words.read()?;
    Some(Step::Call(Call::Link {
        which,
        place,
        target,
    }))
}

#[tactic(auto, unfolding(crate::specs::Reading::named_at))]
fn read_unlink(words: &mut Words<'_>) -> Option<Step>
    ensures { named_at (codes "unlink") (words_left words.old) ≡ with_rest result (words_left words.new) }
{
    let (which, place) = words.read()?;
    Some(Step::Call(Call::Unlink { which, place }))
}

#[tactic(auto, unfolding(crate::specs::Reading::named_at))]
fn read_move(words: &mut Words<'_>) -> Option<Step>
    ensures { named_at (codes "move") (words_left words.old) ≡ with_rest result (words_left words.new) }
{
    let (which, place, to) = words.read()?;
    Some(Step::Call(Call::Move { which, place, to }))
}

#[tactic(auto, unfolding(crate::specs::Reading::named_at))]
fn read_hold(words: &mut Words<'_>) -> Option<Step>
    ensures { named_at (codes "hold") (words_left words.old) ≡ with_rest result (words_left words.new) }
{
    let (worker, slot) = words.read()?;
    Some(Step::Hold { worker, slot })
}
