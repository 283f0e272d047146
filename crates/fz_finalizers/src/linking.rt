//! Links of one kind, with room reserved for their moves.

ghost use Rattle.std.specs.Prelude.{◌≡◌, ◌≤◌, ◌<◌, ◌+◌, ◌*◌, ◌⊎◌, [], ℕ, if◌then◌else◌, vec_capacity, None, IfOk, IfErr, OnOk, OnErr};
ghost use Rattle.std.specs.FinMap.{get, insert, len, contains_key};
ghost use Rattle.fz_finalizers.specs.Causes.{IsJudgedBy, IsJudgedOrLacks, link_causes, move_causes};
ghost use Rattle.fz_model.specs.Steps.{move_answer, moved_to};

use crate::refused::Refused;
use fz_links::Links;
use fz_model::{Addr, LinkAnswer, MoveAnswer};

/// Reserves room in the list of moves for half of this many links, and if it allocates, for an eighth more.
pub(crate) fn reserve_moves(moves: &mut Vec<(Addr, Addr)>, links: usize) -> Result<(), Refused>
    requires empty { moves.old.items ≡ [] }
    ensures refused { IfErr result (λ r. r ≡ Refused.NoMemory) }
    ensures wanting { OnErr result (2 * vec_capacity moves.old < links) }
    ensures empty { moves.new.items ≡ [] }
    ensures kept { vec_capacity moves.old ≤ vec_capacity moves.new }
    ensures room { OnOk result (links ≤ 2 * vec_capacity moves.new) }
{
    let half = links.div_ceil(2);
    if half > moves.capacity() {
        moves.reserve_exact(half + half / 8)?;
    }
    Ok(())
}

/// Reserves room in the list of moves for one more link, unless the word has one.
#[tactic(auto, using(crate::proofs::Counting::len_grown, crate::proofs::Counting::len_known))]
fn make_room(links: &Links, moves: &mut Vec<(Addr, Addr)>, word: Addr) -> Result<(), Refused>
    requires empty { moves.old.items ≡ [] }
    requires room { len links.now.links ≤ 2 * vec_capacity moves.old }
    ensures refused { IfErr result (λ r. r ≡ Refused.NoMemory) }
    ensures fresh { OnErr result (get links.now.links word ≡ None) }
    ensures wanting { OnErr result (2 * vec_capacity moves.old ≤ len links.now.links) }
    ensures empty { moves.new.items ≡ [] }
    ensures kept { vec_capacity moves.old ≤ vec_capacity moves.new }
    ensures room { OnOk result ((target : ℕ) → len (insert links.now.links word target) ≤ 2 * vec_capacity moves.new) }
{
    let Err(refused) = reserve_moves(moves, links.len() + 1) else {
        return Ok(());
    };
    if links.get(word).is_some() {
        return Ok(());
    }
    Err(refused)
}

/// Checks that the word can be linked to the target, apart from memory.
pub(crate) fn check(links: &Links, word: Addr, target: Addr) -> Result<(), Refused>
    ensures { IsJudgedBy (link_causes links.now.links word target) result }
{
    if word == 0 || target == 0 {
        return Err(Refused::Zero);
    }
    if links.lacks_place(word) {
        return Err(Refused::Full);
    }
    Ok(())
}

/// Registers a link from the word to the target.
pub(crate) fn link(
    links: &mut Links,
    moves: &mut Vec<(Addr, Addr)>,
    word: Addr,
    target: Addr,
) -> Result<LinkAnswer, Refused>
    requires empty { moves.old.items ≡ [] }
    requires room { len links.old.links ≤ 2 * vec_capacity moves.old }
    ensures judged { IsJudgedOrLacks (link_causes links.old.links word target) result }
    ensures fresh { IfErr result (λ r. r ≡ Refused.NoMemory → get links.old.links word ≡ None) }
    ensures wanting { IfErr result (λ r. r ≡ Refused.NoMemory → (links.old.room ≡ 0) ⊎ (2 * vec_capacity moves.old ≤ len links.old.links)) }
    ensures unchanged { OnErr result (links.new.links ≡ links.old.links) }
    ensures answer { IfOk result (λ answer. answer ≡ (if contains_key links.old.links word then LinkAnswer.Duplicate else LinkAnswer.Success)) }
    ensures linked { OnOk result (links.new.links ≡ insert links.old.links word target) }
    ensures empty { moves.new.items ≡ [] }
    ensures kept { vec_capacity moves.old ≤ vec_capacity moves.new }
    ensures room { len links.new.links ≤ 2 * vec_capacity moves.new }
    ensures roomier { links.old.room ≤ links.new.room + 1 }
    ensures spared { OnErr result (links.old.room ≤ links.new.room) }
{
    check(links, word, target)?;
    make_room(links, moves, word)?;
    links
        .register_checked(word, target)
        .map_err(|_| Refused::NoMemory)
}

/// Moves a link to another word; its target stays the same.
pub(crate) fn move_link(
    links: &mut Links,
    moves: &mut Vec<(Addr, Addr)>,
    word: Addr,
    to: Addr,
) -> Result<MoveAnswer, Refused>
    requires empty { moves.old.items ≡ [] }
    requires room { len links.old.links ≤ 2 * vec_capacity moves.old }
    ensures judged { IsJudgedBy (move_causes to) result }
    ensures unchanged { OnErr result (links.new.links ≡ links.old.links) }
    ensures answer { IfOk result (λ answer. answer ≡ move_answer links.old.links word to) }
    ensures moved { OnOk result (links.new.links ≡ moved_to links.old.links word to (get links.old.links word)) }
    ensures empty { moves.new.items ≡ [] }
    ensures kept { vec_capacity moves.old ≤ vec_capacity moves.new }
    ensures count { len links.new.links ≡ len links.old.links }
    // Only a new link uses room.
    ensures roomy { links.new.room ≡ links.old.room }
{
    if to == 0 {
        return Err(Refused::Zero);
    }
    Ok(links.move_within(word, to, moves))
}
