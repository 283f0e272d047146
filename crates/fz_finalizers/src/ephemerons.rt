//! Ephemerons.

ghost use Rattle.std.specs.Prelude.{◌≡◌, ◌≤◌, ◌<◌, ◌+◌, ◌*◌, None, if◌then◌else◌, length, nat_eq, IfOk, IfErr, OnOk, OnErr};
ghost use Rattle.std.specs.FinMap.{get, len, from_entries};
ghost use Rattle.std.specs.List.{IsDistinct};
ghost use Rattle.std.specs.Map.{keys_of};
ghost use Rattle.fz_pass.specs.Keyed.{ephemeron_at, has_ephemeron, move_answer, of_kind};
ghost use Rattle.fz_finalizers.specs.Causes.{IsJudgedBy, IsJudgedOrLacks, link_causes, move_causes};
ghost use Rattle.fz_finalizers.specs.Follows.{Follows, Ephemeron, EndEphemeron, MoveEphemeron};
ghost use Rattle.fz_finalizers.specs.States.{IsRoomier};

use crate::finalizers::Finalizers;
use crate::refused::Refused;
use fz_model::{Addr, LinkAnswer, LinkKind, MoveAnswer};
use fz_pass::Ephemerons;
use fz_table::Pairs;

/// Checks that the word can be an ephemeron of the key, apart from memory.
fn check(ephemerons: &Ephemerons, kind: LinkKind, word: Addr, key: Addr) -> Result<(), Refused>
    ensures { IsJudgedBy (link_causes (of_kind ephemerons.now.ephemerons kind) word key) result }
{
    if word == 0 || key == 0 {
        return Err(Refused::Zero);
    }
    if ephemerons.lacks_place(kind, word) {
        return Err(Refused::Full);
    }
    Ok(())
}

impl Finalizers {
    /// Makes a word an ephemeron of a key. If it is one already, this replaces it. The word retains its value, which is what the word points to, only as long
    /// as both the key and the object in which the word lies are retained.
    ///
    /// The host has to ensure that the key is an object, and doesn't scan the word with the object in which it lies. Takes no room that `reserve` reserved, and
    /// reserves what a pass and a move need. Fails with, in this order: `Zero` if the word or the key is 0, `Full` if there are 2^32 others of the kind,
    /// `NoMemory`.
    pub fn ephemeron(
        &mut self,
        kind: LinkKind,
        word: Addr,
        key: Addr,
    ) -> Result<LinkAnswer, Refused>
        ensures judged { IsJudgedOrLacks (link_causes (of_kind self.old.ephemerons kind) word key) result }
        // Only a new ephemeron, or one that changes its kind, can run out of memory.
        ensures fresh { IfErr result (λ r. r ≡ Refused.NoMemory → get (of_kind self.old.ephemerons kind) word ≡ None) }
        ensures refused { OnErr result (self.new.state ≡ self.old.state) }
        ensures answer { IfOk result (λ answer. answer ≡ (if has_ephemeron self.old.ephemerons word then LinkAnswer.Duplicate else LinkAnswer.Success)) }
        ensures follows { OnOk result (Follows self.old.state (Ephemeron kind word key) self.new.state) }
        ensures memory { self.new.memory ≡ self.old.memory }
        ensures room { IsRoomier self.old.rooms self.new.rooms }
    {
        check(&self.ephemerons, kind, word, key)?;
        self.ephemerons
            .register(kind, word, key)
            .map_err(|_| Refused::NoMemory)
    }

    /// Ends the ephemeron of a word, and returns its kind and its key.
    pub fn end_ephemeron(&mut self, word: Addr) -> Option<(LinkKind, Addr)>
        ensures answer { result ≡ ephemeron_at self.old.ephemerons word }
        ensures follows { Follows self.old.state (EndEphemeron word) self.new.state }
        ensures memory { self.new.memory ≡ self.old.memory }
        ensures room { IsRoomier self.old.rooms self.new.rooms }
    {
        self.ephemerons.remove(word)
    }

    /// Moves an ephemeron from one word to another; its kind and its key stay the same. Takes no memory. Takes time proportional to the ephemerons when it
    /// rebuilds their table, as `move_link` does. Fails with `Zero` if the other word is 0.
    ///
    /// The results are tested in this order: `NotFound`, `Success` if the words are the same, `Duplicate`, `Success` after the move.
    pub fn move_ephemeron(&mut self, word: Addr, to: Addr) -> Result<MoveAnswer, Refused>
        ensures judged { IsJudgedBy (move_causes to) result }
        ensures refused { OnErr result (self.new.state ≡ self.old.state) }
        ensures answer { IfOk result (λ answer. answer ≡ move_answer self.old.ephemerons word to) }
        ensures follows { OnOk result (Follows self.old.state (MoveEphemeron word to) self.new.state) }
        ensures memory { self.new.memory ≡ self.old.memory }
        ensures room { IsRoomier self.old.rooms self.new.rooms }
    {
        if to == 0 {
            return Err(Refused::Zero);
        }
        Ok(self.ephemerons.move_word(word, to))
    }

    /// The kind and the key of a word's ephemeron.
    pub fn key(&self, word: Addr) -> Option<(LinkKind, Addr)>
        ensures { result ≡ ephemeron_at self.now.ephemerons word }
    {
        self.ephemerons.get(word)
    }

    /// All ephemerons of one kind with their keys, each once. The order stays the same until the next call that takes `&mut self`.
    pub fn iter_ephemerons(&self, kind: LinkKind) -> Pairs<'_, Addr, Addr>
        ensures all { from_entries result ≡ of_kind self.now.ephemerons kind }
        ensures once { IsDistinct nat_eq (keys_of result) }
        ensures count { length result ≡ len (of_kind self.now.ephemerons kind) }
    {
        self.ephemerons.iter(kind)
    }

    /// The number of ephemerons of both kinds.
    pub fn ephemeron_count(&self) -> u64
        ensures { result ≡ len self.now.ephemerons.short + len self.now.ephemerons.long }
    {
        self.ephemerons.len() as u64
    }
}
