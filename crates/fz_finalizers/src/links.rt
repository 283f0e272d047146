//! Disappearing links.

ghost use Rattle.std.specs.Prelude.{◌≡◌, ◌≤◌, ◌<◌, ◌+◌, None, if◌then◌else◌, IfOk, IfErr, OnOk, OnErr};
ghost use Rattle.std.specs.FinMap.{get, len, contains_key};
ghost use Rattle.fz_model.specs.Steps.{move_answer};
ghost use Rattle.fz_finalizers.specs.Causes.{IsJudgedBy, IsJudgedOrLacks, link_causes, move_causes};
ghost use Rattle.fz_finalizers.specs.Follows.{Follows, Link, Unlink, Move};
ghost use Rattle.fz_finalizers.specs.States.{links_of, room_of, IsRoomier, Spends, UsesLink};

use crate::finalizers::Finalizers;
use crate::linking;
use crate::refused::Refused;
use fz_model::{Addr, LinkAnswer, LinkKind, MoveAnswer};

impl Finalizers {
    /// Registers a disappearing link from the word to the target, an object. If the word has a link already, only its target changes.
    ///
    /// The host has to ensure that the target is an object. Fails with, in this order: `Zero` if the word or the target is 0, `Full` if there are 2^32 others
    /// of the kind, `NoMemory`.
    pub fn link(&mut self, kind: LinkKind, word: Addr, target: Addr) -> Result<LinkAnswer, Refused>
        ensures judged { IsJudgedOrLacks (link_causes (links_of self.old.state kind) word target) result }
        // Only a new link can run out of memory, and only if no room is reserved.
        ensures fresh { IfErr result (λ r. r ≡ Refused.NoMemory → get (links_of self.old.state kind) word ≡ None) }
        ensures wanting { IfErr result (λ r. r ≡ Refused.NoMemory → room_of self.old.rooms kind ≡ 0) }
        ensures refused { OnErr result (self.new.state ≡ self.old.state) }
        ensures answer { IfOk result (λ answer. answer ≡ (if contains_key (links_of self.old.state kind) word then LinkAnswer.Duplicate else LinkAnswer.Success)) }
        ensures follows { OnOk result (Follows self.old.state (Link kind word target) self.new.state) }
        ensures memory { self.new.memory ≡ self.old.memory }
        ensures room { Spends (UsesLink kind) result self.old.rooms self.new.rooms }
    {
        match kind {
            LinkKind::Short => linking::link(&mut self.short, &mut self.moves, word, target),
            LinkKind::Long => linking::link(&mut self.long, &mut self.moves, word, target),
        }
    }

    /// Checks a word and a target as `link` does, apart from memory.
    pub fn check_link(&self, kind: LinkKind, word: Addr, target: Addr) -> Result<(), Refused>
        ensures judged { IsJudgedBy (link_causes (links_of self.now.state kind) word target) result }
    {
        match kind {
            LinkKind::Short => linking::check(&self.short, word, target),
            LinkKind::Long => linking::check(&self.long, word, target),
        }
    }

    /// Removes the link of a word, and returns whether there was one.
    pub fn unlink(&mut self, kind: LinkKind, word: Addr) -> bool
        ensures answer { result ≡ contains_key (links_of self.old.state kind) word }
        ensures follows { Follows self.old.state (Unlink kind word) self.new.state }
        ensures memory { self.new.memory ≡ self.old.memory }
        ensures room { IsRoomier self.old.rooms self.new.rooms }
    {
        match kind {
            LinkKind::Short => self.short.unregister(word),
            LinkKind::Long => self.long.unregister(word),
        }
    }

    /// Moves a link from one word to another; its target stays the same. Takes no memory, and none of the room reserved for new links. Takes time
    /// proportional to the links of its kind when it rebuilds their table, which happens only a few times in as many moves as there are links. Fails with
    /// `Zero` if the other word is 0.
    pub fn move_link(&mut self, kind: LinkKind, word: Addr, to: Addr) -> Result<MoveAnswer, Refused>
        ensures judged { IsJudgedBy (move_causes to) result }
        ensures refused { OnErr result (self.new.state ≡ self.old.state) }
        ensures answer { IfOk result (λ answer. answer ≡ move_answer (links_of self.old.state kind) word to) }
        ensures follows { OnOk result (Follows self.old.state (Move kind word to) self.new.state) }
        ensures memory { self.new.memory ≡ self.old.memory }
        ensures room { IsRoomier self.old.rooms self.new.rooms }
    {
        match kind {
            LinkKind::Short => linking::move_link(&mut self.short, &mut self.moves, word, to),
            LinkKind::Long => linking::move_link(&mut self.long, &mut self.moves, word, to),
        }
    }

    /// The target of a word's link.
    pub fn target(&self, kind: LinkKind, word: Addr) -> Option<Addr>
        ensures { result ≡ get (links_of self.now.state kind) word }
    {
        match kind {
            LinkKind::Short => self.short.get(word),
            LinkKind::Long => self.long.get(word),
        }
    }

    /// The number of links of one kind.
    pub fn links(&self, kind: LinkKind) -> u64
        ensures { result ≡ len (links_of self.now.state kind) }
    {
        match kind {
            LinkKind::Short => self.short.len() as u64,
            LinkKind::Long => self.long.len() as u64,
        }
    }
}
