//! The root frames, whose slots are roots.

ghost use Rattle.std.specs.Prelude.{◌≡◌, ◌≤◌, false, IfOk, OnOk, All, List, ℕ, length, replicate};
ghost use Rattle.fz_model.specs.declared.limits.TheConstants.{MAX_FRAMES, SLOTS};
ghost use Rattle.fz_model.specs.Memory.{lacks_slot, slot_word, with_slot};
ghost use Rattle.fz_model.specs.Causes.{IsJudgedBy, slot_causes};

use fz_model::{Refusal, SLOTS, Slot, Word};
use std::alloc::{AllocError, Global};
use std::marker::Model;

/// The number of a frame's slots, as the length of an array.
const ROW: usize = SLOTS as usize;

/// Root frames, with one word for each slot.
#[derive(Drop)]
pub(crate) struct Frames {
    rows: Vec<[Word; ROW]>,
}

impl Model for Frames {
    ghost use Rattle.std.specs.Prelude.{List, ℕ, ◌≡◌, All, length};
    ghost use Rattle.fz_model.specs.declared.limits.TheConstants.{SLOTS};

    ghost Value = { List (List ℕ) };

    ghost view = { λ f. f.rows.items };

    ghost invariant = { λ f. All (λ (row : List ℕ). length row ≡ SLOTS) f.rows.items };
}

impl Frames {
    /// This many frames, with all slots zero.
    pub(crate) fn new(alloc: Global, frames: u64) -> Result<Frames, AllocError>
        requires { frames ≤ MAX_FRAMES }
        ensures { IfOk result (λ f. f ≡ replicate frames (replicate SLOTS 0)) }
    {
        let mut rows = Vec::new(alloc);
        for _ in 0..frames {
            rows.push([0; ROW])?;
        }
        Ok(Frames { rows })
    }

    /// Fails with `BadSlot` if the slot doesn't exist.
    pub(crate) fn check(&self, slot: Slot) -> Result<(), Refusal>
        ensures judged { IsJudgedBy (slot_causes self.now slot) result }
        ensures there { OnOk result (lacks_slot self.now slot ≡ false) }
        // Each frame has all its slots.
        ensures whole { All (λ (row : List ℕ). length row ≡ SLOTS) self.now }
    {
        if slot.frame >= self.rows.len() as u64 || slot.slot >= SLOTS {
            return Err(Refusal::BadSlot);
        }
        Ok(())
    }

    /// The word of a slot.
    ///
    /// Fails with `BadSlot` if the slot doesn't exist.
    pub(crate) fn get(&self, slot: Slot) -> Result<Word, Refusal>
        ensures judged { IsJudgedBy (slot_causes self.now slot) result }
        ensures word { IfOk result (λ word. word ≡ slot_word self.now slot) }
        ensures there { OnOk result (lacks_slot self.now slot ≡ false) }
        // Each frame has all its slots.
        ensures whole { All (λ (row : List ℕ). length row ≡ SLOTS) self.now }
    {
        self.check(slot)?;
        let row = &self.rows[slot.frame as usize];
        Ok(row[slot.slot as usize])
    }

    /// Stores the word in a slot. Requires that the slot exists.
    pub(crate) fn set(&mut self, slot: Slot, word: Word)
        requires { lacks_slot self.old slot ≡ false }
        ensures { self.new ≡ with_slot self.old slot word }
    {
        let row = &mut self.rows[slot.frame as usize];
        row[slot.slot as usize] = word;
    }

    /// All frames.
    pub(crate) fn rows(&self) -> &[[Word; ROW]]
        ensures { result.now ≡ self.now }
    {
        self.rows.as_slice()
    }
}
