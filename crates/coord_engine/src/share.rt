//! A caller's share: notes of its accepted steps.

ghost use Rattle.std.specs.Prelude.{◌≡◌};

use coord_ledger::Note;
use std::alloc::AllocError;
use std::marker::Model;
use std::sync::ledger::{Ledger as Count, Share as Part};

/// A caller's share of an engine: the notes of the caller's accepted steps, in order. Contracts see the notes.
///
/// A share also holds one part of the engine's count of accepted steps. So no share can be forged,
/// and all shares together have as many notes as steps were accepted.
#[derive(Drop)]
pub struct Share<L: Count> {
    pub(crate) part: Part<L>,
    pub(crate) notes: Vec<Note>,
}

impl<L: Count> Model for Share<L> {
    ghost use Rattle.std.specs.Prelude.{◌≡◌, List, vec_len};
    ghost use Rattle.coord_ledger.specs.declared.ticket.Note.{Note};

    ghost Value = { List Note };

    ghost view = { λ s. s.notes.items };

    ghost invariant = { λ s. (s.part.parts ≡ 1) × (s.part.amount ≡ vec_len s.notes) };
}

impl<L: Count> Share<L> {
    /// Returns the notes.
    pub fn notes(&self) -> &[Note]
        ensures { result.now ≡ self.now }
    {
        &self.notes
    }

    /// Allocates room for this many more notes. Errors: out of memory.
    pub fn reserve(&mut self, notes: usize) -> Result<(), AllocError>
        ensures { self.new ≡ self.old }
    {
        self.notes.reserve(notes)?;
        Ok(())
    }
}
