//! Accepts steps for shares.

ghost use Rattle.std.specs.Prelude.{◌≡◌, ◌+◌, length};
ghost use Rattle.coord_engine.specs.Calls.{AnswersStep, engine_verdict};
ghost use Rattle.coord_engine.specs.State.{with_noted};

use super::Guarded;
use crate::{Origin, Share};
use coord_disk::Disk;
use coord_ledger::{Handed, Ticket};
use coord_types::{Refusal, Step};

impl<D: Disk, L: Origin> Guarded<D, L> {
    /// Accepts a step, like `Ledger::submit`, and notes it in the caller's share. A repeat is not
    /// noted.
    ///
    /// Room for the note is allocated first, so `OutOfMemory` may precede any other refusal. `Stopped`
    /// comes next, also if the engine is finishing.
    pub fn submit(&mut self, step: Step, mine: &mut Share<L>) -> Result<Ticket, Refusal>
        ensures answer { AnswersStep step (engine_verdict self.old step)
            (record { ledger = self.old.ledger; notes = mine.old }) result
            (record { ledger = self.new.ledger; notes = mine.new }) }
        ensures noted { self.new.noted + length mine.old ≡ self.old.noted + length mine.new }
        ensures others { self.new ≡ with_noted self.old self.new.ledger self.new.noted }
    {
        if mine.notes.reserve(1).is_err() {
            return Err(Refusal::OutOfMemory);
        }
        if self.finishing {
            return Err(Refusal::Stopped);
        }
        self.ledger.lemma_log_is_consistent();
        match self.ledger.hand_in(step)? {
            Handed::Accepted(ticket) => {
                self.book.add(&mut mine.part, 1);
                mine.notes.push_reserved(ticket.note());
                Ok(ticket)
            }
            Handed::Repeated(ticket) => Ok(ticket),
        }
    }
}
