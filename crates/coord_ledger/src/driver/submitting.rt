//! Submits a step.

ghost use Rattle.std.specs.Prelude.{◌≡◌};
ghost use Rattle.coord_ledger.specs.Facade.{HandedTo, Simulates, Submit, answer_to, disk_held};

use super::Driver;
use crate::Handed;
use coord_disk::CrashDisk;
use coord_types::{Refusal, Step};

impl<D: CrashDisk> Driver<D> {
    /// Submits a step, like `Ledger::hand_in`.
    pub fn submit(&mut self, step: Step) -> Result<Handed, Refusal>
        ensures simulates { Simulates self.old (Submit step) (answer_to result) self.new }
        ensures handed { HandedTo self.old.ledger step result self.new.ledger }
        ensures flight { self.new.flight ≡ self.old.flight }
        ensures disk { disk_held self.new ≡ disk_held self.old }
    {
        self.ledger.lemma_log_is_consistent();
        self.ledger.hand_in(step)
    }
}
