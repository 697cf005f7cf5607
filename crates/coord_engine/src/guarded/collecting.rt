//! Answers tickets, and lets tokens read the history, under the lock.

ghost use Rattle.std.specs.Prelude.{◌≡◌};
ghost use Rattle.coord_engine.specs.Calls.{CollectsAs};
ghost use Rattle.coord_engine.specs.MonotoneLog.{StartsWith};
ghost use Rattle.coord_engine.specs.Released.{HasReadSettled};
ghost use Rattle.coord_ledger.specs.machine.Log.{settled_steps};

use super::Guarded;
use crate::{Collected, LogPrefix, MonotoneLog, Origin};
use coord_disk::Disk;
use coord_ledger::Ticket;
use coord_types::Refusal;
use std::mem::replace;

impl<D: Disk, L: Origin> Guarded<D, L> {
    /// Returns the reply to the ticket's step if the step is settled. Refuses a ticket of another
    /// ledger as `Stranger`, once a step with the ticket's number is settled. Refuses a ticket whose
    /// step will never be settled as `Stopped`. Any other ticket has to wait.
    pub fn collect(&self, ticket: Ticket) -> Collected
        ensures { CollectsAs self.now.ledger ticket result }
    {
        match self.ledger.collect(ticket) {
            Ok(reply) => Collected::Settled(reply),
            Err(back) if back.step() <= self.ledger.settled_count() => {
                Collected::Refused(Refusal::Stranger, back)
            }
            Err(back) if self.ledger.stopped() => Collected::Refused(Refusal::Stopped, back),
            Err(back) => Collected::Waiting(back),
        }
    }

    /// Makes a token read all settled steps. The token's new prefix extends its old prefix.
    pub fn read_on(&mut self, history: &MonotoneLog, reader: &mut LogPrefix)
        requires here { history.now ≡ L.history }
        requires own { reader.old.history ≡ L.history }
        ensures read { HasReadSettled L.history L.earlier
            (settled_steps self.old.ledger.log) reader.new }
        ensures begins { StartsWith reader.new.steps reader.old.steps }
        ensures same { self.new ≡ self.old }
    {
        let before = replace(reader, self.writer.reader(history));
        self.writer.take_back(history, before);
    }
}
