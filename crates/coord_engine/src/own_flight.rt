//! A flight of an engine.

ghost use Rattle.std.specs.Prelude.{◌≡◌};
ghost use Rattle.coord_ledger.specs.declared.mark.Mark.TheVariants.{Good, New, Torn};
ghost use Rattle.coord_engine.specs.Flights.{CommitsFlight};
ghost use Rattle.coord_engine.specs.Past.{LeavesFlown};

use crate::{LogPrefix, Origin};
use coord_disk::Disk;
use coord_ledger::Flight;
use coord_store::CommitFault;
use std::marker::{Model, PhantomData};

/// A flight of the engine that `L` names, with a token that has read the steps of earlier instances
/// and the steps that were settled when the flight left. Contracts see the flight. The type
/// guarantees that the flight left after these steps. It also guarantees that a crash at any moment
/// since the engine was created has left only worlds after a prefix of these steps and the flight's
/// own steps.
pub struct OwnFlight<D: Disk, L: Origin> {
    pub(crate) flight: Flight<D>,
    pub(crate) reader: LogPrefix,
    pub(crate) of: PhantomData<L>,
}

impl<D: Disk, L: Origin> Model for OwnFlight<D, L> {
    ghost use Rattle.coord_ledger.specs.ledger.State.{FlightState};
    ghost use Rattle.coord_engine.specs.Past.{FliesAfter};

    ghost Value = { FlightState D };

    ghost view = { λ f. f.flight };

    ghost invariant = { λ f. FliesAfter D.model L.history L.earlier L.disk L.base f.reader f.flight };
}

/// Commits a flight. A crash at any moment of the call leaves the world before the flight's steps
/// or the world after them. A flight that is not new is left unchanged.
fn commit<D: Disk>(flight: &mut Flight<D>) -> Result<(), CommitFault>
    ensures commits { flight.old.mark ≡ New → CommitsFlight D.model.failures flight.old result flight.new }
    ensures moments { flight.old.mark ≡ New → LeavesFlown D.model flight.old flight.new result }
    ensures first { flight.new.first ≡ flight.old.first }
    ensures good { flight.old.mark ≡ Good → flight.new ≡ flight.old }
    ensures torn { flight.old.mark ≡ Torn → flight.new ≡ flight.old }
{
    flight.commit()
}

impl<D: Disk, L: Origin> OwnFlight<D, L> {
    /// Commits the flight's steps.
    pub(crate) fn commit(&mut self) -> Result<(), CommitFault>
        ensures commits { self.old.mark ≡ New → CommitsFlight D.model.failures self.old result self.new }
        ensures moments { self.old.mark ≡ New → LeavesFlown D.model self.old self.new result }
    {
        commit(&mut self.flight)
    }
}
