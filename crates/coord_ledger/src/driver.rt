//! The driver of a ledger.

ghost use Rattle.std.specs.Prelude.{◌≡◌, IfErr, IfOk, IsSomeAnd, None, Some};
ghost use Rattle.std.specs.Option.{option_map};
ghost use Rattle.coord_ledger.specs.Facade.{DiskSurvives, Good, ImagesGiveOneOf, IsConsistent, Machine, MayBegin, Represents, at_home, brought_home, disk_held, flight_out, kept_by};

mod crashing;
mod flying;
mod submitting;

use crate::{Flight, Ledger};
use coord_disk::{CrashDisk, Disk};
use std::marker::Model;

/// A ledger, and its flight if one is out: everything in a run that touches the store. The driver's
/// holder keeps the tickets, the views and the releases, so only the ledger grows in the driver.
/// `into_disk` takes the driver apart.
///
/// Each call simulates an event of the event machine, whatever the holder has released (clause
/// `simulates`). The machine may give the call's answer in its present state, and then the driver
/// is in the state that the machine enters with the answer. The clause `disk` states what the call
/// does to the disk at each moment of the call. Replies, resends and views change nothing: for
/// these call [`Driver::ledger`].
///
/// Contracts see `DriverState` (`specs/ledger/DriverState.antt`) and the machine that the driver
/// simulates (`specs/ledger/Simulates.antt`). The type guarantees that the flight is the ledger's
/// own.
pub struct Driver<D: CrashDisk> {
    ledger: Ledger<D>,
    flight: Option<Flight<D>>,
}

impl<D: CrashDisk> Model for Driver<D> {
    ghost use Rattle.coord_ledger.specs.ledger.DriverState.{DriverState};
    ghost use Rattle.coord_ledger.specs.ledger.Flights.{HoldsFlight};

    ghost Value = { DriverState D };

    ghost view = { λ d. record { ledger = d.ledger; flight = d.flight } };

    ghost invariant = { λ d. HoldsFlight d.ledger d.flight };
}

impl<D: CrashDisk> Driver<D> {
    /// Makes a driver over a ledger that has no flight out.
    pub fn over(ledger: Ledger<D>) -> Self
        requires { ledger.out ≡ None }
        ensures { result ≡ at_home ledger }
    {
        Driver {
            ledger,
            flight: None,
        }
    }

    /// Returns the ledger.
    pub fn ledger(&self) -> &Ledger<D>
        ensures { result.now ≡ self.now.ledger }
    {
        &self.ledger
    }

    /// Does nothing. Its contract states what a crash between two events may leave: a legal world after
    /// a prefix of the accepted steps, which includes every released step. The types of the driver's
    /// parts guarantee this.
    pub fn lemma_survives(&self)
        ensures { (s : Machine) → IsConsistent s → Represents self.now s →
            DiskSurvives D.model (disk_held self.now) s }
    {
        match &self.flight {
            Some(flight) => flight.lemma_images_give_world(),
            None => self.ledger.lemma_images_give_settled(),
        }
    }

    /// Does nothing. Its contract states that a run of events may begin at this driver, if no flight is
    /// out: the invariant of a run (`RunSoFar`) holds for the run without events, on the ledger's disk.
    pub fn lemma_begins(&self)
        requires { self.now.flight ≡ None }
        ensures { MayBegin D.model D.crashes self.now }
    {
        self.ledger.lemma_log_is_consistent();
        self.lemma_survives();
    }

    /// Returns the ledger. No flight may be out.
    pub fn into_ledger(self) -> Ledger<D>
        requires { self.flight ≡ None }
        ensures { result ≡ self.ledger }
    {
        let Driver { ledger, flight } = self;
        match flight {
            None => ledger,
            Some(_) => unreachable!(),
        }
    }

    /// Returns the disk, from the ledger or from the flight that is out.
    pub fn into_disk(self) -> D
        ensures disk { disk_held self ≡ Some result }
        ensures images { ImagesGiveOneOf (D.model.keeps_model result) (D.model.present result) self.ledger.log
            (kept_by self.ledger.log.settled
            (option_map flight_out self.flight) self.ledger.log.doubt) }
    {
        let Driver { ledger, flight } = self;
        match flight {
            Some(flight) => {
                drop(ledger);
                flight.lemma_images_give_world();
                flight.into_disk()
            }
            None => {
                ledger.lemma_log_is_consistent();
                ledger.lemma_images_give_settled();
                match ledger.close() {
                    Ok(store) => store.into_disk(),
                    Err(_) => unreachable!(),
                }
            }
        }
    }

    /// Takes back the flight that is out, if any, and drops its releases. If memory runs out, drops the
    /// ledger too, and returns the disk.
    pub(crate) fn bring_home(self) -> Result<Ledger<D>, D>
        ensures home { IfOk result (λ home. home ≡ brought_home self.ledger self.flight) }
        ensures disk { IfErr result (λ disk. disk_held self ≡ Some disk) }
        ensures out { IfErr result (λ _. IsSomeAnd self.flight (λ flight. flight.mark ≡ Good)) }
    {
        let Driver { mut ledger, flight } = self;
        let Some(flight) = flight else {
            return Ok(ledger);
        };
        match ledger.end_flush(flight) {
            Ok(releases) => {
                releases.lose_rest();
                Ok(ledger)
            }
            Err((_, flight)) => {
                drop(ledger);
                Err(flight.into_disk())
            }
        }
    }
}
