//! Sends flights out, commits them, and takes them back.

ghost use Rattle.std.specs.Prelude.{◌≡◌, ◌+◌, ◌-◌, List, ℕ, None, Ok, Some};
ghost use Rattle.coord_ledger.specs.Facade.{Begin, Commit, DiskEffect, Finish, HasFailed, IsConsistent, Machine, Release as Row, Represents, Simulates, disk_held, failed_at, finish_answer, found_by_crash, model_held, settling_releases, touches_disk};

use super::Driver;
use crate::{Answer, Flight, Releases};
use coord_disk::{CrashDisk, Disk};
use coord_types::Refusal;

impl<D: CrashDisk> Driver<D> {
    /// Sends a flight out, unless one is out already. Returns `Begun`, `Nothing`, or `Refused` if
    /// memory runs out.
    pub fn begin(&mut self) -> Answer
        ensures simulates { Simulates self.old Begin result self.new }
        ensures log { self.new.ledger.log ≡ self.old.ledger.log }
        ensures disk { disk_held self.new ≡ disk_held self.old }
    {
        if self.flight.is_some() {
            return Answer::Nothing;
        }
        match self.ledger.begin_flush() {
            Ok(Some(flight)) => {
                let count = flight.steps.len() as u64;
                put(&mut self.flight, flight);
                Answer::Begun(count)
            }
            Ok(None) => Answer::Nothing,
            Err(_) => Answer::Refused(Refusal::OutOfMemory),
        }
    }

    /// Commits the flight that is out. Returns `Committed`, `Failed` or `NoFlight`.
    pub fn commit(&mut self) -> Answer
        ensures simulates { Simulates self.old Commit result self.new }
        ensures ledger { self.new.ledger ≡ self.old.ledger }
        ensures disk { (s : Machine) → IsConsistent s → Represents self.old s
            → DiskEffect D.model D.crashes
            (found_by_crash s Commit result) (touches_disk Commit result) Commit
            (disk_held self.old) (disk_held self.new) }
        ensures failures { (n : ℕ) → HasFailed D.model.failures (disk_held self.old) n →
            HasFailed D.model.failures (disk_held self.new) (n + failed_at Commit result) }
        ensures model { model_held D.model self.new ≡ model_held D.model self.old }
    {
        self.lemma_survives();
        match &mut self.flight {
            None => Answer::NoFlight,
            Some(flight) => match flight.commit() {
                Ok(()) => Answer::Committed,
                Err(fault) => Answer::Failed(fault),
            },
        }
    }

    /// Takes back the flight that is out, and returns its releases. Returns None if no flight is out.
    /// If memory runs out, the flight stays out.
    pub fn finish(&mut self) -> Result<Option<Releases>, Refusal>
        ensures simulates { Simulates self.old Finish (finish_answer result self.new) self.new }
        ensures base { self.new.ledger.log.base ≡ self.old.ledger.log.base }
        ensures released { (releases : List Row) → result ≡ Ok (Some releases) →
            releases ≡ settling_releases self.old.ledger.log
            (self.new.ledger.log.settled - self.old.ledger.log.settled) }
        ensures disk { disk_held self.new ≡ disk_held self.old }
    {
        let Some(flight) = self.flight.take() else {
            return Ok(None);
        };
        match self.ledger.end_flush(flight) {
            Ok(releases) => Ok(Some(releases)),
            Err((refusal, flight)) => {
                put(&mut self.flight, flight);
                Err(refusal)
            }
        }
    }
}

/// Stores a flight in a driver that has none.
fn put<D: CrashDisk>(place: &mut Option<Flight<D>>, flight: Flight<D>)
    requires { place.old ≡ None }
    ensures { place.new ≡ Some flight }
{
    match place.replace(flight) {
        None => {}
        Some(_) => unreachable!(),
    }
}
