//! The state of a run between two events.

ghost use Rattle.std.specs.Prelude.{◌≡◌, ◌+◌, ℕ, IfOk, OnErr, Some};
ghost use Rattle.coord_ledger.specs.Facade.{Begin, Collect, Commit, DiskEffect, Finish, Follows, FollowsTo, HasFailed, IsConsistent, IsLeftOut, Machine, Resend, Show, Submit, disk_held, failed_at, found_by_crash, model_held, touches_disk};

use super::released::push_releases;
use crate::{Answer, Driver, Handed, Release, Seen, Ticket};
use coord_disk::{CrashDisk, Disk};
use coord_types::{Refusal, Step};
use std::alloc::AllocError;

/// The driver of a ledger, the tickets, the seen count, and the releases. All agree with the event
/// machine (`Follows`, `specs/ledger/Follows.antt`).
pub struct Run<D: CrashDisk> {
    pub driver: Driver<D>,
    pub tickets: Vec<Option<Ticket>>,
    pub seen: Seen,
    pub released: Vec<Release>,
}

impl<D: CrashDisk> Run<D> {
    /// Submits a step, and keeps its ticket. Errors: out of memory.
    pub fn submit(&mut self, step: Step) -> Result<Answer, AllocError>
        ensures answered { (s : Machine) → IsConsistent s → Follows self.old s →
            IfOk result (λ answer. FollowsTo s (Submit step) answer self.new) }
        ensures err { OnErr result (self.new.released ≡ self.old.released) }
        ensures disk { disk_held self.new.driver ≡ disk_held self.old.driver }
    {
        self.tickets.reserve(1)?;
        match self.driver.submit(step) {
            Ok(Handed::Accepted(ticket)) => {
                let number = ticket.step();
                self.tickets.push_reserved(Some(ticket));
                Ok(Answer::Accepted(number))
            }
            Ok(Handed::Repeated(ticket)) => {
                let number = ticket.step();
                self.tickets.push_reserved(Some(ticket));
                Ok(Answer::Repeated(number))
            }
            Err(refusal) => Ok(Answer::Refused(refusal)),
        }
    }

    /// Sends a flight out, unless one is out already.
    pub fn begin(&mut self) -> Answer
        ensures answered { (s : Machine) → IsConsistent s → Follows self.old s →
            FollowsTo s Begin result self.new }
        ensures disk { disk_held self.new.driver ≡ disk_held self.old.driver }
    {
        self.driver.begin()
    }

    /// Takes back the flight that is out, and appends its releases to the run's releases. Errors: out
    /// of memory.
    pub fn finish(&mut self) -> Result<Answer, AllocError>
        ensures answered { (s : Machine) → IsConsistent s → Follows self.old s →
            IfOk result (λ answer. FollowsTo s Finish answer self.new) }
        ensures cut { (s : Machine) → IsConsistent s → Follows self.old s →
            OnErr result (IsLeftOut s Finish self.new.released.items) }
        ensures disk { disk_held self.new.driver ≡ disk_held self.old.driver }
    {
        match self.driver.finish() {
            Ok(None) => Ok(Answer::NoFlight),
            Ok(Some(releases)) => {
                push_releases(&mut self.released, releases)?;
                Ok(Answer::Finished(self.driver.ledger().settled_count()))
            }
            Err(refusal) => Ok(Answer::Refused(refusal)),
        }
    }

    /// Collects the reply for the ticket with this index.
    pub fn collect(&mut self, index: usize) -> Answer
        ensures answered { (s : Machine) → IsConsistent s → Follows self.old s →
            FollowsTo s (Collect index) result self.new }
        ensures disk { disk_held self.new.driver ≡ disk_held self.old.driver }
    {
        if index >= self.tickets.len() {
            return Answer::NoTicket;
        }
        let Some(ticket) = self.tickets[index].take() else {
            return Answer::NoTicket;
        };
        match self.driver.ledger().collect(ticket) {
            Ok(reply) => Answer::Collected(reply),
            Err(ticket) => {
                if let Some(other) = self.tickets[index].replace(ticket) {
                    other.forget();
                }
                Answer::Waiting
            }
        }
    }

    /// Commits the flight that is out.
    pub fn commit(&mut self) -> Answer
        ensures answered { (s : Machine) → IsConsistent s → Follows self.old s →
            FollowsTo s Commit result self.new }
        ensures disk { (s : Machine) → IsConsistent s → Follows self.old s
            → DiskEffect D.model D.crashes
            (found_by_crash s Commit result) (touches_disk Commit result) Commit
            (disk_held self.old.driver) (disk_held self.new.driver) }
        ensures failures { (n : ℕ) → HasFailed D.model.failures (disk_held self.old.driver) n →
            HasFailed D.model.failures (disk_held self.new.driver) (n + failed_at Commit result) }
        ensures model { model_held D.model self.new.driver ≡ model_held D.model self.old.driver }
    {
        self.driver.commit()
    }

    /// Releases again the packets that may have been lost. Errors: out of memory.
    pub fn resend(&mut self) -> Result<Answer, AllocError>
        ensures answered { (s : Machine) → IsConsistent s → Follows self.old s →
            IfOk result (λ answer. FollowsTo s Resend answer self.new) }
        ensures cut { (s : Machine) → IsConsistent s → Follows self.old s →
            OnErr result (IsLeftOut s Resend self.new.released.items) }
        ensures disk { disk_held self.new.driver ≡ disk_held self.old.driver }
    {
        match self.driver.ledger().resend() {
            Ok(releases) => {
                let count = push_releases(&mut self.released, releases)?;
                Ok(Answer::Resent(count))
            }
            Err(_) => Ok(Answer::Refused(Refusal::OutOfMemory)),
        }
    }

    /// Shows the settled world.
    pub fn show(&mut self) -> Answer
        ensures answered { (s : Machine) → IsConsistent s → Follows self.old s →
            FollowsTo s Show result self.new }
        ensures disk { disk_held self.new.driver ≡ disk_held self.old.driver }
    {
        match self.driver.ledger().show(&mut self.seen) {
            Ok(view) => Answer::Shown(view),
            Err(refusal) => Answer::Refused(refusal),
        }
    }
}
