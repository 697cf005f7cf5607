//! Ends a run.

ghost use Rattle.std.specs.Prelude.{◌≡◌, List, None, IfErr, IfOk, IsSomeAnd, MatchResult, Some};
ghost use Rattle.coord_ledger.specs.declared.trace.RunFaultKind.TheVariants.{OutOfMemory};
ghost use Rattle.coord_ledger.specs.Facade.{Answer as Reaction, Completed, Event as What, Follows, Good, LedgerState, RunSoFar, disk_held, run, started};

use super::broken::Broken;
use super::released::forget_all;
use super::run::Run;
use crate::{Ledger, Release, RunFaultKind};
use coord_disk::{CrashDisk, Disk};

impl<D: CrashDisk> Run<D> {
    /// Takes back the flight that is out, and drops the flight's releases and the remaining tickets.
    /// Returns the releases of the run, and the ledger.
    pub fn end(self) -> Result<(Vec<Release>, Ledger<D>), Broken<D>>
        ensures ran { (start : LedgerState D) → (first : D) → (events : List What) →
            (given : List Reaction) → (after : D)
            → RunSoFar D.model D.crashes
            (D.model.keeps_model after) first start events given self.driver
            → Follows self (run (started start) events given)
            → IfOk result (λ r. r.1.disk ≡ Some after →
            Completed D.model D.crashes (started start) events given r.0.items r.1
            (D.model.keeps_model after) first after) }
        ensures home { IfOk result (λ r. r.1.out ≡ None) }
        ensures disk { MatchResult result (λ r. r.1.disk ≡ disk_held self.driver) (λ broken.
            disk_held self.driver ≡ Some broken.disk) }
        ensures refused { IfErr result (λ broken. broken.released.items ≡ self.released.items) }
        ensures out { IfErr result (λ _.
            IsSomeAnd self.driver.flight (λ flight. flight.mark ≡ Good)) }
        ensures kind { IfErr result (λ broken. broken.kind ≡ OutOfMemory) }
    {
        let Run {
            driver,
            tickets,
            seen: _,
            released,
        } = self;
        forget_all(tickets);
        match driver.bring_home() {
            Ok(ledger) => {
                ledger.lemma_images_give_settled();
                Ok((released, ledger))
            }
            Err(disk) => Err(Broken {
                kind: RunFaultKind::OutOfMemory,
                released,
                disk,
            }),
        }
    }
}
