//! Crashes the disk in a run.

ghost use Rattle.std.specs.Prelude.{◌≡◌, ◌+◌, true, ℕ, IfErr, IfOk, MatchResult};
ghost use Rattle.coord_ledger.specs.Facade.{Crash, DiskEffect, Follows, FollowsTo, HasFailed, IsConsistent, IsCutShort, IsEventFault, IsLost, IsPromised, Machine, disk_held, failed_in_run, model_held};

use super::broken::Broken;
use super::released::forget_all;
use super::run::Run;
use crate::{Answer, Seen};
use coord_disk::{CrashDisk, Disk};
use std::alloc::Global;

impl<D: CrashDisk> Run<D> {
    /// Crashes the disk and opens it again. The tickets and the flight are lost. If the run ends here,
    /// returns the reason, the releases and the disk.
    pub fn crash(self, alloc: Global) -> Result<(Answer, Self), Broken<D>>
        ensures answered { (s : Machine) → IsConsistent s → Follows self s →
            IsPromised (model_held D.model self.driver) Crash
            → MatchResult result (λ held. FollowsTo s Crash held.0 held.1) (λ broken.
            IsCutShort s Crash broken.kind broken.released.items) }
        ensures disk { (s : Machine) → IsConsistent s → Follows self s
            → MatchResult result (λ held. DiskEffect D.model D.crashes s true Crash
            (disk_held self.driver) (disk_held held.1.driver)) (λ broken.
            IsLost D.model D.crashes s Crash
            broken.kind (disk_held self.driver) broken.disk) }
        ensures failures { (n : ℕ) → HasFailed D.model.failures (disk_held self.driver) n
            → MatchResult result (λ held. HasFailed D.model.failures (disk_held held.1.driver) n)
            (λ broken. D.model.failures broken.disk ≡ n + failed_in_run broken.kind) }
        ensures model { IfOk result (λ held. model_held D.model held.1.driver ≡
            model_held D.model self.driver) }
        ensures cause { IfErr result (λ broken.
            IsEventFault (model_held D.model self.driver) Crash broken.kind) }
    {
        let Run {
            driver,
            tickets,
            seen: _,
            released,
        } = self;
        forget_all(tickets);
        match driver.crash(alloc) {
            Ok((count, driver)) => {
                let held = Run {
                    driver,
                    tickets: Vec::new(alloc),
                    seen: Seen::new(),
                    released,
                };
                Ok((Answer::Opened(count), held))
            }
            Err((kind, disk)) => Err(Broken {
                kind,
                released,
                disk,
            }),
        }
    }
}
