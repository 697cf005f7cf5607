//! The answers to the events of a run.

ghost use Rattle.std.specs.Prelude.{◌≡◌, ◌+◌, ℕ, IfErr, IfOk, MatchResult, Some};
ghost use Rattle.coord_ledger.specs.declared.trace.RunFaultKind.TheVariants.{OutOfMemory};
ghost use Rattle.coord_ledger.specs.Facade.{DiskEffect, EventInRange, Follows, FollowsTo, HasFailed, IsConsistent, IsCutShort, IsEventFault, IsLost, IsPromised, Machine, disk_held, failed_at, failed_in_run, found_by_crash, model_held, touches_disk};

use super::broken::Broken;
use super::released::forget_all;
use super::run::Run;
use crate::{Answer, Event, RunFaultKind};
use coord_disk::{CrashDisk, Disk};
use std::alloc::Global;

impl<D: CrashDisk> Run<D> {
    /// Ends the run because memory ran out. Keeps only the releases and the disk.
    pub fn lose(self) -> Broken<D>
        ensures kind { result.kind ≡ OutOfMemory }
        ensures released { result.released.items ≡ self.released.items }
        ensures disk { disk_held self.driver ≡ Some result.disk }
    {
        let Run {
            driver,
            tickets,
            seen: _,
            released,
        } = self;
        forget_all(tickets);
        Broken {
            kind: RunFaultKind::OutOfMemory,
            released,
            disk: driver.into_disk(),
        }
    }

    /// Answers one event. If memory for one of the run's lists runs out, or the disk is not opened
    /// after a crash, the run ends, and only its releases and its disk remain.
    pub fn meet(self, alloc: Global, event: Event) -> Result<(Answer, Self), Broken<D>>
        ensures answered { (s : Machine) → IsConsistent s → Follows self s →
            IsPromised (model_held D.model self.driver) event
            → MatchResult result (λ held. FollowsTo s event held.0 held.1) (λ broken.
            IsCutShort s event broken.kind broken.released.items) }
        ensures disk { (s : Machine) → IsConsistent s → Follows self s
            → MatchResult result (λ held.
            DiskEffect D.model D.crashes
            (found_by_crash s event held.0) (touches_disk event held.0) event
            (disk_held self.driver) (disk_held held.1.driver))
            (λ broken. IsLost D.model D.crashes s event
            broken.kind (disk_held self.driver) broken.disk) }
        ensures failures { (n : ℕ) → HasFailed D.model.failures (disk_held self.driver) n
            → MatchResult result (λ held.
            HasFailed D.model.failures (disk_held held.1.driver) (n + failed_at event held.0)) (λ broken.
            D.model.failures broken.disk ≡ n + failed_in_run broken.kind) }
        ensures named { EventInRange event }
        ensures model { IfOk result (λ held. model_held D.model held.1.driver ≡
            model_held D.model self.driver) }
        ensures cause { IfErr result (λ broken.
            IsEventFault (model_held D.model self.driver) event broken.kind) }
    {
        self.driver.lemma_survives();
        let mut held = self;
        let answer = match event {
            Event::Submit(step) => {
                step.lemma_in_range();
                held.submit(step)
            }
            Event::Begin => Ok(held.begin()),
            Event::Commit => Ok(held.commit()),
            Event::Finish => held.finish(),
            Event::Collect(index) => Ok(held.collect(index)),
            Event::Resend => held.resend(),
            Event::Show => Ok(held.show()),
            Event::Crash => return held.crash(alloc),
        };
        match answer {
            Ok(answer) => Ok((answer, held)),
            Err(_) => Err(held.lose()),
        }
    }
}
