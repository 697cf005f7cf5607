//! Crashes the disk, and opens it again.

ghost use Rattle.std.specs.Prelude.{◌≡◌, ◌+◌, false, true, ℕ, IfErr, IfOk, MatchResult, Some};
ghost use Rattle.coord_disk.specs.Model.Present.{IsImage};
ghost use Rattle.coord_store.specs.Kept.{has_stopped};
ghost use Rattle.coord_ledger.specs.declared.trace.RunFaultKind.TheVariants.{OutOfMemory};
ghost use Rattle.coord_ledger.specs.Facade.{Crash, DiskEffect, HasFailed, IsAnew, IsConsistent, IsEventFault, IsLost, IsReopenFault, IsReopened, Machine, Opened, Reopens, Represents, Simulates, disk_held, failed_in_run, ledger_over, model_held, settled_count};

use super::Driver;
use crate::{Ledger, RunFaultKind};
use coord_disk::{CrashDisk, Disk};
use coord_store::Store;
use std::alloc::Global;

/// Crashes a disk, and makes a ledger over the disk's content after the crash. If no ledger is
/// made, returns the reason and the disk.
fn reopen<D: CrashDisk>(alloc: Global, disk: D) -> Result<Ledger<D>, (RunFaultKind, D)>
    ensures opened { IfOk result (IsReopened D.model D.crashes
        disk) }
    ensures cause { IfErr result (λ refused.
        IsReopenFault (D.model.keeps_model disk) (D.model.present disk) (D.model.present refused.1) refused.0) }
    ensures failures { MatchResult result (λ ledger.
        HasFailed D.model.failures ledger.disk (D.model.failures disk)) (λ refused. D.model.failures refused.1 ≡
        D.model.failures disk + failed_in_run refused.0) }
    ensures lost { IfErr result (λ refused. D.model.keeps_model disk ≡ true →
        Reopens D.model D.crashes
        (IsImage (D.model.present disk)) disk refused.1) }
{
    let opened = match Store::open(alloc, disk.crash()) {
        Ok(store) => store,
        Err((fault, disk)) => return Err((RunFaultKind::Store(fault), disk)),
    };
    adopt(alloc, opened)
}

/// Makes a ledger over a store that was just opened. If memory runs out, returns the disk.
fn adopt<D: CrashDisk>(alloc: Global, store: Store<D>) -> Result<Ledger<D>, (RunFaultKind, D)>
    requires { has_stopped store ≡ false }
    ensures adopted { IfOk result (λ ledger. ledger ≡ ledger_over store.world store.disk) }
    ensures memory { IfErr result (λ refused. refused.0 ≡ OutOfMemory) }
    ensures back { IfErr result (λ refused. refused.1 ≡ store.disk) }
{
    match Ledger::adopt(alloc, store) {
        Ok(ledger) => Ok(ledger),
        Err((_, store)) => Err((RunFaultKind::OutOfMemory, store.into_disk())),
    }
}

impl<D: CrashDisk> Driver<D> {
    /// Crashes the disk and opens it again; the flight is lost. Returns the number of steps of the
    /// opened world, and the new driver. If no ledger is made, returns the fault and the disk.
    pub fn crash(self, alloc: Global) -> Result<(u64, Self), (RunFaultKind, D)>
        ensures simulates { model_held D.model self ≡ Some true →
            IfOk result (λ opened. Simulates self Crash (Opened opened.0) opened.1) }
        ensures anew { IfOk result (λ opened. IsAnew opened.1) }
        ensures count { IfOk result (λ opened. opened.0 ≡ settled_count opened.1.ledger.log) }
        ensures disk { (s : Machine) → IsConsistent s → Represents self s
            → MatchResult result (λ opened.
            DiskEffect D.model D.crashes s true Crash
            (disk_held self) (disk_held opened.1)) (λ refused.
            IsLost D.model D.crashes s Crash refused.0
            (disk_held self) refused.1) }
        ensures failures { (n : ℕ) → HasFailed D.model.failures (disk_held self) n
            → MatchResult result (λ opened. HasFailed D.model.failures (disk_held opened.1) n)
            (λ refused. D.model.failures refused.1 ≡ n + failed_in_run refused.0) }
        ensures model { IfOk result (λ opened. model_held D.model opened.1 ≡
            model_held D.model self) }
        ensures cause { IfErr result (λ refused.
            IsEventFault (model_held D.model self) Crash refused.0) }
    {
        self.lemma_survives();
        self.ledger.lemma_log_is_consistent();
        match reopen(alloc, self.into_disk()) {
            Ok(ledger) => {
                let count = ledger.settled().count();
                Ok((count, Driver::over(ledger)))
            }
            Err(refused) => Err(refused),
        }
    }
}
