//! Crashes the disk, and opens it again.

ghost use Rattle.std.specs.Prelude.{◌≡◌, IfErr, IfOk, string_bytes};
ghost use Rattle.coord_drill.specs.Faults.{IsOfDisk, reopen_fault};
ghost use Rattle.coord_drill.specs.Holding.{IsReadyDrill, Reports};
ghost use Rattle.coord_drill.specs.Moments.{CarriesIf, CutsIf};
ghost use Rattle.coord_drill.specs.declared.asked.Asked.TheVariants as ask;

use super::{Drill, forget_all};
use crate::fault::Fault;
use crate::print::print_opened;
use coord_disk::{CrashDisk, Disk};
use coord_ledger::RunFaultKind;

impl<D: CrashDisk> Drill<D> {
    /// Crashes the disk, and continues with the opened store. Pending steps are lost.
    pub(super) fn crash(self, text: &mut String) -> Result<Self, (Fault, D)>
        requires ready { IsReadyDrill self }
        ensures ready { IfOk result IsReadyDrill }
        ensures reported { IfOk result (λ drill. Reports (string_bytes text.old) (string_bytes text.new)
            (λ reported. CarriesIf D.model D.crashes self ask.Crash reported drill)) }
        ensures cut { IfErr result (CutsIf D.model D.crashes ask.Crash self) }
        ensures fault { IfErr result (λ refused. IsOfDisk refused.0) }
    {
        let Drill {
            alloc,
            driver,
            mut tickets,
            holds: _,
            has_begun,
        } = self;
        forget_all(&mut tickets);
        driver.lemma_begins();
        driver.lemma_survives();
        let (count, driver) = match driver.crash(alloc) {
            Ok(opened) => opened,
            Err((kind, disk)) => {
                tickets.destroy_empty();
                return Err((fault_of(kind), disk));
            }
        };
        driver.lemma_survives();
        let drill = Drill {
            alloc,
            driver,
            tickets,
            holds: false,
            has_begun,
        };
        match print_opened(text, count) {
            Ok(()) => Ok(drill),
            Err(_) => Err(drill.lost()),
        }
    }
}

/// Returns the drill's fault for a disk that could not be opened after a crash.
fn fault_of(kind: RunFaultKind) -> Fault
    ensures reported { result ≡ reopen_fault kind }
    ensures fault { IsOfDisk result }
{
    match kind {
        RunFaultKind::OutOfMemory => Fault::OutOfMemory,
        RunFaultKind::Store(fault) => fault.into(),
    }
}
