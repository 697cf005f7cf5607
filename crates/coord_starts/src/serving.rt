//! A start that serves: a ledger over the opened store receives events, and then the power is cut.

ghost use Rattle.std.specs.Prelude.{◌≡◌, true, IfErr, IfOk, None, Some};
ghost use Rattle.coord_disk.specs.Model.Calls.{Crashes};
ghost use Rattle.coord_disk.specs.Model.Present.{whole};
ghost use Rattle.coord_starts.specs.Runs.{ServesOnce, reported_as};
ghost use Rattle.coord_store.specs.Refused.{IsPassing};

use crate::named::lemma_all_named;
use coord_disk::{CrashDisk, Disk};
use coord_ledger::{Event, Ledger, RunFaultKind, Trace, run_events};
use coord_store::{Store, StoreFault};
use std::alloc::Global;

/// Returns the fault of a run of events that ended early, as a fault of the store.
fn fault_of(kind: RunFaultKind) -> StoreFault
    ensures { result ≡ reported_as kind }
{
    match kind {
        RunFaultKind::OutOfMemory => StoreFault::OutOfMemory,
        RunFaultKind::Store(fault) => fault,
    }
}

/// Cuts the power of a ledger's disk, and returns the disk.
fn cut<D: CrashDisk>(ledger: Ledger<D>) -> D
    requires home { ledger.out ≡ None }
    ensures cut { (before : D) → ledger.disk ≡ Some before → Crashes D.model before result }
{
    ledger.lemma_log_is_consistent();
    match ledger.close() {
        Ok(store) => store.into_disk().crash(),
        Err(_) => unreachable!(),
    }
}

/// Gives these events to a ledger over the store, and then cuts the power.
pub fn serve<D: CrashDisk>(
    alloc: Global,
    store: Store<D>,
    events: &[Event],
) -> Result<(Trace, D), (StoreFault, D)>
    requires going { store.torn ≡ None }
    ensures once { D.model.keeps_model store.disk ≡ true → IfOk result (λ r.
        ServesOnce store.world events.now r.0.answers.items r.0.released.items
        (D.model.present r.1).read) }
    ensures cut { D.model.keeps_model store.disk ≡ true → IfOk result (λ r.
        D.model.present r.1 ≡ whole (D.model.present r.1).read) }
    ensures model { IfOk result (λ r. D.model.keeps_model r.1 ≡ D.model.keeps_model store.disk) }
    ensures fault { D.model.keeps_model store.disk ≡ true → IfErr result (λ r. IsPassing r.0) }
{
    lemma_all_named(events);
    store.lemma_images_give_world();
    store.world().lemma_in_range();
    let ledger = match Ledger::adopt(alloc, store) {
        Ok(ledger) => ledger,
        Err((_, store)) => return Err((StoreFault::OutOfMemory, store.into_disk())),
    };
    match run_events(alloc, ledger, events) {
        Ok((trace, ledger)) => Ok((trace, cut(ledger))),
        Err((fault, disk)) => {
            let kind = fault.kind;
            drop(fault);
            Err((fault_of(kind), disk))
        }
    }
}
