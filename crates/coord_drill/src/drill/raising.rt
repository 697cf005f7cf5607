//! The line `version 2`: migrates the empty store in place.

ghost use Rattle.std.specs.Prelude.{◌≡◌, None, Some, [], IfErr, IfOk, is_some};
ghost use Rattle.coord_ledger.specs.Facade.{at_home, disk_held, has_stopped, settled_world};
ghost use Rattle.coord_drill.specs.Faults.{IsOfDisk};
ghost use Rattle.coord_drill.specs.Holding.{IsReadyDrill};
ghost use Rattle.coord_drill.specs.Moments.{CarriesIf, CutsIf, RaisesPart, RaisesTo};
ghost use Rattle.coord_drill.specs.declared.asked.Asked.TheVariants as ask;

use super::{Drill, adopt, forget_all};
use crate::fault::Fault;
use coord_disk::{CrashDisk, Disk};
use coord_ledger::Driver;
use coord_store::Store;
use std::alloc::Global;

impl<D: CrashDisk> Drill<D> {
    /// Starts again in version 2.
    pub(super) fn begin_version_2(self) -> Result<Self, (Fault, D)>
        requires ready { IsReadyDrill self }
        ensures ready { IfOk result IsReadyDrill }
        ensures reported { IfOk result (λ drill.
            CarriesIf D.model D.crashes self ask.Version2 [] drill) }
        ensures cut { IfErr result (CutsIf D.model D.crashes ask.Version2 self) }
        ensures fault { IfErr result (λ refused. IsOfDisk refused.0) }
    {
        let Drill {
            alloc,
            driver,
            mut tickets,
            holds,
            has_begun,
        } = self;
        forget_all(&mut tickets);
        match raise(alloc, driver) {
            Ok(driver) => Ok(Drill {
                alloc,
                driver,
                tickets,
                holds,
                has_begun,
            }),
            Err(refused) => {
                tickets.destroy_empty();
                Err(refused)
            }
        }
    }
}

/// Migrates a ledger's store to version 2, and makes a driver over the store. No flight may be out.
/// Pending steps are lost.
fn raise<D: CrashDisk>(alloc: Global, driver: Driver<D>) -> Result<Driver<D>, (Fault, D)>
    requires home { driver.flight ≡ None }
    ensures home { IfOk result (λ new. new.flight ≡ None) }
    ensures raised { IfOk result (RaisesTo D.model D.crashes driver) }
    ensures cut { IfErr result (RaisesPart D.model driver) }
    ensures fault { IfErr result (λ refused. IsOfDisk refused.0) }
{
    let mut store = store_of(driver);
    match store.migrate() {
        Ok(()) => {}
        Err(fault) => return Err((fault.into(), store.into_disk())),
    }
    let driver = Driver::over(adopt(alloc, store)?);
    driver.lemma_begins();
    Ok(driver)
}

/// Takes the store out of a ledger. No flight may be out. Pending steps are lost.
#[tactic(auto, using(crate::proofs::does::Raising::disk_home))]
fn store_of<D: CrashDisk>(driver: Driver<D>) -> Store<D>
    requires home { driver.flight ≡ None }
    ensures disk { disk_held driver ≡ Some result.disk }
    ensures world { result.world ≡ settled_world driver.ledger.log }
    ensures stopped { is_some result.torn ≡ has_stopped driver.ledger.log }
{
    driver.lemma_begins();
    match driver.into_ledger().close() {
        Ok(store) => store,
        Err(ledger) => {
            drop(ledger);
            unreachable!()
        }
    }
}
