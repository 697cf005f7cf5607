//! Opens a store.

ghost use Rattle.std.specs.Prelude.{◌≡◌, ◌≢◌, ◌⊎◌, true, None, MatchResult, IfOk, IfErr};
ghost use Rattle.coord_disk.specs.Model.Moments.{AddsNothing, Runs};
ghost use Rattle.coord_disk.specs.Model.Present.{whole};
ghost use Rattle.coord_journal.specs.Contents.{content_of};
ghost use Rattle.coord_journal.specs.Faults.{IsFormatFault, IsOpenFault as IsJournalFault};
ghost use Rattle.coord_store.specs.Faults.{store_fault_of};
ghost use Rattle.coord_store.specs.Recovered.{Gives, Recovered};
ghost use Rattle.coord_store.specs.Refused.{IsOpenFault, IsPassing, RefusesContent, RefusesOpen, failed_in};
ghost use Rattle.coord_store.specs.declared.faults.StoreFault.TheVariants.{OutOfMemory, Device};
ghost use Rattle.coord_world.specs.protocol.Legal.{Legal};
ghost use Rattle.coord_world.specs.protocol.NumberedWorld.{World as Numbered};

use crate::replay::replay;
use crate::snapshot::read_snapshot;
use crate::{Store, StoreFault};
use coord_disk::Disk;
use coord_journal::{Contents, JournalFault};
use coord_world::World;
use std::alloc::Global;

/// Returns the store's fault for a journal's fault in formatting or opening.
pub fn fault_of(fault: JournalFault) -> StoreFault
    requires { IsFormatFault fault ⊎ IsJournalFault fault }
    ensures { result ≡ store_fault_of fault }
{
    match fault {
        JournalFault::OutOfMemory => StoreFault::OutOfMemory,
        JournalFault::Device => StoreFault::Device,
        JournalFault::NotEmpty => StoreFault::NotEmpty,
        JournalFault::HalfSize => StoreFault::HalfSize,
        JournalFault::NoMagic => StoreFault::NoMagic,
        JournalFault::BadRecord => StoreFault::BadRecord,
        _ => unreachable!(),
    }
}

/// Returns the world that a journal's content gives.
fn read_contents(alloc: Global, contents: &Contents<'_>) -> Result<World, StoreFault>
    ensures gives { IfOk result (Gives (content_of contents.now)) }
    ensures legal { IfOk result (λ world. Legal world) }
    ensures refused { IfErr result (λ fault. (fault ≡ OutOfMemory) ⊎
        RefusesContent (content_of contents.now) fault) }
{
    let start = read_snapshot(alloc, contents)?;
    match replay(alloc, start, &contents.batches) {
        Ok(world) => Ok(world),
        Err(fault) => Err(fault),
    }
}

impl<D: Disk> Store<D> {
    /// Opens the store on a device, with the world that the device's bytes give. The call syncs and
    /// reads, but writes nothing.
    ///
    /// A refusal returns the disk. Bytes that give no world are refused with the first of these faults
    /// that applies: `NoMagic`, `BadRecord`, `BadSnapshot`, `Violated` (by the snapshot's world); then,
    /// batch by batch, `BadBatch` and `BadStep`.
    pub fn open(alloc: Global, disk: D) -> Result<Self, (StoreFault, D)>
        // Bytes that give a world are opened with that world, unless memory runs out or the device
        // fails.
        ensures world { D.model.keeps_model disk ≡ true →
            IfOk result (λ store. Recovered (D.model.present disk).read store.world) }
        ensures only { (w : Numbered) → D.model.keeps_model disk ≡ true →
            Recovered (D.model.present disk).read w →
            MatchResult result (λ store. store.world ≡ w) (λ refused. IsPassing refused.0) }
        ensures fault { D.model.keeps_model disk ≡ true →
            IfErr result (λ refused. RefusesOpen (D.model.present disk).read refused.0) }
        ensures named { IfErr result (λ refused. IsOpenFault refused.0) }

        // The store accepts commits, and the device reads as before.
        ensures going { IfOk result (λ store. store.torn ≡ None) }
        ensures bytes { D.model.keeps_model disk ≡ true → IfOk result (λ store.
            D.model.present store.disk ≡ whole (D.model.present disk).read) }
        ensures unchanged { D.model.keeps_model disk ≡ true →
            IfErr result (λ refused. refused.0 ≢ Device →
            D.model.present refused.1 ≡ whole (D.model.present disk).read) }

        // A crash at any moment of the call leaves only bytes that a crash before the call could have left.
        ensures any_moment { MatchResult result (λ store. AddsNothing D.model disk store.disk)
            (λ refused. AddsNothing D.model disk refused.1) }
        ensures runs { MatchResult result (λ store. Runs D.model disk store.disk 3 0)
            (λ refused. Runs D.model disk refused.1 3 (failed_in refused.0)) }
    {
        let mut bytes = Vec::new(alloc);
        let (journal, contents) = match coord_journal::open(alloc, disk, &mut bytes) {
            Ok(opened) => opened,
            Err((fault, disk)) => return Err((fault_of(fault), disk)),
        };
        match read_contents(alloc, &contents) {
            Ok(world) => Ok(Store::over(alloc, journal, world)),
            Err(fault) => Err((fault, journal.into_disk())),
        }
    }
}
