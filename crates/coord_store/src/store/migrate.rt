//! Migration: a store of version 1 becomes a store of version 2.

ghost use Rattle.std.specs.Prelude.{◌≡◌, ◌≢◌, ◌⊎◌, ◌↔◌, true, false, OnOk, IfErr, IsErrOf};
ghost use Rattle.coord_disk.specs.Model.Moments.{Runs};
ghost use Rattle.coord_store.specs.Changing.{Changes};
ghost use Rattle.coord_store.specs.Faults.{failures_in as put_failures};
ghost use Rattle.coord_store.specs.Kept.{has_stopped};
ghost use Rattle.coord_store.specs.Migrating.{IsQuiet, RefusesMigration, failures_in, risen};
ghost use Rattle.coord_store.specs.declared.faults.CommitFault.TheVariants as commit;
ghost use Rattle.coord_store.specs.declared.faults.StoreFault.TheVariants.{Device, Stopped};
ghost use Rattle.coord_world.specs.protocol.Legal.{Legal};

use super::{Store, conclude};
use crate::writing::put_in_place;
use crate::{CommitFault, StoreFault};
use coord_disk::{Disk, Takable};
use coord_world::World;

impl<D: Disk + Takable> Store<D> {
    /// Migrates a store of version 1 to version 2, with at most four device calls. Each node must be
    /// Ready. The store's world stays the same, and each distance is 0. A store of version 2 is left
    /// unchanged, without a device call.
    ///
    /// After `Device` each later call returns `Stopped`; opening the device shows which version it
    /// holds.
    pub fn migrate(&mut self) -> Result<(), StoreFault>
        ensures changes { Changes D.model (risen self.old.world) Device self.old self.new result }
        ensures unchanged { IfErr result (λ fault. fault ≢ Device → self.new ≡ self.old) }
        ensures again { self.old.world.version ≡ 2 → OnOk result (self.new ≡ self.old) }
        ensures quiet { OnOk result ((self.old.world.version ≡ 2) ⊎ IsQuiet self.old.world) }
        ensures runs { Runs D.model self.old.disk self.new.disk 4 (failures_in result) }

        // The refusals, in the order in which they are tested.
        ensures stopped { IsErrOf result StoreFault.Stopped ↔ (has_stopped self.old ≡ true) }
        ensures fault { IfErr result (RefusesMigration self.old.world) }
    {
        self.lemma_images_give_world();
        if self.stopped() {
            return Err(StoreFault::Stopped);
        }
        let world = self.world();
        world.lemma_in_range();
        if world.version().number() == 2 {
            return Ok(());
        }
        if let Some(node) = world.first_busy() {
            return Err(StoreFault::NotQuiet(node));
        }
        let next = match world.raised() {
            Ok(next) => next,
            Err(_) => return Err(StoreFault::OutOfMemory),
        };
        match self.put(next) {
            Ok(_before) => Ok(()),
            Err(CommitFault::Device) => Err(StoreFault::Device),
            Err(_) => Err(StoreFault::OutOfMemory),
        }
    }
}

impl<D: Disk> Store<D> {
    // Replaces the stored world by `next`, and returns the old world.
    fn put(&mut self, next: World) -> Result<World, CommitFault>
        requires legal { Legal next }
        requires going { has_stopped self.old ≡ false }
        ensures changes { Changes D.model next commit.Device self.old self.new result }
        ensures unchanged { IfErr result (λ fault. fault ≢ commit.Device → self.new ≡ self.old) }
        ensures fault { IfErr result (λ fault. (fault ≡ commit.OutOfMemory) ⊎
            (fault ≡ commit.Device)) }
        ensures runs { Runs D.model self.old.disk self.new.disk 4 (put_failures result) }
    {
        let written = put_in_place(self.alloc, &mut self.journal, &next);
        conclude(&mut self.world, &mut self.torn, next, written)
    }
}
