//! A store: a world, and the disk whose images give that world.

ghost use Rattle.std.specs.Prelude.{◌≡◌, true, false, None};
ghost use Rattle.coord_disk.specs.Model.Moments.{LeavesOnly};
ghost use Rattle.coord_journal.specs.Journal.{disk_of, has_stopped as journal_has_stopped};
ghost use Rattle.coord_store.specs.Writing.{Concludes, with_world};
ghost use Rattle.coord_world.specs.protocol.Legal.{Legal};

mod commit;
mod migrate;

use crate::CommitFault;
use coord_disk::{Disk, Takable};
use coord_journal::Journal;
use coord_world::World;
use std::alloc::Global;
use std::marker::Model;
use std::mem::replace;

/// A world that outlives the program. Contracts see the store's disk, its world and, once the
/// device has torn a commit, the world that the commit tried to make (`specs/Kept.antt`). The type
/// guarantees that each image of the disk gives the store's world or, after a torn commit, one of
/// the two worlds.
#[derive(Drop)]
pub struct Store<D: Disk> {
    alloc: Global,
    journal: Journal<D>,
    world: World,
    torn: Option<World>,
}

impl<D: Disk> Model for Store<D> {
    ghost use Rattle.coord_journal.specs.Journal.{disk_of};
    ghost use Rattle.coord_store.specs.Kept.{IsKept, Kept};

    ghost Value = { Kept D };

    ghost view = { λ s. record { disk = disk_of s.journal; world = s.world; torn = s.torn } };

    ghost invariant = { λ s. IsKept D.model s.journal s.world s.torn };
}

impl<D: Disk> Store<D> {
    ghost use Rattle.coord_store.specs.Kept.{Holds, ImagesGive, IsOnlyWorld, has_stopped};
    // Makes a store over a journal whose content gives this world.
    pub(crate) fn over(alloc: Global, journal: Journal<D>, world: World) -> Self
        requires legal { Legal world }
        requires going { journal_has_stopped journal ≡ false }
        requires holds { D.model.keeps_model (disk_of journal) ≡ true → Holds D.model journal world }
        ensures disk { result.disk ≡ disk_of journal }
        ensures world { result.world ≡ world }
        ensures going { result.torn ≡ None }
    {
        Store {
            alloc,
            journal,
            world,
            torn: None,
        }
    }

    /// Returns the world after the last successful commit.
    pub fn world(&self) -> &World
        ensures { result.now ≡ self.now.world }
    {
        &self.world
    }

    /// Tests whether the device has failed in a commit. If so, every later commit is refused.
    pub fn stopped(&self) -> bool
        ensures { result ≡ has_stopped self.now }
    {
        self.torn.is_some()
    }

    /// Does nothing. Its contract states the invariant of every store. A crash outside all calls leaves
    /// bytes that give the store's world.
    pub fn lemma_images_give_world(&self)
        ensures legal { Legal self.now.world }
        ensures images { D.model.keeps_model self.now.disk ≡ true → ImagesGive D.model self.now }
        ensures still { D.model.keeps_model self.now.disk ≡ true → self.now.torn ≡ None →
            LeavesOnly D.model self.now.disk self.now.disk (IsOnlyWorld self.now.world) }
    {
        let _ = &self.world;
    }
}

impl<D: Disk + Takable> Store<D> {
    ghost use Rattle.coord_store.specs.Recovered.{Recovered};

    /// Returns the disk. If no commit was torn, opening the disk gives the store's world.
    pub fn into_disk(self) -> D
        ensures disk { result ≡ self.disk }
        ensures reopens { D.model.keeps_model self.disk ≡ true → self.torn ≡ None →
            Recovered (D.model.present result).read self.world }
    {
        self.journal.into_disk()
    }
}

/// Records the result of writing `next` in place of a store's world. On success `next` becomes the
/// world. If the device failed, `next` is kept as the world that a torn commit tried to make.
/// Returns the old world.
fn conclude(
    world: &mut World,
    torn: &mut Option<World>,
    next: World,
    written: Result<(), CommitFault>,
) -> Result<World, CommitFault>
    ensures answer { result ≡ with_world world.old written }
    ensures keeps { Concludes next world.old world.new torn.old torn.new written }
{
    match written {
        Ok(()) => Ok(replace(world, next)),
        Err(CommitFault::Device) => {
            drop(torn.replace(next));
            Err(CommitFault::Device)
        }
        Err(fault) => {
            drop(next);
            Err(fault)
        }
    }
}
