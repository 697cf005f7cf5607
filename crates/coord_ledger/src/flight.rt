//! A flight: steps that are being committed.

ghost use Rattle.std.specs.Prelude.{◌≡◌, ◌⊎◌, ◌+◌, ◌≤◌, true, List, ℕ, length, Err, OnOk, IsErrOf, MatchResult};
ghost use Rattle.coord_types.specs.declared.limits.TheConstants.{MAX_BATCH_STEPS};
ghost use Rattle.coord_disk.specs.Model.Moments.{LeavesOnly};
ghost use Rattle.coord_journal.specs.Text.{HasPlaceIn, IsTextIn};
ghost use Rattle.coord_store.specs.Faults.{failures_in};
ghost use Rattle.coord_store.specs.Kept.{GivesEither, IsOnlyWorld};
ghost use Rattle.coord_store.specs.Recovered.{IsBody};
ghost use Rattle.coord_store.specs.declared.faults.CommitFault.TheVariants.{OutOfMemory, Device, Stopped, Again};
ghost use Rattle.coord_world.specs.protocol.Next.{fold};
ghost use Rattle.coord_ledger.specs.code.Holding.{IsCarried};
ghost use Rattle.coord_ledger.specs.declared.mark.Mark.TheVariants.{New, Good, Torn};

use crate::Mark;
use coord_disk::{Disk, Takable};
use coord_store::{CommitFault, Store};
use coord_types::Step;
use coord_world::World;
use std::marker::Model;

/// The store of a ledger, with the next 1 to 256 steps to commit. A ledger's `end_flush` takes the
/// flight back; nothing else may drop it. Contracts see `FlightState` (`specs/ledger/State.antt`).
/// The type guarantees which world each image of the disk gives: before the commit, the world
/// before the steps; after the commit, the world after them; after a torn commit, either world.
pub struct Flight<D: Disk> {
    pub(crate) first: u64,
    pub(crate) steps: Vec<Step>,
    /// The world that was settled when the flight left, once the store has the world after the steps.
    pub(crate) before: Option<World>,
    /// The world after the steps, until the commit moves it into the store. If the flight has all
    /// pending steps, this world is a copy of the front world. A commit that ran out of memory may have
    /// consumed it; then the next attempt computes it again.
    pub(crate) next: Option<World>,
    pub(crate) mark: Mark,
    pub(crate) store: Store<D>,
}

impl<D: Disk> Model for Flight<D> {
    ghost use Rattle.std.specs.Prelude.{unwrap_or};
    ghost use Rattle.coord_ledger.specs.code.Holding.{IsFlight};
    ghost use Rattle.coord_ledger.specs.ledger.State.{FlightState};

    ghost Value = { FlightState D };

    ghost view = { λ f. record {
      first = f.first;
      steps = f.steps.items;
      world = unwrap_or f.before f.store.world;
      mark = f.mark;
      disk = f.store.disk;
    } };

    ghost invariant = { λ f. IsFlight f.steps.items (unwrap_or f.before f.store.world) f.next f.mark
        f.store };
}

impl<D: Disk> Flight<D> {
    ghost use Rattle.coord_ledger.specs.ledger.Calls.{FlightGives};

    /// Commits the steps. The call takes no lock and never waits for a thread.
    ///
    /// After `OutOfMemory` the caller may try again. After `Device` the flight is torn, and each later
    /// call returns `Stopped`. For a committed flight each call returns `Again`.
    pub fn commit(&mut self) -> Result<(), CommitFault>
        // A crash at any moment of the call leaves bytes that give the world before the steps or the
        // world after them.
        ensures any_moment { D.model.keeps_model self.old.disk ≡ true → self.old.mark ≡ New
            → LeavesOnly D.model self.old.disk self.new.disk
            (GivesEither self.old.world (fold self.old.world self.old.steps)) }
        // If memory runs out, a crash leaves only the world before the steps.
        ensures any_moment_refused { D.model.keeps_model self.old.disk ≡ true → self.old.mark ≡ New →
            IsErrOf result CommitFault.OutOfMemory
            → LeavesOnly D.model self.old.disk self.new.disk
            (IsOnlyWorld self.old.world) }

        // The answer, and the flight after the call.
        ensures tried { self.old.mark ≡ New →
            MatchResult result (λ _. self.new.mark ≡ Good) (λ fault. ((fault ≡ Device) ×
            (self.new.mark ≡ Torn)) ⊎ ((fault ≡ OutOfMemory) × (self.new.mark ≡ New))) }
        ensures again { self.old.mark ≡ Good → (result ≡ Err CommitFault.Again) ×
            (self.new ≡ self.old) }
        ensures stopped { self.old.mark ≡ Torn → (result ≡ Err CommitFault.Stopped) ×
            (self.new ≡ self.old) }
        ensures same_first { self.new.first ≡ self.old.first }
        ensures same_steps { self.new.steps ≡ self.old.steps }
        ensures same_world { self.new.world ≡ self.old.world }

        // The effect on the disk.
        ensures failures { D.model.failures self.new.disk ≡
            D.model.failures self.old.disk + failures_in result }
        ensures calls { D.model.keeps_model self.old.disk ≡ true →
            D.model.clock self.new.disk ≤ D.model.clock self.old.disk + 8 }

        // If the body of the batch fits into the free part of the half, the commit makes no checkpoint.
        ensures calls_where_it_fits { (half : ℕ) (body : List ℕ) →
            D.model.keeps_model self.old.disk ≡ true → self.old.mark ≡ New →
            IsBody self.old.world body self.old.steps →
            HasPlaceIn half (length body) (D.model.present self.old.disk).read
            → D.model.clock self.new.disk ≤ D.model.clock self.old.disk + 4 }
        ensures half_where_it_fits { (half : ℕ) (body : List ℕ) →
            D.model.keeps_model self.old.disk ≡ true → self.old.mark ≡ New →
            IsBody self.old.world body self.old.steps →
            HasPlaceIn half (length body) (D.model.present self.old.disk).read
            → OnOk result (IsTextIn half (D.model.present self.new.disk).read) }
        ensures model { D.model.keeps_model self.new.disk ≡ D.model.keeps_model self.old.disk }
    {
        match self.mark {
            Mark::Good => Err(CommitFault::Again),
            Mark::Torn => Err(CommitFault::Stopped),
            Mark::New => match self.store.commit_to(&self.steps, self.next.take()) {
                Ok(before) => {
                    drop(self.before.replace(before));
                    self.mark = Mark::Good;
                    Ok(())
                }
                Err(CommitFault::Device) => {
                    self.mark = Mark::Torn;
                    Err(CommitFault::Device)
                }
                Err(fault) => Err(fault),
            },
        }
    }

    /// Returns the world that was settled when the flight left.
    pub(crate) fn world(&self) -> &World
        ensures { result.now ≡ self.now.world }
    {
        match &self.before {
            Some(before) => before,
            None => self.store.world(),
        }
    }

    // Takes the flight apart into the number of its steps, its mark, and its store.
    pub(crate) fn into_parts(self) -> (usize, Mark, Store<D>)
        ensures size { result.0 ≡ length self.steps }
        ensures mark { result.1 ≡ self.mark }
        ensures store { IsCarried self result.2 }
    {
        let Flight {
            first: _,
            steps,
            before,
            next,
            mark,
            store,
        } = self;
        let size = steps.len();
        drop(steps);
        drop(before);
        drop(next);
        (size, mark, store)
    }
}

impl<D: Disk + Takable> Flight<D> {
    // Returns the disk and drops the steps. The ledger stays without its store.
    pub(crate) fn into_disk(self) -> D
        ensures { result ≡ self.disk }
    {
        let (_size, _mark, store) = self.into_parts();
        store.into_disk()
    }
}

impl<D: Disk> Flight<D> {
    ghost use Rattle.coord_ledger.specs.ledger.Calls.{FlightGives};

    /// Does nothing. Its contract states the invariant of the type.
    pub fn lemma_images_give_world(&self)
        ensures some { 1 ≤ length self.now.steps }
        ensures most { length self.now.steps ≤ MAX_BATCH_STEPS }
        ensures images { D.model.keeps_model self.now.disk ≡ true → FlightGives D.model.present self.now }
    {
        self.store.lemma_images_give_world();
    }
}
