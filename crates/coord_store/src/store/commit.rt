//! Commits steps.

ghost use Rattle.std.specs.Prelude.{◌≡◌, ◌↔◌, ◌≤◌, None, length, IsTrue, IfOk, IfSome};
ghost use Rattle.std.specs.List.{AllByRecursion};
ghost use Rattle.coord_batch.specs.Batches.{IsNumbered};
ghost use Rattle.coord_types.specs.declared.limits.TheConstants.{MAX_BATCH_STEPS};
ghost use Rattle.coord_journal.specs.declared.layout.TheConstants.{MAX_BODY};
ghost use Rattle.coord_store.specs.Changing.{Commits};
ghost use Rattle.coord_store.specs.Recovered.{AllFresh, Takes};
ghost use Rattle.coord_world.specs.protocol.Legal.{Legal};
ghost use Rattle.coord_world.specs.protocol.Next.{fold};

use super::{Store, conclude};
use crate::steps::{judge_all, led_to, lemma_in_ranges};
use crate::writing::write;
use crate::{CommitFault, StoreFault};
use coord_batch::write_batch;
use coord_disk::Disk;
use coord_types::Step;
use coord_world::World;
use std::alloc::{AllocError, Global};

/// Returns the world after these fresh steps, and the body of their batch. Errors: out of memory.
fn next_batch(
    alloc: Global,
    world: &World,
    steps: &[Step],
    made: Option<World>,
) -> Result<(World, Vec<u8>), AllocError>
    requires some { (1 ≤ length steps.now) × (length steps.now ≤ MAX_BATCH_STEPS) }
    requires numbered { AllByRecursion IsNumbered steps.now }
    requires fresh { AllFresh world.now world.now steps.now }
    requires legal { Legal world.now }
    requires made { IfSome made (λ next. next ≡ fold world.now steps.now) }
    ensures world { IfOk result (λ next. next.0 ≡ fold world.now steps.now) }
    ensures legal { IfOk result (λ next. Legal next.0) }
    ensures taken { IfOk result (λ next. Takes world.now next.1.items steps.now) }
    ensures short { IfOk result (λ next. length next.1.items ≤ MAX_BODY) }
{
    world.lemma_in_range();
    lemma_in_ranges(steps);
    let next = led_to(world, steps, made)?;
    match write_batch(alloc, world.version(), world.count() + 1, steps) {
        Ok(body) => Ok((next, body)),
        Err(fault) => {
            drop(next);
            Err(fault)
        }
    }
}

impl<D: Disk> Store<D> {
    /// Tests whether these steps may be committed: each step is fresh over the world after the steps
    /// before it, and the world before all of them is the settled world. Errors: out of memory.
    pub fn takes(&self, steps: &[Step]) -> Result<bool, AllocError>
        ensures { IfOk result (λ takes. IsTrue takes ↔
            AllFresh self.now.world self.now.world steps.now) }
    {
        let mut next = self.world.copy()?;
        match judge_all(&mut next, 0, steps) {
            Ok(()) => Ok(true),
            Err(fault) => {
                if fault == StoreFault::OutOfMemory {
                    return Err(AllocError);
                }
                Ok(false)
            }
        }
    }

    /// Commits 1 to 256 steps. Each step must be fresh over the world after the steps before it, and
    /// the world before all of them is the settled world. The commit takes four device calls, or eight
    /// if a checkpoint has to make room first.
    ///
    /// After `OutOfMemory` the checkpoint may already have been made. After `Device` each later call
    /// returns `Stopped`; opening the device shows which of the two worlds it holds.
    pub fn commit(&mut self, steps: &[Step]) -> Result<(), CommitFault>
        requires some { (1 ≤ length steps.now) × (length steps.now ≤ MAX_BATCH_STEPS) }
        requires numbered { AllByRecursion IsNumbered steps.now }
        requires fresh { AllFresh self.old.world self.old.world steps.now }

        ensures commits { Commits D.model steps.now self.old self.new result }
    {
        match self.commit_to(steps, None) {
            Ok(_before) => Ok(()),
            Err(fault) => Err(fault),
        }
    }

    /// Commits steps, like `commit`, and returns the world before the steps. A caller that has already
    /// computed the world after the steps passes it as `made`, which saves a copy of the world.
    pub fn commit_to(&mut self, steps: &[Step], made: Option<World>) -> Result<World, CommitFault>
        requires some { (1 ≤ length steps.now) × (length steps.now ≤ MAX_BATCH_STEPS) }
        requires numbered { AllByRecursion IsNumbered steps.now }
        requires fresh { AllFresh self.old.world self.old.world steps.now }
        requires made { IfSome made (λ next. next ≡ fold self.old.world steps.now) }

        ensures commits { Commits D.model steps.now self.old self.new result }
        ensures before { IfOk result (λ before. before ≡ self.old.world) }
    {
        if self.torn.is_some() {
            drop(made);
            return Err(CommitFault::Stopped);
        }
        let (next, body) = match next_batch(self.alloc, &self.world, steps, made) {
            Ok(batch) => batch,
            Err(_) => return Err(CommitFault::OutOfMemory),
        };
        let written = write(self.alloc, &mut self.journal, &self.world, &body);
        conclude(&mut self.world, &mut self.torn, next, written)
    }
}
