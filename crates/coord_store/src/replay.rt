//! Replays the batches of a journal over the world of its snapshot.

ghost use Rattle.std.specs.Prelude.{◌≡◌, ◌⊎◌, List, OnOk, IfOk, IfErr};
ghost use Rattle.coord_journal.specs.Contents.{bodies};
ghost use Rattle.coord_store.specs.Recovered.{IsBody, Replays, Takes};
ghost use Rattle.coord_store.specs.Refused.{RefusesBatch, RefusesReplay};
ghost use Rattle.coord_store.specs.declared.faults.StoreFault.TheVariants.{OutOfMemory, BadBatch};
ghost use Rattle.coord_types.specs.declared.steps.Step.{Step as Taken};
ghost use Rattle.coord_world.specs.protocol.Legal.{Legal};
ghost use Rattle.coord_world.specs.protocol.Next.{fold};

use crate::StoreFault;
use crate::steps::judge_all;
use coord_batch::{Batch, FaultKind, read_batch};
use coord_world::World;
use std::alloc::Global;

/// Returns the batch that a body encodes, if the batch's first step has the world's next number.
fn read_next(alloc: Global, world: &World, body: &[u8]) -> Result<Batch, StoreFault>
    ensures spelled { IfOk result (λ batch. IsBody world.now body.now batch.steps.items) }
    ensures refused { IfErr result (λ fault. (fault ≡ OutOfMemory) ⊎
        ((fault ≡ BadBatch) × ((steps : List Taken) → IsBody world.now body.now steps → ⊥))) }
{
    let batch = match read_batch(alloc, world.version().number(), body) {
        Ok(batch) => batch,
        Err(fault) if fault.kind == FaultKind::OutOfMemory => return Err(StoreFault::OutOfMemory),
        Err(_) => return Err(StoreFault::BadBatch),
    };
    if batch.first - 1 != world.count() {
        return Err(StoreFault::BadBatch);
    }
    Ok(batch)
}

/// Makes the world take the steps of the batch with this number. None of these steps is settled
/// yet.
fn replay_batch(
    alloc: Global,
    world: &mut World,
    number: usize,
    body: &[u8],
) -> Result<(), StoreFault>
    requires legal { Legal world.old }
    ensures taken { OnOk result ((steps : List Taken) × Takes world.old body.now steps ×
        (world.new ≡ fold world.old steps)) }
    ensures legal { Legal world.new }
    ensures refused { IfErr result (λ fault. (fault ≡ OutOfMemory) ⊎
        RefusesBatch world.old number body.now fault) }
{
    let batch = read_next(alloc, world, body)?;
    judge_all(world, number, &batch.steps)?;
    Ok(())
}

/// Returns the world to which these batches lead from the legal world `start`.
pub fn replay(alloc: Global, start: World, batches: &[&[u8]]) -> Result<World, StoreFault>
    requires { Legal start }
    ensures led { IfOk result (Replays start (bodies batches.now)) }
    ensures legal { IfOk result (λ world. Legal world) }
    ensures refused { IfErr result (λ fault. (fault ≡ OutOfMemory) ⊎
        RefusesReplay start (bodies batches.now) fault) }
{
    let mut world = start;
    for (number, body) in batches.iter().enumerate() {
        match replay_batch(alloc, &mut world, number, body) {
            Ok(()) => {}
            Err(fault) => {
                drop(world);
                return Err(fault);
            }
        }
    }
    Ok(world)
}
