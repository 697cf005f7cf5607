//! Steps that a world takes, one after another.

ghost use Rattle.std.specs.Prelude.{◌≡◌, ◌⊎◌, ◌↔◌, ◌<◌, ℕ, Some, IsTrue, OnOk, IfOk, IfErr, IfSome};
ghost use Rattle.std.specs.List.{AllByRecursion};
ghost use Rattle.std.specs.Option.{option_copied};
ghost use Rattle.coord_store.specs.GivenOut.{has_given_out, how_many_out};
ghost use Rattle.coord_store.specs.Recovered.{AllFresh};
ghost use Rattle.coord_store.specs.Refused.{StopsAt};
ghost use Rattle.coord_store.specs.declared.faults.StoreFault.TheVariants.{OutOfMemory, BadStep};
ghost use Rattle.coord_world.specs.protocol.Acceptance.{IsFresh, has_sent, lane};
ghost use Rattle.coord_world.specs.protocol.Legal.{Legal};
ghost use Rattle.coord_world.specs.protocol.Next.{fold};
ghost use Rattle.coord_world.specs.protocol.Ranges.{StepInRange};

use crate::StoreFault;
use coord_link::Lane;
use coord_types::{NodeId, Step};
use coord_world::{Verdict, World};
use std::alloc::AllocError;

/// Makes the world take fresh steps. The world before all of them is the settled world. Public
/// because a ledger uses it to compute the world after a flight if the ledger cannot use its front
/// world. Errors: out of memory.
pub fn take_all(world: &mut World, steps: &[Step]) -> Result<(), AllocError>
    requires legal { Legal world.old }
    requires fresh { AllFresh world.old world.old steps.now }
    ensures world { OnOk result (world.new ≡ fold world.old steps.now) }
    ensures legal { Legal world.new }
{
    for step in steps {
        world.apply(step)?;
    }
    Ok(())
}

/// Does nothing. Its contract states the invariants of the types of steps.
pub(crate) fn lemma_in_ranges(steps: &[Step])
    ensures { AllByRecursion StepInRange steps.now }
{
    for step in steps {
        step.lemma_in_range();
    }
}

/// Returns the world after these fresh steps. If the caller passes the world that it has already
/// computed, returns this world; otherwise, returns a copy that takes the steps now. Errors: out of
/// memory.
pub(crate) fn led_to(
    world: &World,
    steps: &[Step],
    made: Option<World>,
) -> Result<World, AllocError>
    requires legal { Legal world.now }
    requires fresh { AllFresh world.now world.now steps.now }
    requires made { IfSome made (λ next. next ≡ fold world.now steps.now) }
    ensures world { IfOk result (λ next. next ≡ fold world.now steps.now) }
{
    match made {
        Some(next) => Ok(next),
        None => {
            let mut next = world.copy()?;
            take_all(&mut next, steps)?;
            Ok(next)
        }
    }
}

/// Returns the lane from one node to another if the lane has this incarnation.
fn lane_of(world: &World, from: NodeId, to: NodeId, inc: u64) -> Option<&Lane>
    ensures { option_copied result ≡ lane world.now from to inc }
{
    let lane = world.lane(from, to)?;
    if lane.inc() == inc { Some(lane) } else { None }
}

/// Tests whether a lane has sent the data packet with this number.
fn has_sent(lane: &Lane, number: u64) -> bool
    ensures { result ≡ has_sent (Some lane.now) number }
{
    number > 0 && number - 1 == lane.base() && !lane.queue().is_empty()
}

/// Tests whether a settled world has sent the packet that a step names.
fn has_given_out(settled: &World, step: &Step) -> bool
    ensures { result ≡ has_given_out settled.now step.now }
{
    match *step {
        Step::Order(_, _, _) => true,
        Step::Take(packet) => match lane_of(settled, packet.from, packet.to, packet.inc) {
            None => false,
            Some(sent) => has_sent(sent, packet.number),
        },
        Step::Clear(packet) => match lane_of(settled, packet.from, packet.to, packet.inc) {
            None => false,
            Some(taken) => packet.number <= taken.got(),
        },
    }
}

/// Returns the number of steps before the first step that names a packet that the settled world
/// has not sent.
fn how_many_out(settled: &World, steps: &[Step]) -> usize
    ensures { result ≡ how_many_out settled.now steps.now }
{
    for (index, step) in steps.iter().enumerate() {
        if !has_given_out(settled, step) {
            return index;
        }
    }
    steps.len()
}

/// Tests whether the world takes a step as fresh, and whether the packets of this step and of all
/// steps before it were sent.
fn is_fresh(world: &World, out: usize, index: usize, step: &Step) -> bool
    ensures { IsTrue result ↔ ((index < out) × IsFresh world.now world.now step.now) }
{
    if index >= out {
        return false;
    }
    match world.judge(world, step) {
        Ok(Verdict::Fresh(_)) => true,
        Ok(Verdict::Repeat(_)) => false,
        Err(_) => false,
    }
}

/// Makes the world take the steps of the batch with this number. The world before all of them is
/// the settled world. The function first counts the leading steps whose packets the settled world
/// has sent; a step needs nothing else of the settled world.
pub fn judge_all(world: &mut World, batch: usize, steps: &[Step]) -> Result<(), StoreFault>
    requires legal { Legal world.old }
    ensures world { OnOk result (world.new ≡ fold world.old steps.now) }
    ensures fresh { OnOk result (AllFresh world.old world.old steps.now) }
    ensures legal { Legal world.new }
    ensures fault { IfErr result (λ fault. (fault ≡ OutOfMemory) ⊎
        ((index : ℕ) × (fault ≡ BadStep batch index) × StopsAt world.old steps.now index)) }
{
    let out = how_many_out(world, steps);
    for (index, step) in steps.iter().enumerate() {
        if !is_fresh(world, out, index, step) {
            return Err(StoreFault::BadStep { batch, index });
        }
        world.apply(step)?;
    }
    Ok(())
}
