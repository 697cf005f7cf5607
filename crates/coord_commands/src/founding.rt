//! The steps with which a store begins.

ghost use Rattle.std.specs.Prelude.{◌≡◌, ◌+◌, ◌++◌, ◌⊎◌, ◌≤◌, [], ◌∷◌, map, length, Err, IfErr, IfOk, OnOk};
ghost use Rattle.coord_commands.specs.Founding.{IsUnderWay, RefusesToBegin, adding, commands, founder, joining, numbered, orders};
ghost use Rattle.coord_commands.specs.declared.fault.Fault.TheVariants.{OutOfMemory, Refused};
ghost use Rattle.coord_config.specs.Topology.{content};
ghost use Rattle.coord_store.specs.Recovered.{AllFresh};
ghost use Rattle.coord_types.specs.declared.limits.TheConstants.{MAX_BATCH_STEPS};
ghost use Rattle.coord_types.specs.declared.refusals.Refusal.{Refusal as Reason};
ghost use Rattle.coord_types.specs.declared.steps.Step.TheVariants.{Order};
ghost use Rattle.coord_world.specs.protocol.Acceptance.{accepts};
ghost use Rattle.coord_world.specs.protocol.NumberedWorld.{no_world};

use crate::fault::Fault;
use coord_config::{LinkEntry, NodeEntry, Topology};
use coord_types::{Client, Command, MAX_BATCH_STEPS, Refusal, Step, Version};
use coord_world::{Verdict, World};
use std::alloc::{AllocError, Global};

/// The version of a new store's world.
pub const VERSION: u8 = 2;

/// Returns the first steps of a store with a topology: the founder's orders, numbered from 1. In an
/// empty store, each order is fresh after the orders before it. If an order is refused, returns the
/// first refusal. More than 256 steps, which do not fit into one commit, are refused as `PendingFull`.
pub fn founding_steps(alloc: Global, topology: &Topology) -> Result<Vec<Step>, Fault>
    ensures steps { IfOk result (λ steps. steps.items ≡ orders (content topology.now)) }
    ensures fresh { IfOk result (λ steps. AllFresh (no_world 2) (no_world 2) steps.items) }
    ensures few { IfOk result (λ steps. length steps.items ≤ MAX_BATCH_STEPS) }
    ensures refused { IfErr result (λ fault. (fault ≡ OutOfMemory) ⊎
        ((reason : Reason) × (fault ≡ Refused reason) ×
        RefusesToBegin (orders (content topology.now)) reason)) }
{
    let commands = commands(alloc, topology)?;
    submit_all(alloc, &commands)
}

/// Returns the commands that build a topology, in the order of the file: an Add for each node, then a
/// Join for each link.
fn commands(alloc: Global, topology: &Topology) -> Result<Vec<Command>, AllocError>
    ensures { IfOk result (λ list. list.items ≡ commands (content topology.now)) }
{
    let mut list = Vec::new(alloc);
    add_all(&mut list, &topology.nodes)?;
    join_all(&mut list, &topology.links)?;
    Ok(list)
}

fn add_all(list: &mut Vec<Command>, nodes: &[NodeEntry]) -> Result<(), AllocError>
    ensures { OnOk result (list.new.items ≡ list.old.items ++ map adding nodes.now) }
{
    for node in nodes {
        list.extend_from_slice(&[Command::Add(node.id, node.group)])?;
    }
    Ok(())
}

fn join_all(list: &mut Vec<Command>, links: &[LinkEntry]) -> Result<(), AllocError>
    ensures { OnOk result (list.new.items ≡ list.old.items ++ map joining links.now) }
{
    for link in links {
        list.extend_from_slice(&[Command::Join(link.a, link.b)])?;
    }
    Ok(())
}

/// Submits these commands as the founder's orders to an empty store, and returns the steps.
fn submit_all(alloc: Global, commands: &[Command]) -> Result<Vec<Step>, Fault>
    ensures steps { IfOk result (λ steps. steps.items ≡ numbered 1 commands.now) }
    ensures fresh { IfOk result (λ steps. AllFresh (no_world 2) (no_world 2) steps.items) }
    ensures few { IfOk result (λ steps. length steps.items ≤ MAX_BATCH_STEPS) }
    ensures refused { IfErr result (λ fault. (fault ≡ OutOfMemory) ⊎
        ((reason : Reason) × (fault ≡ Refused reason) ×
        RefusesToBegin (numbered 1 commands.now) reason)) }
{
    let mut founding = Founding::new(alloc);
    for command in commands {
        founding.submit(command)?;
    }
    if founding.steps.len() > MAX_BATCH_STEPS {
        return Err(Fault::Refused(Refusal::PendingFull));
    }
    Ok(founding.steps)
}

/// Steps that are submitted to an empty store, before any of them is settled.
#[derive(Drop)]
struct Founding {
    settled: World,
    world: World,
    steps: Vec<Step>,
}

impl Founding {
    fn new(alloc: Global) -> Self
        ensures none { result.steps.items ≡ [] }
        ensures under_way { IsUnderWay result }
    {
        Founding {
            settled: World::empty(alloc, version()),
            world: World::empty(alloc, version()),
            steps: Vec::new(alloc),
        }
    }

    /// Submits the founder's next order.
    fn submit(&mut self, command: &Command) -> Result<(), Fault>
        requires { IsUnderWay self.old }
        ensures under_way { OnOk result (IsUnderWay self.new) }
        ensures taken { OnOk result (self.new.steps.items ≡ self.old.steps.items ++ Order founder
            (length self.old.steps.items + 1) command.now ∷ []) }
        ensures refused { IfErr result (λ fault. (fault ≡ OutOfMemory)
            ⊎ ((reason : Reason) × (fault ≡ Refused reason) ×
            (accepts self.old.world (no_world 2)
            (Order founder (length self.old.steps.items + 1) command.now) ≡ Err reason))) }
    {
        let number = self.steps.len() as u64 + 1;
        let step = Step::Order(founder(), number, *command);
        match self.world.judge(&self.settled, &step) {
            Ok(Verdict::Fresh(_)) => {}
            Ok(Verdict::Repeat(_)) => unreachable!(),
            Err(refusal) => return Err(Fault::Refused(refusal)),
        }
        self.world.apply(&step)?;
        self.steps.extend_from_slice(&[step])?;
        Ok(())
    }
}

/// Returns the version of a new store's world.
fn version() -> Version
    ensures { result ≡ 2 }
{
    Version::new(VERSION).unwrap()
}

/// Returns the client of a store's first orders.
fn founder() -> Client
    ensures { result ≡ founder }
{
    Client::new(16).unwrap()
}
