//! The world of nodes, links and sessions.

ghost use Rattle.std.specs.Prelude.{◌≡◌, ◌↔◌, IsTrue, Ok, IfOk, OnOk, OnErr};
ghost use Rattle.std.specs.Option.{option_copied};
ghost use Rattle.coord_types.specs.Table as table;
ghost use Rattle.coord_tables.specs.Links.{lane_at, link_rows};
ghost use Rattle.coord_types.specs.declared.steps.Kind.{Kind};
ghost use Rattle.coord_node.specs.Steps.{kind};
ghost use Rattle.coord_world.specs.protocol.NumberedWorld.{no_world, state};
ghost use Rattle.coord_world.specs.protocol.Next.{next, reply};
ghost use Rattle.coord_world.specs.protocol.Acceptance.{accepts, IsFresh};
ghost use Rattle.coord_world.specs.protocol.Outputs.{outputs, again};
ghost use Rattle.coord_world.specs.protocol.Legal.{Legal};
ghost use Rattle.coord_world.specs.protocol.Ranges.{InRange};
ghost use Rattle.coord_world.specs.protocol.Rows.{RowsFit, listed, rows_of};

mod raising;

use crate::rows::parts::Parts;
use crate::tables::Tables;
use crate::verdicts::Verdict;
use coord_link::Lane;
use coord_node::Node;
use coord_tables::{LinkRow, NodeTable, SessionTable};
use coord_types::{Client, NodeId, Output, Refusal, Reply, Session, Step, Version};
use std::alloc::{AllocError, Global};
use std::marker::Model;

/// A step's reply, and the outputs to release after the reply, in order.
#[derive(Drop, Debug)]
pub struct StepOutcome {
    pub reply: Reply,
    pub outputs: Vec<Output>,
}

/// A world. Contracts see the numbered world of `specs/protocol/NumberedWorld.antt`; the type
/// guarantees the ranges of `specs/protocol/Ranges.antt`.
#[derive(Drop, Debug)]
pub struct World {
    alloc: Global,
    tables: Tables,
}

impl Model for World {
    ghost use Rattle.coord_world.specs.protocol.NumberedWorld.{World as Numbered, world_code};
    ghost use Rattle.coord_world.specs.protocol.Ranges.{InRange};

    ghost Value = { Numbered };

    ghost coded = { world_code };

    ghost view = { λ a. a.tables };

    ghost invariant = { λ a. InRange a.tables };
}

/// Two worlds are equal if they have the same version, count, nodes, links and last orders.
impl PartialEq for World {
    ghost use Rattle.std.specs.Cmp.{decided, partial_equiv_from_equiv};
    ghost use Rattle.coord_world.specs.code.SameWorlds.{same_world, same_world_decides};

    ghost eq = { same_world };

    ghost laws = { partial_equiv_from_equiv (decided same_world same_world_decides) };

    fn eq(&self, other: &World) -> bool
        ensures value { result ≡ same_world self.now other.now }
        ensures same { IsTrue result ↔ (self.now ≡ other.now) }
    {
        self.tables.is_same(&other.tables)
    }
}

impl Eq for World {
    ghost use Rattle.std.specs.Cmp.{decided};
    ghost use Rattle.coord_world.specs.code.SameWorlds.{same_world, same_world_decides};

    ghost laws = { decided same_world same_world_decides };
}

impl World {
    /// Returns the world of this version before any step.
    pub fn empty(alloc: Global, version: Version) -> Self
        ensures value { result ≡ no_world version }
        ensures legal { Legal result }
    {
        version.number();
        World {
            alloc,
            tables: Tables::empty(alloc, version),
        }
    }

    /// Returns the world with these rows. Errors: out of memory.
    pub fn assemble(alloc: Global, parts: Parts) -> Result<Self, AllocError>
        requires { RowsFit (listed parts) }
        ensures rows { IfOk result (λ world. rows_of world ≡ listed parts) }
        ensures ranges { IfOk result (λ world. InRange world) }
    {
        let tables = Tables::assemble(alloc, parts)?;
        Ok(World { alloc, tables })
    }

    /// Returns the rows of the world, each list in ascending order. Errors: out of memory.
    pub fn parts(&self) -> Result<Parts, AllocError>
        ensures rows { IfOk result (λ parts. listed parts ≡ rows_of self.now) }
        ensures fit { IfOk result (λ parts. RowsFit (listed parts)) }
    {
        self.tables.list(self.alloc)
    }

    /// Returns the world's version, which no step changes.
    pub fn version(&self) -> Version
        ensures { result ≡ self.now.version }
    {
        self.tables.version
    }

    /// Returns the number of steps that the world has taken, at most 2^40.
    pub fn count(&self) -> u64
        ensures { result ≡ self.now.count }
    {
        self.tables.count
    }

    /// Does nothing. Its contract states the ranges of every world, legal or not.
    pub fn lemma_in_range(&self)
        ensures { InRange self.now }
    {
        let _ = &self.tables;
    }

    /// Returns a copy of this world. Errors: out of memory.
    pub fn copy(&self) -> Result<World, AllocError>
        ensures { IfOk result (λ copy. copy ≡ self.now) }
    {
        Ok(World {
            alloc: self.alloc,
            tables: self.tables.copy()?,
        })
    }

    /// Returns the node with this number, if it is present.
    pub fn node(&self, id: NodeId) -> Option<&Node>
        ensures { option_copied result ≡ table.get self.now.nodes id }
    {
        self.tables.node(id)
    }

    /// Returns the lane from one node to another, or None if they are not linked.
    pub fn lane(&self, from: NodeId, to: NodeId) -> Option<&Lane>
        ensures { option_copied result ≡ lane_at self.now.links from to }
    {
        self.tables.links.lane(from, to)
    }

    /// Returns the links as rows, in ascending order of their ends.
    pub fn links(&self) -> &[LinkRow]
        ensures { result.now ≡ link_rows self.now.links }
    {
        self.tables.links.rows()
    }

    /// Returns the nodes by their numbers.
    pub fn nodes(&self) -> &NodeTable
        ensures { result.now ≡ self.now.nodes }
    {
        &self.tables.nodes
    }

    /// Returns the clients' last orders by the clients' numbers.
    pub fn sessions(&self) -> &SessionTable
        ensures { result.now ≡ self.now.sessions }
    {
        &self.tables.sessions
    }

    /// Returns a client's last order, if it has one.
    pub fn last(&self, client: Client) -> Option<Session>
        ensures { result ≡ table.get self.now.sessions client }
    {
        self.tables.sessions.get(client).copied()
    }

    /// Returns the verdict on a step, given the settled world: Fresh if this world accepts the step, or Repeat with the
    /// kept reply if the step is a client's last order, sent again. Errors: the first refusal that applies.
    pub fn judge(&self, settled: &World, step: &Step) -> Result<Verdict, Refusal>
        ensures value { result ≡ accepts self.now settled.now step.now }

        // A step with the verdict Fresh will get a reply of this kind, and this world accepts the step over itself too.
        ensures fresh { (k : Kind) → result ≡ Ok (Verdict.Fresh k) →
            IsFresh self.now settled.now step.now }
        ensures itself { (k : Kind) → result ≡ Ok (Verdict.Fresh k) →
            IsFresh self.now self.now step.now }
        ensures kind { (k : Kind) → result ≡ Ok (Verdict.Fresh k) →
            k ≡ kind (state self.now) step.now }
    {
        self.tables.judge(&settled.tables, step)
    }

    /// Carries out a step that was judged fresh. The outputs may be released once the step is settled. Errors: out of
    /// memory; the world is then unchanged.
    pub fn apply(&mut self, step: &Step) -> Result<StepOutcome, AllocError>
        requires legal { Legal self.old }
        requires fresh { IsFresh self.old self.old step.now }
        ensures world { OnOk result (self.new ≡ next self.old step.now) }
        ensures reply { IfOk result (λ outcome. outcome.reply ≡ reply self.old step.now) }
        ensures outputs { IfOk result (λ outcome. outcome.outputs.items ≡
            outputs self.old step.now) }
        ensures legal { Legal self.new }
        ensures err { OnErr result (self.new ≡ self.old) }
    {
        step.lemma_in_range();
        let outcome = self.tables.apply(self.alloc, step)?;
        Ok(outcome)
    }

    /// Returns the packets that may have been lost and are sent again. For each lane, in ascending order, these are the
    /// data packet of its front, and then the receipt of the front if the other end has taken the front. Errors: out of
    /// memory.
    pub fn resend(&self) -> Result<Vec<Output>, AllocError>
        ensures { IfOk result (λ outputs. outputs.items ≡ again self.now) }
    {
        self.tables.again(self.alloc)
    }
}
