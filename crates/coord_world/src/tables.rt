//! The tables of a world: its step count, its nodes, its links and the clients' last orders. The type `Tables` does not
//! guarantee the ranges of a world.

ghost use Rattle.std.specs.Prelude.{◌≡◌, IfOk, IsTrue, ◌↔◌};
ghost use Rattle.std.specs.Option.{option_copied};
ghost use Rattle.coord_types.specs.Table as table;
ghost use Rattle.coord_world.specs.protocol.NumberedWorld.{no_world};
ghost use Rattle.coord_world.specs.protocol.Acceptance.{lane};

use coord_link::Lane;
use coord_node::Node;
use coord_tables::{LinkTable, NodeTable, SessionTable};
use coord_types::{NodeId, Version};
use std::alloc::{AllocError, Global};
use std::marker::Model;

/// The parts of a world.
#[derive(Drop, Debug)]
pub struct Tables {
    pub version: Version,
    pub count: u64,
    pub nodes: NodeTable,
    pub links: LinkTable,
    pub sessions: SessionTable,
}

impl Model for Tables {
    ghost use Rattle.coord_world.specs.protocol.NumberedWorld.{World, world_code};

    ghost Value = { World };

    ghost coded = { world_code };

    ghost view = { λ a. record {
      version = a.version;
      count = a.count;
      nodes = a.nodes;
      links = a.links;
      sessions = a.sessions;
    } };
}

impl Tables {
    pub fn empty(alloc: Global, version: Version) -> Self
        ensures { result ≡ no_world version }
    {
        Tables {
            version,
            count: 0,
            nodes: NodeTable::new(alloc),
            links: LinkTable::new(alloc),
            sessions: SessionTable::new(alloc),
        }
    }

    pub fn node(&self, id: NodeId) -> Option<&Node>
        ensures { option_copied result ≡ table.get self.now.nodes id }
    {
        self.nodes.get(id)
    }

    /// Returns the lane from one node to another, if it has this incarnation.
    pub fn lane_of(&self, from: NodeId, to: NodeId, inc: u64) -> Option<&Lane>
        ensures { option_copied result ≡ lane self.now from to inc }
    {
        let lane = self.links.lane(from, to)?;
        if lane.inc() == inc { Some(lane) } else { None }
    }

    pub fn is_same(&self, other: &Tables) -> bool
        ensures { IsTrue result ↔ (self.now ≡ other.now) }
    {
        self.version == other.version
            && self.count == other.count
            && self.nodes.is_same(&other.nodes)
            && self.links.is_same(&other.links)
            && self.sessions.is_same(&other.sessions)
    }

    pub fn copy(&self) -> Result<Tables, AllocError>
        ensures { IfOk result (λ copy. copy ≡ self.now) }
    {
        Ok(Tables {
            version: self.version,
            count: self.count,
            nodes: self.nodes.copy()?,
            links: self.links.copy()?,
            sessions: self.sessions.copy()?,
        })
    }
}
