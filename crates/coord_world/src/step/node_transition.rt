//! The transition of a node in a step.

ghost use Rattle.std.specs.Prelude.{◌<◌, ◌-◌, ◌^◌, IsSome, IfOk};
ghost use Rattle.coord_types.specs.Table as table;
ghost use Rattle.coord_node.specs.Rules.{transition, request, lost};
ghost use Rattle.coord_world.specs.protocol.NumberedWorld.{state};
ghost use Rattle.coord_world.specs.protocol.Ranges.{carried};
ghost use Rattle.coord_world.specs.code.NodeTransitions.{IsTransitionOf};

use crate::tables::Tables;
use coord_node::{Effects, Node};
use coord_types::{DataPacket, Msg, NodeId};
use std::alloc::{AllocError, Global};

/// A node, its new state, and the effects of its transition.
#[derive(Drop, Debug)]
pub struct NodeTransition {
    pub id: NodeId,
    pub node: Node,
    pub effects: Effects,
}

impl Tables {
    /// Returns the transition of a node at which a reset is requested.
    pub fn requested(&self, alloc: Global, id: NodeId) -> Result<NodeTransition, AllocError>
        requires there { IsSome (table.get self.now.nodes id) }
        requires room { (state self.now id).epoch < 2 ^ 64 - 1 }
        ensures { IfOk result (λ node_transition.
            IsTransitionOf node_transition id (request self.now.version (state self.now id))) }
    {
        let mut node = *self.node(id).unwrap();
        let effects = node.request(alloc, self.version)?;
        Ok(NodeTransition { id, node, effects })
    }

    /// Returns the transition of the node at which a data packet arrives.
    pub fn delivered(&self, alloc: Global, packet: DataPacket) -> Result<NodeTransition, AllocError>
        requires there { IsSome (table.get self.now.nodes packet.to) }
        requires room { (state self.now packet.to).epoch < 2 ^ 64 - 1 }
        requires near { carried packet.msg < 2 ^ 64 - 1 }
        ensures { IfOk result (λ node_transition.
            IsTransitionOf node_transition packet.to
            (transition self.now.version packet.msg (state self.now packet.to) packet.from)) }
    {
        let mut node = *self.node(packet.to).unwrap();
        let effects = match packet.msg {
            Msg::Abort(distance) => node.on_abort(alloc, self.version, packet.from, distance)?,
            Msg::Ack => node.on_ack(alloc, packet.from)?,
            Msg::Ready => node.on_ready(alloc, packet.from)?,
        };
        Ok(NodeTransition {
            id: packet.to,
            node,
            effects,
        })
    }

    /// Returns the transition of a node whose link to another node is dropped.
    pub fn dropped(
        &self,
        alloc: Global,
        id: NodeId,
        other: NodeId,
    ) -> Result<NodeTransition, AllocError>
        requires there { IsSome (table.get self.now.nodes id) }
        requires room { (state self.now id).epoch < 2 ^ 64 - 1 }
        ensures { IfOk result (λ node_transition.
            IsTransitionOf node_transition id (lost (state self.now id) other)) }
    {
        let mut node = *self.node(id).unwrap();
        let effects = node.lost(alloc, other)?;
        Ok(NodeTransition { id, node, effects })
    }
}
