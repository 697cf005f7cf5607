//! Appends messages to lanes.

ghost use Rattle.std.specs.Prelude.{◌≡◌, ◌∷◌, [], ◌<◌, length, IsSome};
ghost use Rattle.std.specs.Option.{ForSome};
ghost use Rattle.coord_types.specs.Table as table;
ghost use Rattle.coord_tables.specs.Links.{lane_at};
ghost use Rattle.coord_link.specs.LaneMachine.{sent};
ghost use Rattle.coord_link.specs.declared.lane.TheConstants.{PLACES};
ghost use Rattle.coord_world.specs.protocol.Next.{on_lane};
ghost use Rattle.coord_world.specs.code.Sends.{CanSend, sent_lanes};
ghost use Rattle.coord_world.specs.code.NodeTransitions.{node_changed};

use crate::step::node_transition::NodeTransition;
use crate::tables::Tables;
use coord_types::{Msg, NodeId};

impl Tables {
    /// Stores a node's new state, and appends its messages to its lanes.
    pub fn carry_out(&mut self, node_transition: NodeTransition)
        requires there { IsSome (table.get self.old.nodes node_transition.id) }
        requires room { CanSend node_transition.id node_transition.effects.sends.items self.old.links }
        ensures { self.new ≡ node_changed self.old node_transition.id node_transition.node
            node_transition.effects.sends.items }
    {
        let NodeTransition { id, node, effects } = node_transition;
        self.nodes.replace(id, node);
        self.send_all(id, &effects.sends);
    }

    /// Appends messages to the lanes from one node to their receivers.
    fn send_all(&mut self, from: NodeId, sends: &[(NodeId, Msg)])
        requires { CanSend from sends.now self.old.links }
        ensures { self.new ≡ record self.old { links = sent_lanes from sends.now self.old.links } }
    {
        for send in sends {
            self.send(from, send.0, send.1);
        }
    }

    /// Appends a message to the lane from one node to another.
    fn send(&mut self, from: NodeId, to: NodeId, msg: Msg)
        requires { ForSome (lane_at self.old.links from to) (λ l.
            length l.queue < PLACES) }
        ensures { self.new ≡ on_lane self.old from to (sent (msg ∷ [])) }
    {
        self.links.send(from, to, msg);
    }
}
