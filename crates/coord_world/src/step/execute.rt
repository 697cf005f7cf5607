//! Carries out a step in place, once all memory that it needs is allocated.

ghost use Rattle.std.specs.Prelude.{◌≡◌, ◌≢◌, ◌<◌, ◌-◌, ◌^◌, ◌∷◌, [], ◌++◌, length, None, IsSome, IfOk, OnOk, OnErr};
ghost use Rattle.std.specs.Option.{ForSome};
ghost use Rattle.coord_types.specs.Table as table;
ghost use Rattle.coord_types.specs.declared.steps.Step.TheVariants.{Order};
ghost use Rattle.coord_tables.specs.Links.{lane_at};
ghost use Rattle.coord_link.specs.LaneMachine.{took, cleared};
ghost use Rattle.coord_node.specs.Rules.{lost, request, sends_of, transition};
ghost use Rattle.coord_node.specs.Steps.{transitions_ordered};
ghost use Rattle.coord_world.specs.protocol.NumberedWorld.{state};
ghost use Rattle.coord_world.specs.protocol.Next.{with_transitions, with_transition, on_lane, with_command};
ghost use Rattle.coord_world.specs.protocol.Outputs.{receipt, signals};
ghost use Rattle.coord_world.specs.protocol.Ranges.{carried};
ghost use Rattle.coord_world.specs.code.Fronts.{AreNumbered, front_after, fronts_ordered, fronts_sent};
ghost use Rattle.coord_world.specs.code.NodeTransitions.{CanApply};
ghost use Rattle.coord_world.specs.code.Ready.{IsReadyFor};

use crate::step::outputs::{
    front_after, push_fronts, push_fronts_of_both, push_receipt, push_signal,
};
use crate::tables::Tables;
use coord_link::Lane;
use coord_node::Node;
use coord_types::{Client, Command, DataPacket, NodeId, Output};
use std::alloc::{AllocError, Global};

impl Tables {
    /// Carries out a client's order, and returns its signals and new fronts.
    pub fn obey(
        &mut self,
        alloc: Global,
        client: Client,
        number: u64,
        command: &Command,
    ) -> Result<Vec<Output>, AllocError>
        requires { IsReadyFor self.old (Order client number command.now) }
        ensures world { OnOk result (self.new ≡ with_transitions (with_command self.old command.now)
            (transitions_ordered self.old.version (state self.old) command.now)) }
        ensures outputs { IfOk result (λ outputs. outputs.items ≡
            signals (transitions_ordered self.old.version (state self.old) command.now) ++
            fronts_ordered self.old command.now) }
        ensures err { OnErr result (self.new ≡ self.old) }
    {
        match *command {
            Command::Add(id, group) => self.nodes.insert(id, Node::new(group))?,
            Command::Remove(id) => self.nodes.remove(id),
            Command::Join(a, b) => self.join(alloc, a, b)?,
            Command::Drop(a, b) => return self.drop_link(alloc, a, b),
            Command::Reset(id) => return self.reset(alloc, id),
            Command::Confirm(id, epoch) => self.confirm(id, epoch),
        }
        Ok(Vec::new(alloc))
    }

    /// Handles a data packet that arrived at its receiver, and returns the outputs.
    pub fn deliver(&mut self, alloc: Global, packet: &DataPacket) -> Result<Vec<Output>, AllocError>
        requires taken { ForSome (lane_at self.old.links packet.now.from packet.now.to) (λ l. l.got < 2 ^ 64 - 1) }
        requires acts { CanApply self.old packet.now.to
            (transition self.old.version packet.now.msg (state self.old packet.now.to) packet.now.from)
            (on_lane self.old packet.now.from packet.now.to took).links }
        requires numbered { AreNumbered self.old.links }
        requires near { carried packet.now.msg < 2 ^ 64 - 1 }
        ensures world { OnOk result (self.new ≡
            with_transition (on_lane self.old packet.now.from packet.now.to took) packet.now.to
            (transition self.old.version packet.now.msg (state self.old packet.now.to) packet.now.from)) }
        ensures outputs { IfOk result (λ outputs. outputs.items ≡
            Output.Receipted (receipt packet.now) ∷ (signals
            (record {
              0 = packet.now.to;
              1 = transition self.old.version packet.now.msg (state self.old packet.now.to) packet.now.from;
            } ∷ []) ++
            fronts_sent self.old.links packet.now.to
            (sends_of (transition self.old.version packet.now.msg
            (state self.old packet.now.to) packet.now.from)))) }
        ensures err { OnErr result (self.new ≡ self.old) }
    {
        let node_transition = self.delivered(alloc, *packet)?;
        let mut outputs = Vec::with_capacity(alloc, node_transition.effects.sends.len() + 2)?;
        push_receipt(packet, &mut outputs)?;
        push_signal(&node_transition, &mut outputs)?;
        push_fronts(&self.links, &node_transition, &mut outputs)?;
        self.take_front(packet.from, packet.to);
        self.carry_out(node_transition);
        Ok(outputs)
    }
    /// Requests a reset of a node, and returns the outputs.
    fn reset(&mut self, alloc: Global, id: NodeId) -> Result<Vec<Output>, AllocError>
        requires acts { CanApply self.old id (request self.old.version (state self.old id)) self.old.links }
        requires numbered { AreNumbered self.old.links }
        ensures world { OnOk result (self.new ≡
            with_transition self.old id (request self.old.version (state self.old id))) }
        ensures outputs { IfOk result (λ outputs. outputs.items ≡
            signals (record { 0 = id; 1 = request self.old.version (state self.old id) } ∷ []) ++
            fronts_sent self.old.links id (sends_of (request self.old.version (state self.old id)))) }
        ensures err { OnErr result (self.new ≡ self.old) }
    {
        let node_transition = self.requested(alloc, id)?;
        let mut outputs = Vec::with_capacity(alloc, node_transition.effects.sends.len() + 1)?;
        push_signal(&node_transition, &mut outputs)?;
        push_fronts(&self.links, &node_transition, &mut outputs)?;
        self.carry_out(node_transition);
        Ok(outputs)
    }

    /// Drops the link of two nodes, first at `a` and then at `b`, and returns the outputs.
    fn drop_link(&mut self, alloc: Global, a: NodeId, b: NodeId) -> Result<Vec<Output>, AllocError>
        requires linked { IsSome (lane_at self.old.links a b) }
        requires first { CanApply self.old a (lost (state self.old a) b)
            (with_command self.old (Command.Drop a b)).links }
        requires second { CanApply self.old b (lost (state self.old b) a)
            (with_transition (with_command self.old (Command.Drop a b)) a
            (lost (state self.old a) b)).links }
        requires numbered { AreNumbered self.old.links }
        ensures world { OnOk result (self.new ≡
            with_transition (with_transition (with_command self.old (Command.Drop a b)) a
            (lost (state self.old a) b)) b (lost (state self.old b) a)) }
        ensures outputs { IfOk result (λ outputs. outputs.items ≡
            signals (record { 0 = a; 1 = lost (state self.old a) b } ∷ record {
              0 = b;
              1 = lost (state self.old b) a;
            } ∷ []) ++ fronts_ordered self.old (Command.Drop a b)) }
        ensures err { OnErr result (self.new ≡ self.old) }
    {
        let first = self.dropped(alloc, a, b)?;
        let second = self.dropped(alloc, b, a)?;
        let mut outputs = Vec::new(alloc);
        push_signal(&first, &mut outputs)?;
        push_signal(&second, &mut outputs)?;
        push_fronts_of_both(&self.links, &first, &second, &mut outputs)?;
        self.drop_lanes(a, b);
        self.carry_out(first);
        self.carry_out(second);
        Ok(outputs)
    }

    /// Removes the lanes of a link, with all messages on them.
    fn drop_lanes(&mut self, a: NodeId, b: NodeId)
        requires { IsSome (lane_at self.old.links a b) }
        ensures { self.new ≡ with_command self.old (Command.Drop a b) }
    {
        self.links.part(a, b);
    }

    /// Links two nodes by two empty lanes.
    fn join(&mut self, alloc: Global, a: NodeId, b: NodeId) -> Result<(), AllocError>
        requires one { IsSome (table.get self.old.nodes a) }
        requires other { IsSome (table.get self.old.nodes b) }
        requires apart { a ≢ b }
        requires free { lane_at self.old.links a b ≡ None }
        requires count { self.old.count < 2 ^ 64 - 1 }
        requires room { table.len self.old.links < 2 ^ 8 - 1 }
        ensures ok { OnOk result (self.new ≡ with_command self.old (Command.Join a b)) }
        ensures err { OnErr result (self.new ≡ self.old) }
    {
        let mut one = *self.node(a).unwrap();
        one.gained(alloc, b);
        let mut other = *self.node(b).unwrap();
        other.gained(alloc, a);
        self.links.join(a, b, Lane::new(self.count + 1))?;
        self.nodes.replace(a, one);
        self.nodes.replace(b, other);
        Ok(())
    }

    /// Records that an epoch of a node is confirmed.
    fn confirm(&mut self, id: NodeId, epoch: u64)
        requires { IsSome (table.get self.old.nodes id) }
        ensures { self.new ≡ with_command self.old (Command.Confirm id epoch) }
    {
        let mut node = *self.node(id).unwrap();
        node.confirm(epoch);
        self.nodes.replace(id, node);
    }

    /// Records on a lane that the other end has taken the lane's front.
    fn take_front(&mut self, from: NodeId, to: NodeId)
        requires { ForSome (lane_at self.old.links from to) (λ l.
            l.got < 2 ^ 64 - 1) }
        ensures { self.new ≡ on_lane self.old from to took }
    {
        self.links.take(from, to);
    }

    /// Clears the front of a lane, and returns the packet of its new front, if any.
    pub fn clear_front(
        &mut self,
        alloc: Global,
        from: NodeId,
        to: NodeId,
    ) -> Result<Vec<Output>, AllocError>
        requires there { ForSome (lane_at self.old.links from to) (λ l.
            0 < length l.queue) }
        requires numbered { ForSome (lane_at self.old.links from to) (λ l.
            l.base < 2 ^ 64 - 2) }
        ensures world { OnOk result (self.new ≡ on_lane self.old from to cleared) }
        ensures outputs { IfOk result (λ outputs. outputs.items ≡
            front_after (lane_at self.old.links from to) record {
              0 = from;
              1 = to;
            }) }
        ensures err { OnErr result (self.new ≡ self.old) }
    {
        let outputs = front_after(alloc, &self.links, from, to)?;
        self.links.clear(from, to);
        Ok(outputs)
    }
}
