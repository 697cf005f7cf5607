//! One node and its reset rules.

ghost use Rattle.std.specs.Prelude.{◌≡◌, ◌<◌, ◌^◌, ◌-◌, OnOk, OnErr, IfOk, true, false, []};
ghost use Rattle.coord_types.specs.NodeSet as set;
ghost use Rattle.coord_types.specs.NodeState.{new_node};
ghost use Rattle.coord_node.specs.Rules.{request, on_abort, on_ack, on_ready, lost, with_neighbour};
ghost use Rattle.coord_node.specs.Rules.{acknowledged, finish, wave_on, lost_in, without, sends_of, kept, carries};

use crate::effects::{Effects, sends_to};
use coord_types::{Group, Mode, Msg, NodeId, NodeSet, Version};
use std::alloc::{AllocError, Global};
use std::marker::Model;

/// A node: its group, its mode in a reset, and the number of resets that it has finished. Contracts see the node's
/// state, and the contract of each call cites the reset rule of the same name.
#[derive(Clone, Copy, PartialEq, Eq, Debug)]
pub struct Node {
    group: Group,
    mode: Mode,
    parent: Option<NodeId>,
    pend: NodeSet,
    neighbours: NodeSet,
    epoch: u64,
    confirmed: u64,
    distance: u64,
}

impl Model for Node {
    ghost use Rattle.coord_types.specs.NodeState.{NodeState, state_code};

    ghost Value = { NodeState };

    ghost coded = { state_code };

    ghost view = { λ a. record {
      group = a.group;
      mode = a.mode;
      parent = a.parent;
      pend = a.pend;
      neighbours = a.neighbours;
      epoch = a.epoch;
      confirmed = a.confirmed;
      distance = a.distance;
    } };

    ghost inverse = { λ r. record {
      group = r.group;
      mode = r.mode;
      parent = r.parent;
      pend = r.pend;
      neighbours = r.neighbours;
      epoch = r.epoch;
      confirmed = r.confirmed;
      distance = r.distance;
    } };
}

/// All fields of a node, from which `Node::restore` makes the node.
#[derive(Clone, Copy, Debug)]
pub struct NodeFields {
    pub group: Group,
    pub mode: Mode,
    /// The neighbour to which the node owes its acknowledgement.
    pub parent: Option<NodeId>,
    /// The neighbours from which the node awaits an acknowledgement.
    pub pend: NodeSet,
    pub neighbours: NodeSet,
    /// The number of resets that the node has finished.
    pub epoch: u64,
    /// The last epoch whose signal the service is known to have acted on.
    pub confirmed: u64,
    /// The number of links between the node and the node that began its reset; 0 for a Ready node
    /// and in version 1.
    pub distance: u64,
}

impl Node {
    /// Returns a new node: Ready, without neighbours, in epoch 0.
    pub fn new(group: Group) -> Self
        ensures { result ≡ new_node group }
    {
        Node {
            group,
            mode: Mode::Ready,
            parent: None,
            pend: NodeSet::new(),
            neighbours: NodeSet::new(),
            epoch: 0,
            confirmed: 0,
            distance: 0,
        }
    }

    /// Returns the node with these fields.
    pub fn restore(fields: NodeFields) -> Self
        ensures { result ≡ record {
          group = fields.group;
          mode = fields.mode;
          parent = fields.parent;
          pend = fields.pend;
          neighbours = fields.neighbours;
          epoch = fields.epoch;
          confirmed = fields.confirmed;
          distance = fields.distance;
        } }
    {
        Node {
            group: fields.group,
            mode: fields.mode,
            parent: fields.parent,
            pend: fields.pend,
            neighbours: fields.neighbours,
            epoch: fields.epoch,
            confirmed: fields.confirmed,
            distance: fields.distance,
        }
    }

    /// Returns the group, which never changes.
    pub fn group(&self) -> Group
        ensures { result ≡ self.now.group }
    {
        self.group
    }

    /// Returns the mode: whether the node is in a reset, and in which phase.
    pub fn mode(&self) -> Mode
        ensures { result ≡ self.now.mode }
    {
        self.mode
    }

    /// Returns the neighbour to which this node owes its acknowledgement, if any.
    pub fn parent(&self) -> Option<NodeId>
        ensures { result ≡ self.now.parent }
    {
        self.parent
    }

    /// Returns the neighbours from which the node awaits an acknowledgement.
    pub fn pend(&self) -> NodeSet
        ensures { result ≡ self.now.pend }
    {
        self.pend
    }

    /// Returns the nodes to which this node has links.
    pub fn neighbours(&self) -> NodeSet
        ensures { result ≡ self.now.neighbours }
    {
        self.neighbours
    }

    /// Returns the number of resets that the node has finished.
    pub fn epoch(&self) -> u64
        ensures { result ≡ self.now.epoch }
    {
        self.epoch
    }

    /// Returns the last epoch whose signal the service is known to have acted on.
    pub fn confirmed(&self) -> u64
        ensures { result ≡ self.now.confirmed }
    {
        self.confirmed
    }

    /// Returns the number of links between the node and the node that began its reset; 0 for a
    /// Ready node and in version 1.
    pub fn distance(&self) -> u64
        ensures { result ≡ self.now.distance }
    {
        self.distance
    }

    /// Handles a request to reset this node, in a world of this version. Errors: out of memory; the node is then
    /// unchanged.
    #[tactic(auto, using(coord_types::proofs::Sets::listed))]
    pub fn request(&mut self, alloc: Global, version: Version) -> Result<Effects, AllocError>
        requires { self.old.epoch < 2 ^ 64 - 1 }
        ensures state { OnOk result (self.new ≡ (request version self.old).state) }
        ensures sends { IfOk result (λ d. d.sends.items ≡ sends_of (request version self.old)) }
        ensures finished { IfOk result (λ d. d.finished ≡ (request version self.old).finished) }
        ensures err { OnErr result (self.new ≡ self.old) }
    {
        if self.mode != Mode::Ready {
            return Ok(Effects::idle(alloc));
        }
        if self.neighbours.is_empty() {
            return self.finish(alloc);
        }
        let others = self.neighbours;
        self.wave_on(alloc, version, None, others, 0)
    }

    /// Handles an Abort from a neighbour. A Ready node stores the distance that the Abort carries, or 0 in version 1.
    /// Errors: out of memory; the node is then unchanged.
    #[tactic(auto, using(coord_types::proofs::Sets::listed))]
    pub fn on_abort(
        &mut self,
        alloc: Global,
        version: Version,
        from: NodeId,
        distance: u64,
    ) -> Result<Effects, AllocError>
        requires { distance < 2 ^ 64 - 1 }
        ensures state { OnOk result (self.new ≡ (on_abort version self.old from distance).state) }
        ensures sends { IfOk result (λ d. d.sends.items ≡
            sends_of (on_abort version self.old from distance)) }
        ensures finished { IfOk result (λ d. d.finished ≡
            (on_abort version self.old from distance).finished) }
        ensures err { OnErr result (self.new ≡ self.old) }
    {
        if self.mode != Mode::Ready {
            return Effects::answer(alloc, from);
        }
        let others = self.neighbours.without(from);
        let distance = kept(version, distance);
        if !others.is_empty() {
            return self.wave_on(alloc, version, Some(from), others, distance);
        }
        let effects = Effects::answer(alloc, from)?;
        self.mode = Mode::Converge;
        self.parent = Some(from);
        self.pend = NodeSet::new();
        self.distance = distance;
        Ok(effects)
    }

    /// Handles an Ack from a neighbour. Errors: out of memory; the node is then unchanged.
    #[tactic(auto, using(coord_types::proofs::Sets::listed))]
    pub fn on_ack(&mut self, alloc: Global, from: NodeId) -> Result<Effects, AllocError>
        requires { self.old.epoch < 2 ^ 64 - 1 }
        ensures state { OnOk result (self.new ≡ (on_ack self.old from).state) }
        ensures sends { IfOk result (λ d. d.sends.items ≡ sends_of (on_ack self.old from)) }
        ensures finished { IfOk result (λ d. d.finished ≡ (on_ack self.old from).finished) }
        ensures err { OnErr result (self.new ≡ self.old) }
    {
        if self.pend.is_empty() {
            return Ok(Effects::idle(alloc));
        }
        let mut after = *self;
        after.pend = self.pend.without(from);
        if !after.pend.is_empty() {
            *self = after;
            return Ok(Effects::idle(alloc));
        }
        let effects = after.acknowledged(alloc)?;
        *self = after;
        Ok(effects)
    }

    /// Handles a Ready from a neighbour. Errors: out of memory; the node is then unchanged.
    #[tactic(auto, using(coord_types::proofs::Sets::listed))]
    pub fn on_ready(&mut self, alloc: Global, from: NodeId) -> Result<Effects, AllocError>
        requires { self.old.epoch < 2 ^ 64 - 1 }
        ensures state { OnOk result (self.new ≡ (on_ready self.old from).state) }
        ensures sends { IfOk result (λ d. d.sends.items ≡ sends_of (on_ready self.old from)) }
        ensures finished { IfOk result (λ d. d.finished ≡ (on_ready self.old from).finished) }
        ensures err { OnErr result (self.new ≡ self.old) }
    {
        if self.mode == Mode::Converge && self.parent == Some(from) {
            self.finish(alloc)
        } else {
            Ok(Effects::idle(alloc))
        }
    }

    /// Handles the loss of the link to a neighbour. Errors: out of memory; the node is then unchanged.
    pub fn lost(&mut self, alloc: Global, other: NodeId) -> Result<Effects, AllocError>
        requires { self.old.epoch < 2 ^ 64 - 1 }
        ensures state { OnOk result (self.new ≡ (lost self.old other).state) }
        ensures sends { IfOk result (λ d. d.sends.items ≡ sends_of (lost self.old other)) }
        ensures finished { IfOk result (λ d. d.finished ≡ (lost self.old other).finished) }
        ensures err { OnErr result (self.new ≡ self.old) }
    {
        let awaited = self.pend.contains(other);
        let child = self.parent == Some(other);
        let mut rest = self.without(other);
        let effects = rest.go_on(alloc, awaited, child)?;
        *self = rest;
        Ok(effects)
    }

    /// Handles a new link to another node.
    pub fn gained(&mut self, alloc: Global, other: NodeId) -> Effects
        ensures state { self.new ≡ with_neighbour self.old other }
        ensures sends { result.sends.items ≡ [] }
        ensures finished { result.finished ≡ false }
    {
        self.neighbours = self.neighbours.with(other);
        Effects::idle(alloc)
    }

    /// Records that the service has acted on the signals up to this epoch.
    pub fn confirm(&mut self, epoch: u64)
        ensures { self.new ≡ record self.old { confirmed = epoch } }
    {
        self.confirmed = epoch;
    }

    /// Sends Ready to every neighbour except the parent, and enters the next epoch.
    fn finish(&mut self, alloc: Global) -> Result<Effects, AllocError>
        requires { self.old.epoch < 2 ^ 64 - 1 }
        ensures state { OnOk result (self.new ≡ (finish self.old).state) }
        ensures sends { IfOk result (λ d. d.sends.items ≡ sends_of (finish self.old)) }
        ensures finished { IfOk result (λ d. d.finished ≡ true) }
        ensures err { OnErr result (self.new ≡ self.old) }
    {
        let others = match self.parent {
            None => self.neighbours,
            Some(parent) => self.neighbours.without(parent),
        };
        let sends = sends_to(alloc, others, Msg::Ready)?;
        self.mode = Mode::Ready;
        self.parent = None;
        self.epoch += 1;
        self.distance = 0;
        Ok(Effects {
            sends,
            finished: true,
        })
    }

    /// Enters a reset with this distance and parent: passes the abort wave on to `others`, and
    /// awaits their acknowledgements.
    fn wave_on(
        &mut self,
        alloc: Global,
        version: Version,
        parent: Option<NodeId>,
        others: NodeSet,
        distance: u64,
    ) -> Result<Effects, AllocError>
        requires { distance < 2 ^ 64 - 1 }
        ensures state { OnOk result (self.new ≡ (wave_on version self.old parent others distance).state) }
        ensures sends { IfOk result (λ d. d.sends.items ≡
            sends_of (wave_on version self.old parent others distance)) }
        ensures finished { IfOk result (λ d. d.finished ≡ false) }
        ensures err { OnErr result (self.new ≡ self.old) }
    {
        let mut after = *self;
        after.mode = Mode::Abort;
        after.parent = parent;
        after.pend = others;
        after.distance = distance;
        let sends = sends_to(alloc, others, Msg::Abort(after.carries(version)))?;
        *self = after;
        Ok(Effects {
            sends,
            finished: false,
        })
    }

    /// Returns the distance that the node's Aborts carry.
    pub fn carries(&self, version: Version) -> u64
        requires { self.now.distance < 2 ^ 64 - 1 }
        ensures { result ≡ carries version self.now }
    {
        kept(version, self.distance + 1)
    }

    /// Handles the arrival of the last awaited acknowledgement.
    #[tactic(auto, using(coord_types::proofs::Sets::listed))]
    fn acknowledged(&mut self, alloc: Global) -> Result<Effects, AllocError>
        requires { self.old.epoch < 2 ^ 64 - 1 }
        ensures state { OnOk result (self.new ≡ (acknowledged self.old self.old.parent).state) }
        ensures sends { IfOk result (λ d. d.sends.items ≡
            sends_of (acknowledged self.old self.old.parent)) }
        ensures finished { IfOk result (λ d. d.finished ≡
            (acknowledged self.old self.old.parent).finished) }
        ensures err { OnErr result (self.new ≡ self.old) }
    {
        match self.parent {
            None => self.finish(alloc),
            Some(parent) => {
                let effects = Effects::answer(alloc, parent)?;
                self.mode = Mode::Converge;
                Ok(effects)
            }
        }
    }

    /// Returns the node without this neighbour, in the same mode.
    fn without(&self, other: NodeId) -> Node
        ensures { result ≡ record self.now {
          parent = without self.now.parent other;
          pend = set.remove self.now.pend other;
          neighbours = set.remove self.now.neighbours other;
        } }
    {
        let parent = if self.parent == Some(other) {
            None
        } else {
            self.parent
        };
        Node {
            parent,
            pend: self.pend.without(other),
            neighbours: self.neighbours.without(other),
            ..*self
        }
    }

    /// Continues after the link to a neighbour was dropped. `awaited` says whether the neighbour's acknowledgement was
    /// awaited, and `child` whether the neighbour was the parent.
    #[tactic(auto, using(coord_types::proofs::Sets::listed))]
    fn go_on(&mut self, alloc: Global, awaited: bool, child: bool) -> Result<Effects, AllocError>
        requires { self.old.epoch < 2 ^ 64 - 1 }
        ensures state { OnOk result (self.new ≡
            (lost_in self.old.mode self.old awaited child).state) }
        ensures sends { IfOk result
            (λ d. d.sends.items ≡ sends_of (lost_in self.old.mode self.old awaited child)) }
        ensures finished { IfOk result
            (λ d. d.finished ≡ (lost_in self.old.mode self.old awaited child).finished) }
        ensures err { OnErr result (self.new ≡ self.old) }
    {
        match self.mode {
            Mode::Abort if awaited && self.pend.is_empty() => self.acknowledged(alloc),
            Mode::Converge if child => self.finish(alloc),
            _ => Ok(Effects::idle(alloc)),
        }
    }
}

/// Returns the distance to store: 0 in version 1.
fn kept(version: Version, distance: u64) -> u64
    ensures { result ≡ kept version distance }
{
    if version.number() == 1 { 0 } else { distance }
}
