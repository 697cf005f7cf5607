//! The steps of a world, and the replies to them.

ghost use Rattle.std.specs.Prelude.{◌≡◌, Some};
ghost use Rattle.coord_types.specs.Names.{kind_name};
ghost use Rattle.coord_types.specs.StepRanges.{CommandInRange, StepInRange};

use crate::identifiers::{Client, Group, NodeId};
use crate::packets::{DataPacket, ReceiptPacket};
use std::fmt;

/// A client's command.
#[derive(Clone, Copy, Debug, PartialEq, Eq)]
pub enum Command {
    /// Add a node to a group.
    Add(NodeId, Group),
    /// Remove a node that has no links.
    Remove(NodeId),
    /// Link two nodes of one group.
    Join(NodeId, NodeId),
    /// Drop the link of two nodes.
    Drop(NodeId, NodeId),
    /// Start a reset at a node.
    Reset(NodeId),
    /// Record that the service has acted on the node's signals up to this epoch.
    Confirm(NodeId, u64),
}

impl Command {
    /// States the ranges of a command's numbers, and computes nothing. A contract sees a `NodeId`
    /// or a `Group` as a plain number; calling this lemma brings its range into the caller's proof.
    pub fn lemma_in_range(&self)
        ensures { CommandInRange self.now }
    {
        match *self {
            Command::Add(id, group) => {
                id.number();
                group.number();
            }
            Command::Remove(id) | Command::Reset(id) => {
                id.number();
            }
            Command::Confirm(id, _epoch) => {
                id.number();
            }
            Command::Join(a, b) | Command::Drop(a, b) => {
                a.number();
                b.number();
            }
        }
    }
}

/// One step of a world.
#[derive(Clone, Copy, Debug, PartialEq, Eq)]
pub enum Step {
    /// A client's order, with the number that the client gave it.
    Order(Client, u64, Command),
    /// A node takes the data packet that arrived.
    Take(DataPacket),
    /// The sender of a message clears it, because this receipt arrived.
    Clear(ReceiptPacket),
}

impl Step {
    /// States the ranges of a step's numbers, and computes nothing.
    pub fn lemma_in_range(&self)
        ensures { StepInRange self.now }
    {
        if let Step::Order(client, _, command) = *self {
            client.number();
            command.lemma_in_range();
        }
    }
}

/// The kind of a reply.
#[derive(Clone, Copy, Debug, PartialEq, Eq)]
pub enum Kind {
    /// A command other than Reset was carried out.
    Done,
    /// A reset began.
    Started,
    /// A reset of a node without neighbours began and ended.
    Finished,
    /// The node was already in a reset.
    Joined,
    /// A data packet was taken.
    Taken,
    /// A receipted message was cleared.
    Cleared,
}

impl Kind {
    /// Returns the kind's printed name.
    pub fn name(self) -> &'static str
        ensures { result.now ≡ kind_name self }
    {
        match self {
            Kind::Done => "done",
            Kind::Started => "started",
            Kind::Finished => "finished",
            Kind::Joined => "joined",
            Kind::Taken => "taken",
            Kind::Cleared => "cleared",
        }
    }
}

impl fmt::Display for Kind {
    ghost output = { λ kind. Some (kind_name kind) };

    fn fmt<W: fmt::Write>(&self, f: &mut fmt::Formatter<W>) -> fmt::Result {
        f.write_str(self.name())
    }
}

/// The reply to a step: the step's number, counted from 1, and the kind of the reply.
#[derive(Clone, Copy, Debug, PartialEq, Eq)]
pub struct Reply {
    pub step: u64,
    pub kind: Kind,
}

/// A client's last order and its reply. A world keeps them, so it answers a repeated order without carrying it out
/// again.
#[derive(Clone, Copy, Debug, PartialEq, Eq)]
pub struct Session {
    pub number: u64,
    pub command: Command,
    pub reply: Reply,
}
