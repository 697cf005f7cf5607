//! The view of a settled world.

use coord_types::{Group, Mode, NodeId};
use std::marker::Model;

/// A node's row in a view. A parent 0 means that the node has no parent.
#[derive(Clone, Copy, Debug, PartialEq, Eq)]
pub struct NodeView {
    pub node: NodeId,
    pub group: Group,
    pub mode: Mode,
    pub parent: Option<NodeId>,
    pub epoch: u64,
    /// The last epoch whose signal the service is known to have acted on.
    pub confirmed: u64,
}

/// A link's row in a view: its ends, the lesser first.
#[derive(Clone, Copy, Debug, PartialEq, Eq)]
pub struct LinkView {
    pub a: NodeId,
    pub b: NodeId,
    /// The number of the step that made the link.
    pub inc: u64,
}

/// The numbers of accepted and settled steps, and the nodes and links of the settled world in
/// ascending order. Contracts see these four fields.
#[derive(Debug, Drop)]
pub struct View {
    pub accepted: u64,
    pub settled: u64,
    pub nodes: Vec<NodeView>,
    pub links: Vec<LinkView>,
}

impl Model for View {
    ghost use Rattle.coord_view.specs.Shown.{Shown};

    ghost Value = { Shown };

    ghost view = { λ a. record {
      accepted = a.accepted;
      settled = a.settled;
      nodes = a.nodes.items;
      links = a.links.items;
    } };
}
