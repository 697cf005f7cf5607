//! The rows of a world, as they are stored.

use coord_tables::LinkRow;
use coord_types::{Client, Group, Mode, NodeId, NodeSet, Session, Version};

/// A node's row: its state except its neighbours, which the links give.
#[derive(Clone, Copy, Debug)]
pub struct NodeRow {
    pub id: NodeId,
    pub group: Group,
    pub mode: Mode,
    pub parent: Option<NodeId>,
    /// The neighbours from which the node awaits an acknowledgement.
    pub pend: NodeSet,
    pub epoch: u64,
    pub confirmed: u64,
    /// The number of links between the node and the node that began its reset; 0 for a Ready node,
    /// and in version 1.
    pub distance: u64,
}

/// A client's row: its last order.
#[derive(Clone, Copy, Debug)]
pub struct ClientRow {
    pub client: Client,
    pub session: Session,
}

/// All parts of a world. Contracts see them as the rows of `specs/protocol/Rows.antt`.
#[derive(Drop, Debug)]
pub struct Parts {
    pub version: Version,
    /// The number of steps that the world has taken.
    pub count: u64,
    /// In ascending order of `id`.
    pub nodes: Vec<NodeRow>,
    /// In ascending order of `a`, and then of `b`.
    pub links: Vec<LinkRow>,
    /// In ascending order of `client`.
    pub clients: Vec<ClientRow>,
}
