//! The content of a topology file.

use coord_types::{Group, NodeId};

/// A node to add, and its group.
#[derive(Clone, Copy, Debug, PartialEq, Eq)]
pub struct NodeEntry {
    pub id: NodeId,
    pub group: Group,
}

/// Two nodes to link.
#[derive(Clone, Copy, Debug, PartialEq, Eq)]
pub struct LinkEntry {
    pub a: NodeId,
    pub b: NodeId,
}

/// The initial nodes and links of a new store.
#[derive(Debug, Drop)]
pub struct Topology {
    /// The size of a half, from 32,768 to 16,777,216 bytes.
    pub half: u64,
    /// The nodes, in the order of the file, possibly with repetitions. The links are stored in the
    /// same way.
    pub nodes: Vec<NodeEntry>,
    pub links: Vec<LinkEntry>,
}
