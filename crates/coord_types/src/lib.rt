//! The plain values of a reset coordinator: identifiers, sets of nodes, messages, packets,
//! commands, replies and refusals, and the limits (`limits`). Each type guarantees its range, so no
//! caller checks it again.
//!
//! `specs/` holds the definitions that the crates above share: the finite table that computes
//! (`Table`), the set of nodes (`NodeSet`), a node's state (`NodeState`), the ideal world
//! (`IdealWorld`), over which the laws of the protocol are stated, and all printed words and
//! numbers (`Names`). The main theorem is the contracts of `NodeSet`: a mask of 64 bits
//! (`NodeMask`) behaves like the set of numbers that it represents, and lists its members in
//! ascending order.
#![tactic(auto)]

mod identifiers;
mod limits;
mod messages;
mod node_set;
mod outputs;
mod packets;
mod refusals;
mod steps;

pub use identifiers::{Client, Group, Identifier, NodeId, Version};
pub use limits::{
    END_OF_NODES, MAX_BATCH_BYTES, MAX_BATCH_STEPS, MAX_CLIENTS, MAX_DEGREE, MAX_GROUPS,
    MAX_LINE_BYTES, MAX_LINKS, MAX_NODES, MAX_PENDING, MAX_SNAPSHOT_BYTES, MAX_STEPS, MAX_VERSIONS,
    NODES,
};
pub use messages::{Mode, Msg};
pub use node_set::NodeSet;
pub use outputs::Output;
pub use packets::{DataPacket, Packet, ReceiptPacket};
pub use refusals::Refusal;
pub use steps::{Command, Kind, Reply, Session, Step};
