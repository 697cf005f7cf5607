//! The packets that travel between nodes.

use crate::identifiers::NodeId;
use crate::messages::Msg;

/// The front message of the lane from one node to another.
#[derive(Clone, Copy, Debug, PartialEq, Eq)]
pub struct DataPacket {
    pub from: NodeId,
    pub to: NodeId,
    /// The lane's incarnation: the number of the step that made its link.
    pub inc: u64,
    /// The message's number on its lane, counted from 1.
    pub number: u64,
    pub msg: Msg,
}

/// A receipt: `to` has taken the message with this number.
#[derive(Clone, Copy, Debug, PartialEq, Eq)]
pub struct ReceiptPacket {
    pub from: NodeId,
    pub to: NodeId,
    pub inc: u64,
    pub number: u64,
}

/// A packet on a link. A data packet travels to `to`; a receipt travels back to `from`.
#[derive(Clone, Copy, Debug, PartialEq, Eq)]
pub enum Packet {
    Carried(DataPacket),
    Receipted(ReceiptPacket),
}
