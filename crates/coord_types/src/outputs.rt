//! The outputs of a step besides its reply.

use crate::identifiers::NodeId;
use crate::packets::{DataPacket, ReceiptPacket};

/// An output that is released once the step is settled.
#[derive(Clone, Copy, Debug, PartialEq, Eq)]
pub enum Output {
    /// The receipt of a taken packet.
    Receipted(ReceiptPacket),
    /// The reset signal of a node, with the epoch that the node entered.
    Signalled(NodeId, u64),
    /// A data packet to be sent.
    Sent(DataPacket),
}
