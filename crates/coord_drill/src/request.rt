//! The requests that a drill's lines make.

use coord_types::{Client, Command, DataPacket, NodeId, ReceiptPacket};

/// The request of a line.
#[derive(Clone, Copy)]
pub enum Request {
    /// An order of the operator, with the operator's next number.
    Next(Command),
    /// An order of a client, with the number in the line.
    Order(Client, u64, Command),
    /// The node at the end of this lane takes the packet at the lane's front.
    Take(NodeId, NodeId),
    /// A receipt clears the front of this lane.
    Clear(NodeId, NodeId),
    /// This data packet arrives.
    Data(DataPacket),
    /// This receipt arrives.
    Receipt(ReceiptPacket),
    /// Packets that may have been lost are sent again.
    Resend,
    /// The front world is checked for legality.
    Check,
    /// The settled world is shown.
    Show,
    /// From now on, accepted steps are held, not settled at once.
    Hold,
    /// Pending steps are settled in one flight.
    Flush,
    /// The disk crashes and is opened again; pending steps are lost.
    Crash,
    /// The drill switches to version 2, before its first accepted step.
    Version2,
}
