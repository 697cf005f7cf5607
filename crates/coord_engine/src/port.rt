//! The interface for released packets and signals.

ghost use Rattle.std.specs.Prelude.{◌≡◌};
ghost use Rattle.coord_engine.specs.Port.{delivery_of, step_of};

use crate::LogPrefix;
use coord_types::{NodeId, Output, Packet, Step};

/// Carries released packets to the workers of nodes, and signals to the nodes' services. No promise
/// depends on a port: a packet may be lost, arrive twice or arrive late. A call returns false if
/// the port knows that something was lost.
///
/// The ghost members state the possible states of a port after each call. No port has to state more
/// than the defaults. Code that works with any port uses the ghost members to record the requests,
/// their number and their order.
pub trait Port {
    ghost use Rattle.std.specs.Prelude.{ℕ, Bool, ⊤};
    ghost use Rattle.coord_types.specs.declared.packets.Packet.{Packet as Asked};
    ghost use Rattle.coord_engine.specs.MonotoneLog.{Beginning};

    /// The possible states after a request to carry a packet to a node, given the answer.
    ghost carried: { Self → ℕ → Asked → Bool → Self → Type 0 } = { λ _ _ _ _ _. ⊤ };

    /// The signals that may be requested, by the prefix of a history that the token has read, the
    /// number of the signal's step, the node, and the epoch.
    ghost may_signal: { Beginning → ℕ → ℕ → ℕ → Type 0 } = { λ _ _ _ _. ⊤ };

    /// The possible states after a request to signal an epoch of a step to a node, given the answer.
    ghost signalled: { Self → ℕ → ℕ → ℕ → Bool → Self → Type 0 } = { λ _ _ _ _ _ _. ⊤ };

    /// The possible states after a request to hand on the gathered packets, given the answer.
    ghost handed_on: { Self → ℕ → Self → Type 0 } = { λ _ _ _. ⊤ };

    /// Carries a packet to this node. The port may gather packets, so that packets for one place travel
    /// together. Returns false if the packet is lost.
    fn carry(&mut self, to: NodeId, packet: Packet) -> bool
        ensures { carried self.old to packet result self.new };

    /// Signals to the service at this node that a reset has ended there, with the new epoch. The step
    /// with this number sends the signal, and the reader's token has read it among the settled steps.
    fn signal(&mut self, reader: LogPrefix, step: u64, node: NodeId, epoch: u64) -> bool
        requires { may_signal reader step node epoch }
        ensures { signalled self.old step node epoch result self.new };

    /// Hands on the gathered packets, after the last request for a flight. Returns the number of
    /// packets that the port knows to be lost.
    fn hand_on(&mut self) -> u64
        ensures { handed_on self.old result self.new };
}

/// A request to a port for one output. The request for a signal has the number of the signal's
/// step.
#[derive(Clone, Copy)]
pub enum Delivery {
    Carry(NodeId, Packet),
    Signal(u64, NodeId, u64),
}

impl Delivery {
    /// Returns the request for an output. Data is carried to its `to`; a receipt is carried to its
    /// `from`, the sender of the data.
    pub fn of(step: u64, output: Output) -> Self
        ensures { result ≡ delivery_of step output }
    {
        match output {
            Output::Sent(data) => Delivery::Carry(data.to, Packet::Carried(data)),
            Output::Receipted(receipt) => {
                Delivery::Carry(receipt.from, Packet::Receipted(receipt))
            }
            Output::Signalled(node, epoch) => Delivery::Signal(step, node, epoch),
        }
    }
}

/// Returns the step that an arrived packet becomes.
pub fn step_of(packet: Packet) -> Step
    ensures { result ≡ step_of packet }
{
    match packet {
        Packet::Carried(data) => Step::Take(data),
        Packet::Receipted(receipt) => Step::Clear(receipt),
    }
}
