//! A worker's share.

ghost use Rattle.std.specs.Prelude.{◌≡◌, [], All};
ghost use Rattle.coord_engine.specs.Working.{IsOfPacket};

use crate::Share;
use std::marker::Model;
use std::sync::ledger::Ledger as Count;

/// A share that has notes of packets' steps only. The type guarantees this, because nothing but the
/// type is known of a finished thread's result.
#[derive(Drop)]
pub struct PacketShare<L: Count> {
    pub(crate) share: Share<L>,
}

impl<L: Count> Model for PacketShare<L> {
    ghost use Rattle.std.specs.Prelude.{List, All};
    ghost use Rattle.coord_ledger.specs.declared.ticket.Note.{Note};
    ghost use Rattle.coord_engine.specs.Working.{IsOfPacket};

    ghost Value = { List Note };

    ghost view = { λ s. s.share };

    ghost invariant = { λ s. All IsOfPacket s.share };
}

impl<L: Count> PacketShare<L> {
    /// Wraps a share without notes.
    pub fn new(share: Share<L>) -> Self
        requires { share ≡ [] }
        ensures { result ≡ [] }
    {
        PacketShare { share }
    }

    /// Returns the share.
    pub fn into_share(self) -> Share<L>
        ensures notes { result ≡ self }
        ensures packets { All IsOfPacket result }
    {
        self.share
    }
}
