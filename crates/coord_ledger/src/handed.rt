//! The result of a submitted step.

use crate::Ticket;

/// A ticket for the reply to a submitted step, and whether the step is new. The value must be
/// consumed, because its ticket must be.
pub enum Handed {
    /// The step was accepted.
    Accepted(Ticket),
    /// The step is a client's last order, sent again. The ticket is for the kept reply.
    Repeated(Ticket),
}

impl Handed {
    ghost use Rattle.std.specs.Prelude.{◌≡◌};
    ghost use Rattle.coord_ledger.specs.ledger.Calls.{claim_of};

    /// Returns the ticket.
    pub fn ticket(self) -> Ticket
        ensures { result ≡ claim_of self }
    {
        match self {
            Handed::Accepted(ticket) => ticket,
            Handed::Repeated(ticket) => ticket,
        }
    }
}
