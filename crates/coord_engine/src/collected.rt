//! The answer to a ticket.

use coord_ledger::Ticket;
use coord_types::{Refusal, Reply};

/// The answer to a ticket, given the state under the lock.
pub enum Collected {
    /// The ticket's step is settled, with this reply.
    Settled(Reply),
    /// The ticket will get no reply.
    Refused(Refusal, Ticket),
    /// The ticket's step is not settled yet.
    Waiting(Ticket),
}
