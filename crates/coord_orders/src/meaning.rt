//! The meaning of an answer for its order.

ghost use Rattle.std.specs.Prelude.{◌≡◌};
ghost use Rattle.coord_orders.specs.Meanings.{meaning_of, meaning_of_refusal};

use coord_types::{Refusal, Reply};

/// The answer to the line of an order: a reply or a refusal. A fault or the end of the connection
/// is not an answer.
#[derive(Clone, Copy, Debug, PartialEq, Eq)]
pub enum Answer {
    Replied(Reply),
    Refused(Refusal),
}

/// The meaning of an answer for its order.
#[derive(Clone, Copy, Debug, PartialEq, Eq)]
pub enum Meaning {
    /// The order was carried out, with this reply.
    Done(Reply),
    /// The order was not carried out, and its number is free.
    NotDone,
    /// The outcome is unknown: the same line must be sent again.
    SendAgain,
    /// The number is not the client's last or next number, or it is the last number with another
    /// order: the client and the server disagree on the client's numbers.
    CountLost,
}

impl Answer {
    /// Returns the meaning of an answer.
    pub fn meaning(self) -> Meaning
        ensures { result ≡ meaning_of self }
    {
        match self {
            Answer::Replied(reply) => Meaning::Done(reply),
            Answer::Refused(refusal) => of_refusal(refusal),
        }
    }
}

/// Returns the meaning of a refusal. A refusal that no order can get means that the outcome is
/// unknown.
fn of_refusal(refusal: Refusal) -> Meaning
    ensures { result ≡ meaning_of_refusal refusal }
{
    match refusal {
        Refusal::OutOfTurn | Refusal::NumberReused => Meaning::CountLost,
        Refusal::Exhausted
        | Refusal::UnknownNode
        | Refusal::NodeExists
        | Refusal::HasLinks
        | Refusal::SameNode
        | Refusal::OtherGroup
        | Refusal::LinkExists
        | Refusal::NoLink
        | Refusal::DegreeFull
        | Refusal::LinksFull
        | Refusal::BadEpoch => Meaning::NotDone,
        Refusal::Stopped
        | Refusal::OutOfMemory
        | Refusal::PendingFull
        | Refusal::Old
        | Refusal::Early
        | Refusal::Differs
        | Refusal::NotReleased
        | Refusal::Behind { .. }
        | Refusal::Stranger => Meaning::SendAgain,
    }
}
