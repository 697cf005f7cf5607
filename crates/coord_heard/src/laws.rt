//! The laws. Each is the contract of an empty function.

ghost use Rattle.coord_heard.specs.Heard.{OrderIsRead, RefusalIsRead, ReplyIsRead, ShownIsRead};

/// The line that the server prints for a view is parsed as that view.
#[tactic(auto, using(crate::proofs::Heard::shown_is_read))]
pub fn shown_is_read()
    ensures { ShownIsRead }
{}

/// The line of the reply to an order is parsed as that reply.
#[tactic(auto, using(crate::proofs::Heard::reply_is_read))]
pub fn reply_is_read()
    ensures { ReplyIsRead }
{}

/// The line of each refusal that an order may get is parsed as that refusal.
#[tactic(auto, using(crate::proofs::Heard::refusal_is_read))]
pub fn refusal_is_read()
    ensures { RefusalIsRead }
{}

/// The server parses the line that a client prints for an order as that order.
#[tactic(auto, using(crate::proofs::Orders::order_is_read))]
pub fn order_is_read()
    ensures { OrderIsRead }
{}
