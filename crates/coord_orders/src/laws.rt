//! Laws of the order book: functions without a body whose contracts state the laws.

ghost use Rattle.coord_orders.specs.ExactlyOnce.{ExactlyOnce};
ghost use Rattle.coord_orders.specs.FoundCount.{CountIsFound};
ghost use Rattle.coord_orders.specs.WorkedExchange.{WorkedExchange};

/// The client's orders in the trail are the orders that the client noted as done, in order,
/// followed by at most the order in hand. This holds over any world, and whatever is lost, late,
/// received twice or cut off by a crash. (In a crash the client keeps its stored book, and the
/// server keeps some of its steps, including all settled steps.)
pub fn exactly_once()
    ensures { ExactlyOnce }
{}

/// If the client's last order is not a probe, a probe with any number changes nothing, and its
/// refusal shows whether the number is the client's last number, its next number or another number.
#[tactic(auto, using(crate::proofs::FoundCount::count_is_found))]
pub fn count_is_found()
    ensures { CountIsFound }
{}

/// Worked examples: a lost line, a line that arrives twice, a late answer, a refusal, and a crash
/// of the server before the order is settled.
#[tactic(auto, using(crate::proofs::Worked::worked_exchange))]
pub fn worked_exchange()
    ensures { WorkedExchange }
{}
