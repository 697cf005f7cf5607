//! A client's order book: the record of its orders, the line to send next, and the meaning of an
//! answer.
//!
//! `OrderBook` is the code; `specs/Book.antt` defines its results. `specs/Exchange.antt` models a
//! client, the lines and answers in transit, and the part of the server that the client sees. The
//! main theorem is the contract of [`laws::exactly_once`]: whatever is lost, late, received twice
//! or cut off by a crash, the client's orders that the server carried out are exactly the orders
//! that the client noted as done, in order, followed by at most the order in hand.
//! [`laws::count_is_found`] states how the refusals of probes locate a lost count.
#![tactic(auto)]

mod book;
pub mod laws;
mod meaning;

pub use book::{Heard, Kept, Line, OrderBook};
pub use meaning::{Answer, Meaning};
