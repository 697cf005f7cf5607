//! The requests to the proxy, and the lines of the orders that the proxy numbers.
//!
//! The proxy parses a line as the server does (coord_admin). It also accepts `watch`, and it accepts `confirm` and
//! `reset` without a client and a number, which it sends as client 15. `specs/Requests.antt` defines the request in
//! each line. The main theorem is the contract of [`spell`]: the server reads the line that the proxy sends as this
//! order of client 15 with this number. [`laws`] states that a request of the server keeps its meaning. [`is_reply`],
//! [`is_refusal`] and [`refuses_number`] classify the answers to an order by what became of the order's number.
#![tactic(auto)]

mod answers;
pub mod laws;
mod op;
mod reading;
mod request;
mod spelling;
mod usual;

pub use answers::{is_out_of_turn, is_refusal, is_reply, refuses_number};
pub use op::Op;
pub use reading::read_line;
pub use request::{PROXY_CLIENT, Request};
pub use spelling::spell;
