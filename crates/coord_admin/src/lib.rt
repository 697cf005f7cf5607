//! The administration of a reset coordinator: requests as lines of JSON, each with one reply line.
//!
//! `serve` reads lines from a `Duplex`, passes requests to a `Desk`, and writes the replies. Its
//! contract is the main theorem: each line that was read gets its reply, in order, and nothing else is
//! written. `specs/Requests.antt` defines the request of a line, `specs/Replies.antt` the replies, and
//! `specs/Stream.antt` the output of `serve` for a whole text, given the answers that the desk may
//! give.
//!
//! `serve_connections` serves one connection after another until the desk's instance is old
//! (`specs/Connections.antt`, `specs/InstanceLimit.antt`). `Halves` makes one connection of a reader
//! and a writer. `Accepted` accepts the connections of a listener, with timeouts for each client.
//! `CountDesk` is a desk that only counts.
#![tactic(auto)]

mod accepting;
mod answer;
mod asking;
mod callers;
mod connections;
mod count_desk;
mod desk;
mod duplex;
mod fault;
mod halves;
mod instance_limit;
mod laws;
mod op;
mod queue;
mod reading;
mod replies;
mod request;
mod session;
mod timed;
mod timeouts;
mod writing;

pub use answer::Answer;
pub use callers::{Accepted, Callers};
pub use connections::{Stop, serve_connections};
pub use count_desk::CountDesk;
pub use desk::Desk;
pub use duplex::{Duplex, NotRead, NotWritten};
pub use fault::{LineFault, ServeFault};
pub use halves::Halves;
pub use laws::{
    counts_are_usual, posted_together_answered_in_turn, worked_replies, worked_requests,
};
pub use op::{identifier_at, number_at};
pub use reading::{member_count, read_request};
pub use request::Request;
pub use session::{Ended, serve};
pub use timed::TimedStream;
pub use timeouts::{
    ACCEPT_REST_MILLIS, ACCEPT_TRIES, CONNECTION_SECONDS, DISCARD_MILLIS, DISCARD_READS,
    LINE_SECONDS, REPLY_SECONDS, SILENCE_SECONDS, Timeouts,
};
