//! The buffers and counters of the proxy's event loop, which reads and writes through the traits of `std::io`.
//!
//! An [`Inbox`] splits the bytes of a client into lines, like the server. An [`Outbox`] holds bytes until the stream
//! accepts them. [`ServerLines`] splits the bytes of the server into lines. [`Addresses`] selects the server's address
//! to try next, and the pause before the attempt. A [`NumberSearch`] finds the last number of the proxy's client.
#![tactic(auto)]

mod addresses;
mod inbox;
mod number_search;
mod outbox;
mod server_lines;

pub use addresses::{Addresses, FIRST_PAUSE, LONGEST_PAUSE};
pub use inbox::{Inbox, MOST_PIECE_BYTES};
pub use number_search::NumberSearch;
pub use outbox::{Outbox, Sending};
pub use server_lines::{MOST_ANSWER_BYTES, ServerLines};
