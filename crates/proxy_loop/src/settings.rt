//! The settings from the command line, and the loop's fixed limits and pauses.

use std::time::Duration;

/// The maximum number of connections accepted from a listener, lines taken from a connection, and reads from the server
/// before others get their turn.
pub(crate) const MOST_AT_ONCE: u32 = 64;

/// The loop takes no further line from a connection while this many bytes of its answers are unsent.
pub(crate) const MOST_UNSENT: usize = 65_536;

/// How long the server's connection is kept while no line waits for an answer, in milliseconds.
pub(crate) const IDLE: u64 = 100;

/// How long the proxy uses one connection to the server while others may wait for the server, in milliseconds.
pub(crate) const MOST_USE: u64 = 1000;

/// The time from a view to the request for the next view while a reset is in progress, in milliseconds.
pub(crate) const RESET_PAUSE: u64 = 5;

/// The longest time from a view to the request for the next view while somebody watches, in milliseconds.
pub(crate) const BEAT: u64 = 15_000;

/// The pause after a failure before another connection is accepted or another probe is sent, in milliseconds.
pub(crate) const FAILURE_PAUSE: u64 = 100;

/// The time in which the header that names a client has to arrive, in milliseconds.
pub(crate) const HEADER_TIME: u64 = 5000;

/// The timeouts, and the limit on connections.
#[derive(Clone, Copy)]
pub struct Settings {
    /// How long a line may wait for its answer.
    pub answer_timeout: Duration,
    /// How long a client may accept none of its answers.
    pub stuck: Duration,
    /// How long the server may send no whole answer.
    pub server_silent: Duration,
    /// How many connections a principal may have.
    pub connections: usize,
}
