//! The timeouts of a client.

ghost use Rattle.coord_admin.specs.Times.{IsUsual};

use std::time::Duration;

/// The number of seconds in which a line has to end, from its first byte on. The time that the server
/// takes to answer earlier lines is not counted.
pub const LINE_SECONDS: u64 = 10;

/// The number of seconds in which a client has to read a reply, once the reply is ready.
pub const REPLY_SECONDS: u64 = 10;

/// The number of seconds that a client may be silent between two lines.
pub const SILENCE_SECONDS: u64 = 15;

/// The number of seconds that a connection may last. The limit is checked only between lines, so no
/// reply that waits for its step is cut off.
pub const CONNECTION_SECONDS: u64 = 600;

/// The number of milliseconds after a close in which the client's input is discarded, so that the
/// client can still read the answer.
pub const DISCARD_MILLIS: u64 = 1_000;

/// The maximum number of reads of the client's input after a close, each of at most 512 bytes.
pub const DISCARD_READS: u64 = 128;

/// The number of times that a temporary failure to accept is retried in a row.
pub const ACCEPT_TRIES: u64 = 100;

/// The number of milliseconds between two attempts to accept.
pub const ACCEPT_REST_MILLIS: u64 = 100;

/// A client's timeouts, one for each of its actions.
#[derive(Clone, Copy, Debug, PartialEq, Eq, Drop)]
pub struct Timeouts {
    pub line: Duration,
    pub reply: Duration,
    pub silence: Duration,
    pub connection: Duration,
    pub discard: Duration,
    pub accept_rest: Duration,
}

impl Timeouts {
    /// Returns the timeouts given by the constants above.
    pub fn usual() -> Self
        ensures { IsUsual result }
    {
        Timeouts {
            line: Duration::from_secs(LINE_SECONDS),
            reply: Duration::from_secs(REPLY_SECONDS),
            silence: Duration::from_secs(SILENCE_SECONDS),
            connection: Duration::from_secs(CONNECTION_SECONDS),
            discard: Duration::from_millis(DISCARD_MILLIS),
            accept_rest: Duration::from_millis(ACCEPT_REST_MILLIS),
        }
    }
}
