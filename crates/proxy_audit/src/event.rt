//! The events that the audit records.

use std::time::Duration;

/// The maximum number of characters that are recorded of a text that is not recorded as JSON.
pub const MOST_TEXT_CHARS: usize = 64;

/// A client's line, without its line feed.
#[derive(Clone, Copy, Debug)]
pub enum ClientLine<'a> {
    /// A request.
    Request(&'a [u8]),
    /// A line that is not a request.
    Other(&'a [u8]),
    /// A line over the length limit, whose bytes are not kept.
    TooLong,
}

/// An event. `who` is the principal that it concerns.
#[derive(Clone, Copy, Debug)]
pub enum Event<'a> {
    /// The proxy started.
    Starts,
    /// A connection began.
    Begins {
        who: &'a str,
    },
    /// A connection ended.
    Ends {
        who: &'a str,
        lasted: Duration,
    },
    /// A line was answered.
    Answered {
        who: &'a str,
        line: ClientLine<'a>,
        answer: &'a [u8],
        waited: Duration,
    },
    /// A line was denied.
    Denied {
        who: &'a str,
        line: ClientLine<'a>,
        answer: &'a [u8],
        waited: Duration,
    },
    /// A line got no answer, because its connection ended first.
    Unanswered {
        who: &'a str,
        line: ClientLine<'a>,
        waited: Duration,
    },
    /// This number of a principal's lines was left out of the audit.
    More {
        who: &'a str,
        count: u64,
    },
}
