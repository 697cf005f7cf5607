//! An event, and what its source is ready for.

ghost use Rattle.std.specs.Prelude.{◌≡◌, ◌||◌};
ghost use Rattle.mio.specs.Event.{event_token, is_error, is_read_closed, is_readable, is_writable};

use mio::event::Event;

/// What an event's source is ready for.
#[derive(Clone, Copy)]
pub(crate) struct Ready {
    pub token: usize,
    pub is_readable: bool,
    pub is_writable: bool,
    /// Whether the other end sends no more bytes or the source has failed.
    pub is_closing: bool,
}

impl Ready {
    /// Returns the token of an event, and what its source is ready for.
    pub fn of(event: &Event) -> Self
        ensures token { result.token ≡ (event_token event.now).0 }
        ensures ready { (result.is_readable ≡ is_readable event.now) × (result.is_writable ≡ is_writable event.now) }
        ensures closing { result.is_closing ≡ (is_read_closed event.now || is_error event.now) }
    {
        Ready {
            token: event.token().0,
            is_readable: event.is_readable(),
            is_writable: event.is_writable(),
            is_closing: event.is_read_closed() || event.is_error(),
        }
    }
}
