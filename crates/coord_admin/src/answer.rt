//! The answer to a line.

ghost use Rattle.std.specs.Prelude.{◌≡◌};
ghost use Rattle.coord_admin.specs.Stream.{is_closed};

use crate::fault::LineFault;
use coord_types::{Refusal, Reply};
use coord_view::View;

/// The answer to a line, before it is written.
#[derive(Drop)]
pub enum Answer {
    /// An order was accepted, now or earlier, and has this reply.
    Replied(Reply),
    /// The desk refused the request.
    Refused(Refusal),
    /// The settled world.
    Shown(View),
    /// The number of packets that were sent again.
    Resent(u64),
    /// The desk was closed.
    Closed,
    /// The line is refused with this fault.
    Faulted(LineFault),
}

impl Answer {
    /// Tests whether the answer is that the desk was closed.
    pub fn is_closed(&self) -> bool
        ensures { result ≡ is_closed self.now }
    {
        matches!(self, Answer::Closed)
    }
}
