//! The events of a ledger in one thread, and their answers.

use coord_store::CommitFault;
use coord_types::{Refusal, Reply, Step};
use coord_view::View;

/// One call on a ledger or its flight, or a crash of the disk.
#[derive(Clone, Copy)]
pub enum Event {
    /// Submit a step.
    Submit(Step),
    /// Send out a flight with the next steps.
    Begin,
    /// Commit the flight that is out.
    Commit,
    /// Take back the flight that is out.
    Finish,
    /// Collect the ticket with this index. Tickets are counted from 0 since the last crash.
    Collect(usize),
    /// Release again the packets that may have been lost.
    Resend,
    /// Show the settled world.
    Show,
    /// Crash the disk and open it again. Tickets and the flight are lost.
    Crash,
}

/// The answer to an event.
#[derive(Debug, Drop)]
pub enum Answer {
    /// The step was accepted: its number.
    Accepted(u64),
    /// The step is a repeat: the number of the step that it repeats.
    Repeated(u64),
    /// The step or the call was refused, and nothing changed.
    Refused(Refusal),
    /// A flight of this many steps went out, from 1 to 256.
    Begun(u64),
    /// No flight went out: nothing is pending, one is out already, or the ledger has stopped.
    Nothing,
    /// The flight's steps are on disk.
    Committed,
    /// The flight was not committed.
    Failed(CommitFault),
    /// The flight was taken back: the number of settled steps afterwards.
    Finished(u64),
    /// No flight is out.
    NoFlight,
    /// There is no such ticket, or its reply was already collected.
    NoTicket,
    /// The reply to a settled step.
    Collected(Reply),
    /// The ticket's step is not settled yet.
    Waiting,
    /// The number of packets that were released again.
    Resent(u64),
    /// The settled world's rows.
    Shown(View),
    /// The disk was opened after a crash: the number of steps of its world.
    Opened(u64),
}
