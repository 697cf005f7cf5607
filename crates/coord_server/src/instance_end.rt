//! The end of an instance of the server.

use crate::ServerFault;

/// The end of an instance: the end of its serving, or the reason why no instance follows it.
#[derive(Clone, Copy, Debug, PartialEq, Eq, Drop)]
pub enum InstanceEnd {
    /// The instance is old; the server continues with the next one.
    Resting,
    /// The instance is old, and memory for the next one ran out.
    Unfollowed,
    /// The first line was not printed, so nobody was served. The printer has the reason.
    Unprinted,
    /// The server ends: after a close, or with this fault.
    Ended(Option<ServerFault>),
}
