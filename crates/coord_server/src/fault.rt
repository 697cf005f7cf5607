//! The faults that end a server.

use coord_engine::CloseFault;
use std::error::Error;
use std::fmt;

/// A fault that ended a server, or occurred while it ended.
#[derive(Clone, Copy, Debug, PartialEq, Eq, Drop)]
pub enum ServerFault {
    /// Memory ran out, for serving or for the next instance.
    OutOfMemory,
    /// Memory ran out, or no thread could be started, when an instance began; nobody was served in it.
    NotBegun,
    /// The listener failed.
    Socket,
    /// The device failed, and the store has stopped.
    Device,
    /// A line could not be printed.
    Write,
    /// The engine could not be closed. That would be a bug in this program: no sequence of its calls leads there.
    NotClosed(CloseFault),
}

impl fmt::Display for ServerFault {
    fn fmt<W: fmt::Write>(&self, f: &mut fmt::Formatter<W>) -> fmt::Result {
        match self {
            ServerFault::OutOfMemory | ServerFault::NotBegun => f.write_str("OutOfMemory"),
            ServerFault::Socket => f.write_str("Socket"),
            ServerFault::Device => f.write_str("Device"),
            ServerFault::Write => f.write_str("Write"),
            ServerFault::NotClosed(fault) => write!(f, "{fault}"),
        }
    }
}

impl Error for ServerFault {}
