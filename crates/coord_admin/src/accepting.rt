//! Decides how the server reacts when accepting a connection fails.

ghost use Rattle.std.specs.Prelude.{◌≡◌};
ghost use Rattle.std.specs.IoError.{error_kind, raw_os_error};
ghost use Rattle.coord_admin.specs.Accepting.{failure_in, failure_of, failure_of_kind, failure_of_number, numbered};

use std::io::{Error, ErrorKind};

/// The kind of a failure to accept, which determines the reaction.
#[derive(Clone, Copy)]
pub enum Failure {
    /// A connection failed before it was accepted: wait for the next one.
    OfClient,
    /// Descriptors or memory ran out: retry.
    OfMeans,
    /// The listener failed permanently.
    OfListener,
}

impl Failure {
    /// Classifies an error by its number if the system gave one, and otherwise by its kind.
    pub fn of(error: &Error) -> Self
        ensures { result ≡ failure_of (raw_os_error error.now) (error_kind error.now) }
    {
        match error.raw_os_error() {
            Some(code) => Failure::of_number(code),
            None => Failure::of_kind(error.kind()),
        }
    }

    fn of_number(code: i32) -> Self
        ensures { result ≡ failure_of_number code }
    {
        if code < 0 {
            return Failure::OfListener;
        }
        numbered(code.unsigned_abs())
    }

    fn of_kind(kind: ErrorKind) -> Self
        ensures { result ≡ failure_of_kind kind }
    {
        match kind {
            ErrorKind::ConnectionAborted | ErrorKind::ConnectionReset | ErrorKind::Interrupted => {
                Failure::OfClient
            }
            ErrorKind::OutOfMemory => Failure::OfMeans,
            _ => Failure::OfListener,
        }
    }
}

/// Classifies an error by its Linux error number.
fn numbered(code: u32) -> Failure
    ensures { result ≡ failure_in numbered code }
{
    match code {
        1 | 4 | 64 | 71 | 92 | 95 | 100 | 101 | 103 | 104 | 112 | 113 => Failure::OfClient,
        12 | 23 | 24 | 105 => Failure::OfMeans,
        _ => Failure::OfListener,
    }
}
