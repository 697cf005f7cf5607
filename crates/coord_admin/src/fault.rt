//! The faults of lines, and the faults that end `serve` early.

ghost use Rattle.std.specs.Prelude.{◌≡◌, Some};
ghost use Rattle.coord_admin.specs.Faults.{fault_name, fault_number};
ghost use Rattle.coord_admin.specs.Replies.{reply_line};
ghost use Rattle.coord_admin.specs.declared.answer.Answer.TheVariants.{Faulted};
ghost use Rattle.coord_admin.specs.declared.fault.ServeFault.TheVariants.{OutOfMemory, Write};

use crate::duplex::NotWritten;
use std::alloc::AllocError;
use std::error::Error;
use std::fmt;

/// The reason why a line is not carried out, or why its reply could not be made. The first fault that
/// applies is reported.
#[derive(Clone, Copy, Debug, PartialEq, Eq)]
pub enum LineFault {
    /// The input ended before the line did.
    Unfinished,
    /// The line has more than 512 bytes.
    TooLong,
    /// The line is not valid UTF-8.
    BadText,
    /// `serde_json` does not accept the line as JSON.
    BadJson,
    /// The line is not an object with a string as its `op`, or its members are not the members of
    /// that `op`.
    BadRequest,
    /// The line's `op` does not exist.
    UnknownOp,
    /// Memory ran out. The request may have been carried out: to find out, repeat the order with the
    /// same number.
    OutOfMemory,
}

impl LineFault {
    /// Returns the reply line for the fault. It needs no memory.
    pub fn line(self) -> &'static str
        ensures { result.now ≡ reply_line (Faulted self) }
    {
        match self {
            LineFault::Unfinished => "{\"fault\":\"Unfinished\"}\n",
            LineFault::TooLong => "{\"fault\":\"TooLong\"}\n",
            LineFault::BadText => "{\"fault\":\"BadText\"}\n",
            LineFault::BadJson => "{\"fault\":\"BadJson\"}\n",
            LineFault::BadRequest => "{\"fault\":\"BadRequest\"}\n",
            LineFault::UnknownOp => "{\"fault\":\"UnknownOp\"}\n",
            LineFault::OutOfMemory => "{\"fault\":\"OutOfMemory\"}\n",
        }
    }
}

/// The faults that end a call of `serve` before the end of its input and before a close.
#[derive(Clone, Copy, Debug, PartialEq, Eq)]
pub enum ServeFault {
    /// Memory ran out before anything was read.
    OutOfMemory,
    /// The input could not be read.
    Read,
    /// A reply could not be written.
    Write,
    /// The end of the input was not reached within `MOST_READS` reads.
    Turns,
}

impl ServeFault {
    /// Returns the fault's number, from 1 to 4.
    pub fn number(self) -> u8
        ensures { result ≡ fault_number self }
    {
        match self {
            ServeFault::OutOfMemory => 1,
            ServeFault::Read => 2,
            ServeFault::Write => 3,
            ServeFault::Turns => 4,
        }
    }

    /// Returns the fault's printed name.
    pub fn name(self) -> &'static str
        ensures { result.now ≡ fault_name self }
    {
        match self {
            ServeFault::OutOfMemory => "OutOfMemory",
            ServeFault::Read => "Read",
            ServeFault::Write => "Write",
            ServeFault::Turns => "Turns",
        }
    }
}

impl fmt::Display for ServeFault {
    ghost output = { λ fault. Some (fault_name fault) };

    fn fmt<W: fmt::Write>(&self, f: &mut fmt::Formatter<W>) -> fmt::Result {
        f.write_str(self.name())
    }
}

impl Error for ServeFault {}

impl From<AllocError> for ServeFault {
    ghost from_gives = { λ _ fault. fault ≡ OutOfMemory };

    fn from(_: AllocError) -> Self {
        ServeFault::OutOfMemory
    }
}

impl From<NotWritten> for ServeFault {
    ghost from_gives = { λ _ fault. fault ≡ Write };

    fn from(_: NotWritten) -> Self {
        ServeFault::Write
    }
}
