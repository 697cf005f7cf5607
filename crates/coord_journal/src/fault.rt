//! The faults of a journal's calls.

ghost use Rattle.std.specs.Prelude.{◌≡◌, Some};
ghost use Rattle.coord_journal.specs.Fault.{name_of, number_of};
ghost use Rattle.coord_journal.specs.declared.fault.JournalFault.TheVariants.{OutOfMemory, Device};

use coord_disk::DiskFault;
use std::alloc::{AllocError, AllocFailed};
use std::error::Error;
use std::fmt;

/// The reason why a call of a journal was refused.
#[derive(Clone, Copy, Debug, PartialEq, Eq, Hash)]
pub enum JournalFault {
    /// Memory ran out.
    OutOfMemory,
    /// The device failed during the call.
    Device,
    /// The device to format is not empty.
    NotEmpty,
    /// The size of a half is outside its limits.
    HalfSize,
    /// The device does not begin with a journal's header.
    NoMagic,
    /// The selected half is truncated, or a length in it exceeds its limit.
    BadRecord,
    /// Never returned, because `append` requires that the body fits. The number stays reserved.
    JournalFull,
    /// The device failed in an earlier append or replace.
    Stopped,
}

impl JournalFault {
    /// Returns the fault's number, from 1 to 8.
    pub fn number(self) -> u8
        ensures { result ≡ number_of self }
    {
        self as u8 + 1
    }
}

impl fmt::Display for JournalFault {
    ghost output = { λ fault. Some (name_of fault) };

    fn fmt<W: fmt::Write>(&self, f: &mut fmt::Formatter<W>) -> fmt::Result {
        f.write_str(match self {
            JournalFault::OutOfMemory => "OutOfMemory",
            JournalFault::Device => "Device",
            JournalFault::NotEmpty => "NotEmpty",
            JournalFault::HalfSize => "HalfSize",
            JournalFault::NoMagic => "NoMagic",
            JournalFault::BadRecord => "BadRecord",
            JournalFault::JournalFull => "JournalFull",
            JournalFault::Stopped => "Stopped",
        })
    }
}

impl Error for JournalFault {}

impl From<DiskFault> for JournalFault {
    ghost from_gives = { λ _ fault. fault ≡ Device };

    fn from(_: DiskFault) -> Self {
        JournalFault::Device
    }
}

impl From<AllocError> for JournalFault {
    ghost from_gives = { λ _ fault. fault ≡ OutOfMemory };

    fn from(_: AllocError) -> Self {
        JournalFault::OutOfMemory
    }
}

impl<T: Drop> From<AllocFailed<T>> for JournalFault {
    ghost from_gives = { λ _ fault. fault ≡ OutOfMemory };

    fn from(_: AllocFailed<T>) -> Self {
        JournalFault::OutOfMemory
    }
}
