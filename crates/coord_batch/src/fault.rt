//! The faults of bytes that cannot be decoded.

ghost use Rattle.std.specs.Prelude.{◌≡◌, Some};
ghost use Rattle.coord_batch.specs.Faults.{fault_text, fault_name, fault_number};
ghost use Rattle.coord_batch.specs.Decoding.{Places, bad_version};
ghost use Rattle.coord_batch.specs.declared.fault.ReadError.TheVariants.{Memory};

use std::alloc::{AllocError, AllocFailed};
use std::fmt;

/// The reason why bytes could not be decoded.
#[derive(Clone, Copy, Debug, PartialEq, Eq)]
pub enum FaultKind {
    OutOfMemory,
    /// The bytes end inside a field.
    Short,
    /// A field is out of range or out of order.
    BadByte,
    /// Bytes follow the complete value.
    Extra,
    /// The grammar has no version with this number.
    BadVersion,
}

impl FaultKind {
    /// Returns the fault's number, from 1 to 5.
    pub fn number(self) -> u8
        ensures { result ≡ fault_number self }
    {
        match self {
            FaultKind::OutOfMemory => 1,
            FaultKind::Short => 2,
            FaultKind::BadByte => 3,
            FaultKind::Extra => 4,
            FaultKind::BadVersion => 5,
        }
    }

    fn name(self) -> &'static str
        ensures { result.now ≡ fault_name self }
    {
        match self {
            FaultKind::OutOfMemory => "OutOfMemory",
            FaultKind::Short => "Short",
            FaultKind::BadByte => "BadByte",
            FaultKind::Extra => "Extra",
            FaultKind::BadVersion => "BadVersion",
        }
    }
}

impl fmt::Display for FaultKind {
    ghost output = { λ kind. Some (fault_name kind) };

    fn fmt<W: fmt::Write>(&self, f: &mut fmt::Formatter<W>) -> fmt::Result {
        f.write_str(self.name())
    }
}

/// The first fault from the left, and its place. For `Short` the place is the number of bytes; for
/// `BadByte`, the first byte of the field; for `Extra`, the first byte after the complete value;
/// for `BadVersion`, 0. For `OutOfMemory` the place has no meaning.
#[derive(Clone, Copy, Debug, PartialEq, Eq)]
pub struct CodecFault {
    pub kind: FaultKind,
    pub at: usize,
}

impl CodecFault {
    /// Returns the fault of a wrong version.
    pub fn bad_version() -> Self
        ensures { result ≡ bad_version }
    {
        CodecFault {
            kind: FaultKind::BadVersion,
            at: 0,
        }
    }
}

impl fmt::Display for CodecFault {
    ghost output = { λ fault. Some (fault_text fault) };

    fn fmt<W: fmt::Write>(&self, f: &mut fmt::Formatter<W>) -> fmt::Result {
        let kind = self.kind;
        let at = self.at;
        write!(f, "{kind} at {at}")
    }
}

/// A flaw of bytes that are read from the left. The flaw names the number of bytes that remain at
/// its place.
#[derive(Clone, Copy, Debug, PartialEq, Eq)]
pub enum Flaw {
    /// The bytes end inside a field.
    Short,
    /// A field is out of range or out of order. This many bytes remain where the field begins.
    BadByte(usize),
    /// This many bytes follow the complete value.
    Extra(usize),
}

/// The reason why a reader stopped.
#[derive(Debug, Drop)]
pub enum ReadError {
    /// Memory ran out.
    Memory,
    Flaw(Flaw),
}

impl ReadError {
    /// Returns the error for a field that is out of range or out of order. `left` is the number of
    /// bytes that remain where the field begins.
    pub fn bad_byte(left: usize) -> Self
        ensures { result ≡ ReadError.Flaw (Flaw.BadByte left) }
    {
        ReadError::Flaw(Flaw::BadByte(left))
    }

    /// Returns the error for `left` bytes after the complete value.
    pub fn extra(left: usize) -> Self
        ensures { result ≡ ReadError.Flaw (Flaw.Extra left) }
    {
        ReadError::Flaw(Flaw::Extra(left))
    }

    /// Returns the fault for this error, given the total number of bytes. The number of remaining bytes
    /// never exceeds the total, so the subtraction never saturates.
    pub fn placed(self, len: usize) -> CodecFault
        ensures { Places self len result }
    {
        let (kind, at) = match self {
            ReadError::Memory => (FaultKind::OutOfMemory, 0),
            ReadError::Flaw(Flaw::Short) => (FaultKind::Short, len),
            ReadError::Flaw(Flaw::BadByte(left)) => (FaultKind::BadByte, len.saturating_sub(left)),
            ReadError::Flaw(Flaw::Extra(left)) => (FaultKind::Extra, len.saturating_sub(left)),
        };
        CodecFault { kind, at }
    }
}

impl From<AllocError> for ReadError {
    ghost from_gives = { λ _ e. e ≡ Memory };

    fn from(_e: AllocError) -> ReadError {
        ReadError::Memory
    }
}

impl<T: Drop> From<AllocFailed<T>> for ReadError {
    ghost from_gives = { λ _ e. e ≡ Memory };

    fn from(_e: AllocFailed<T>) -> ReadError {
        ReadError::Memory
    }
}
