//! The faults of a store's calls.

ghost use Rattle.std.specs.Prelude.{◌≡◌, Some};
ghost use Rattle.coord_store.specs.Faults.{commit_name, commit_number, store_name, store_number};
ghost use Rattle.coord_store.specs.declared.faults.CommitFault.TheVariants.{OutOfMemory as NoMemory};
ghost use Rattle.coord_store.specs.declared.faults.StoreFault.TheVariants.{OutOfMemory};

use coord_check::Violation;
use coord_types::NodeId;
use std::alloc::AllocError;
use std::error::Error;
use std::fmt;

/// The reason why a store was not created, opened or migrated.
#[derive(Clone, Copy, Debug, PartialEq, Eq)]
pub enum StoreFault {
    /// Memory ran out.
    OutOfMemory,
    /// The device failed during the call.
    Device,
    /// The device on which a store is to be created is not empty.
    NotEmpty,
    /// The size of a half is outside its limits.
    HalfSize,
    /// The device does not begin with a journal's header.
    NoMagic,
    /// The selected half is truncated, or a length in it exceeds its limit.
    BadRecord,
    /// The snapshot encodes no world, or its version is unknown.
    BadSnapshot,
    /// A batch encodes no steps, or its first step does not have the world's next number.
    BadBatch,
    /// The world does not take this step of this batch as fresh. Both numbers are counted from 0.
    BadStep { batch: usize, index: usize },
    /// The world of the snapshot is not legal.
    Violated(Violation),
    /// This node is in a reset and so prevents the migration to version 2. Of all such nodes it has the
    /// lowest number. Only `migrate` returns this fault and `Stopped`.
    NotQuiet(NodeId),
    /// The device failed in an earlier call.
    Stopped,
}

impl StoreFault {
    /// Returns the fault's number, from 1 to 12.
    pub fn number(self) -> u8
        ensures { result ≡ store_number self }
    {
        match self {
            StoreFault::OutOfMemory => 1,
            StoreFault::Device => 2,
            StoreFault::NotEmpty => 3,
            StoreFault::HalfSize => 4,
            StoreFault::NoMagic => 5,
            StoreFault::BadRecord => 6,
            StoreFault::BadSnapshot => 7,
            StoreFault::BadBatch => 8,
            StoreFault::BadStep { batch: _, index: _ } => 9,
            StoreFault::Violated(_) => 10,
            StoreFault::NotQuiet(_) => 11,
            StoreFault::Stopped => 12,
        }
    }
}

impl fmt::Display for StoreFault {
    ghost output = { λ fault. Some (store_name fault) };

    fn fmt<W: fmt::Write>(&self, f: &mut fmt::Formatter<W>) -> fmt::Result {
        f.write_str(match *self {
            StoreFault::OutOfMemory => "OutOfMemory",
            StoreFault::Device => "Device",
            StoreFault::NotEmpty => "NotEmpty",
            StoreFault::HalfSize => "HalfSize",
            StoreFault::NoMagic => "NoMagic",
            StoreFault::BadRecord => "BadRecord",
            StoreFault::BadSnapshot => "BadSnapshot",
            StoreFault::BadBatch => "BadBatch",
            StoreFault::BadStep { batch: _, index: _ } => "BadStep",
            StoreFault::Violated(_) => "Violated",
            StoreFault::NotQuiet(_) => "NotQuiet",
            StoreFault::Stopped => "Stopped",
        })
    }
}

impl Error for StoreFault {}

impl From<AllocError> for StoreFault {
    ghost from_gives = { λ _ fault. fault ≡ OutOfMemory };

    fn from(_: AllocError) -> Self {
        StoreFault::OutOfMemory
    }
}

/// The reason why steps were not committed.
#[derive(Clone, Copy, Debug, PartialEq, Eq)]
pub enum CommitFault {
    /// Memory ran out.
    OutOfMemory,
    /// The device failed during the call.
    Device,
    /// Never returned, because a store makes room by a checkpoint. The number is reserved.
    Full,
    /// The device failed in an earlier call.
    Stopped,
    /// The steps were already committed. Only a flight of a ledger returns this fault, never a store.
    Again,
}

impl CommitFault {
    /// Returns the fault's number, from 1 to 5.
    pub fn number(self) -> u8
        ensures { result ≡ commit_number self }
    {
        self as u8 + 1
    }
}

impl fmt::Display for CommitFault {
    ghost output = { λ fault. Some (commit_name fault) };

    fn fmt<W: fmt::Write>(&self, f: &mut fmt::Formatter<W>) -> fmt::Result {
        f.write_str(match self {
            CommitFault::OutOfMemory => "OutOfMemory",
            CommitFault::Device => "Device",
            CommitFault::Full => "Full",
            CommitFault::Stopped => "Stopped",
            CommitFault::Again => "Again",
        })
    }
}

impl Error for CommitFault {}

impl From<AllocError> for CommitFault {
    ghost from_gives = { λ _ fault. fault ≡ NoMemory };

    fn from(_: AllocError) -> Self {
        CommitFault::OutOfMemory
    }
}
