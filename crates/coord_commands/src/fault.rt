//! The faults that end a command early.

ghost use Rattle.std.specs.Prelude.{◌≡◌, ◌≢◌, ◌<◌};
ghost use Rattle.std.specs.IoError.{error_kind};
ghost use Rattle.coord_commands.specs.Faults.{fault_status};

use coord_config::ConfigFault;
use coord_disk::DiskFault;
use coord_engine::CloseFault;
use coord_server::ServerFault;
use coord_store::{CommitFault, StoreFault};
use coord_types::Refusal;
use std::alloc::AllocError;
use std::fmt;
use std::io::{Error, ErrorKind};

/// A fault that ends a command early. Each has a name, printed on standard error, and an exit
/// status.
#[derive(Clone, Copy, Debug, PartialEq, Eq)]
pub enum Fault {
    /// The arguments were refused.
    Usage,
    /// Standard input or the topology file could not be read.
    Read,
    /// Output could not be written.
    Write,
    /// A socket could not be bound or listened to.
    Socket,
    /// The input did not end within the allowed number of reads.
    TooManyReads,
    /// Memory ran out.
    OutOfMemory,
    /// The topology file was refused.
    Topology(ConfigFault),
    /// The store was not created, opened or migrated, or its device failed.
    Store(StoreFault),
    /// An order of the topology file was refused.
    Refused(Refusal),
    /// An engine refused to be closed.
    NotClosed(CloseFault),
}

impl Fault {
    /// Returns the fault for arguments that could not be read: `OutOfMemory` if the error says so,
    /// otherwise `Usage`.
    pub fn of_arguments(error: &Error) -> Fault
        ensures memory { error_kind error.now ≡ ErrorKind.OutOfMemory → result ≡ Fault.OutOfMemory }
        ensures other { error_kind error.now ≢ ErrorKind.OutOfMemory → result ≡ Fault.Usage }
    {
        Fault::or_memory(error, Fault::Usage)
    }

    /// Returns the fault for a failed call: `OutOfMemory` if the error says so, otherwise `other`.
    pub(crate) fn or_memory(error: &Error, other: Fault) -> Fault
        ensures memory { error_kind error.now ≡ ErrorKind.OutOfMemory → result ≡ Fault.OutOfMemory }
        ensures other { error_kind error.now ≢ ErrorKind.OutOfMemory → result ≡ other }
    {
        match error.kind() {
            ErrorKind::OutOfMemory => Fault::OutOfMemory,
            _ => other,
        }
    }

    /// Returns the exit status: 1 for a refusal, 2 for refused arguments, 3 for a failed read or
    /// write or a failure of a socket or the device, 4 if memory ran out.
    pub fn status(&self) -> u8
        ensures number { result ≡ fault_status self.now }
        ensures failed { 0 < result }
    {
        match *self {
            Fault::Usage => 2,
            Fault::Read | Fault::Write | Fault::Socket | Fault::TooManyReads => 3,
            Fault::Store(StoreFault::Device) => 3,
            Fault::OutOfMemory => 4,
            Fault::Topology(ConfigFault::OutOfMemory) => 4,
            Fault::Store(StoreFault::OutOfMemory) => 4,
            Fault::Topology(_) | Fault::Store(_) | Fault::Refused(_) | Fault::NotClosed(_) => 1,
        }
    }
}

impl fmt::Display for Fault {
    ghost use Rattle.std.specs.Prelude.{Some};
    ghost use Rattle.coord_commands.specs.Faults.{fault_text};

    ghost output = { λ fault. Some (fault_text fault) };

    fn fmt<W: fmt::Write>(&self, f: &mut fmt::Formatter<W>) -> fmt::Result {
        match *self {
            Fault::Usage => f.write_str("Usage"),
            Fault::Read => f.write_str("Read"),
            Fault::Write => f.write_str("Write"),
            Fault::Socket => f.write_str("Socket"),
            Fault::TooManyReads => f.write_str("Turns"),
            Fault::OutOfMemory => f.write_str("OutOfMemory"),
            Fault::Topology(fault) => write!(f, "{fault}"),
            Fault::Store(StoreFault::NotQuiet(node)) => write!(f, "NotQuiet {}", node.number()),
            Fault::Store(fault) => write!(f, "{fault}"),
            Fault::Refused(refusal) => write!(f, "{refusal}"),
            Fault::NotClosed(fault) => write!(f, "{fault}"),
        }
    }
}

impl From<AllocError> for Fault {
    ghost use Rattle.std.specs.Prelude.{◌≡◌};
    ghost use Rattle.coord_commands.specs.declared.fault.Fault.TheVariants.{OutOfMemory};

    ghost from_gives = { λ _ fault. fault ≡ OutOfMemory };

    fn from(_: AllocError) -> Fault {
        Fault::OutOfMemory
    }
}

impl From<coord_drill::Fault> for Fault {
    ghost use Rattle.std.specs.Prelude.{◌≡◌};
    ghost use Rattle.coord_commands.specs.Faults.{fault_of_drill};

    ghost from_gives = { λ given fault. fault ≡ fault_of_drill given };

    fn from(fault: coord_drill::Fault) -> Fault {
        match fault {
            coord_drill::Fault::Read => Fault::Read,
            coord_drill::Fault::Write => Fault::Write,
            coord_drill::Fault::TooManyReads => Fault::TooManyReads,
            coord_drill::Fault::Store(fault) => Fault::Store(fault),
            coord_drill::Fault::OutOfMemory => Fault::OutOfMemory,
        }
    }
}

impl From<ConfigFault> for Fault {
    ghost use Rattle.std.specs.Prelude.{◌≡◌};
    ghost use Rattle.coord_commands.specs.declared.fault.Fault.TheVariants.{Topology};

    ghost from_gives = { λ given fault. fault ≡ Topology given };

    fn from(fault: ConfigFault) -> Fault {
        Fault::Topology(fault)
    }
}

impl From<DiskFault> for Fault {
    ghost use Rattle.std.specs.Prelude.{◌≡◌};
    ghost use Rattle.coord_store.specs.declared.faults.StoreFault.TheVariants.{Device};
    ghost use Rattle.coord_commands.specs.declared.fault.Fault.TheVariants.{Store};

    ghost from_gives = { λ _ fault. fault ≡ Store Device };

    fn from(_: DiskFault) -> Fault {
        Fault::Store(StoreFault::Device)
    }
}

impl From<ServerFault> for Fault {
    ghost use Rattle.std.specs.Prelude.{◌≡◌};
    ghost use Rattle.coord_commands.specs.Faults.{fault_of_server};

    ghost from_gives = { λ given fault. fault ≡ fault_of_server given };

    fn from(fault: ServerFault) -> Fault {
        match fault {
            ServerFault::OutOfMemory | ServerFault::NotBegun => Fault::OutOfMemory,
            ServerFault::Socket => Fault::Socket,
            ServerFault::Device => Fault::Store(StoreFault::Device),
            ServerFault::Write => Fault::Write,
            ServerFault::NotClosed(fault) => Fault::NotClosed(fault),
        }
    }
}

impl From<CommitFault> for Fault {
    ghost use Rattle.std.specs.Prelude.{◌≡◌};
    ghost use Rattle.coord_commands.specs.Faults.{fault_of_commit};

    ghost from_gives = { λ given fault. fault ≡ fault_of_commit given };

    fn from(fault: CommitFault) -> Fault {
        match fault {
            CommitFault::OutOfMemory => Fault::OutOfMemory,
            _ => Fault::Store(StoreFault::Device),
        }
    }
}
