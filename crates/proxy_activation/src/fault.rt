//! Why the sockets of the service manager are refused.

ghost use Rattle.std.specs.Prelude.{◌≡◌};
ghost use Rattle.proxy_activation.specs.declared.fault.ActivationFault.TheVariants.{OutOfMemory};

use std::alloc::{AllocError, AllocFailed};
use std::fmt;

/// Why the sockets of the service manager are refused.
#[derive(Clone, Copy, Debug, PartialEq, Eq)]
pub enum ActivationFault {
    OutOfMemory,
    /// `LISTEN_PID` or `LISTEN_FDS` is missing.
    NotActivated,
    /// `LISTEN_PID` is not this process.
    OtherProcess,
    /// `LISTEN_FDS` is not a number below 65,536.
    NotACount,
    /// The number of passed sockets is not the number of names.
    OtherCount { opened: u16, named: usize },
}

impl fmt::Display for ActivationFault {
    fn fmt<W: fmt::Write>(&self, f: &mut fmt::Formatter<W>) -> fmt::Result {
        match self {
            ActivationFault::OutOfMemory => f.write_str("out of memory"),
            ActivationFault::NotActivated => f.write_str(
                "the service manager passed no sockets: LISTEN_PID or LISTEN_FDS is missing",
            ),
            ActivationFault::OtherProcess => {
                f.write_str("the sockets are not for this process: LISTEN_PID is another one")
            }
            ActivationFault::NotACount => { f.write_str("LISTEN_FDS is not a number of sockets") }
            ActivationFault::OtherCount { opened, named } => write!(
                f,
                "the service manager passed {opened} sockets, and --listen-fds names {named}"
            ),
        }
    }
}

impl<T: Drop> From<AllocFailed<T>> for ActivationFault {
    ghost from_gives = { λ _ fault. fault ≡ OutOfMemory };

    fn from(_: AllocFailed<T>) -> Self {
        ActivationFault::OutOfMemory
    }
}

impl From<AllocError> for ActivationFault {
    ghost from_gives = { λ _ fault. fault ≡ OutOfMemory };

    fn from(_: AllocError) -> Self {
        ActivationFault::OutOfMemory
    }
}
