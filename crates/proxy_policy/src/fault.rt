//! The reasons why a policy is refused.

ghost use Rattle.std.specs.Prelude.{◌≡◌, Some};
ghost use Rattle.proxy_policy.specs.Faults.{fault_name, fault_number};
ghost use Rattle.proxy_policy.specs.declared.fault.PolicyFault.TheVariants.{OutOfMemory};

use std::alloc::{AllocError, AllocFailed};
use std::error::Error;
use std::fmt;

/// The reason why a policy is refused.
#[derive(Clone, Copy, Debug, PartialEq, Eq)]
pub enum PolicyFault {
    OutOfMemory,
    /// The text is longer than `MAX_POLICY_BYTES`, or the crate `toml` rejects it.
    NotToml,
    /// A key is missing or unknown.
    BadKey,
    /// A value has the wrong type or is outside its limits.
    BadValue,
}

impl PolicyFault {
    /// Returns the fault's number, from 1 to 4.
    pub fn number(self) -> u8
        ensures { result ≡ fault_number self }
    {
        match self {
            PolicyFault::OutOfMemory => 1,
            PolicyFault::NotToml => 2,
            PolicyFault::BadKey => 3,
            PolicyFault::BadValue => 4,
        }
    }

    /// Returns the fault's printed name.
    pub fn name(self) -> &'static str
        ensures { result.now ≡ fault_name self }
    {
        match self {
            PolicyFault::OutOfMemory => "OutOfMemory",
            PolicyFault::NotToml => "NotToml",
            PolicyFault::BadKey => "BadKey",
            PolicyFault::BadValue => "BadValue",
        }
    }
}

impl fmt::Display for PolicyFault {
    ghost output = { λ fault. Some (fault_name fault) };

    fn fmt<W: fmt::Write>(&self, f: &mut fmt::Formatter<W>) -> fmt::Result {
        f.write_str(self.name())
    }
}

impl Error for PolicyFault {}

impl<T: Drop> From<AllocFailed<T>> for PolicyFault {
    ghost from_gives = { λ _ fault. fault ≡ OutOfMemory };

    fn from(_: AllocFailed<T>) -> Self {
        PolicyFault::OutOfMemory
    }
}

impl From<AllocError> for PolicyFault {
    ghost from_gives = { λ _ fault. fault ≡ OutOfMemory };

    fn from(_: AllocError) -> Self {
        PolicyFault::OutOfMemory
    }
}
