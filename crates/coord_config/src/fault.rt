//! The reasons why a topology file is refused.

ghost use Rattle.std.specs.Prelude.{◌≡◌, Some};
ghost use Rattle.coord_config.specs.Faults.{fault_name, fault_number};
ghost use Rattle.coord_config.specs.declared.fault.ConfigFault.TheVariants.{OutOfMemory};

use std::alloc::AllocFailed;
use std::error::Error;
use std::fmt;

/// The reason why a topology file is refused.
#[derive(Clone, Copy, Debug, PartialEq, Eq)]
pub enum ConfigFault {
    OutOfMemory,
    /// The text is longer than 65,536 bytes, or is not TOML.
    NotToml,
    /// A key is missing or unknown.
    BadKey,
    /// A value has a wrong type, or is out of range.
    BadValue,
}

impl ConfigFault {
    /// Returns the fault's number, from 1 to 4.
    pub fn number(self) -> u8
        ensures { result ≡ fault_number self }
    {
        match self {
            ConfigFault::OutOfMemory => 1,
            ConfigFault::NotToml => 2,
            ConfigFault::BadKey => 3,
            ConfigFault::BadValue => 4,
        }
    }

    /// Returns the fault's printed name.
    pub fn name(self) -> &'static str
        ensures { result.now ≡ fault_name self }
    {
        match self {
            ConfigFault::OutOfMemory => "OutOfMemory",
            ConfigFault::NotToml => "NotToml",
            ConfigFault::BadKey => "BadKey",
            ConfigFault::BadValue => "BadValue",
        }
    }
}

impl fmt::Display for ConfigFault {
    ghost output = { λ fault. Some (fault_name fault) };

    fn fmt<W: fmt::Write>(&self, f: &mut fmt::Formatter<W>) -> fmt::Result {
        f.write_str(self.name())
    }
}

impl Error for ConfigFault {}

impl<T: Drop> From<AllocFailed<T>> for ConfigFault {
    ghost from_gives = { λ _ fault. fault ≡ OutOfMemory };

    fn from(_: AllocFailed<T>) -> Self {
        ConfigFault::OutOfMemory
    }
}
