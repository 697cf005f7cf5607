//! The failure of a device.

ghost use Rattle.std.specs.Prelude.{◌≡◌, ◌+◌, IfOk, Ok, Some, codes, is_ok, length};
ghost use Rattle.coord_disk.specs.Model.Calls.{HasCause};

use http_server::Log;
use std::error::Error;
use std::fmt;

/// The failure of a device in a call. After it, only the device's images describe its content.
#[derive(Clone, Copy, Debug, PartialEq, Eq, Hash)]
pub struct DiskFault;

/// Returns the result of a call, and counts the call if it failed.
pub(crate) fn counted<T, E: Drop>(
    failed: &mut Log<u8, u8>,
    answer: Result<T, E>,
) -> Result<T, DiskFault>
    ensures ok { IfOk result (λ value. answer ≡ Ok value) }
    ensures same { is_ok result ≡ is_ok answer }
    ensures cause { HasCause (length failed.old.items) (length failed.new.items) result }
{
    match answer {
        Ok(value) => Ok(value),
        Err(_) => Err(fail(failed)),
    }
}

/// Counts a failed call, and returns its fault.
pub(crate) fn fail(failed: &mut Log<u8, u8>) -> DiskFault
    ensures { length failed.new.items ≡ length failed.old.items + 1 }
{
    *failed = failed.and(&0, &0);
    DiskFault
}

impl fmt::Display for DiskFault {
    ghost output = { λ _. Some (codes "the device failed") };

    fn fmt<W: fmt::Write>(&self, f: &mut fmt::Formatter<W>) -> fmt::Result {
        f.write_str("the device failed")
    }
}

impl Error for DiskFault {}
