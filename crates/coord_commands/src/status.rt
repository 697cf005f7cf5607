//! The exit status of a command.

ghost use Rattle.std.specs.Prelude.{◌≡◌, IsOk, MatchResult};
ghost use Rattle.std.specs.Io.KnownBytes.{Keeps};
ghost use Rattle.coord_commands.specs.Faults.{fault_line, status_of};
ghost use Rattle.coord_lines.specs.Written.{WritesFirstPart};

use crate::fault::Fault;
use crate::lines::print_fault;
use std::io::Write;

/// Prints the fault's line if the command ended with a fault, and returns the exit status. If the write
/// fails, a prefix of the line is printed.
pub fn report<E: Write>(ended: Result<(), Fault>, errors: &mut E) -> u8
    ensures status { result ≡ status_of ended }
    ensures done { result ≡ 0 → IsOk ended }
    ensures answered { MatchResult ended (λ _. Keeps (E.contents errors.old) (E.contents errors.new))
        (λ fault. WritesFirstPart (E.contents errors.old) (E.contents errors.new)
        (fault_line fault)) }
{
    match &ended {
        Ok(()) => 0,
        Err(fault) => {
            let _ = print_fault(errors, fault);
            fault.status()
        }
    }
}
