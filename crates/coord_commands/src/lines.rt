//! Prints the lines of the commands.

ghost use Rattle.std.specs.Prelude.{IfErr, OnErr, OnOk};
ghost use Rattle.std.specs.Io.KnownBytes.{Appends};
ghost use Rattle.coord_commands.specs.Ending.{IsOfWriting};
ghost use Rattle.coord_commands.specs.Faults.{fault_line};
ghost use Rattle.coord_lines.specs.Written.{WritesFirstPart};

mod room;

use crate::fault::Fault;
use coord_lines::write_whole;
use room::Room;
use std::io;
use std::io::Write;

/// Writes a whole text. If a write fails, exactly a prefix of the text was written. Errors: out of
/// memory, or `Write`.
pub fn print<W: Write>(output: &mut W, text: &str) -> Result<(), Fault>
    ensures ok { OnOk result (Appends (W.contents output.old) (W.contents output.new) text.now) }
    ensures err { OnErr result (WritesFirstPart (W.contents output.old)
        (W.contents output.new) text.now) }
    ensures fault { IfErr result IsOfWriting }
{
    if let Err(error) = write_whole(output, text.as_bytes()) {
        return Err(Fault::or_memory(&error, Fault::Write));
    }
    if let Err(error) = output.flush() {
        return Err(Fault::or_memory(&error, Fault::Write));
    }
    Ok(())
}

/// Prints the line of a fault. It allocates nothing.
pub fn print_fault<W: Write>(output: &mut W, fault: &Fault) -> io::Result<()>
    ensures ok { OnOk result (Appends (W.contents output.old) (W.contents output.new)
        (fault_line fault.now)) }
    ensures err { OnErr result (WritesFirstPart (W.contents output.old) (W.contents output.new)
        (fault_line fault.now)) }
{
    let mut line = Room::new();
    writeln!(line, "resetd: {fault}")?;
    write_whole(output, line.as_bytes())
}
