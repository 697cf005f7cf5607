//! Writes a text. After a failure, exactly a proper prefix of the text was written.

ghost use Rattle.std.specs.Prelude.{◌≡◌, ◌≢◌, OnOk, OnErr, IfErr};
ghost use Rattle.std.specs.Io.KnownBytes.{Appends};
ghost use Rattle.std.specs.IoError.{error_kind};
ghost use Rattle.coord_drill.specs.Faults.{IsOfWriting};
ghost use Rattle.coord_drill.specs.Written.{WritesShort};

use crate::answers::write_once;
use crate::fault::Fault;
use coord_lines::MOST_CALLS;
use std::io::{Error, ErrorKind, Write};

/// Writes a whole text. Errors: out of memory, or `Write`; then a proper prefix of the text was
/// written.
#[tactic(auto, using(crate::proofs::prints::FirstParts::short_left, crate::proofs::prints::FirstParts::short_kept))]
pub fn write_text<W: Write>(writer: &mut W, text: &[u8]) -> Result<(), Fault>
    ensures ok { OnOk result (Appends (W.contents writer.old) (W.contents writer.new) text.now) }
    ensures err { OnErr result (WritesShort (W.contents writer.old)
        (W.contents writer.new) text.now) }
    ensures fault { IfErr result IsOfWriting }
{
    let mut rest = text;
    for _ in 0..MOST_CALLS {
        if rest.is_empty() {
            return Ok(());
        }
        let count = write_once(writer, rest)?;
        rest = &rest[count..];
    }
    if rest.is_empty() {
        return Ok(());
    }
    Err(Fault::Write)
}

/// Returns the fault of a failed write: `OutOfMemory` if the error says so, otherwise `Write`.
pub fn fault_of(error: &Error) -> Fault
    ensures memory { error_kind error.now ≡ ErrorKind.OutOfMemory → result ≡ Fault.OutOfMemory }
    ensures other { error_kind error.now ≢ ErrorKind.OutOfMemory → result ≡ Fault.Write }
    ensures fault { IsOfWriting result }
{
    match error.kind() {
        ErrorKind::OutOfMemory => Fault::OutOfMemory,
        _ => Fault::Write,
    }
}
