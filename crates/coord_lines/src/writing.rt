//! Writes a whole text.

ghost use Rattle.std.specs.Prelude.{OnErr, OnOk};
ghost use Rattle.std.specs.Io.KnownBytes.{Appends};
ghost use Rattle.coord_lines.specs.Written.{WritesFirstPart};

use crate::limits::MOST_CALLS;
use std::io;
use std::io::{ErrorKind, Write};

/// Writes a whole text, with one call of `write` if the writer takes all of it; an interrupted call
/// is repeated. After a failure, a prefix of the text was written, and nothing else. Errors: the
/// writer's error, or `WriteZero` if the writer took nothing, or did not take everything in
/// `MOST_CALLS` calls; no clause states which error.
pub fn write_whole<W: Write>(writer: &mut W, text: &[u8]) -> io::Result<()>
    ensures ok { OnOk result (Appends (W.contents writer.old) (W.contents writer.new) text.now) }
    ensures err { OnErr result (WritesFirstPart (W.contents writer.old)
        (W.contents writer.new) text.now) }
{
    let mut rest = text;
    for _ in 0..MOST_CALLS {
        if rest.is_empty() {
            return Ok(());
        }
        match writer.write(rest) {
            Ok(0) => return Err(ErrorKind::WriteZero.into()),
            Ok(count) => rest = &rest[count..],
            Err(error) => {
                if error.kind() != ErrorKind::Interrupted {
                    return Err(error);
                }
            }
        }
    }
    Err(ErrorKind::WriteZero.into())
}
