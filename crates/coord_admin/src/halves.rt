//! A reader and a writer as one connection.

ghost use Rattle.std.specs.Prelude.{OnErr, OnOk};
ghost use Rattle.std.specs.Io.KnownBytes.{Appends, Consumes, IsAtEnd};
ghost use Rattle.std.proofs.KnownBytes.{Appends-nil, Appends-trans, Consumes-nil, Consumes-trans};
ghost use Rattle.coord_lines.specs.Written.{WritesFirstPart};

use crate::duplex::{Duplex, NotRead, NotWritten};
use coord_lines::write_whole;
use std::io::{Read, Write};

/// A connection that reads from the reader and writes to the writer. A call waits as long as the
/// reader or the writer does.
#[derive(Drop)]
pub struct Halves<R, W> {
    pub reader: R,
    pub writer: W,
}

impl<R: Read, W: Write> Duplex for Halves<R, W> {
    ghost exchanged = { λ a bytes_read bytes_written b.
        Consumes (R.remaining a.reader) (R.remaining b.reader) bytes_read ×
        Appends (W.contents a.writer) (W.contents b.writer) bytes_written };

    ghost has_ended = { λ a. IsAtEnd (R.remaining a.reader) };

    fn receive(&mut self, buffer: &mut [u8], _is_within_line: bool) -> Result<usize, NotRead> {
        match self.reader.read(buffer) {
            Ok(count) => Ok(count),
            Err(_) => Err(NotRead),
        }
    }

    fn reply(&mut self, text: &[u8]) -> Result<(), NotWritten> {
        write_text(&mut self.writer, text)
    }

    ghost at_rest = { λ a. (Consumes-nil _, Appends-nil _) };

    ghost in_turn = { λ a b c bytes_read more bytes_written later first second. (
      Consumes-trans _ _ _ bytes_read more first.0 second.0,
      Appends-trans _ _ _ bytes_written later first.1 second.1,
    ) };
}

/// Writes a whole text, and flushes the writer.
fn write_text<W: Write>(writer: &mut W, text: &[u8]) -> Result<(), NotWritten>
    ensures ok { OnOk result (Appends (W.contents writer.old) (W.contents writer.new) text.now) }
    ensures err { OnErr result (WritesFirstPart (W.contents writer.old)
        (W.contents writer.new) text.now) }
{
    if write_whole(writer, text).is_err() {
        return Err(NotWritten);
    }
    match writer.flush() {
        Ok(()) => Ok(()),
        Err(_) => Err(NotWritten),
    }
}
