//! An output lent to a server.

use coord_server::TakableOutput;
use std::io;
use std::io::Write;

/// An output lent to a server. The bytes that contracts see begin with the number that identifies this
/// output. So if a server returns an output whose bytes begin with the lent bytes, that output is this
/// one.
#[derive(Drop)]
pub struct Lent<'a, W: Write> {
    pub output: &'a mut W,
}

impl<W: Write> Write for Lent<'_, W> {
    ghost use Rattle.coord_commands.specs.Streams.{known_as};

    ghost contents = { λ l. known_as l.output.ghost_name (W.contents l.output.now) };

    fn write(&mut self, bytes: &[u8]) -> io::Result<usize> {
        Write::write(self.output, bytes)
    }

    fn flush(&mut self) -> io::Result<()> {
        Write::flush(self.output)
    }

    fn write_all(&mut self, bytes: &[u8]) -> io::Result<()> {
        Write::write_all(self.output, bytes)
    }
}

impl<W: Write> TakableOutput for Lent<'_, W> {}
