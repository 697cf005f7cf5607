//! A buffer for a short line, which allocates nothing.

ghost use Rattle.std.specs.Prelude.{◌≡◌, []};

use std::io;
use std::io::{ErrorKind, Write};
use std::marker::Model;

/// The capacity, one byte more than the longest line of a fault.
const ROOM: usize = 64;

/// A partial line of at most 64 bytes. Contracts see its bytes.
#[derive(Drop)]
pub struct Room {
    bytes: [u8; ROOM],
    len: usize,
}

impl Model for Room {
    ghost use Rattle.std.specs.Prelude.{◌≤◌, ℕ, List, take};

    ghost Value = { List ℕ };

    ghost view = { λ a. take a.len a.bytes };

    ghost invariant = { λ a. a.len ≤ 64 };
}

impl Room {
    /// Returns an empty line.
    pub fn new() -> Self
        ensures { result ≡ [] }
    {
        Room {
            bytes: [0; ROOM],
            len: 0,
        }
    }

    pub fn as_bytes(&self) -> &[u8]
        ensures { result.now ≡ self.now }
    {
        &self.bytes[..self.len]
    }
}

impl Write for Room {
    ghost use Rattle.std.specs.Prelude.{Some};

    ghost contents = { λ line. Some line };

    fn write(&mut self, buf: &[u8]) -> io::Result<usize> {
        if buf.len() > ROOM - self.len {
            return Err(ErrorKind::WriteZero.into());
        }
        let end = self.len + buf.len();
        self.bytes[self.len..end].copy_from_slice(buf);
        self.len = end;
        Ok(buf.len())
    }

    fn flush(&mut self) -> io::Result<()> {
        Ok(())
    }
}
