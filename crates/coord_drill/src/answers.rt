//! Reads once or writes once, and returns the result.

ghost use Rattle.std.specs.Prelude.{◌≡◌, ◌≢◌, Ok, Err, IfOk, IfErr, MatchResult};
ghost use Rattle.std.specs.Io.{ReadsAtMost, WritesAtMost};
ghost use Rattle.std.specs.Io.KnownBytes.{ReadConsumes, WriteAppends};
ghost use Rattle.std.specs.IoError.{error_kind};
ghost use Rattle.coord_drill.specs.Faults.{IsOfWriting, ReportsOfWrite};

use crate::fault::Fault;
use crate::writing::fault_of;
use std::io;
use std::io::{ErrorKind, Read, Write};

/// Returns the number of bytes that a read has returned, or the fault `Read`.
fn bytes_read(answer: io::Result<usize>) -> Result<usize, Fault>
    ensures { MatchResult answer (λ count. result ≡ Ok count) (λ _. result ≡ Err Fault.Read) }
{
    match answer {
        Ok(count) => Ok(count),
        Err(_) => Err(Fault::Read),
    }
}

/// Returns the number of bytes that a write has written, or its fault. An interrupted write counts as 0
/// bytes.
fn bytes_written(answer: io::Result<usize>) -> Result<usize, Fault>
    ensures some { IfOk answer (λ count. count ≢ 0 → result ≡ Ok count) }
    ensures none { IfOk answer (λ count. count ≡ 0 → result ≡ Err Fault.Write) }
    ensures again { IfErr answer (λ error. error_kind error ≡ ErrorKind.Interrupted →
        result ≡ Ok 0) }
    ensures memory { IfErr answer (λ error. error_kind error ≡ ErrorKind.OutOfMemory →
        result ≡ Err Fault.OutOfMemory) }
    ensures other { IfErr answer (λ error. error_kind error ≢ ErrorKind.Interrupted →
        error_kind error ≢ ErrorKind.OutOfMemory → result ≡ Err Fault.Write) }
    ensures bytes { ReportsOfWrite answer result }
    ensures fault { IfErr result IsOfWriting }
{
    match answer {
        Ok(0) => Err(Fault::Write),
        Ok(count) => Ok(count),
        Err(error) => {
            if error.kind() == ErrorKind::Interrupted {
                Ok(0)
            } else {
                Err(fault_of(&error))
            }
        }
    }
}

/// Reads once into `buf`, and returns the number of bytes. Errors: `Read`.
pub fn read_once<R: Read>(reader: &mut R, buf: &mut [u8]) -> Result<usize, Fault>
    ensures bound { ReadsAtMost result buf.new }
    ensures bytes { ReadConsumes (R.remaining reader.old) (R.remaining reader.new) result buf.new }
    ensures fault { IfErr result (λ fault. fault ≡ Fault.Read) }
{
    bytes_read(reader.read(buf))
}

/// Writes once, and returns the number of bytes, which is 0 if the write was interrupted. Errors: out
/// of memory, or `Write`.
pub fn write_once<W: Write>(writer: &mut W, text: &[u8]) -> Result<usize, Fault>
    ensures bound { WritesAtMost result text.now }
    ensures bytes { WriteAppends (W.contents writer.old) (W.contents writer.new) result text.now }
    ensures fault { IfErr result IsOfWriting }
{
    bytes_written(writer.write(text))
}
