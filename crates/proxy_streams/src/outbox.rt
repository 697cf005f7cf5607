//! The bytes that are still to be sent.

ghost use Rattle.std.specs.Prelude.{◌≡◌, ◌==◌, ◌≤◌, ◌++◌, ◌∷◌, [], length, take, List, ℕ, OnErr, OnOk};
ghost use Rattle.std.specs.Io.KnownBytes.{Appends};
ghost use Rattle.proxy_streams.specs.declared.outbox.Sending.TheVariants.{Whole};

use std::alloc::{AllocError, Global};
use std::io::{ErrorKind, Write};
use std::marker::Model;

/// The maximum number of calls of `write` in one call of `send`.
const MOST_WRITES: u32 = 1024;

/// The outcome of a call of `send`.
#[derive(Clone, Copy, Debug, PartialEq, Eq)]
pub enum Sending {
    /// All bytes were sent.
    Whole,
    /// The stream accepts no more bytes at present.
    Blocked,
    /// The stream has failed.
    Failed,
}

/// The bytes that a stream has not accepted yet.
#[derive(Drop)]
pub struct Outbox {
    bytes: Vec<u8>,
    begin: usize,
}

impl Model for Outbox {
    ghost use Rattle.std.specs.Prelude.{◌≤◌, ℕ, List, drop, length};

    ghost Value = { List ℕ };

    ghost view = { λ o. drop o.begin o.bytes.items };

    ghost invariant = { λ o. o.begin ≤ length o.bytes.items };
}

impl Outbox {
    /// Returns an outbox without bytes.
    pub fn new(alloc: Global) -> Self
        ensures { result ≡ [] }
    {
        Outbox {
            bytes: Vec::new(alloc),
            begin: 0,
        }
    }

    /// Returns the number of bytes still to be sent.
    pub fn len(&self) -> usize
        ensures { result ≡ length self.now }
    {
        self.bytes.len() - self.begin
    }

    /// Tests whether all bytes were sent.
    pub fn is_empty(&self) -> bool
        ensures { result ≡ length self.now == 0 }
    {
        self.len() == 0
    }

    /// Appends a text. Errors: out of memory; nothing changes.
    pub fn push(&mut self, text: &[u8]) -> Result<(), AllocError>
        ensures ok { OnOk result (self.new ≡ self.old ++ text.now) }
        ensures err { OnErr result (self.new ≡ self.old) }
    {
        self.bytes.extend_from_slice(text)
    }

    /// Appends a line and a line feed. Errors: out of memory; nothing changes.
    pub fn push_line(&mut self, line: &[u8]) -> Result<(), AllocError>
        ensures ok { OnOk result (self.new ≡ self.old ++ (line.now ++ 10 ∷ [])) }
        ensures err { OnErr result (self.new ≡ self.old) }
    {
        let before = self.bytes.len();
        self.bytes.extend_from_slice(line)?;
        match self.bytes.push(b'\n') {
            Ok(()) => Ok(()),
            Err(error) => {
                self.bytes.truncate(before);
                Err(error.into())
            }
        }
    }

    /// Sends bytes until the stream accepts no more. The sent bytes, followed by the bytes that remain, are the bytes
    /// that were there before.
    pub fn send<W: Write>(&mut self, stream: &mut W) -> Sending
        ensures sent { (part : List ℕ) × (self.old ≡ part ++ self.new) × Appends (W.contents stream.old) (W.contents stream.new) part }
        ensures whole { result ≡ Whole → self.new ≡ [] }
    {
        let (count, sending) = write_part(stream, &self.bytes[self.begin..]);
        self.begin += count;
        if self.begin == self.bytes.len() {
            self.bytes.clear();
            self.begin = 0;
        }
        sending
    }
}

/// Writes a text until the stream accepts no more. Returns the number of bytes written, and the
/// outcome.
fn write_part<W: Write>(stream: &mut W, text: &[u8]) -> (usize, Sending)
    ensures bound { result.0 ≤ length text.now }
    ensures sent { Appends (W.contents stream.old) (W.contents stream.new) (take result.0 text.now) }
    ensures whole { result.1 ≡ Whole → result.0 ≡ length text.now }
{
    let mut sent = 0;
    for _ in 0..MOST_WRITES {
        if sent == text.len() {
            return (sent, Sending::Whole);
        }
        match stream.write(&text[sent..]) {
            Ok(0) => return (sent, Sending::Failed),
            Ok(count) => sent += count,
            Err(error) => match error.kind() {
                ErrorKind::Interrupted => {}
                ErrorKind::WouldBlock => return (sent, Sending::Blocked),
                _ => return (sent, Sending::Failed),
            },
        }
    }
    (sent, Sending::Failed)
}
