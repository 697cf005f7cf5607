//! The lines that the server sends.

ghost use Rattle.std.specs.Prelude.{◌≡◌, ◌+◌, ◌++◌, [], drop, length, OnOk};
ghost use Rattle.std.specs.List.{position};
ghost use Rattle.std.specs.Option.{option_copied};
ghost use Rattle.coord_lines.specs.Lines.{is_line_feed};
ghost use Rattle.proxy_streams.specs.ServerLines.{first_line};

use std::alloc::{AllocError, Global};
use std::marker::Model;

/// The maximum number of bytes of an answer. The server's longest view is shorter.
pub const MOST_ANSWER_BYTES: usize = 65_536;

/// The bytes that arrived from the server and were not yet taken as answers.
#[derive(Drop)]
pub struct ServerLines {
    bytes: Vec<u8>,
    begin: usize,
}

impl Model for ServerLines {
    ghost use Rattle.std.specs.Prelude.{◌≤◌, ℕ, List, drop, length};

    ghost Value = { List ℕ };

    ghost view = { λ a. drop a.begin a.bytes.items };

    ghost invariant = { λ a. a.begin ≤ length a.bytes.items };
}

impl ServerLines {
    /// Returns a buffer without bytes.
    pub fn new(alloc: Global) -> Self
        ensures { result ≡ [] }
    {
        ServerLines {
            bytes: Vec::new(alloc),
            begin: 0,
        }
    }

    /// Returns the number of bytes in the buffer.
    pub fn len(&self) -> usize
        ensures { result ≡ length self.now }
    {
        self.bytes.len() - self.begin
    }

    /// Appends bytes that arrived. Errors: out of memory.
    pub fn fill(&mut self, bytes: &[u8]) -> Result<(), AllocError>
        ensures ok { OnOk result (self.new ≡ self.old ++ bytes.now) }
    {
        self.bytes.drain(..self.begin);
        self.begin = 0;
        self.bytes.extend_from_slice(bytes)
    }

    /// Returns the first line without its line feed, if the line feed has arrived.
    pub fn first(&self) -> Option<&[u8]>
        ensures { option_copied result ≡ first_line self.now }
    {
        let rest = &self.bytes[self.begin..];
        match line_feed_in(rest) {
            Some(end) => Some(&rest[..end]),
            None => None,
        }
    }

    /// Drops the first line, which has this length, and its line feed. If there are fewer bytes, drops all bytes.
    pub fn drop_first(&mut self, length: usize)
        ensures { self.new ≡ drop (length + 1) self.old }
    {
        let left = self.len().saturating_sub(length).saturating_sub(1);
        self.begin = self.bytes.len() - left;
    }
}

fn line_feed_in(bytes: &[u8]) -> Option<usize>
    ensures { result ≡ position is_line_feed bytes.now }
{
    bytes.iter().position(|byte| *byte == b'\n')
}
