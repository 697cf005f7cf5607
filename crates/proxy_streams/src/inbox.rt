//! The lines of a client.

ghost use Rattle.std.specs.Prelude.{◌≡◌, ◌↔◌, [], IsTrue, OnErr, OnOk, Some};
ghost use Rattle.std.specs.Option.{option_copied};
ghost use Rattle.proxy_streams.specs.Inboxes.{IsDrained, after_line, filled, has_line, new_inbox, with_line};

use coord_lines::LineBuffer;
use std::alloc::{AllocError, Global};
use std::marker::Model;

/// The maximum number of bytes that an inbox accepts at once.
pub const MOST_PIECE_BYTES: usize = 4096;

/// The bytes that arrived from a client and were not yet taken as lines: the line so far, and the bytes
/// after it.
#[derive(Drop)]
pub struct Inbox {
    line: LineBuffer,
    is_whole: bool,
    piece: Vec<u8>,
    begin: usize,
}

impl Model for Inbox {
    ghost use Rattle.std.specs.Prelude.{◌≤◌, drop, length};
    ghost use Rattle.proxy_streams.specs.Inboxes.{Inbox};

    ghost Value = { Inbox };

    ghost view = { λ i. record { line = i.line; is_whole = i.is_whole; rest = drop i.begin i.piece.items } };

    ghost invariant = { λ i. i.begin ≤ length i.piece.items };
}

impl Inbox {
    /// Returns an inbox without bytes.
    pub fn new(alloc: Global) -> Self
        ensures { result ≡ new_inbox }
    {
        Inbox {
            line: LineBuffer::new(),
            is_whole: false,
            piece: Vec::new(alloc),
            begin: 0,
        }
    }

    /// Moves the bytes up to the next line feed into the line. Returns whether the line is complete.
    pub fn complete_line(&mut self) -> bool
        ensures whole { result ≡ has_line self.old }
        ensures after { self.new ≡ with_line self.old }
    {
        if self.is_whole {
            return true;
        }
        let rest = &self.piece[self.begin..];
        match self.line.take(rest) {
            Some(following) => {
                self.begin = self.piece.len() - following.len();
                self.is_whole = true;
                true
            }
            None => {
                self.begin = self.piece.len();
                false
            }
        }
    }

    /// Returns the line so far, or None if it is over the limit.
    pub fn line(&self) -> Option<&[u8]>
        ensures { option_copied result ≡ self.now.line }
    {
        self.line.get()
    }

    /// Drops the line, and begins the next one.
    pub fn drop_line(&mut self)
        ensures { self.new ≡ after_line self.old }
    {
        self.line.clear();
        self.is_whole = false;
    }

    /// Tests whether the inbox can accept more bytes: all bytes that arrived are in the line, and the line is not
    /// complete.
    pub fn is_drained(&self) -> bool
        ensures { IsTrue result ↔ IsDrained self.now }
    {
        !self.is_whole && self.piece[self.begin..].is_empty()
    }

    /// Tests whether no byte of a line has arrived.
    pub fn is_empty(&self) -> bool
        ensures { IsTrue result ↔ (IsDrained self.now × (self.now.line ≡ Some [])) }
    {
        if !self.is_drained() {
            return false;
        }
        match self.line.get() {
            Some(line) => line.is_empty(),
            None => false,
        }
    }

    /// Accepts more bytes. The inbox must be drained: all earlier bytes are in the line, which is not complete. Errors:
    /// out of memory; nothing changes.
    pub fn fill(&mut self, bytes: &[u8]) -> Result<(), AllocError>
        requires { IsDrained self.old }
        ensures ok { OnOk result (self.new ≡ filled bytes.now self.old) }
        ensures err { OnErr result (self.new ≡ self.old) }
    {
        self.piece.clear();
        self.begin = 0;
        self.piece.extend_from_slice(bytes)
    }
}
