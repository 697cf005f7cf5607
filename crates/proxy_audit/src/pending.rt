//! The audit lines that are not written yet.

ghost use Rattle.std.specs.Prelude.{◌≡◌, ◌==◌, ◌++◌, ◌+◌, ◌-◌, ◌^◌, [], min, length, true, List, ℕ, IsTrue, MatchBool};
ghost use Rattle.std.specs.Io.KnownBytes.{Appends};
ghost use Rattle.std.specs.Time.{system_time_nanos};
ghost use Rattle.proxy_audit.specs.Lines.{line_of};
ghost use Rattle.proxy_audit.specs.Pending.{Adds, no_pending};

use crate::event::Event;
use crate::line::append_line;
use crate::time::moment;
use json::Scratch;
use proxy_streams::{Outbox, Sending};
use std::alloc::Global;
use std::io::Write;
use std::marker::Model;
use std::time::SystemTime;

/// The maximum number of bytes that wait to be written. A line that would exceed it is lost.
pub const MOST_PENDING_BYTES: usize = 1_048_576;

/// The audit lines that are not written yet, and the number of lines lost because there was no room or no memory.
#[derive(Drop)]
pub struct Pending {
    alloc: Global,
    unwritten: Outbox,
    line: Vec<u8>,
    scratch: Scratch,
    lost: u64,
}

impl Model for Pending {
    ghost use Rattle.proxy_audit.specs.Pending.{Pending};

    ghost Value = { Pending };

    ghost view = { λ p. record { unwritten = p.unwritten; lost = p.lost } };
}

impl Pending {
    /// Returns an empty buffer with no lost lines.
    pub fn new(alloc: Global) -> Self
        ensures { result ≡ no_pending }
    {
        Pending {
            alloc,
            unwritten: Outbox::new(alloc),
            line: Vec::new(alloc),
            scratch: Scratch::new(alloc),
            lost: 0,
        }
    }

    /// Returns whether all lines are written.
    pub fn is_empty(&self) -> bool
        ensures { result ≡ length self.now.unwritten == 0 }
    {
        self.unwritten.is_empty()
    }

    /// Returns the number of lost lines.
    pub fn lost(&self) -> u64
        ensures { result ≡ self.now.lost }
    {
        self.lost
    }

    /// Adds the line of an event, or counts it as lost.
    pub fn add(&mut self, time: SystemTime, event: &Event<'_>)
        ensures { Adds (system_time_nanos time) event.now self.old self.new }
    {
        if !self.try_add(moment(time).as_str(), event) {
            self.lose();
        }
    }

    /// Counts a line as lost.
    pub fn lose(&mut self)
        ensures lost { self.new.lost ≡ min (self.old.lost + 1) (2 ^ 64 - 1) }
        ensures unwritten { self.new.unwritten ≡ self.old.unwritten }
    {
        self.lost = self.lost.saturating_add(1);
    }

    /// Adds the line of an event. Returns false if there is no memory or no room for the line.
    fn try_add(&mut self, time: &str, event: &Event<'_>) -> bool
        ensures unwritten { MatchBool result (self.new.unwritten ≡ self.old.unwritten ++ line_of time.now event.now) (self.new.unwritten ≡ self.old.unwritten) }
        ensures lost { self.new.lost ≡ self.old.lost }
    {
        self.line.clear();
        let done = append_line(self.alloc, &mut self.scratch, &mut self.line, time, event);
        if done.is_err() {
            return false;
        }
        let room = MOST_PENDING_BYTES.saturating_sub(self.unwritten.len());
        self.line.len() <= room && self.unwritten.push(self.line.as_slice()).is_ok()
    }

    /// Writes bytes until the writer accepts no more. Returns whether all were written. The written bytes, followed by
    /// the bytes that remain, are the bytes that were there before.
    pub fn write<W: Write>(&mut self, writer: &mut W) -> bool
        ensures written { (part : List ℕ) × (self.old.unwritten ≡ part ++ self.new.unwritten) × Appends (W.contents writer.old) (W.contents writer.new) part }
        ensures whole { result ≡ true → self.new.unwritten ≡ [] }
        ensures lost { self.new.lost ≡ self.old.lost }
    {
        self.unwritten.send(writer) == Sending::Whole
    }
}
