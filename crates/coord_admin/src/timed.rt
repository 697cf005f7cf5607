//! A connection over a socket, with timeouts for the client.

ghost use Rattle.std.specs.Prelude.{◌≡◌, ◌≤◌, ⊤, length, IfOk};

use crate::duplex::{Duplex, NotRead, NotWritten};
use crate::timeouts::{DISCARD_READS, Timeouts};
use coord_lines::MOST_CALLS;
use std::io;
use std::io::{ErrorKind, Read, Write};
use std::net::{OpenStream, Shutdown};
use std::time::{Clock, Duration, Instant};

/// A stream with timeouts for its reads and writes. No clause can state which bytes a socket returns
/// and takes, so the stream's users are generic over [`Duplex`].
#[derive(Drop)]
pub struct TimedStream<'a, S, T: Clock> {
    clock: &'a T,
    stream: S,
    timeouts: Timeouts,
    opened: Instant,
    /// The time at which the wait for the end of the current line began.
    line_begun: Option<Instant>,
    /// The timeouts of reads and writes that were last set in the system.
    read_wait: Option<Duration>,
    write_wait: Option<Duration>,
    /// Whether the last read filled its buffer; only then may more input have arrived.
    has_filled: bool,
}

/// Returns the rest of a time span that began at `start`, or None if the span has passed.
fn left<T: Clock>(clock: &T, start: Instant, span: Duration) -> Option<Duration> {
    let passed = start.elapsed(clock).ok()?;
    match span.checked_sub(passed) {
        Some(left) if !left.is_zero() => Some(left),
        _ => None,
    }
}

/// Reads input within a span of time. An interrupted wait, for example by a stop signal, continues for
/// the rest of the span.
fn read_within<S: Read + OpenStream, T: Clock>(
    clock: &T,
    stream: &mut S,
    returned: &mut Option<Duration>,
    buffer: &mut [u8],
    span: Duration,
) -> Result<usize, NotRead>
    ensures fits { IfOk result (λ n. n ≤ length buffer.new) }
    ensures length { length buffer.new ≡ length buffer.old }
{
    let Ok(start) = Instant::now(clock) else {
        return Err(NotRead);
    };
    let mut wait = span;
    for _ in 0..MOST_CALLS {
        if *returned != Some(wait) && stream.set_read_timeout(Some(wait)).is_err() {
            return Err(NotRead);
        }
        *returned = Some(wait);
        match stream.read(buffer) {
            Ok(count) => return Ok(count),
            Err(error) if error.kind() == ErrorKind::Interrupted => {}
            Err(_) => return Err(NotRead),
        }
        wait = match left(clock, start, span) {
            Some(wait) => wait,
            None => return Err(NotRead),
        };
    }
    Err(NotRead)
}

impl<'a, S: Read + Write + OpenStream + Drop, T: Clock> TimedStream<'a, S, T> {
    /// Makes a connection over a stream that sends each write at once.
    pub fn new(clock: &'a T, stream: S, timeouts: Timeouts) -> io::Result<Self>
        ensures { IfOk result (λ line. line.timeouts ≡ timeouts) }
    {
        stream.set_nodelay(true)?;
        let opened = Instant::now(clock)?;
        Ok(TimedStream {
            clock,
            stream,
            timeouts,
            opened,
            line_begun: None,
            read_wait: None,
            write_wait: None,
            has_filled: false,
        })
    }

    /// Returns the timeout of the next read, or None if its limit has passed. The limit for the whole
    /// connection applies only between lines, and when a line has just begun.
    fn waits(&mut self, is_within_line: bool) -> Option<Duration> {
        if !is_within_line {
            self.line_begun = None;
        }
        if self.line_begun.is_none() {
            left(self.clock, self.opened, self.timeouts.connection)?;
        }
        if !is_within_line {
            return Some(self.timeouts.silence);
        }
        let begun = match self.line_begun {
            Some(begun) => begun,
            None => Instant::now(self.clock).ok()?,
        };
        self.line_begun = Some(begun);
        left(self.clock, begun, self.timeouts.line)
    }

    /// Shuts down writing, and discards input for a while. A connection that is closed with unread
    /// input may lose bytes that its client has not read yet. No clause can state which bytes these
    /// reads return.
    pub fn discard(&mut self)
        ensures { self.new.timeouts ≡ self.old.timeouts }
    {
        if self.stream.shutdown(Shutdown::Write).is_err() {
            return;
        }
        let Ok(start) = Instant::now(self.clock) else {
            return;
        };
        let mut buffer = [0; 512];
        for _ in 0..DISCARD_READS {
            let Some(wait) = left(self.clock, start, self.timeouts.discard) else {
                return;
            };
            let returned = &mut self.read_wait;
            match read_within(self.clock, &mut self.stream, returned, &mut buffer, wait) {
                Ok(0) | Err(NotRead) => return,
                Ok(_) => {}
            }
        }
    }
}

impl<'a, S: Read + Write + OpenStream + Drop, T: Clock> Duplex for TimedStream<'a, S, T> {
    ghost exchanged = { λ _ _ _ _. ⊤ };

    ghost has_ended = { λ _. ⊤ };

    fn receive(&mut self, buffer: &mut [u8], is_within_line: bool) -> Result<usize, NotRead> {
        let Some(wait) = self.waits(is_within_line) else {
            return Err(NotRead);
        };
        let returned = &mut self.read_wait;
        let read = read_within(self.clock, &mut self.stream, returned, buffer, wait);
        self.has_filled = read == Ok(buffer.len());
        if let Ok(count) = read {
            // bytes after a line feed belong to another line, which has its own timeout
            if buffer[..count].contains(&b'\n') {
                self.line_begun = None;
            }
        }
        read
    }

    /// Checks for input without waiting. If the last read has shown that there is no more input, does
    /// not check. If the stream can't be made blocking again, its next read fails.
    fn has_more(&self) -> bool {
        if !self.has_filled || self.stream.set_nonblocking(true).is_err() {
            return false;
        }
        let looked = self.stream.peek(&mut [0]);
        self.stream.set_nonblocking(false).is_ok() && matches!(looked, Ok(count) if count > 0)
    }

    fn reply(&mut self, text: &[u8]) -> Result<(), NotWritten> {
        self.line_begun = None;
        let Ok(ready) = Instant::now(self.clock) else {
            return Err(NotWritten);
        };
        let mut rest = text;
        let mut wait = Some(self.timeouts.reply);
        for _ in 0..MOST_CALLS {
            if rest.is_empty() {
                return match self.stream.flush() {
                    Ok(()) => Ok(()),
                    Err(_) => Err(NotWritten),
                };
            }
            if wait.is_none() {
                return Err(NotWritten);
            }
            if self.write_wait != wait && self.stream.set_write_timeout(wait).is_err() {
                return Err(NotWritten);
            }
            self.write_wait = wait;
            match self.stream.write(rest) {
                Ok(0) => return Err(NotWritten),
                Ok(count) => rest = &rest[count..],
                Err(error) if error.kind() == ErrorKind::Interrupted => {}
                Err(_) => return Err(NotWritten),
            }
            wait = left(self.clock, ready, self.timeouts.reply);
        }
        Err(NotWritten)
    }

    ghost at_rest = { λ _. tt };

    ghost in_turn = { λ _ _ _ _ _ _ _ _ _. tt };
}
