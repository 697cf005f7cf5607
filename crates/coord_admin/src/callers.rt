//! The callers of a server.

ghost use Rattle.std.specs.Prelude.{◌≡◌, List, [], ◌∷◌, ◌++◌, ℕ, ⊤, Result, Err, Ok, IfOk, OnErr};
ghost use Rattle.coord_admin.specs.Connections.{Talk};
ghost use Rattle.coord_admin.specs.InstanceLimit.{ends_here};
ghost use Rattle.coord_admin.specs.declared.fault.ServeFault.{ServeFault};
ghost use Rattle.coord_admin.specs.declared.fault.ServeFault.TheVariants.{Read, Write};
ghost use Rattle.coord_admin.specs.declared.session.Ended.{Ended};
ghost use Rattle.coord_admin.specs.declared.session.Ended.TheVariants.{Input};

use crate::accepting::Failure;
use crate::duplex::Duplex;
use crate::fault::ServeFault;
use crate::session::Ended;
use crate::timed::TimedStream;
use crate::timeouts::{ACCEPT_TRIES, Timeouts};
use std::io::{ErrorKind, Read, Write};
use std::marker::Model;
use std::net::{OpenListener, OpenStream, SocketAddr};
use std::time::Clock;
use std::{io, thread};

/// Clients that connect one after the other, each with its own connection.
pub trait Callers {
    type Line: Duplex + Drop;

    /// The connections that have ended between two states of the callers, in order.
    ghost talked: { Self → List Talk → Self → Type 0 };

    /// The server asked for the next client and got this connection, over which nothing was read or
    /// written yet. This does not show which connections have ended before; only the end of this
    /// connection does.
    ghost called: { Self → Self.Line → Self → Type 0 };

    /// The server asked for the next client or for the address, and the callers failed: no more clients
    /// come.
    ghost failed: { Self → Self → Type 0 } = { λ _ _. ⊤ };

    /// The server ended this connection, with this result.
    ghost ended: { Self → Self.Line → Result Ended ServeFault → Self → Type 0 } = { λ _ _ _ _. ⊤ };

    /// Returns the address at which the callers connect.
    fn address(&self) -> io::Result<SocketAddr>
        ensures unknown { OnErr result (failed self.now self.now) };

    /// Waits for the next client. After an error no more clients come.
    fn next(&mut self) -> io::Result<Self::Line>
        ensures called { IfOk result (λ line. called self.old line self.new) }
        ensures failed { OnErr result (failed self.old self.new) }
        ensures none_ended { OnErr result (talked self.old [] self.new) };

    /// Ends a served connection. `served` must say how the connection ended: it may be `Input` only if
    /// nothing more comes in, and a fault only if a read or write has failed. If the server ended the
    /// connection, by a close or a cut, the client first gets time to read the last answer.
    fn end(&mut self, line: Self::Line, served: Result<Ended, ServeFault>)
        requires input { served ≡ Ok Input → Self.Line.has_ended line }
        requires read { served ≡ Err Read → Self.Line.has_failed line }
        requires write { served ≡ Err Write → Self.Line.has_failed line }
        ensures ended { ended self.old line served self.new }
        ensures talked { (before : Self) (first : Self.Line) (bytes_read bytes_written : List ℕ) →
            called before first self.old → Self.Line.exchanged first bytes_read bytes_written line →
            talked before (record { bytes_read = bytes_read; bytes_written = bytes_written } ∷ []) self.new };

    ghost at_rest: { (a : Self) → talked a [] a };

    ghost in_turn: { (a b c : Self) (some more : List Talk) → talked a some b → talked b more c →
        talked a (some ++ more) c };
}

/// Tests whether the server closed or cut a connection.
fn ends_here(served: Result<Ended, ServeFault>) -> bool
    ensures { result ≡ ends_here served }
{
    matches!(served, Ok(Ended::Closed | Ended::Cut))
}

/// The connections that a listener accepts, each with timeouts for its client. Contracts see only the
/// timeouts.
#[derive(Drop)]
pub struct Accepted<'a, L, T: Clock> {
    clock: &'a T,
    listener: &'a L,
    timeouts: Timeouts,
}

impl<'a, L, T: Clock> Model for Accepted<'a, L, T> {
    ghost use Rattle.coord_admin.specs.declared.timeouts.Timeouts.{Timeouts};

    ghost Value = { Timeouts };

    ghost view = { λ a. a.timeouts };
}

impl<'a, L: OpenListener, T: Clock> Accepted<'a, L, T> {
    pub fn new(clock: &'a T, listener: &'a L, timeouts: Timeouts) -> Self
        ensures { result ≡ timeouts }
    {
        Accepted {
            clock,
            listener,
            timeouts,
        }
    }
}

impl<'a, S: Read + Write + OpenStream + Drop, L: OpenListener<Stream = S>, T: Clock> Callers
    for Accepted<'a, L, T> {
    type Line = TimedStream<'a, S, T>;

    ghost talked = { λ _ _ _. ⊤ };

    ghost called = { λ callers line _. line.timeouts ≡ callers };

    fn address(&self) -> io::Result<SocketAddr> {
        self.listener.local_addr()
    }

    /// Skips a client that has left, or whose stream can't be set up. After a temporary failure, pauses
    /// for the time `accept_rest` and retries, at most `ACCEPT_TRIES` times.
    fn next(&mut self) -> io::Result<TimedStream<'a, S, T>> {
        let mut tries = 0;
        for stream in self.listener.incoming() {
            match stream {
                Ok(stream) => {
                    if let Ok(line) = TimedStream::new(self.clock, stream, self.timeouts) {
                        return Ok(line);
                    }
                }
                Err(error) => match Failure::of(&error) {
                    Failure::OfClient => {}
                    Failure::OfMeans if tries < ACCEPT_TRIES => {
                        tries += 1;
                        thread::sleep(self.clock, self.timeouts.accept_rest);
                    }
                    _ => return Err(error),
                },
            }
        }
        Err(ErrorKind::TimedOut.into())
    }

    fn end(&mut self, line: TimedStream<'a, S, T>, served: Result<Ended, ServeFault>) {
        let mut line = line;
        if ends_here(served) {
            line.discard();
        }
    }

    ghost at_rest = { λ _. tt };

    ghost in_turn = { λ _ _ _ _ _ _ _. tt };
}
