//! The connection to the server.

ghost use Rattle.std.specs.Prelude.{◌≡◌, ◌++◌, OnErr, OnOk};
ghost use Rattle.proxy_core.specs.Pending.{text_of};

use crate::event_loop::{EventLoop, SERVER};
use crate::gateway::Gateway;
use crate::ready::Ready;
use crate::settings::{IDLE, MOST_USE};
use mio::net::TcpStream;
use mio::{Interest, Registry, Token};
use proxy_core::Proxy;
use proxy_streams::{Outbox, Sending, ServerLines};
use std::alloc::{AllocError, Global};
use std::io;
use std::net::Net;
use std::time::Duration;

#[derive(Drop)]
pub(crate) struct Server {
    pub stream: TcpStream,
    pub lines: ServerLines,
    pub outbox: Outbox,
    pub is_connected: bool,
    /// Whether there may be bytes to read.
    pub is_readable: bool,
    /// Whether the server sends no more bytes. The loop still reads all bytes that arrived.
    pub is_closing: bool,
    /// When the connection was established; until then, when the attempt began.
    pub since: Duration,
    /// Whether a flight was sent over this connection.
    pub is_used: bool,
    /// When the flight was sent, or when its last whole answer arrived; before the first flight, when the attempt to
    /// connect began.
    pub heard: Duration,
    /// Since when no line waits for an answer, or None if a line waits.
    pub idle_since: Option<Duration>,
}

impl Server {
    fn new(alloc: Global, stream: TcpStream, now: Duration) -> Self {
        Server {
            stream,
            lines: ServerLines::new(alloc),
            outbox: Outbox::new(alloc),
            is_connected: false,
            is_readable: false,
            is_closing: false,
            since: now,
            is_used: false,
            heard: now,
            idle_since: None,
        }
    }
}

impl<G: Gateway> EventLoop<G> {
    /// Connects to the server or sends the next flight, if a line waits.
    pub(crate) fn drive<R: Net>(&mut self, rt: &R, registry: &Registry) -> io::Result<()> {
        self.drive_server(rt, registry)?;
        Ok(self.release()?)
    }

    fn drive_server<R: Net>(&mut self, rt: &R, registry: &Registry) -> io::Result<()> {
        self.judge_resets()?;
        self.prepare_resets()?;
        self.ask_for_itself()?;
        let is_idle = self.core.is_idle();
        let now = self.at.now;
        let Some(server) = self.server.as_mut() else {
            if !is_idle && now >= self.retry_at {
                self.connect(rt, registry)?;
            }
            return Ok(());
        };
        if is_idle {
            if server.idle_since.is_none() {
                server.idle_since = Some(now);
            }
            return Ok(());
        }
        server.idle_since = None;
        if !server.is_connected || self.in_flight > 0 {
            return Ok(());
        }
        if server.is_used && now.saturating_sub(server.since) > Duration::from_millis(MOST_USE) {
            self.let_go()?;
            return self.connect(rt, registry);
        }
        let lines = self.core.start_flight(self.alloc)?;
        if lines > 0 {
            self.begin_flight(lines)?;
        }
        Ok(())
    }

    /// Sends the next flight, which has so many lines.
    pub(crate) fn begin_flight(&mut self, lines: usize) -> Result<(), AllocError> {
        self.in_flight = lines;
        self.counts.flights = self.counts.flights.saturating_add(1);
        self.write_flight()
    }

    fn connect<R: Net>(&mut self, rt: &R, registry: &Registry) -> io::Result<()> {
        let Ok(mut stream) = TcpStream::connect(rt, self.addresses.used()) else {
            self.wait_for_next();
            return Ok(());
        };
        let both = Interest::READABLE | Interest::WRITABLE;
        registry.register(&mut stream, Token(SERVER), both)?;
        self.server = Some(Server::new(self.alloc, stream, self.at.now));
        Ok(())
    }

    /// Writes the flight to the server as one text.
    fn write_flight(&mut self) -> Result<(), AllocError> {
        let Some(server) = self.server.as_mut() else {
            return Ok(());
        };
        push_flight(self.alloc, &self.gateway, &self.core, &mut server.outbox)?;
        server.heard = self.at.now;
        server.is_used = true;
        self.send_flight()
    }

    /// Sends the bytes that the server has not accepted yet.
    fn send_flight(&mut self) -> Result<(), AllocError> {
        if let Some(server) = self.server.as_mut() {
            if server.outbox.send(&mut server.stream) == Sending::Failed {
                return self.lose_server();
            }
        }
        Ok(())
    }

    /// Closes the connection to the server so that others can reach the server. Nothing may be in flight.
    pub(crate) fn let_go(&mut self) -> Result<(), AllocError> {
        self.server = None;
        self.note_lost()
    }

    /// Closes the connection to the server, which broke or is silent. The proxy tries the next address after a pause.
    pub(crate) fn lose_server(&mut self) -> Result<(), AllocError> {
        self.server = None;
        self.wait_for_next();
        self.note_lost()
    }

    fn note_lost(&mut self) -> Result<(), AllocError> {
        if let Some(number) = self.core.server_lost() {
            self.in_flight = self.in_flight.saturating_sub(1);
            self.end_number(number)?;
        }
        self.withdraw_reset()
    }

    fn wait_for_next(&mut self) {
        self.is_answering = Some(false);
        let pause = self.addresses.leave();
        self.retry_at = self.at.now.saturating_add(pause);
    }

    /// Handles an event of the server's connection.
    pub(crate) fn server_ready(&mut self, ready: Ready) -> io::Result<()> {
        let Some(server) = self.server.as_mut() else {
            return Ok(());
        };
        if !server.is_connected {
            return self.server_connecting(ready);
        }
        if ready.is_readable || ready.is_closing {
            server.is_readable = true;
            server.is_closing = server.is_closing || ready.is_closing;
        }
        if ready.is_writable {
            self.send_flight()?;
        }
        Ok(())
    }

    fn server_connecting(&mut self, ready: Ready) -> io::Result<()> {
        let Some(server) = self.server.as_mut() else {
            return Ok(());
        };
        if !matches!(server.stream.take_error(), Ok(None)) {
            return Ok(self.lose_server()?);
        }
        if !ready.is_writable {
            return Ok(());
        }
        server.is_connected = true;
        server.since = self.at.now;
        server.is_readable = ready.is_readable || ready.is_closing;
        server.is_closing = ready.is_closing;
        let _ = server.stream.set_nodelay(true);
        if self.core.server_connected() && self.in_flight > 0 {
            let lines = self.in_flight as u64;
            self.counts.resends = self.counts.resends.saturating_add(lines);
            self.write_flight()?;
        }
        Ok(())
    }

    /// Returns the time from which the server counts as silent, or None if the proxy waits for nothing from it.
    pub(crate) fn silent_at(&self) -> Option<Duration> {
        match &self.server {
            Some(server) if !server.is_connected || self.in_flight > 0 => {
                Some(server.heard.saturating_add(self.settings.server_silent))
            }
            _ => None,
        }
    }

    /// Returns the time when the server's connection will have been idle for long enough to be closed, or None if it is
    /// not idle.
    pub(crate) fn idle_at(&self) -> Option<Duration> {
        match &self.server {
            Some(server) if server.is_connected => match server.idle_since {
                Some(since) => Some(since.saturating_add(Duration::from_millis(IDLE))),
                None => None,
            },
            _ => None,
        }
    }
}

/// Appends the flight to the bytes for the server. Errors: out of memory; nothing changes.
fn push_flight<G: Gateway>(
    alloc: Global,
    gateway: &G,
    core: &Proxy,
    outbox: &mut Outbox,
) -> Result<(), AllocError>
    ensures ok { OnOk result (outbox.new ≡ outbox.old ++ text_of (G.rules gateway.now) core.now.number core.now.flight) }
    ensures err { OnErr result (outbox.new ≡ outbox.old) }
{
    let text = core.flight_text(alloc, gateway)?;
    outbox.push(text.as_slice())
}
