//! Accepts connections.

use crate::connection::Connection;
use crate::event_loop::EventLoop;
use crate::gateway::Gateway;
use crate::settings::{FAILURE_PAUSE, MOST_AT_ONCE};
use mio::net::UnixStream;
use mio::{Interest, Registry, Token};
use std::io;
use std::io::ErrorKind;
use std::time::Duration;

impl<G: Gateway> EventLoop<G> {
    /// Accepts waiting connections from each listener, at most `MOST_AT_ONCE` from each so that all get their turn.
    /// Keeps two descriptors in reserve meanwhile.
    pub(crate) fn accept_all(&mut self, registry: &Registry) -> io::Result<()> {
        if !self.has_waiting_connections() {
            return Ok(());
        }
        let Ok(_reserve) = reserve(registry) else {
            self.pause_accepting();
            return Ok(());
        };
        for index in 0..self.listeners.len() {
            self.accept_some(registry, index)?;
        }
        Ok(())
    }

    fn accept_some(&mut self, registry: &Registry, index: usize) -> io::Result<()> {
        for _ in 0..MOST_AT_ONCE {
            let Some(listener) = self.listeners.get_mut(index) else {
                return Ok(());
            };
            if !listener.is_ready {
                return Ok(());
            }
            let role = listener.role;
            match listener.socket.accept() {
                Ok((stream, _)) => self.accepted(registry, stream, role)?,
                Err(error) => match error.kind() {
                    ErrorKind::WouldBlock => listener.is_ready = false,
                    ErrorKind::Interrupted | ErrorKind::ConnectionAborted => {}
                    _ => {
                        self.pause_accepting();
                        return Ok(());
                    }
                },
            }
        }
        Ok(())
    }

    fn pause_accepting(&mut self) {
        let pause = Duration::from_millis(FAILURE_PAUSE);
        self.accept_at = self.at.now.saturating_add(pause);
    }

    /// Takes a new connection in this role. If the role has reached its limit of connections, closes it at once.
    fn accepted(
        &mut self,
        registry: &Registry,
        stream: UnixStream,
        role: Option<u32>,
    ) -> io::Result<()> {
        // Connections whose header has not arrived share the limit of one principal.
        if !self.open_one(role)? {
            return Ok(());
        }
        let place = self.connections.vacant_key();
        let Some(number) = self.next_number(place) else {
            self.close_one(role);
            return Ok(());
        };
        let mut stream = stream;
        let both = Interest::READABLE | Interest::WRITABLE;
        if registry.register(&mut stream, Token(place), both).is_err() {
            self.close_one(role);
            return Ok(());
        }
        let connection = Connection::new(self.alloc, stream, number, role, self.at.now);
        if self.connections.insert(connection).is_err() {
            return Err(ErrorKind::OutOfMemory.into());
        }
        self.counts.connections = self.counts.connections.saturating_add(1);
        if let Some(role) = role {
            self.gateway.record_begin(self.alloc, role, self.at)?;
        }
        self.activate(place)?;
        Ok(())
    }
}

/// Takes two descriptors, so that clients can't use up those for the server's connection and for a file that is read or
/// reopened.
fn reserve(registry: &Registry) -> io::Result<(Registry, Registry)> {
    Ok((registry.try_clone()?, registry.try_clone()?))
}
