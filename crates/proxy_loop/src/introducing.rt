//! Reads the header that names the client's certificate.

use crate::event_loop::EventLoop;
use crate::gateway::Gateway;
use proxy_header::{HeaderLength, MOST_HEADER_BYTES, common_name, header_length};
use std::alloc::AllocError;
use std::io::{ErrorKind, Read};

impl<G: Gateway> EventLoop<G> {
    /// Reads bytes of the header of the connection at a place. Returns whether there may be more to do for the
    /// connection. Ends a connection without a valid header. Errors: out of memory.
    pub(crate) fn take_header(&mut self, place: usize) -> Result<bool, AllocError> {
        let Some(connection) = self.connections.get_mut(place) else {
            return Ok(false);
        };
        let mut chunk = [0u8; MOST_HEADER_BYTES];
        match connection.stream.read(&mut chunk) {
            Ok(0) => {
                self.end(place)?;
                return Ok(false);
            }
            Ok(count) => connection.header.extend_from_slice(&chunk[..count])?,
            Err(error) => match error.kind() {
                ErrorKind::WouldBlock => return Ok(false),
                ErrorKind::Interrupted => return Ok(true),
                _ => {
                    self.end(place)?;
                    return Ok(false);
                }
            },
        }
        match header_length(connection.header.as_slice()) {
            HeaderLength::Unfinished => Ok(true),
            HeaderLength::Refused => {
                self.end(place)?;
                Ok(false)
            }
            HeaderLength::Whole(length) => self.introduce(place, length),
        }
    }

    /// Gives the connection at a place the role of the certificate that its header names; the header has this length.
    /// Ends the connection if there is no such role or the role has reached its limit. Returns whether the connection
    /// remains.
    fn introduce(&mut self, place: usize, length: usize) -> Result<bool, AllocError> {
        let Some(connection) = self.connections.get_mut(place) else {
            return Ok(false);
        };
        let (header, rest) = connection
            .header
            .split_at(length.min(connection.header.len()));
        let role = match common_name(header) {
            Some(name) => self.gateway.certificate_role(self.alloc, name)?,
            None => None,
        };
        if connection.inbox.is_drained() {
            connection.inbox.fill(rest)?;
        }
        connection.header = Vec::new(self.alloc);
        let Some(role) = role else {
            self.end(place)?;
            return Ok(false);
        };
        self.close_one(None);
        if let Some(connection) = self.connections.get_mut(place) {
            connection.role = Some(role);
        }
        if !self.open_one(Some(role))? {
            // The connection was not counted under its role, so the count stays. None of its lines was taken yet.
            let _ = self.connections.try_remove(place);
            return Ok(false);
        }
        self.gateway.record_begin(self.alloc, role, self.at)?;
        Ok(true)
    }
}
