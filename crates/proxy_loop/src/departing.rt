//! Ends connections.

use crate::connection::Connection;
use crate::event_loop::EventLoop;
use crate::gateway::{Exchange, ExchangeKind, Gateway};
use crate::number::place_of;
use crate::recording::record;
use std::alloc::AllocError;
use std::collections::VecDeque;
use std::time::Duration;

/// A connection that has ended while some of its lines are in flight.
#[derive(Drop)]
pub(crate) struct Departed {
    pub role: u32,
    /// When each unanswered line was taken, oldest first.
    pub asked: VecDeque<Duration>,
}

impl<G: Gateway> EventLoop<G> {
    /// Ends the connection at a place, and records its end. Errors: out of memory.
    pub(crate) fn end(&mut self, place: usize) -> Result<(), AllocError> {
        let Some(connection) = self.connections.try_remove(place) else {
            return Ok(());
        };
        self.core.forget(connection.number);
        self.close_one(connection.role);
        if connection.is_watching {
            self.watchers.retain(|each| *each != place);
        }
        let Some(role) = connection.role else {
            return Ok(());
        };
        let lasted = self.at.now.saturating_sub(connection.since);
        self.gateway.record_end(self.alloc, role, lasted, self.at)?;
        self.depart(role, connection)
    }

    /// Keeps the role and the times needed to record the answers to a connection's lines in flight.
    /// Errors: out of memory.
    fn depart(&mut self, role: u32, connection: Connection) -> Result<(), AllocError> {
        let number = connection.number;
        if !self.core.is_awaiting_nothing(number) {
            let asked = connection.asked;
            self.departed.insert(number, Departed { role, asked })?;
        }
        Ok(())
    }

    /// Ends the connection with this number, if it has not ended yet. Errors: out of memory.
    pub(crate) fn end_number(&mut self, number: u64) -> Result<(), AllocError> {
        let place = place_of(number);
        match self.connections.get(place) {
            Some(connection) if connection.number == number => self.end(place),
            _ => {
                self.forget_departed(number);
                Ok(())
            }
        }
    }

    /// Records an answer to a line of a connection that has ended. Errors: out of memory.
    pub(crate) fn record_departed(
        &mut self,
        number: u64,
        kind: ExchangeKind,
        answer: &[u8],
    ) -> Result<(), AllocError> {
        if let Some(departed) = self.departed.get_mut(&number) {
            let waited = match departed.asked.pop_front() {
                Some(asked) => self.at.now.saturating_sub(asked),
                None => Duration::ZERO,
            };
            let exchange = Exchange {
                role: departed.role,
                kind,
                line: line_of(kind, self.order.as_slice()),
                answer,
                waited,
                at: self.at,
            };
            record(self.alloc, &mut self.gateway, exchange)?;
        }
        self.forget_departed(number);
        Ok(())
    }

    /// Forgets a connection that has ended, if none of its lines is in flight any more.
    pub(crate) fn forget_departed(&mut self, number: u64) {
        if self.core.is_awaiting_nothing(number) {
            self.departed.remove(&number);
        }
    }
}

/// Returns the line to record for an exchange, or None for a query, whose line is not kept.
pub(crate) fn line_of(kind: ExchangeKind, line: &[u8]) -> Option<&[u8]> {
    match kind {
        ExchangeKind::Query => None,
        _ => Some(line),
    }
}
