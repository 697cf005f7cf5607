//! Unclear orders: the proxy does not know whether they were carried out, until it finds the last number of its client.
//! Each order's number was used for that order alone, so the order was carried out if its number is at most the last
//! number.

use crate::connection::NOT_ALLOWED;
use crate::event_loop::EventLoop;
use crate::gateway::{ExchangeKind, Gateway};
use crate::number::place_of;
use crate::recording::record;
use proxy_core::Admission;
use std::alloc::AllocError;

/// The answer to an order that was carried out, but whose reply was lost with the connection to the server.
const CARRIED_OUT: &[u8] = b"{\"kind\":\"carried out\",\"step\":0}";

/// An order that was sent with a number of the proxy's client, and whose outcome is unknown.
#[derive(Drop)]
pub(crate) struct Unclear {
    /// The number of the order's connection.
    pub connection: u64,
    /// The number that the order was sent with.
    pub number: u64,
    /// The order's line. None for a reset that names an epoch: its line is still the connection's next line.
    pub line: Option<Vec<u8>>,
}

impl<G: Gateway> EventLoop<G> {
    /// Keeps the order that was just answered, and was sent with this number, as unclear. The order must be the only
    /// unanswered line of the connection at the place. Errors: out of memory.
    pub(crate) fn keep_unclear(&mut self, place: usize, number: u64) -> Result<(), AllocError> {
        let line = Vec::from_slice(self.alloc, self.order.as_slice())?;
        let Some(connection) = self.renumber(place)? else {
            return Ok(());
        };
        if let Some(kept) = self.connections.get_mut(place) {
            kept.is_deferred = true;
        }
        self.unclear.push_back(Unclear {
            connection,
            number,
            line: Some(line),
        })?;
        Ok(())
    }

    /// Decides all unclear orders by the last number, which was just found. Orders with a number up to it were carried
    /// out, and are answered. The others were not: a reset that names an epoch is judged again, and any other order is
    /// sent again. Errors: out of memory.
    pub(crate) fn clear_up(&mut self, last: u64) -> Result<(), AllocError> {
        for _ in 0..self.unclear.len() {
            let Some(unclear) = self.unclear.pop_front() else {
                return Ok(());
            };
            let place = place_of(unclear.connection);
            if self.is_at(place, unclear.connection) {
                self.clear_up_one(place, unclear, last)?;
            }
        }
        Ok(())
    }

    fn clear_up_one(
        &mut self,
        place: usize,
        unclear: Unclear,
        last: u64,
    ) -> Result<(), AllocError> {
        let is_carried_out = unclear.number <= last;
        match unclear.line {
            Some(line) => {
                if is_carried_out {
                    self.answer_itself(place, ExchangeKind::Order, line.as_slice(), CARRIED_OUT)
                } else {
                    self.ask_again(place, line.as_slice())
                }
            }
            None => {
                if is_carried_out {
                    self.refuse(place, ExchangeKind::Order, CARRIED_OUT)?;
                    self.activate(place)
                } else {
                    self.resets.waiting.push_back(place)?;
                    Ok(())
                }
            }
        }
    }

    /// Passes an order that was not carried out to the core again.
    fn ask_again(&mut self, place: usize, line: &[u8]) -> Result<(), AllocError> {
        let Some(connection) = self.connections.get_mut(place) else {
            return Ok(());
        };
        let Some(role) = connection.role else {
            return Ok(());
        };
        let number = connection.number;
        let admission = self
            .core
            .admit(self.alloc, &self.gateway, number, role, line)?;
        match admission {
            Admission::Queued => {
                connection.is_deferred = false;
                self.activate(place)
            }
            Admission::Denied => {
                self.answer_itself(place, ExchangeKind::Denied, line, NOT_ALLOWED)
            }
            Admission::Deferred => self.end(place),
        }
    }

    /// Records an answer to the oldest unanswered line of the connection at a place, and then gives the connection the
    /// answer.
    fn answer_itself(
        &mut self,
        place: usize,
        kind: ExchangeKind,
        line: &[u8],
        answer: &[u8],
    ) -> Result<(), AllocError> {
        if let Some(connection) = self.connections.get_mut(place) {
            let exchange = connection.exchange(kind, Some(line), answer, self.at);
            let recorded = record(self.alloc, &mut self.gateway, exchange)?;
            connection.give(&recorded)?;
        }
        self.activate(place)
    }
}
