//! The server's answers.

ghost use Rattle.std.specs.Prelude.{◌≡◌, false, Ok};
ghost use Rattle.proxy_loop.specs.Answers.{stopped};

use crate::departing::line_of;
use crate::event_loop::EventLoop;
use crate::gateway::{ExchangeKind, Gateway};
use crate::number::place_of;
use crate::recording::record;
use crate::settings::MOST_AT_ONCE;
use crate::upstream::Server;
use proxy_core::Outcome;
use proxy_streams::MOST_ANSWER_BYTES;
use std::alloc::AllocError;
use std::io::{ErrorKind, Read};

const CHUNK_BYTES: usize = 16_384;

/// The answer of a server whose disk has failed or that is ending.
const STOPPED: &[u8] = b"{\"name\":\"Stopped\",\"refused\":1}";

impl<G: Gateway> EventLoop<G> {
    /// Reads what the server has sent, and passes on each whole answer. Stops after `MOST_AT_ONCE` reads, even if there
    /// is more to read.
    pub(crate) fn hear(&mut self) -> Result<(), AllocError> {
        for _ in 0..MOST_AT_ONCE {
            let Some(mut server) = self.server.take() else {
                return Ok(());
            };
            if !server.is_connected || !server.is_readable {
                self.server = Some(server);
                return Ok(());
            }
            let is_good = read_some(&mut server)?;
            if self.deliver_all(&mut server)? && is_good {
                self.server = Some(server);
            } else if server.is_used && self.in_flight == 0 {
                // The server ended the connection while nothing was in flight, since others wait.
                self.let_go()?;
            } else {
                self.lose_server()?;
            }
        }
        Ok(())
    }

    /// Passes on each whole answer. Returns false if the server's connection has to be closed.
    fn deliver_all(&mut self, server: &mut Server) -> Result<bool, AllocError> {
        for _ in 0..u32::MAX {
            let Some(answer) = server.lines.first() else {
                break;
            };
            let length = answer.len();
            if !self.deliver(answer)? {
                return Ok(false);
            }
            server.lines.drop_first(length);
            server.heard = self.at.now;
        }
        Ok(server.lines.len() <= MOST_ANSWER_BYTES)
    }

    /// Passes an answer to the core, and then to the connection that it is for. Returns false if the server's
    /// connection has to be closed. `Stopped` is not passed on: the line that it answers and all later lines are sent
    /// again.
    fn deliver(&mut self, answer: &[u8]) -> Result<bool, AllocError>
        ensures stopped { answer.now ≡ stopped → (result ≡ Ok false) × (self.new ≡ self.old) }
    {
        if answer == STOPPED {
            return Ok(false);
        }
        let kind = self.keep_order()?;
        let own_number = self.core.next_number();
        let Ok(outcome) = self.core.answer(self.alloc, &self.gateway, answer) else {
            return Ok(false);
        };
        match outcome {
            Outcome::To(number) => {
                self.resets.note_answer(number);
                self.give(number, kind, answer)?;
            }
            Outcome::Ended(number) => {
                self.resets.note_answer(number);
                self.end_unclear(number, kind, own_number, answer)?;
            }
            Outcome::Retry(number) => self.keep_waiting(number)?,
            Outcome::Unsolicited => return Ok(false),
        }
        self.in_flight = self.in_flight.saturating_sub(1);
        self.addresses.answered();
        self.is_answering = Some(true);
        Ok(true)
    }

    /// Copies the line that the next answer is for, unless the line is a query. Returns the kind of the answer. Errors:
    /// out of memory.
    fn keep_order(&mut self) -> Result<ExchangeKind, AllocError> {
        match self.core.next_order() {
            Some(line) => {
                self.order.clear();
                self.order.extend_from_slice(line)?;
                Ok(ExchangeKind::Order)
            }
            None => Ok(ExchangeKind::Query),
        }
    }

    /// Records an answer, and then gives it to the connection with this number. Errors: out of memory.
    fn give(&mut self, number: u64, kind: ExchangeKind, answer: &[u8]) -> Result<(), AllocError> {
        if number == self.own.number {
            return self.hear_own(answer);
        }
        if !self.watchers.is_empty() && self.gateway.uses_number(answer) {
            self.own.wants_view = true;
        }
        let place = place_of(number);
        match self.connections.get_mut(place) {
            Some(connection) if connection.number == number => {
                let line = line_of(kind, self.order.as_slice());
                let exchange = connection.exchange(kind, line, answer, self.at);
                let recorded = record(self.alloc, &mut self.gateway, exchange)?;
                connection.give(&recorded)?;
                self.activate(place)
            }
            _ => self.record_departed(number, kind, answer),
        }
    }

    /// Lets a line of the connection with this number wait for another number, unless the connection has ended.
    fn keep_waiting(&mut self, number: u64) -> Result<(), AllocError> {
        if !self.is_at(place_of(number), number) && number != self.own.number {
            self.core.forget(number);
            self.forget_departed(number);
        }
        Ok(())
    }

    /// Records an answer that leaves open what became of a line, and ends the connection with this number. But if the
    /// answer is inconclusive, and the line is an order that the proxy numbered and the connection's only unanswered
    /// line, keeps the order: the last number will show whether it was carried out. A reset that names an epoch is judged
    /// again, since the answer refused its number. Errors: out of memory.
    fn end_unclear(
        &mut self,
        number: u64,
        kind: ExchangeKind,
        own_number: Option<u64>,
        answer: &[u8],
    ) -> Result<(), AllocError> {
        if number == self.own.number {
            self.own.begin_again(&mut self.came);
            return Ok(());
        }
        let place = place_of(number);
        match self.connections.get(place) {
            Some(connection) if connection.number == number => {
                if connection.reset.is_some() {
                    return self.judge_again(place);
                }
                if let Some(own_number) = own_number {
                    if self.gateway.is_inconclusive(answer) && connection.asked.len() == 1 {
                        return self.keep_unclear(place, own_number);
                    }
                }
                let line = line_of(kind, self.order.as_slice());
                let exchange = connection.exchange(kind, line, answer, self.at);
                record(self.alloc, &mut self.gateway, exchange)?;
                self.end(place)
            }
            _ => self.record_departed(number, kind, answer),
        }
    }
}

/// Reads from the server once. Returns false if the connection has ended or failed. Errors: out of memory.
fn read_some(server: &mut Server) -> Result<bool, AllocError> {
    let mut chunk = [0u8; CHUNK_BYTES];
    match server.stream.read(&mut chunk) {
        Ok(0) => return Ok(false),
        Ok(count) => {
            if count < CHUNK_BYTES && !server.is_closing {
                server.is_readable = false;
            }
            server.lines.fill(&chunk[..count])?;
        }
        Err(error) => match error.kind() {
            ErrorKind::WouldBlock => server.is_readable = false,
            ErrorKind::Interrupted => {}
            _ => return Ok(false),
        },
    }
    Ok(true)
}
