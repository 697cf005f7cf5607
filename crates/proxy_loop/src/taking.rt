//! Taking the lines that arrive from clients.

use crate::connection::NOT_ALLOWED;
use crate::event_loop::EventLoop;
use crate::gateway::{ExchangeKind, Gateway, Reading};
use crate::recording::write;
use crate::settings::{MOST_AT_ONCE, MOST_UNSENT};
use std::alloc::AllocError;
use std::fs::{File, Files};

const OUT_OF_MEMORY: &[u8] = b"{\"fault\":\"OutOfMemory\"}";

const TOO_LONG: &[u8] = b"{\"fault\":\"TooLong\"}";

const UNFINISHED: &[u8] = b"{\"fault\":\"Unfinished\"}";

impl<G: Gateway> EventLoop<G> {
    /// Runs one step of each active connection. A connection that has more to do becomes active again. Errors: out of
    /// memory.
    pub(crate) fn step_all<R: Files<File = File> + AllocGlobal + Print + Eprint>(
        &mut self,
        rt: &R,
    ) -> Result<(), AllocError> {
        for _ in 0..self.active.len() {
            let Some(place) = self.active.pop_front() else {
                return Ok(());
            };
            self.step(rt, place)?;
        }
        Ok(())
    }

    /// Takes lines of the connection at a place, sends its answers, and ends the connection if it is finished. Errors:
    /// out of memory.
    fn step<R: Files<File = File> + AllocGlobal + Print + Eprint>(
        &mut self,
        rt: &R,
        place: usize,
    ) -> Result<(), AllocError> {
        let Some(connection) = self.connections.get_mut(place) else {
            return Ok(());
        };
        connection.is_active = false;
        let has_more = self.take_lines(place)?;
        self.send_view(place)?;
        self.send(rt, place)?;
        if has_more {
            self.activate(place)?;
        }
        self.end_if_over(place)
    }

    /// Takes lines of the connection at a place, in at most `MOST_AT_ONCE` steps. Returns whether there may be more
    /// lines. Errors: out of memory.
    fn take_lines(&mut self, place: usize) -> Result<bool, AllocError> {
        for _ in 0..MOST_AT_ONCE {
            let Some(connection) = self.connections.get_mut(place) else {
                return Ok(false);
            };
            if connection.role.is_none() {
                if !self.take_header(place)? {
                    return Ok(false);
                }
                continue;
            }
            if connection.is_deferred || connection.unsent() >= MOST_UNSENT {
                return Ok(false);
            }
            if connection.inbox.complete_line() {
                if self.resets.is_holding {
                    connection.keep(self.at.now);
                    self.park(place)?;
                    return Ok(false);
                }
                self.take_line(place)?;
            } else if connection.is_readable {
                connection.fill()?;
            } else {
                if connection.has_ended && !connection.inbox.is_empty() {
                    self.take_unfinished(place)?;
                }
                return Ok(false);
            }
        }
        Ok(true)
    }

    /// Takes the next line of the connection at a place, or answers or defers it. Errors: out of memory.
    fn take_line(&mut self, place: usize) -> Result<(), AllocError> {
        let Some(connection) = self.connections.get_mut(place) else {
            return Ok(());
        };
        let Some(role) = connection.role else {
            return Ok(());
        };
        let line = connection.inbox.line();
        let Some(bytes) = line else {
            return self.refuse(place, ExchangeKind::Fault, TOO_LONG);
        };
        match self.gateway.read(self.alloc, line) {
            Reading::Request => {
                let number = connection.number;
                let Ok(admission) = self
                    .core
                    .admit(self.alloc, &self.gateway, number, role, bytes)
                else {
                    return self.refuse(place, ExchangeKind::Fault, OUT_OF_MEMORY);
                };
                let gateway = &mut self.gateway;
                connection.settle(self.alloc, gateway, admission, self.at)
            }
            Reading::ResetAt(node, epoch) => {
                if self.gateway.may_send(self.alloc, role, bytes)? {
                    self.take_reset(place, node, epoch)
                } else {
                    self.refuse(place, ExchangeKind::Denied, NOT_ALLOWED)
                }
            }
            Reading::Watch => {
                if self.gateway.may_watch(role) {
                    self.take_watch(place)
                } else {
                    self.refuse(place, ExchangeKind::Denied, NOT_ALLOWED)
                }
            }
            Reading::Fault(text) => {
                let line = text.as_bytes();
                let answer = line.strip_suffix(b"\n").unwrap_or(line);
                self.refuse(place, ExchangeKind::Fault, answer)
            }
        }
    }

    /// Answers the next line of the connection at a place without the server. The line is deferred until all earlier
    /// lines have their answers. Errors: out of memory.
    pub(crate) fn refuse(
        &mut self,
        place: usize,
        kind: ExchangeKind,
        answer: &[u8],
    ) -> Result<(), AllocError> {
        if let Some(connection) = self.connections.get_mut(place) {
            if self.core.is_awaiting_nothing(connection.number) {
                let gateway = &mut self.gateway;
                connection.refuse(self.alloc, gateway, kind, answer, self.at)?;
            } else {
                connection.is_deferred = true;
            }
        }
        Ok(())
    }

    /// Answers the last line of the connection at a place, which ended without a line feed. Errors: out of memory.
    fn take_unfinished(&mut self, place: usize) -> Result<(), AllocError> {
        self.refuse(place, ExchangeKind::Fault, UNFINISHED)
    }

    /// Sends the answers of the connection at a place, and ends the connection if it has failed. Errors: out of memory.
    fn send<R: Files<File = File> + AllocGlobal + Print + Eprint>(
        &mut self,
        rt: &R,
        place: usize,
    ) -> Result<(), AllocError> {
        let Some(connection) = self.connections.get_mut(place) else {
            return Ok(());
        };
        let was_full = connection.unsent() >= MOST_UNSENT;
        let written = write(rt, &mut self.gateway);
        if !connection.send(&written, self.at.now) {
            return self.end(place);
        }
        if connection.blocked_since.is_some() {
            self.has_blocked = true;
        } else if was_full {
            self.activate(place)?;
        }
        Ok(())
    }

    /// Ends the connection at a place if its client sends no more and all its answers are sent. Errors: out of memory.
    fn end_if_over(&mut self, place: usize) -> Result<(), AllocError> {
        let Some(connection) = self.connections.get(place) else {
            return Ok(());
        };
        if connection.role.is_some()
            && connection.has_ended
            && connection.inbox.is_empty()
            && connection.unsent() == 0
            && self.core.is_awaiting_nothing(connection.number)
        {
            return self.end(place);
        }
        Ok(())
    }
}
