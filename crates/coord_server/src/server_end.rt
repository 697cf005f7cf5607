//! The end of a server, and the parts that it returns.

ghost use Rattle.std.specs.Prelude.{◌≡◌, ◌≤◌, false, IfErr, IfOk, None, Some};
ghost use Rattle.coord_store.specs.Kept.{has_stopped};
ghost use Rattle.coord_server.specs.Ending.{fault_at_end};
ghost use Rattle.coord_server.specs.Printed.{is_amiss};

use crate::{Printer, ServerFault};
use coord_admin::Callers;
use coord_disk::Disk;
use coord_engine::Closed;
use std::io::Write;

/// The parts of a server's last engine, the callers, and the reason why the server ended.
#[derive(Drop)]
pub struct ServerEnd<D: Disk, C, W: Write> {
    pub closed: Closed<D>,
    pub callers: C,
    /// The fault that ended the serving, or None after a close.
    pub served: Option<ServerFault>,
    /// The printer, after it has printed everything.
    pub printer: Printer<W>,
}

impl<D: Disk, C, W: Write> ServerEnd<D, C, W> {
    /// Returns the one fault to report. A stopped store comes first; then the fault that ended the serving; then an
    /// output that failed, or that has a signal of a step that is not settled (no call of the server leads there).
    /// Returns None if the server was closed and nothing failed.
    pub fn fault(&self) -> Option<ServerFault>
        ensures { result ≡ fault_at_end
            (has_stopped self.now.closed.store) self.now.served
            (is_amiss self.now.printer self.now.closed.settled) }
    {
        if self.closed.store.stopped() {
            return Some(ServerFault::Device);
        }
        match self.served {
            Some(fault) => Some(fault),
            None if self.is_amiss() => Some(ServerFault::Write),
            None => None,
        }
    }

    /// Tests whether a line could not be written, or a signal of a step that is not settled was
    /// printed.
    fn is_amiss(&self) -> bool
        ensures { result ≡ is_amiss self.now.printer self.now.closed.settled }
    {
        self.printer.is_broken() || !self.printer.is_within(self.closed.settled)
    }
}

impl<D: Disk, C: Callers + Drop, W: Write + Drop> ServerEnd<D, C, W> {
    /// Returns the parts of the last engine, with the fault to report if there is one, and the printer. There is no
    /// fault only if a line closed the server and its store has not stopped.
    pub fn into_closed(self) -> (Result<Closed<D>, (ServerFault, Closed<D>)>, Printer<W>)
        ensures closed { IfOk result.0 (λ closed. (closed ≡ self.closed) ×
            (fault_at_end (has_stopped self.closed.store) self.served
            (is_amiss self.printer self.closed.settled) ≡ None)) }
        ensures fault { IfErr result.0 (λ returned. (returned.1 ≡ self.closed) ×
            (fault_at_end (has_stopped self.closed.store) self.served
            (is_amiss self.printer self.closed.settled) ≡ Some returned.0)) }
        ensures going { IfOk result.0 (λ closed. has_stopped closed.store ≡ false) }
        ensures whole { IfOk result.0 (λ closed. (self.printer.is_broken ≡ false) ×
            (self.printer.last.step ≤ closed.settled)) }
        ensures by_close { IfOk result.0 (λ _. self.served ≡ None) }
        ensures printer { result.1 ≡ self.printer }
    {
        let fault = self.fault();
        let ServerEnd {
            closed,
            callers,
            served: _,
            printer,
        } = self;
        drop(callers);
        match fault {
            None => (Ok(closed), printer),
            Some(fault) => (Err((fault, closed)), printer),
        }
    }
}
