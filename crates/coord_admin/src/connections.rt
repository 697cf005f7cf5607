//! Serves connections, one after another.

ghost use Rattle.std.specs.Prelude.{◌≡◌, ◌∷◌, [], Ok, OnErr};
ghost use Rattle.coord_admin.specs.Connections.{IsServed, ServedOpen, ServedToClose, Talk, has_closed};
ghost use Rattle.coord_admin.specs.InstanceLimit.{HasKept, HasKeptFewer};
ghost use Rattle.coord_admin.specs.declared.connections.Stop.TheVariants as StopAs;

use crate::callers::Callers;
use crate::desk::Desk;
use crate::fault::ServeFault;
use crate::instance_limit::next_in_instance;
use crate::session::{Ended, serve};
use std::alloc::Global;
use std::io;
use std::sync::Wait;

/// The reason why the server stopped serving callers.
#[derive(Clone, Copy, Debug, PartialEq, Eq)]
pub enum Stop {
    /// A line has closed the desk.
    Closed,
    /// The instance of the desk is old.
    Old,
}

/// Serves the callers one after another, until a line closes the desk, or until the desk keeps `most`
/// steps and its instance is old. A connection that is still open when the desk keeps twice as many
/// steps is cut, once its complete lines have their replies.
///
/// A fault of a connection ends only that connection. An error means that the callers have failed: no
/// more clients come, and the desk is not closed.
pub fn serve_connections<C: Callers, D: Desk, R: Wait>(
    rt: &R,
    alloc: Global,
    most: usize,
    callers: &mut C,
    desk: &mut D,
) -> io::Result<Stop>
    ensures closed { result ≡ Ok StopAs.Closed → ServedToClose D.answers D.keeps most C.talked callers.old desk.old
        callers.new desk.new }
    ensures old { result ≡ Ok StopAs.Old → ServedOpen D.answers D.keeps most C.talked callers.old desk.old
        callers.new desk.new × HasKept D.keeps desk.new most }
    ensures failed { OnErr result ((last : C) × ServedOpen D.answers D.keeps most C.talked callers.old desk.old last
        desk.new × C.failed last callers.new) }
    ensures open { OnErr result
        (ServedOpen D.answers D.keeps most C.talked callers.old desk.old callers.new desk.new) }
{
    for _ in rt.forever() {
        let line = match next_in_instance(most, callers, desk)? {
            Some(line) => line,
            None => return Ok(Stop::Old),
        };
        let ended = serve_connection(alloc, most, line, callers, desk);
        if has_closed(ended) {
            return Ok(Stop::Closed);
        }
    }
    unreachable!()
}

/// Serves one connection, ends it, and returns how it ended.
fn serve_connection<C: Callers, D: Desk>(
    alloc: Global,
    most: usize,
    line: C::Line,
    callers: &mut C,
    desk: &mut D,
) -> Result<Ended, ServeFault>
    requires young { HasKeptFewer D.keeps desk.old most }
    ensures served { (before : C) → C.called before line callers.old → (talk : Talk) ×
        C.talked before (talk ∷ []) callers.new ×
        IsServed D.answers D.keeps most desk.old (record { talk = talk; ended = result }) desk.new }
    ensures ended { (last : C.Line) × C.ended callers.old last result callers.new }
{
    let mut line = line;
    let ended = serve(alloc, most, &mut line, desk);
    callers.end(line, ended);
    ended
}

/// Tests whether a line closed the desk.
fn has_closed(ended: Result<Ended, ServeFault>) -> bool
    ensures { result ≡ has_closed ended }
{
    matches!(ended, Ok(Ended::Closed))
}
