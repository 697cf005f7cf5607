//! Limits an instance of a desk by the number of steps that the desk keeps.

ghost use Rattle.std.specs.Prelude.{◌≡◌, ◌≢◌, ◌*◌, ◌<◌, ◌≤◌, [], Err, length, take, IfNone, IfOk, IfSome, OnErr};
ghost use Rattle.coord_admin.specs.InstanceLimit.{HasKept, HasKeptFewer, IsAge};
ghost use Rattle.coord_admin.specs.declared.instance_limit.Unread.TheVariants as UnreadAs;

use crate::callers::Callers;
use crate::desk::Desk;
use crate::duplex::{Duplex, NotRead};
use std::io;

/// The age of an instance.
#[derive(Clone, Copy)]
pub enum Age {
    /// New connections are accepted.
    Young,
    /// No new connection is accepted.
    Old,
    /// Nothing more is read, even from the open connection.
    Over,
}

/// Returns the age of an instance: it is old once its desk keeps `most` steps, and over once it keeps
/// twice as many.
fn age_of(most: usize, kept: usize) -> Age
    ensures { IsAge most kept result }
{
    if kept < most {
        Age::Young
    } else if kept / 2 < most {
        Age::Old
    } else {
        Age::Over
    }
}

/// Waits for the next caller while the desk's instance is young. Returns None once the instance is
/// old.
pub fn next_in_instance<C: Callers, D: Desk>(
    most: usize,
    callers: &mut C,
    desk: &D,
) -> io::Result<Option<C::Line>>
    ensures begun { IfOk result (λ next. IfSome next (λ line. C.called callers.old line callers.new ×
        HasKeptFewer D.keeps desk.now most)) }
    ensures old { IfOk result (λ next. IfNone next ((callers.new ≡ callers.old) ×
        HasKept D.keeps desk.now most)) }
    ensures failed { OnErr result (C.failed callers.old callers.new) }
    ensures none_ended { OnErr result (C.talked callers.old [] callers.new) }
{
    match age_of(most, desk.kept()) {
        Age::Young => match callers.next() {
            Ok(line) => Ok(Some(line)),
            Err(error) => Err(error),
        },
        Age::Old | Age::Over => Ok(None),
    }
}

/// The reason why nothing more was read from a connection.
#[derive(Clone, Copy)]
pub enum Unread {
    /// The next bytes could not be read.
    Failed,
    /// The desk's instance is over.
    Over,
}

/// Reads input like [`Duplex::receive`], unless the desk's instance is over.
pub fn receive_in_instance<C: Duplex, D: Desk>(
    most: usize,
    connection: &mut C,
    desk: &D,
    buffer: &mut [u8],
    is_within_line: bool,
) -> Result<usize, Unread>
    ensures fits { IfOk result (λ n. n ≤ length buffer.new) }
    ensures length { length buffer.new ≡ length buffer.old }
    ensures bytes { IfOk result (λ n. C.exchanged connection.old (take n buffer.new) []
        connection.new) }
    ensures end { IfOk result (λ n. n ≡ 0 → 0 < length buffer.old →
        C.has_ended connection.new) }
    ensures failed { OnErr result (C.exchanged connection.old [] [] connection.new) }
    ensures broken { result ≡ Err UnreadAs.Failed → C.has_failed connection.new }
    ensures asked { result ≢ Err UnreadAs.Over → HasKeptFewer D.keeps desk.now (2 * most) ×
        C.asked connection.old is_within_line connection.new }
    ensures over { result ≡ Err UnreadAs.Over → HasKept D.keeps desk.now (2 * most) }
{
    match age_of(most, desk.kept()) {
        Age::Young | Age::Old => match connection.receive(buffer, is_within_line) {
            Ok(count) => Ok(count),
            Err(NotRead) => Err(Unread::Failed),
        },
        Age::Over => Err(Unread::Over),
    }
}
