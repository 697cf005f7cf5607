//! The order of the audit: an answer is recorded before it is appended to the bytes for its client, and all records are
//! written before anything is sent.

ghost use Rattle.std.specs.Prelude.{◌≡◌, IfOk};

use crate::gateway::{Exchange, Gateway};
use std::alloc::{AllocError, Global};
use std::fs::{File, Files};

/// An answer that was recorded. Only `record` makes such a value.
#[derive(Drop)]
pub(crate) struct Recorded<'a> {
    answer: &'a [u8],
}

impl<'a> Recorded<'a> {
    pub fn answer(&self) -> &'a [u8]
        ensures { result ≡ self.now.answer }
    {
        self.answer
    }
}

/// Records an exchange. Errors: out of memory.
pub(crate) fn record<'l, 'a, G: Gateway>(
    alloc: Global,
    gateway: &mut G,
    exchange: Exchange<'l, 'a>,
) -> Result<Recorded<'a>, AllocError>
    ensures { IfOk result (λ recorded. recorded.answer ≡ exchange.entry.answer) }
{
    gateway.record(alloc, &exchange)?;
    Ok(Recorded {
        answer: exchange.answer,
    })
}

/// Shows that all records are written. Only `write` makes such a value, and nothing can be recorded while it exists.
#[derive(Drop)]
pub(crate) struct Written<'a, G: Gateway> {
    _gateway: &'a G,
}

/// Writes all records.
pub(crate) fn write<'a, R: Files<File = File> + AllocGlobal + Print + Eprint, G: Gateway>(
    rt: &R,
    gateway: &'a mut G,
) -> Written<'a, G> {
    gateway.write_records(rt);
    Written { _gateway: gateway }
}
