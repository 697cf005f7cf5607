//! The result of a call, as a number.

ghost use Rattle.std.specs.Prelude.{◌≡◌, ◌≤◌, ◌<◌, length, take};
ghost use Rattle.resetd_member.specs.Status.{IsGiven, IsPut, IsTextOf, due_number, status_of};
ghost use Rattle.resetd_member.specs.declared.status.Fault.TheVariants.{OutOfMemory};

use coord_member::Due;
use std::alloc::AllocError;

/// The reason for which a call returned nothing.
#[derive(Clone, Copy, Debug, PartialEq, Eq)]
pub enum Fault {
    OutOfMemory,
    /// The text is longer than the buffer.
    NoRoom,
    /// The line is not the required answer.
    BadLine,
    /// The answer to `show` does not have the node.
    NoNode,
    /// The file of the start cannot be read.
    BadStart,
    /// The file of the history cannot be read.
    BadHistory,
    /// A number is out of range.
    BadNumber,
    /// Another order is already in hand.
    InHand,
    /// A text is not UTF-8.
    NoText,
}

impl From<AllocError> for Fault {
    ghost from_gives = { λ _ fault. fault ≡ OutOfMemory };

    fn from(_: AllocError) -> Self {
        Fault::OutOfMemory
    }
}

/// Returns the status of a fault. 0 is the status of success.
pub(crate) fn status_of(fault: Fault) -> u32
    ensures { result ≡ status_of fault }
{
    match fault {
        Fault::OutOfMemory => 1,
        Fault::NoRoom => 2,
        Fault::BadLine => 3,
        Fault::NoNode => 4,
        Fault::BadStart => 5,
        Fault::BadHistory => 6,
        Fault::BadNumber => 7,
        Fault::InHand => 8,
        Fault::NoText => 9,
    }
}

/// Returns the number of a due action.
pub(crate) fn due_number(due: Due) -> u32
    ensures { result ≡ due_number due }
{
    match due {
        Due::Talk => 1,
        Due::Wait => 2,
        Due::Begin => 3,
        Due::Reset => 4,
    }
}

/// Copies a text to the beginning of the buffer, or returns `NoRoom` if the buffer is too small.
pub(crate) fn put(out: &mut [u8], text: &[u8]) -> Result<(), Fault>
    ensures { IsPut text.now out.new result }
{
    let size = text.len();
    if out.len() < size {
        return Err(Fault::NoRoom);
    }
    out[..size].copy_from_slice(text);
    Ok(())
}

/// Copies a text to the beginning of the caller's buffer and sets `length` to its length in bytes.
/// Returns the status.
pub(crate) fn give(made: Result<String, Fault>, out: &mut [u8], length: &mut usize) -> u32
    ensures { IsGiven made out.new length.new result }
{
    let text = match made {
        Ok(text) => text,
        Err(fault) => return status_of(fault),
    };
    *length = text.len();
    let is_put = put(out, text.as_bytes());
    drop(text);
    match is_put {
        Ok(()) => 0,
        Err(fault) => status_of(fault),
    }
}

/// Returns the bytes as a text, or `NoText` if they are not UTF-8.
pub(crate) fn text_of(bytes: &[u8]) -> Result<&str, Fault>
    ensures { IsTextOf bytes.now result }
{
    match std::str::from_utf8(bytes) {
        Ok(text) => Ok(text),
        Err(_) => Err(Fault::NoText),
    }
}
