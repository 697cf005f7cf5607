//! Reads a half of a device.

ghost use Rattle.std.specs.Prelude.{◌≡◌, ◌<◌, ◌≤◌, ℕ, List, length, IfOk, IfErr, IfSome, None, get_or};
ghost use Rattle.coord_journal.specs.Contents.{bodies, content_of};
ghost use Rattle.coord_journal.specs.Faults.{IsReadFault};
ghost use Rattle.coord_journal.specs.Text.{Content, IsHalf, ReadsAs, BeginsWithBody};
ghost use Rattle.coord_journal.specs.declared.fault.JournalFault.TheVariants.{BadRecord};

use crate::layout::{MAX_BODY, MAX_SNAPSHOT};
use crate::{Contents, JournalFault};
use std::alloc::Global;

// Splits the bytes after the first byte into a sized body, of at most `limit` bytes, and the bytes
// after the body.
fn split_body(rest: &[u8], limit: usize) -> Option<(&[u8], &[u8])>
    requires { 0 < length rest.now }
    ensures some { IfSome result (λ parts.
        BeginsWithBody limit (get_or rest.now 0 0) parts.0.now parts.1.now rest.now) }
    ensures none { result ≡ None → (first : ℕ) (body following : List ℕ) →
        BeginsWithBody limit first body following rest.now → ⊥ }
{
    if rest.len() < 5 {
        return None;
    }
    let size = u32::from_be_bytes([rest[1], rest[2], rest[3], rest[4]]) as usize;
    let after = &rest[5..];
    if size > limit || after.len() < size {
        return None;
    }
    Some((&after[..size], &after[size..]))
}

// Returns the batches after open gates, up to the first closed gate, and the number of bytes before
// that gate.
fn read_batches(alloc: Global, text: &[u8]) -> Result<(Vec<&[u8]>, usize), JournalFault>
    ensures ok { IfOk result (λ read. ReadsAs (bodies read.0.items) read.1 text.now) }
    ensures bad { IfErr result (λ fault. fault ≡ BadRecord → (batches : List (List ℕ)) (size : ℕ) →
        ReadsAs batches size text.now → ⊥) }
    ensures fault { IfErr result IsReadFault }
{
    let mut batches = Vec::new(alloc);
    let mut rest = text;
    while !rest.is_empty() {
        if rest[0] == 0 {
            return Ok((batches, text.len() - rest.len()));
        }
        let Some((batch, following)) = split_body(rest, MAX_BODY) else {
            return Err(JournalFault::BadRecord);
        };
        batches.push(batch)?;
        rest = following;
    }
    Err(JournalFault::BadRecord)
}

/// Returns the content of a half, and the number of bytes that the content uses, including the
/// closed gate.
pub fn read_half(alloc: Global, half: &[u8]) -> Result<(Contents<'_>, usize), JournalFault>
    ensures ok { IfOk result (λ read. IsHalf half.now (content_of read.0) read.1) }
    ensures within { IfOk result (λ read. read.1 ≤ length half.now) }
    ensures bad { IfErr result (λ fault. fault ≡ BadRecord → (content : Content) (used : ℕ) →
        IsHalf half.now content used → ⊥) }
    ensures fault { IfErr result IsReadFault }
{
    if half.is_empty() {
        return Err(JournalFault::BadRecord);
    }
    let Some((snapshot, rest)) = split_body(half, MAX_SNAPSHOT) else {
        return Err(JournalFault::BadRecord);
    };
    let (batches, size) = match read_batches(alloc, rest) {
        Ok(read) => read,
        Err(fault) => return Err(fault),
    };
    let contents = Contents {
        version: half[0],
        snapshot,
        batches,
    };
    Ok((contents, half.len() - rest.len() + size + 1))
}
