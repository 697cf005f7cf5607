//! Encodes what a journal writes.

ghost use Rattle.std.specs.Prelude.{◌≤◌, ◌≡◌, [], ◌∷◌, ◌++◌, length, IfOk};
ghost use Rattle.coord_journal.specs.declared.layout.TheConstants.{MAX_BODY, MAX_SNAPSHOT};
ghost use Rattle.coord_journal.specs.Text.{formatted, half_front, sized};

use crate::layout::MAGIC;
use std::alloc::{AllocError, Global};

/// Returns the encoding of a batch: the body's length, the body and a new closed gate. Errors: out
/// of memory.
pub fn spell_block(alloc: Global, body: &[u8]) -> Result<Vec<u8>, AllocError>
    requires { length body.now ≤ MAX_BODY }
    ensures { IfOk result (λ block. block.items ≡ sized body.now ++ 0 ∷ []) }
{
    let mut block = Vec::new(alloc);
    block.extend_from_slice(&(body.len() as u32).to_be_bytes())?;
    block.extend_from_slice(body)?;
    block.push(0)?;
    Ok(block)
}

/// Returns the encoding of a half without a batch: the version, the snapshot's length, the snapshot
/// and a closed gate. Errors: out of memory.
pub fn spell_half(alloc: Global, version: u8, snapshot: &[u8]) -> Result<Vec<u8>, AllocError>
    requires { length snapshot.now ≤ MAX_SNAPSHOT }
    ensures { IfOk result (λ half. half.items ≡ half_front version snapshot.now [] ++ 0 ∷ []) }
{
    let mut half = Vec::new(alloc);
    half.push(version)?;
    half.extend_from_slice(&(snapshot.len() as u32).to_be_bytes())?;
    half.extend_from_slice(snapshot)?;
    half.push(0)?;
    Ok(half)
}

/// Returns the encoding of a device without a batch: a header that selects the first half, and that
/// half. Errors: out of memory.
pub fn spell_device(
    alloc: Global,
    half_size: u64,
    version: u8,
    snapshot: &[u8],
) -> Result<Vec<u8>, AllocError>
    requires { length snapshot.now ≤ MAX_SNAPSHOT }
    ensures { IfOk result (λ bytes. bytes.items ≡ formatted half_size version snapshot.now) }
{
    let half = spell_half(alloc, version, snapshot)?;
    let mut bytes = Vec::new(alloc);
    bytes.push(0)?;
    bytes.extend_from_slice(&MAGIC)?;
    bytes.extend_from_slice(&half_size.to_be_bytes())?;
    bytes.extend_from_slice(&half)?;
    Ok(bytes)
}
