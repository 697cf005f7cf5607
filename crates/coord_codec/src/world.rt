//! Worlds, encoded as bytes.

ghost use Rattle.std.specs.Prelude.{◌≡◌, false, ◌↔◌, ◌≤◌, ◌++◌, length, Ok, Err, IfOk, OnOk};
ghost use Rattle.coord_world.specs.protocol.NumberedWorld.{World as Numbered};
ghost use Rattle.coord_world.specs.protocol.Rows.{RowsFit, listed, rows_of};
ghost use Rattle.coord_world.specs.protocol.Ranges.{InRange};
ghost use Rattle.coord_world.specs.protocol.Legal.{Legal};
ghost use Rattle.coord_batch.specs.Decoding.{AnswersDecoded, bad_version, decoded, is_version};
ghost use Rattle.coord_codec.specs.Sizes.{most_world_bytes as most_bytes};
ghost use Rattle.coord_codec.specs.Worlds.{world};

use crate::world_reading::read_parts;
use crate::world_writing::{put_clients, put_links, put_nodes};
use coord_batch::{CodecFault, Input, ReadError};
use coord_types::{MAX_SNAPSHOT_BYTES, Version};
use coord_world::{Parts, World};
use std::alloc::{AllocError, Global};

/// The length of the longest legal world, in bytes: the step count and three numbers of rows, 64
/// nodes of 28 bytes, 128 links of 52 bytes and 16 clients of 28 bytes; in version 2 also a
/// distance of 8 bytes for each node and for 2 Aborts in each direction of each link.
fn most_world_bytes(version: Version) -> usize {
    if version.number() == 1 { 8_907 } else { 13_515 }
}

/// Returns the rows whose encoding is exactly these bytes, or the fault.
fn decode(alloc: Global, version: u8, bytes: &[u8]) -> Result<Parts, CodecFault>
    ensures exact { AnswersDecoded (λ p. listed p) result (decoded world version bytes.now) }
    ensures version { is_version version ≡ false → result ≡ Err bad_version }
    ensures fit { IfOk result (λ p. RowsFit (listed p)) }
{
    let Some(known) = Version::new(version) else {
        return Err(CodecFault::bad_version());
    };
    let mut input = Input::new(bytes);
    match read_parts(&mut input, alloc, known) {
        Err(error) => Err(error.placed(bytes.len())),
        Ok(_) if input.left() > 0 => Err(ReadError::extra(input.left()).placed(bytes.len())),
        Ok(parts) => Ok(parts),
    }
}

/// Returns the world whose encoding is exactly these bytes, or the fault.
fn assembled(alloc: Global, version: u8, bytes: &[u8]) -> Result<World, CodecFault>
    ensures exact { AnswersDecoded rows_of result (decoded world version bytes.now) }
    ensures version { is_version version ≡ false → result ≡ Err bad_version }
    ensures ranges { IfOk result (λ w. InRange w) }
{
    let parts = decode(alloc, version, bytes)?;
    match World::assemble(alloc, parts) {
        Err(_) => Err(ReadError::Memory.placed(0)),
        Ok(read) => Ok(read),
    }
}

/// Returns the world whose encoding is exactly these bytes, in version 1 or 2 of the grammar
/// (docs/FORMATS.md, "Worlds"). The world need not be legal.
pub fn read_world(alloc: Global, version: u8, bytes: &[u8]) -> Result<World, CodecFault>
    // The bytes are the encoding of the result.
    ensures found { IfOk result (λ w. (w.version ≡ version) × InRange w ×
        (bytes.now ≡ (world version).text (rows_of w))) }
    // An encoding of a world is decoded as that world, unless memory runs out.
    ensures only { (w : Numbered) → w.version ≡ version → InRange w →
        bytes.now ≡ (world version).text (rows_of w)
        → AnswersDecoded (λ v. v) result (Ok w) }
    // A wrong version is reported even if memory runs out.
    ensures version { (result ≡ Err bad_version) ↔ (is_version version ≡ false) }
    // The result is exact, including the fault and its place.
    ensures exact { AnswersDecoded rows_of result (decoded world version bytes.now) }
{
    assembled(alloc, version, bytes)
}

/// Returns the unique encoding of a world, in its version.
pub fn write_world(alloc: Global, written: &World) -> Result<Vec<u8>, AllocError>
    ensures spelled { IfOk result (λ v. v.items ≡
        (world written.now.version).text (rows_of written.now)) }
    ensures len { Legal written.now → IfOk result (λ v. length v.items ≤ MAX_SNAPSHOT_BYTES) }
    // At most 13,515 bytes, so a snapshot has room for each legal world.
    ensures most { Legal written.now → IfOk result (λ v. length v.items ≤ most_bytes) }
{
    written.lemma_in_range();
    let mut out = Vec::with_capacity(alloc, most_world_bytes(written.version()))?;
    put_world(&mut out, written)?;
    Ok(out)
}

fn put_world(out: &mut Vec<u8>, written: &World) -> Result<(), AllocError>
    requires { InRange written.now }
    ensures { OnOk result (out.new.items ≡ out.old.items ++ (world written.now.version).text
        (rows_of written.now)) }
{
    out.extend_from_slice(&written.count().to_be_bytes())?;
    put_nodes(out, written)?;
    put_links(out, written)?;
    put_clients(out, written)?;
    Ok(())
}
