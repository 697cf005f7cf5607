//! Worlds, encoded as bytes: the content of a snapshot. (coord_batch encodes batches.)
//!
//! `specs/Worlds.antt` is the grammar of worlds, in the language of formats of coord_batch, over
//! the rows of a world (`Rows` of coord_world). Each row's format depends on the rows before it, so
//! order, ends, groups and degrees are checked during reading.
//!
//! The main theorems are the contracts of `write_world`, which returns the unique encoding of a
//! world, and of `read_world`, which accepts exactly the encodings: the world that it returns is in
//! its ranges, but need not be legal. The functions of `laws` state the laws (`specs/Laws.antt`):
//! no encoding is a prefix of another encoding, a truncated encoding is refused as `Short` at its
//! length, and an encoding followed by more bytes is refused as `Extra` at the first of these
//! bytes.
#![tactic(auto)]

pub mod laws;
mod rows_read;
mod world;
mod world_reading;
mod world_writing;

pub use coord_batch::{Batch, CodecFault, FaultKind, read_batch, write_batch};
pub use world::{read_world, write_world};
