//! Batches of steps, encoded as bytes, and the language of formats that describes batches and
//! worlds.
//!
//! A `Format` (`specs/Format.antt`) defines how a value is encoded, how it is decoded from the
//! left, and which values have an encoding. `specs/Fields.antt` and `specs/Steps.antt` are the
//! grammar of steps and batches in the language of formats. `specs/Decoding.antt` defines which
//! fault is returned, and its place. `specs/Batches.antt` states in plain ranges which batches have
//! an encoding.
//!
//! The main theorems are the contracts of `write_batch`, which returns the unique encoding of a
//! batch, and of `read_batch`, which accepts exactly the encodings. The functions of `laws` state
//! the laws (`specs/Laws.antt`): no encoding is a prefix of another encoding, a truncated encoding
//! is refused as `Short` at its length, and an encoding followed by more bytes is refused as
//! `Extra` at its end. `Input`, `ReadError` and `put_command` are for crates that read and write
//! other formats.
#![tactic(auto)]

mod batch;
mod fault;
mod input;
pub mod laws;
mod step_reading;
mod step_writing;

pub use batch::{Batch, read_batch, write_batch};
pub use fault::{CodecFault, FaultKind, Flaw, ReadError};
pub use input::Input;
pub use step_writing::{put_command, put_message};
