//! The topology file: the initial nodes and links of a new store, and the size of its halves.
//!
//! `read_topology` reads a topology from a TOML text. `specs/` defines the result: `Keys` the keys
//! that a file may have, `Topology` the topology of a TOML table, and `Reading` the topology of a
//! text. The main theorem is the contract of `read_topology`. It returns the topology if the text
//! describes one; `BadKey` if some key is missing or unknown; `BadValue` if the keys are right but
//! a value has a wrong type or is out of range; `NotToml` if the text is too long or the crate
//! `toml` does not accept it; or `OutOfMemory`. Repeated nodes and links, and too many of them, are
//! not faults of the file: the orders made from them are refused. `laws` states that a written
//! topology is read back unchanged, and `runs` has texts whose results are computed through the
//! definitions.
#![tactic(auto)]

mod fault;
mod keys;
pub mod laws;
mod reading;
pub mod runs;
mod topology;
mod values;

pub use fault::ConfigFault;
pub use reading::{MAX_TEXT_BYTES, read_topology};
pub use topology::{LinkEntry, NodeEntry, Topology};
pub use values::{DEFAULT_HALF, MAX_HALF, MIN_HALF};
