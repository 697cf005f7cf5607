//! The program's commands: each is a function that returns its exit status.
//!
//! `specs/Arguments.antt` defines the request that the program's arguments make, `specs/Faults.antt`
//! the name, the status and the printed line of each fault, and `specs/Printed.antt` the lines for a
//! store. `run` carries out the arguments.
//!
//! Each command except the drill works in a `Folder`, which has the named disks and texts: `run_in`,
//! `init_in`, `check_in`, `show_in`, `migrate_in` and `serve_in`. The public commands only call these
//! over the files of the system, whose contents are unknown. A `MemFolder` has its disk and texts in
//! memory, and their contents are known. `run_in` never waits for others; it leaves `serve` to its
//! caller.
//!
//! The input, the output and standard error of a run are passed as one value, `Streams`. A contract
//! sees the three and their known contents (`specs/Streams.antt`).
//!
//! The functions below the commands work on any disk: `create_store`, whose store begins with the
//! orders of a topology (`specs/Founding.antt`); `check_store` and `show_store`
//! (`specs/Inspection.antt`); `migrate_store` (`specs/Migrating.antt`); and `serve_store` of
//! coord_server. The main theorems are the contracts of `run_in` and `serve_in`: which line is printed
//! for the world that the bytes of the named disk give, which status is returned, and with which faults
//! each command may end, in which order (`specs/Running.antt`, `specs/Making.antt`,
//! `specs/Migrating.antt`, `specs/Inspection.antt`, `specs/Serving.antt`).
#![tactic(auto)]

mod arguments;
mod commands;
mod creation;
mod fault;
mod folder;
mod founding;
mod inspection;
pub mod laws;
mod lent;
mod lines;
mod making;
mod memory;
mod migrating;
mod program;
mod running;
mod serving;
mod status;
mod streams;
mod topology;

pub use arguments::{Task, read_arguments};
pub use commands::{check, init, migrate, run, show};
pub use creation::create_store;
pub use fault::Fault;
pub use folder::{FileFolder, Folder};
pub use inspection::{check_in, check_store, show_in, show_store};
pub use making::init_in;
pub use memory::{MemFolder, Named};
pub use migrating::{migrate_in, migrate_store};
pub use program::run_program;
pub use running::{ToServe, drill, run_in};
pub use serving::{serve, serve_in};
pub use status::report;
pub use streams::Streams;
pub use topology::topology_from;
