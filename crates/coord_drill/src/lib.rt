//! The drill: reads requests line by line, carries out each request, and prints its result to a writer.
//!
//! It runs on a ledger over a disk that may crash: [`coord_drill`] uses a disk in memory, and
//! [`coord_drill_on`] accepts any such disk. Each accepted step is settled at once by one flight,
//! unless steps are held; a crash loses the other steps. A drill begins in version 1. The line `version
//! 2`, which is valid only before the first accepted step, migrates the empty store in place and
//! switches to version 2. The version determines how an Abort is read and printed.
//!
//! `specs/Grammar.antt` defines the request of a line, and `specs/Asked.antt` what the request asks for
//! in the front world. `specs/Drill.antt` defines the transitions of a drill, which are a few events of
//! the event machine for each line. `specs/Answered.antt` defines the output of a line, and
//! `specs/Printed.antt` the printed lines, except the lines of a view, which are in coord_view.
//!
//! Memory, the device and a crash choose among the machine's answers. Given these choices,
//! `specs/Course.antt` describes the lines of an input: the output of each line, and the disk
//! meanwhile. The events of each line are a run of the ledger's machine on the disk, and the ledger's
//! headline holds at each moment of that run. The main theorem is the contract of [`coord_drill_on`]:
//! the output belongs to the whole input, and at each moment whatever a crash may leave of the disk is
//! a legal world after a prefix of the accepted steps. Every step with visible output is settled by
//! then, so it is in that world ([`printed_survives`]). `specs/Drilled.antt` describes the possible
//! outputs for a whole input without the disk ([`printed_is_drilled`]). The law of the grammar is
//! [`spelled_is_read`]: no two requests share a line.
#![tactic(auto)]

mod answers;
mod asked;
mod console;
mod drill;
mod fault;
mod laws;
mod print;
mod reading;
mod request;
mod words;
mod writing;

pub use console::{coord_drill, coord_drill_on};
pub use fault::Fault;
pub use laws::{printed_is_drilled, printed_survives, spelled_is_read, worked_lines};
