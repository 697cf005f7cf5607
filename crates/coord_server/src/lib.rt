//! The server: an engine with its threads over a store, and the administration over the engine.
//!
//! [`serve_store`] runs an engine with a flusher and eight workers over a store, and serves the
//! connections of a listener with an [`EngineDesk`], one after another, until a line closes it. To
//! bound its memory, it does so in instances, each over an engine that is taken apart once it keeps
//! many steps ([`serve_instances`]).
//!
//! `specs/EngineDesk.antt` states the answers of that desk, by the statements about the engine's calls.
//! `specs/Printed.antt` states the printed lines. `specs/Ending.antt` states the remaining parts of an instance: one
//! history, and a store that has not stopped. `specs/Instances.antt` states how one instance follows another. The main
//! theorem is in `specs/ServerRun.antt`: `serve_store` ensures it, with the proved answers of an `EngineDesk` as a
//! `Desk`. None of this states that a thread runs, that a packet arrives, or that anyone is served.
#![tactic(auto)]

mod desk;
mod fault;
mod instance;
mod instance_end;
mod instances;
mod last_line;
pub mod laws;
mod local;
mod printer;
mod printing;
mod server_end;
mod serving;
mod setting;
mod signal;
mod signal_line;
mod threads;

pub use desk::EngineDesk;
pub use fault::ServerFault;
pub use instances::serve_instances;
pub use last_line::LastLine;
pub use local::{LocalPort, WORKERS};
pub use printer::{Printer, SignalPrinter, TakableOutput};
pub use server_end::ServerEnd;
pub use serving::{INSTANCE_STEPS, serve_callers, serve_store};
pub use signal::{Signal, SignalSource};
