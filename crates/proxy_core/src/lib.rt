//! The core of the proxy, a state machine: which request lines wait for the server, which lines are in
//! flight, and which connection each answer goes to. The core does no input or output: a loop over sockets
//! calls it.
//!
//! `specs/Machine.antt` defines what each call does. `specs/Run.antt` defines a whole run of the proxy, with
//! everything that arrives and leaves. `specs/Promises.antt` defines what holds for every run. The main
//! theorem is `laws::every_run`.
#![tactic(auto)]

mod choice;
mod counts;
pub mod laws;
mod pending;
mod policy;
mod proxy;

pub use pending::Pending;
pub use policy::{Judgement, Policy};
pub use proxy::{Admission, MOST_FLIGHT_LINES, MOST_HELD, Outcome, Proxy};
