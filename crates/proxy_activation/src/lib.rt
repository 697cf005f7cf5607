//! The sockets that the service manager opened and passes to a service, as descriptors from 3 on.
//!
//! The environment gives the number of sockets and the process that they are for. [`opened_sockets`] checks both.
//! [`name_sockets`] pairs each name with the descriptor at the same position. `specs/Passing.antt` has the definitions.
#![tactic(auto)]

mod environment;
mod fault;
mod sockets;

pub use environment::opened_sockets;
pub use fault::ActivationFault;
pub use sockets::{FIRST_DESCRIPTOR, PassedSocket, name_sockets};
