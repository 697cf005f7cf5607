//! The policy file of the proxy.
//!
//! A policy is a TOML text with rules (`specs/Reading.antt`). Each rule lists principals and ops, and may list clients
//! and nodes. [`read_policy`] returns exactly the rules of the text, or refuses the whole text for a fault such as an
//! unknown key. The main theorem is the contract of [`Policy::allows`]: a request is allowed exactly if it does not use
//! the proxy's client and some rule permits its principal, its op, its client and each node that it names
//! (`specs/Allowing.antt`).
#![tactic(auto)]

mod allowing;
mod fault;
mod keys;
mod listing;
mod names;
mod reading;
mod rule;
pub mod runs;
mod values;

pub use fault::PolicyFault;
pub use names::{is_principal, is_socket_name};
pub use reading::{MAX_POLICY_BYTES, read_policy};
pub use rule::{Policy, Rule};
