//! The lanes of a link: each direction between two neighbours is a queue of numbered messages. Only
//! the front travels, until its receipt arrives (stop and wait).
//!
//! `Lane` is the code. `specs/LaneMachine.antt` defines the effect of each call, and the contracts cite these
//! definitions. The main theorem is the contract of `laws::lane_law`, stated in `specs/Moves.antt`: whatever packets
//! and receipts arrive, however late, repeated or invented, the taken messages are a prefix of the sent messages.
#![tactic(auto)]

mod lane;
pub mod laws;

pub use lane::{Lane, PLACES};
