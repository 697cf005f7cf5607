//! One history over all starts of a store.
//!
//! A store outlives the programs that open it. `specs/Starts.antt` defines its starts: in each
//! start, either a ledger over the store receives events, or the store is migrated to version 2.
//! The next start begins with what a crash has kept. `specs/OneHistory.antt` states what holds for
//! all starts together: the kept steps are one history, their numbers have no gap, no number that
//! was returned in any start ever names another step, nothing is released twice, and the reply kept
//! for each client is the reply to its last kept order.
//!
//! The main theorem is the contract of [`laws::starts_are_one`], and, for starts that are run on
//! any disk that may crash, the contract of [`run_starts`].
#![tactic(auto)]

pub mod laws;
mod named;
mod serving;
mod starts;

pub use starts::{Outcome, Task, run_starts};
