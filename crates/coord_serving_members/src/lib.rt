//! Members that look at a running server mix no runs.
//!
//! The crate consists of a law. In `specs/Server.antt` members look at the views that a server showed
//! over its connections, each member in the order in which the views were written. It is no premise
//! that a look is never older than the member's previous look: the server promises that
//! (`RunReturned.antt` of coord_server). coord_look defines what a member reads in a view, and
//! coord_member defines what it means that no runs are mixed.
//!
//! The main theorem is the contract of [`laws::no_mix_over_a_server`], which combines the members' rule
//! with everything that `serve` ensures of a run.
#![tactic(auto)]

pub mod laws;
