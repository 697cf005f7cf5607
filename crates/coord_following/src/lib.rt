//! Members that follow the rule of coord_member and see the worlds of one store mix no runs.
//!
//! The crate has only laws. `specs/Histories.antt` defines the history of a store: the steps that its world takes, and
//! the migration to version 2. `specs/Stores.antt` defines members whose looks see the worlds of such a history, and
//! `specs/Ledgers.antt` members that see the settled worlds of a ledger, which may crash. coord_look defines what a
//! look sees of a world, and coord_member defines what it means that no runs are mixed.
//!
//! `specs/Fences.antt` defines the fences of these starts. By [`laws::older_starts_stay_out`], once a resource has
//! accepted a start, the gate of coord_member keeps out every older start, whose node the accepted start's party has in
//! a later life or at a greater epoch.
//!
//! The main theorem is the contract of [`laws::no_mix_over_a_ledger`]: it joins the members' rule
//! to the ledger that `serve` runs on.
#![tactic(auto)]

pub mod laws;
