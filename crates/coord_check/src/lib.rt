//! The checker of worlds: it reports whether a world is legal, or else the first predicate that
//! fails, in a stated order.
//!
//! coord_world defines legality: the predicate N over a node in `specs/protocol/Legal.antt`, the
//! predicates A to H over a link in `specs/protocol/Links.antt` and in coord_link's lane machine,
//! each as a separate test. `specs/Faults.antt` lists every place where one of these tests fails,
//! in the order in which `check` reports them. The main theorem is the contract of [`check`]: it
//! returns None if and only if the world is legal, and otherwise the first fault of that list,
//! whose letter fails at the reported place.
#![tactic(auto)]

mod in_transit;
mod letters;
mod link_end;
mod node_check;
mod search;
mod violation;

pub use search::check;
pub use violation::{Letter, Violation};
