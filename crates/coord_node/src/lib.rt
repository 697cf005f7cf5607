//! One node of the reset protocol: its state, and what it does when a reset is requested, a message
//! arrives, or a link is joined or dropped.
//!
//! `Node` is the code. A node sends nothing itself: each call returns [`Effects`], the messages to send and whether the
//! node finished a reset. `specs/Rules.antt` defines the reset rules as functions of a node's state; `specs/Steps.antt`
//! and `specs/IdealRules.antt` build the steps of a whole ideal world from them. The main theorem is the contracts of
//! `Node::{request, on_abort, on_ack, on_ready, lost, gained}`: the rule gives the node's new state, its messages and
//! whether it finished, and a call that runs out of memory leaves the node unchanged.
#![tactic(auto)]

mod effects;
mod node;

pub use coord_types::NodeSet;
pub use effects::Effects;
pub use node::{Node, NodeFields};
