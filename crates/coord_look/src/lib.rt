//! What the member of a node reads in a view: its node's row, the state of the nodes that links
//! connect with it, and its party.
//!
//! [`look_of`] makes a look from a coord_view `View`. `specs/Shown.antt` defines what a world shows
//! a member, with the same `Connected` as the law of waves. `specs/Reading.antt` defines what is
//! read in the rows of a view, which is the contract of [`look_of`]. The main theorem is the
//! contract of [`laws::look_is_shown`]: in the view of a world, a member reads exactly what that
//! world shows the member. [`connected`] finds the nodes that links connect.
#![tactic(auto)]

pub mod laws;
mod reach;
mod reading;

pub use reach::connected;
pub use reading::{Look, look_of};
