//! The view of a world: the numbers of accepted and settled steps, and its nodes and links in
//! ascending order. It is a separate crate because three callers show a world: the ledger shows its
//! settled world, the drill prints lines, and the administration answers in JSON.
//!
//! `specs/Shown.antt` defines the view of a world, and `specs/Printed.antt` its lines. A `View`
//! holds the data, for callers with their own format. The main contracts are the contract of
//! [`view_of`], which makes the view of a world, and the contract of [`print_view`], which appends
//! its lines to a text.
#![tactic(auto)]

mod making;
mod print;
mod view;

pub use making::view_of;
pub use print::print_view;
pub use view::{LinkView, NodeView, View};
