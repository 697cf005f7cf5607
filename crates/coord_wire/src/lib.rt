//! The port's lines as a client writes and reads them: the line of an order, the line of its
//! answer, and the line that answers `show`.
//!
//! `specs/OrderLine.antt`, `specs/AnswerLine.antt` and `specs/ShowLine.antt` define them, following
//! docs/FORMATS.md, "Administration lines". [`print_order`] appends the line of an order to a text,
//! [`read_answer`] returns the reply or the refusal in a line, and [`read_show`] the view. The main
//! theorem is the contract of [`laws::names_are_read`]: each name that the server prints for the
//! result or the refusal of an order is read as that result or refusal.
#![tactic(auto)]

mod answer_line;
pub mod laws;
mod names;
mod order_line;
mod show_line;

pub use answer_line::{ReadFault, read_answer};
pub use order_line::print_order;
pub use show_line::read_show;
