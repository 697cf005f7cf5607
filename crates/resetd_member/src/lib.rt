//! The members' rule and the order book for a program in any language that calls C.
//!
//! Each function takes texts and numbers, and returns numbers and a text. The crate reads and
//! writes no file and no socket, and keeps no state between two calls. `include/resetd_member.h`
//! declares the functions. The crates below define their results: coord_wire reads the port's
//! lines, coord_look the view, coord_member has the rule, coord_kept the files' texts and the tag,
//! coord_orders the order book. `specs/Judgement.antt`, `specs/Files.antt` and `specs/Orders.antt`
//! combine these, and `specs/Exports.antt` defines what C receives.
#![tactic(auto)]

mod exports;
mod files;
mod judge;
mod order;
mod orders;
mod status;
